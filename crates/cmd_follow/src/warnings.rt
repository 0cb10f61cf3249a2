//! What is reported on standard error after all packets.

use crate::packet::MOST_OF_PACKET;
use crate::tap::{EndedCapture, TapCounts};
use crate::window::{MOST_HELD, WindowCounts};
use cmd_quoting::OneLine;
use cmd_reporting::OutputFormat;
use its_words::frames::Explanation;
use std::io::Write;

/// Reports which part of the tap with this name was not read. A failed write changes nothing.
pub(crate) fn report_tap<E: Write>(
    name: &str,
    counts: &TapCounts,
    ended: Option<EndedCapture>,
    format: OutputFormat,
    err: &mut E,
) {
    let name = OneLine(name);
    let rejected = counts.rejected;
    if rejected > 0 {
        let (noun, verb) = words_of(rejected);
        let _ = writeln!(
            err,
            "geostation: {name}: {rejected} rejected {noun} {verb} not followed"
        );
    }
    if let Some(EndedCapture { records, fault }) = ended {
        let (code, reason) = (fault.code(), Explanation(format.explain.then_some(fault)));
        let _ = writeln!(
            err,
            "geostation: {name}: {code} at record {records}{reason}"
        );
    }
}

/// Reports which records a window of this many milliseconds did not follow. A failed write changes
/// nothing.
pub(crate) fn report_window<E: Write>(counts: &WindowCounts, millis: u64, err: &mut E) {
    let WindowCounts {
        late,
        crowded,
        early,
    } = *counts;
    if late > 0 {
        let (noun, verb) = words_of(late);
        let _ = writeln!(
            err,
            "geostation: {late} {noun} {verb} not followed: over {millis} ms before an earlier \
             record (use a greater --window)"
        );
    }
    if crowded > 0 {
        let (noun, verb) = words_of(crowded);
        let _ = writeln!(
            err,
            "geostation: {crowded} {noun} {verb} not followed: over {MOST_OF_PACKET} frames of a \
             packet"
        );
    }
    if early > 0 {
        let noun = if early == 1 { "packet" } else { "packets" };
        let _ = writeln!(
            err,
            "geostation: {early} {noun} not followed to the end: over {MOST_HELD} frames in the \
             window (use a smaller --window)"
        );
    }
}

/// Returns the noun and the verb for this many records.
fn words_of(count: u64) -> (&'static str, &'static str) {
    if count == 1 {
        ("record", "is")
    } else {
        ("records", "are")
    }
}
