//! The command `follow`.

ghost use Rattle.std.specs.Prelude.{◌≡◌, if◌then◌else◌};

use crate::key::FollowBy;
use crate::names::tap_names;
use crate::packet::FollowedPacket;
use crate::row::{FollowForm, RowPrinter};
use crate::standard::StandardInput;
use crate::summary::Summary;
use crate::tables::Summed;
use crate::tap::{Tap, TapCounts, next_packet, open_tap};
use crate::warnings::{report_tap, report_window};
use crate::window::Window;
use cap_pcap::RecordSource;
use cap_records::Selection;
use cmd_reporting::{Fault, Io, OutputFormat, Status, is_standard, open};
use cmd_times::Time;
use std::alloc::{AllocError, Global};
use std::io::{Read, Write};
use std::rt::Files;

/// Which packets are followed over which captures, and how that is printed.
#[derive(Drop)]
pub struct FollowOptions<'a> {
    /// The names of the captures. One of them may be standard input.
    pub files: Vec<&'a str>,
    /// Which records of each capture.
    pub selection: Selection,
    /// By what frames are copies of one packet.
    pub by: FollowBy,
    /// How long after its first frame a packet is followed, in milliseconds.
    pub window: u64,
    /// Whether a summary is printed instead of rows.
    pub summary: bool,
    /// How it is printed.
    pub form: FollowForm,
    /// How times are printed.
    pub time: Time,
}

/// Follows each packet over several captures, and prints a row per packet and capture, or a
/// summary. `input` is standard input.
///
/// `Refused` if a capture was refused. `Failed` if a file could not be read or standard output not
/// written, or memory ran out.
pub fn follow_files<R: Files + AllocGlobal, I: Read + Drop, W: Write, E: Write>(
    rt: &R,
    what: &FollowOptions<'_>,
    input: I,
    io: &mut Io<W, E>,
) -> Status
where
    R::File: Read + Drop,
{
    let ended = follow(rt, what, input, io);
    io.status_of(ended)
}

/// Opens the captures, and follows their packets. Returns the fault that ends the command before it
/// is done.
fn follow<'a, R: Files + AllocGlobal, I: Read + Drop, W: Write, E: Write>(
    rt: &R,
    what: &FollowOptions<'a>,
    input: I,
    io: &mut Io<W, E>,
) -> Result<Status, Fault<'a>>
where
    R::File: Read + Drop,
{
    let alloc = rt.alloc();
    let mut input = Some(input);
    let mut taps = Vec::new(alloc);
    for (number, file) in what.files.iter().enumerate() {
        let input = StandardInput::of(file, &mut input)?;
        let reader = open(rt, file, input)?;
        taps.push(open_tap(alloc, number, file, &what.selection, what.by, reader)?)?;
    }
    let names = tap_names(alloc, what.files.as_slice())?;
    follow_taps(alloc, what, taps, names.as_slice(), io)
}

/// What is done with the packets.
#[derive(Drop)]
enum Output<'n> {
    /// The rows of each packet are printed.
    Rows(RowPrinter<'n>),
    /// Each packet is counted.
    Summary(Summary),
}

impl<'n> Output<'n> {
    /// Returns what is done with the packets of taps with these names, and prints what comes before
    /// them.
    fn begin<'f, W: Write>(
        alloc: Global,
        what: &FollowOptions<'_>,
        names: &'n [&'n str],
        out: &mut W,
    ) -> Result<Output<'n>, Fault<'f>> {
        if what.summary {
            return Ok(Output::Summary(Summary::new(alloc, names.len())?));
        }
        let rows = RowPrinter::new(alloc, what.form, what.time, names)?;
        rows.begin(out)?;
        Ok(Output::Rows(rows))
    }

    /// Prints or counts a packet that is complete.
    fn put<'f, W: Write>(&mut self, packet: &FollowedPacket, out: &mut W) -> Result<(), Fault<'f>> {
        match self {
            Output::Rows(rows) => rows.put(packet, out),
            Output::Summary(summary) => {
                summary.add(packet)?;
                Ok(())
            }
        }
    }

    /// Prints the summary of all packets of taps with these names, if they were counted.
    fn end<'f, S: RecordSource + Drop, W: Write>(
        &self,
        alloc: Global,
        form: FollowForm,
        taps: &Vec<Tap<'_, S>>,
        names: &[&str],
        out: &mut W,
    ) -> Result<(), Fault<'f>> {
        let Output::Summary(summary) = self else {
            return Ok(());
        };
        let counts = counts_of(alloc, taps)?;
        let summed = Summed {
            summary,
            names,
            counts: counts.as_slice(),
        };
        summed.print(alloc, form, out)
    }
}

/// Follows the packets of taps with these names.
fn follow_taps<'a, 'n, S: RecordSource + Drop, W: Write, E: Write>(
    alloc: Global,
    what: &FollowOptions<'a>,
    taps: Vec<Tap<'a, S>>,
    names: &'n [&'n str],
    io: &mut Io<W, E>,
) -> Result<Status, Fault<'a>> {
    let mut taps = taps;
    let mut window = Window::new(alloc, what.window);
    let mut output = Output::begin(alloc, what, names, &mut io.out)?;
    follow_packets(what, &mut taps, &mut window, &mut output, &mut io.out)?;
    output.end(alloc, what.form, &taps, names, &mut io.out)?;
    let is_whole = report_taps(&taps, names, io.format, &mut io.err);
    report_window(&window.counts, what.window, &mut io.err);
    Ok(status_of(is_whole))
}

/// Returns the status of a run. The argument says whether all taps were read to their ends without
/// an error.
fn status_of(are_whole: bool) -> Status
    ensures { result ≡ (if are_whole then Status.Done else Status.Refused) }
{
    if are_whole {
        Status::Done
    } else {
        Status::Refused
    }
}

/// Reads all packets in the order of their times, and prints or counts each when it is complete.
fn follow_packets<'a, S: RecordSource + Drop, W: Write>(
    what: &FollowOptions<'a>,
    taps: &mut Vec<Tap<'a, S>>,
    window: &mut Window,
    output: &mut Output<'_>,
    out: &mut W,
) -> Result<(), Fault<'a>> {
    let waits = what.files.iter().any(|file| is_standard(file));
    // The range is there so that the walk ends by its form. No file reaches its end.
    for _ in 0..u64::MAX {
        if waits {
            out.flush()?;
        }
        let Some(seen) = next_packet(taps)? else {
            break;
        };
        window.advance(seen.sighting.stamp);
        for _ in 0..window.count() {
            match window.take_complete() {
                Some(packet) => output.put(&packet, out)?,
                None => break,
            }
        }
        window.add(seen)?;
    }
    for _ in 0..window.count() {
        if let Some(packet) = window.take_oldest() {
            output.put(&packet, out)?;
        }
    }
    Ok(())
}

/// Returns the counts of the taps.
fn counts_of<S: RecordSource + Drop>(
    alloc: Global,
    taps: &Vec<Tap<'_, S>>,
) -> Result<Vec<TapCounts>, AllocError> {
    let mut counts = Vec::new(alloc);
    for tap in taps.iter() {
        counts.push(tap.counts)?;
    }
    Ok(counts)
}

/// Reports what was not read of the taps with these names. Returns whether no capture was refused.
fn report_taps<S: RecordSource + Drop, E: Write>(
    taps: &Vec<Tap<'_, S>>,
    names: &[&str],
    format: OutputFormat,
    err: &mut E,
) -> bool {
    let mut is_whole = true;
    for (tap, name) in taps.iter().zip(names) {
        report_tap(name, &tap.counts, tap.ended, format, err);
        is_whole = is_whole && tap.ended.is_none();
    }
    is_whole
}
