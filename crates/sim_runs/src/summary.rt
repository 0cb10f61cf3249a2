//! The lines of a run's summary.

use crate::report::Report;
use cmd_reporting::OutputFormat;
use its_gnvalue::NoMemory;
use its_words::json_lines::{JsonLine, Printed};
use serde::Serialize;
use sim_results::{Doubt, Reach};
use sim_simulation::SimulationFault;
use sim_simulation::tally::{HeldTally, SendSummary, Tally, Totals};
use std::alloc::Global;
use std::fmt;
use std::io::Write;

/// The counts of a run: its events and, if any station contends, the held frames.
#[derive(Clone, Copy)]
pub(crate) struct RunCounts<'a> {
    pub(crate) tally: &'a Tally,
    pub(crate) held: Option<&'a HeldTally>,
}

impl RunCounts<'_> {
    /// Returns the summary of the packet for an area with this number, with the frames that were
    /// sent.
    fn sent(&self, place: usize, send: SendSummary) -> SendSummary {
        match self.held {
            Some(held) => send.without_frames(held.unsent_of(place)),
            None => send,
        }
    }

    /// Returns the counts of all events, with the frames that were sent.
    fn totals(&self) -> Totals {
        let totals = self.tally.totals();
        match self.held {
            Some(held) => totals.without_frames(held.unsent()),
            None => totals,
        }
    }
}

/// Prints one line per packet for an area that was sent, in order, and one with the counts of all
/// events, unless the run was cut short. With `explain` the line of a packet has the stations that
/// it didn't reach.
pub(crate) fn print_summary<W: Write>(
    alloc: Global,
    counts: RunCounts<'_>,
    report: &Report<'_>,
    lines: OutputFormat,
    is_whole: bool,
    out: &mut W,
) -> Result<(), SimulationFault> {
    if lines.json {
        print_objects(alloc, counts, report, lines.explain, out)?;
        return if is_whole {
            print_total_object(alloc, counts, report, out)
        } else {
            Ok(())
        };
    }
    for (place, send) in counts.tally.sends().iter().enumerate() {
        let missed = missed_of(report, place, lines.explain)?;
        let send = counts.sent(place, *send);
        writeln!(out, "{send}{}", MissedText(&missed))?;
    }
    if is_whole {
        let (full, doubts) = (
            FullText(report.table_full()),
            DoubtsText(report.doubts().len()),
        );
        let (totals, held) = (counts.totals(), HeldText(counts.held));
        writeln!(out, "{totals}{held}{full}{doubts}")?;
    }
    Ok(())
}

/// Prints one object per packet for an area that was sent, in order.
fn print_objects<W: Write>(
    alloc: Global,
    counts: RunCounts<'_>,
    report: &Report<'_>,
    explain: bool,
    out: &mut W,
) -> Result<(), SimulationFault> {
    let mut line = JsonLine::new(alloc)?;
    for (place, send) in counts.tally.sends().iter().enumerate() {
        let missed = missed_of(report, place, explain)?;
        let send = counts.sent(place, *send);
        out.write_all(line.of(&SendLine { send, missed })?)?;
    }
    Ok(())
}

/// Prints the counts of all events as an object.
fn print_total_object<W: Write>(
    alloc: Global,
    counts: RunCounts<'_>,
    report: &Report<'_>,
    out: &mut W,
) -> Result<(), SimulationFault> {
    let mut line = JsonLine::new(alloc)?;
    let total = RunCountsLine {
        counts: counts.totals(),
        held: counts.held.map(|held| held.held()),
        cancelled: counts.held.map(|held| held.cancelled()),
        table_full: report.table_full(),
        doubts: doubts_of(alloc, report)?,
    };
    out.write_all(line.of(&TotalLine { total })?)?;
    Ok(())
}

/// A station that a packet didn't reach, and how far it came there.
type Miss = (usize, Reach);

/// Returns the stations that a packet didn't reach, if codes are explained.
fn missed_of(
    report: &Report<'_>,
    send: usize,
    explain: bool,
) -> Result<Option<Vec<Miss>>, NoMemory> {
    if explain {
        report.missed(send)
    } else {
        Ok(None)
    }
}

/// Returns what is doubtful about the run, as objects. `None` if nothing is.
fn doubts_of<'a>(
    alloc: Global,
    report: &'a Report<'_>,
) -> Result<Option<Vec<DoubtKeys<'a>>>, NoMemory> {
    let mut doubts = Vec::new(alloc);
    for doubt in report.doubts() {
        doubts.push(DoubtKeys {
            doubt: doubt.word(),
            event: doubt.event(),
            reason: Printed(doubt),
        })?;
    }
    Ok(if doubts.is_empty() {
        None
    } else {
        Some(doubts)
    })
}

/// The stations that a packet didn't reach. It prints for example as ` (missed: 10 lost, 11 full)`,
/// or as nothing.
#[derive(Clone, Copy)]
struct MissedText<'a>(&'a Option<Vec<Miss>>);

impl fmt::Display for MissedText<'_> {
    fn fmt<W: fmt::Write>(&self, f: &mut fmt::Formatter<W>) -> fmt::Result {
        let Some(missed) = self.0 else {
            return Ok(());
        };
        for (place, (station, reach)) in missed.iter().enumerate() {
            let before = if place == 0 { " (missed:" } else { "," };
            write!(f, "{before} {station} {reach}")?;
        }
        if missed.is_empty() {
            Ok(())
        } else {
            f.write_str(")")
        }
    }
}

/// How many frames were held, and how many of them were cancelled. It prints for example as ` held
/// 3 cancelled 1`, or as nothing.
#[derive(Clone, Copy)]
struct HeldText<'a>(Option<&'a HeldTally>);

impl fmt::Display for HeldText<'_> {
    fn fmt<W: fmt::Write>(&self, f: &mut fmt::Formatter<W>) -> fmt::Result {
        match self.0 {
            Some(held) => write!(f, " held {} cancelled {}", held.held(), held.cancelled()),
            None => Ok(()),
        }
    }
}

/// How many receptions met a full location table. It prints for example as ` full 3`, or as
/// nothing.
#[derive(Clone, Copy)]
struct FullText(Option<usize>);

impl fmt::Display for FullText {
    fn fmt<W: fmt::Write>(&self, f: &mut fmt::Formatter<W>) -> fmt::Result {
        match self.0 {
            Some(receptions) => write!(f, " full {receptions}"),
            None => Ok(()),
        }
    }
}

/// How many doubts there are about the run. It prints for example as ` doubts 3`, or as nothing.
#[derive(Clone, Copy)]
struct DoubtsText(usize);

impl fmt::Display for DoubtsText {
    fn fmt<W: fmt::Write>(&self, f: &mut fmt::Formatter<W>) -> fmt::Result {
        match self.0 {
            0 => Ok(()),
            doubts => write!(f, " doubts {doubts}"),
        }
    }
}

/// The JSON object of a packet for an area.
#[derive(Drop, Serialize)]
struct SendLine {
    #[serde(flatten)]
    send: SendSummary,
    #[serde(skip_serializing_if = "Option::is_none")]
    missed: Option<Vec<Miss>>,
}

/// The JSON object of a doubt, with its keys in order.
#[derive(Clone, Copy, Serialize)]
struct DoubtKeys<'a> {
    doubt: &'static str,
    #[serde(skip_serializing_if = "Option::is_none")]
    event: Option<usize>,
    reason: Printed<&'a Doubt>,
}

/// The counts of a run, how many receptions met a full location table, if any did, and what is
/// doubtful, if anything is.
#[derive(Drop, Serialize)]
struct RunCountsLine<'a> {
    #[serde(flatten)]
    counts: Totals,
    #[serde(skip_serializing_if = "Option::is_none")]
    held: Option<usize>,
    #[serde(skip_serializing_if = "Option::is_none")]
    cancelled: Option<usize>,
    #[serde(skip_serializing_if = "Option::is_none")]
    table_full: Option<usize>,
    #[serde(skip_serializing_if = "Option::is_none")]
    doubts: Option<Vec<DoubtKeys<'a>>>,
}

/// The object of the totals, under its key.
#[derive(Drop, Serialize)]
struct TotalLine<'a> {
    total: RunCountsLine<'a>,
}
