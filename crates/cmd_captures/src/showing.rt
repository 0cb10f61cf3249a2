//! The command `show`.

ghost use Rattle.std.specs.Prelude.{◌≡◌, ◌≢◌, IfErr};
ghost use Rattle.cmd_captures.specs.Faults.{show_fault_status};
ghost use Rattle.cmd_times.specs.declared.moment.Time.TheVariants as times;

use crate::field::{FIELDS, FRAME_FIELDS, Field};
use crate::frame_line::FrameLine;
use crate::output::Output;
use crate::outside_line::OutsideLine;
use crate::refused_lines::RefusedAt;
use crate::rows::{RowForm, Rows};
use crate::text::next_moment;
use cap_records::{
    CaptureFile, RecordFault, RecordPlace, RecordVisitor, RefusedCapture, SeenFrame, Selection,
    each_record, open_records,
};
use cmd_quoting::OneLine;
use cmd_reporting::{CommandFault, ExitStatus, Fault, Io, OutputFormat, Status, open};
use cmd_times::{Clock, Time};
use its_linkframe::Source;
use std::alloc::{AllocError, Global};
use std::io::{Read, Write};
use std::rt::Files;
use thiserror::Error;

/// How `show` prints records.
#[derive(Debug, Drop)]
pub struct Showing {
    /// How times are printed.
    pub time: Time,
    /// The keys whose values are printed for each record: as a row of CSV after a row of their names,
    /// or as an object in JSON. Without them each record has a line.
    pub fields: Option<Vec<Field>>,
}

/// Why records were not shown.
#[derive(Debug, Drop, Error)]
pub(crate) enum ShowFault<'a> {
    /// Times should be printed in UTC, and the file has no epoch.
    #[error("geostation: {}: no epoch", OneLine(*.0))]
    NoEpoch(&'a str),
    /// A fault that can end any command.
    #[error("{0}")]
    Stopped(Fault<'a>),
}

impl CommandFault for ShowFault<'_> {
    type Ending = ExitStatus;

    ghost use Rattle.cmd_captures.specs.Faults.{show_fault_status};

    ghost status_of = { show_fault_status };

    /// Returns `BadArguments` if there is no epoch, and otherwise `Failed`.
    fn status(&self) -> ExitStatus {
        match self {
            ShowFault::NoEpoch(_) => ExitStatus::BadArguments,
            ShowFault::Stopped(fault) => ExitStatus::Ended(fault.status()),
        }
    }

    fn report<E: Write>(&self, format: OutputFormat, err: &mut E) {
        match self {
            ShowFault::NoEpoch(_) => {
                let _ = writeln!(err, "{self}");
            }
            ShowFault::Stopped(fault) => fault.report(format, err),
        }
    }
}

impl<'a> From<Fault<'a>> for ShowFault<'a> {
    ghost use Rattle.cmd_captures.specs.declared.showing.ShowFault.TheVariants.{Stopped};

    ghost from_gives = { λ fault e. e ≡ Stopped fault };

    fn from(fault: Fault<'a>) -> ShowFault<'a> {
        ShowFault::Stopped(fault)
    }
}

/// A line for each record.
#[derive(Drop)]
struct AllRecords {
    output: Output,
    clock: Clock,
    /// Objects of frames that were cut, in JSON.
    cut: Option<Rows>,
}

impl RecordVisitor for AllRecords {
    fn visit<'f, W: Write>(
        &mut self,
        place: RecordPlace,
        seen: Result<SeenFrame<'_>, RecordFault>,
        out: &mut W,
    ) -> Result<(), Fault<'f>> {
        let moment = next_moment(&mut self.clock, &place);
        if place.known.is_some()
            && let Some(rows) = &mut self.cut
        {
            return rows.print(place, moment, seen, out);
        }
        let output = &mut self.output;
        match seen {
            Ok(SeenFrame::Profile(frame)) => {
                output.frame(&FrameLine::of(moment, &frame, &place), out)
            }
            Ok(SeenFrame::Outside(frame)) => {
                output.outside(&OutsideLine::of(moment, &frame, &place), out)
            }
            Err(fault) => {
                let refused = RefusedAt::new(moment, fault, output.explain);
                output.refused(&refused, out)
            }
        }
    }
}

/// Prints a line, or a row of values, for each selected record of the file. `input` is standard
/// input.
///
/// `BadArguments` if times should be printed in UTC and the file has no epoch, as in a capture of
/// this project. `Refused` if a selected record or the file was rejected. `Failed` if the file
/// could not be read, standard output could not be written, or memory ran out.
pub fn show_file<R: Files + AllocGlobal, I: Read + Drop, W: Write, E: Write>(
    rt: &R,
    file: &str,
    input: I,
    selection: &Selection,
    showing: &Showing,
    io: &mut Io<W, E>,
) -> ExitStatus
where
    R::File: Read + Drop,
    ensures { ¬ (showing.now.time ≡ times.Utc) → result ≢ ExitStatus.BadArguments }
{
    let ended = show_records(rt, file, input, selection, showing, io);
    io.status_of(ended)
}

/// Shows the records of the file. Returns the fault that ends the command before it is done.
fn show_records<'a, R: Files + AllocGlobal, I: Read + Drop, W: Write, E: Write>(
    rt: &R,
    file: &'a str,
    input: I,
    selection: &Selection,
    showing: &Showing,
    io: &mut Io<W, E>,
) -> Result<Status, ShowFault<'a>>
where
    R::File: Read + Drop,
    ensures stopped { ¬ (showing.now.time ≡ times.Utc) →
        IfErr result (λ fault. show_fault_status fault ≢ ExitStatus.BadArguments) }
{
    let reader = open(rt, file, input)?;
    let records = open_records(rt.alloc(), file, selection.format, reader)?;
    if showing.time == Time::Utc && records.is_capture() {
        return Err(ShowFault::NoEpoch(file));
    }
    Ok(show_opened(rt.alloc(), file, records, selection, showing, io)?)
}

/// Shows the records of a file that is open.
fn show_opened<'a, S: Source + Drop, W: Write, E: Write>(
    alloc: Global,
    file: &'a str,
    records: CaptureFile<S>,
    selection: &Selection,
    showing: &Showing,
    io: &mut Io<W, E>,
) -> Result<Status, Fault<'a>> {
    let clock = Clock::new(showing.time);
    let Some(fields) = &showing.fields else {
        return show_lines(alloc, file, records, selection, clock, io);
    };
    let form = if io.format.json {
        RowForm::Object
    } else {
        RowForm::Csv
    };
    let rows = Rows::new(alloc, fields.as_slice(), form, clock)?;
    show_rows(alloc, file, records, selection, rows, io)
}

/// A line for each record.
fn show_lines<'a, S: Source + Drop, W: Write, E>(
    alloc: Global,
    file: &'a str,
    records: CaptureFile<S>,
    selection: &Selection,
    clock: Clock,
    io: &mut Io<W, E>,
) -> Result<Status, Fault<'a>> {
    let mut visitor = AllRecords {
        output: Output::new(alloc, io.format)?,
        clock,
        cut: if selection.partial && io.format.json {
            Some(rows_of_cut(alloc, clock)?)
        } else {
            None
        },
    };
    let walked = each_record(alloc, file, selection, records, &mut visitor, &mut io.out)?;
    visitor.output.end(&walked, &mut io.out)?;
    Ok(walked.status())
}

/// Returns the rows for the objects of cut frames: the keys of a frame that are there, and that it
/// was cut.
fn rows_of_cut(alloc: Global, clock: Clock) -> Result<Rows, AllocError> {
    let mut fields = Vec::new(alloc);
    fields.extend_from_slice(&FIELDS[..FRAME_FIELDS])?;
    fields.push(Field::Media)?;
    fields.push(Field::Cut)?;
    Rows::new(alloc, fields.as_slice(), RowForm::CutObject, clock)
}

/// Prints one row per record after a row of the keys' names, or one object in JSON. A fault of the
/// file is an object too, or is reported on standard error.
fn show_rows<'a, S: Source + Drop, W: Write, E: Write>(
    alloc: Global,
    file: &'a str,
    records: CaptureFile<S>,
    selection: &Selection,
    rows: Rows,
    io: &mut Io<W, E>,
) -> Result<Status, Fault<'a>> {
    let mut visitor = rows;
    let end = if io.format.json {
        Some(Output::new(alloc, io.format)?)
    } else {
        visitor.write_heads(&mut io.out)?;
        None
    };
    let walked = each_record(alloc, file, selection, records, &mut visitor, &mut io.out)?;
    if let Some(mut output) = end {
        output.end(&walked, &mut io.out)?;
    } else if let Some(fault) = walked.fault {
        let refused = RefusedCapture::new(walked.read, fault, io.format.explain);
        let _ = writeln!(io.err, "geostation: {refused}");
    }
    Ok(walked.status())
}
