//! The command `convert`.

ghost use Rattle.std.specs.Prelude.{◌≡◌, ◌≢◌, ℕ, List, IfErr, IfOk, None, true};
ghost use Rattle.cap_pcap.specs.Sources.{Gives};
ghost use Rattle.cmd_captures.specs.Conversions.{IsCopied, Writes};
ghost use Rattle.cmd_captures.specs.Conversions.{is_left_out, told_status, said_by};
ghost use Rattle.cmd_reporting.specs.FileNames.{format_of_output};
ghost use Rattle.cmd_reporting.specs.FileNames.{is_standard as names_standard};
ghost use Rattle.cmd_reporting.specs.Statuses.{IsStopped};

use crate::prompt::Prompt;
use crate::refused_lines::UnreadRecord;
use crate::written::{PutRefusal, Written};
use cap_pcap::{
    AnySource, Format, LONGEST_CAPTURED, OpenFault, RecordHeader, SinkFault, SourceFault,
};
use cap_records::{
    FileFault, Pulled, RecordFault, RecordReader, Records, RefusedCapture, Selection,
};
use cmd_reporting::{
    ExitStatus, Fault, Io, LeftOut, OutputFormat, Status, Target, WriterFault, create_output,
    is_standard, keep_apart, open,
};
use its_linkframe::{Counted, Source};
use std::alloc::{AllocError, Global};
use std::io::{Read, Write};
use std::rt::Files;

/// Up to this many records that are left out, there is no line with their number, since each has
/// its own line.
const MOST_COUNTED: u64 = 20;

/// What is converted, and to what.
#[derive(Clone, Copy, Debug, PartialEq, Eq)]
pub struct Conversion<'a> {
    /// The name of the file that is read. `-` is standard input.
    pub file: &'a str,
    /// The file that is written. `-` is standard output.
    pub target: Target<'a>,
    /// Whether frames are written instead of their whole records. In a capture they always are.
    pub frames_only: bool,
}

/// Writes the selected records of the file to the conversion's target, one by one, in order. The
/// target is created after the file was opened. `input` is standard input. Frames are not checked.
/// A record that doesn't fit the target is left out and reported on standard error. A fault that
/// ends the file is reported too, and what was read before it is written.
///
/// `BadArguments`, before anything is opened, if nothing says the target's format, and before the
/// target is created if it is the file itself. `Refused` if a record was left out or the file has a
/// fault. `Failed` if a file could not be read, created or written, or memory ran out.
pub fn convert_file<R: Files + AllocGlobal, I: Read + Drop, W: Write, E: Write>(
    rt: &R,
    conversion: Conversion<'_>,
    selection: &Selection,
    input: I,
    io: &mut Io<W, E>,
) -> ExitStatus
where
    R::File: Read + Write + Drop,
    ensures format { format_of_output conversion.entry.target.to conversion.entry.target.name.now
        ≡ None → result ≡ ExitStatus.BadArguments }
    ensures standard { names_standard conversion.entry.target.name.now ≡ true
        → ¬ (format_of_output conversion.entry.target.to conversion.entry.target.name.now ≡ None)
        → result ≢ ExitStatus.BadArguments }
{
    let to = match conversion.target.format() {
        Ok(to) => to,
        Err(fault) => return io.status_of(Err(fault)),
    };
    let converting = Converting {
        conversion,
        to,
        format: io.format,
    };
    let ended = convert_to(rt, converting, selection, input, io);
    io.status_of(ended)
}

/// What is converted, to which format, and how lines on standard error are printed.
#[derive(Clone, Copy)]
struct Converting<'a> {
    conversion: Conversion<'a>,
    to: Format,
    format: OutputFormat,
}

/// Opens the file, and only then creates the target. If records are read from standard input, each
/// write to standard output is flushed.
fn convert_to<'a, R: Files + AllocGlobal, I: Read + Drop, W: Write, E: Write>(
    rt: &R,
    converting: Converting<'a>,
    selection: &Selection,
    input: I,
    io: &mut Io<W, E>,
) -> Result<Status, WriterFault<'a, Fault<'a>>>
where
    R::File: Read + Write + Drop,
    ensures standard { names_standard converting.entry.conversion.target.name.now ≡ true
        → IfErr result IsStopped }
{
    let Conversion { file, target, .. } = converting.conversion;
    let reader = open(rt, file, input)?;
    keep_apart(rt, target.name, file)?;
    let out = Prompt::new(&mut io.out, is_standard(file));
    let writer = create_output(rt, target.name, out)?;
    Ok(convert_records(
        rt.alloc(),
        converting,
        selection,
        reader,
        writer,
        &mut io.err,
    )?)
}

/// Writes the selected records of the reader's file.
fn convert_records<'a, R: Read + Drop, W: Write + Drop, E: Write>(
    alloc: Global,
    converting: Converting<'a>,
    selection: &Selection,
    reader: R,
    writer: W,
    err: &mut E,
) -> Result<Status, Fault<'a>> {
    let conversion = converting.conversion;
    let mut written = Written::new(writer, converting.to, conversion.frames_only);
    let mut reporter = Reporter {
        file: conversion.file,
        target: conversion.target.name,
        read_as: selection.format,
        format: converting.format,
        left_out: 0,
    };
    let keep = LONGEST_CAPTURED as usize;
    let ended = match AnySource::open(alloc, Counted::new(reader), selection.format, keep) {
        Ok(source) => copy(alloc, &mut reporter, selection, source, &mut written, err),
        Err(OpenFault::Io) => Err(Fault::CannotRead(conversion.file)),
        Err(OpenFault::Gzip) => Ok(reporter.refuse(FileFault::gzip(), 0, err)),
    };
    let is_whole = written.end();
    let losses = written.losses();
    let flushed = written.into_writer().flush();
    let status = ended?;
    if !is_whole || flushed.is_err() {
        return Err(Fault::of_target(reporter.target));
    }
    reporter.report_left_out(err);
    losses.report(err);
    Ok(status)
}

/// Writes the selected records of the source, one by one, until it ends. A record that doesn't fit
/// the file is reported and left out.
fn copy<'a, S: Source + Drop, W: Write + Drop, E: Write>(
    alloc: Global,
    reporter: &mut Reporter<'a>,
    selection: &Selection,
    source: AnySource<S>,
    written: &mut Written<W>,
    err: &mut E,
) -> Result<Status, Fault<'a>>
    ensures { IfOk result (IsCopied Gives said_by selection.now.choice
        selection.now.count selection.now.signed source written.old written.new) }
{
    let reader = WholeRecords {
        room: Vec::new(alloc),
    };
    let mut records = Records::new(source, reader, Vec::new(alloc), *selection);
    let mut refused = false;
    loop {
        match records.next_chosen()? {
            Pulled::Chosen(head, ()) => {
                let (target, signed) = (reporter.target, selection.signed);
                let copied = copy_record(target, signed, &head, &mut records.octets, written)?;
                reporter.report(copied, records.counts.last(), err);
                let is_left_out = copied.is_left_out();
                refused = refused || is_left_out;
            }
            Pulled::Interface => {
                let source = &records.source;
                if written.meet(source.layer(), source.newest()).is_err() {
                    return Err(Fault::of_target(reporter.target));
                }
            }
            Pulled::End(Some(fault)) => return reporter.end_file(fault, records.counts.read, err),
            Pulled::End(None) => return Ok(status_of(refused)),
        }
    }
}

/// Returns the exit status.
fn status_of(refused: bool) -> Status
    ensures { result ≡ told_status refused }
{
    if refused {
        Status::Refused
    } else {
        Status::Done
    }
}

/// Only finds whether a record is selected. Its octets stay as they are.
#[derive(Drop)]
struct WholeRecords {
    /// The buffer that a frame is read in.
    room: Vec<u8>,
}

impl RecordReader for WholeRecords {
    ghost use Rattle.cmd_captures.specs.Conversions.{ReadsWhole};

    type Record = ();

    ghost Reads = { ReadsWhole };

    fn read(
        &mut self,
        selection: &Selection,
        head: &RecordHeader,
        octets: &mut Vec<u8>,
    ) -> Result<Option<()>, AllocError> {
        if selection.has_record(head, octets.as_slice(), &mut self.room)? {
            Ok(Some(()))
        } else {
            Ok(None)
        }
    }
}

/// The outcome of a selected record.
#[derive(Clone, Copy)]
enum Copied {
    /// The record was written.
    Written,
    /// The record doesn't fit the file.
    LeftOut(SinkFault),
    /// Its secured frame can't be read, so the inner frame isn't written.
    Unread(RecordFault),
}

impl Copied {
    /// Whether the record was left out.
    fn is_left_out(self) -> bool
        ensures { result ≡ is_left_out self }
    {
        match self {
            Copied::Written => false,
            Copied::LeftOut(_) => true,
            Copied::Unread(_) => true,
        }
    }
}

/// Writes a selected record. With `signed`, the inner frame of a secured frame is written.
/// `CannotWrite` if the file that is written failed.
fn copy_record<'a, W: Write + Drop>(
    target: &'a str,
    signed: bool,
    head: &RecordHeader,
    octets: &mut Vec<u8>,
    written: &mut Written<W>,
) -> Result<Copied, Fault<'a>>
    ensures { IfOk result (λ copied. (added : List ℕ) × Writes signed head.now octets.old.items
        written.old added written.new copied) }
{
    match written.put(head, octets, signed) {
        Ok(()) => Ok(Copied::Written),
        Err(PutRefusal::Unread(fault)) => Ok(Copied::Unread(fault)),
        Err(PutRefusal::Sink(fault)) => {
            if fault.word().is_none() {
                return Err(Fault::of_target(target));
            }
            Ok(Copied::LeftOut(fault))
        }
    }
}

/// Reports on standard error what is wrong with the files.
#[derive(Drop)]
struct Reporter<'a> {
    /// The name of the file that is read.
    file: &'a str,
    /// The name of the one that is written.
    target: &'a str,
    /// The given format of the file that is read.
    read_as: Option<Format>,
    /// How lines are printed.
    format: OutputFormat,
    /// How many records were reported as left out.
    left_out: u64,
}

impl<'a> Reporter<'a> {
    /// Reports that the record with this number is left out, if it is.
    fn report<E: Write>(&mut self, copied: Copied, number: u64, err: &mut E) {
        match copied {
            Copied::Written => return,
            Copied::LeftOut(fault) => {
                let left_out = LeftOut::new("record", number, fault, self.format);
                let _ = writeln!(err, "{left_out}");
            }
            Copied::Unread(fault) => {
                let unread = UnreadRecord::new(number, fault, self.format.explain);
                let _ = writeln!(err, "{unread}");
            }
        }
        self.left_out = self.left_out.saturating_add(1);
    }

    /// Reports how many records were left out, if that is hard to see from their lines.
    fn report_left_out<E: Write>(&self, err: &mut E) {
        if self.left_out > MOST_COUNTED {
            let _ = writeln!(err, "geostation: {} records left out", self.left_out);
        }
    }

    /// Reports the fault of the file after this number of records, or why reading stopped.
    fn end_file<E: Write>(
        &self,
        fault: SourceFault,
        records: u64,
        err: &mut E,
    ) -> Result<Status, Fault<'a>>
        ensures { IfOk result (λ status. status ≡ Status.Refused) }
    {
        let fault = FileFault::of(fault, self.file, records, self.read_as)?;
        Ok(self.refuse(fault, records, err))
    }

    /// Reports that the file is refused after this number of records.
    fn refuse<E: Write>(&self, fault: FileFault, records: u64, err: &mut E) -> Status
        ensures { result ≡ Status.Refused }
    {
        let refused = RefusedCapture::new(records, fault, self.format.explain);
        let _ = writeln!(err, "geostation: {refused}");
        Status::Refused
    }
}
