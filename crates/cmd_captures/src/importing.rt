//! The command `import`: makes a capture from lines with a time and hexadecimal digits.

ghost use Rattle.std.specs.Prelude.{◌≡◌, ◌≢◌, ◌+◌, ◌%◌, ◌==◌, ℕ, IfErr, IfOk, All, IsErr, IsTrue, ◌⊎◌};
ghost use Rattle.std.specs.Prelude.{length, true, vec_len};
ghost use Rattle.std.specs.Char.{IsAsciiHexdigit};
ghost use Rattle.its_linkframe.specs.Captures.{IsFrameLength};
ghost use Rattle.cmd_captures.specs.Lines.{HasFrame};
ghost use Rattle.cmd_reporting.specs.FileNames.{is_standard as names_standard};
ghost use Rattle.cmd_reporting.specs.Statuses.{IsStopped};

use crate::timed_frame::{Step, TimedFrame};
use cap_linklayers::LinkLayer;
use cap_pcap::{AnySink, Format, RecordSink};
use cmd_reporting::{
    CommandFault, ExitStatus, Fault, Io, OutputFormat, Status, Target, WriterFault, create_output,
    keep_apart, open,
};
use cmd_text::lines::{Line, Passed, are_digits};
use its_linkframe::{Counted, LONGEST_FRAME};
use its_words::frames::Explanation;
use std::alloc::{AllocError, AllocFailed, Global};
use std::io::{BufRead, Read, Write};
use std::rt::Files;
use std::str;
use thiserror::Error;

/// The most digits of a time.
const LONGEST_MOMENT: usize = 20;

/// The most digits after the point of a time: nanoseconds.
const LONGEST_FRACTION: usize = 6;

/// The most octets of a line that is a record: a time, a point and its digits, a space, and the
/// digits of a frame.
const LONGEST_LINE: usize = LONGEST_MOMENT + 1 + LONGEST_FRACTION + 1 + 2 * LONGEST_FRAME;

/// Why a line is not a record, in the order of the checks.
#[derive(Clone, Copy, Debug, PartialEq, Eq, Error)]
pub enum LineFault {
    /// The line doesn't begin with a decimal number of 1 to 20 digits that fits 64 bits, with an
    /// optional point and 1 to 6 digits, and a space after it.
    #[error("moment")]
    Moment,
    /// What follows the space is not an even number of hexadecimal digits.
    #[error("hex")]
    Hex,
    /// The digits are those of 0 octets, or of more than 1468.
    #[error("length")]
    Length,
    /// The file can't hold the time.
    #[error("no place")]
    NoPlace,
}

impl LineFault {
    /// Returns what is wrong, as a sentence.
    pub(crate) fn sentence(self) -> &'static str {
        match self {
            LineFault::Moment => {
                "the line does not begin with a time in ms, below 2^64, with at most 6 decimals, and a space"
            }
            LineFault::Hex => "the frame does not have an even number of hexadecimal digits",
            LineFault::Length => "the frame has 0 octets, or more than 1468",
            LineFault::NoPlace => {
                "the output format cannot hold this time: use --to pcap or pcapng for decimals"
            }
        }
    }
}

/// Why a line was not read.
#[derive(Drop)]
enum LineError {
    Refused(LineFault),
    OutOfMemory(AllocError),
}

impl LineError {
    /// Returns the fault of the line with this number, from 1.
    fn at_line<'a>(self, number: u64) -> LinesFault<'a> {
        match self {
            LineError::Refused(fault) => LinesFault::Line(number, fault),
            LineError::OutOfMemory(error) => LinesFault::Stopped(Fault::OutOfMemory(error)),
        }
    }
}

/// Why lines were not read to their end. It prints as its line on standard error.
#[derive(Debug, Drop, Error)]
pub enum LinesFault<'a> {
    /// A line, counted from 1, is not a record.
    #[error("geostation: line {0}: {1}")]
    Line(u64, LineFault),
    /// A fault that can end any command.
    #[error("{0}")]
    Stopped(Fault<'a>),
}

impl CommandFault for LinesFault<'_> {
    type Ending = Status;

    ghost use Rattle.cmd_captures.specs.Lines.{lines_fault_status};

    ghost status_of = { lines_fault_status };

    /// Returns `Refused` for a bad line, and otherwise `Failed`.
    fn status(&self) -> Status {
        match self {
            LinesFault::Line(..) => Status::Refused,
            LinesFault::Stopped(fault) => fault.status(),
        }
    }

    /// Adds the sentence of a bad line.
    fn report<E: Write>(&self, format: OutputFormat, err: &mut E) {
        match self {
            LinesFault::Line(_, fault) => {
                let reason = format.explain.then_some(fault.sentence());
                let _ = writeln!(err, "{self}{}", Explanation(reason));
            }
            LinesFault::Stopped(fault) => fault.report(format, err),
        }
    }
}

impl<'a> From<Fault<'a>> for LinesFault<'a> {
    fn from(fault: Fault<'a>) -> LinesFault<'a> {
        LinesFault::Stopped(fault)
    }
}

impl<'a> From<LinesFault<'a>> for WriterFault<'a, LinesFault<'a>> {
    ghost use Rattle.cmd_reporting.specs.declared.fault.WriterFault.TheVariants as writer_faults;

    ghost from_gives = { λ fault e. e ≡ writer_faults.Stopped fault };

    fn from(fault: LinesFault<'a>) -> WriterFault<'a, LinesFault<'a>> {
        WriterFault::Stopped(fault)
    }
}

impl From<AllocError> for LinesFault<'_> {
    fn from(error: AllocError) -> Self {
        LinesFault::Stopped(Fault::OutOfMemory(error))
    }
}

impl<T: Drop> From<AllocFailed<T>> for LinesFault<'_> {
    fn from(_: AllocFailed<T>) -> Self {
        LinesFault::Stopped(Fault::OutOfMemory(AllocError))
    }
}

/// Reads a time: milliseconds, and the nanoseconds below them, from a point and 1 to 6 digits.
fn read_time(text: &[u8]) -> Option<(u64, u32)> {
    let Some(point) = text.iter().position(|octet| *octet == b'.') else {
        return Some((read_moment(text)?, 0));
    };
    let (whole, rest) = text.split_at(point);
    Some((read_moment(whole)?, read_nanos(&rest[1..])?))
}

/// Reads 1 to 6 decimals of a millisecond as nanoseconds.
fn read_nanos(decimals: &[u8]) -> Option<u32> {
    if decimals.is_empty() || decimals.len() > LONGEST_FRACTION {
        return None;
    }
    let mut nanos: u32 = 0;
    for place in 0..LONGEST_FRACTION {
        let digit = match decimals.get(place) {
            Some(octet) if octet.is_ascii_digit() => u32::from(octet.checked_sub(b'0')?),
            Some(_) => return None,
            None => 0,
        };
        nanos = nanos.checked_mul(10)?.checked_add(digit)?;
    }
    Some(nanos)
}

/// Reads 1 to 20 decimal digits that fit 64 bits. A sign is not a digit.
fn read_moment(digits: &[u8]) -> Option<u64> {
    if digits.len() > LONGEST_MOMENT || !digits.iter().all(|digit| digit.is_ascii_digit()) {
        return None;
    }
    str::from_utf8(digits).ok()?.parse::<u64>().ok()
}

/// Reads the octets of the digits, 1 to 1468 of them.
fn parse_frame(alloc: Global, digits: &[u8]) -> Result<Vec<u8>, LineError>
    ensures { IfOk result (λ frame. IsFrameLength (vec_len frame)) }
{
    match hex::decode(alloc, digits) {
        Ok(octets) if octets.is_empty() || octets.len() > LONGEST_FRAME => {
            Err(LineError::Refused(LineFault::Length))
        }
        Ok(octets) => Ok(octets),
        Err(hex::FromHexError::OutOfMemory) => Err(LineError::OutOfMemory(AllocError)),
        Err(
            hex::FromHexError::InvalidHexCharacter { .. }
            | hex::FromHexError::OddLength
            | hex::FromHexError::InvalidStringLength,
        ) => Err(LineError::Refused(LineFault::Hex)),
    }
}

/// Returns the fault of the digits of a line that is too long for a record: `digits`, and the rest
/// of the line after them.
fn fault_of_long(digits: &[u8], passed: Passed) -> LineFault
    ensures hex { (result ≡ LineFault.Hex) ⊎ (result ≡ LineFault.Length) }
    ensures odd { (n : ℕ) → passed.odd ≡ (n % 2 == 1) → (length digits.now + n) % 2 ≡ 1
        → result ≡ LineFault.Hex }
    ensures stray { IsTrue passed.stray → result ≡ LineFault.Hex }
    ensures digits { result ≡ LineFault.Length → All IsAsciiHexdigit digits.now }
    ensures length { (n : ℕ) → passed.odd ≡ (n % 2 == 1) → (length digits.now + n) % 2 ≡ 0
        → ¬ IsTrue passed.stray → All IsAsciiHexdigit digits.now → result ≡ LineFault.Length }
{
    let odd = passed.odd != (digits.len() % 2 == 1);
    if odd || passed.stray || !are_digits(digits) {
        LineFault::Hex
    } else {
        LineFault::Length
    }
}

/// Reads the line with this number: a time, one space, and the digits of 1 to 1468 octets.
fn read_line(alloc: Global, number: u64, line: &Line) -> Result<TimedFrame, LineError>
    ensures frame { IfOk result HasFrame }
    ensures long { IsTrue line.now.passed.any → IsErr result }
{
    let start = line.start();
    let Some(space) = start.iter().position(|octet| *octet == b' ') else {
        return Err(LineError::Refused(LineFault::Moment));
    };
    let (digits, rest) = start.split_at(space);
    let Some((moment, nanos)) = read_time(digits) else {
        return Err(LineError::Refused(LineFault::Moment));
    };
    let passed = line.passed();
    if passed.any {
        return Err(LineError::Refused(fault_of_long(&rest[1..], passed)));
    }
    let frame = parse_frame(alloc, &rest[1..])?;
    Ok(TimedFrame {
        line: number,
        moment,
        nanos,
        frame,
    })
}

/// Makes the capture `target` from the lines in the file. Its format is geostation's own, unless
/// another one is given. Its name doesn't matter. All lines are read before it is created. A target
/// `-` is standard output. `input` is standard input.
///
/// `BadArguments` if the target is the file itself, before a line is read. `Refused` for a bad line,
/// `Failed` if a file could not be read, created or written, or memory ran out.
pub fn import_file<R: Files + AllocGlobal, I: Read + Drop, W: Write, E: Write>(
    rt: &R,
    file: &str,
    input: I,
    target: Target<'_>,
    io: &mut Io<W, E>,
) -> ExitStatus
where
    R::File: Read + Write + Drop,
    ensures { names_standard target.entry.name.now ≡ true → result ≢ ExitStatus.BadArguments }
{
    let ended = import_to(rt, file, input, target, &mut io.out);
    io.status_of(ended)
}

/// Reads the lines, and only then creates the capture.
fn import_to<'a, R: Files + AllocGlobal, I: Read + Drop, W: Write>(
    rt: &R,
    file: &'a str,
    input: I,
    target: Target<'a>,
    out: &mut W,
) -> Result<Status, WriterFault<'a, LinesFault<'a>>>
where
    R::File: Read + Write + Drop,
    ensures done { IfOk result (λ status. status ≡ Status.Done) }
    ensures standard { names_standard target.entry.name.now ≡ true → IfErr result IsStopped }
{
    let format = target.to.unwrap_or(Format::Capture);
    let reader = open(rt, file, input)?;
    keep_apart(rt, target.name, file)?;
    let frames = read_lines(rt.alloc(), file, reader)?;
    has_places(frames.as_slice(), format)?;
    let writer = create_output(rt, target.name, out)?;
    Ok(write_frames(target.name, format, frames.as_slice(), writer)?)
}

/// Checks that a file of this format can hold the times of all frames. Returns the fault of the
/// first line whose time it can't hold.
fn has_places<'a>(frames: &[TimedFrame], format: Format) -> Result<(), LinesFault<'a>> {
    let step = Step::of(frames);
    for timed in frames {
        if timed.stamp(format, step).is_none() {
            return Err(LinesFault::Line(timed.line, LineFault::NoPlace));
        }
    }
    Ok(())
}

/// Reads all lines of the reader. `file` is their name. Empty lines are skipped. A line is checked
/// as a whole, but at most the 2964 octets of the longest record are kept.
///
/// Returns the fault of the first bad line, or that a read failed or memory ran out.
pub fn read_lines<'a, R: BufRead + Drop>(
    alloc: Global,
    file: &'a str,
    mut reader: R,
) -> Result<Vec<TimedFrame>, LinesFault<'a>>
    ensures { IfOk result (λ records. All HasFrame records.items) }
{
    let mut line = Line::new(alloc, LONGEST_LINE)?;
    let mut records = Vec::new(alloc);
    for number in 1..u64::MAX {
        match line.read(&mut reader) {
            Ok(true) => add_record(alloc, number, &line, &mut records)?,
            Ok(false) => break,
            Err(error) => return Err(LinesFault::Stopped(Fault::of_read(&error, file))),
        }
    }
    Ok(records)
}

/// Adds the record of the line with this number, unless the line is empty.
fn add_record<'a>(
    alloc: Global,
    number: u64,
    line: &Line,
    records: &mut Vec<TimedFrame>,
) -> Result<(), LinesFault<'a>>
    requires { All HasFrame records.old.items }
    ensures { All HasFrame records.new.items }
{
    if line.is_empty() {
        return Ok(());
    }
    match read_line(alloc, number, line) {
        Ok(record) => Ok(records.push(record)?),
        Err(error) => Err(error.at_line(number)),
    }
}

/// Writes the frames as a file of this format, and flushes it. `file` is the name of the file, or
/// `-` for standard output. In pcapng they have one interface without a name.
///
/// `CannotWrite` if a write or the flush failed, or the file can't hold a time. `NoOutput` instead
/// if the file is standard output.
pub fn write_frames<'a, W: Write + Drop>(
    file: &'a str,
    format: Format,
    frames: &[TimedFrame],
    out: W,
) -> Result<Status, Fault<'a>>
    ensures { IfOk result (λ status. status ≡ Status.Done) }
{
    match put_frames(format, frames, out) {
        Some(()) => Ok(Status::Done),
        None => Err(Fault::of_target(file)),
    }
}

/// Writes the frames, one after the other. `None` if one was not written.
fn put_frames<W: Write + Drop>(format: Format, frames: &[TimedFrame], out: W) -> Option<()> {
    let step = Step::of(frames);
    let mut sink = AnySink::new(Counted::new(out), format);
    sink.start_on(LinkLayer::Ethernet, step.unit()).ok()?;
    sink.add_interface_on(step.head(), &[]).ok()?;
    for timed in frames {
        let stamp = timed.stamp(format, step)?;
        sink.put_frame(0, stamp, timed.frame.as_slice()).ok()?;
    }
    sink.into_inner().into_inner().flush().ok()
}
