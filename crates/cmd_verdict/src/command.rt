//! The command `verdict`.

ghost use Rattle.std.specs.Prelude.{◌≡◌};
ghost use Rattle.cmd_verdict.specs.Outcomes.{status_of_result};

use crate::case::Outcome;
use crate::counts::{TotalObject, VerdictCounts};
use crate::duties::DutySet;
use crate::judge::Judge;
use crate::reporter::{Printing, Reporter};
use crate::seen_reader::{ReadRecord, SeenReader};
use cap_pcap::{AnySource, Format, LONGEST_RECORD, SourceFault};
use cap_records::{CaptureFile, FileFault, Pulled, Records, Selection, open_records};
use cmd_iut::{ClaimSet, Premises, PremisesObject, StationFault, StationFile};
use cmd_reporting::{Fault, Io, OutputFormat, Status, is_standard, open};
use cmd_times::{Clock, Instant, Time};
use its_duties::Claims;
use its_linkframe::{Counted, Source};
use its_words::frames::Explanation;
use std::alloc::Global;
use std::fmt;
use std::io::{Read, Write};
use std::rt::Files;

/// What is judged, and how it is printed.
#[derive(Clone, Copy)]
pub struct VerdictOptions<'a> {
    /// The name of the station file.
    pub station: &'a str,
    /// The name of the capture.
    pub capture: &'a str,
    /// Its format. Without one its first four octets say it.
    pub format: Option<Format>,
    /// The claims that are assumed.
    pub assumed: ClaimSet,
    /// The duties that are judged.
    pub duties: DutySet,
    /// Which verdicts are printed.
    pub printing: Printing,
    /// The first and the last time of verdicts that are printed, in milliseconds.
    pub since: u64,
    /// The last such time.
    pub until: u64,
    /// How times are printed.
    pub time: Time,
    /// Whether only a pass ends with status 0.
    pub strict: bool,
    /// The version of the program.
    pub version: &'a str,
}

/// Judges the frames of a station in a capture, and prints the verdicts. `input` is standard input.
///
/// `Refused` if a verdict is a fail, or with `strict` isn't a pass, and if the station file or the
/// capture was refused. `Failed` if a file could not be read or standard output not written, or
/// memory ran out.
pub fn verdict_file<R: Files + AllocGlobal, I: Read + Drop, W: Write, E: Write>(
    rt: &R,
    what: &VerdictOptions<'_>,
    input: I,
    io: &mut Io<W, E>,
) -> Status
where
    R::File: Read + Drop,
{
    let file = match read_station(rt, what.station) {
        Ok(file) => file,
        Err(fault) => return io.status_of(Err(fault)),
    };
    let ended = judge_file(rt, what, &file, input, io);
    io.status_of(ended)
}

/// Reads the station file.
fn read_station<'a, R: Files + AllocGlobal>(
    rt: &R,
    name: &'a str,
) -> Result<StationFile, StationFault<'a>>
where
    R::File: Read + Drop,
{
    if is_standard(name) {
        return Err(StationFault::from(Fault::CannotRead(name)));
    }
    let alloc = rt.alloc();
    let mut reader = match open(rt, name, std::io::empty()) {
        Ok(reader) => reader,
        Err(fault) => return Err(StationFault::from(fault)),
    };
    let mut text = Vec::new(alloc);
    match reader.read_to_end(&mut text) {
        Ok(_) => StationFile::read(alloc, text.as_slice()),
        Err(error) => Err(StationFault::from(Fault::of_read(&error, name))),
    }
}

/// Opens the capture, prints the first line, the verdicts and the table.
fn judge_file<'a, R: Files + AllocGlobal, I: Read + Drop, W: Write, E: Write>(
    rt: &R,
    what: &VerdictOptions<'a>,
    file: &StationFile,
    input: I,
    io: &mut Io<W, E>,
) -> Result<Status, Fault<'a>>
where
    R::File: Read + Drop,
{
    let alloc = rt.alloc();
    let reader = open(rt, what.capture, input)?;
    let capture = open_records(alloc, what.capture, what.format, reader)?;
    let premises = Premises {
        file,
        assumed: what.assumed,
        version: what.version,
    };
    print_premises(premises, io)?;
    let mut reporter = Reporter {
        out: &mut io.out,
        json: io.format.json,
        printing: what.printing,
        duties: what.duties,
        since: what.since,
        until: what.until,
        clock: Clock::new(what.time),
        first: Instant::of_nanos(0),
        counts: VerdictCounts::new(),
    };
    let judged = judge_capture(alloc, what, &premises.claims(), capture, &mut reporter)?;
    let counts = reporter.counts;
    print_total(what, io.format, &counts, judged, &mut io.out)?;
    Ok(end_with(what, io.format, &counts, judged.ended, &mut io.err))
}

/// Prints the first line.
fn print_premises<'f, W: Write, E>(
    premises: Premises<'_>,
    io: &mut Io<W, E>,
) -> Result<(), Fault<'f>> {
    if io.format.json {
        writeln!(io.out, "{}", PremisesObject(premises))?;
    } else {
        writeln!(io.out, "{premises}")?;
    }
    Ok(())
}

/// How far a capture was judged.
#[derive(Clone, Copy)]
struct Judged {
    /// Why it wasn't read to its end, if it wasn't.
    ended: Option<Ended>,
    /// How many records are repeats of the link.
    repeats: u64,
    /// How many frames of other types the station sent.
    others: u64,
}

/// Judges a capture.
fn judge_capture<'a, S: Source + Drop, W: Write>(
    alloc: Global,
    what: &VerdictOptions<'a>,
    claims: &Claims,
    capture: CaptureFile<S>,
    reporter: &mut Reporter<'_, W>,
) -> Result<Judged, Fault<'a>> {
    let mut judge = Judge::new(alloc, claims);
    let ended = judge_records(alloc, what, capture, &mut judge, reporter)?;
    judge.end(reporter)?;
    Ok(Judged {
        ended,
        repeats: judge.repeated,
        others: judge.others,
    })
}

/// Why reading a capture stopped, and after how many records.
#[derive(Clone, Copy)]
struct Ended {
    records: u64,
    why: EndedBy,
}

/// Why reading a capture stopped.
#[derive(Clone, Copy)]
enum EndedBy {
    /// Its octets are at fault.
    File(FileFault),
    /// The stamp of a record is too far below that of one before it.
    Order,
    /// The stamp of a record is 2^63 ns or more.
    Moment,
}

impl fmt::Display for Ended {
    fn fmt<W: fmt::Write>(&self, f: &mut fmt::Formatter<W>) -> fmt::Result {
        let code = match self.why {
            EndedBy::File(fault) => fault.code(),
            EndedBy::Order => "order",
            EndedBy::Moment => "moment",
        };
        write!(f, "geostation: capture: {code} at record {}", self.records)
    }
}

/// The same as a sentence.
#[derive(Clone, Copy)]
struct EndReason(EndedBy);

impl fmt::Display for EndReason {
    fn fmt<W: fmt::Write>(&self, f: &mut fmt::Formatter<W>) -> fmt::Result {
        match self.0 {
            EndedBy::File(fault) => write!(f, "{fault}"),
            EndedBy::Order => f.write_str("its time is before that of an earlier record"),
            EndedBy::Moment => f.write_str("its time is too late for nanoseconds"),
        }
    }
}

/// Judges the records of a capture. Returns why it wasn't read to its end, if it wasn't.
fn judge_records<'a, S: Source + Drop, W: Write>(
    alloc: Global,
    what: &VerdictOptions<'a>,
    capture: CaptureFile<S>,
    judge: &mut Judge,
    reporter: &mut Reporter<'_, W>,
) -> Result<Option<Ended>, Fault<'a>> {
    let CaptureFile::Source(source) = capture else {
        let why = EndedBy::File(FileFault::gzip());
        return Ok(Some(Ended { records: 0, why }));
    };
    let octets = Vec::with_capacity(alloc, LONGEST_RECORD)?;
    let mut records = Records::new(source, SeenReader::new(alloc), octets, Selection::all());
    let waits = is_standard(what.capture);
    // The range is there so that the walk ends by its form. No file reaches its end.
    for _ in 0..u64::MAX {
        if waits {
            reporter.out.flush()?;
        }
        let number = records.counts.read;
        match records.next_chosen()? {
            Pulled::Chosen(_, read) => {
                if let Some(why) = judge_record(read, judge, reporter)? {
                    return Ok(Some(Ended {
                        records: number,
                        why,
                    }));
                }
            }
            Pulled::Interface => {}
            Pulled::End(None) => return Ok(None),
            Pulled::End(Some(fault)) => {
                let records = records.counts.read;
                let fault = FileFault::of(fault, what.capture, records, what.format)?;
                let why = EndedBy::File(fault);
                return Ok(Some(Ended { records, why }));
            }
        }
    }
    Ok(None)
}

/// Judges a record. Returns why the capture can't be judged from it on, if it can't.
fn judge_record<'f, W: Write>(
    read: ReadRecord,
    judge: &mut Judge,
    reporter: &mut Reporter<'_, W>,
) -> Result<Option<EndedBy>, Fault<'f>> {
    match read {
        ReadRecord::TooLate => Ok(Some(EndedBy::Moment)),
        ReadRecord::Seen(record) => {
            if !judge.is_in_order(record.stamp) {
                return Ok(Some(EndedBy::Order));
            }
            judge.take(record, reporter)?;
            Ok(None)
        }
    }
}

/// Prints the table and the result.
fn print_total<'f, W: Write>(
    what: &VerdictOptions<'_>,
    format: OutputFormat,
    counts: &VerdictCounts,
    judged: Judged,
    out: &mut W,
) -> Result<(), Fault<'f>> {
    if format.json {
        let total = TotalObject {
            counts,
            duties: &what.duties,
            repeats: judged.repeats,
            others: judged.others,
        };
        writeln!(out, "{total}")?;
    } else {
        writeln!(out)?;
        counts.write_table(&what.duties, out)?;
    }
    Ok(())
}

/// Reports why the capture wasn't read to its end, if it wasn't. Returns the status.
fn end_with<E: Write>(
    what: &VerdictOptions<'_>,
    format: OutputFormat,
    counts: &VerdictCounts,
    ended: Option<Ended>,
    err: &mut E,
) -> Status {
    if let Some(ended) = ended {
        let reason = format.explain.then_some(EndReason(ended.why));
        let _ = writeln!(err, "{ended}{}", Explanation(reason));
        return Status::Refused;
    }
    status_of(counts.result(), what.strict)
}

/// The status of a run with this result.
fn status_of(outcome: Outcome, strict: bool) -> Status
    ensures value { result ≡ status_of_result outcome strict }
{
    match outcome {
        Outcome::Fail => Status::Refused,
        Outcome::Pass => Status::Done,
        Outcome::Inconclusive => {
            if strict {
                Status::Refused
            } else {
                Status::Done
            }
        }
    }
}
