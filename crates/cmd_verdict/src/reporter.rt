//! The lines of verdicts, in words or as objects in JSON.

ghost use Rattle.std.specs.Prelude.{◌≡◌};
ghost use Rattle.cmd_verdict.specs.Outcomes.{is_printed};

use crate::case::{Case, Outcome};
use crate::counts::VerdictCounts;
use crate::duties::DutySet;
use crate::text::{Clause, FormCode, Rule, Text, clause_of};
use cap_pcap::RecordFault;
use cap_tap::{NANOS, SeenRecord};
use cmd_reporting::Fault;
use cmd_times::{Clock, Instant, Moment};
use its_duties::Duty;
use std::fmt;
use std::io::Write;

/// Which verdicts are printed.
#[derive(Clone, Copy, Debug, PartialEq, Eq)]
pub enum Printing {
    /// Fails.
    Fails,
    /// Fails and inconclusive ones.
    Inconclusive,
    /// All.
    All,
}

impl Printing {
    /// Whether a verdict is printed.
    fn has(self, outcome: Outcome) -> bool
        ensures { result ≡ is_printed self outcome }
    {
        match outcome {
            Outcome::Fail => true,
            Outcome::Inconclusive => matches!(self, Printing::Inconclusive | Printing::All),
            Outcome::Pass => matches!(self, Printing::All),
        }
    }
}

/// What takes verdicts, one by one.
pub(crate) trait CaseSink {
    /// The capture begins at this stamp.
    fn begin(&mut self, stamp: u64);

    /// Takes a verdict on a record. `NoOutput` if a write failed.
    fn put<'f>(&mut self, record: &SeenRecord, case: Case) -> Result<(), Fault<'f>>;
}

/// Prints verdicts, and counts them.
#[derive(Drop)]
pub(crate) struct Reporter<'w, W> {
    pub(crate) out: &'w mut W,
    pub(crate) json: bool,
    pub(crate) printing: Printing,
    /// Verdicts on other duties aren't counted either.
    pub(crate) duties: DutySet,
    /// The milliseconds from which on and up to which lines are printed.
    pub(crate) since: u64,
    pub(crate) until: u64,
    pub(crate) clock: Clock,
    pub(crate) first: Instant,
    pub(crate) counts: VerdictCounts,
}

impl<W: Write> CaseSink for Reporter<'_, W> {
    fn begin(&mut self, stamp: u64) {
        self.first = Instant::of_nanos(stamp);
    }

    fn put<'f>(&mut self, record: &SeenRecord, case: Case) -> Result<(), Fault<'f>> {
        if !self.duties.has(case.duty) {
            return Ok(());
        }
        self.counts = self.counts.with(case.duty, case.outcome);
        let millis = record.stamp / NANOS;
        let is_chosen = self.since <= millis && millis <= self.until;
        if !is_chosen || !self.printing.has(case.outcome) {
            return Ok(());
        }
        let line = VerdictLine {
            moment: self.clock.at(self.first, Instant::of_nanos(record.stamp)),
            record: record.number,
            case,
        };
        if self.json {
            writeln!(self.out, "{}", VerdictObject(line))?;
        } else {
            writeln!(self.out, "{line}")?;
        }
        Ok(())
    }
}

/// The line of a verdict.
#[derive(Clone, Copy)]
struct VerdictLine {
    moment: Moment,
    record: u64,
    case: Case,
}

impl fmt::Display for VerdictLine {
    fn fmt<W: fmt::Write>(&self, f: &mut fmt::Formatter<W>) -> fmt::Result {
        let Case {
            duty,
            outcome,
            text,
            needs,
        } = self.case;
        let (word, number, moment) = (outcome.word(), duty.number(), self.moment);
        write!(f, "{word} D{number} {moment} {} {text}", self.record)?;
        if names_clause(self.case) {
            write!(f, "{}", Clause(duty))?;
        }
        write!(f, "{needs}")
    }
}

/// Whether the text of a verdict names the clause: that of a fail, of a forwarded packet that may
/// not have been received, and of one that goes to one station inside of its area.
fn names_clause(case: Case) -> bool {
    match (case.outcome, case.duty) {
        (Outcome::Fail, _) => true,
        (Outcome::Inconclusive, Duty::Faithful) => {
            !matches!(case.text, Text::NotRead(_) | Text::TooMany)
        }
        (Outcome::Inconclusive, _) => matches!(case.text, Text::InsideTo(_)),
        _ => false,
    }
}

/// The same as an object in JSON.
#[derive(Clone, Copy)]
struct VerdictObject(VerdictLine);

impl fmt::Display for VerdictObject {
    fn fmt<W: fmt::Write>(&self, f: &mut fmt::Formatter<W>) -> fmt::Result {
        let VerdictLine {
            moment,
            record,
            case,
        } = self.0;
        let (word, number) = (case.outcome.word(), case.duty.number());
        write!(
            f,
            "{{\"result\":\"{word}\",\"duty\":\"D{number}\",\"moment\":"
        )?;
        if moment.is_text() {
            write!(f, "\"{moment}\"")?;
        } else {
            write!(f, "{moment}")?;
        }
        write!(f, ",\"record\":{record}")?;
        write_others(case, f)?;
        write_needs(case, f)?;
        write_code(case, f)?;
        write_rule(case, f)?;
        write!(f, ",\"reason\":\"{}\"}}", case.text)
    }
}

/// Writes the record that a packet was made from, or another one.
fn write_others<W: fmt::Write>(case: Case, f: &mut fmt::Formatter<W>) -> fmt::Result {
    let Some(other) = case.text.other_record() else {
        return Ok(());
    };
    let is_cause = matches!(case.duty, Duty::Faithful | Duty::InTime);
    if is_cause && !matches!(case.text, Text::NotRead(_)) {
        return write!(f, ",\"cause\":{other}");
    }
    write!(f, ",\"others\":[{other}]")
}

/// Writes what a verdict needs.
fn write_needs<W: fmt::Write>(case: Case, f: &mut fmt::Formatter<W>) -> fmt::Result {
    if case.needs.is_empty() {
        return Ok(());
    }
    f.write_str(",\"needs\":[")?;
    let mut is_first = true;
    for word in case.needs.words().iter().flatten() {
        f.write_str(if is_first { "\"" } else { ",\"" })?;
        f.write_str(word)?;
        f.write_str("\"")?;
        is_first = false;
    }
    f.write_str("]")
}

/// Writes the code of a form, and the time that a packet took.
fn write_code<W: fmt::Write>(case: Case, f: &mut fmt::Formatter<W>) -> fmt::Result {
    if let Some(fault) = case.text.code() {
        write!(f, ",\"code\":\"{}\"", FormCode(fault))?;
    }
    if matches!(case.text, Text::Cut) {
        write!(f, ",\"code\":\"{}\"", RecordFault::CutFrame.code())?;
    }
    match case.text.millis_after() {
        Some(millis) if matches!(case.duty, Duty::InTime) => write!(f, ",\"by\":{millis}"),
        _ => Ok(()),
    }
}

/// Writes the rule that a fail breaks.
fn write_rule<W: fmt::Write>(case: Case, f: &mut fmt::Formatter<W>) -> fmt::Result {
    match clause_of(case.duty) {
        Some(clause) if matches!(case.outcome, Outcome::Fail) => {
            write!(f, ",\"rule\":\"{}\"", Rule(clause))
        }
        _ => Ok(()),
    }
}
