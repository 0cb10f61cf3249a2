//! Counts verdicts by duty and result, and prints the counts as a table and as an object in JSON.

use crate::case::Outcome;
use crate::duties::{DutySet, JUDGED, place_of, rule_of};
use its_duties::Duty;
use std::io::Write;
use std::{fmt, io};

/// The verdicts on a duty.
#[derive(Clone, Copy, Default)]
struct DutyCounts {
    pass: u64,
    fail: u64,
    inconclusive: u64,
}

impl DutyCounts {
    /// Adds a verdict with this result.
    fn with(self, outcome: Outcome) -> DutyCounts {
        match outcome {
            Outcome::Pass => DutyCounts {
                pass: self.pass.saturating_add(1),
                ..self
            },
            Outcome::Fail => DutyCounts {
                fail: self.fail.saturating_add(1),
                ..self
            },
            Outcome::Inconclusive => DutyCounts {
                inconclusive: self.inconclusive.saturating_add(1),
                ..self
            },
        }
    }

    /// Returns how many verdicts there are.
    fn all(self) -> u64 {
        self.pass
            .saturating_add(self.fail)
            .saturating_add(self.inconclusive)
    }

    /// Whether all are passes, and there is one.
    fn passes(self) -> bool {
        self.pass > 0 && self.fail == 0 && self.inconclusive == 0
    }

    /// How many have this result.
    fn of(self, outcome: Outcome) -> u64 {
        match outcome {
            Outcome::Pass => self.pass,
            Outcome::Fail => self.fail,
            Outcome::Inconclusive => self.inconclusive,
        }
    }
}

/// The verdicts on each duty.
#[derive(Clone, Copy)]
pub(crate) struct VerdictCounts {
    counts: [DutyCounts; 15],
}

impl VerdictCounts {
    /// Returns the counts before the first verdict.
    pub(crate) fn new() -> VerdictCounts {
        VerdictCounts {
            counts: [DutyCounts::default(); 15],
        }
    }

    /// Adds a verdict on a duty, with this result.
    pub(crate) fn with(self, duty: Duty, outcome: Outcome) -> VerdictCounts {
        let mut counts = self.counts;
        if let Some(place) = place_of(duty)
            && let Some(count) = counts.get_mut(place)
        {
            *count = count.with(outcome);
        }
        VerdictCounts { counts }
    }

    /// The verdicts on a duty.
    fn of(&self, duty: Duty) -> DutyCounts {
        match place_of(duty) {
            Some(place) => self.counts.get(place).copied().unwrap_or_default(),
            None => DutyCounts::default(),
        }
    }

    /// How many verdicts there are.
    fn all(&self) -> u64 {
        let mut all: u64 = 0;
        for counts in self.counts {
            all = all.saturating_add(counts.all());
        }
        all
    }

    /// How many have this result.
    fn with_result(&self, outcome: Outcome) -> u64 {
        let mut all: u64 = 0;
        for counts in self.counts {
            all = all.saturating_add(counts.of(outcome));
        }
        all
    }

    /// Returns the result of all verdicts: a fail if there is a fail, a pass if there are verdicts
    /// and all are passes. Otherwise inconclusive.
    pub(crate) fn result(&self) -> Outcome {
        if self.with_result(Outcome::Fail) > 0 {
            return Outcome::Fail;
        }
        let mut passes = self.all() > 0;
        for counts in self.counts {
            passes = passes && (counts.all() == 0 || counts.passes());
        }
        if passes {
            Outcome::Pass
        } else {
            Outcome::Inconclusive
        }
    }

    /// Writes the table of the duties that have a verdict, those without one, and the result.
    pub(crate) fn write_table<W: Write>(&self, duties: &DutySet, out: &mut W) -> io::Result<()> {
        let widths = Widths::of(self);
        writeln!(
            out,
            "{}",
            Row(widths, "duty", RULE, "pass", "fail", "inconclusive")
        )?;
        for duty in JUDGED {
            let counts = self.of(duty);
            if counts.all() > 0 {
                writeln!(out, "{}", CountRow(widths, duty, counts))?;
            }
        }
        if JUDGED.iter().any(|duty| self.is_unexercised(*duty, duties)) {
            write!(out, "not exercised:")?;
            for duty in JUDGED {
                if self.is_unexercised(duty, duties) {
                    write!(out, " D{}", duty.number())?;
                }
            }
            writeln!(out)?;
        }
        let result = self.result();
        let count = self.with_result(result);
        writeln!(out, "{}: {count} of {} verdicts", result.word(), self.all())
    }

    /// Whether a duty is selected and has no verdict.
    fn is_unexercised(&self, duty: Duty, duties: &DutySet) -> bool {
        duties.has(duty) && self.of(duty).all() == 0
    }
}

/// The head of the rules.
const RULE: &str = "rule";

/// The widths of the rules, and of the three columns of numbers.
#[derive(Clone, Copy)]
struct Widths(usize, usize, usize, usize);

impl Widths {
    /// Returns the widths of the heads, or those of the widest rule and numbers.
    fn of(counts: &VerdictCounts) -> Widths {
        let mut widths = Widths(24, 4, 4, 12);
        for duty in JUDGED {
            let row = counts.of(duty);
            if row.all() > 0 {
                widths = Widths(
                    widths.0.max(rule_of(duty).len()),
                    widths.1.max(digits_of(row.pass)),
                    widths.2.max(digits_of(row.fail)),
                    widths.3.max(digits_of(row.inconclusive)),
                );
            }
        }
        widths
    }
}

/// Returns how many digits a number has.
fn digits_of(number: u64) -> usize {
    let mut digits: usize = 1;
    let mut left = number / 10;
    for _ in 0..19 {
        if left > 0 {
            left /= 10;
            digits = digits.saturating_add(1);
        }
    }
    digits
}

/// A row of words.
#[derive(Clone, Copy)]
struct Row<'a>(Widths, &'a str, &'a str, &'a str, &'a str, &'a str);

impl fmt::Display for Row<'_> {
    fn fmt<W: fmt::Write>(&self, f: &mut fmt::Formatter<W>) -> fmt::Result {
        let Row(Widths(wide, first, second, third), duty, rule, pass, fail, inconclusive) = *self;
        write!(f, "{duty:4}  {rule:wide$}  ")?;
        write!(f, "{pass:>first$}  {fail:>second$}  {inconclusive:>third$}")
    }
}

/// The row of a duty.
#[derive(Clone, Copy)]
struct CountRow(Widths, Duty, DutyCounts);

impl fmt::Display for CountRow {
    fn fmt<W: fmt::Write>(&self, f: &mut fmt::Formatter<W>) -> fmt::Result {
        let CountRow(Widths(wide, first, second, third), duty, counts) = *self;
        let (number, rule) = (duty.number(), rule_of(duty));
        let DutyCounts {
            pass,
            fail,
            inconclusive,
        } = counts;
        write!(f, "D{number:<3}  {rule:wide$}  ")?;
        write!(f, "{pass:>first$}  {fail:>second$}  {inconclusive:>third$}")
    }
}

/// The last object in JSON: all counts, the duties without a verdict, and the result.
#[derive(Clone, Copy)]
pub(crate) struct TotalObject<'a> {
    pub(crate) counts: &'a VerdictCounts,
    pub(crate) duties: &'a DutySet,
    /// How many records are repeats of the link.
    pub(crate) repeats: u64,
    /// How many frames of other types the station sent.
    pub(crate) others: u64,
}

impl fmt::Display for TotalObject<'_> {
    fn fmt<W: fmt::Write>(&self, f: &mut fmt::Formatter<W>) -> fmt::Result {
        f.write_str("{\"total\":{")?;
        let mut part = "";
        for duty in JUDGED {
            let counts = self.counts.of(duty);
            if counts.all() > 0 {
                write!(f, "{part}")?;
                write_counts(duty, counts, f)?;
                part = ",";
            }
        }
        f.write_str("},\"unexercised\":[")?;
        part = "";
        for duty in JUDGED {
            if self.counts.is_unexercised(duty, self.duties) {
                write!(f, "{part}\"D{}\"", duty.number())?;
                part = ",";
            }
        }
        let (repeats, others) = (self.repeats, self.others);
        let result = self.counts.result().word();
        write!(
            f,
            "],\"repeats\":{repeats},\"other\":{others},\"result\":\"{result}\"}}"
        )
    }
}

/// Writes the counts of a duty.
fn write_counts<W: fmt::Write>(
    duty: Duty,
    counts: DutyCounts,
    f: &mut fmt::Formatter<W>,
) -> fmt::Result {
    let DutyCounts {
        pass,
        fail,
        inconclusive,
    } = counts;
    write!(
        f,
        "\"D{}\":{{\"pass\":{pass},\"fail\":{fail},",
        duty.number()
    )?;
    write!(f, "\"inconclusive\":{inconclusive}}}")
}
