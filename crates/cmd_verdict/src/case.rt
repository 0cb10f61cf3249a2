//! A verdict on a record, with what is printed of it.

ghost use Rattle.std.specs.Prelude.{◌≡◌};
ghost use Rattle.cmd_verdict.specs.Outcomes.{outcome_of};

use crate::text::Text;
use its_duties::{Duty, Verdict};
use std::fmt;

/// The result of a verdict (ISO/IEC 9646).
#[derive(Clone, Copy)]
pub(crate) enum Outcome {
    Pass,
    Fail,
    Inconclusive,
}

impl Outcome {
    /// Returns its keyword.
    pub(crate) fn word(self) -> &'static str {
        match self {
            Outcome::Pass => "pass",
            Outcome::Fail => "fail",
            Outcome::Inconclusive => "inconclusive",
        }
    }

    /// Returns the result of a verdict.
    pub(crate) fn of(verdict: Verdict) -> Outcome
        ensures { result ≡ outcome_of verdict }
    {
        match verdict {
            Verdict::Pass => Outcome::Pass,
            Verdict::Fail(_) => Outcome::Fail,
            Verdict::Inconclusive(_) => Outcome::Inconclusive,
        }
    }
}

/// Whether a verdict is a fail.
pub(crate) fn is_fail(verdict: &Verdict) -> bool {
    matches!(verdict, Verdict::Fail(_))
}

/// The claims and keys with which a verdict would be a pass or a fail.
#[derive(Clone, Copy, Default)]
pub(crate) struct Needs {
    pub(crate) mobile: bool,
    pub(crate) area: bool,
    pub(crate) capacity: bool,
    pub(crate) profile: bool,
    pub(crate) steady: bool,
    pub(crate) fresh: bool,
    pub(crate) unlimited: bool,
    pub(crate) unbuffered: bool,
    pub(crate) sent: bool,
    pub(crate) received: bool,
    pub(crate) delivered: bool,
}

impl Needs {
    /// Returns their names, in the order of the station file's keys.
    pub(crate) fn words(self) -> [Option<&'static str>; 11] {
        [
            self.mobile.then_some("mobile"),
            self.area.then_some("area"),
            self.capacity.then_some("capacity"),
            self.profile.then_some("profile"),
            self.steady.then_some("steady"),
            self.fresh.then_some("fresh"),
            self.unlimited.then_some("unlimited"),
            self.unbuffered.then_some("unbuffered"),
            self.sent.then_some("sent"),
            self.received.then_some("received"),
            self.delivered.then_some("delivered"),
        ]
    }

    /// Whether it needs nothing.
    pub(crate) fn is_empty(self) -> bool {
        self.words().iter().flatten().count() == 0
    }
}

impl fmt::Display for Needs {
    fn fmt<W: fmt::Write>(&self, f: &mut fmt::Formatter<W>) -> fmt::Result {
        if self.is_empty() {
            return Ok(());
        }
        f.write_str(" (needs")?;
        let mut is_first = true;
        for word in self.words().iter().flatten() {
            f.write_str(if is_first { " " } else { ", " })?;
            f.write_str(word)?;
            is_first = false;
        }
        f.write_str(")")
    }
}

/// A verdict on a record.
#[derive(Clone, Copy)]
pub(crate) struct Case {
    pub(crate) duty: Duty,
    pub(crate) outcome: Outcome,
    pub(crate) text: Text,
    pub(crate) needs: Needs,
}

impl Case {
    /// Returns a verdict that no claim changes.
    pub(crate) fn of(duty: Duty, verdict: Verdict, text: Text) -> Case
        ensures duty { result.duty ≡ duty }
        ensures outcome { result.outcome ≡ outcome_of verdict }
    {
        Case {
            duty,
            outcome: Outcome::of(verdict),
            text,
            needs: Needs::default(),
        }
    }

    /// Adds what it needs, if it is inconclusive.
    pub(crate) fn needing(self, needs: Needs) -> Case
        ensures duty { result.duty ≡ self.duty }
        ensures outcome { result.outcome ≡ self.outcome }
    {
        match self.outcome {
            Outcome::Inconclusive => Case { needs, ..self },
            Outcome::Pass | Outcome::Fail => self,
        }
    }
}
