//! The line of a frame that is compared, as text and as keys in JSON.

use crate::replay::differences::Difference;
use its_gnvalue::Mac;
use its_words::frames::Explanation;
use its_words::json_lines::Printed;
use serde::Serialize;
use std::fmt;

/// The keyword of a frame that is compared.
#[derive(Clone, Copy)]
pub(crate) enum Word {
    Same,
    Differs,
    Missing,
    Extra,
    Own,
    Unread,
    Unknown,
}

impl fmt::Display for Word {
    fn fmt<W: fmt::Write>(&self, f: &mut fmt::Formatter<W>) -> fmt::Result {
        f.write_str(match self {
            Word::Same => "same",
            Word::Differs => "differs",
            Word::Missing => "missing",
            Word::Extra => "extra",
            Word::Own => "own",
            Word::Unread => "unread",
            Word::Unknown => "unknown",
        })
    }
}

/// What is said in JSON that a line is about: it prints as `send`.
#[derive(Clone, Copy)]
struct Sending;

impl fmt::Display for Sending {
    fn fmt<W: fmt::Write>(&self, f: &mut fmt::Formatter<W>) -> fmt::Result {
        f.write_str("send")
    }
}

impl Word {
    /// Returns what it means, as a sentence, if the rest of the line doesn't say it.
    fn reason(self) -> Option<&'static str> {
        match self {
            Word::Same | Word::Differs => None,
            Word::Missing => Some("not sent in time"),
            Word::Extra => Some("no received frame asks for it"),
            Word::Own => Some("a packet of the station itself"),
            Word::Unread => Some("not a frame that is read"),
            Word::Unknown => Some("the capture ends before its time, or too many frames wait"),
        }
    }
}

/// The line of a frame that is compared. In JSON its keys are in this order.
#[derive(Clone, Copy, Serialize)]
pub(crate) struct ComparedLine {
    moment: u64,
    #[serde(rename = "do")]
    call: Printed<Sending>,
    result: Printed<Word>,
    #[serde(skip_serializing_if = "Option::is_none")]
    sent: Option<u64>,
    #[serde(skip_serializing_if = "Option::is_none")]
    hops: Option<u8>,
    #[serde(skip_serializing_if = "Option::is_none")]
    expected_hops: Option<u8>,
    #[serde(skip_serializing_if = "Option::is_none")]
    target: Option<Printed<Mac>>,
    #[serde(skip_serializing_if = "Option::is_none")]
    expected_target: Option<Printed<Mac>>,
    #[serde(skip_serializing_if = "Option::is_none")]
    octet: Option<u64>,
    #[serde(skip)]
    explain: bool,
}

impl ComparedLine {
    /// The line of a moment, with this word. A frame of the rules has this number, and may differ. With
    /// `explain` the words end with what they mean.
    pub(crate) fn new(
        moment: u64,
        word: Word,
        number: Option<u64>,
        difference: Difference,
        explain: bool,
    ) -> ComparedLine {
        ComparedLine {
            moment,
            call: Printed(Sending),
            result: Printed(word),
            sent: number,
            hops: difference.hops.map(|hops| hops.0),
            expected_hops: difference.hops.map(|hops| hops.1),
            target: difference.target.map(|target| Printed(target.0)),
            expected_target: difference.target.map(|target| Printed(target.1)),
            octet: difference.octet,
            explain,
        }
    }
}

impl fmt::Display for ComparedLine {
    fn fmt<W: fmt::Write>(&self, f: &mut fmt::Formatter<W>) -> fmt::Result {
        let Printed(word) = self.result;
        write!(f, "{} {word}", self.moment)?;
        if let Some(number) = self.sent {
            write!(f, " {number}")?;
        }
        if let (Some(hops), Some(expected)) = (self.hops, self.expected_hops) {
            write!(f, " hops {hops} not {expected}")?;
        }
        if let (Some(Printed(target)), Some(Printed(expected))) = (
            &self.target,
            &self.expected_target,
        ) {
            write!(f, " target {target} not {expected}")?;
        }
        if let Some(octet) = self.octet {
            write!(f, " octet {octet}")?;
        }
        let reason = if self.explain { word.reason() } else { None };
        write!(f, "{}", Explanation(reason))
    }
}
