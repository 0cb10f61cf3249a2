//! The line of a record, as text and as keys in JSON.

use crate::replay::heard::Heard;
use crate::replay::reply::UnitReply;
use cap_records::{RecordCode, RecordFault};
use its_station::{Answer, Refused, RefusedCode, StationAnswer};
use its_words::answers::{AnswerKeys, PrintedAnswer, RefusedReason};
use serde::Serialize;
use std::fmt;

/// The line of a record: in JSON its keys in this order, in text the words of an entry.
#[derive(Clone, Copy, Serialize)]
pub(crate) struct ReplayLine<'a> {
    moment: u64,
    #[serde(rename = "do")]
    word: &'static str,
    #[serde(flatten)]
    answer: PrintedAnswer<'a, Code, Reason>,
}

/// The code of what is refused.
#[derive(Clone, Copy)]
enum Code {
    /// By the station, for example `S3 L1`.
    Station(RefusedCode),
    /// Before it reached the station, for example `P4`.
    Record(RecordCode),
}

impl fmt::Display for Code {
    fn fmt<W: fmt::Write>(&self, f: &mut fmt::Formatter<W>) -> fmt::Result {
        match self {
            Code::Station(code) => write!(f, "{code}"),
            Code::Record(code) => write!(f, "{code}"),
        }
    }
}

/// Why it is refused, as a sentence. If octets are not a frame, it is the sentence of their fault.
#[derive(Clone, Copy)]
enum Reason {
    Station(Refused),
    Record(RecordFault),
}

impl fmt::Display for Reason {
    fn fmt<W: fmt::Write>(&self, f: &mut fmt::Formatter<W>) -> fmt::Result {
        match self {
            Reason::Station(refused) => write!(f, "{}", RefusedReason(*refused)),
            Reason::Record(fault) => write!(f, "{fault}"),
        }
    }
}

impl<'a> ReplayLine<'a> {
    /// Returns the line of a record. A frame that is forwarded gets this number. With `explain` the
    /// text of a refusal ends with its sentence.
    pub(crate) fn of(heard: &'a Heard, number: u64, explain: bool) -> ReplayLine<'a> {
        let (moment, answer) = match heard {
            Heard::Received {
                moment,
                frame,
                reply,
            } => (*moment, reply_keys(reply, frame.as_slice(), number)),
            Heard::Nothing { moment, fault } => {
                let code = Code::Record(fault.code());
                (*moment, AnswerKeys::refused(code, Reason::Record(*fault)))
            }
            // What the station under test sent has a line of its own.
            Heard::Sent { moment, .. } => (*moment, AnswerKeys::word("done")),
        };
        ReplayLine {
            moment,
            word: "receive",
            answer: answer.explaining(explain),
        }
    }
}

/// Returns what is printed of a reply to these octets.
fn reply_keys<'a>(
    reply: &'a UnitReply,
    frame: &[u8],
    number: u64,
) -> PrintedAnswer<'a, Code, Reason> {
    match reply {
        UnitReply::Passed(answer) => answer_keys(answer, frame, number),
        UnitReply::Repeated => AnswerKeys::word("repeated"),
    }
}

/// Returns what is printed of an answer to these octets.
fn answer_keys<'a>(
    answer: &'a StationAnswer,
    frame: &[u8],
    number: u64,
) -> PrintedAnswer<'a, Code, Reason> {
    match answer {
        Answer::Ignored(why) => AnswerKeys::ignored(*why),
        Answer::Accepted { handed, sent } => {
            AnswerKeys::accepted(handed, sent.as_ref().map(|_| number))
        }
        Answer::Refused(refused) => {
            AnswerKeys::refused(Code::Station(refused.code()), reason_of(*refused, frame))
        }
        // No frame is answered so.
        Answer::Moved
        | Answer::Opened
        | Answer::Closed
        | Answer::Restarted
        | Answer::Quiet
        | Answer::Sent(_) => AnswerKeys::word("done"),
    }
}

/// Returns why the station refused these octets.
fn reason_of(refused: Refused, frame: &[u8]) -> Reason {
    match refused {
        Refused::Frame(fault) => Reason::Record(RecordFault::of(fault, frame)),
        Refused::Secured(fault) => Reason::Record(RecordFault::Signed(fault)),
        _ => Reason::Station(refused),
    }
}

impl fmt::Display for ReplayLine<'_> {
    fn fmt<W: fmt::Write>(&self, f: &mut fmt::Formatter<W>) -> fmt::Result {
        write!(f, "{} {}", self.moment, self.answer)
    }
}
