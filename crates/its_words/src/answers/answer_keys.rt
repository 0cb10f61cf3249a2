//! An answer as keys of JSON, or as words of a line.

use crate::answers::words::{ACCEPTED, IGNORED, REFUSED, SENT, why_word};
use crate::frames::{Explanation, Hex, MessageKeys};
use crate::json_lines::{Octets, Printed};
use its_station::{Delivery, Why};
use serde::Serialize;
use std::fmt;

/// An answer in the order in which it is printed, as keys in JSON and as words in text. A refusal
/// has a code and a reason. Words have the reason only with `--explain`.
#[derive(Clone, Copy, Serialize)]
pub struct AnswerKeys<'a, Code, Reason> {
    result: &'static str,
    #[serde(skip_serializing_if = "Option::is_none")]
    why: Option<&'static str>,
    #[serde(skip_serializing_if = "Option::is_none")]
    code: Option<Code>,
    #[serde(skip_serializing_if = "Option::is_none")]
    reason: Option<Reason>,
    #[serde(flatten)]
    delivered: Option<MessageKeys<'a>>,
    #[serde(skip_serializing_if = "Option::is_none")]
    sent: Option<u64>,
    #[serde(skip)]
    explain: bool,
}

/// The keys of a payload that is delivered to its port.
pub fn delivery_keys(delivery: &Delivery) -> MessageKeys<'_> {
    MessageKeys {
        port: delivery.port,
        info: delivery.info,
        payload: Octets(delivery.payload.as_slice()),
    }
}

/// An answer whose code and reason are values that print.
pub type PrintedAnswer<'a, C, R> = AnswerKeys<'a, Printed<C>, Printed<R>>;

impl<'a, C: Drop, R: Drop> PrintedAnswer<'a, C, R> {
    /// Returns an answer that is one word, for example `opened`.
    pub fn word(word: &'static str) -> PrintedAnswer<'a, C, R> {
        AnswerKeys {
            result: word,
            why: None,
            code: None,
            reason: None,
            delivered: None,
            sent: None,
            explain: false,
        }
    }

    /// Returns the answer for the frame of this number, which was sent.
    pub fn sent(frame: u64) -> PrintedAnswer<'a, C, R> {
        AnswerKeys {
            sent: Some(frame),
            ..AnswerKeys::word(SENT)
        }
    }

    /// Returns the answer for a frame that was ignored.
    pub fn ignored(why: Why) -> PrintedAnswer<'a, C, R> {
        AnswerKeys {
            why: Some(why_word(why)),
            ..AnswerKeys::word(IGNORED)
        }
    }

    /// Returns the answer for a frame that was accepted, with the payload that was delivered, if
    /// any, and the number of the frame that was forwarded, if any.
    pub fn accepted(delivery: &'a Option<Delivery>, sent: Option<u64>) -> PrintedAnswer<'a, C, R> {
        AnswerKeys {
            delivered: delivery.as_ref().map(delivery_keys),
            sent,
            ..AnswerKeys::word(ACCEPTED)
        }
    }

    /// Returns the answer for a call that was refused, with its code and its reason.
    pub fn refused(code: C, reason: R) -> PrintedAnswer<'a, C, R> {
        AnswerKeys {
            code: Some(Printed(code)),
            reason: Some(Printed(reason)),
            ..AnswerKeys::word(REFUSED)
        }
    }

    /// Returns this answer, whose words end with the reason of a refusal if `explain` is set, for
    /// example `refused M3 (there is no such frame)`.
    pub fn explaining(self, explain: bool) -> PrintedAnswer<'a, C, R> {
        AnswerKeys { explain, ..self }
    }
}

impl<C: fmt::Display, R: fmt::Display> fmt::Display for PrintedAnswer<'_, C, R> {
    fn fmt<W: fmt::Write>(&self, f: &mut fmt::Formatter<W>) -> fmt::Result {
        f.write_str(self.result)?;
        if let Some(why) = self.why {
            write!(f, " {why}")?;
        }
        if let Some(Printed(code)) = &self.code {
            write!(f, " {code}")?;
        }
        if let (true, Some(Printed(reason))) = (self.explain, &self.reason) {
            write!(f, "{}", Explanation(Some(reason)))?;
        }
        if let Some(message) = &self.delivered {
            let (port, info) = (message.port, message.info);
            write!(f, " port {port} info {info} {}", Hex(message.payload.0))?;
        }
        match self.sent {
            Some(frame) if self.result == SENT => write!(f, " {frame}"),
            Some(frame) => write!(f, " sent {frame}"),
            None => Ok(()),
        }
    }
}
