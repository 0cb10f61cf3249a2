//! Why a message can't be read.

ghost use Rattle.std.specs.Prelude.{◌≡◌};

use std::error::Error;
use std::fmt;

/// The sentence of E1.
pub const UNREAD_MESSAGE: &str = "a secured message of a form that isn't read";

/// The sentence of E2.
pub const SHORT_MESSAGE: &str = "a truncated secured message";

/// Why the message of a secured packet can't be read. Octets are counted from the first one of the
/// packet. It prints as a sentence.
#[derive(Clone, Copy, Debug, PartialEq, Eq)]
pub enum MessageFault {
    /// E1: this octet has a value that is not supported.
    Octet(usize),
    /// E2: the packet ends here, before the part of the message that is read.
    Short(usize),
}

impl MessageFault {
    /// Returns what lines show, for example `E1 at 5`.
    pub fn code(self) -> MessageCode
        ensures { result ≡ record { 0 = self } }
    {
        MessageCode(self)
    }
}

impl fmt::Display for MessageFault {
    fn fmt<W: fmt::Write>(&self, f: &mut fmt::Formatter<W>) -> fmt::Result {
        match self {
            MessageFault::Octet(at) => write!(f, "{UNREAD_MESSAGE}, at octet {at}"),
            MessageFault::Short(at) => write!(f, "{SHORT_MESSAGE}, at octet {at}"),
        }
    }
}

impl Error for MessageFault {}

/// A fault of a message that prints as its code, for example `E1 at 5`.
#[derive(Clone, Copy, Debug, PartialEq, Eq)]
pub struct MessageCode(pub MessageFault);

impl fmt::Display for MessageCode {
    fn fmt<W: fmt::Write>(&self, f: &mut fmt::Formatter<W>) -> fmt::Result {
        match self.0 {
            MessageFault::Octet(at) => write!(f, "E1 at {at}"),
            MessageFault::Short(at) => write!(f, "E2 at {at}"),
        }
    }
}
