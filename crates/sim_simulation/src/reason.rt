//! Why an event is refused, as a sentence for a person.

use its_words::answers::RefusedReason;
use its_world::EntryFault;
use std::fmt;

/// Why an event was refused, as a sentence. If octets are not a frame, it is the sentence of their
/// fault.
#[derive(Clone, Copy, Debug, PartialEq, Eq)]
pub struct EntryReason(pub EntryFault);

impl fmt::Display for EntryReason {
    fn fmt<W: fmt::Write>(&self, f: &mut fmt::Formatter<W>) -> fmt::Result {
        match self.0 {
            EntryFault::Station(refused) => write!(f, "{}", RefusedReason(refused)),
            fault => write!(f, "{fault}"),
        }
    }
}
