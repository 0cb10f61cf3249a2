//! The keys and the text of an entry.

use crate::reason::EntryReason;
use its_words::answers::words::{CLOSED, MOVED, OPENED, QUIET, RESTARTED};
use its_words::answers::{AnswerKeys, PrintedAnswer};
use its_world::{Entry, EntryCode};
use std::fmt;

/// The contents of an entry: keys in JSON, keywords in text.
pub(crate) type EntryKeys<'a> = PrintedAnswer<'a, EntryCode, EntryReason>;

/// Returns the keys of this entry.
pub(crate) fn entry_keys(entry: &Entry) -> EntryKeys<'_> {
    match entry {
        Entry::Moved => AnswerKeys::word(MOVED),
        Entry::Opened => AnswerKeys::word(OPENED),
        Entry::Closed => AnswerKeys::word(CLOSED),
        Entry::Restarted => AnswerKeys::word(RESTARTED),
        Entry::Quiet => AnswerKeys::word(QUIET),
        Entry::Sent(frame) => AnswerKeys::sent(*frame as u64),
        Entry::Ignored(why) => AnswerKeys::ignored(*why),
        Entry::Accepted { handed, sent } => {
            AnswerKeys::accepted(handed, sent.map(|frame| frame as u64))
        }
        Entry::Refused(fault) => AnswerKeys::refused(fault.code(), EntryReason(*fault)),
    }
}

/// Returns the keys of an entry whose frame is held: all except that frame.
pub(crate) fn held_entry_keys(entry: &Entry) -> EntryKeys<'_> {
    match entry {
        Entry::Accepted { handed, .. } => AnswerKeys::accepted(handed, None),
        entry => entry_keys(entry),
    }
}

/// An entry as the program's lines show it: `opened`, `sent 0`, `accepted port 2002 info 0 6869
/// sent 1`, `refused S8 B2`.
#[derive(Clone, Copy, Debug, PartialEq, Eq)]
pub struct EntryText<'a> {
    /// The entry.
    pub entry: &'a Entry,
    /// Whether a refusal is followed by its sentence, for example `refused M3 (there is no such
    /// frame)`.
    pub explain: bool,
}

impl fmt::Display for EntryText<'_> {
    fn fmt<W: fmt::Write>(&self, f: &mut fmt::Formatter<W>) -> fmt::Result {
        write!(f, "{}", entry_keys(self.entry).explaining(self.explain))
    }
}
