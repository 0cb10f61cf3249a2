//! The words that a line takes under `do`.

ghost use Rattle.std.specs.Prelude.{◌≡◌, IfNone, IfSome};
ghost use Rattle.its_lines.specs.Words.{line_word};

use its_words::keys::{Spelled, Verb, nearest};
use std::alloc::{AllocError, Global};
use std::fmt;

/// What a line asks for, by its word. It prints as that word.
#[derive(Clone, Copy, Debug, PartialEq, Eq)]
pub enum LineWord {
    /// A call of the station's own applications.
    Own(Verb),
    /// The station receives a frame.
    Receive,
    /// When the next beacon is due.
    NextBeacon,
    /// Which sources are neighbours.
    Neighbours,
    /// What is known of a source.
    LookUp,
    /// What a frame is.
    ReadFrame,
    /// How often the calls had each outcome.
    Counts,
    /// The secured frame of a frame, with a message of a security entity.
    Seal,
    /// A frame that is due is released.
    Release,
    /// When the first frame that waits is due.
    NextDue,
}

/// All words that a line takes. Those of a scenario for a delivery and for a leave are missing.
const WORDS: [LineWord; 17] = [
    LineWord::Own(Verb::Move),
    LineWord::Own(Verb::Open),
    LineWord::Own(Verb::Close),
    LineWord::Own(Verb::Tick),
    LineWord::Own(Verb::Shb),
    LineWord::Own(Verb::Gbc),
    LineWord::Own(Verb::Gac),
    LineWord::Own(Verb::Restart),
    LineWord::Receive,
    LineWord::NextBeacon,
    LineWord::Neighbours,
    LineWord::LookUp,
    LineWord::ReadFrame,
    LineWord::Counts,
    LineWord::Seal,
    LineWord::Release,
    LineWord::NextDue,
];

impl LineWord {
    /// Returns what this word stands for. `None` for any other word.
    pub(crate) fn named(word: &str) -> Option<LineWord>
        ensures word { IfSome result (λ asked. word.now ≡ line_word asked) }
        ensures none { IfNone result ((asked : LineWord) → ¬ (word.now ≡ line_word asked)) }
    {
        match word {
            "receive" => Some(LineWord::Receive),
            "next_beacon" => Some(LineWord::NextBeacon),
            "neighbours" => Some(LineWord::Neighbours),
            "look_up" => Some(LineWord::LookUp),
            "read_frame" => Some(LineWord::ReadFrame),
            "counts" => Some(LineWord::Counts),
            "seal" => Some(LineWord::Seal),
            "release" => Some(LineWord::Release),
            "next_due" => Some(LineWord::NextDue),
            _ => Verb::named(word).map(LineWord::Own),
        }
    }

    /// Returns the word.
    pub fn word(self) -> &'static str
        ensures { result.now ≡ line_word self }
    {
        match self {
            LineWord::Own(verb) => verb.word(),
            LineWord::Receive => "receive",
            LineWord::NextBeacon => "next_beacon",
            LineWord::Neighbours => "neighbours",
            LineWord::LookUp => "look_up",
            LineWord::ReadFrame => "read_frame",
            LineWord::Counts => "counts",
            LineWord::Seal => "seal",
            LineWord::Release => "release",
            LineWord::NextDue => "next_due",
        }
    }

    /// Returns what may be meant by an unknown word. `None` if no word is near.
    pub(crate) fn meant_by(alloc: Global, word: &str) -> Result<Option<LineWord>, AllocError> {
        nearest(alloc, word, &WORDS)
    }
}

impl Spelled for LineWord {
    ghost spelling_of = { line_word };

    fn spelling(self) -> &'static str {
        self.word()
    }
}

impl fmt::Display for LineWord {
    fn fmt<W: fmt::Write>(&self, f: &mut fmt::Formatter<W>) -> fmt::Result {
        f.write_str(self.word())
    }
}
