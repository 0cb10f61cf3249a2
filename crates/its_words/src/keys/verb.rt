//! The words for what a station does: the one table of them.

ghost use Rattle.std.specs.Prelude.{◌≡◌, IfNone, IfSome};
ghost use Rattle.its_words.specs.Verbs.{verb_word};

use crate::keys::meant::{Spelled, nearest};
use std::alloc::{AllocError, Global};
use std::fmt;

/// What a station does, by its word under `do`. It prints as that word.
#[derive(Clone, Copy, Debug, PartialEq, Eq)]
pub enum Verb {
    /// A frame is delivered to it.
    Deliver,
    /// It is moved.
    Move,
    /// It opens a port.
    Open,
    /// It closes a port.
    Close,
    /// It is asked for a beacon.
    Tick,
    /// It sends a single-hop broadcast.
    Shb,
    /// It sends a geobroadcast.
    Gbc,
    /// It sends a geoanycast.
    Gac,
    /// It restarts.
    Restart,
    /// It leaves.
    Leave,
}

impl Verb {
    /// Returns what this word stands for. `None` for any other word.
    pub fn named(word: &str) -> Option<Verb>
        ensures word { IfSome result (λ verb. word.now ≡ verb_word verb) }
        ensures none { IfNone result ((verb : Verb) → ¬ (word.now ≡ verb_word verb)) }
    {
        match word {
            "deliver" => Some(Verb::Deliver),
            "move" => Some(Verb::Move),
            "open" => Some(Verb::Open),
            "close" => Some(Verb::Close),
            "tick" => Some(Verb::Tick),
            "shb" => Some(Verb::Shb),
            "gbc" => Some(Verb::Gbc),
            "gac" => Some(Verb::Gac),
            "restart" => Some(Verb::Restart),
            "leave" => Some(Verb::Leave),
            _ => None,
        }
    }

    /// Returns the word.
    pub fn word(self) -> &'static str
        ensures { result.now ≡ verb_word self }
    {
        match self {
            Verb::Deliver => "deliver",
            Verb::Move => "move",
            Verb::Open => "open",
            Verb::Close => "close",
            Verb::Tick => "tick",
            Verb::Shb => "shb",
            Verb::Gbc => "gbc",
            Verb::Gac => "gac",
            Verb::Restart => "restart",
            Verb::Leave => "leave",
        }
    }
}

/// All words.
const VERBS: [Verb; 10] = [
    Verb::Deliver,
    Verb::Move,
    Verb::Open,
    Verb::Close,
    Verb::Tick,
    Verb::Shb,
    Verb::Gbc,
    Verb::Gac,
    Verb::Restart,
    Verb::Leave,
];

/// Which words a scenario takes.
#[derive(Clone, Copy, Debug, PartialEq, Eq)]
pub enum Verbs {
    /// Without a radio model: all but `leave`.
    Alone,
    /// With a radio model: all.
    InAir,
    /// With a radio model and moves: all but `deliver`.
    WithMoves,
}

impl Verbs {
    /// Returns the words.
    pub fn all(self) -> &'static [Verb] {
        match self {
            Verbs::Alone => &VERBS[..9],
            Verbs::InAir => &VERBS,
            Verbs::WithMoves => &VERBS[1..],
        }
    }

    /// Returns the word that may be meant by an unknown one. `None` if none is near.
    pub fn meant_by(self, alloc: Global, word: &str) -> Result<Option<Verb>, AllocError> {
        nearest(alloc, word, self.all())
    }
}

impl Spelled for Verb {
    ghost use Rattle.its_words.specs.Verbs.{verb_word};

    ghost spelling_of = { verb_word };

    fn spelling(self) -> &'static str {
        self.word()
    }
}

impl fmt::Display for Verb {
    fn fmt<W: fmt::Write>(&self, f: &mut fmt::Formatter<W>) -> fmt::Result {
        f.write_str(self.word())
    }
}
