//! What is wrong with the value of a key.

use crate::keys::key::Key;
use crate::keys::not_one_of::NotOneOf;
use crate::keys::verb::{Verb, Verbs};
use std::fmt;

/// What is wrong with the value of a key.
#[derive(Clone, Copy, Debug, PartialEq, Eq)]
pub enum Wrong {
    /// It is missing.
    Missing,
    /// It is not of the kind that the key takes.
    Kind,
    /// It is this whole number, which is out of the key's range.
    Range(i64),
    /// It is this whole number, which is over the given one that bounds it.
    Over(i64, u16),
    /// It is of the kind that the key takes, but not a value that the key takes.
    Value,
    /// It is not 0, as it has to be for a circle.
    OfCircle,
    /// It is not a word that the key takes. This word is at most two changed letters away.
    Near(Verb),
    /// It is not one of these words, which the key takes.
    Unlisted(Verbs),
    /// It is this number, and the scenario has no station of that number.
    NoStation(u16),
}

/// What is wrong with the value of a key, as words: `missing`, `65536 is not in 0..=65535`.
#[derive(Clone, Copy, Debug, PartialEq, Eq)]
pub struct WrongOf(pub Key, pub Wrong);

impl fmt::Display for WrongOf {
    fn fmt<W: fmt::Write>(&self, f: &mut fmt::Formatter<W>) -> fmt::Result {
        explain(f, self.0, self.1)
    }
}

/// What is wrong with the value of a key, and that value, as words, for example `"wide" is not a
/// whole number of metres`.
#[derive(Clone, Copy, Debug, PartialEq, Eq)]
pub struct WrongValue<T> {
    /// The key and what is wrong.
    pub wrong: WrongOf,
    /// The value as a message shows it. `None` if it is not shown.
    pub value: Option<T>,
}

impl<T: fmt::Display> fmt::Display for WrongValue<T> {
    fn fmt<W: fmt::Write>(&self, f: &mut fmt::Formatter<W>) -> fmt::Result {
        let wrong = self.wrong;
        match (&self.value, wrong.1) {
            (None, _) => wrong.fmt(f),
            (_, Wrong::Missing | Wrong::Range(_) | Wrong::Over(..) | Wrong::NoStation(_)) => {
                wrong.fmt(f)
            }
            (Some(value), Wrong::Near(_)) => write!(f, "{value}: {wrong}"),
            (Some(value), _) => write!(f, "{value} is {wrong}"),
        }
    }
}

fn explain<W: fmt::Write>(f: &mut fmt::Formatter<W>, key: Key, wrong: Wrong) -> fmt::Result {
    match wrong {
        Wrong::Missing => f.write_str("missing"),
        Wrong::Kind => write!(f, "not {}", key.kind()),
        Wrong::OfCircle => f.write_str("not 0, as it is of a circle"),
        Wrong::Near(verb) => write!(f, "did you mean '{verb}'?"),
        Wrong::Unlisted(verbs) => write!(f, "{}", NotOneOf(verbs.all())),
        Wrong::NoStation(number) => write!(f, "the scenario has no station {number}"),
        Wrong::Range(number) => { write!(f, "{number} is not in {}..={}", key.least(), key.most()) }
        Wrong::Over(number, most) => write!(f, "{number} is over {most}"),
        Wrong::Value => match key.form() {
            Some(form) => write!(f, "not {form}"),
            None => write!(f, "not in {}..={}", key.least(), key.most()),
        },
    }
}
