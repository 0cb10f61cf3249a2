//! An invalid argument, and the keyword that may be meant.

use cmd_captures::{FIELDS, Field};
use its_headers::{KINDS, Kind};
use its_words::keys::nearest;
use std::alloc::{AllocError, Global};
use std::fmt;

/// Why an argument is refused.
#[derive(Clone, Copy, Debug, PartialEq, Eq)]
pub enum BadArgument<'a> {
    /// An option, its invalid value, and what the value has to be.
    Value(&'a str, &'a str, &'a str),
    /// An allocation failed.
    OutOfMemory,
}

impl BadArgument<'_> {
    /// Returns the keyword that may be meant by the first unknown word of a list: the first keyword
    /// that differs from it in the fewest letters, at most two.
    pub fn tip(&self, alloc: Global) -> Result<Option<&'static str>, AllocError> {
        match self {
            BadArgument::Value("kind", list, _) => {
                match list.split(',').find(|word| Kind::named(word).is_none()) {
                    Some(word) => {
                        let near = nearest(alloc, word, &KINDS.map(Kind::word))?;
                        Ok(near.filter(|kind| is_near(word, kind)))
                    }
                    None => Ok(None),
                }
            }
            BadArgument::Value("fields", list, _) => {
                match list.split(',').find(|word| Field::named(word).is_none()) {
                    Some(word) => nearest(alloc, word, &FIELDS.map(Field::word)),
                    None => Ok(None),
                }
            }
            _ => Ok(None),
        }
    }
}

impl fmt::Display for BadArgument<'_> {
    fn fmt<W: fmt::Write>(&self, f: &mut fmt::Formatter<W>) -> fmt::Result {
        match self {
            BadArgument::Value(option, value, wanted) => {
                write!(f, "invalid value '{value}' for '--{option}': not {wanted}")
            }
            BadArgument::OutOfMemory => f.write_str("out of memory"),
        }
    }
}

impl From<AllocError> for BadArgument<'_> {
    ghost use Rattle.std.specs.Prelude.{◌≡◌};
    ghost use Rattle.cmd_arguments.specs.declared.bad_argument.BadArgument.TheVariants.{OutOfMemory};

    ghost from_gives = { λ _ bad. bad ≡ OutOfMemory };

    fn from(_: AllocError) -> Self {
        BadArgument::OutOfMemory
    }
}

/// Whether a kind may be meant by this word. In a word of at most three letters, as most kinds are,
/// only one letter may differ.
fn is_near(word: &str, kind: &str) -> bool {
    if word.len() > 3 || word.len() != kind.len() {
        return true;
    }
    let mut others: u32 = 0;
    for (letter, other) in word.bytes().zip(kind.bytes()) {
        if letter != other {
            others = others.saturating_add(1);
        }
    }
    others <= 1
}
