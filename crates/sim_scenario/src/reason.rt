//! What is wrong with a scenario, as a sentence.

use crate::fault::{DocumentFault, ScenarioFault};
use crate::found::FoundValue;
use its_words::keys::{Key, NotOneOf, WrongOf, WrongValue};
use std::fmt;

/// The sentence of a scenario's fault, for a person: what is wrong and, in a text that is not TOML,
/// where. The fault itself prints its position in the scenario.
#[derive(Clone, Copy, Debug)]
pub struct FaultReason<'a>(pub &'a ScenarioFault);

impl fmt::Display for FaultReason<'_> {
    fn fmt<W: fmt::Write>(&self, f: &mut fmt::Formatter<W>) -> fmt::Result {
        match self.0 {
            ScenarioFault::NotToml(fault) => write!(f, "{fault}"),
            ScenarioFault::Document(fault) => write_document(f, fault),
        }
    }
}

/// Writes what is wrong with a document.
fn write_document<W: fmt::Write>(f: &mut fmt::Formatter<W>, fault: &DocumentFault) -> fmt::Result {
    match fault {
        DocumentFault::Kind(key, found) => write_kind(f, *key, found.as_ref()),
        DocumentFault::NoAir => f.write_str("missing"),
        DocumentFault::TooManyStations => f.write_str("more than the command takes"),
        DocumentFault::Key(_, key, wrong, found) => write_wrong(f, WrongOf(*key, *wrong), found),
        DocumentFault::Misspelled(misspelled) => misspelled.write_reason(f),
        DocumentFault::Unknown(key) => match key.tip() {
            Some(tip) => write!(f, "{tip}"),
            None => write!(f, "{}", NotOneOf(key.known())),
        },
        DocumentFault::SharedMid(..) => {
            f.write_str("the last 48 bits of their addresses are the same")
        }
        DocumentFault::OutOfMemory => f.write_str("an allocation failed"),
    }
}

/// Writes what is wrong with the value of a key.
fn write_wrong<W: fmt::Write>(
    f: &mut fmt::Formatter<W>,
    wrong: WrongOf,
    found: &Option<FoundValue>,
) -> fmt::Result {
    let value = found.as_ref();
    write!(f, "{}", WrongValue { wrong, value })
}

/// Writes that a value is not of the kind that a key of the document takes.
fn write_kind<W: fmt::Write>(
    f: &mut fmt::Formatter<W>,
    key: Key,
    found: Option<&FoundValue>,
) -> fmt::Result {
    if let Some(found) = found {
        write!(f, "{found} is ")?;
    }
    f.write_str(match key {
        Key::Air | Key::Moves => "not a table",
        _ => "not an array of tables",
    })
}
