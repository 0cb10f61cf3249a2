//! Why a document is not a scenario.

ghost use Rattle.std.specs.Prelude.{◌≡◌};
ghost use Rattle.sim_scenario.specs.Faults.{fault_of};
ghost use Rattle.sim_scenario.specs.declared.fault.DocumentFault.TheVariants.{OutOfMemory};

use crate::found::FoundValue;
use crate::part::Part;
use crate::position::TomlFault;
use crate::reason::FaultReason;
use crate::unknown::{Misspelled, UnknownKey};
use its_words::keys::{Key, KeyFault, Wrong};
use its_world::WorldFault;
use std::alloc::{AllocError, AllocFailed, Global};
use thiserror::Error;
use toml::Table;

/// The first fault of a scenario, in the order in which faults are checked. Its text is what
/// follows `geostation: ` on standard error.
#[derive(Debug, Drop, PartialEq, Eq, Error)]
pub enum ScenarioFault {
    /// The text is not a TOML document.
    #[error("scenario: not TOML")]
    NotToml(TomlFault),
    /// The document is not a scenario, or memory ran out.
    #[error("{0}")]
    Document(DocumentFault),
}

/// The first fault of a document that was read.
#[derive(Debug, Drop, PartialEq, Eq, Error)]
pub enum DocumentFault {
    /// `station`, `event`, `every` or `expect` is not an array of tables, or `air` or `moves` is
    /// not a table. With the value that is there instead.
    #[error("scenario: {0}")]
    Kind(Key, Option<FoundValue>),
    /// `air` is missing, which the command needs.
    #[error("scenario: air")]
    NoAir,
    /// There are more stations than allowed.
    #[error("scenario: too many stations")]
    TooManyStations,
    /// A key of a table is missing, of another kind or out of range. With its value.
    #[error("scenario: {0}: {1}")]
    Key(Part, Key, Wrong, Option<FoundValue>),
    /// A key is missing, and an unknown key of its table may mean it.
    #[error("scenario: {0}")]
    Misspelled(Misspelled),
    /// A key is unknown in its table.
    #[error("scenario: {0}")]
    Unknown(UnknownKey),
    /// Two stations, counted from 0, have the same MID. The second is the first station with a MID
    /// that an earlier one has.
    #[error("scenario: stations {0} and {1} share a MID")]
    SharedMid(usize, usize),
    /// An allocation failed.
    #[error("out of memory")]
    OutOfMemory,
}

impl ScenarioFault {
    /// Returns what is wrong, as a sentence.
    pub fn reason(&self) -> FaultReason<'_> {
        FaultReason(self)
    }
}

impl From<DocumentFault> for ScenarioFault {
    ghost use Rattle.sim_scenario.specs.declared.fault.ScenarioFault.TheVariants.{Document};

    ghost from_gives = { λ fault e. e ≡ Document fault };

    fn from(fault: DocumentFault) -> ScenarioFault {
        ScenarioFault::Document(fault)
    }
}

impl DocumentFault {
    /// Returns the scenario's fault for a key's fault in this part, whose table is given.
    pub(crate) fn of_key(
        alloc: Global,
        fault: KeyFault,
        part: Part,
        table: &Table,
    ) -> DocumentFault {
        match fault {
            KeyFault::Refused(key, Wrong::Missing) => {
                DocumentFault::of_missing(alloc, key, Some(part), table)
            }
            KeyFault::Refused(key, wrong) => match found_under(alloc, key, wrong, table) {
                Ok(found) => DocumentFault::Key(part, key, wrong, found),
                Err(_) => DocumentFault::OutOfMemory,
            },
            KeyFault::OutOfMemory => DocumentFault::OutOfMemory,
        }
    }

    /// Returns the fault of the value under this key of a document, which has another kind than the
    /// key needs.
    pub(crate) fn of_kind(alloc: Global, key: Key, document: &Table) -> DocumentFault {
        let found = match key {
            Key::Air | Key::Moves => FoundValue::under(alloc, key, document),
            _ => FoundValue::under_no_array(alloc, key, document),
        };
        match found {
            Ok(found) => DocumentFault::Kind(key, found),
            Err(_) => DocumentFault::OutOfMemory,
        }
    }

    /// Returns the fault of a missing key in the table of this part. `None` is the document itself.
    pub(crate) fn of_missing(
        alloc: Global,
        key: Key,
        part: Option<Part>,
        table: &Table,
    ) -> DocumentFault {
        match (Misspelled::find(alloc, table, key, part), part) {
            (Ok(Some(misspelled)), _) => DocumentFault::Misspelled(misspelled),
            (Ok(None), Some(part)) => DocumentFault::Key(part, key, Wrong::Missing, None),
            (Ok(None), None) => DocumentFault::NoAir,
            (Err(_), _) => DocumentFault::OutOfMemory,
        }
    }
}

/// Returns what a fault of a key shows of its value. Nothing of ports, if one of them is wrong.
fn found_under(
    alloc: Global,
    key: Key,
    wrong: Wrong,
    table: &Table,
) -> Result<Option<FoundValue>, AllocError> {
    match (key, wrong) {
        (Key::Ports, Wrong::Value) => Ok(None),
        _ => FoundValue::under(alloc, key, table),
    }
}

impl From<AllocError> for DocumentFault {
    ghost from_gives = { λ _ fault. fault ≡ OutOfMemory };

    fn from(_: AllocError) -> DocumentFault {
        DocumentFault::OutOfMemory
    }
}

impl From<WorldFault> for DocumentFault {
    ghost from_gives = { λ fault told. told ≡ fault_of fault };

    fn from(fault: WorldFault) -> DocumentFault {
        match fault {
            WorldFault::SameMid(first, second) => DocumentFault::SharedMid(first, second),
            WorldFault::NoMemory => DocumentFault::OutOfMemory,
        }
    }
}

impl<T: Drop> From<AllocFailed<T>> for DocumentFault {
    ghost from_gives = { λ _ fault. fault ≡ OutOfMemory };

    fn from(_: AllocFailed<T>) -> DocumentFault {
        DocumentFault::OutOfMemory
    }
}
