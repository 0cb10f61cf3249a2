//! Unknown keys of tables, and the keys that they may mean.

ghost use Rattle.std.specs.Prelude.{◌≡◌};

use crate::fault::DocumentFault;
use crate::part::Part;
use crate::table_keys::keys_of;
use cmd_quoting::OneLine;
use its_words::keys::{Key, nearest};
use std::alloc::{AllocError, Global};
use std::fmt;
use toml::{Table, Value};

/// A key that is unknown in its table. It prints as its position in the scenario: `air: hop`,
/// `expect 0: sent`, or `unknown: station 3: lattitude` if only a strict reading refuses it.
#[derive(Debug, Drop, PartialEq, Eq)]
pub struct UnknownKey {
    /// The part of the scenario that has it. `None` for the scenario itself.
    part: Option<Part>,
    name: String,
    nearest: Option<Key>,
}

impl UnknownKey {
    /// Returns the key of this name in this part of a scenario.
    fn of(alloc: Global, part: Option<Part>, name: &str) -> Result<UnknownKey, AllocError> {
        Ok(UnknownKey {
            part,
            name: String::from_str(alloc, name)?,
            nearest: nearest(alloc, name, keys_of(part))?,
        })
    }

    /// Returns the key of the table that may be meant: the first of those that differ in the fewest
    /// letters, at most two.
    pub fn nearest(&self) -> Option<Key>
        ensures { result ≡ self.now.nearest }
    {
        self.nearest
    }

    /// Returns that key as a question to the reader, if there is one.
    pub fn tip(&self) -> Option<Tip> {
        self.nearest().map(Tip)
    }

    /// Returns the keys that its table may have.
    pub fn known(&self) -> &'static [Key] {
        keys_of(self.part)
    }
}

/// The key that may be meant by an unknown one. It prints as `did you mean 'event'?`.
#[derive(Clone, Copy, Debug, PartialEq, Eq)]
pub struct Tip(Key);

impl fmt::Display for Tip {
    fn fmt<W: fmt::Write>(&self, f: &mut fmt::Formatter<W>) -> fmt::Result {
        write!(f, "did you mean '{}'?", self.0)
    }
}

impl fmt::Display for UnknownKey {
    fn fmt<W: fmt::Write>(&self, f: &mut fmt::Formatter<W>) -> fmt::Result {
        let name = OneLine(self.name.as_str());
        match self.part {
            None => write!(f, "unknown: {name}"),
            Some(part) if is_strict_alone(part) => write!(f, "unknown: {part}: {name}"),
            Some(part) => write!(f, "{part}: {name}"),
        }
    }
}

/// Whether only a strict reading refuses an unknown key of this part.
fn is_strict_alone(part: Part) -> bool {
    matches!(part, Part::Station(_) | Part::Event(_))
}

/// Whether a name is one of these keys.
fn is_known(name: &str, known: &[Key]) -> bool {
    known.iter().any(|key| key.word() == name)
}

/// Returns the first key of a table, in the order of octets, that is not one of these.
fn first_unknown<'a>(table: &'a Table, known: &[Key]) -> Option<&'a str> {
    for name in table.keys() {
        if !is_known(name.as_str(), known) {
            return Some(name.as_str());
        }
    }
    None
}

/// The unknown keys of the document, of its stations and of its events, in this order. Those of one
/// table are in the order of their octets.
pub(crate) fn unknown_keys(
    alloc: Global,
    document: &Table,
    stations: &[Value],
    events: &[Value],
) -> Result<Vec<UnknownKey>, AllocError> {
    let mut unknown = Vec::new(alloc);
    add_unknown(alloc, document, None, &mut unknown)?;
    for (number, station) in stations.iter().enumerate() {
        add_unknown_in(alloc, station, Part::Station(number), &mut unknown)?;
    }
    for (number, event) in events.iter().enumerate() {
        add_unknown_in(alloc, event, Part::Event(number), &mut unknown)?;
    }
    Ok(unknown)
}

/// Adds the unknown keys of a part of the scenario, if its value is a table.
fn add_unknown_in(
    alloc: Global,
    item: &Value,
    part: Part,
    unknown: &mut Vec<UnknownKey>,
) -> Result<(), AllocError> {
    match item {
        Value::Table(table) => add_unknown(alloc, table, Some(part), unknown),
        _ => Ok(()),
    }
}

/// Adds the unknown keys of a part of the scenario, or of the scenario itself.
fn add_unknown(
    alloc: Global,
    table: &Table,
    part: Option<Part>,
    unknown: &mut Vec<UnknownKey>,
) -> Result<(), AllocError> {
    for name in table.keys() {
        let name = name.as_str();
        if !is_known(name, keys_of(part)) {
            unknown.push(UnknownKey::of(alloc, part, name)?)?;
        }
    }
    Ok(())
}

/// A key that is missing from a part of the scenario, which has an unknown key with a similar name.
/// It prints as the missing key's position in the scenario: `air: range`.
#[derive(Debug, Drop, PartialEq, Eq)]
pub struct Misspelled {
    /// The part of the scenario. `None` for the scenario itself.
    part: Option<Part>,
    missing: Key,
    name: String,
}

impl Misspelled {
    /// Writes the unknown key and the one that it may mean, for example `missing: did you mean
    /// 'range' by 'rnage'?`.
    pub(crate) fn write_reason<W: fmt::Write>(&self, f: &mut fmt::Formatter<W>) -> fmt::Result {
        let (key, name) = (self.missing, OneLine(self.name.as_str()));
        write!(f, "missing: did you mean '{key}' by '{name}'?")
    }

    /// Returns the first key of this part's table, in the order of octets, that is unknown and may
    /// mean the missing one. `None` if there is no such key.
    pub(crate) fn find(
        alloc: Global,
        table: &Table,
        missing: Key,
        part: Option<Part>,
    ) -> Result<Option<Misspelled>, AllocError> {
        for name in table.keys() {
            let name = name.as_str();
            if !is_known(name, keys_of(part)) && nearest(alloc, name, &[missing])?.is_some() {
                return Ok(Some(Misspelled {
                    part,
                    missing,
                    name: String::from_str(alloc, name)?,
                }));
            }
        }
        Ok(None)
    }
}

impl fmt::Display for Misspelled {
    fn fmt<W: fmt::Write>(&self, f: &mut fmt::Formatter<W>) -> fmt::Result {
        let key = self.missing;
        match self.part {
            Some(part) => write!(f, "{part}: {key}"),
            None => write!(f, "{key}"),
        }
    }
}

/// Refuses a part of the scenario that has an unknown key: `Unknown` with the first, in the order
/// of octets.
pub(crate) fn refuse_unknown(
    alloc: Global,
    table: &Table,
    part: Part,
) -> Result<(), DocumentFault> {
    refuse_unknown_of(alloc, table, Some(part))
}

/// Refuses a part of the scenario, or the scenario itself, that has an unknown key.
fn refuse_unknown_of(
    alloc: Global,
    table: &Table,
    part: Option<Part>,
) -> Result<(), DocumentFault> {
    match first_unknown(table, keys_of(part)) {
        Some(name) => Err(DocumentFault::Unknown(UnknownKey::of(alloc, part, name)?)),
        None => Ok(()),
    }
}

/// Refuses each unknown key of the scenario, of its stations and of its events, in this order.
pub(crate) fn refuse_all_unknown(
    alloc: Global,
    document: &Table,
    stations: &[Value],
    events: &[Value],
) -> Result<(), DocumentFault> {
    refuse_unknown_of(alloc, document, None)?;
    for (number, station) in stations.iter().enumerate() {
        refuse_unknown_in(alloc, station, Part::Station(number))?;
    }
    refuse_unknown_events(alloc, events)
}

/// Refuses each unknown key of these events.
fn refuse_unknown_events(alloc: Global, events: &[Value]) -> Result<(), DocumentFault> {
    for (number, event) in events.iter().enumerate() {
        refuse_unknown_in(alloc, event, Part::Event(number))?;
    }
    Ok(())
}

/// Refuses a value that is a table and has an unknown key.
fn refuse_unknown_in(alloc: Global, item: &Value, part: Part) -> Result<(), DocumentFault> {
    match item {
        Value::Table(table) => refuse_unknown(alloc, table, part),
        _ => Ok(()),
    }
}
