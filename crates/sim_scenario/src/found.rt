//! The values that a message shows.

use cmd_quoting::Quoted;
use its_words::keys::Key;
use sim_settings::value_of;
use std::alloc::{AllocError, Global};
use std::fmt;
use toml::{Table, Value};

/// A value of a scenario's document, as a message shows it: a text in quotation marks, cut after 40
/// characters, an array or a table by its kind. It prints as `"wide"`, `20.5`, `a table`.
#[derive(Debug, Drop, PartialEq, Eq)]
pub struct FoundValue(String);

impl FoundValue {
    /// Returns what is shown of the value under this key of a table. `None` for a missing key.
    pub(crate) fn under(
        alloc: Global,
        key: Key,
        table: &Table,
    ) -> Result<Option<FoundValue>, AllocError> {
        match value_of(table, key.word()) {
            Some(value) => Ok(Some(FoundValue::of(alloc, value)?)),
            None => Ok(None),
        }
    }

    /// Returns what is shown of the value under a key that takes arrays. `None` for an array, since
    /// the mistake is inside it, and for a missing key.
    pub(crate) fn under_no_array(
        alloc: Global,
        key: Key,
        table: &Table,
    ) -> Result<Option<FoundValue>, AllocError> {
        match value_of(table, key.word()) {
            Some(Value::Array(_)) => Ok(None),
            _ => FoundValue::under(alloc, key, table),
        }
    }

    /// Returns what is shown of a value.
    fn of(alloc: Global, value: &Value) -> Result<FoundValue, AllocError> {
        Ok(FoundValue(match value {
            Value::Array(_) => String::from_str(alloc, "an array")?,
            Value::Table(_) => String::from_str(alloc, "a table")?,
            Value::String(text) => format!(in alloc; "{}", Quoted(text.as_str()))?,
            _ => format!(in alloc; "{value}")?,
        }))
    }
}

impl fmt::Display for FoundValue {
    fn fmt<W: fmt::Write>(&self, f: &mut fmt::Formatter<W>) -> fmt::Result {
        f.write_str(self.0.as_str())
    }
}
