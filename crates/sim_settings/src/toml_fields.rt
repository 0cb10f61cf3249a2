//! Tables of a TOML document, from which keys are read.

ghost use Rattle.std.specs.Prelude.{◌≡◌, IfSome};
ghost use Rattle.std.specs.Option.{option_map};
ghost use Rattle.toml.specs.Data.{get_member};
ghost use Rattle.toml.specs.View.{items_view, table_view, view};
ghost use Rattle.sim_settings.specs.Tables.{items_of_found};

use its_words::keys::Fields;
use toml::{Table, Value};

/// The values of a TOML table, by the names of keys.
#[derive(Clone, Copy)]
pub struct TomlFields<'a>(
    /// The table.
    pub &'a Table,
);

impl Fields for TomlFields<'_> {
    ghost use Rattle.sim_settings.specs.Tables.{table_values};

    ghost values = { λ fields. table_values (table_view fields.0.now) };

    fn has(&self, word: &str) -> bool {
        value_of(self.0, word).is_some()
    }

    fn integer(&self, word: &str) -> Option<i64> {
        value_of(self.0, word)?.as_integer()
    }

    fn truth(&self, word: &str) -> Option<bool> {
        value_of(self.0, word)?.as_bool()
    }

    fn text(&self, word: &str) -> Option<&str> {
        value_of(self.0, word)?.as_str()
    }
}

/// Returns the value under a key of a table, of any kind. `None` without the key.
#[tactic(auto, using(toml::proofs::Views::table_get))]
pub fn value_of<'a>(table: &'a Table, word: &str) -> Option<&'a Value>
    ensures { option_map (λ value. view value.now) result
        ≡ get_member word.now (table_view table.now) }
{
    table.get(word)
}

/// Returns the items of the array under a key of a table: none if the key is missing. `None` if its
/// value is not an array.
pub fn items_of<'a>(table: &'a Table, word: &str) -> Option<&'a [Value]>
    ensures { IfSome result (λ items.
        items_of_found (get_member word.now (table_view table.now)) ≡ Some (items_view items.now)) }
{
    match value_of(table, word) {
        None => Some(&[]),
        Some(value) => Some(value.as_array()?.as_slice()),
    }
}
