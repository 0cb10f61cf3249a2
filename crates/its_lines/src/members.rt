//! The members of a JSON object, as the fields that keys are read from.

ghost use Rattle.std.specs.Prelude.{◌≡◌, ◌↔◌, IsTrue, IsSome, is_some};
ghost use Rattle.std.specs.Option.{option_map, option_and_then};
ghost use Rattle.serde_json.specs.Find.{get, as_bool, as_i64, as_number, as_str};
ghost use Rattle.serde_json.specs.View.{view};

use its_words::keys::Fields;
use serde_json::Value;

/// The members of a JSON object. If a key is given twice, the last one counts. A whole number has
/// no fraction and no exponent, and is not `-0`.
#[derive(Drop)]
pub(crate) struct Members<'a>(pub(crate) &'a Value);

impl Fields for Members<'_> {
    ghost use Rattle.its_lines.specs.Requests.{values_in};

    ghost values = { λ members. values_in (view members.0.now) };

    fn has(&self, word: &str) -> bool
        ensures value { result ≡ is_some (get word.now (view self.now.0.now)) }
        ensures some { IsTrue result ↔ IsSome (get word.now (view self.now.0.now)) }
    {
        self.0.get(word).is_some()
    }

    fn integer(&self, word: &str) -> Option<i64>
        ensures { result ≡ option_and_then as_i64
            (option_and_then as_number (get word.now (view self.now.0.now))) }
    {
        self.0.get(word).and_then(Value::as_i64)
    }

    fn truth(&self, word: &str) -> Option<bool>
        ensures { result ≡ option_and_then as_bool (get word.now (view self.now.0.now)) }
    {
        self.0.get(word).and_then(Value::as_bool)
    }

    fn text(&self, word: &str) -> Option<&str>
        ensures { option_map (λ text. text.now) result
            ≡ option_and_then as_str (get word.now (view self.now.0.now)) }
    {
        self.0.get(word).and_then(Value::as_str)
    }
}
