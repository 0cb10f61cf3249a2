//! What keys are read from.

ghost use Rattle.std.specs.Prelude.{◌≡◌};
ghost use Rattle.std.specs.Option.{option_map};
ghost use Rattle.its_words.specs.Fields.{FieldValues};

/// Values under words: a table of TOML, an object of JSON, or arguments with the same keys.
pub trait Fields {
    /// The value under each word.
    ghost values: { Self → FieldValues };

    /// Returns whether there is a value under a word, of any kind.
    fn has(&self, word: &str) -> bool
        ensures { result ≡ (values self.now).has word.now };

    /// Returns the whole number under a word. `None` if there is no whole number, or if it doesn't
    /// fit 64 bits with a sign.
    fn integer(&self, word: &str) -> Option<i64>
        ensures { result ≡ (values self.now).integer word.now };

    /// Returns true or false under a word. `None` if there is neither.
    fn truth(&self, word: &str) -> Option<bool>
        ensures { result ≡ (values self.now).truth word.now };

    /// Returns the text under a word. `None` if there is no text.
    fn text(&self, word: &str) -> Option<&str>
        ensures { option_map (λ text. text.now) result ≡ (values self.now).text word.now };
}
