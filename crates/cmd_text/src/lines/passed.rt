//! What is known about the octets of a line that were not kept.

ghost use Rattle.std.specs.Prelude.{◌≡◌, ◌<◌, ◌+◌, ◌%◌, ◌==◌, ◌++◌, ◌↔◌, ◌⊎◌, ℕ, List, []};
ghost use Rattle.std.specs.Prelude.{All, IsTrue, length};
ghost use Rattle.std.specs.Char.{IsAsciiHexdigit};
ghost use Rattle.cmd_text.specs.Lines.{IsPassed};

/// What is known about octets that were not kept.
#[derive(Clone, Copy)]
pub struct Passed {
    /// Whether there are any.
    pub any: bool,
    /// Whether their number is odd.
    pub odd: bool,
    /// Whether one of them is not a hexadecimal digit.
    pub stray: bool,
}

impl Passed {
    /// Returns what is known before the first of them.
    pub(crate) fn none() -> Passed
        ensures { IsPassed result [] }
    {
        Passed {
            any: false,
            odd: false,
            stray: false,
        }
    }

    /// Adds octets.
    pub(crate) fn add(&mut self, octets: &[u8])
        ensures any { IsTrue self.new.any ↔ (IsTrue self.old.any ⊎ (0 < length octets.now)) }
        ensures odd { (n : ℕ) → self.old.odd ≡ (n % 2 == 1)
            → self.new.odd ≡ ((n + length octets.now) % 2 == 1) }
        ensures stray { IsTrue self.new.stray
            ↔ (IsTrue self.old.stray ⊎ ¬ All IsAsciiHexdigit octets.now) }
    {
        self.any |= !octets.is_empty();
        self.odd ^= octets.len() % 2 == 1;
        self.stray |= !are_digits(octets);
    }
}

/// Whether each octet is a hexadecimal digit.
pub fn are_digits(octets: &[u8]) -> bool
    ensures { IsTrue result ↔ All IsAsciiHexdigit octets.now }
{
    octets.iter().all(|octet| octet.is_ascii_hexdigit())
}
