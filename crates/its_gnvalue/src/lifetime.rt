//! The lifetime of a packet (EN 302 636-4-1, LT).

ghost use Rattle.std.specs.Prelude.{◌≡◌, ◌<◌, ◌≤◌};
ghost use Rattle.its_gnvalue.specs.Values.{lifetime_millis};

use std::marker::Model;

/// How long a packet lives (LT), as its octet: a multiplier of six bits, then a base of two
/// (50 ms, 1 s, 10 s, 100 s). The value is the octet: 20 x 50 ms and 1 x 1 s are two (profile).
#[derive(Clone, Copy, Debug, PartialEq, Eq)]
pub struct Lifetime {
    octet: u8,
}

impl Model for Lifetime {
    ghost use Rattle.std.specs.Prelude.{ℕ};

    ghost Value = { ℕ };

    ghost view = { λ l. l.octet };

    ghost inverse = { λ n. record { octet = n } };
}

impl Lifetime {
    /// The lifetime of any octet.
    pub fn from_octet(octet: u8) -> Lifetime
        ensures { result ≡ octet }
    {
        Lifetime { octet }
    }

    /// The octet on the wire.
    pub fn octet(self) -> u8
        ensures value { result ≡ self }
        ensures fits { self < 256 }
    {
        self.octet
    }

    /// The lifetime in milliseconds, from 0 to 6300000.
    pub fn millis(self) -> u64
        ensures value { result ≡ lifetime_millis self }
        ensures bound { result ≤ 6300000 }
    {
        let base = match self.octet % 4 {
            0 => 50,
            1 => 1000,
            2 => 10_000,
            _ => 100_000,
        };
        (self.octet / 4) as u64 * base
    }
}
