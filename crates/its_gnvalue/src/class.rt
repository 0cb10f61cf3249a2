//! The traffic class of a packet (EN 302 636-4-1, TC).

ghost use Rattle.std.specs.Prelude.{◌≡◌, ◌<◌};

use std::marker::Model;

/// The class of a packet (TC), as its octet: store-carry-forward (1 bit), channel offload (1 bit)
/// and the class itself (6 bits). It is carried and not acted on (profile).
#[derive(Clone, Copy, Debug, PartialEq, Eq)]
pub struct TrafficClass {
    octet: u8,
}

impl Model for TrafficClass {
    ghost use Rattle.std.specs.Prelude.{ℕ};

    ghost Value = { ℕ };

    ghost view = { λ l. l.octet };

    ghost inverse = { λ n. record { octet = n } };
}

impl TrafficClass {
    /// The class of any octet.
    pub fn from_octet(octet: u8) -> TrafficClass
        ensures { result ≡ octet }
    {
        TrafficClass { octet }
    }

    /// The octet on the wire.
    pub fn octet(self) -> u8
        ensures value { result ≡ self }
        ensures fits { self < 256 }
    {
        self.octet
    }
}
