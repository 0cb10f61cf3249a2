//! The kinds of packet (EN 302 636-4-1 clause 9).

ghost use Rattle.std.specs.Prelude.{◌≡◌, IfSome};
ghost use Rattle.its_headers.specs.Kinds.{kind_word};

use std::fmt;

/// The kinds of packet that are read and written (EN 302 636-4-1 clause 9). A kind prints as its
/// word.
#[derive(Clone, Copy, Debug, PartialEq, Eq)]
pub enum Kind {
    /// Tells the neighbours of a station, and nothing more.
    Beacon,
    /// A single-hop broadcast, for all neighbours.
    Shb,
    /// A geobroadcast, for all stations in an area.
    Gbc,
    /// A geoanycast, for one station in an area.
    Gac,
}

/// All kinds, in the order in which tables have them.
pub const KINDS: [Kind; 4] = [Kind::Beacon, Kind::Shb, Kind::Gbc, Kind::Gac];

impl Kind {
    /// The word that lines and arguments have for it: `beacon`, `shb`, `gbc` or `gac`.
    pub fn word(self) -> &'static str
        ensures { result.now ≡ kind_word self }
    {
        match self {
            Kind::Beacon => "beacon",
            Kind::Shb => "shb",
            Kind::Gbc => "gbc",
            Kind::Gac => "gac",
        }
    }

    /// The kind that has this word; `None` where none has.
    pub fn named(word: &str) -> Option<Kind>
        ensures { IfSome result (λ kind. kind_word kind ≡ word.now) }
    {
        for kind in KINDS {
            if kind.word() == word {
                return Some(kind);
            }
        }
        None
    }
}

impl fmt::Display for Kind {
    fn fmt<W: fmt::Write>(&self, f: &mut fmt::Formatter<W>) -> fmt::Result {
        f.write_str(self.word())
    }
}
