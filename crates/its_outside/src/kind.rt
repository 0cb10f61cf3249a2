//! The kinds of packet of the standard (EN 302 636-4-1 clause 9).

ghost use Rattle.std.specs.Prelude.{◌≡◌};
ghost use Rattle.its_outside.specs.Kinds.{standard_word, kind_of_extended};

use crate::fields::ExtendedFields;
use std::fmt;

/// The kinds of packet that the standard lays out (EN 302 636-4-1 clause 9). A kind prints as its
/// word.
#[derive(Clone, Copy, Debug, PartialEq, Eq)]
pub enum StandardKind {
    /// A BEACON.
    Beacon,
    /// A GUC (geounicast), for one station.
    Guc,
    /// A GAC (geoanycast), for one station in an area.
    Gac,
    /// A GBC (geobroadcast), for all stations in an area.
    Gbc,
    /// An SHB (single-hop broadcast), for all neighbours.
    Shb,
    /// A TSB (topologically-scoped broadcast), for all stations within so many hops.
    Tsb,
    /// A request of the location service (LS): where is this station?
    LsRequest,
    /// A reply of the location service (LS).
    LsReply,
}

impl StandardKind {
    /// The word that lines have for it: `beacon`, `guc`, `gac`, `gbc`, `shb`, `tsb`, `ls-request`
    /// or `ls-reply`.
    pub fn word(self) -> &'static str
        ensures { result.now ≡ standard_word self }
    {
        match self {
            StandardKind::Beacon => "beacon",
            StandardKind::Guc => "guc",
            StandardKind::Gac => "gac",
            StandardKind::Gbc => "gbc",
            StandardKind::Shb => "shb",
            StandardKind::Tsb => "tsb",
            StandardKind::LsRequest => "ls-request",
            StandardKind::LsReply => "ls-reply",
        }
    }
}

impl fmt::Display for StandardKind {
    fn fmt<W: fmt::Write>(&self, f: &mut fmt::Formatter<W>) -> fmt::Result {
        f.write_str(self.word())
    }
}

impl ExtendedFields {
    /// The kind of packet that has these fields.
    pub fn kind(&self) -> StandardKind
        ensures { result ≡ kind_of_extended self.now }
    {
        match self {
            ExtendedFields::Beacon => StandardKind::Beacon,
            ExtendedFields::Guc(_, _) => StandardKind::Guc,
            ExtendedFields::Gac(_, _) => StandardKind::Gac,
            ExtendedFields::Gbc(_, _) => StandardKind::Gbc,
            ExtendedFields::Shb(_) => StandardKind::Shb,
            ExtendedFields::Tsb(_) => StandardKind::Tsb,
            ExtendedFields::LsRequest(_, _) => StandardKind::LsRequest,
            ExtendedFields::LsReply(_, _) => StandardKind::LsReply,
        }
    }
}
