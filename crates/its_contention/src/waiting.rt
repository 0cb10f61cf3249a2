//! A frame that waits, as a station sends it.

ghost use Rattle.std.specs.Prelude.{◌≡◌};
ghost use Rattle.its_linkframe.specs.Copies.{is_copy};

use crate::key::{KeyedOctets, key_of};
use its_gnvalue::{GnAddress, Mac};
use its_linkframe::is_copy;
use std::marker::Model;

/// A frame that waits to be sent, with what the limits of a station ask of its packet when it is
/// released. Contracts see its octets as a list.
#[derive(Drop)]
pub struct WaitingFrame {
    octets: Vec<u8>,
    key: u64,
    source: GnAddress,
    number: Option<u16>,
    knew_source: bool,
}

impl Model for WaitingFrame {
    ghost use Rattle.std.specs.Prelude.{◌≡◌};
    ghost use Rattle.its_contention.specs.Key.{key_of};
    ghost use Rattle.its_contention.specs.Waiting.{Waiting};

    ghost Value = { Waiting };

    ghost view = { λ f. record {
      octets = f.octets.items;
      source = f.source;
      number = f.number;
      knew_source = f.knew_source;
    } };

    ghost invariant = { λ f. f.key ≡ key_of f.octets.items };
}

impl WaitingFrame {
    /// The frame with these octets, of a packet from this source with this sequence number.
    /// `knew_source` is whether the station knew the source before the packet came.
    pub fn new(
        octets: Vec<u8>,
        source: GnAddress,
        number: Option<u16>,
        knew_source: bool,
    ) -> WaitingFrame
        ensures { result ≡ record {
          octets = octets.items;
          source = source;
          number = number;
          knew_source = knew_source;
        } }
    {
        let key = key_of(octets.as_slice());
        WaitingFrame {
            octets,
            key,
            source,
            number,
            knew_source,
        }
    }

    /// Its octets.
    pub fn octets(&self) -> &[u8]
        ensures { result.now ≡ self.now.octets }
    {
        self.octets.as_slice()
    }

    /// Whether octets that came are a copy of it, by `is_copy`, for the station with this link
    /// address. A frame with another key is not one.
    pub(crate) fn is_copied(&self, came: &KeyedOctets<'_>, own: Mac) -> bool
        ensures { result ≡ is_copy own self.now.octets came.now.octets.now }
    {
        self.key == came.key() && is_copy(self.octets(), came.octets(), own)
    }

    /// Its octets, as they are sent.
    pub fn into_octets(self) -> Vec<u8>
        ensures { result.items ≡ self.octets }
    {
        let WaitingFrame { octets, .. } = self;
        octets
    }

    /// The source of its packet.
    pub fn source(&self) -> GnAddress
        ensures { result ≡ self.now.source }
    {
        self.source
    }

    /// The sequence number of its packet, if it has one.
    pub fn number(&self) -> Option<u16>
        ensures { result ≡ self.now.number }
    {
        self.number
    }

    /// Whether the station knew the source before the packet came.
    pub fn knew_source(&self) -> bool
        ensures { result ≡ self.now.knew_source }
    {
        self.knew_source
    }
}
