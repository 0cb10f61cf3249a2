//! What a packet says of its source, and what is shown of a source.

ghost use Rattle.std.specs.Prelude.{◌≡◌, is_none};

use its_gnvalue::{GnAddress, LongPv};
use std::marker::Model;

/// What a packet says of its source: its position vector, and the sequence number of a multi-hop
/// packet. A packet without a number, a BEACON or an SHB, came from the source itself.
#[derive(Clone, Copy, Debug, PartialEq, Eq)]
pub struct Heard {
    vector: LongPv,
    number: Option<u16>,
}

impl Model for Heard {
    ghost use Rattle.its_loctable.specs.SourceReport.{SourceReport};

    ghost Value = { SourceReport };

    ghost view = { λ h. record { vector = h.vector; number = h.number } };

    ghost inverse = { λ r. record { vector = r.vector; number = r.number } };
}

impl Heard {
    /// What a packet with this vector says, with the sequence number of a GBC or GAC, or with none
    /// of a BEACON or SHB.
    pub fn new(vector: LongPv, number: Option<u16>) -> Heard
        ensures { result ≡ record { vector = vector; number = number } }
    {
        Heard { vector, number }
    }

    /// The source's position vector.
    pub fn vector(&self) -> LongPv
        ensures { result ≡ self.now.vector }
    {
        self.vector
    }

    /// The source's address.
    pub fn address(&self) -> GnAddress
        ensures { result ≡ self.now.vector.address }
    {
        self.vector.address()
    }

    /// The packet's sequence number, where it has one.
    pub fn number(&self) -> Option<u16>
        ensures { result ≡ self.now.number }
    {
        self.number
    }

    /// Whether the packet came from the source itself: it has no sequence number.
    pub fn neighbour(&self) -> bool
        ensures { result ≡ is_none self.now.number }
    {
        self.number.is_none()
    }
}

/// What is shown of a live source.
#[derive(Clone, Copy, Debug, PartialEq, Eq)]
pub struct Known {
    /// The newest of its position vectors.
    pub vector: LongPv,
    /// Whether a BEACON or an SHB of it came.
    pub neighbour: bool,
}

/// The neighbour that is nearest to a place, of equally near ones the one of least address.
#[derive(Clone, Copy, Debug, PartialEq, Eq)]
pub struct NearestNeighbour {
    /// Its address.
    pub address: GnAddress,
    /// The square of its distance from the place, in square centimetres.
    pub distance: u64,
}

/// What a location table finds when it is asked for the live neighbour that is nearest to a place.
#[derive(Clone, Copy, Debug, PartialEq, Eq)]
pub enum NearestSearch {
    /// The table doesn't know. A walk over its neighbours finds the nearest one, if there is one.
    Unknown,
    /// The table has no live neighbour.
    NoNeighbour,
    /// This neighbour is the nearest.
    Found(NearestNeighbour),
}
