//! A part of a walk over the neighbours of a location table (EN 302 636-4-1 clause 8): addresses
//! and places of up to 32 of them.

ghost use Rattle.std.specs.Prelude.{◌≡◌, ◌<◌, ◌∷◌, ◌++◌, [], length};
ghost use Rattle.std.specs.Prelude.{map, take, drop, filter, nat_lt, ◌&&◌, ◌≤◌};
ghost use Rattle.its_loctable.specs.Pieces.{IsLast, first_piece};
ghost use Rattle.its_loctable.specs.Sorted.{bare_known};

use crate::sorted::SortedSlot;
use its_gnvalue::{GnAddress, Place};
use std::marker::Model;

/// A part of a walk over neighbours: the addresses of up to 32 of them and, in the same order,
/// their places. `LocationStore::next_neighbours` fills it in ascending order of address. No call
/// of it allocates.
#[derive(Drop)]
pub struct Piece {
    pub(crate) addresses: [GnAddress; 32],
    pub(crate) places: [Place; 32],
    pub(crate) count: usize,
}

impl Model for Piece {
    ghost use Rattle.std.specs.Prelude.{◌≡◌, ◌≤◌, take, length};
    ghost use Rattle.its_loctable.specs.Pieces.{Listed};

    ghost Value = { Listed };

    ghost view = { λ p. record {
      addresses = take p.count p.addresses;
      places = take p.count p.places;
    } };

    ghost invariant = { λ p. (p.count ≤ 32) × (length p.addresses ≡ length p.places) };
}

impl Piece {
    /// A piece that holds no neighbour.
    pub fn empty() -> Piece
        ensures { result ≡ record { addresses = []; places = [] } }
    {
        Piece {
            addresses: [GnAddress::within(0); 32],
            places: [Place::within(0, 0); 32],
            count: 0,
        }
    }

    /// The places of the neighbours, in the order of their addresses: as many as these.
    pub fn places(&self) -> &[Place]
        ensures places { result.now ≡ self.now.places }
        ensures same { length self.now.addresses ≡ length self.now.places }
    {
        &self.places[..self.count]
    }

    /// The addresses of the neighbours: at most 32.
    pub fn addresses(&self) -> &[GnAddress]
        ensures { result.now ≡ self.now.addresses }
    {
        &self.addresses[..self.count]
    }

    /// The last address, where the piece holds 32 neighbours: a store may have more above it.
    /// `None` where it holds fewer: a walk ends there.
    pub fn last(&self) -> Option<GnAddress>
        ensures { IsLast self.now.addresses result }
    {
        if self.count < 32 {
            None
        } else {
            Some(self.addresses[31])
        }
    }

    /// Empties the piece: it holds no neighbour from now on.
    pub fn clear(&mut self)
        ensures { self.new ≡ record { addresses = []; places = [] } }
    {
        self.count = 0;
    }

    /// Appends a neighbour's address and its place. The piece must hold fewer than 32, as a new or
    /// cleared one does, and each one whose `last` is `None`.
    pub fn push(&mut self, address: GnAddress, place: Place)
        requires { length self.old.addresses < 32 }
        ensures addresses { self.new.addresses ≡ self.old.addresses ++ address ∷ [] }
        ensures places { self.new.places ≡ self.old.places ++ place ∷ [] }
    {
        self.addresses[self.count] = address;
        self.places[self.count] = place;
        self.count += 1;
    }

    /// Holds the first live neighbours among slots from a place on, and nothing else: 32, or as
    /// many as there are.
    pub(crate) fn fill(&mut self, slots: &[SortedSlot], now: u64, start: usize)
        ensures { self.new
            ≡ first_piece (map bare_known
            (filter (λ s. nat_lt now s.until && s.neighbour) (drop start slots.now))) }
    {
        self.count = gather(&mut self.addresses, &mut self.places, slots, now, start);
    }
}

/// Writes the first live neighbours among slots from a place on into both columns. Returns how
/// many they are. `count` is a local variable and no field, so that it stays in a register.
fn gather(
    addresses: &mut [GnAddress; 32],
    places: &mut [Place; 32],
    slots: &[SortedSlot],
    now: u64,
    start: usize,
) -> usize
    ensures addresses { let found = filter (λ s. nat_lt now s.until && s.neighbour)
        (drop start slots.now) in
        take result addresses.new ≡ (first_piece (map bare_known found)).addresses }
    ensures places { let found = filter (λ s. nat_lt now s.until && s.neighbour)
        (drop start slots.now) in
        take result places.new ≡ (first_piece (map bare_known found)).places }
    ensures few { result ≤ 32 }
    ensures sizes { length addresses.new ≡ length places.new }
{
    let mut count = 0;
    for place in start..slots.len() {
        if count >= 32 {
            return count;
        }
        let slot = &slots[place];
        if now < slot.until && slot.neighbour {
            addresses[count] = slot.address();
            places[count] = slot.vector.place();
            count += 1;
        }
    }
    count
}
