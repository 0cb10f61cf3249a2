//! What a location table answers, however it is kept (EN 302 636-4-1 clause 8, in this profile).

ghost use Rattle.std.specs.Prelude.{◌≡◌, ◌≢◌, ◌^◌, ◌≤◌, ◌∷◌};
ghost use Rattle.std.specs.Prelude.{ℕ, List, [], All, not, length, IfOk, IfSome, IsTrue, IsFalse};
ghost use Rattle.std.specs.Prelude.{OnOk, OnErr, ◌⊎◌};
ghost use Rattle.std.specs.Option.{option_map};
ghost use Rattle.its_model.specs.History.{Reception, is_live, is_remembered, known};
ghost use Rattle.its_model.specs.Stations.{stations_at, is_full, is_above, next_neighbour, by_mid};
ghost use Rattle.its_loctable.specs.Content.{Entry, Represents};
ghost use Rattle.its_loctable.specs.Heard.{reception, shown, verdict_at};
ghost use Rattle.its_loctable.specs.Found.{addresses_in, verdict_of, HasIndex, IsIndexOf, Admits};
ghost use Rattle.its_loctable.specs.Pieces.{first_piece, neighbours_above, AreAllAbove};
ghost use Rattle.its_loctable.specs.Nearest.{IsNearest};

use crate::found::{EntryIndex, Found};
use crate::heard::{Heard, Known, NearestSearch};
use crate::piece::Piece;
use crate::refused::StoreRefused;
use its_gnvalue::{GnAddress, LongPv, Mac, NoMemory, Place};
use std::alloc::Global;

/// Whether a packet is new.
#[derive(Clone, Copy, Debug, PartialEq, Eq)]
pub enum Verdict {
    /// The packet is new, and its source's entry has it.
    Accepted,
    /// The packet's sequence number is remembered; nothing changed.
    Duplicate,
}

/// A location table (EN 302 636-4-1 clause 8): a bounded, soft-state table of the sources that were
/// heard lately. An entry is live for 20000 ms after a packet of its source; from then on it is as
/// if it were absent.
///
/// A store represents the history of the packets that it accepted since it was made or cleared,
/// from the last of their moments on: its answers are those of `its_model` for every history that
/// it represents. It is made for a number of live sources and for a number of sequence numbers that
/// are remembered of each, and no call changes either. Moments are milliseconds, at most 2^62.
/// Only `empty` and `accept` may take memory, and `accept` never answers out of memory for a live
/// source.
pub trait LocationStore: Sized + Drop {
    /// What is kept of each address, expired entries among it.
    ghost content: { Self → List Entry };

    /// How many sources may be live at once.
    ghost limit: { Self → ℕ };

    /// How many sequence numbers are remembered of each source.
    ghost remember: { Self → ℕ };

    /// A store with room for `capacity` sources, 1 to 4096, that remembers the last `remembered`
    /// sequence numbers of each, 1 to 64.
    fn empty(alloc: Global, capacity: u16, remembered: u8) -> Result<Self, NoMemory>
        requires capacity { (1 ≤ capacity) × (capacity ≤ 4096) }
        requires remembered { (1 ≤ remembered) × (remembered ≤ 64) }
        ensures limit { IfOk result (λ store. limit store ≡ capacity) }
        ensures remember { IfOk result (λ store. remember store ≡ remembered) }
        ensures represents { IfOk result (λ store.
            Represents (remember store) (content store) [] 0) };

    /// Forgets every source. The store represents the empty history then, at every moment.
    fn clear(&mut self)
        ensures represents { Represents (remember self.new) (content self.new) [] 0 }
        ensures limit { limit self.new ≡ limit self.old }
        ensures remember { remember self.new ≡ remember self.old };

    /// How many sources there is room for. The store never has more entries, and of each never more
    /// sequence numbers than are remembered.
    fn capacity(&self) -> u16
        ensures value { result ≡ limit self.now }
        ensures bounded { length (content self.now) ≤ result }
        ensures few { All (λ entry. length entry.known.numbers ≤ remember self.now)
            (content self.now) };

    /// What is known of a source, where it is live.
    fn lookup(&self, now: u64, a: GnAddress) -> Option<Known>
        requires { now ≤ 2 ^ 62 }
        ensures { (history : List Reception) →
            Represents (remember self.now) (content self.now) history now →
            result ≡ option_map shown (known (remember self.now) a now history) };

    /// Whether a sequence number is among those that are remembered of a live source.
    fn remembers(&self, now: u64, a: GnAddress, number: u16) -> bool
        requires { now ≤ 2 ^ 62 }
        ensures { (history : List Reception) →
            Represents (remember self.now) (content self.now) history now →
            result ≡ is_remembered (remember self.now) a number now history };

    /// Whether a packet of this source would find room: the source is live, or fewer others are
    /// than the capacity.
    fn has_room(&self, now: u64, a: GnAddress) -> bool
        requires { now ≤ 2 ^ 62 }
        ensures { (history : List Reception) →
            Represents (remember self.now) (content self.now) history now →
            result ≡ not (is_full (limit self.now) a
            (stations_at (remember self.now) now history)) };

    /// Takes a packet in, unless it is a duplicate or, checked after that, there is no room. A
    /// duplicate and a refusal change nothing. Memory is asked for only where the packet
    /// would be accepted and its source isn't live.
    fn accept(&mut self, now: u64, h: &Heard) -> Result<Verdict, StoreRefused>
        requires { now ≤ 2 ^ 62 }
        ensures answer { (history : List Reception) →
            Represents (remember self.old) (content self.old) history now →
            result ≢ Err StoreRefused.NoMemory →
            result ≡ verdict_at (remember self.old) (limit self.old) now h.now history }
        ensures memory { (history : List Reception) →
            Represents (remember self.old) (content self.old) history now →
            result ≡ Err StoreRefused.NoMemory →
            (verdict_at (remember self.old) (limit self.old) now h.now history
            ≡ Ok Verdict.Accepted)
            × IsFalse (is_live h.now.vector.address now history) }
        ensures accepted { (history : List Reception) →
            Represents (remember self.old) (content self.old) history now →
            result ≡ Ok Verdict.Accepted →
            Represents (remember self.new) (content self.new) (reception now h.now ∷ history) now }
        ensures unchanged { result ≢ Ok Verdict.Accepted → content self.new ≡ content self.old }
        ensures limit { limit self.new ≡ limit self.old }
        ensures remember { remember self.new ≡ remember self.old };

    /// The addresses of the entries in ascending order, if the store keeps them in one slice: with
    /// `narrow`, several stores are searched side by side. Any other store returns nothing.
    fn column(&self) -> &[GnAddress]
        ensures { (result.now ≡ []) ⊎ (result.now ≡ addresses_in (content self.now)) }
    {
        &[]
    }

    /// Says which entry the next `find` will ask for, by its index in the `column`: the store may
    /// look there first. Nothing else changes, and every index is allowed.
    fn expect(&mut self, now: u64, index: usize)
        ensures unchanged { content self.new ≡ content self.old }
        ensures limit { limit self.new ≡ limit self.old }
        ensures remember { remember self.new ≡ remember self.old }
    {
        let _ = (now, index);
    }

    /// Looks a packet's source up, once: whether the packet is a duplicate, whether there is room
    /// for its source, and where the source's entry is. It finds what `accept` would answer. A
    /// store that can do better than `remembers` and then `has_room` has a body of its own.
    fn find(&self, now: u64, h: &Heard) -> Found
        requires { now ≤ 2 ^ 62 }
        ensures verdict { (history : List Reception) →
            Represents (remember self.now) (content self.now) history now →
            verdict_of result ≡ verdict_at (remember self.now) (limit self.now) now h.now history }
        ensures index { HasIndex (content self.now) h.now.vector.address result }
    {
        let address = h.address();
        if let Some(number) = h.number() {
            if self.remembers(now, address, number) {
                return Found::Duplicate;
            }
        }
        if self.has_room(now, address) {
            Found::New(EntryIndex::Unknown)
        } else {
            Found::Full
        }
    }

    /// Takes in a packet that `find` found to be new, with the index that it returned, and without
    /// a second look-up if the store can. The store must not have changed since. Out of memory is
    /// the one failure: it changes nothing, and never comes for a live source.
    fn accept_at(&mut self, now: u64, h: &Heard, index: EntryIndex) -> Result<(), NoMemory>
        requires moment { now ≤ 2 ^ 62 }
        requires new { Admits (remember self.old) (limit self.old) (content self.old) now h.now }
        requires index { IsIndexOf (content self.old) h.now.vector.address index }
        ensures accepted { (history : List Reception) →
            Represents (remember self.old) (content self.old) history now →
            OnOk result (Represents (remember self.new) (content self.new)
            (reception now h.now ∷ history) now) }
        ensures memory { (history : List Reception) →
            Represents (remember self.old) (content self.old) history now →
            OnErr result (IsFalse (is_live h.now.vector.address now history)) }
        ensures unchanged { OnErr result (content self.new ≡ content self.old) }
        ensures limit { limit self.new ≡ limit self.old }
        ensures remember { remember self.new ≡ remember self.old }
    {
        let _ = index;
        match self.accept(now, h) {
            Ok(Verdict::Accepted) => Ok(()),
            Err(StoreRefused::NoMemory) => Err(NoMemory),
            Ok(Verdict::Duplicate) | Err(StoreRefused::Full) => unreachable!(),
        }
    }

    /// The vector of the live neighbour of least address above one, or of least address.
    fn next_neighbour(&self, now: u64, after: Option<GnAddress>) -> Option<LongPv>
        requires { now ≤ 2 ^ 62 }
        ensures next { (history : List Reception) →
            Represents (remember self.now) (content self.now) history now →
            result ≡ option_map (λ k. k.vector)
            (next_neighbour after (stations_at (remember self.now) now history)) }
        ensures above { IfSome result (λ vector. IsTrue (is_above after vector.address)) };

    /// Fills a piece with the neighbours above an address, or with all, in ascending order of
    /// address: the first 32, or as many as there are. What the piece held before is gone. A store
    /// that can do better than one `next_neighbour` after the other has a body of its own.
    fn next_neighbours(&self, now: u64, after: Option<GnAddress>, piece: &mut Piece)
        requires { now ≤ 2 ^ 62 }
        ensures next { (history : List Reception) →
            Represents (remember self.now) (content self.now) history now →
            piece.new ≡ first_piece
            (neighbours_above after (stations_at (remember self.now) now history)) }
        ensures above { AreAllAbove after piece.new.addresses }
    {
        piece.clear();
        let mut after = after;
        for _ in 0..32usize {
            let Some(vector) = self.next_neighbour(now, after) else {
                return;
            };
            after = Some(vector.address());
            piece.push(vector.address(), vector.place());
        }
    }

    /// Returns what `nearest` does, and has the store keep it. It is kept while packets are
    /// accepted, until another place is asked for. A store may keep nothing.
    fn keep_nearest(&mut self, now: u64, centre: Place) -> NearestSearch
        requires { now ≤ 2 ^ 62 }
        ensures nearest { (history : List Reception) →
            Represents (remember self.old) (content self.old) history now →
            IsNearest centre (stations_at (remember self.old) now history) result }
        ensures unchanged { content self.new ≡ content self.old }
        ensures limit { limit self.new ≡ limit self.old }
        ensures remember { remember self.new ≡ remember self.old }
    {
        let _ = (now, centre);
        NearestSearch::Unknown
    }

    /// The live neighbour that is nearest to a place, which is the centre of an area. If several
    /// are equally near, it is the one with the least address. A store that can't do better than a
    /// walk by `next_neighbours` returns `Unknown`.
    fn nearest(&self, now: u64, centre: Place) -> NearestSearch
        requires { now ≤ 2 ^ 62 }
        ensures { (history : List Reception) →
            Represents (remember self.now) (content self.now) history now →
            IsNearest centre (stations_at (remember self.now) now history) result }
    {
        let _ = (now, centre);
        NearestSearch::Unknown
    }

    /// What is known of the live source of least address that has a MID.
    fn by_mid(&self, now: u64, mid: Mac) -> Option<Known>
        requires { now ≤ 2 ^ 62 }
        ensures { (history : List Reception) →
            Represents (remember self.now) (content self.now) history now →
            result ≡ option_map shown (by_mid mid (stations_at (remember self.now) now history)) };
}
