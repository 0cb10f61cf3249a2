//! A walk over the neighbours that a location table knows (EN 302 636-4-1 clause 8).

ghost use Rattle.std.specs.Prelude.{◌≡◌, ◌≤◌, ◌^◌, List, None};
ghost use Rattle.std.specs.Option.{option_map};
ghost use Rattle.std.specs.Iterator.{at_most};
ghost use Rattle.its_model.specs.History.{Reception};
ghost use Rattle.its_model.specs.Stations.{stations_at, next_neighbour};
ghost use Rattle.its_loctable.specs.Content.{Represents};
ghost use Rattle.its_station.specs.Walks.{walked_to, addresses_above};

use its_gnvalue::{GnAddress, LongPv};
use its_loctable::LocationStore;

/// The position vectors of a table's live neighbours, the stations heard directly, in ascending
/// order of their addresses. It takes no memory.
#[derive(Drop)]
pub struct Neighbours<'a, S: LocationStore> {
    pub(crate) table: &'a S,
    pub(crate) moment: u64,
    pub(crate) after: Option<GnAddress>,
}

impl<'a, S: LocationStore> Neighbours<'a, S> {
    /// The walk over a table's neighbours that are live at a moment, at most 2^62 ms and not before
    /// the last call of the table.
    pub fn new(table: &'a S, now: u64) -> Neighbours<'a, S>
        requires { now ≤ 2 ^ 62 }
        ensures table { result.table.now ≡ table.now }
        ensures moment { result.moment ≡ now }
        ensures start { result.after ≡ None }
    {
        Neighbours {
            table,
            moment: now,
            after: None,
        }
    }
}

impl<'a, S: LocationStore> Iterator for Neighbours<'a, S> {
    type Item = LongPv;

    ghost can_next = { λ walk. walk.moment ≤ 2 ^ 62 };

    // It gives the neighbour of least address above the last one, and goes on from there.
    ghost next_gives = { λ walk next later.
        ((history : List Reception) →
        Represents (S.remember walk.table.now) (S.content walk.table.now) history walk.moment →
        next ≡ option_map (λ k. k.vector) (next_neighbour walk.after
        (stations_at (S.remember walk.table.now) walk.moment history)))
        × (later ≡ record walk { after = walked_to walk.after next }) };

    ghost remaining = { λ walk. at_most (addresses_above walk.after) };

    fn next(&mut self) -> Option<LongPv> {
        let next = self.table.next_neighbour(self.moment, self.after);
        if let Some(vector) = &next {
            self.after = Some(vector.address());
        }
        next
    }
}
