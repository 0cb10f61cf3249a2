//! The neighbour that is nearest to a place, which is kept while packets arrive: a packet changes
//! one slot, so one comparison replaces a walk over all slots.

ghost use Rattle.std.specs.Prelude.{◌≡◌, ◌&&◌, All, nat_eq};

use super::slot::SortedSlot;
use crate::heard::NearestNeighbour;
use its_geometry::Centre;
use its_gnvalue::Place;

/// The nearest neighbour to a place among the slots of a table, if they have one. It is a bound: no
/// other neighbour among them comes before it, by distance and then by address. This still holds
/// after it has moved away or left the table.
#[derive(Clone, Copy)]
pub struct Nearest {
    /// The place from which distances are measured.
    pub place: Place,
    pub centre: Centre,
    /// The moment from which the bound holds. Slots that have expired by then don't count.
    pub since: u64,
    pub neighbour: Option<NearestNeighbour>,
    ghost same: { centre.place ≡ place },
}

impl Nearest {
    ghost use Rattle.its_loctable.specs.Bound.{IsNotBelow, IsWithin};
    ghost use Rattle.its_geometry.specs.Offsets.{squared_distance};

    /// The nearest to a place of these, from a moment on.
    pub fn among(slots: &[SortedSlot], since: u64, place: Place) -> Nearest
        ensures bound { All (IsNotBelow result) slots.now }
        ensures since { result.since ≡ since }
        ensures place { result.place ≡ place }
    {
        let mut nearest = Nearest {
            place,
            centre: Centre::new(place),
            since,
            neighbour: None,
        };
        for i in 0..slots.len() {
            nearest.meet(&slots[i]);
        }
        nearest
    }

    /// Compares a slot with the nearest one. It takes its place, if it is of a neighbour that comes
    /// before it.
    pub fn meet(&mut self, slot: &SortedSlot)
        ensures within { IsNotBelow self.new slot.now }
        ensures lower { (s : SortedSlot) → IsNotBelow self.old s → IsNotBelow self.new s }
        ensures since { self.new.since ≡ self.old.since }
        ensures place { self.new.place ≡ self.old.place }
    {
        if !slot.neighbour || slot.until <= self.since {
            return;
        }
        let distance = self.centre.squared_distance(slot.vector.place());
        let address = slot.address();
        if let Some(first) = self.neighbour {
            if first.distance < distance {
                return;
            }
            if first.distance == distance && first.address <= address {
                return;
            }
        }
        self.neighbour = Some(NearestNeighbour { address, distance });
    }

    /// Whether a slot is of a neighbour at this distance.
    pub fn is_at(&self, slot: &SortedSlot, distance: u64) -> bool
        ensures { result ≡ slot.now.neighbour
            && nat_eq (squared_distance self.now.place slot.now.vector.place) distance }
    {
        slot.neighbour && self.centre.squared_distance(slot.vector.place()) == distance
    }

    /// Compares a slot that changed with the nearest one, if one is kept.
    #[inline(always)]
    pub fn note(nearest: &mut Option<Nearest>, slot: &SortedSlot)
        ensures within { IsWithin nearest.new slot.now }
        ensures lower { (s : SortedSlot) → IsWithin nearest.old s → IsWithin nearest.new s }
    {
        if let Some(kept) = nearest {
            kept.meet(slot);
        }
    }
}
