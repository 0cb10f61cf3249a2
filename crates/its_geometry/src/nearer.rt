//! Places that are nearer to a centre than all before them.

ghost use Rattle.std.specs.Prelude.{◌≡◌, min, nat_lt, length};
ghost use Rattle.its_geometry.specs.Offsets.{squared_distance};
ghost use Rattle.its_geometry.specs.Nearest.{distances, IsMet};

use crate::offsets::Centre;
use crate::reach::Reach;
use its_gnvalue::Place;
use std::marker::Model;

/// A centre, and the square of the least distance from it so far, in square centimetres. Most
/// places that are no nearer are seen by their differences of latitude and longitude alone.
#[derive(Drop)]
pub struct Nearer {
    reach: Reach,
}

impl Model for Nearer {
    ghost use Rattle.its_geometry.specs.Nearest.{LeastDistance};

    ghost Value = { LeastDistance };

    ghost view = { λ n. record { centre = n.reach.centre.place; least = n.reach.least } };
}

impl Nearer {
    /// No place is met yet, and only those count whose squared distance is below the limit, in
    /// square centimetres.
    pub fn than(centre: Centre, limit: u64) -> Nearer
        ensures { result ≡ record { centre = centre.place; least = limit } }
    {
        Nearer {
            reach: Reach::whole(centre).narrowed(limit),
        }
    }

    /// Whether the place is nearer than the limit and all places before it. If so, its distance is
    /// the least from now on.
    pub fn take(&mut self, place: Place) -> bool
        ensures nearer { result ≡ nat_lt (squared_distance self.old.centre place) self.old.least }
        ensures least { self.new.least
            ≡ min self.old.least (squared_distance self.old.centre place) }
        ensures centre { self.new.centre ≡ self.old.centre }
    {
        if !self.reach.holds(place) {
            return false;
        }
        let distance = self.reach.centre().squared_distance(place);
        if distance < self.reach.least() {
            self.reach = self.reach.narrowed(distance);
            true
        } else {
            false
        }
    }

    /// The index of the first of the nearest of these places, where it is nearer than the limit and
    /// all places that were taken before. If so, its distance is the least from now on; `None`, and
    /// nothing changes, where none of them is nearer. So an earlier answer stays on a tie.
    pub fn take_nearest(&mut self, places: &[Place]) -> Option<usize>
        ensures nearest { IsMet self.old.least self.new.least
            (distances self.old.centre places.now) (length places.now) result }
        ensures centre { self.new.centre ≡ self.old.centre }
    {
        let mut found = None;
        for i in 0..places.len() {
            if self.take(places[i]) {
                found = Some(i);
            }
        }
        found
    }
}
