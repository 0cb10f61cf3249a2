//! The nearest of many places.

ghost use Rattle.std.specs.Prelude.{◌≡◌, ◌↔◌, ◌⊎◌, ◌+◌, ◌*◌, ◌^◌, ◌<◌, ◌≤◌, min, length, IsNone};
ghost use Rattle.std.specs.Prelude.{IfSome, slice_index};
ghost use Rattle.std.specs.Simd.Lanes.{zip2, Each1};
ghost use Rattle.its_geometry.specs.Nearest.{distances, least_of, IsFirstLeast, AllAbove};

use crate::offsets::Centre;
use crate::reach::Reach;
use its_gnvalue::Place;
use std::simd::prelude::*;

/// The index of the place that is nearest to the centre, by `distance2`: the least index of those
/// at equal distance. None exactly where there are no places.
pub fn nearest(centre: Place, places: &[Place]) -> Option<usize>
    ensures empty { IsNone result ↔ (length places.now ≡ 0) }
    ensures nearest { IfSome result (IsFirstLeast (distances centre places.now)) }
{
    let centre = Centre::new(centre);
    let found = walk(centre, places);
    let least = found.reach.least();
    for i in found.from..places.len() {
        if centre.squared_distance(places[i]) == least {
            return Some(i);
        }
    }
    None
}

/// What a walk over places has met: the box in which a place may be nearer than the nearest so far,
/// and an index before which none is as near as it.
#[derive(Clone, Copy)]
struct Found {
    reach: Reach,
    from: usize,
}

impl Found {
    /// What has been met when this distance, squared, is met at this index or soon after it.
    fn with(self, distance: u64, at: usize) -> Found
        ensures centre { result.reach.centre ≡ self.reach.centre }
        ensures least { result.reach.least ≡ min self.reach.least distance }
        ensures from { ((result.from ≡ self.from) × (self.reach.least ≤ distance))
            ⊎ ((result.from ≡ at) × (distance < self.reach.least)) }
    {
        if distance < self.reach.least() {
            Found {
                reach: self.reach.narrowed(distance),
                from: at,
            }
        } else {
            self
        }
    }
}

/// A walk over all places: eight at a time on eight lanes, each of which keeps its least distance,
/// and then the rest. Eight places outside the box are skipped, as they can't change the least.
fn walk(centre: Centre, places: &[Place]) -> Found
    ensures least { result.reach.least ≡ least_of (distances centre.place places.now) }
    ensures from { AllAbove result.reach.least result.from (distances centre.place places.now) }
    ensures bound { 0 < length places.now → result.reach.least < 2 ^ 63 }
{
    let mut lanes = u64x8::splat(u64::MAX);
    let mut found = Found {
        reach: Reach::whole(centre),
        from: 0,
    };
    let mut at = 0;
    while places.len() - at >= 8 {
        let eight = &places[at..at + 8];
        if found.reach.meets(eight) {
            lanes = lesser(lanes, squared_distances(centre, eight));
            found = found.with(least_lane(lanes), at);
        }
        at += 8;
    }
    for i in at..places.len() {
        found = found.with(centre.squared_distance(places[i]), i);
    }
    found
}

/// The distances of eight places, squared: offsets place by place, squares and sums lane by lane.
fn squared_distances(centre: Centre, eight: &[Place]) -> u64x8
    requires { length eight.now ≡ 8 }
    ensures lanes { result ≡ distances centre.place eight.now }
    ensures count { length result ≡ 8 }
    ensures bound { Each1 (λ d. d < 2 ^ 63) result }
{
    let mut north = [0; 8];
    let mut east = [0; 8];
    for i in 0..8 {
        let place = eight[i];
        north[i] = centre.northward_length(place);
        east[i] = centre.eastward_length(place);
    }
    sum_of_squares(u64x8::from_array(north), u64x8::from_array(east))
}

fn sum_of_squares(north: u64x8, east: u64x8) -> u64x8
    requires north { Each1 (λ x. x ≤ 2003760000) north }
    requires east { Each1 (λ x. x ≤ 2003760000) east }
    ensures lanes { result ≡ zip2 (λ x y. x * x + y * y) north east }
    ensures bound { Each1 (λ d. d < 2 ^ 63) result }
{
    north.strict_mul(north).strict_add(east.strict_mul(east))
}

/// The lesser of each two lanes.
fn lesser(a: u64x8, b: u64x8) -> u64x8
    requires { (length a ≡ 8) × (length b ≡ 8) }
    ensures lanes { result ≡ zip2 min a b }
    ensures count { length result ≡ 8 }
{
    b.simd_lt(a).select(b, a)
}

fn least_lane(lanes: u64x8) -> u64
    ensures { result ≡ least_of lanes }
{
    let mut least = u64::MAX;
    for lane in lanes.to_array() {
        least = least.min(lane);
    }
    least
}
