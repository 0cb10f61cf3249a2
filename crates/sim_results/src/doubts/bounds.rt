//! Where stations were in a run.

use its_geometry::distance2;
use its_gnvalue::Place;

/// The least and the greatest coordinates of positions, in tenths of a microdegree.
#[derive(Clone, Copy, Debug)]
pub(crate) struct Bounds {
    south: i32,
    north: i32,
    west: i32,
    east: i32,
}

impl Bounds {
    /// Returns the bounds of no position.
    pub(crate) fn none() -> Bounds {
        Bounds {
            south: i32::MAX,
            north: i32::MIN,
            west: i32::MAX,
            east: i32::MIN,
        }
    }

    /// Extends the bounds to one more position.
    #[inline(always)]
    pub(crate) fn extend(&mut self, place: Place) {
        let (lat, lon) = (place.lat(), place.lon());
        self.south = self.south.min(lat);
        self.north = self.north.max(lat);
        self.west = self.west.min(lon);
        self.east = self.east.max(lon);
    }

    /// Whether latitude and longitude 0, which often stand for no position, are between them.
    pub(crate) fn hold_origin(self) -> bool {
        self.south <= 0 && self.north >= 0 && self.west <= 0 && self.east >= 0
    }

    /// Whether all positions are within this many metres of the point in their middle.
    pub(crate) fn are_within(self, radius: u16) -> bool {
        match (
            Place::new(self.south, self.west),
            Place::new(self.north, self.east),
        ) {
            (Ok(low), Ok(high)) => {
                let across = 200 * u64::from(radius);
                distance2(low, high) <= across.saturating_mul(across)
            }
            _ => false,
        }
    }

    /// Returns the least distance of a position from them in kilometres, rounded down. `None` if
    /// there are no positions.
    pub(crate) fn kilometres_to(self, place: Place) -> Option<u64> {
        let lat = place.lat().max(self.south).min(self.north);
        let lon = place.lon().max(self.west).min(self.east);
        let nearest = if lon == place.lon() {
            distance2(place, Place::new(lat, lon).ok()?)
        } else {
            // The shorter way may lead round the earth, to the other side.
            let west = distance2(place, Place::new(lat, self.west).ok()?);
            west.min(distance2(place, Place::new(lat, self.east).ok()?))
        };
        Some(nearest.isqrt() / CENTIMETRES)
    }
}

/// The centimetres of a kilometre.
const CENTIMETRES: u64 = 100_000;
