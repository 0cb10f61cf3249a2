//! Stations that will receive a frame at once.

ghost use Rattle.std.specs.Prelude.{◌≤◌};

use its_loctable::SIDE_BY_SIDE;

/// How many receivers are announced at once: those whose location tables are searched together.
pub(crate) const MOST_RECEIVERS: usize = SIDE_BY_SIDE;

/// Some stations that will receive the same frame, one after the other.
#[derive(Clone, Copy, Debug)]
pub struct Receivers {
    stations: [usize; MOST_RECEIVERS],
    count: usize,
    ghost few: { count ≤ 16 },
}

impl Receivers {
    /// Returns an empty list.
    pub(crate) fn none() -> Receivers {
        Receivers {
            stations: [0; MOST_RECEIVERS],
            count: 0,
        }
    }

    /// Adds a station, if there is space for one more.
    pub(crate) fn add(&mut self, station: usize) {
        if let Some(next) = self.stations.get_mut(self.count) {
            *next = station;
            self.count += 1;
        }
    }

    /// Returns the stations, in order.
    pub fn as_slice(&self) -> &[usize] {
        &self.stations[..self.count]
    }
}
