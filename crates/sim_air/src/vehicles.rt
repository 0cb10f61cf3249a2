//! The stations that rows make: the number of each id, and how each station begins.

ghost use Rattle.std.specs.Prelude.{IfSome};
ghost use Rattle.its_world.specs.Events.{IsConfig};

use its_gnvalue::{GnAddress, Mac, Place};
use its_world::Config;
use sim_settings::Moves;
use std::alloc::{AllocError, Global};
use std::collections::HashMap;

/// The first 16 bits of the address of a station of type 5, a passenger car, before its MID.
const PASSENGER_CAR: u64 = 0x1400 << 48;

/// The greatest MID and 1.
const MIDS: u64 = 1 << 48;

/// A station that a row made.
#[derive(Clone, Copy, Debug)]
struct Made {
    /// Where its id begins and ends in the octets of all ids.
    begin: usize,
    end: usize,
    /// Its number.
    number: usize,
}

/// The stations that rows make, by their ids.
#[derive(Drop)]
pub(crate) struct Vehicles<'a> {
    /// How they begin.
    moves: &'a Moves,
    /// The index of each in `made`, by its id.
    places: HashMap<String, usize>,
    /// Those that were made, in order.
    made: Vec<Made>,
    /// The octets of their ids, in order, so that ids of stations that were made in turn are close.
    ids: Vec<u8>,
    /// The index after that of the last row's station.
    next: usize,
    /// The MIDs of the other stations.
    taken: HashMap<Mac, usize>,
}

impl<'a> Vehicles<'a> {
    /// Returns the list before the first row. These are the other stations.
    pub(crate) fn beside(
        alloc: Global,
        stations: &[Config],
        moves: &'a Moves,
    ) -> Result<Vehicles<'a>, AllocError> {
        let mut taken = HashMap::new(alloc);
        for (number, config) in stations.iter().enumerate() {
            taken.insert(config.address.mid(), number)?;
        }
        Ok(Vehicles {
            moves,
            places: HashMap::new(alloc),
            made: Vec::new(alloc),
            ids: Vec::new(alloc),
            next: 0,
            taken,
        })
    }

    /// Returns the number of the station of an id, if a row made it.
    pub(crate) fn number(&self, id: &str) -> Option<usize> {
        let place = self.places.get(id).copied()?;
        self.number_at(place)
    }

    /// Returns the number of the station of the next row's id, if a row made it. Rows of one time
    /// mostly come in the order of the time before, so the id after the last row's is compared
    /// first.
    pub(crate) fn number_of_row(&mut self, id: &str) -> Option<usize> {
        let place = if self.has_id(self.next, id) {
            self.next
        } else {
            self.places.get(id).copied()?
        };
        self.next = place.saturating_add(1);
        self.number_at(place)
    }

    /// Returns the number of the station at an index.
    fn number_at(&self, place: usize) -> Option<usize> {
        match self.made.get(place) {
            Some(made) => Some(made.number),
            None => None,
        }
    }

    /// Whether the station at an index has this id.
    fn has_id(&self, place: usize, id: &str) -> bool {
        match self.made.get(place) {
            Some(made) => self.id_of(*made) == id.as_bytes(),
            None => false,
        }
    }

    /// Returns the octets of the id of a station.
    fn id_of(&self, made: Made) -> &[u8] {
        let ids = self.ids.as_slice();
        let end = made.end.min(ids.len());
        let begin = made.begin.min(end);
        &ids[begin..end]
    }

    /// Returns how the next station begins, at this place. Its MID is the MID of the first one plus
    /// their number. `None` if that isn't the MID of a single station, or is another station's.
    pub(crate) fn next_config(&self, place: Place) -> Option<Config>
        ensures { IfSome result IsConfig }
    {
        let mid = mid_number(self.moves.mid).saturating_add(self.places.len() as u64);
        if mid >= MIDS {
            return None;
        }
        let address = GnAddress::from_u64(PASSENGER_CAR | mid).ok()?;
        if self.taken.contains_key(&address.mid()) {
            return None;
        }
        Some(Config {
            address,
            place,
            capacity: self.moves.capacity,
            remember: self.moves.remember,
        })
    }

    /// Notes that the station of this id has this number.
    pub(crate) fn add(&mut self, alloc: Global, id: &str, number: usize) -> Result<(), AllocError> {
        let place = self.made.len();
        let begin = self.ids.len();
        self.ids.extend_from_slice(id.as_bytes())?;
        let end = self.ids.len();
        self.made.push(Made { begin, end, number })?;
        self.places.insert(String::from_str(alloc, id)?, place)?;
        Ok(())
    }
}

/// Returns a MID as a number of 48 bits.
fn mid_number(mid: Mac) -> u64 {
    let [a, b, c, d, e, f] = mid.octets();
    u64::from_be_bytes([0, 0, a, b, c, d, e, f])
}
