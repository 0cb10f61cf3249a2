//! Units, and the outcomes of their frames.

use its_geometry::Area;
use its_gnvalue::{GnAddress, Lifetime, Place, TrafficClass};
use its_governor::Limits;
use its_loctable::SortedTable;
use its_station::{GbcRequest, Outcome, Station};
use its_unit::UnitOutcome;
use std::alloc::Global;
use test_support::PORT;

/// A unit, and a station of its address that sends past the limits.
#[derive(Drop)]
pub(crate) struct Unit {
    pub(crate) unit: its_unit::Unit<SortedTable>,
    pub(crate) unlimited: Station<SortedTable>,
}

/// The outcome of a frame.
#[derive(Drop)]
pub(crate) struct Heard {
    pub(crate) delivered: bool,
    pub(crate) relay: Option<Vec<u8>>,
    pub(crate) repeated: bool,
}

impl Heard {
    /// Neither delivered nor forwarded.
    fn nothing(repeated: bool) -> Heard {
        Heard {
            delivered: false,
            relay: None,
            repeated,
        }
    }
}

impl Unit {
    /// The unit of an address, inside of the area, with its port open since time 0.
    pub(crate) fn new(alloc: Global, address: u64, limits: &Limits) -> Result<Unit, &'static str> {
        let Ok(address) = GnAddress::from_u64(address) else {
            return Err("address");
        };
        let Ok(place) = Place::new(449, 0) else {
            return Err("place");
        };
        let unlimited = station_at(alloc, address, place)?;
        let station = station_at(alloc, address, place)?;
        let Ok(mut unit) = its_unit::Unit::new(alloc, station, limits) else {
            return Err("no unit");
        };
        if unit.open(0, PORT).is_err() {
            return Err("port");
        }
        Ok(Unit { unit, unlimited })
    }

    /// Receives a frame.
    pub(crate) fn hear(&mut self, now: u64, octets: &[u8]) -> Heard {
        let Ok(reaction) = self.unit.receive(now, octets) else {
            return Heard::nothing(false);
        };
        match reaction.outcome {
            UnitOutcome::Passed(Outcome::Accepted { handed, sent }) => Heard {
                delivered: handed.is_some(),
                relay: sent,
                repeated: false,
            },
            UnitOutcome::Repeated => Heard::nothing(true),
            UnitOutcome::Passed(Outcome::Ignored(_)) => Heard::nothing(false),
        }
    }

    /// Sends a geobroadcast over this many hops at time 0, past the limits.
    pub(crate) fn warn(&mut self, max_hops: u8) -> Option<Vec<u8>> {
        let area = Area::circle(Place::new(0, 0).ok()?, 100).ok()?;
        let request = GbcRequest {
            port: PORT,
            info: 0,
            class: TrafficClass::from_octet(0),
            lifetime: Lifetime::from_octet(26),
            max_hops,
            area,
            payload: b"ice",
        };
        self.unlimited.send_geobroadcast(0, &request).ok()
    }
}

fn station_at(
    alloc: Global,
    address: GnAddress,
    place: Place,
) -> Result<Station<SortedTable>, &'static str> {
    match Station::new(alloc, address, place, 64, 64) {
        Ok(station) => Ok(station),
        Err(_) => Err("no station"),
    }
}
