//! Stations, and what they are asked to send.

use its_geometry::Area;
use its_gnvalue::{GnAddress, Lifetime, Place, TrafficClass};
use its_loctable::LocationStore;
use its_station::{GbcRequest, Station};
use std::alloc::Global;
use test_support::{PORT, SECOND};

/// The station of an address, inside of the areas, with no open port.
pub(crate) fn station_of<S: LocationStore>(alloc: Global, address: u64) -> Option<Station<S>> {
    let address = GnAddress::from_u64(address).ok()?;
    let place = Place::new(449, 0).ok()?;
    Station::new(alloc, address, place, 64, 8).ok()
}

/// The second station, with its port open since moment 0.
pub(crate) fn receiver<S: LocationStore>(alloc: Global) -> Result<Station<S>, &'static str> {
    let mut station = station_of(alloc, SECOND).ok_or("no station")?;
    if station.open(0, PORT).is_err() {
        return Err("port");
    }
    Ok(station)
}

/// All places within 100 m of the origin.
pub(crate) fn circle() -> Option<Area> {
    Area::circle(Place::new(0, 0).ok()?, 100).ok()
}

/// A payload for `PORT`, to all stations in an area, over at most ten hops.
pub(crate) fn request<'a>(area: Area, payload: &'a [u8]) -> GbcRequest<'a> {
    GbcRequest {
        port: PORT,
        info: 0,
        class: TrafficClass::from_octet(0),
        lifetime: Lifetime::from_octet(26),
        max_hops: 10,
        area,
        payload,
    }
}
