//! The flag by which a station's packets say that it is mobile (EN 302 636-4-1, Common Header).

use crate::stations::{circle, receiver, request};
use its_gnvalue::TrafficClass;
use its_loctable::{LocationStore, OrderedTable, SortedTable};
use its_station::{GbcRequest, Outcome, ShbRequest, Station};
use std::alloc::Global;
use std::test::Fail;
use test_support::{GEOBROADCAST_OCTETS, LINK, PORT};

/// Where the flags stand in a frame.
const FLAGS: usize = LINK + 7;

/// The flags of a mobile source.
const MOBILE: Option<u8> = Some(0x80);

/// The flags of a stationary one.
const STATIONARY: Option<u8> = Some(0);

fn flags_of(frame: Option<Vec<u8>>) -> Option<u8> {
    frame?.get(FLAGS).copied()
}

/// The flags of what the station sends for this in a single hop.
fn of_single_hop<S: LocationStore>(station: &mut Station<S>, now: u64) -> Option<u8> {
    let request = ShbRequest {
        port: PORT,
        info: 0,
        class: TrafficClass::from_octet(0),
        payload: b"hi",
    };
    flags_of(station.send_shb(now, &request).ok())
}

fn of_geobroadcast<S: LocationStore>(
    station: &mut Station<S>,
    now: u64,
    request: &GbcRequest<'_>,
) -> Option<u8> {
    flags_of(station.send_geobroadcast(now, request).ok())
}

fn of_geoanycast<S: LocationStore>(
    station: &mut Station<S>,
    now: u64,
    request: &GbcRequest<'_>,
) -> Option<u8> {
    flags_of(station.send_geoanycast(now, request).ok())
}

fn of_beacon<S: LocationStore>(station: &mut Station<S>, now: u64) -> Option<u8> {
    flags_of(station.tick(now, 0).ok()?)
}

/// The flags of the relay of what a mobile source sent.
fn of_relay<S: LocationStore>(station: &mut Station<S>, now: u64) -> Option<u8> {
    match station.receive(now, &GEOBROADCAST_OCTETS) {
        Ok(Outcome::Accepted { sent, .. }) => flags_of(sent),
        Ok(Outcome::Ignored(_)) | Err(_) => None,
    }
}

/// Whether a packet of each kind that the station originates at a moment has these flags.
fn are_flags<S: LocationStore>(station: &mut Station<S>, now: u64, flags: Option<u8>) -> bool {
    let Some(area) = circle() else {
        return false;
    };
    let request = request(area, b"hi");
    of_beacon(station, now) == flags
        && of_single_hop(station, now) == flags
        && of_geobroadcast(station, now, &request) == flags
        && of_geoanycast(station, now, &request) == flags
}

fn restarts<S: LocationStore>(station: &mut Station<S>, now: u64, number: u16) -> bool {
    station.restart(now, number).is_ok()
}

/// Whether a station is mobile, its clock, and from when on a beacon is due.
fn told<S: LocationStore>(station: &Station<S>) -> (bool, u64, u64) {
    (station.is_mobile(), station.clock(), station.beacon_from())
}

/// What is set is kept through a restart. What a mobile source sent goes on as it came, also from a
/// stationary station.
fn is_as_set<S: LocationStore>(alloc: Global) -> Result<bool, &'static str> {
    let mut station = receiver::<S>(alloc)?;
    let is_mobile = station.is_mobile() && are_flags(&mut station, 1000, MOBILE);
    station.set_mobile(false);
    let is_set = told(&station) == (false, 1000, 4000);
    let is_stationary = are_flags(&mut station, 4000, STATIONARY)
        && of_relay(&mut station, 4001) == MOBILE
        && restarts(&mut station, 5000, 7)
        && are_flags(&mut station, 5000, STATIONARY);
    station.set_mobile(true);
    Ok(is_mobile && is_set && is_stationary && are_flags(&mut station, 8000, MOBILE))
}

#[test]
fn packets_say_whether_their_source_is_mobile(rt: HostRuntime) -> Result<(), Fail> {
    assert!(rt; is_as_set::<SortedTable>(rt.alloc())?);
    assert!(rt; is_as_set::<OrderedTable>(rt.alloc())?);
    Ok(())
}
