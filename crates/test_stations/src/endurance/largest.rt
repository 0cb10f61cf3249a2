//! The longest payload: sent, delivered and passed on.

use crate::stations::{circle, receiver, request, station_of};
use its_loctable::{LocationStore, OrderedTable, SortedTable};
use its_station::{Outcome, Station};
use std::alloc::Global;
use std::test::Fail;
use test_support::FIRST;

const LONGEST: [u8; 1394] = [0x5a; 1394];

/// Whether the frame is of 1468 octets, and ends with port 2002, info 0 and the payload.
fn is_longest(frame: &[u8]) -> bool {
    frame.len() == 1468
        && frame.get(22..24) == Some([0x05, 0x76].as_slice())
        && frame.get(70..74) == Some([0x07, 0xd2, 0, 0].as_slice())
        && frame.get(74..) == Some(LONGEST.as_slice())
}

/// Whether the payload of a frame is delivered whole, and the frame in which it goes on.
fn delivers<S: LocationStore>(near: &mut Station<S>, frame: &[u8]) -> (bool, Option<Vec<u8>>) {
    match near.receive(1010, frame) {
        Ok(Outcome::Accepted { handed, sent }) => {
            let payload = handed.map(|delivery| delivery.payload);
            (payload == Some(LONGEST.as_slice()), sent)
        }
        Ok(Outcome::Ignored(_)) | Err(_) => (false, None),
    }
}

/// Whether a geobroadcast is delivered, and goes on.
fn is_passed_on<S: LocationStore>(near: &mut Station<S>, frame: &[u8]) -> bool {
    match delivers(near, frame) {
        (true, Some(relay)) => is_longest(frame) && is_longest(&relay),
        _ => false,
    }
}

/// Whether a geoanycast is delivered, and doesn't go on.
fn is_kept<S: LocationStore>(near: &mut Station<S>, frame: &[u8]) -> bool {
    is_longest(frame) && matches!(delivers(near, frame), (true, None))
}

fn broadcast_of<S: LocationStore>(station: &mut Station<S>) -> Option<Vec<u8>> {
    let request = request(circle()?, &LONGEST);
    station.send_geobroadcast(1000, &request).ok()
}

fn anycast_of<S: LocationStore>(station: &mut Station<S>) -> Option<Vec<u8>> {
    let request = request(circle()?, &LONGEST);
    station.send_geoanycast(1000, &request).ok()
}

fn longest<S: LocationStore>(alloc: Global) -> Option<bool> {
    let mut sender = station_of::<S>(alloc, FIRST)?;
    let (broadcast, anycast) = (broadcast_of(&mut sender)?, anycast_of(&mut sender)?);
    let mut near = receiver::<S>(alloc).ok()?;
    Some(is_passed_on(&mut near, &broadcast) && is_kept(&mut near, &anycast))
}

#[test]
fn the_longest_payload_over_both_tables(rt: HostRuntime) -> Result<(), Fail> {
    assert!(rt; longest::<OrderedTable>(rt.alloc()) == Some(true));
    assert!(rt; longest::<SortedTable>(rt.alloc()) == Some(true));
    Ok(())
}
