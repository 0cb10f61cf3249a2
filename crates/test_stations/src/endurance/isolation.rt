//! What one source and the applications see doesn't depend on the frames of others.

use crate::fates::{DUPLICATE, Fate, SHORT, are_fates, fate_of, gives, gives_of_frame, run};
use crate::stations::{receiver, station_of};
use its_loctable::{LocationStore, OrderedTable, SortedTable};
use its_station::{Call, OwnCall, Station};
use std::alloc::Global;
use std::process::Abort;
use std::test::Fail;
use test_support::{GEOBROADCAST_OCTETS, PORT, SECOND, beacon_of};

/// Octets that are not a frame.
const JUNK: [u8; 3] = [0, 1, 2];

/// Whether the packet is delivered and its copy isn't, with junk and the beacon between, in one
/// run.
fn is_so_with_others<S: LocationStore>(
    near: &mut Station<S>,
    packet: Vec<u8>,
    junk: Vec<u8>,
    beacon: Vec<u8>,
    again: Vec<u8>,
) -> bool {
    let calls = [
        (0, Call::Own(OwnCall::Open(PORT))),
        (1010, Call::Receive(packet)),
        (1011, Call::Receive(junk)),
        (1012, Call::Receive(beacon)),
        (1013, Call::Receive(again)),
    ];
    let delivered = Fate::DeliveredAndRelayed;
    let want = [Fate::Done, delivered, SHORT, Fate::Kept, DUPLICATE];
    are_fates(&run(near, &calls), &want)
}

/// Whether the packet is delivered and its copy isn't, with nothing between, in one run.
fn is_so_alone<S: LocationStore>(near: &mut Station<S>, packet: Vec<u8>, again: Vec<u8>) -> bool {
    let calls = [
        (0, Call::Own(OwnCall::Open(PORT))),
        (1010, Call::Receive(packet)),
        (1013, Call::Receive(again)),
    ];
    let want = [Fate::Done, Fate::DeliveredAndRelayed, DUPLICATE];
    are_fates(&run(near, &calls), &want)
}

/// The packet, junk, the beacon and the packet again, each with its time and its outcome.
fn frames_of<'a>(beacon: &'a [u8]) -> [(u64, &'a [u8], Fate); 4] {
    [
        (1010, &GEOBROADCAST_OCTETS, Fate::DeliveredAndRelayed),
        (1011, &JUNK, SHORT),
        (1012, beacon, Fate::Kept),
        (1013, &GEOBROADCAST_OCTETS, DUPLICATE),
    ]
}

/// Whether the calls have the same outcomes if each is a run of its own.
fn is_so_one_by_one<S: LocationStore>(alloc: Global, near: &mut Station<S>, beacon: &[u8]) -> bool {
    if !gives(near, 0, Call::Own(OwnCall::Open(PORT)), Fate::Done) {
        return false;
    }
    for (moment, octets, want) in frames_of(beacon) {
        if !gives_of_frame(alloc, near, moment, octets, want) {
            return false;
        }
    }
    true
}

/// The same by calls of the station that borrow their octets; its port is open.
fn is_so_by_its_calls<S: LocationStore>(near: &mut Station<S>, beacon: &[u8]) -> bool {
    for (moment, octets, want) in frames_of(beacon) {
        if fate_of(near, moment, octets) != want {
            return false;
        }
    }
    true
}

/// With others, in one run.
fn with_others<S: LocationStore>(
    alloc: Global,
    near: &mut Station<S>,
    beacon: &[u8],
) -> Option<bool> {
    let packet = Vec::from_slice(alloc, &GEOBROADCAST_OCTETS).ok()?;
    let junk = Vec::from_slice(alloc, &JUNK).ok()?;
    let beacon = Vec::from_slice(alloc, beacon).ok()?;
    let again = Vec::from_slice(alloc, &GEOBROADCAST_OCTETS).ok()?;
    Some(is_so_with_others(near, packet, junk, beacon, again))
}

/// Alone, in one run.
fn alone<S: LocationStore>(alloc: Global, near: &mut Station<S>) -> Option<bool> {
    let packet = Vec::from_slice(alloc, &GEOBROADCAST_OCTETS).ok()?;
    let again = Vec::from_slice(alloc, &GEOBROADCAST_OCTETS).ok()?;
    Some(is_so_alone(near, packet, again))
}

/// The second station, with no open port.
fn closed<S: LocationStore>(alloc: Global) -> Result<Station<S>, &'static str> {
    station_of(alloc, SECOND).ok_or("no station")
}

fn isolated<S: LocationStore>(rt: &impl Abort, alloc: Global) -> Result<(), Fail> {
    let beacon = beacon_of(3);
    assert!(rt; with_others(alloc, &mut closed::<S>(alloc)?, &beacon) == Some(true));
    assert!(rt; alone(alloc, &mut closed::<S>(alloc)?) == Some(true));
    assert!(rt; is_so_one_by_one(alloc, &mut closed::<S>(alloc)?, &beacon));
    assert!(rt; is_so_by_its_calls(&mut receiver::<S>(alloc)?, &beacon));
    Ok(())
}

#[test]
fn sources_are_isolated_over_both_tables(rt: HostRuntime) -> Result<(), Fail> {
    isolated::<OrderedTable>(&rt, rt.alloc())?;
    isolated::<SortedTable>(&rt, rt.alloc())
}
