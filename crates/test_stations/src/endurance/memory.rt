//! Stations with every budget of memory from none to enough.

use crate::fates::{DUPLICATE, Fate, SHORT, fate_of};
use crate::stations::receiver;
use its_loctable::{LocationStore, OrderedTable, SortedTable};
use its_station::{Refused, Station, Why};
use std::alloc::Global;
use std::process::Abort;
use std::test::Fail;
use test_support::{GEOBROADCAST_OCTETS, LINK, MOST, STEP, Shortage, beacon_of, geobroadcast_of};

/// The outcome of the source's second packet, which is forwarded.
fn fate_of_new<S: LocationStore>(near: &mut Station<S>, now: u64) -> Fate {
    fate_of(near, now, &geobroadcast_of(1))
}

/// A packet with its last hop.
fn last_hop() -> [u8; 76] {
    let mut octets = geobroadcast_of(2);
    octets[LINK + 3] = 1;
    octets[LINK + 10] = 1;
    octets
}

fn anycast() -> [u8; 76] {
    let mut octets = geobroadcast_of(3);
    octets[LINK + 5] = 0x30;
    octets
}

/// The second packet, for another station.
fn to_another() -> [u8; 76] {
    let mut octets = geobroadcast_of(1);
    octets[0] = 2;
    octets
}

/// Whether packets from the same source that allocate nothing are accepted: a duplicate, a packet
/// with its last hop, a geoanycast, a beacon.
fn accepted_takes_none<S: LocationStore>(near: &mut Station<S>) -> bool {
    fate_of(near, 1011, &GEOBROADCAST_OCTETS) == DUPLICATE
        && fate_of(near, 1011, &last_hop()) == Fate::Delivered
        && fate_of(near, 1011, &anycast()) == Fate::Delivered
        && fate_of(near, 1011, &beacon_of(1)) == Fate::Kept
}

/// Whether calls that allocate nothing are refused: an earlier time, too few octets for a frame, a
/// frame for another station.
fn refused_takes_none<S: LocationStore>(near: &mut Station<S>) -> bool {
    fate_of_new(near, 1010) == Fate::Refused(Refused::MomentEarlier)
        && fate_of(near, 1011, &[0; 13]) == SHORT
        && fate_of(near, 1011, &to_another()) == Fate::Ignored(Why::NotForMe)
}

/// How often the new packet is refused until there is a piece of memory as large as its frame.
/// `None` if it has any other outcome, or a budget could not be left.
fn refusals<S: LocationStore>(
    alloc: Global,
    near: &mut Station<S>,
    shortage: &mut Shortage,
) -> Option<usize> {
    for step in 0..MOST / STEP {
        if !shortage.leave(step * STEP) {
            return None;
        }
        if Vec::<u8>::with_capacity(alloc, 76).is_ok() {
            return Some(step);
        }
        if fate_of_new(near, 1012) != Fate::Refused(Refused::NoMemory) {
            return None;
        }
    }
    None
}

fn is_one_allocation<S: LocationStore>(
    rt: &impl Abort,
    alloc: Global,
    near: &mut Station<S>,
) -> Result<(), Fail> {
    assert!(rt; fate_of(near, 1010, &GEOBROADCAST_OCTETS) == Fate::DeliveredAndRelayed);
    let mut shortage = Shortage::new(alloc)?;
    assert!(rt; shortage.leave(0));
    assert!(rt; accepted_takes_none(near) && refused_takes_none(near));
    let refused = refusals(alloc, near, &mut shortage);
    assert!(rt; refused.is_some_and(|refused| 0 < refused), "{refused:?}");
    assert!(rt; fate_of_new(near, 1012) == Fate::DeliveredAndRelayed);
    Ok(())
}

/// From a live source a packet that goes on takes one piece of memory, as large as its frame, and
/// no second; whatever else comes takes none, be it refused, ignored or delivered.
#[test]
fn a_relay_is_one_allocation(rt: HostRuntime) -> Result<(), Fail> {
    is_one_allocation(&rt, rt.alloc(), &mut receiver::<SortedTable>(rt.alloc())?)
}

#[test]
fn a_relay_is_one_allocation_over_the_other_table(rt: HostRuntime) -> Result<(), Fail> {
    is_one_allocation(&rt, rt.alloc(), &mut receiver::<OrderedTable>(rt.alloc())?)
}
