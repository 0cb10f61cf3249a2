//! Each call of a station, over both tables. The effects of calls in many orders are seen in the
//! program, whose stations have a `SortedTable`.

ghost use Rattle.its_station.specs.Runs.{IsOwnInRange};

use crate::fates::{DUPLICATE, Fate, gives, gives_of_frame};
use crate::stations::{circle, receiver};
use its_btp::PortFault;
use its_gnvalue::{Lifetime, Place, TrafficClass};
use its_loctable::{LocationStore, OrderedTable, SortedTable};
use its_station::{Call, OwnCall, OwnedGbcRequest, OwnedShbRequest, Refused, Station};
use std::alloc::Global;
use std::test::Fail;
use test_support::{GEOBROADCAST_OCTETS, PORT};

const OPEN_TWICE: Fate = Fate::Refused(Refused::Port(PortFault::AlreadyOpen));

const NOT_OPEN: Fate = Fate::Refused(Refused::Port(PortFault::NotOpen));

const LONG_JITTER: Fate = Fate::Refused(Refused::JitterRange);

const NO_HOP: Fate = Fate::Refused(Refused::HopLimitZero);

/// Whether a call of the applications has this answer, in a run of its own.
fn does<S: LocationStore>(near: &mut Station<S>, moment: u64, call: OwnCall, want: Fate) -> bool
    requires { IsOwnInRange call }
{
    gives(near, moment, Call::Own(call), want)
}

/// The port is open from the beginning.
fn opens_and_closes<S: LocationStore>(near: &mut Station<S>) -> bool {
    does(near, 1000, OwnCall::Open(PORT), OPEN_TWICE)
        && does(near, 1001, OwnCall::Close(PORT), Fate::Done)
        && does(near, 1002, OwnCall::Close(PORT), NOT_OPEN)
        && does(near, 1003, OwnCall::Open(PORT), Fate::Done)
}

/// The station moves out of the area.
fn moves<S: LocationStore>(near: &mut Station<S>) -> bool {
    let Ok(place) = Place::new(100_000, 0) else {
        return false;
    };
    let call = OwnCall::MoveTo {
        place,
        pai: true,
        speed: -3,
        heading: 900,
    };
    does(near, 1012, call, Fate::Done)
}

/// The same frame comes inside of its area, again, and outside after a restart.
fn receives<S: LocationStore>(alloc: Global, near: &mut Station<S>) -> bool {
    gives_of_frame(
        alloc,
        near,
        1010,
        &GEOBROADCAST_OCTETS,
        Fate::DeliveredAndRelayed,
    ) && gives_of_frame(alloc, near, 1011, &GEOBROADCAST_OCTETS, DUPLICATE)
        && moves(near)
        && does(near, 1013, OwnCall::Restart(7), Fate::Done)
        && gives_of_frame(alloc, near, 1014, &GEOBROADCAST_OCTETS, Fate::Relayed)
}

fn ticks<S: LocationStore>(near: &mut Station<S>) -> bool {
    does(near, 1999, OwnCall::Tick(751), LONG_JITTER)
        && does(near, 2000, OwnCall::Tick(0), Fate::Sent)
        && does(near, 2001, OwnCall::Tick(0), Fate::Quiet)
}

/// "hi" in a single hop.
fn sends_single_hop<S: LocationStore>(alloc: Global, near: &mut Station<S>) -> bool {
    let Ok(payload) = Vec::from_slice(alloc, b"hi") else {
        return false;
    };
    let single = OwnedShbRequest {
        port: PORT,
        info: 0,
        class: TrafficClass::from_octet(0),
        payload,
    };
    does(near, 3000, OwnCall::SendShb(single), Fate::Sent)
}

/// "hi" for the area, over at most so many hops.
fn for_area(alloc: Global, max_hops: u8) -> Option<OwnedGbcRequest> {
    Some(OwnedGbcRequest {
        port: PORT,
        info: 0,
        class: TrafficClass::from_octet(0),
        lifetime: Lifetime::from_octet(26),
        max_hops,
        area: circle()?,
        payload: Vec::from_slice(alloc, b"hi").ok()?,
    })
}

/// The last one may take no hop.
fn sends<S: LocationStore>(alloc: Global, near: &mut Station<S>) -> Option<bool> {
    let (broadcast, anycast) = (for_area(alloc, 10)?, for_area(alloc, 10)?);
    let hopless = for_area(alloc, 0)?;
    Some(
        does(near, 3001, OwnCall::SendGeobroadcast(broadcast), Fate::Sent)
            && does(near, 3002, OwnCall::SendGeoanycast(anycast), Fate::Sent)
            && does(near, 3003, OwnCall::SendGeobroadcast(hopless), NO_HOP),
    )
}

fn are_so<S: LocationStore>(alloc: Global, mut near: Station<S>) -> bool {
    opens_and_closes(&mut near)
        && receives(alloc, &mut near)
        && ticks(&mut near)
        && sends_single_hop(alloc, &mut near)
        && sends(alloc, &mut near) == Some(true)
}

#[test]
fn each_call_over_both_tables(rt: HostRuntime) -> Result<(), Fail> {
    assert!(rt; are_so(rt.alloc(), receiver::<OrderedTable>(rt.alloc())?));
    assert!(rt; are_so(rt.alloc(), receiver::<SortedTable>(rt.alloc())?));
    Ok(())
}
