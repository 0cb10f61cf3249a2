//! Floods of forged warnings beside one source of a warning per second, and a burst of many sources at
//! three units in reach of each other.

use its_gnvalue::{GnAddress, Place};
use its_governor::{Limits, Rate};
use its_loctable::SortedTable;
use its_station::{Outcome, Station};
use its_unit::{Unit, UnitOutcome};
use rand_core::{Rng, SeedableRng};
use rand_xoshiro::Xoshiro256PlusPlus;
use std::alloc::Global;
use std::test::Fail;
use test_support::{FIRST, GEOBROADCAST, SECOND, THIRD, put};

/// The source of a warning per second.
const GENUINE: u64 = 0x1400_0200_00ff_0000;

/// The first of the addresses that others send from.
const OTHERS: u64 = 0x1400_0200_0100_0000;

/// How many sources a flood has, if not each of its frames has a source of its own.
const SOURCES: u64 = 200;

/// How many sources send a warning each at once, in the burst.
const BURST: u64 = 128;

/// A flood: frames per second, for how many seconds, and whether each has a source of its own.
#[derive(Clone, Copy)]
struct Flood {
    per_second: u16,
    seconds: u16,
    is_new: bool,
}

/// Frames of 200 sources, more than three times the rate of all forwarded frames.
const FLOOD: Flood = Flood {
    per_second: 300,
    seconds: 80,
    is_new: false,
};

/// Makes a geobroadcast one of this source, with this sequence number.
fn send_from(frame: &mut [u8], source: u64, number: u16) {
    put(frame, 26, &number.to_be_bytes());
    put(frame, 30, &source.to_be_bytes());
}

/// A unit with the limits of a channel.
fn unit_of(alloc: Global, address: u64) -> Option<Unit<SortedTable>> {
    let place = Place::new(449, 0).ok()?;
    let address = GnAddress::from_u64(address).ok()?;
    let station = Station::new(alloc, address, place, 4096, 8).ok()?;
    Unit::new(alloc, station, &Limits::CHANNEL).ok()
}

/// Whether a unit forwards a frame.
fn forwards(unit: &mut Unit<SortedTable>, now: u64, octets: &[u8]) -> bool {
    let Ok(reaction) = unit.receive(now, octets) else {
        return false;
    };
    match reaction.outcome {
        UnitOutcome::Passed(Outcome::Accepted { sent, .. }) => sent.is_some(),
        _ => false,
    }
}

/// How many frames of a flood have come at this time, in milliseconds.
fn forged_at(flood: Flood, now: u64) -> u64 {
    u64::from(flood.per_second).saturating_mul(now) / 1000
}

/// How many warnings of the genuine source a unit forwards in a flood, of one per second.
fn forwarded_in(alloc: Global, flood: Flood) -> Option<u64> {
    let mut frame = hex::decode(alloc, GEOBROADCAST).ok()?;
    let mut unit = unit_of(alloc, FIRST)?;
    let mut random = Xoshiro256PlusPlus::seed_from_u64(7);
    let genuine_at = random.next_u64() % 1000;
    let mut number: u16 = 0;
    let mut genuine: u16 = 0;
    let mut passed: u64 = 0;
    for now in 0..u64::from(flood.seconds) * 1000 {
        for forged in forged_at(flood, now)..forged_at(flood, now.saturating_add(1)) {
            let draw = random.next_u64() % SOURCES;
            let from = if flood.is_new { forged } else { draw };
            number = number.wrapping_add(1);
            send_from(frame.as_mut_slice(), OTHERS.saturating_add(from), number);
            forwards(&mut unit, now, frame.as_slice());
        }
        if now % 1000 == genuine_at {
            genuine = genuine.wrapping_add(1);
            send_from(frame.as_mut_slice(), GENUINE, genuine);
            if forwards(&mut unit, now, frame.as_slice()) {
                passed = passed.saturating_add(1);
            }
        }
    }
    Some(passed)
}

/// How many of a source's warnings are its fair share in a flood: the rate of all forwarded frames,
/// divided by the flood's sources and this one. Sources that are new in each frame have no share.
fn fair_share(flood: Flood) -> u64 {
    let sources = if flood.is_new { 1 } else { SOURCES + 1 };
    let most = u64::from(Rate::CHANNEL_FORWARD.per_second) * u64::from(flood.seconds) / sources;
    most.min(u64::from(flood.seconds))
}

/// Whether this is at least 0.8 of a fair share.
fn is_fair(passed: u64, flood: Flood) -> bool {
    passed.saturating_mul(10) >= fair_share(flood).saturating_mul(8)
}

#[test]
fn a_source_keeps_its_share_in_a_flood_of_300(rt: HostRuntime) -> Result<(), Fail> {
    let passed = forwarded_in(rt.alloc(), FLOOD).ok_or("no memory")?;
    println!(rt; "{passed} forwarded, fair {}", fair_share(FLOOD))?;
    assert!(rt; is_fair(passed, FLOOD));
    Ok(())
}

#[test]
fn a_source_keeps_its_share_in_a_flood_of_1000(rt: HostRuntime) -> Result<(), Fail> {
    let flood = Flood {
        per_second: 1000,
        seconds: 40,
        ..FLOOD
    };
    let passed = forwarded_in(rt.alloc(), flood).ok_or("no memory")?;
    println!(rt; "{passed} forwarded, fair {}", fair_share(flood))?;
    assert!(rt; is_fair(passed, flood));
    Ok(())
}

/// The table has room for the 4000 new sources.
#[test]
fn a_flood_of_new_sources_takes_nothing(rt: HostRuntime) -> Result<(), Fail> {
    let flood = Flood {
        per_second: 200,
        seconds: 20,
        is_new: true,
    };
    let passed = forwarded_in(rt.alloc(), flood).ok_or("no memory")?;
    println!(rt; "{passed} forwarded, fair {}", fair_share(flood))?;
    assert!(rt; is_fair(passed, flood));
    Ok(())
}

#[test]
fn no_warning_is_withheld_within_the_rate(rt: HostRuntime) -> Result<(), Fail> {
    let flood = Flood {
        per_second: 90,
        ..FLOOD
    };
    assert_eq!(rt; forwarded_in(rt.alloc(), flood), Some(80));
    Ok(())
}

/// In step, three units would forward the same 50 warnings of 128, however close their addresses are.
/// Half as many again is the least that is expected of units that are not.
#[test]
fn units_do_not_choose_in_step(rt: HostRuntime) -> Result<(), Fail> {
    let alloc = rt.alloc();
    let mut frame = hex::decode(alloc, GEOBROADCAST)?;
    let mut units = Vec::new(alloc);
    for address in [FIRST, SECOND, THIRD] {
        let unit = unit_of(alloc, address).ok_or("no unit")?;
        units.push(unit).map_err(|_| "no memory")?;
    }
    let mut different: u64 = 0;
    for source in 0..BURST {
        send_from(frame.as_mut_slice(), OTHERS.saturating_add(source), 1);
        for unit in &mut units {
            forwards(unit, source.saturating_mul(20), frame.as_slice());
        }
    }
    for source in 0..BURST {
        send_from(frame.as_mut_slice(), OTHERS.saturating_add(source), 2);
        let mut is_forwarded = false;
        for unit in &mut units {
            is_forwarded |= forwards(unit, 10_000, frame.as_slice());
        }
        different = different.saturating_add(u64::from(is_forwarded));
    }
    println!(rt; "{different} different warnings")?;
    assert!(rt; different.saturating_mul(2) >= u64::from(Rate::CHANNEL_FORWARD.burst) * 3);
    Ok(())
}
