//! Three stations in reach of each other, and a burst of more warnings of one source than a
//! station remembers: without limits each echo is new again.

use crate::governor::unit::Unit;
use its_governor::{Limits, Rate};
use std::alloc::Global;
use std::test::Fail;
use test_support::{FIRST, SECOND, THIRD};

/// How many warnings are sent at once: twice as many as a station remembers of a source.
const WARNINGS: u32 = 128;

/// How long the storm is watched, in milliseconds.
const WATCHED: u64 = 1000;

/// A frame on the air, and which station sent it.
#[derive(Drop)]
struct OnAir {
    from: usize,
    octets: Vec<u8>,
}

/// The outcome of a storm.
#[derive(Drop)]
struct Storm {
    /// How many frames were forwarded.
    forwarded: usize,
    /// How many payloads were delivered.
    delivered: usize,
    /// Whether no frame is left on the air.
    ended: bool,
}

/// The units of three stations.
fn units_of(alloc: Global, limits: &Limits) -> Result<Vec<Unit>, &'static str> {
    let mut units = Vec::new(alloc);
    for address in [FIRST, SECOND, THIRD] {
        let unit = Unit::new(alloc, address, limits)?;
        units.push(unit).map_err(|_| "no memory")?;
    }
    Ok(units)
}

/// The burst of the first station.
fn burst(alloc: Global, first: &mut Unit, max_hops: u8) -> Result<Vec<OnAir>, &'static str> {
    let mut frames = Vec::new(alloc);
    for _ in 0..WARNINGS {
        let octets = first.warn(max_hops).ok_or("not sent")?;
        frames
            .push(OnAir { from: 0, octets })
            .map_err(|_| "no memory")?;
    }
    Ok(frames)
}

/// What all others than its sender forward of a frame. Returns how many delivered it.
fn hear_all(
    units: &mut Vec<Unit>,
    now: u64,
    frame: &OnAir,
    next: &mut Vec<OnAir>,
) -> Result<usize, &'static str> {
    let mut delivered: usize = 0;
    for (from, unit) in units.iter_mut().enumerate() {
        if from == frame.from {
            continue;
        }
        let heard = unit.hear(now, frame.octets.as_slice());
        if heard.delivered {
            delivered = delivered.saturating_add(1);
        }
        if let Some(octets) = heard.relay {
            next.push(OnAir { from, octets }).map_err(|_| "no memory")?;
        }
    }
    Ok(delivered)
}

/// The storm after a burst of the first station: each frame arrives at the others one millisecond
/// after it was sent. It is given up once this many frames were forwarded.
fn watch(alloc: Global, limits: &Limits, max_hops: u8, most: usize) -> Result<Storm, &'static str> {
    let mut units = units_of(alloc, limits)?;
    let first = units.first_mut().ok_or("no station")?;
    let mut frames = burst(alloc, first, max_hops)?;
    let mut forwarded: usize = 0;
    let mut delivered: usize = 0;
    for now in 1..WATCHED {
        if frames.is_empty() || forwarded > most {
            break;
        }
        let mut next = Vec::new(alloc);
        for frame in &frames {
            let more = hear_all(&mut units, now, frame, &mut next)?;
            delivered = delivered.saturating_add(more);
        }
        forwarded = forwarded.saturating_add(next.len());
        frames = next;
    }
    Ok(Storm {
        forwarded,
        delivered,
        ended: frames.is_empty(),
    })
}

#[test]
fn a_storm_goes_on_without_limits(rt: HostRuntime) -> Result<(), Fail> {
    let without = watch(rt.alloc(), &Limits::NONE, 255, 10_000)?;
    assert!(rt; !without.ended);
    assert!(rt; without.forwarded > 10_000);
    Ok(())
}

#[test]
fn hops_above_the_cap_are_not_forwarded(rt: HostRuntime) -> Result<(), Fail> {
    let storm = watch(rt.alloc(), &Limits::CHANNEL, 255, 10_000)?;
    assert!(rt; storm.ended);
    assert_eq!(rt; storm.forwarded, 0);
    assert_eq!(rt; storm.delivered, 256);
    Ok(())
}

/// The first station ignores its own packets. The two others, with a bucket of 50 frames and 100
/// more per second, forward 2 * (50 + 100) frames in a second at most.
#[test]
fn a_storm_is_bounded_by_the_bucket(rt: HostRuntime) -> Result<(), Fail> {
    let limits = Limits {
        forward: Some(Rate {
            burst: 50,
            per_second: 100,
        }),
        ..Limits::NONE
    };
    let storm = watch(rt.alloc(), &limits, 255, 10_000)?;
    assert!(rt; storm.forwarded >= 100);
    assert!(rt; storm.forwarded <= 300);
    Ok(())
}

/// With the limits of a channel each warning is delivered once at each of two stations, and the
/// storm ends.
#[test]
fn a_storm_ends_with_the_limits_of_a_channel(rt: HostRuntime) -> Result<(), Fail> {
    let storm = watch(rt.alloc(), &Limits::CHANNEL, 10, 10_000)?;
    assert!(rt; storm.ended);
    // A fifth of the common burst passes at each of two stations. From then on the source has its
    // share, which is less than its burst.
    assert!(rt; storm.forwarded >= 20);
    assert!(rt; storm.forwarded <= 300);
    assert_eq!(rt; storm.delivered, 256);
    Ok(())
}
