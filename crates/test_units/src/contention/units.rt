//! Units that contend: their limits, secured frames, and what a release is.

use crate::contention::contender::one_copy;
use crate::contention::frames::{PAYLOAD, copy_of, with_octet};
use its_contention::ContentionCounts;
use its_gnvalue::{GnAddress, Place};
use its_governor::{Limits, Rate};
use its_linkframe::{plain_part, read_frame, seal_frame};
use its_loctable::SortedTable;
use its_station::{Outcome, Refused, Station};
use its_unit::{Limiting, Reaction, Unit, UnitOutcome};
use std::alloc::Global;
use std::test::Fail;
use test_support::{PORT, SECOND};

/// Where the unit is: 300 m from the first station.
const NEAR: i32 = 26950;

/// A message of a security entity.
const MESSAGE: &[u8] = b"signed";

/// Another message of it.
const OTHER: &[u8] = b"sealed";

/// The second station as a unit that contends, with its port open since time 0.
fn second(alloc: Global, remember: u8, limits: &Limits) -> Option<Unit<SortedTable>> {
    if remember < 1 || 64 < remember {
        return None;
    }
    let place = Place::new(NEAR, 0).ok()?;
    let address = GnAddress::from_u64(SECOND).ok()?;
    let station = Station::new(alloc, address, place, 64, remember).ok()?;
    let mut unit = Unit::contending(alloc, station, limits, one_copy()?).ok()?;
    unit.open(0, PORT).ok()?;
    Some(unit)
}

/// Whether the outcome is that the payload is delivered, and that no frame is sent.
fn only_delivers(reaction: Result<Reaction<'_>, Refused>) -> bool {
    let Ok(reaction) = reaction else {
        return false;
    };
    match reaction.outcome {
        UnitOutcome::Passed(Outcome::Accepted { handed, sent }) => {
            handed.is_some() && sent.is_none()
        }
        _ => false,
    }
}

/// When the frame of a packet is due, and whether the packet cancelled one that waited.
fn reaction_to(
    unit: &mut Unit<SortedTable>,
    now: u64,
    octets: &[u8],
) -> Option<(Option<u64>, bool)> {
    let Ok(reaction) = unit.receive(now, octets) else {
        return None;
    };
    Some((reaction.due, reaction.cancelled))
}

/// Whether the outcome is that the packet was delivered before.
fn is_repeated(reaction: Result<Reaction<'_>, Refused>) -> bool {
    match reaction {
        Ok(reaction) => matches!(reaction.outcome, UnitOutcome::Repeated),
        Err(_) => false,
    }
}

/// Receives a frame of which only the payload is delivered.
fn delivers(unit: &mut Unit<SortedTable>, now: u64, octets: &[u8]) -> bool {
    only_delivers(unit.receive(now, octets))
}

/// Receives this frame with a message, and the plain part of another.
fn receive_sealed(
    alloc: Global,
    unit: &mut Unit<SortedTable>,
    now: u64,
    octets: &[u8],
    message: &[u8],
    signed: &[u8],
) -> Option<bool> {
    let frame = read_frame(octets).ok()?;
    let sealed = seal_frame(alloc, &frame, message).ok()??;
    let signed = read_frame(signed).ok()?;
    let plain = plain_part(&signed);
    Some(only_delivers(unit.receive_verified(now, sealed.as_slice(), plain)))
}

/// Whether this very frame is released.
fn releases(unit: &mut Unit<SortedTable>, now: u64, octets: &[u8]) -> bool {
    match unit.release(now) {
        Ok(Some(frame)) => frame.as_slice() == octets,
        _ => false,
    }
}

/// Whether no frame is due.
fn is_quiet(unit: &mut Unit<SortedTable>, now: u64) -> bool {
    matches!(unit.release(now), Ok(None))
}

/// The counts of the frames that wait.
fn counts_of(unit: &Unit<SortedTable>) -> ContentionCounts {
    match unit.contention_counts() {
        Some(counts) => counts,
        None => ContentionCounts {
            held: 0,
            released: 0,
            cancelled: 0,
            dropped: 0,
            full: 0,
        },
    }
}

#[test]
fn a_unit_holds_cancels_and_releases(rt: HostRuntime) -> Result<(), Fail> {
    let mut unit = second(rt.alloc(), 64, &Limits::NONE).ok_or("no unit")?;
    assert!(rt; delivers(&mut unit, 1001, &copy_of(0, 1, 10)));
    assert_eq!(rt; unit.next_due(), Some(1072));
    assert!(rt; is_quiet(&mut unit, 1071));
    assert!(rt; releases(&mut unit, 1072, &copy_of(0, 2, 9)));
    assert_eq!(rt; unit.next_due(), None);
    assert_eq!(rt; unit.counts().relayed, 1);

    assert!(rt; delivers(&mut unit, 1101, &copy_of(1, 1, 10)));
    assert!(rt; unit.receive(1110, &copy_of(1, 3, 9)).is_ok());
    assert!(rt; is_quiet(&mut unit, 1172));
    let counts = counts_of(&unit);
    assert_eq!(rt; counts.held, 2);
    assert_eq!(rt; counts.released, 1);
    assert_eq!(rt; counts.cancelled, 1);
    Ok(())
}

#[test]
fn a_reception_says_what_waits_and_what_is_cancelled(rt: HostRuntime) -> Result<(), Fail> {
    let mut unit = second(rt.alloc(), 64, &Limits::NONE).ok_or("no unit")?;
    assert_eq!(rt;
        reaction_to(&mut unit, 1001, &copy_of(0, 1, 10)),
        Some((Some(1072), false))
    );
    assert_eq!(rt;
        reaction_to(&mut unit, 1009, &copy_of(0, 1, 10)),
        Some((None, false))
    );
    assert_eq!(rt;
        reaction_to(&mut unit, 1010, &copy_of(0, 3, 9)),
        Some((None, true))
    );
    assert_eq!(rt; unit.longest_waiting(), 0);
    Ok(())
}

#[test]
fn past_the_limits_no_bucket_is_judged(rt: HostRuntime) -> Result<(), Fail> {
    let limits = Limits {
        forward: Some(Rate {
            burst: 1,
            per_second: 1,
        }),
        hop_cap: 1,
        ..Limits::NONE
    };
    let mut unit = second(rt.alloc(), 64, &limits).ok_or("no unit")?;
    for number in 0..2 {
        let octets = copy_of(number, 1, 10);
        let frame = read_frame(&octets).ok().ok_or("no frame")?;
        let said = unit.receive_frame(Limiting::Past, 1001, &octets, &frame);
        assert!(rt; only_delivers(said));
    }
    for number in 0..2 {
        match unit.release_by(Limiting::Past, 1072) {
            Ok(Some(frame)) => assert!(rt; frame.as_slice() == copy_of(number, 2, 9).as_slice()),
            Ok(None) | Err(_) => return Err(Fail::from("not released")),
        }
    }
    assert_eq!(rt; unit.withheld().suppressed, 0);
    assert_eq!(rt; counts_of(&unit).released, 2);
    Ok(())
}

#[test]
fn a_release_is_refused_for_its_time_and_sets_no_clock(rt: HostRuntime) -> Result<(), Fail> {
    let mut unit = second(rt.alloc(), 64, &Limits::NONE).ok_or("no unit")?;
    assert!(rt; delivers(&mut unit, 1001, &copy_of(0, 1, 10)));
    assert!(rt; matches!(unit.release(1000), Err(Refused::MomentEarlier)));
    assert!(rt; matches!(unit.release((1 << 62) + 1), Err(Refused::MomentTooLate)));
    assert!(rt; releases(&mut unit, 1072, &copy_of(0, 2, 9)));
    assert_eq!(rt; unit.station().clock(), 1001);
    assert_eq!(rt; unit.counts().refused.moment_earlier, 1);
    Ok(())
}

#[test]
fn a_restart_of_a_unit_drops_what_waits(rt: HostRuntime) -> Result<(), Fail> {
    let mut unit = second(rt.alloc(), 64, &Limits::NONE).ok_or("no unit")?;
    assert!(rt; delivers(&mut unit, 1001, &copy_of(0, 1, 10)));
    assert!(rt; unit.restart(1000, 0).is_err());
    assert_eq!(rt; unit.next_due(), Some(1072));
    assert!(rt; unit.restart(1010, 0).is_ok());
    assert!(rt; is_quiet(&mut unit, 1072));
    assert_eq!(rt; counts_of(&unit).dropped, 1);
    Ok(())
}

#[test]
fn a_frame_over_the_hop_cap_never_waits(rt: HostRuntime) -> Result<(), Fail> {
    let limits = Limits {
        hop_cap: 9,
        ..Limits::NONE
    };
    let mut unit = second(rt.alloc(), 64, &limits).ok_or("no unit")?;
    assert!(rt; delivers(&mut unit, 1001, &copy_of(0, 1, 10)));
    assert_eq!(rt; unit.next_due(), None);
    assert_eq!(rt; unit.withheld().suppressed, 1);
    Ok(())
}

#[test]
fn a_due_frame_without_room_is_dropped(rt: HostRuntime) -> Result<(), Fail> {
    let limits = Limits {
        forward: Some(Rate {
            burst: 1,
            per_second: 1,
        }),
        ..Limits::NONE
    };
    let mut unit = second(rt.alloc(), 64, &limits).ok_or("no unit")?;
    assert!(rt; delivers(&mut unit, 1001, &copy_of(0, 1, 10)));
    assert!(rt; delivers(&mut unit, 1001, &copy_of(1, 1, 10)));
    assert_eq!(rt; unit.withheld().suppressed, 0);
    assert!(rt; releases(&mut unit, 1072, &copy_of(0, 2, 9)));
    assert!(rt; is_quiet(&mut unit, 1072));
    assert_eq!(rt; unit.withheld().suppressed, 1);
    assert_eq!(rt; counts_of(&unit).dropped, 1);
    Ok(())
}

#[test]
fn a_packet_that_was_delivered_before_never_waits(rt: HostRuntime) -> Result<(), Fail> {
    let mut unit = second(rt.alloc(), 64, &Limits::CHANNEL).ok_or("no unit")?;
    assert!(rt; delivers(&mut unit, 1001, &copy_of(0, 1, 10)));
    assert!(rt; releases(&mut unit, 1072, &copy_of(0, 2, 9)));

    let mut forgetful = second(rt.alloc(), 1, &Limits::CHANNEL).ok_or("no unit")?;
    assert!(rt; delivers(&mut forgetful, 1001, &copy_of(0, 1, 10)));
    assert!(rt; delivers(&mut forgetful, 1002, &copy_of(1, 1, 10)));
    let first = copy_of(0, 1, 10);
    let again = forgetful.receive(1003, &first);
    assert!(rt; is_repeated(again));
    assert_eq!(rt; counts_of(&forgetful).held, 2);
    assert_eq!(rt; forgetful.withheld().suppressed, 1);
    assert_eq!(rt; forgetful.withheld().repeated, 1);
    assert!(rt; releases(&mut forgetful, 1072, &copy_of(0, 2, 9)));
    assert!(rt; releases(&mut forgetful, 1073, &copy_of(1, 2, 9)));
    Ok(())
}

#[test]
fn waits_spread_a_burst(rt: HostRuntime) -> Result<(), Fail> {
    let limits = Limits {
        forward: Some(Rate {
            burst: 1,
            per_second: 1000,
        }),
        ..Limits::NONE
    };
    let mut unit = second(rt.alloc(), 64, &limits).ok_or("no unit")?;
    assert!(rt; delivers(&mut unit, 1001, &copy_of(0, 1, 10)));
    assert!(rt; delivers(&mut unit, 1001, &copy_of(1, 3, 9)));
    assert!(rt; releases(&mut unit, 1072, &copy_of(0, 2, 9)));
    assert_eq!(rt; unit.next_due(), Some(1096));
    assert!(rt; releases(&mut unit, 1096, &copy_of(1, 2, 8)));
    assert_eq!(rt; unit.withheld().suppressed, 0);
    Ok(())
}

#[test]
fn only_a_frame_with_the_same_message_cancels_a_secured_one(rt: HostRuntime) -> Result<(), Fail> {
    let mut unit = second(rt.alloc(), 64, &Limits::NONE).ok_or("no unit")?;
    let first = copy_of(0, 1, 10);
    let copy = copy_of(0, 3, 9);
    let held = receive_sealed(rt.alloc(), &mut unit, 1001, &first, MESSAGE, &first);
    assert_eq!(rt; held, Some(true));
    assert_eq!(rt; unit.next_due(), Some(1072));
    assert!(rt; unit.receive(1002, &copy).is_ok());
    assert_eq!(rt; counts_of(&unit).cancelled, 0);
    receive_sealed(rt.alloc(), &mut unit, 1003, &copy, OTHER, &copy).ok_or("not sealed")?;
    assert_eq!(rt; counts_of(&unit).cancelled, 0);
    receive_sealed(rt.alloc(), &mut unit, 1004, &copy, MESSAGE, &copy).ok_or("not sealed")?;
    assert_eq!(rt; counts_of(&unit).cancelled, 1);
    assert!(rt; is_quiet(&mut unit, 1072));
    Ok(())
}

#[test]
fn a_secured_frame_is_released_with_its_message(rt: HostRuntime) -> Result<(), Fail> {
    let mut unit = second(rt.alloc(), 64, &Limits::NONE).ok_or("no unit")?;
    let first = copy_of(0, 1, 10);
    let held = receive_sealed(rt.alloc(), &mut unit, 1001, &first, MESSAGE, &first);
    assert_eq!(rt; held, Some(true));
    let relayed = copy_of(0, 2, 9);
    let relayed = read_frame(&relayed).ok().ok_or("no frame")?;
    let sealed = seal_frame(rt.alloc(), &relayed, MESSAGE)
        .ok()
        .ok_or("no memory")?
        .ok_or("not sealed")?;
    assert!(rt; releases(&mut unit, 1072, sealed.as_slice()));
    Ok(())
}

#[test]
fn a_copy_is_told_by_its_message_and_not_by_its_plain_part(rt: HostRuntime) -> Result<(), Fail> {
    let mut unit = second(rt.alloc(), 64, &Limits::NONE).ok_or("no unit")?;
    let first = copy_of(0, 1, 10);
    let copy = copy_of(0, 3, 9);
    let other = with_octet(copy_of(0, 3, 9), PAYLOAD + 1, 0x70);
    receive_sealed(rt.alloc(), &mut unit, 1001, &first, MESSAGE, &first).ok_or("not sealed")?;
    receive_sealed(rt.alloc(), &mut unit, 1004, &copy, MESSAGE, &other).ok_or("not sealed")?;
    assert_eq!(rt; counts_of(&unit).cancelled, 1);
    Ok(())
}
