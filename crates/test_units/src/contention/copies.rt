//! Which frames cancel one that waits.

use crate::contention::contender::{Contender, Reaction, one_copy};
use crate::contention::frames::{LIFETIME, PAYLOAD, copy_of, to_one, with_octet};
use its_contention::ContentionRule;
use its_faults::FrameFault;
use its_station::{Refused, Why};
use std::test::Fail;
use test_support::put;

/// Where the second station is: 300 m from the first.
const NEAR: i32 = 26950;

#[test]
fn a_copy_from_another_station_cancels(rt: HostRuntime) -> Result<(), Fail> {
    let mut second = Contender::new(rt.alloc(), NEAR, 64, one_copy()).ok_or("no station")?;
    assert!(rt; second.receive(1001, &copy_of(0, 1, 10)).waits_until(1072));
    assert!(rt; second.receive(1010, &copy_of(0, 3, 9)).cancels(1));
    assert!(rt; second.is_quiet(1072));
    assert_eq!(rt; second.held.counts().cancelled, 1);
    Ok(())
}

#[test]
fn another_frame_of_the_packet_cancels_nothing(rt: HostRuntime) -> Result<(), Fail> {
    let mut second = Contender::new(rt.alloc(), NEAR, 64, one_copy()).ok_or("no station")?;
    assert!(rt; second.receive(1001, &copy_of(0, 1, 10)).waits_until(1072));
    let others = [
        copy_of(0, 1, 10),
        copy_of(0, 3, 10),
        copy_of(0, 3, 8),
        to_one(copy_of(0, 3, 9), 2),
        copy_of(0, 2, 9),
        with_octet(copy_of(0, 3, 9), PAYLOAD + 1, 0x70),
    ];
    for other in &others {
        assert!(rt; second.receive(1010, other).cancels(0));
    }
    let elsewhere = second.receive(1010, &to_one(copy_of(0, 3, 9), 4));
    assert!(rt; matches!(elsewhere, Reaction::Ignored(Why::NotForMe, 0)));
    assert!(rt; second.releases(1072, &copy_of(0, 2, 9)));
    Ok(())
}

#[test]
fn a_refused_frame_cancels_nothing(rt: HostRuntime) -> Result<(), Fail> {
    let mut second = Contender::new(rt.alloc(), NEAR, 64, one_copy()).ok_or("no station")?;
    assert!(rt; second.receive(1001, &copy_of(0, 1, 10)).waits_until(1072));
    let earlier = second.receive(1000, &copy_of(0, 3, 9));
    assert!(rt; matches!(earlier, Reaction::Refused(Refused::MomentEarlier)));
    let mut longer = [0; 77];
    put(&mut longer, 0, &copy_of(0, 3, 9));
    let trailing = second.receive(1010, &longer);
    assert!(rt;
        matches!(
            trailing,
            Reaction::Refused(Refused::Frame(FrameFault::Trailing))
        )
    );
    assert!(rt; second.releases(1072, &copy_of(0, 2, 9)));
    Ok(())
}

#[test]
fn a_copy_may_have_another_lifetime(rt: HostRuntime) -> Result<(), Fail> {
    let mut second = Contender::new(rt.alloc(), NEAR, 64, one_copy()).ok_or("no station")?;
    assert!(rt; second.receive(1001, &copy_of(0, 1, 10)).waits_until(1072));
    let shorter = with_octet(copy_of(0, 3, 9), LIFETIME, 5);
    assert!(rt; second.receive(1010, &shorter).cancels(1));
    Ok(())
}

#[test]
fn two_copies_have_to_come_from_two_stations(rt: HostRuntime) -> Result<(), Fail> {
    let rule = ContentionRule::new(1, 100, 1000, 2);
    let mut second = Contender::new(rt.alloc(), NEAR, 64, rule).ok_or("no station")?;
    assert!(rt; second.receive(1001, &copy_of(0, 1, 10)).waits_until(1072));
    assert!(rt; second.receive(1010, &copy_of(0, 3, 9)).cancels(0));
    assert!(rt; second.receive(1011, &copy_of(0, 3, 9)).cancels(0));
    assert!(rt; second.receive(1012, &copy_of(0, 4, 9)).cancels(1));
    assert!(rt; second.is_quiet(1072));
    Ok(())
}

#[test]
fn equal_frames_are_cancelled_together(rt: HostRuntime) -> Result<(), Fail> {
    let mut second = Contender::new(rt.alloc(), NEAR, 1, one_copy()).ok_or("no station")?;
    assert!(rt; second.receive(1001, &copy_of(0, 1, 10)).waits_until(1072));
    assert!(rt; second.receive(1002, &copy_of(1, 1, 10)).waits_until(1073));
    assert!(rt; second.receive(1003, &copy_of(0, 1, 10)).waits_until(1074));
    assert_eq!(rt; second.held.len(), 3);
    assert!(rt; second.receive(1010, &copy_of(0, 3, 9)).cancels(2));
    assert_eq!(rt; second.held.len(), 1);
    Ok(())
}
