//! The position of the station that a frame came from.

use crate::contention::contender::{Contender, one_copy};
use crate::contention::frames::{copy_of, third_beacon};
use std::alloc::Global;
use std::test::Fail;

/// Where the second station is: 300 m from the first, and 100 m from the third.
const NEAR: i32 = 26950;

/// Whether the second station, which knows the third since 1000, holds a frame from it until then.
fn waits_for_third(alloc: Global, now: u64, due: u64) -> Option<bool> {
    let mut second = Contender::new(alloc, NEAR, 64, one_copy())?;
    second.receive(1000, &third_beacon());
    Some(second.receive(now, &copy_of(0, 3, 9)).waits_until(due))
}

#[test]
fn a_wait_goes_by_the_sender_and_not_the_source(rt: HostRuntime) -> Result<(), Fail> {
    assert_eq!(rt; waits_for_third(rt.alloc(), 1001, 1092), Some(true));
    assert_eq!(rt; waits_for_third(rt.alloc(), 20_999, 21_090), Some(true));
    assert_eq!(rt; waits_for_third(rt.alloc(), 21_000, 21_096), Some(true));
    let mut second = Contender::new(rt.alloc(), NEAR, 64, one_copy()).ok_or("no station")?;
    assert!(rt; second.receive(1001, &copy_of(0, 3, 9)).waits_until(1097));
    Ok(())
}
