//! The budgets of memory that tests leave.

use crate::equality::same;
use std::test::Fail;
use test_support::{MOST, STEP, Shortage};

#[test]
fn nothing_is_left(rt: HostRuntime) -> Result<(), Fail> {
    let mut shortage = Shortage::new(rt.alloc())?;
    assert!(rt; shortage.leave(0));
    for size in 1..5000 {
        let piece = Vec::<u8>::with_capacity(rt.alloc(), size);
        assert!(rt; piece.is_err(), "{size}");
    }
    Ok(())
}

/// With rising budgets, the first of two allocations of 76 octets fails, then the second, then
/// none.
#[test]
fn each_allocation_fails_in_turn(rt: HostRuntime) -> Result<(), Fail> {
    let mut shortage = Shortage::new(rt.alloc())?;
    let mut before = 0;
    let mut rises = 0u32;
    for step in 0..40 {
        assert!(rt; shortage.leave(STEP * step), "at step {step}");
        let first = Vec::<u8>::with_capacity(rt.alloc(), 76);
        let second = Vec::<u8>::with_capacity(rt.alloc(), 76);
        let now = first.is_ok() as u8 + second.is_ok() as u8;
        assert!(rt; now >= before, "at step {step}");
        if now > before {
            rises = rises.saturating_add(1);
        }
        before = now;
    }
    same(&rt, (before, rises), (2, 2));
    Ok(())
}

/// What a test still holds from the last budget is missing in the next one. A budget of 0 works
/// nevertheless.
#[test]
fn a_budget_that_is_still_held_is_told(rt: HostRuntime) -> Result<(), Fail> {
    let mut shortage = Shortage::new(rt.alloc())?;
    assert!(rt; shortage.leave(MOST));
    let kept = Vec::<u8>::with_capacity(rt.alloc(), MOST / 2)?;
    assert!(rt; !shortage.leave(STEP));
    drop(kept);
    assert!(rt; shortage.leave(STEP));
    assert!(rt; shortage.leave(MOST));
    let _kept = Vec::<u8>::with_capacity(rt.alloc(), MOST / 2)?;
    assert!(rt; shortage.leave(0));
    assert!(rt; Vec::<u8>::with_capacity(rt.alloc(), 1).is_err());
    Ok(())
}

/// Memory from before the shortage that is released during it adds to the budget, until a budget of
/// 0 takes it.
#[test]
fn memory_beside_the_budget_is_told(rt: HostRuntime) -> Result<(), Fail> {
    let older = Vec::<u8>::with_capacity(rt.alloc(), MOST / 2)?;
    let mut shortage = Shortage::new(rt.alloc())?;
    assert!(rt; shortage.leave(STEP));
    drop(older);
    assert!(rt; !shortage.leave(STEP));
    assert!(rt; shortage.leave(0));
    assert!(rt; shortage.leave(STEP));
    Ok(())
}
