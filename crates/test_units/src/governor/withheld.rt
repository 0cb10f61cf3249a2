//! What is withheld, and when it passes again.

use crate::governor::unit::Unit;
use its_governor::{Limits, Rate};
use std::test::Fail;
use test_support::{FIRST, SECOND};

/// One frame at once, and two per second.
const ONE: Option<Rate> = Some(Rate {
    burst: 1,
    per_second: 2,
});

#[test]
fn a_frame_passes_once_the_bucket_has_filled(rt: HostRuntime) -> Result<(), Fail> {
    let limits = Limits {
        forward: ONE,
        ..Limits::NONE
    };
    let mut first = Unit::new(rt.alloc(), FIRST, &limits)?;
    let mut second = Unit::new(rt.alloc(), SECOND, &limits)?;
    let a = first.warn(10).ok_or("not sent")?;
    let b = first.warn(10).ok_or("not sent")?;
    let c = first.warn(10).ok_or("not sent")?;
    assert!(rt; second.hear(1000, a.as_slice()).relay.is_some());
    assert!(rt; second.hear(1499, b.as_slice()).relay.is_none());
    assert!(rt; second.hear(1500, c.as_slice()).relay.is_some());
    assert_eq!(rt; second.unit.withheld().suppressed, 1);
    Ok(())
}

#[test]
fn a_withheld_frame_is_delivered(rt: HostRuntime) -> Result<(), Fail> {
    let limits = Limits {
        forward: Some(Rate {
            burst: 0,
            per_second: 0,
        }),
        ..Limits::NONE
    };
    let mut first = Unit::new(rt.alloc(), FIRST, &limits)?;
    let mut second = Unit::new(rt.alloc(), SECOND, &limits)?;
    let a = first.warn(10).ok_or("not sent")?;
    let heard = second.hear(1000, a.as_slice());
    assert!(rt; heard.delivered);
    assert!(rt; heard.relay.is_none());
    Ok(())
}
