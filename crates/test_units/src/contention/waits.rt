//! How long a frame waits.

use its_contention::ContentionRule;
use its_gnvalue::{GnAddress, Place};
use std::test::Fail;
use test_support::SECOND;

/// How long the second station waits at this latitude, for a sender at the origin.
fn wait_at(rule: &ContentionRule, latitude: i32) -> Option<u16> {
    let own = Place::new(latitude, 0).ok()?;
    let sender = Place::new(0, 0).ok()?;
    let mid = GnAddress::from_u64(SECOND).ok()?.mid();
    Some(rule.wait(own, Some(sender), mid, 0))
}

/// How long the second station waits for a sender of unknown position.
fn wait_for_unknown(rule: &ContentionRule, number: u16) -> Option<u16> {
    let own = Place::new(0, 0).ok()?;
    let mid = GnAddress::from_u64(SECOND).ok()?.mid();
    Some(rule.wait(own, None, mid, number))
}

#[test]
fn a_wait_falls_with_the_distance_and_is_rounded_up(rt: HostRuntime) -> Result<(), Fail> {
    let rule = ContentionRule::DEFAULT;
    let rows = [
        (0, 100),
        (908, 100),
        (909, 99),
        (26950, 71),
        (89831, 2),
        (89832, 1),
        (200_000, 1),
    ];
    for (latitude, wait) in rows {
        assert_eq!(rt; wait_at(&rule, latitude), Some(wait));
    }
    Ok(())
}

#[test]
fn a_wait_may_be_0_and_may_be_fixed(rt: HostRuntime) -> Result<(), Fail> {
    let from_0 = ContentionRule::new(0, 100, 1000, 1).ok_or("no rule")?;
    assert_eq!(rt; wait_at(&from_0, 89832), Some(0));
    let fixed = ContentionRule::new(5, 5, 1, 1).ok_or("no rule")?;
    assert_eq!(rt; wait_at(&fixed, 89832), Some(5));
    Ok(())
}

#[test]
fn a_wait_without_a_position_is_in_the_upper_half(rt: HostRuntime) -> Result<(), Fail> {
    let rule = ContentionRule::DEFAULT;
    assert_eq!(rt; wait_for_unknown(&rule, 0), Some(96));
    assert_eq!(rt; wait_for_unknown(&rule, 1), Some(95));
    Ok(())
}

#[test]
fn a_rule_is_made_of_numbers_in_range(rt: HostRuntime) -> Result<(), Fail> {
    let bad = [
        (101, 100, 1000, 1),
        (0, 0, 1000, 1),
        (1, 1001, 1000, 1),
        (1, 100, 0, 1),
        (1, 100, 1000, 0),
        (1, 100, 1000, 4),
    ];
    for (min, max, range, copies) in bad {
        assert!(rt; ContentionRule::new(min, max, range, copies).is_none());
    }
    let good = [(0, 1, 1, 1), (1000, 1000, 65535, 3)];
    for (min, max, range, copies) in good {
        assert!(rt; ContentionRule::new(min, max, range, copies).is_some());
    }
    let default = ContentionRule::new(1, 100, 1000, 2);
    assert!(rt; default == Some(ContentionRule::DEFAULT));
    Ok(())
}
