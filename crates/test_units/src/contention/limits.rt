//! What waits and what goes at once.

use crate::contention::contender::{Contender, one_copy};
use crate::contention::frames::{copy_of, never_moved, with_octet};
use std::test::Fail;
use test_support::LINK;

/// Where the second station is: 300 m from the first.
const NEAR: i32 = 26950;

/// Outside of the area.
const OUTSIDE: i32 = 100_000;

/// The type of a geoanycast for a circle.
const ANYCAST: u8 = 0x30;

#[test]
fn a_packet_without_another_hop_waits_for_nothing(rt: HostRuntime) -> Result<(), Fail> {
    let mut second = Contender::new(rt.alloc(), NEAR, 64, one_copy()).ok_or("no station")?;
    let one_hop = with_octet(copy_of(0, 1, 1), LINK + 10, 1);
    let heard = second.receive(1001, &one_hop);
    assert!(rt; heard.delivers());
    assert!(rt; heard.is_silent());
    assert_eq!(rt; second.held.len(), 0);

    let two_hops = with_octet(copy_of(1, 1, 2), LINK + 10, 2);
    assert!(rt; second.receive(1001, &two_hops).waits_until(1072));
    let relayed = with_octet(copy_of(1, 2, 1), LINK + 10, 2);
    assert!(rt; second.releases(1072, &relayed));
    Ok(())
}

#[test]
fn only_a_geobroadcast_inside_waits(rt: HostRuntime) -> Result<(), Fail> {
    let mut second = Contender::new(rt.alloc(), NEAR, 64, one_copy()).ok_or("no station")?;
    let anycast = with_octet(copy_of(0, 1, 10), LINK + 5, ANYCAST);
    let heard = second.receive(1001, &anycast);
    assert!(rt; heard.delivers());
    assert!(rt; heard.is_silent());

    let mut outside = Contender::new(rt.alloc(), OUTSIDE, 64, one_copy()).ok_or("no station")?;
    let frames = [
        (never_moved(0, 1, 10), never_moved(0, 2, 9)),
        (
            with_octet(never_moved(1, 1, 10), LINK + 5, ANYCAST),
            with_octet(never_moved(1, 2, 9), LINK + 5, ANYCAST),
        ),
    ];
    for (came, goes) in &frames {
        let heard = outside.receive(1001, came);
        assert!(rt; heard.sent() == Some(goes.as_slice()));
    }
    assert_eq!(rt; outside.held.len(), 0);
    Ok(())
}

#[test]
fn a_full_buffer_sends_at_once(rt: HostRuntime) -> Result<(), Fail> {
    let mut second = Contender::new(rt.alloc(), NEAR, 64, one_copy()).ok_or("no station")?;
    for number in 0..64 {
        assert!(rt;
            second
                .receive(1001, &copy_of(number, 1, 10))
                .waits_until(1072)
        );
    }
    let heard = second.receive(1001, &copy_of(64, 1, 10));
    let relayed = copy_of(64, 2, 9);
    assert!(rt; heard.sent() == Some(relayed.as_slice()));
    assert_eq!(rt; second.held.counts().full, 1);
    assert!(rt; second.receive(1002, &copy_of(5, 3, 9)).cancels(1));
    assert!(rt; second.receive(1002, &copy_of(65, 1, 10)).waits_until(1073));
    Ok(())
}
