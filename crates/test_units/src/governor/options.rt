//! Single-hop broadcasts with options of their own, within the limits and past them.

use crate::governor::unit::Unit;
use its_gnvalue::{Lifetime, TrafficClass};
use its_governor::{Limits, Rate};
use its_station::{ShbOptions, ShbRequest};
use its_unit::{Limiting, Unsent};
use std::test::Fail;
use test_support::{LINK, PORT, SECOND};

/// What a unit sends for a broadcast that lives 1 s, with media-dependent data.
fn sent(unit: &mut Unit, limiting: Limiting, now: u64) -> Result<Vec<u8>, Unsent> {
    let request = ShbRequest {
        port: PORT,
        info: 0,
        class: TrafficClass::from_octet(0),
        payload: b"hi",
    };
    let options = ShbOptions {
        lifetime: Lifetime::from_octet(0x05),
        media: [1, 2, 3, 4],
    };
    unit.unit.send_shb_by(limiting, now, &request, options)
}

/// The lifetime and the media-dependent data in a frame.
fn options_in(frame: &[u8]) -> Option<(u8, &[u8])> {
    Some((*frame.get(LINK + 2)?, frame.get(LINK + 36..LINK + 40)?))
}

#[test]
fn a_broadcast_past_the_limits_has_its_options(rt: HostRuntime) -> Result<(), Fail> {
    let limits = Limits {
        own: Some(Rate {
            burst: 1,
            per_second: 1,
        }),
        ..Limits::NONE
    };
    let mut unit = Unit::new(rt.alloc(), SECOND, &limits)?;
    let within = sent(&mut unit, Limiting::Within, 1000)
        .ok()
        .ok_or("within")?;
    let wanted = (0x05, &[1u8, 2, 3, 4][..]);
    assert!(rt; options_in(within.as_slice()) == Some(wanted));
    assert!(rt;
        matches!(
            sent(&mut unit, Limiting::Within, 1001),
            Err(Unsent::OverRate)
        )
    );
    let past = sent(&mut unit, Limiting::Past, 1002).ok().ok_or("past")?;
    assert!(rt; options_in(past.as_slice()) == Some(wanted));
    assert_eq!(rt; unit.unit.counts().sent.single_hop, 2);
    Ok(())
}
