//! When a frame is due, and what is released.

use crate::contention::contender::{Contender, one_copy};
use crate::contention::frames::{copy_of, never_moved};
use its_contention::ContentionRule;
use its_geometry::Area;
use its_gnvalue::{Lifetime, Place, TrafficClass};
use its_station::{GbcRequest, Refused, Why};
use std::test::Fail;
use test_support::{LINK, PORT, put};

/// Where the second station is: 300 m from the first.
const NEAR: i32 = 26950;

/// All places within 100 m of the origin.
fn circle() -> Option<Area> {
    Area::circle(Place::new(0, 0).ok()?, 100).ok()
}

/// A payload for `PORT`, to all stations in an area, over at most ten hops.
fn request<'a>(area: Area, payload: &'a [u8]) -> GbcRequest<'a> {
    GbcRequest {
        port: PORT,
        info: 0,
        class: TrafficClass::from_octet(0),
        lifetime: Lifetime::from_octet(26),
        max_hops: 10,
        area,
        payload,
    }
}

#[test]
fn a_frame_is_released_when_it_is_due(rt: HostRuntime) -> Result<(), Fail> {
    let mut second = Contender::new(rt.alloc(), NEAR, 64, one_copy()).ok_or("no station")?;
    let heard = second.receive(1001, &copy_of(0, 1, 10));
    assert!(rt; heard.waits_until(1072));
    assert!(rt; heard.delivers());
    assert_eq!(rt; second.held.next_due(), Some(1072));
    assert!(rt; second.is_quiet(1071));
    assert!(rt; second.releases(1072, &copy_of(0, 2, 9)));
    assert!(rt; second.is_quiet(1072));
    Ok(())
}

#[test]
fn a_frame_from_an_unknown_position_waits_longer(rt: HostRuntime) -> Result<(), Fail> {
    let mut second = Contender::new(rt.alloc(), NEAR, 64, one_copy()).ok_or("no station")?;
    assert!(rt;
        second
            .receive(1001, &never_moved(0, 1, 10))
            .waits_until(1097)
    );
    assert!(rt;
        second
            .receive(1001, &never_moved(1, 1, 10))
            .waits_until(1096)
    );
    Ok(())
}

#[test]
fn the_border_is_inside_and_as_far_as_the_range(rt: HostRuntime) -> Result<(), Fail> {
    let mut second = Contender::new(rt.alloc(), 89832, 64, one_copy()).ok_or("no station")?;
    assert!(rt; second.receive(1001, &copy_of(0, 1, 10)).waits_until(1002));
    Ok(())
}

#[test]
fn a_frame_may_be_due_at_once(rt: HostRuntime) -> Result<(), Fail> {
    let rule = ContentionRule::new(0, 100, 1000, 1);
    let mut second = Contender::new(rt.alloc(), 89832, 64, rule).ok_or("no station")?;
    assert!(rt; second.receive(1001, &copy_of(0, 1, 10)).waits_until(1001));
    assert!(rt; second.releases(1001, &copy_of(0, 2, 9)));
    Ok(())
}

#[test]
fn a_move_and_a_port_change_nothing_of_a_frame_that_waits(rt: HostRuntime) -> Result<(), Fail> {
    let mut second = Contender::new(rt.alloc(), NEAR, 64, one_copy()).ok_or("no station")?;
    assert!(rt; second.receive(1001, &copy_of(0, 1, 10)).waits_until(1072));
    assert!(rt; second.move_to(1010, 200_000));
    assert!(rt; second.releases(1072, &copy_of(0, 2, 9)));

    let mut closed = Contender::new(rt.alloc(), NEAR, 64, one_copy()).ok_or("no station")?;
    assert!(rt; closed.station.close(0, PORT).is_ok());
    let heard = closed.receive(1001, &copy_of(0, 1, 10));
    assert!(rt; heard.waits_until(1072));
    assert!(rt; !heard.delivers());
    assert!(rt; closed.station.open(1002, PORT).is_ok());
    assert!(rt; closed.releases(1072, &copy_of(0, 2, 9)));
    Ok(())
}

#[test]
fn the_frame_that_is_due_first_is_released_first(rt: HostRuntime) -> Result<(), Fail> {
    let mut second = Contender::new(rt.alloc(), NEAR, 64, one_copy()).ok_or("no station")?;
    assert!(rt; second.receive(1001, &copy_of(0, 3, 9)).waits_until(1097));
    assert!(rt; second.receive(1001, &copy_of(1, 1, 10)).waits_until(1072));
    assert!(rt; second.receive(1001, &copy_of(2, 1, 10)).waits_until(1072));
    assert!(rt; second.releases(1101, &copy_of(1, 2, 9)));
    assert!(rt; second.releases(1101, &copy_of(2, 2, 9)));
    assert!(rt; second.releases(1101, &copy_of(0, 2, 8)));
    assert_eq!(rt; second.held.counts().released, 3);
    Ok(())
}

#[test]
fn a_late_frame_is_dropped(rt: HostRuntime) -> Result<(), Fail> {
    let mut second = Contender::new(rt.alloc(), NEAR, 64, one_copy()).ok_or("no station")?;
    assert!(rt; second.receive(1001, &copy_of(0, 1, 10)).waits_until(1072));
    assert!(rt; second.releases(2072, &copy_of(0, 2, 9)));

    let mut third = Contender::new(rt.alloc(), NEAR, 64, one_copy()).ok_or("no station")?;
    assert!(rt; third.receive(1001, &copy_of(0, 1, 10)).waits_until(1072));
    assert!(rt; third.is_quiet(2073));
    assert_eq!(rt; third.held.counts().dropped, 1);
    Ok(())
}

#[test]
fn a_release_sets_no_clock(rt: HostRuntime) -> Result<(), Fail> {
    let mut second = Contender::new(rt.alloc(), NEAR, 64, one_copy()).ok_or("no station")?;
    assert!(rt; second.receive(1001, &copy_of(0, 1, 10)).waits_until(1072));
    assert!(rt; matches!(second.release(1000), Err(Refused::MomentEarlier)));
    assert!(rt; matches!(second.release((1 << 62) + 1), Err(Refused::MomentTooLate)));
    assert!(rt; second.releases(1072, &copy_of(0, 2, 9)));
    assert!(rt; second.receive(1050, &copy_of(0, 3, 9)).cancels(0));
    Ok(())
}

#[test]
fn a_restart_drops_what_waits(rt: HostRuntime) -> Result<(), Fail> {
    let mut second = Contender::new(rt.alloc(), NEAR, 64, one_copy()).ok_or("no station")?;
    assert!(rt; second.receive(1001, &copy_of(0, 1, 10)).waits_until(1072));
    assert!(rt; second.restart(1010, 0));
    assert!(rt; second.is_quiet(1072));
    assert_eq!(rt; second.held.counts().dropped, 1);
    assert!(rt; second.receive(1080, &copy_of(0, 1, 10)).waits_until(1151));
    Ok(())
}

#[test]
fn an_own_packet_goes_at_once(rt: HostRuntime) -> Result<(), Fail> {
    let mut second = Contender::new(rt.alloc(), NEAR, 64, one_copy()).ok_or("no station")?;
    assert!(rt; second.receive(1001, &copy_of(0, 1, 10)).waits_until(1072));
    let own = request(circle().ok_or("no area")?, b"hi");
    let mut sent = second
        .station
        .send_geobroadcast(1010, &own)
        .ok()
        .ok_or("not sent")?;
    put(sent.as_mut_slice(), 11, &[3]);
    put(sent.as_mut_slice(), LINK + 3, &[9]);
    let heard = second.receive(1011, sent.as_slice());
    assert!(rt;
        matches!(
            heard,
            crate::contention::contender::Reaction::Ignored(Why::OwnSource, 0)
        )
    );
    assert!(rt; second.releases(1072, &copy_of(0, 2, 9)));
    Ok(())
}
