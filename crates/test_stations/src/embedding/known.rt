//! What an embedding program reads of a station and of a world.

use crate::fates::{Fate, fate_of};
use crate::stations::{circle, receiver, request};
use its_gnvalue::{GnAddress, Place};
use its_linkframe::{FrameView, read_frame};
use its_loctable::{LocationStore, OrderedTable, SortedTable};
use its_station::{FrameContents, GbcRequest, KnownFrame, Outcome, Station};
use std::alloc::Global;
use std::test::Fail;
use test_support::{FIRST, GEOBROADCAST_OCTETS, PORT, SECOND, beacon_of};

/// Whether a frame is delivered, as "hi" for `PORT`, and relayed in 76 octets.
fn is_delivered(station: &mut Station<SortedTable>, now: u64, frame: &FrameView<'_>) -> bool {
    match station.receive_frame(now, frame) {
        Ok(
            Outcome::Accepted {
                handed: Some(handed),
                sent: Some(sent),
            },
        ) => handed.port == PORT && handed.payload == b"hi".as_slice() && sent.len() == 76,
        Ok(Outcome::Accepted { .. } | Outcome::Ignored(_)) | Err(_) => false,
    }
}

fn is_refused(station: &mut Station<SortedTable>, now: u64, frame: &FrameView<'_>) -> bool {
    station.receive_frame(now, frame).is_err()
}

/// The frame is delivered and relayed once, and refused at a moment of the past.
#[test]
fn a_frame_is_read_once(rt: HostRuntime) -> Result<(), Fail> {
    let frame = read_frame(&GEOBROADCAST_OCTETS)?;
    let mut station = receiver(rt.alloc())?;
    assert!(rt; frame.packet.vector().address().as_u64() == FIRST);
    assert!(rt; is_delivered(&mut station, 1000, &frame));
    assert!(rt; is_refused(&mut station, 999, &frame) && station.clock() == 1000);
    Ok(())
}

/// Whether a frame whose contents were read before is delivered and relayed in the same way.
fn is_known_delivered<S: LocationStore>(
    station: &mut Station<S>,
    now: u64,
    frame: &KnownFrame<'_, '_>,
) -> bool {
    match station.receive_frame(now, frame) {
        Ok(
            Outcome::Accepted {
                handed: Some(handed),
                sent: Some(sent),
            },
        ) => handed.port == PORT && handed.payload == b"hi".as_slice() && sent.len() == 76,
        Ok(Outcome::Accepted { .. } | Outcome::Ignored(_)) | Err(_) => false,
    }
}

fn is_known_refused<S: LocationStore>(
    station: &mut Station<S>,
    now: u64,
    frame: &KnownFrame<'_, '_>,
) -> bool {
    station.receive_frame(now, frame).is_err()
}

/// Whether two stations receive a frame that is read once, and one refuses it at a time of the past.
fn are_served(sorted: &mut Station<SortedTable>, ordered: &mut Station<OrderedTable>) -> bool {
    let octets = GEOBROADCAST_OCTETS.as_slice();
    let Ok(contents) = FrameContents::read(octets) else {
        return false;
    };
    let frame = KnownFrame::new(octets, &contents);
    contents.vector.address().as_u64() == FIRST
        && is_known_delivered(sorted, 1000, &frame)
        && is_known_delivered(ordered, 2000, &frame)
        && is_known_refused(sorted, 999, &frame)
}

#[test]
fn a_frame_is_read_once_for_two_stations(rt: HostRuntime) -> Result<(), Fail> {
    let mut sorted = receiver(rt.alloc())?;
    let mut ordered = receiver(rt.alloc())?;
    assert!(rt; are_served(&mut sorted, &mut ordered));
    Ok(())
}

/// Whether a station takes a place, with nothing promised: all that the call's contract says would
/// else be carried along in the proof of each test. So it is of the calls below.
fn moves<S: LocationStore>(
    station: &mut Station<S>,
    now: u64,
    place: Place,
    speed: i8,
    heading: u16,
) -> bool {
    station
        .move_to(now, place, true, i16::from(speed), heading)
        .is_ok()
}

fn sends(station: &mut Station<OrderedTable>, now: u64, request: &GbcRequest<'_>) -> bool {
    station.send_geobroadcast(now, request).is_ok()
}

/// Whether a beacon is due.
fn beacon_comes(station: &mut Station<SortedTable>, now: u64) -> Option<bool> {
    Some(station.tick(now, 0).ok()?.is_some())
}

/// Whether a station shows that it moved to this position at time 5. The number of its next packet
/// is not compared.
fn is_told(station: &Station<OrderedTable>, place: Place) -> bool {
    let vector = station.vector();
    station.address().as_u64() == SECOND
        && (vector.tst(), station.clock()) == (5, 5)
        && vector.place() == place
        && station.is_open(PORT)
        && !station.is_open(PORT + 1)
        && station.open_ports() == [PORT].as_slice()
}

/// A station that moved shows its state, before and after it sends.
#[test]
fn a_station_tells_what_it_knows_of_itself(rt: HostRuntime) -> Result<(), Fail> {
    let (place, request) = (
        Place::new(7, -7)?,
        request(circle().ok_or("no circle")?, b"hi"),
    );
    let mut station = receiver(rt.alloc())?;
    assert!(rt; moves(&mut station, 5, place, -3, 900));
    assert!(rt; is_told(&station, place) && station.next_number() == 0);
    assert!(rt; sends(&mut station, 6, &request) && station.next_number() == 1);
    Ok(())
}

/// The time from which a beacon is due, and the time of the next one.
fn beacons_of(station: &Station<SortedTable>) -> (u64, u64) {
    (station.beacon_from(), station.next_beacon())
}

#[test]
fn a_beacon_comes_at_its_moment(rt: HostRuntime) -> Result<(), Fail> {
    let place = Place::new(449, 0)?;
    let mut station = receiver(rt.alloc())?;
    assert!(rt; moves(&mut station, 40, place, 0, 0));
    assert_eq!(rt; beacons_of(&station), (0, 40));
    assert!(rt; beacon_comes(&mut station, 40) == Some(true));
    assert_eq!(rt; beacons_of(&station), (3040, 3040));
    let found = [
        beacon_comes(&mut station, 3039),
        beacon_comes(&mut station, 3040),
    ];
    assert_eq!(rt; found, [Some(false), Some(true)]);
    Ok(())
}

/// Whether a station takes in the beacons of three stations, and a geobroadcast, whose source is no
/// neighbour.
fn hears<S: LocationStore>(station: &mut Station<S>) -> bool {
    for (now, number) in [(1000, 3), (1004, 9), (1005, 5)] {
        if fate_of(station, now, &beacon_of(number)) != Fate::Kept {
            return false;
        }
    }
    fate_of(station, 1010, &GEOBROADCAST_OCTETS) == Fate::DeliveredAndRelayed
}

/// Whether the ends of the addresses of the neighbours after 21 s are these.
fn are_neighbours<S: LocationStore>(station: &Station<S>, ends: [u64; 2]) -> bool {
    let mut found = [0; 3];
    let mut place = 0usize;
    for vector in station.neighbours(21_000) {
        if let Some(end) = found.get_mut(place) {
            *end = vector.address().as_u64() & 0xff;
        }
        place = place.saturating_add(1);
    }
    place == 2 && found.get(..2) == Some(ends.as_slice())
}

fn knows<S: LocationStore>(station: &Station<S>, now: u32, address: u64) -> bool {
    match GnAddress::from_u64(address) {
        Ok(address) => station.table().lookup(u64::from(now), address).is_some(),
        Err(_) => false,
    }
}

/// The first beacon came at 1000, so at 21000 its entry has expired.
fn has_neighbours<S: LocationStore>(alloc: Global) -> Result<bool, &'static str> {
    let mut station = receiver::<S>(alloc)?;
    let heard = hears(&mut station);
    Ok(heard && knows(&station, 1010, FIRST) && are_neighbours(&station, [5, 9]))
}

#[test]
fn neighbours_come_by_address(rt: HostRuntime) -> Result<(), Fail> {
    assert!(rt; has_neighbours::<SortedTable>(rt.alloc())?);
    assert!(rt; has_neighbours::<OrderedTable>(rt.alloc())?);
    Ok(())
}
