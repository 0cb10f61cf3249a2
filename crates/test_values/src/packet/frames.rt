//! Frames, a short one and the longest: they are written of what is decoded of them, go on, and get
//! another link address.

use crate::packet::vectors::FRAME;
use its_gnvalue::Mac;
use its_headers::decode;
use its_linkframe::{LONGEST_FRAME, read_frame, relay_frame, retarget, write_frame};
use std::alloc::Global;
use test_support::put;

const OTHER: [u8; 6] = [0x02, 0, 0, 0, 0, 0x02];

/// The geobroadcast with a payload of 1398 octets, all of them 0x5a.
fn longest_frame(alloc: Global) -> Option<Vec<u8>> {
    let mut octets = Vec::from_elem(alloc, 0x5a, 1468).ok()?;
    put(&mut octets, 0, FRAME.get(..70)?);
    put(&mut octets, 22, &[0x05, 0x76]);
    Some(octets)
}

/// The frame of the packet of a frame, between its addresses.
fn written(alloc: Global, frame: &[u8]) -> Option<Vec<u8>> {
    let (packet, _) = decode(alloc, frame.get(14..)?).ok()?;
    let view = read_frame(frame).ok()?;
    write_frame(alloc, view.to, view.from, &packet).ok()
}

/// The frame in which another station passes a packet on to the link address of its frame, or to
/// another.
fn relayed(alloc: Global, frame: &[u8], to: Option<Mac>) -> Option<Vec<u8>> {
    let view = read_frame(frame).ok()?;
    if view.packet.hops().left() != 10 {
        return None;
    }
    let other = Mac::from_octets(OTHER);
    let Ok(mut relay) = relay_frame(alloc, view.to, other, &view) else {
        return None;
    };
    if let Some(to) = to {
        retarget(&mut relay, to);
    }
    Some(relay)
}

/// Whether a frame is these octets.
fn is(frame: Option<Vec<u8>>, octets: &[u8]) -> bool {
    match frame {
        Some(frame) => frame.as_slice() == octets,
        None => false,
    }
}

/// Whether a frame is written as it is, relayed to all with another source and a hop fewer, and so
/// to another link address.
fn is_sent_on(alloc: Global, frame: &mut [u8]) -> bool {
    let is_written = is(written(alloc, frame), frame);
    let to_all = relayed(alloc, frame, None);
    let to_other = relayed(alloc, frame, Some(Mac::from_octets(OTHER)));
    put(frame, 6, &OTHER);
    put(frame, 17, &[9]);
    let is_relayed = is(to_all, frame);
    put(frame, 0, &OTHER);
    is_written && is_relayed && is(to_other, frame)
}

/// The short frame, and the longest.
fn are_sent_on(alloc: Global) -> Option<[bool; 2]> {
    let mut short = Vec::from_slice(alloc, &FRAME).ok()?;
    let mut longest = longest_frame(alloc)?;
    Some([
        is_sent_on(alloc, &mut short),
        is_sent_on(alloc, &mut longest),
    ])
}

#[test]
fn frames_are_written_relayed_and_retargeted(rt: HostRuntime) {
    assert!(rt; LONGEST_FRAME == 1468);
    assert!(rt; are_sent_on(rt.alloc()) == Some([true, true]));
}
