//! Failed allocations: which call has one, and what it answers then.

use crate::packet::vectors::{BEACON, FRAME, GBC, RECORD};
use its_headers::{DecodeFault, Packet, decode};
use its_linkframe::{
    CaptureFault, CaptureReader, CaptureWriter, Counted, read_frame, relay_frame, write_frame,
};
use std::alloc::Global;
use test_support::{STEP, Shortage};

/// Whether a beacon is decoded, and whether the geobroadcast is, where it is or memory ran out.
fn decode_both(alloc: Global) -> Option<[bool; 2]> {
    let has_beacon = decode(alloc, &BEACON).is_ok();
    match decode(alloc, &GBC) {
        Ok(_) => Some([has_beacon, true]),
        Err(DecodeFault::NoMemory) => Some([has_beacon, false]),
        Err(DecodeFault::Fault(_)) => None,
    }
}

/// Under rising budgets `decode` answers H1 and then the packet; a beacon needs none. Whether a
/// budget had no room, and whether one had.
fn decode_short_of_memory(alloc: Global) -> Option<[bool; 2]> {
    let mut shortage = Shortage::new(alloc).ok()?;
    let mut was = [false; 2];
    for step in 0..8 {
        if !shortage.leave(STEP * step) {
            return None;
        }
        let [has_beacon, has_packet] = decode_both(alloc)?;
        if !has_beacon || was[1] && !has_packet {
            return None;
        }
        was[0] |= !has_packet;
        was[1] |= has_packet;
    }
    Some(was)
}

#[test]
fn a_refused_growth_is_h1(rt: HostRuntime) {
    assert!(rt; decode_short_of_memory(rt.alloc()) == Some([true, true]));
}

/// What takes memory for a frame.
#[derive(Clone, Copy)]
enum Call {
    /// A piece as long as the frame.
    Piece,
    Relay,
    Write,
    Read,
}

/// Whether there was memory for a frame that goes on.
fn is_relayed(alloc: Global) -> Option<bool> {
    let view = read_frame(&FRAME).ok()?;
    if view.packet.hops().left() != 10 {
        return None;
    }
    Some(relay_frame(alloc, view.to, view.from, &view).is_ok())
}

/// Whether there was memory for the frame of a packet.
fn is_written(alloc: Global, packet: &Packet) -> Option<bool> {
    let view = read_frame(&FRAME).ok()?;
    Some(write_frame(alloc, view.to, view.from, packet).is_ok())
}

/// Whether there was memory for a record.
fn is_read(alloc: Global) -> Option<bool> {
    let mut reader = CaptureReader::new(alloc, Counted::new(RECORD.as_slice()));
    match reader.next() {
        Ok(Some(_)) => Some(true),
        Err(CaptureFault::NoMemory) => Some(false),
        Ok(None) | Err(_) => None,
    }
}

/// Whether a call was done, where it was or memory ran out.
fn is_done(alloc: Global, call: Call, packet: &Packet) -> Option<bool> {
    match call {
        Call::Piece => Some(Vec::<u8>::with_capacity(alloc, 76).is_ok()),
        Call::Relay => is_relayed(alloc),
        Call::Write => is_written(alloc, packet),
        Call::Read => is_read(alloc),
    }
}

/// Whether a frame is read and a record written.
fn is_read_and_written() -> bool {
    let mut room = [0; 86];
    let mut writer = CaptureWriter::new(Counted::new(room.as_mut_slice()));
    read_frame(&FRAME).is_ok() && writer.put(1000, &FRAME) == Ok(())
}

/// Each budget has room for a frame that is relayed, written or read exactly where it has room for
/// one piece of its length, so there is no second allocation. A reader answers C4 where there is
/// none. Whether a budget had no room, and whether one had; `None` where a call ended otherwise, or
/// a budget could not be left. Reading a frame and writing a record take no memory.
fn takes_one_piece(alloc: Global) -> Option<[bool; 2]> {
    let (packet, _) = decode(alloc, &GBC).ok()?;
    let mut shortage = Shortage::new(alloc).ok()?;
    let mut was = [false; 2];
    for step in 0..40 {
        let mut fits = None;
        for call in [Call::Piece, Call::Relay, Call::Write, Call::Read] {
            if !shortage.leave(STEP * step) {
                return None;
            }
            let done = is_done(alloc, call, &packet);
            fits = fits.or(done);
            if done.is_none() || done != fits {
                return None;
            }
        }
        was[0] |= fits == Some(false);
        was[1] |= fits == Some(true);
    }
    if shortage.leave(0) && is_read_and_written() {
        Some(was)
    } else {
        None
    }
}

#[test]
fn a_frame_has_one_growth(rt: HostRuntime) {
    assert!(rt; takes_one_piece(rt.alloc()) == Some([true, true]));
}
