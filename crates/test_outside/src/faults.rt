//! Octets that the standard lays out nowhere, and packets that the profile rejects by a code that
//! says what is unusual.

use its_outside::{NotOutside, OutsidePacket};
use std::alloc::{AllocError, Global};

/// A TSB over several hops, with a payload of one octet.
static TSB: &str =
    "11001a052051008000010a0000070000140002000000000100000000000000000000000000000000ff";

/// A BEACON from the place 0, 0.
static BEACON: &str = "11001a010010008000000100140002000000000100000000000000000000000000000000";

/// What the reading of these octets answers, with the octet at this place changed.
fn answer(alloc: Global, digits: &str, at: usize, octet: u8) -> Option<String> {
    let mut octets = hex::decode(alloc, digits).ok()?;
    *octets.get_mut(at)? = octet;
    told(alloc, &octets).ok()
}

/// What the reading of octets answers: the code of the packet outside the profile, or why there is
/// no such packet.
fn told(alloc: Global, octets: &[u8]) -> Result<String, AllocError> {
    let mut told = String::new(alloc);
    match OutsidePacket::read(octets) {
        Ok((packet, length)) => write!(told, "outside {} of {length}", packet.refusal.code())?,
        Err(NotOutside::InProfile) => write!(told, "profile")?,
        Err(NotOutside::Refused(fault)) => write!(told, "refused {}", fault.code())?,
    }
    Ok(told)
}

/// Whether the octets with the octet at this place changed are read so.
fn is_told(alloc: Global, digits: &str, at: usize, octet: u8, wanted: &str) -> bool {
    match answer(alloc, digits, at, octet) {
        Some(told) => told.as_str() == wanted,
        None => false,
    }
}

#[test]
fn first_faults(rt: HostRuntime) {
    for (at, octet, wanted) in [
        (0, 0x11, "outside G8 at 5 of 41"),
        (0, 0x10, "outside G3 at 0 of 41"),
        (0, 0x01, "refused G2 at 0"),
        (0, 0x12, "refused G3 at 0"),
        (1, 0x80, "outside G4 at 1 of 41"),
        (3, 0x00, "outside G5 at 3 of 41"),
        (3, 0x0b, "refused G9 at 10"),
        (4, 0x10, "outside G6 at 4 of 41"),
        (4, 0x40, "refused G6 at 4"),
        (5, 0x00, "refused G7 at 5"),
        (5, 0x70, "refused G7 at 5"),
        (5, 0x52, "refused G8 at 5"),
        (5, 0x61, "refused G10 at 8"),
        (9, 0x02, "refused G1 at 41"),
    ] {
        assert!(rt; is_told(rt.alloc(), TSB, at, octet, wanted));
    }
}

#[test]
fn a_beacon_and_what_is_unusual_in_it(rt: HostRuntime) {
    for (at, octet, wanted) in [
        (0, 0x11, "profile"),
        (4, 0x20, "outside G7 at 5 of 36"),
        (7, 0x81, "outside G4 at 7 of 36"),
        (9, 0x01, "refused G10 at 8"),
        (14, 0x03, "outside G11 at 12 of 36"),
        (24, 0x7f, "outside G11 at 24 of 36"),
    ] {
        assert!(rt; is_told(rt.alloc(), BEACON, at, octet, wanted));
    }
}
