//! Frames of the first station and of others, as octets.

use crate::vectors::{LINK, put};

/// A beacon.
static BEACON: [u8; 50] = [
    0xff, 0xff, 0xff, 0xff, 0xff, 0xff, 2, 0, 0, 0, 0, 1, 0x89, 0x47, 0x11, 0, 0x1a, 1, 0, 0x10, 0,
    0x80, 0, 0, 1, 0, 0x14, 0, 2, 0, 0, 0, 0, 1, 0, 0, 0, 0, 0, 0, 0, 0, 0, 0, 0, 0, 0, 0, 0, 0,
];

/// A geobroadcast of `hi` to port 2002, for a circle of 100 m, over at most ten hops.
pub static GEOBROADCAST_OCTETS: [u8; 76] = [
    0xff, 0xff, 0xff, 0xff, 0xff, 0xff, 2, 0, 0, 0, 0, 1, 0x89, 0x47, 0x11, 0, 0x1a, 0x0a, 0x20,
    0x40, 0, 0x80, 0, 6, 0x0a, 0, 0, 0, 0, 0, 0x14, 0, 2, 0, 0, 0, 0, 1, 0, 0, 0, 0, 0, 0, 0, 0, 0,
    0, 0, 0, 0, 0, 0, 0, 0, 0, 0, 0, 0, 0, 0, 0, 0, 0x64, 0, 0, 0, 0, 0, 0, 7, 0xd2, 0, 0, 0x68,
    0x69,
];

/// The geobroadcast with this sequence number.
pub fn geobroadcast_of(number: u8) -> [u8; 76] {
    let mut octets = GEOBROADCAST_OCTETS;
    put(&mut octets, LINK + 13, &[number]);
    octets
}

/// The beacon of a station whose address ends in this number.
pub fn beacon_of(number: u8) -> [u8; 50] {
    let mut octets = BEACON;
    put(&mut octets, 11, &[number]);
    put(&mut octets, 33, &[number]);
    octets
}

/// The beacon of a station 50 m east of the origin, whose link address is `0210` and this number.
pub fn beacon_of_many(number: u16) -> [u8; 50] {
    let end = number.to_be_bytes();
    let mut octets = BEACON;
    put(&mut octets, 7, &[0x10]);
    put(&mut octets, 10, &end);
    put(&mut octets, 29, &[0x10]);
    put(&mut octets, 32, &end);
    put(&mut octets, 44, &[1, 0xc1]);
    octets
}
