//! The frames of the rows: octets written by hand from the layout of a frame.

use test_support::{LINK, beacon_of, geobroadcast_of, put};

/// Where the last octet of the link target is.
const TARGET_END: usize = 5;

/// Where the last octet of the link sender is.
const SENDER_END: usize = 11;

/// Where the lifetime is.
pub(crate) const LIFETIME: usize = 16;

/// Where the hops left are.
const HOPS_LEFT: usize = 17;

/// Where the payload is.
pub(crate) const PAYLOAD: usize = 74;

/// The frame of a geobroadcast with this sequence number, from a link sender that ends in this
/// number, with so many hops left. A circle of 1000 m, sent at 1000 by the first station, which was
/// moved to the origin at 500 with an accurate position.
pub(crate) fn copy_of(number: u8, sender: u8, hops: u8) -> [u8; 76] {
    let mut octets = never_moved(number, sender, hops);
    put(&mut octets, LINK + 26, &[1, 0xf4]);
    put(&mut octets, LINK + 36, &[0x80, 0]);
    octets
}

/// The packet of a first station that never moved: time stamp 0, and no accurate position.
pub(crate) fn never_moved(number: u8, sender: u8, hops: u8) -> [u8; 76] {
    let mut octets = geobroadcast_of(number);
    put(&mut octets, SENDER_END, &[sender]);
    put(&mut octets, HOPS_LEFT, &[hops]);
    put(&mut octets, LINK + 48, &[3, 0xe8]);
    octets
}

/// A frame to one station, whose link address ends in this number.
pub(crate) fn to_one(octets: [u8; 76], target: u8) -> [u8; 76] {
    let mut sent = octets;
    put(&mut sent, 0, &[2, 0, 0, 0, 0]);
    put(&mut sent, TARGET_END, &[target]);
    sent
}

/// The same frame with another octet.
pub(crate) fn with_octet(octets: [u8; 76], at: usize, octet: u8) -> [u8; 76] {
    let mut sent = octets;
    put(&mut sent, at, &[octet]);
    sent
}

/// The beacon of the third station, which stands at latitude 35933 with an accurate position.
pub(crate) fn third_beacon() -> [u8; 50] {
    let mut octets = beacon_of(3);
    put(&mut octets, LINK + 24, &[0, 0, 0x8c, 0x5d]);
    put(&mut octets, LINK + 32, &[0x80, 0]);
    octets
}
