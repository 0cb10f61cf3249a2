//! Addresses, ports, frames, a scenario and a call that tests of several crates share.

/// The address of the first station: it is at the centre of the areas.
pub const FIRST: u64 = 0x1400_0200_0000_0001;

/// The address of the second station.
pub const SECOND: u64 = 0x1400_0200_0000_0002;

/// The address of the third station.
pub const THIRD: u64 = 0x1400_0200_0000_0003;

/// The port of most requests.
pub const PORT: u16 = 2002;

/// How many octets of a frame come before its packet.
pub const LINK: usize = 14;

/// The first geobroadcast of the first station, which never moved, as hexadecimal digits.
pub static GEOBROADCAST: &str =
    "ffffffffffff020000000001894711001a0a2040008000060a000000000014000200000000010000000000\
    00000000000000000000000000000000000000006400000000000007d200006869";

/// The frame in which the second station forwards it: its own link source, and one hop fewer.
pub static RELAYED: &str =
    "ffffffffffff020000000002894711001a092040008000060a000000000014000200000000010000000000\
    00000000000000000000000000000000000000006400000000000007d200006869";

/// Puts octets at a position, if they fit.
pub fn put(octets: &mut [u8], at: usize, with: &[u8]) {
    if at <= octets.len() && with.len() <= octets.len() - at {
        octets[at..at + with.len()].copy_from_slice(with);
    }
}
