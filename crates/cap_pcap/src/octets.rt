//! Numbers in both byte orders.

ghost use Rattle.std.specs.Prelude.{◌≡◌, ◌+◌, ◌≤◌, length, drop};
ghost use Rattle.cap_pcap.specs.Octets.{number_in};

use byteorder::{BigEndian, ByteOrder, LittleEndian};

/// Which octet of a number comes first in a file.
#[derive(Clone, Copy, Debug, PartialEq, Eq)]
pub enum Endianness {
    /// The highest.
    Big,
    /// The lowest.
    Little,
}

/// The number of 16 bits that begins at this octet.
pub(crate) fn u16_at(order: Endianness, octets: &[u8], at: usize) -> u16
    requires { at + 2 ≤ length octets.now }
    ensures { result ≡ number_in order 2 (drop at octets.now) }
{
    match order {
        Endianness::Big => BigEndian::read_u16(&octets[at..]),
        Endianness::Little => LittleEndian::read_u16(&octets[at..]),
    }
}

/// The number of 32 bits that begins at this octet.
pub(crate) fn u32_at(order: Endianness, octets: &[u8], at: usize) -> u32
    requires { at + 4 ≤ length octets.now }
    ensures { result ≡ number_in order 4 (drop at octets.now) }
{
    match order {
        Endianness::Big => BigEndian::read_u32(&octets[at..]),
        Endianness::Little => LittleEndian::read_u32(&octets[at..]),
    }
}

/// The number of 64 bits in these octets.
pub(crate) fn u64_at(order: Endianness, octets: &[u8; 8]) -> u64
    ensures { result ≡ number_in order 8 octets.now }
{
    match order {
        Endianness::Big => BigEndian::read_u64(octets),
        Endianness::Little => LittleEndian::read_u64(octets),
    }
}
