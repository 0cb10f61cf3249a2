//! Addresses of the link layer and of stations.

ghost use Rattle.std.specs.Prelude.{◌≡◌, ◌<◌, ◌^◌, ◌↔◌, IsTrue, MatchResult};
ghost use Rattle.byteorder.specs.Endian.{big_number, big_bytes};
ghost use Rattle.its_gnvalue.specs.Values.{IsGroup, IsIndividual, manual_of, station_type_of};
ghost use Rattle.its_gnvalue.specs.Values.{reserved_of, mid_of};

use crate::fault::ValueFault;
use byteorder::{BigEndian, ByteOrder};
use std::fmt;
use std::marker::Model;

/// How far up the group bit lies in a link address: the lowest bit of the first octet.
const GROUP_SHIFT: u32 = 40;

/// How far up the reserved bits begin in an address, above the MID.
const RESERVED_SHIFT: u32 = 48;

/// How far up the station type begins.
const STATION_TYPE_SHIFT: u32 = 58;

/// How far up M lies.
const MANUAL_SHIFT: u32 = 63;

/// The 48 bits of a MID.
const MID_MASK: u64 = 0xffff_ffff_ffff;

/// The 10 reserved bits, shifted down.
const RESERVED_MASK: u64 = 0x3ff;

/// The 5 bits of a station type, shifted down.
const STATION_TYPE_MASK: u64 = 0x1f;

/// Whether a link address, or the MID of a station's address, names a group.
fn has_group_bit(bits: u64) -> bool
    ensures { IsTrue result ↔ IsGroup bits }
{
    (bits >> GROUP_SHIFT) & 1 == 1
}

/// A link address of six octets. Contracts see it as the number that they spell, the highest first.
#[derive(Clone, Copy, Debug, PartialEq, Eq, PartialOrd, Ord, Hash)]
pub struct Mac {
    bits: u64,
}

impl Model for Mac {
    ghost use Rattle.std.specs.Prelude.{ℕ, ◌<◌, ◌^◌};

    ghost Value = { ℕ };

    ghost view = { λ m. m.bits };

    ghost invariant = { λ m. m.bits < 2 ^ 48 };

    ghost inverse = { λ n. record { bits = n } };
}

impl Mac {
    /// The address of all stations, ff:ff:ff:ff:ff:ff.
    pub const BROADCAST: Mac = Mac {
        bits: 0xffff_ffff_ffff,
    };

    /// The address with these octets, in the order in which they are sent.
    pub fn from_octets(octets: [u8; 6]) -> Mac
        ensures number { result ≡ big_number 6 octets }
        ensures octets { big_bytes 6 result ≡ octets }
    {
        Mac {
            bits: BigEndian::read_u48(&octets),
        }
    }

    /// The octets, in the order in which they are sent.
    pub fn octets(self) -> [u8; 6]
        ensures octets { result ≡ big_bytes 6 self }
        ensures fits { self < 2 ^ 48 }
    {
        let mut octets = [0; 6];
        BigEndian::write_u48(&mut octets, self.bits);
        octets
    }

    /// Whether it names a group: the least significant bit of the first octet is 1.
    pub fn is_group(self) -> bool
        ensures { IsTrue result ↔ IsGroup self }
    {
        has_group_bit(self.bits)
    }
}

/// Twelve hexadecimal digits in lower case.
impl fmt::Display for Mac {
    fn fmt<W: fmt::Write>(&self, f: &mut fmt::Formatter<W>) -> fmt::Result {
        write!(f, "{:012x}", self.bits)
    }
}

/// The address of a station (EN 302 636-4-1): 64 bits, whose MID is no group MAC (profile).
/// Contracts see it as a number; addresses are ordered as numbers.
#[derive(Clone, Copy, Debug, PartialEq, Eq, PartialOrd, Ord, Hash)]
pub struct GnAddress {
    bits: u64,
}

impl Model for GnAddress {
    ghost use Rattle.std.specs.Prelude.{ℕ};
    ghost use Rattle.its_gnvalue.specs.Values.{IsIndividual};

    ghost Value = { ℕ };

    ghost view = { λ a. a.bits };

    ghost invariant = { λ a. IsIndividual a.bits };

    ghost inverse = { λ n. record { bits = n } };
}

impl GnAddress {
    /// The address of these bits, or V4 where its MID is a group MAC.
    pub fn from_u64(bits: u64) -> Result<GnAddress, ValueFault>
        ensures { MatchResult result
            (λ a. (a ≡ bits) × IsIndividual bits)
            (λ f. (f ≡ ValueFault.GroupMid) × IsGroup bits) }
    {
        if has_group_bit(bits) {
            return Err(ValueFault::GroupMid);
        }
        Ok(GnAddress::within(bits))
    }

    /// The address of these bits, which have to have a MID that is no group MAC.
    pub fn within(bits: u64) -> GnAddress
        requires { IsIndividual bits }
        ensures { result ≡ bits }
    {
        GnAddress { bits }
    }

    /// All 64 bits.
    pub fn as_u64(self) -> u64
        ensures value { result ≡ self }
        ensures fits { self < 2 ^ 64 }
        ensures individual { IsIndividual self }
    {
        self.bits
    }

    /// Whether the address was configured by hand (M, the highest bit).
    pub fn manual(self) -> bool
        ensures { IsTrue result ↔ (manual_of self ≡ 1) }
    {
        (self.bits >> MANUAL_SHIFT) & 1 == 1
    }

    /// The type of the station (ST, 5 bits).
    pub fn station_type(self) -> u8
        ensures value { result ≡ station_type_of self }
        ensures range { result < 32 }
    {
        ((self.bits >> STATION_TYPE_SHIFT) & STATION_TYPE_MASK) as u8
    }

    /// The reserved bits (10), which are carried as they are.
    pub fn reserved(self) -> u16
        ensures value { result ≡ reserved_of self }
        ensures range { result < 1024 }
    {
        ((self.bits >> RESERVED_SHIFT) & RESERVED_MASK) as u16
    }

    /// The link address of the station (MID, 48 bits), which is no group.
    pub fn mid(self) -> Mac
        ensures value { result ≡ mid_of self }
        ensures individual { IsIndividual result }
    {
        Mac {
            bits: self.bits & MID_MASK,
        }
    }
}

/// Sixteen hexadecimal digits in lower case.
impl fmt::Display for GnAddress {
    fn fmt<W: fmt::Write>(&self, f: &mut fmt::Formatter<W>) -> fmt::Result {
        write!(f, "{:016x}", self.bits)
    }
}
