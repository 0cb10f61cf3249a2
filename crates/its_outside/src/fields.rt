//! The fields of a packet (EN 302 636-4-1 clause 9), in the profile or not. Each field has all
//! values that its bits can have, unless its type says otherwise.

use its_geometry::Shape;
use its_gnvalue::{Lifetime, TrafficClass};

/// What follows the Basic Header (NH of the Basic Header).
#[derive(Clone, Copy, Debug, PartialEq, Eq)]
pub enum BasicNext {
    /// 0: unspecified.
    Unspecified,
    /// 1: the Common Header.
    CommonHeader,
}

/// What follows the extended header (NH of the Common Header).
#[derive(Clone, Copy, Debug, PartialEq, Eq)]
pub enum NextHeader {
    /// 0: unspecified (ANY).
    Unspecified,
    /// 1: BTP-A, with a destination port and a source port.
    BtpA,
    /// 2: BTP-B, with a destination port and destination port info.
    BtpB,
    /// 3: an IPv6 header.
    Ipv6,
}

/// The Basic Header, except its version, which is 1.
#[derive(Clone, Copy, Debug, PartialEq, Eq)]
pub struct BasicFields {
    /// What follows (NH).
    pub next: BasicNext,
    /// The reserved octet.
    pub reserved: u8,
    /// How long the packet lives (LT).
    pub lifetime: Lifetime,
    /// The hops that are left (RHL).
    pub left: u8,
}

/// The Common Header, except the type of the extended header and the length of the payload.
#[derive(Clone, Copy, Debug, PartialEq, Eq)]
pub struct CommonFields {
    /// What follows the extended header (NH).
    pub next: NextHeader,
    /// The reserved half octet, below 16.
    pub next_reserved: u8,
    /// The traffic class (TC).
    pub class: TrafficClass,
    /// Whether the source is mobile, the highest bit of the flags.
    pub mobile: bool,
    /// The reserved bits of the flags, below 128.
    pub flags_reserved: u8,
    /// How many hops there were at most (MHL): no fewer than are left.
    pub max_hops: u8,
    /// The reserved octet.
    pub reserved: u8,
}

/// A long position vector. The place may be out of range, and the address may have the MID of a
/// group.
#[derive(Clone, Copy, Debug, PartialEq, Eq)]
pub struct LongVector {
    /// The GN address (GN_ADDR).
    pub address: u64,
    /// The time stamp in milliseconds, modulo 2^32 (TST).
    pub timestamp: u32,
    /// The latitude in tenths of a microdegree.
    pub latitude: i32,
    /// The longitude in tenths of a microdegree.
    pub longitude: i32,
    /// Whether the place is accurate (PAI).
    pub accurate: bool,
    /// The speed in 0.01 m/s, -16384 to 16383 (S).
    pub speed: i16,
    /// The heading in tenths of a degree, clockwise from north (H).
    pub heading: u16,
}

/// A short position vector. The place may be out of range, and the address may have the MID of a
/// group.
#[derive(Clone, Copy, Debug, PartialEq, Eq)]
pub struct ShortVector {
    /// The GN address (GN_ADDR).
    pub address: u64,
    /// The time stamp in milliseconds, modulo 2^32 (TST).
    pub timestamp: u32,
    /// The latitude in tenths of a microdegree.
    pub latitude: i32,
    /// The longitude in tenths of a microdegree.
    pub longitude: i32,
}

/// A sequence number and the two reserved octets after it.
#[derive(Clone, Copy, Debug, PartialEq, Eq)]
pub struct Sequence {
    /// The sequence number (SN).
    pub number: u16,
    /// The reserved octets.
    pub reserved: u16,
}

/// A destination area and the two reserved octets after it. Centre, distances and angle may be out
/// of range.
#[derive(Clone, Copy, Debug, PartialEq, Eq)]
pub struct AreaFields {
    /// The shape, which is the sub-type of the header (HST).
    pub shape: Shape,
    /// The latitude of the centre in tenths of a microdegree.
    pub latitude: i32,
    /// The longitude of the centre in tenths of a microdegree.
    pub longitude: i32,
    /// Distance a in metres.
    pub a: u16,
    /// Distance b in metres.
    pub b: u16,
    /// The angle in degrees.
    pub angle: u16,
    /// The reserved octets.
    pub reserved: u16,
}

/// What the extended header has besides the source's vector.
#[derive(Clone, Copy, Debug, PartialEq, Eq)]
pub enum ExtendedFields {
    /// A BEACON: nothing.
    Beacon,
    /// A GUC (geounicast): the sequence number, and where the destination is.
    Guc(Sequence, ShortVector),
    /// A GAC (geoanycast): the sequence number and the area.
    Gac(Sequence, AreaFields),
    /// A GBC (geobroadcast): the sequence number and the area.
    Gbc(Sequence, AreaFields),
    /// An SHB (single-hop broadcast): the four octets of media-dependent data, highest first.
    Shb(u32),
    /// A TSB (topologically-scoped broadcast): the sequence number.
    Tsb(Sequence),
    /// A request of the location service (LS): the sequence number and the address that is sought.
    LsRequest(Sequence, u64),
    /// A reply of the location service (LS): the sequence number, and where the destination is.
    LsReply(Sequence, ShortVector),
}

/// All fields of a packet, except its payload.
#[derive(Clone, Copy, Debug, PartialEq, Eq)]
pub struct Fields {
    /// The Basic Header.
    pub basic: BasicFields,
    /// The Common Header.
    pub common: CommonFields,
    /// The long position vector of the source (SO PV).
    pub source: LongVector,
    /// The rest of the extended header.
    pub extended: ExtendedFields,
}
