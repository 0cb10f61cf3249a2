//! Packets, and a record of a capture.

/// A beacon of a station at (0, 0).
pub(crate) static BEACON: [u8; 36] = [
    0x11, 0, 0x1a, 1, 0, 0x10, 0, 0x80, 0, 0, 1, 0, 0x14, 0, 2, 0, 0, 0, 0, 1, 0, 0, 0, 0, 0, 0, 0,
    0, 0, 0, 0, 0, 0, 0, 0, 0,
];

/// A single-hop broadcast of `hi` to port 2002, with media octets.
pub(crate) static SHB: [u8; 46] = [
    0x11, 0, 0x1a, 1, 0x20, 0x50, 0, 0x80, 0, 6, 1, 0, 0x14, 0, 2, 0, 0, 0, 0, 1, 0, 0, 0, 0, 0, 0,
    0, 0, 0, 0, 0, 0, 0, 0, 0, 0, 1, 2, 0xfe, 0xff, 7, 0xd2, 0, 0, 0x68, 0x69,
];

/// The geobroadcast below as a geoanycast.
pub(crate) static GAC: [u8; 62] = [
    0x11, 0, 0x1a, 0x0a, 0x20, 0x30, 0, 0x80, 0, 6, 0x0a, 0, 0, 0, 0, 0, 0x14, 0, 2, 0, 0, 0, 0, 1,
    0, 0, 0, 0, 0, 0, 0, 0, 0, 0, 0, 0, 0, 0, 0, 0, 0, 0, 0, 0, 0, 0, 0, 0, 0, 0x64, 0, 0, 0, 0, 0,
    0, 7, 0xd2, 0, 0, 0x68, 0x69,
];

/// A geobroadcast no two fields of which are alike: an ellipse, and numbers at the ends of their
/// ranges.
pub(crate) static ENDS: [u8; 63] = [
    0x11, 0, 0x7f, 3, 0x20, 0x42, 0xa5, 0, 0, 7, 4, 0, 0xff, 0xfe, 0, 0, 0x94, 2, 2, 3, 4, 5, 6, 7,
    0x89, 0xab, 0xcd, 0xef, 0xf8, 0xa4, 0x32, 0xeb, 0x6b, 0x49, 0xd1, 0xff, 0xc0, 0, 0xff, 0xff,
    0x35, 0xa4, 0xe9, 0, 0x94, 0xb6, 0x2e, 0, 0xff, 0xff, 0, 1, 1, 0x67, 0, 0, 7, 0xd2, 0, 1, 0xff,
    0, 0x80,
];

/// A geobroadcast of `hi` to port 2002, for the circle of 100 m at (0, 0).
pub(crate) static GBC: [u8; 62] = [
    0x11, 0, 0x1a, 0x0a, 0x20, 0x40, 0, 0x80, 0, 6, 0x0a, 0, 0, 0, 0, 0, 0x14, 0, 2, 0, 0, 0, 0, 1,
    0, 0, 0, 0, 0, 0, 0, 0, 0, 0, 0, 0, 0, 0, 0, 0, 0, 0, 0, 0, 0, 0, 0, 0, 0, 0x64, 0, 0, 0, 0, 0,
    0, 7, 0xd2, 0, 0, 0x68, 0x69,
];

/// Its frame, from one station to all.
pub(crate) static FRAME: [u8; 76] = [
    0xff, 0xff, 0xff, 0xff, 0xff, 0xff, 2, 0, 0, 0, 0, 1, 0x89, 0x47, 0x11, 0, 0x1a, 0x0a, 0x20,
    0x40, 0, 0x80, 0, 6, 0x0a, 0, 0, 0, 0, 0, 0x14, 0, 2, 0, 0, 0, 0, 1, 0, 0, 0, 0, 0, 0, 0, 0, 0,
    0, 0, 0, 0, 0, 0, 0, 0, 0, 0, 0, 0, 0, 0, 0, 0, 0x64, 0, 0, 0, 0, 0, 0, 7, 0xd2, 0, 0, 0x68,
    0x69,
];

/// The record of that frame at moment 1000.
pub(crate) static RECORD: [u8; 86] = [
    0, 0, 0, 0, 0, 0, 3, 0xe8, 0, 0x4c, 0xff, 0xff, 0xff, 0xff, 0xff, 0xff, 2, 0, 0, 0, 0, 1, 0x89,
    0x47, 0x11, 0, 0x1a, 0x0a, 0x20, 0x40, 0, 0x80, 0, 6, 0x0a, 0, 0, 0, 0, 0, 0x14, 0, 2, 0, 0, 0,
    0, 1, 0, 0, 0, 0, 0, 0, 0, 0, 0, 0, 0, 0, 0, 0, 0, 0, 0, 0, 0, 0, 0, 0, 0, 0, 0, 0x64, 0, 0, 0,
    0, 0, 0, 7, 0xd2, 0, 0, 0x68, 0x69,
];
