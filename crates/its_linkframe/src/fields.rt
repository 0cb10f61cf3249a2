//! The table of a frame's fields, and of those of a record in a capture, from octet 0 to the last
//! (profile).

// A frame.

/// The link address that it goes to, six octets: where a frame begins.
pub(crate) const TARGET: usize = 0;

/// The link address that it comes from, six octets.
pub(crate) const SOURCE: usize = 6;

/// The type, two octets.
pub(crate) const ETHER_TYPE: usize = 12;

/// Its packet: where the packet begins in a frame.
pub const PACKET: usize = 14;

/// The lifetime of its packet.
pub(crate) const LIFETIME: usize = PACKET + 2;

/// The hops that its packet has left.
pub(crate) const HOPS_LEFT: usize = PACKET + its_headers::HOPS_LEFT;

/// The message of a secured frame.
pub(crate) const MESSAGE: usize = 18;

// A record of a capture.

/// The length of the frame, two octets; the moment in front of it has eight.
pub(crate) const LENGTH: usize = 8;

/// The frame.
pub(crate) const FRAME: usize = 10;
