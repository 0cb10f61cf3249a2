//! Packets of GeoNetworking (EN 302 636-4-1): BEACON, SHB (single-hop broadcast), GBC
//! (geobroadcast) and GAC (geoanycast), to and from octets.
//!
//! [`PacketView`] reads a packet in place, [`Packet`] owns one. What is read or written is the one
//! encoding of the packet, and nothing else is read: other octets have one first fault, with the
//! octet at which its field begins.
//!
//! # What is proved
//!
//! Reading, its accessors, `Packet::length`, `encode_into` and `relay_into` take no memory, by
//! their types. The condition of `relay_into` is that at least two hops are left.
//!
//! # Only tested
//!
//! - `test_values::packet`: that `decode` succeeds if memory is there, and otherwise answers H1;
//!   the octets of a BEACON, an SHB, a GBC and a GAC, both ways, which tie the definitions to the
//!   standard.
//! - `checks/packets`: what is printed of each; the ends of the range of each field; wrong values
//!   of each field, alone, cut to each length, and each two together; codes and sentences.
//! - `checks/station`: the faults of the 496 packets one bit away from a GAC and a GBC.
//!
//! # By review
//!
//! That a payload's slice lies in the input (its lifetime says so, its octets are proved).
#![tactic(auto)]

mod decoding;
mod encoding;
mod kind;
pub mod laws;
mod packet;
mod payload;
mod relaying;
mod view;
mod wire;

pub use decoding::{DecodeCode, DecodeFault, decode};
pub use encoding::encode_into;
pub use its_faults::{Fault, FaultCode, FaultKind};
pub use kind::{KINDS, Kind};
pub use packet::{AreaPacket, Header, Packet, SingleHopBroadcast};
pub use payload::{LONGEST_PAYLOAD, Payload, SHORTEST_PAYLOAD};
pub use relaying::relay_into;
pub use view::{InnerPacketView, PacketView};
pub use wire::basic::BasicHeader;
pub use wire::fields::HOPS_LEFT;
pub use wire::octets::{Head, InOnePiece};
