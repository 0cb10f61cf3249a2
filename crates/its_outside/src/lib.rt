//! Packets as the standard lays them out (EN 302 636-4-1 clause 9): each kind and each value of a
//! field, also those that the profile does not have.
//!
//! [`OutsidePacket::read`] reads a packet that the profile rejects. A station does not use it. It
//! is for tools that show what other makers send, as `show --all-kinds`.
//!
//! # What is proved
//!
//! A packet is read if and only if the standard lays it out and the profile does not have it. Its
//! octets determine each field. Each packet of the profile is one of the standard.
//!
//! These are outside the profile, and are read:
//!
//! - GUC, TSB over several hops, requests and replies of the location service (LS)
//! - BTP-A, IPv6, a next header that says nothing, and a payload of any length
//! - no hops left, reserved bits that are set, a Basic Header that does not say what follows
//! - a place, a distance or an angle out of range, and an address with the MID of a group
//!
//! What the standard lays out nowhere is rejected by its first fault:
//!
//! - octets that end too early (G1), a version other than 1 (G2)
//! - neither a Common Header nor something unspecified after the Basic Header (G3)
//! - a next header over 3 (G6), an unknown header type or sub-type (G7, G8)
//! - more hops left than the maximum (G9)
//! - a payload in a BEACON or in a packet of the location service (G10)
//!
//! Reading takes no memory, by its types. No call has a condition.
//!
//! # Only tested
//!
//! - `test_outside`: each field of 39 packets, and each code of a fault.
//! - `checks/outside`: that tshark finds the same values in these packets and thousands more.
//!
//! # By review
//!
//! That a payload's slice lies in the input (its lifetime says so, its octets are proved).
#![tactic(auto)]

mod btp;
mod extended;
mod fields;
mod headers;
mod kind;
pub mod laws;
mod octets;
mod outside;
mod vectors;

pub use btp::{BtpHeader, btp_header};
pub use fields::{
    AreaFields, BasicFields, BasicNext, CommonFields, ExtendedFields, Fields, LongVector,
    NextHeader, Sequence, ShortVector,
};
pub use kind::StandardKind;
pub use outside::{NotOutside, OutsidePacket};
