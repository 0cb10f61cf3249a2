//! How frames are found to be copies of one packet.

use its_outside::StandardKind;
use sha2::{Digest, Sha256};

/// How frames are found to be copies of one packet.
#[derive(Clone, Copy, Debug, PartialEq, Eq)]
pub enum FollowBy {
    /// By the source, the kind, the sequence number if there is one, and the time stamp of the
    /// source's position vector.
    Packet,
    /// By the source and the payload. A packet without one is not followed.
    Payload,
}

/// The fields of a packet that no station changes when it forwards the packet.
#[derive(Clone, Copy, Debug, PartialEq, Eq)]
pub(crate) struct PacketFields {
    pub(crate) kind: StandardKind,
    /// The address of the source.
    pub(crate) address: u64,
    /// The sequence number. BEACON and SHB have none.
    pub(crate) number: Option<u16>,
    /// The time stamp of the source's position vector.
    pub(crate) tst: u32,
}

/// The fields by which a packet is followed, in the order of a map.
#[derive(Clone, Copy, Debug, PartialEq, Eq, PartialOrd, Ord)]
pub(crate) struct FieldKey {
    address: u64,
    kind: u8,
    number: Option<u16>,
    tst: u32,
}

/// The source and the payload by which a packet is followed.
#[derive(Clone, Copy, Debug, PartialEq, Eq, PartialOrd, Ord)]
pub(crate) struct PayloadKey {
    address: u64,
    /// The SHA-256 of the payload.
    digest: [u64; 4],
}

/// What all copies of a packet have in common.
#[derive(Clone, Copy, Debug, PartialEq, Eq, PartialOrd, Ord)]
pub(crate) enum PacketKey {
    Fields(FieldKey),
    Payload(PayloadKey),
}

impl PacketKey {
    /// Returns the key of a packet with these fields and this payload. `None` if the packet is not
    /// followed.
    pub(crate) fn of(by: FollowBy, fields: &PacketFields, payload: &[u8]) -> Option<PacketKey> {
        match by {
            FollowBy::Packet => Some(PacketKey::Fields(FieldKey {
                address: fields.address,
                kind: fields.kind as u8,
                number: fields.number,
                tst: fields.tst,
            })),
            FollowBy::Payload if payload.is_empty() => None,
            FollowBy::Payload => Some(PacketKey::Payload(PayloadKey {
                address: fields.address,
                digest: digest_of(payload),
            })),
        }
    }
}

/// The SHA-256 of a payload, as four numbers.
fn digest_of(payload: &[u8]) -> [u64; 4] {
    let octets: [u8; 32] = Sha256::digest(payload);
    [
        number_at(&octets, 0),
        number_at(&octets, 8),
        number_at(&octets, 16),
        number_at(&octets, 24),
    ]
}

/// Returns eight octets of a digest as a number.
fn number_at(octets: &[u8; 32], at: usize) -> u64 {
    let mut number = [0; 8];
    for (to, from) in number.iter_mut().zip(octets.iter().skip(at)) {
        *to = *from;
    }
    u64::from_be_bytes(number)
}
