//! What octets name that may be no frame of the profile.

ghost use Rattle.std.specs.Prelude.{◌≡◌, ◌≤◌, length, drop, slice_get};
ghost use Rattle.its_duties.specs.Seen.{number_at, source_place, named_source};

use byteorder::{BigEndian, ByteOrder};
use its_linkframe::PACKET;

/// The octets from a place on.
fn rest_from(octets: &[u8], at: usize) -> &[u8]
    requires { at ≤ length octets.now }
    ensures { result.now ≡ drop at octets.now }
{
    &octets[at..]
}

/// The packet of a frame: the octets after the link header.
pub(crate) fn packet_of(octets: &[u8]) -> &[u8]
    ensures { result.now ≡ drop 14 octets.now }
{
    if octets.len() < PACKET {
        return &[];
    }
    rest_from(octets, PACKET)
}

/// The octet at a place.
pub(crate) fn octet_at(octets: &[u8], place: usize) -> Option<u8>
    ensures { result ≡ slice_get octets.now place }
{
    octets.get(place).copied()
}

/// The number of two octets at a place.
pub(crate) fn u16_at(octets: &[u8], place: u8) -> Option<u16>
    ensures { result ≡ number_at place 2 octets.now }
{
    let at = place as usize;
    if at + 2 <= octets.len() {
        return Some(BigEndian::read_u16(rest_from(octets, at)));
    }
    None
}

/// The number of six octets at a place.
pub(crate) fn u48_at(octets: &[u8], place: u8) -> Option<u64>
    ensures { result ≡ number_at place 6 octets.now }
{
    let at = place as usize;
    if at + 6 <= octets.len() {
        return Some(BigEndian::read_u48(rest_from(octets, at)));
    }
    None
}

/// The number of eight octets at a place.
fn u64_at(octets: &[u8], place: u8) -> Option<u64>
    ensures { result ≡ number_at place 8 octets.now }
{
    let at = place as usize;
    if at + 8 <= octets.len() {
        return Some(BigEndian::read_u64(rest_from(octets, at)));
    }
    None
}

/// Where the source's address begins in a packet of this header type and sub-type.
fn source_place(header: u8, subtype: u8) -> Option<u8>
    ensures { result ≡ source_place header subtype }
{
    if header == 1 {
        return Some(12);
    }
    if header == 5 {
        if subtype == 0 {
            return Some(12);
        }
        return Some(16);
    }
    if 2 <= header && header <= 6 {
        return Some(16);
    }
    None
}

/// Returns the source that the octets of a frame name, though they may be no frame of the profile:
/// the address behind the Common Header, or behind a sequence number, by the header type. `None` if
/// there is no such address.
#[tactic(auto, unfolding(crate::specs::Seen::named_source))]
pub fn named_source(octets: &[u8]) -> Option<u64>
    ensures { result ≡ named_source octets.now }
{
    let packet = packet_of(octets);
    let Some(first) = octet_at(packet, 0) else {
        return None;
    };
    let Some(types) = octet_at(packet, 5) else {
        return None;
    };
    if first % 16 == 1 {
        return match source_place(types / 16, types % 16) {
            Some(place) => u64_at(packet, place),
            None => None,
        };
    }
    None
}
