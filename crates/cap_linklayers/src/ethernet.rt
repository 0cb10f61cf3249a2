//! Ethernet (IEEE 802.3), with the tags that IEEE 802.1Q puts before the type.

ghost use Rattle.std.specs.Prelude.{◌≡◌, ◌+◌, ◌≤◌, ◌⊎◌, IfOk, length, drop, Ok};
ghost use Rattle.byteorder.specs.Endian.{big_number};
ghost use Rattle.cap_linklayers.specs.Ethernet.{identifier_in, is_tag as is_tag_protocol, type_in};

use crate::link::LinkFault;
use byteorder::{BigEndian, ByteOrder};

/// The position of the type in a frame without tags: after the two addresses.
const UNTAGGED: usize = 12;

/// The position of the type after one tag. A tag has four octets.
const ONE_TAG: usize = 16;

/// The position of the type after two tags.
const TWO_TAGS: usize = 20;

/// The size of a type, in octets.
const TYPE: usize = 2;

/// The protocol of a tag of a customer.
const CUSTOMER: u16 = 0x8100;

/// The protocol of a tag of a service.
const SERVICE: u16 = 0x88a8;

/// The protocol that tags of services had before IEEE 802.1ad.
const OLD_SERVICE: u16 = 0x9100;

/// The control of the first tag, whose lowest bits are the VLAN identifier.
const CONTROL: usize = 14;

/// One more than the greatest VLAN identifier.
const IDENTIFIERS: u16 = 4096;

/// Returns where the type of the frame begins. At most two tags are skipped. Returns `Short` if the
/// record ends before the type that follows a tag. Without a tag the record may end anywhere.
#[tactic(auto, unfolding(crate::specs::Ethernet::ethernet_format, its_formats::specs::Format::number_at, its_formats::specs::Format::octets_at))]
pub(crate) fn type_at(octets: &[u8]) -> Result<usize, LinkFault>
    ensures place { result ≡ type_in octets.now }
    ensures low { IfOk result (λ at. 12 ≤ at) }
    ensures inside { IfOk result (λ at. (at ≡ 12) ⊎ (at ≤ length octets.now)) }
{
    if octets.len() < UNTAGGED + TYPE || !is_tag(octets, UNTAGGED) {
        return Ok(UNTAGGED);
    }
    if octets.len() < ONE_TAG + TYPE {
        return Err(LinkFault::Short);
    }
    if !is_tag(octets, ONE_TAG) {
        return Ok(ONE_TAG);
    }
    if octets.len() < TWO_TAGS + TYPE {
        return Err(LinkFault::Short);
    }
    Ok(TWO_TAGS)
}

/// Whether the protocol that begins at this octet is that of a tag.
fn is_tag(octets: &[u8], at: usize) -> bool
    requires small { at ≤ 16 }
    requires inside { at + 2 ≤ length octets.now }
    ensures { result ≡ is_tag_protocol (big_number 2 (drop at octets.now)) }
{
    let protocol = BigEndian::read_u16(&octets[at..]);
    protocol == CUSTOMER || protocol == SERVICE || protocol == OLD_SERVICE
}

/// Returns the VLAN identifier of the first tag, 0 to 4095, if the record has a whole tag.
#[tactic(auto, unfolding(crate::specs::Ethernet::identifier_format, its_formats::specs::Format::number_at, its_formats::specs::Format::octets_at))]
pub(crate) fn vlan_of(octets: &[u8]) -> Option<u16>
    ensures { identifier_in octets.now ≡ Ok result }
{
    if octets.len() < ONE_TAG || !is_tag(octets, UNTAGGED) {
        return None;
    }
    Some(BigEndian::read_u16(&octets[CONTROL..]) % IDENTIFIERS)
}
