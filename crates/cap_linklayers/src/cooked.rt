//! Linux cooked captures, for example of the interface `any`: a header with the address of the
//! source and the type.

ghost use Rattle.std.specs.Prelude.{◌≡◌, ◌+◌, ◌≤◌, ◌++◌, IfOk, IfErr, length, take, drop};
ghost use Rattle.byteorder.specs.Endian.{big_number};
ghost use Rattle.cap_linklayers.specs.Cooked.{IsCooked, IsCookedFault, sll_format, sll2_format};
ghost use Rattle.cap_linklayers.specs.Cooked.{is_shared as shared_by, target_of};

use crate::link::LinkFault;
use byteorder::{BigEndian, ByteOrder};

/// The sizes of one address, of two addresses, and of two addresses with the type, in octets.
const ADDRESS: usize = 6;

const ADDRESSES: usize = 12;

const LINK_HEADER: usize = 14;

/// The size of a type, in octets.
const TYPE: usize = 2;

/// Packet types of frames that went to more than one station.
const BROADCAST: u16 = 1;

const MULTICAST: u16 = 2;

/// The size of a header of version 1, and the positions of its parts: packet type, address length,
/// address, type.
const SLL: usize = 16;

const SLL_PACKET: usize = 0;

const SLL_LENGTH: usize = 4;

const SLL_ADDRESS: usize = 6;

const SLL_TYPE: usize = 14;

/// The size of a header of version 2, and the positions of its parts: packet type, address length,
/// address, type.
const SLL2: usize = 20;

const SLL2_PACKET: usize = 10;

const SLL2_LENGTH: usize = 11;

const SLL2_ADDRESS: usize = 12;

const SLL2_TYPE: usize = 0;

/// Puts the frame of a record of version 1 together in its buffer, and returns where it begins.
/// Returns `Short` if the record is shorter than its header, and `Kind` if the address length is
/// not 6.
#[tactic(auto, unfolding(crate::specs::Cooked::sll_format, its_formats::specs::Format::number_at, its_formats::specs::Format::octets_at))]
pub(crate) fn sll_start(octets: &mut Vec<u8>) -> Result<usize, LinkFault>
    ensures frame { IfOk result
        (λ at. IsCooked sll_format octets.old.items (drop at octets.new.items)) }
    ensures inside { IfOk result (λ at. at ≤ length octets.new.items) }
    ensures fault { IfErr result (IsCookedFault sll_format octets.old.items) }
{
    if octets.len() < SLL {
        return Err(LinkFault::Short);
    }
    if usize::from(u16_in(octets.as_slice(), SLL_LENGTH)) != ADDRESS {
        return Err(LinkFault::Kind);
    }
    let shared = is_shared(u16_in(octets.as_slice(), SLL_PACKET));
    let header = header_of(octets.as_slice(), shared, SLL_ADDRESS, SLL_TYPE);
    Ok(put_header(octets.as_mut_slice(), SLL, &header))
}

/// Puts the frame of a record of version 2 together in its buffer, and returns where it begins.
/// Returns the faults of `sll_start`.
#[tactic(auto, unfolding(crate::specs::Cooked::sll2_format, its_formats::specs::Format::number_at, its_formats::specs::Format::octets_at))]
pub(crate) fn sll2_start(octets: &mut Vec<u8>) -> Result<usize, LinkFault>
    ensures frame { IfOk result
        (λ at. IsCooked sll2_format octets.old.items (drop at octets.new.items)) }
    ensures inside { IfOk result (λ at. at ≤ length octets.new.items) }
    ensures fault { IfErr result (IsCookedFault sll2_format octets.old.items) }
{
    if octets.len() < SLL2 {
        return Err(LinkFault::Short);
    }
    if usize::from(octets.as_slice()[SLL2_LENGTH]) != ADDRESS {
        return Err(LinkFault::Kind);
    }
    let shared = is_shared(u16::from(octets.as_slice()[SLL2_PACKET]));
    let header = header_of(octets.as_slice(), shared, SLL2_ADDRESS, SLL2_TYPE);
    Ok(put_header(octets.as_mut_slice(), SLL2, &header))
}

/// The number of the two octets at a place.
fn u16_in(octets: &[u8], at: usize) -> u16
    requires small { at ≤ 16 }
    requires inside { at + 2 ≤ length octets.now }
    ensures { result ≡ big_number 2 (drop at octets.now) }
{
    BigEndian::read_u16(&octets[at..])
}

/// Whether a frame of this packet type went to more than one station.
fn is_shared(packet_type: u16) -> bool
    ensures { result ≡ shared_by packet_type }
{
    packet_type == BROADCAST || packet_type == MULTICAST
}

/// The header of the frame: target, source and type.
fn header_of(octets: &[u8], shared: bool, source: usize, kind: usize) -> [u8; LINK_HEADER]
    requires source { source + 6 ≤ length octets.now }
    requires kind { kind + 2 ≤ length octets.now }
    ensures { result ≡ (target_of shared ++ take 6 (drop source octets.now))
        ++ take 2 (drop kind octets.now) }
{
    let addresses = addresses_of(octets, shared, source);
    let mut header = [0; LINK_HEADER];
    header[..ADDRESSES].copy_from_slice(&addresses);
    header[ADDRESSES..].copy_from_slice(&octets[kind..kind + TYPE]);
    header
}

/// The addresses of target and source, one after the other.
fn addresses_of(octets: &[u8], shared: bool, source: usize) -> [u8; ADDRESSES]
    requires { source + 6 ≤ length octets.now }
    ensures { result ≡ target_of shared ++ take 6 (drop source octets.now) }
{
    let mut addresses = [0; ADDRESSES];
    addresses[..ADDRESS].copy_from_slice(&target(shared));
    addresses[ADDRESS..].copy_from_slice(&octets[source..source + ADDRESS]);
    addresses
}

/// Returns the target's address, which the header does not have: the broadcast address if the frame
/// was sent to more than one station, and 0 otherwise.
fn target(shared: bool) -> [u8; ADDRESS]
    ensures { result ≡ target_of shared }
{
    if shared {
        [0xff, 0xff, 0xff, 0xff, 0xff, 0xff]
    } else {
        [0, 0, 0, 0, 0, 0]
    }
}

/// Puts a header in front of what begins at `end`, and returns where it begins.
fn put_header(octets: &mut [u8], end: usize, header: &[u8; LINK_HEADER]) -> usize
    requires low { 14 ≤ end }
    requires high { end ≤ length octets.old }
    ensures frame { drop result octets.new ≡ header.now ++ drop end octets.old }
    ensures place { result + 14 ≡ end }
    ensures size { length octets.new ≡ length octets.old }
{
    let start = end - LINK_HEADER;
    octets[start..end].copy_from_slice(header);
    start
}
