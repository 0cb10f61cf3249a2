//! Link layers of captured records, and the frames in them.

ghost use Rattle.std.specs.Prelude.{◌≡◌, ◌+◌, ◌-◌, ◌≤◌, ◌++◌, IfOk, IfErr};
ghost use Rattle.std.specs.Prelude.{length, take, drop};
ghost use Rattle.cap_linklayers.specs.LinkLayers.{IsFrameIn, IsLinkFault, layer_number, layer_of};
ghost use Rattle.cap_linklayers.specs.LinkLayers.{IsUnchecked, IsFrameBehind, IsFaultBehind};
ghost use Rattle.cap_linklayers.specs.LinkLayers.{IsData, IsUncheckedData, link_code_of};
ghost use Rattle.cap_linklayers.specs.Ieee80211.{IsHeaderFault, joined};

use crate::cooked::{sll_start, sll2_start};
use crate::ethernet::type_at;
use crate::ieee80211::{DataHeader, has, read_header};
use crate::radiotap::{CHECK_SEQUENCE, FILLED, RadiotapHeader, read_radiotap};
use its_linkframe::{LONGEST_SECURED_FRAME, read_frame};
use std::error::Error;
use std::fmt;

/// The size of an address, and of the two addresses before a type, in octets.
const ADDRESS: usize = 6;

const ADDRESSES: usize = 12;

/// The size of a check sequence, in octets.
const CHECK: usize = 4;

/// How many octets of a record have to be kept to judge its frame. Further octets change nothing.
/// Before the type of a frame, a radiotap header has at most 65535 octets, the header of IEEE
/// 802.11 at most 36, and LLC with SNAP 6. A frame of more than 1468 octets is refused by its
/// length, and so is a secured frame of more than 2310. Another 4 octets may be a check sequence.
pub const LONGEST_RECORD: usize = 65535 + 36 + 6 + (LONGEST_SECURED_FRAME + 1) + CHECK;

/// A link layer from which records are read.
#[derive(Clone, Copy, Debug, PartialEq, Eq)]
pub enum LinkLayer {
    /// None: a record is the frame itself, without a header before it. A file with link types has
    /// such records as Ethernet.
    Bare,
    /// Ethernet: link type 1.
    Ethernet,
    /// IEEE 802.11: link type 105.
    Ieee80211,
    /// IEEE 802.11 after a radiotap header: link type 127.
    Radiotap,
    /// A Linux cooked capture, version 1: link type 113.
    Sll,
    /// A Linux cooked capture, version 2: link type 276.
    Sll2,
}

/// Why no frame can be read from a record of a link layer.
#[derive(Clone, Copy, Debug, PartialEq, Eq)]
pub enum LinkFault {
    /// L1: the record ends before the octets that its link layer needs.
    Short,
    /// L2: by these octets the frame is not one of plain data.
    Kind,
}

/// Returns the link layer with this link type, if it is one that is read.
pub fn link_layer(number: u32) -> Option<LinkLayer>
    ensures { result ≡ layer_of number }
{
    match number {
        1 => Some(LinkLayer::Ethernet),
        105 => Some(LinkLayer::Ieee80211),
        113 => Some(LinkLayer::Sll),
        127 => Some(LinkLayer::Radiotap),
        276 => Some(LinkLayer::Sll2),
        _ => None,
    }
}

impl LinkLayer {
    /// Returns its link type in pcap and pcapng. A bare frame is one of Ethernet there.
    pub fn number(self) -> u32
        ensures { result ≡ layer_number self }
    {
        match self {
            LinkLayer::Bare | LinkLayer::Ethernet => 1,
            LinkLayer::Ieee80211 => 105,
            LinkLayer::Radiotap => 127,
            LinkLayer::Sll => 113,
            LinkLayer::Sll2 => 276,
        }
    }
}

impl LinkFault {
    /// What logs and the program's lines show: `L1` or `L2`.
    pub fn code(&self) -> &'static str
        ensures { result.now ≡ link_code_of self.now }
    {
        match self {
            LinkFault::Short => "L1",
            LinkFault::Kind => "L2",
        }
    }
}

impl fmt::Display for LinkFault {
    fn fmt<W: fmt::Write>(&self, f: &mut fmt::Formatter<W>) -> fmt::Result {
        let sentence = match self {
            LinkFault::Short => "the record ends in the header of its link layer",
            LinkFault::Kind => "not an unencrypted, unfragmented data frame of its link layer",
        };
        write!(f, "{sentence}")
    }
}

impl Error for LinkFault {}

/// Puts the frame of a record together in the record's own buffer, and returns where it begins
/// there. It ends at the end of the buffer. The frame has the addresses of target and source, the
/// type, and what follows the type. Tags of Ethernet, a radiotap header and the header of IEEE
/// 802.11 are left out. For the last two a check sequence after a whole frame is left out too.
/// Octets that pad a frame stay. A cooked capture has no target address: it is the broadcast
/// address if the packet type is 1 or 2 (broadcast, multicast), and 0 otherwise. No memory is
/// allocated.
///
/// Returns `Short` or `Kind` for the first rule of the link layer that is broken. The content of
/// the buffer is then not specified.
///
/// - `frame`, `inside`: the frame of a record, from that octet of its buffer to the end
///   (`IsFrameIn`). It is all octets of a bare record. With Ethernet one or two tags are left out.
///   With IEEE 802.11 and radiotap it is the two addresses that the header names, then the type
///   after LLC with SNAP and all that follows, without a check sequence after a whole frame. With a
///   Linux cooked capture it is the target address as above, the source and type of the header, and
///   what follows the header.
/// - `fault`: the first rule of the link layer that is broken, L1 or L2 (`IsLinkFault`).
pub fn frame_start(layer: LinkLayer, octets: &mut Vec<u8>) -> Result<usize, LinkFault>
    ensures frame { IfOk result
        (λ at. IsFrameIn layer octets.old.items (drop at octets.new.items)) }
    ensures inside { IfOk result (λ at. at ≤ length octets.new.items) }
    ensures fault { IfErr result (IsLinkFault layer octets.old.items) }
{
    match layer {
        LinkLayer::Bare => Ok(0),
        LinkLayer::Ethernet => untag(octets),
        LinkLayer::Ieee80211 => unchecked_data(octets, 0, false),
        LinkLayer::Radiotap => {
            let radiotap = read_radiotap(octets.as_slice())?;
            behind_radiotap(octets, radiotap)
        }
        LinkLayer::Sll => sll_start(octets),
        LinkLayer::Sll2 => sll2_start(octets),
    }
}

/// Finds the frame of an Ethernet record, without tags.
fn untag(octets: &mut Vec<u8>) -> Result<usize, LinkFault>
    ensures frame { IfOk result
        (λ at. IsFrameIn LinkLayer.Ethernet octets.old.items (drop at octets.new.items)) }
    ensures inside { IfOk result (λ at. at ≤ length octets.new.items) }
    ensures fault { IfErr result (IsLinkFault LinkLayer.Ethernet octets.old.items) }
{
    let kind = type_at(octets.as_slice())?;
    if kind == ADDRESSES {
        return Ok(0);
    }
    let mut addresses = [0; ADDRESSES];
    addresses.copy_from_slice(&octets.as_slice()[..ADDRESSES]);
    Ok(put_before(octets, kind, &addresses))
}

/// Finds the frame that follows a radiotap header.
fn behind_radiotap(octets: &mut Vec<u8>, radiotap: RadiotapHeader) -> Result<usize, LinkFault>
    requires inside { radiotap.length ≤ length octets.old.items }
    requires bound { radiotap.length ≤ 65535 }
    ensures frame { IfOk result
        (λ at. IsFrameBehind radiotap octets.old.items (drop at octets.new.items)) }
    ensures inside { IfOk result (λ at. at ≤ length octets.new.items) }
    ensures fault { IfErr result (IsFaultBehind radiotap octets.old.items) }
{
    let filled = has(radiotap.flags, FILLED);
    if !has(radiotap.flags, CHECK_SEQUENCE) {
        return unchecked_data(octets, radiotap.length, filled);
    }
    if octets.len() < radiotap.length + CHECK {
        return Err(LinkFault::Short);
    }
    octets.truncate(octets.len() - CHECK);
    data(octets, radiotap.length, filled)
}

/// Finds the frame of IEEE 802.11 whose header begins at this octet.
fn data(octets: &mut Vec<u8>, at: usize, filled: bool) -> Result<usize, LinkFault>
    requires { at ≤ 65535 }
    ensures frame { IfOk result
        (λ start. IsData filled at octets.old.items (drop start octets.new.items)) }
    ensures inside { IfOk result (λ start. start ≤ length octets.new.items) }
    ensures fault { IfErr result (IsHeaderFault filled octets.old.items at) }
{
    let header = read_header(octets.as_slice(), at, filled)?;
    Ok(join(octets, header))
}

/// Finds the frame of IEEE 802.11 whose header begins at this octet, and leaves out a check
/// sequence after it.
fn unchecked_data(octets: &mut Vec<u8>, at: usize, filled: bool) -> Result<usize, LinkFault>
    requires { at ≤ 65535 }
    ensures frame { IfOk result
        (λ start. IsUncheckedData filled at octets.old.items (drop start octets.new.items)) }
    ensures inside { IfOk result (λ start. start ≤ length octets.new.items) }
    ensures fault { IfErr result (IsHeaderFault filled octets.old.items at) }
{
    let header = read_header(octets.as_slice(), at, filled)?;
    Ok(join_unchecked(octets, header))
}

/// Joins a frame as `join` does, and leaves out a check sequence after it.
fn join_unchecked(octets: &mut Vec<u8>, header: DataHeader) -> usize
    requires target { header.target + 6 ≤ length octets.old.items }
    requires source { header.source + 6 ≤ length octets.old.items }
    requires low { 12 ≤ header.kind }
    requires high { header.kind ≤ length octets.old.items }
    ensures frame { IsUnchecked (joined header octets.old.items) (drop result octets.new.items) }
    ensures inside { result ≤ length octets.new.items }
{
    let start = join(octets, header);
    let end = unchecked_end(&octets[start..]);
    octets.truncate(start + end);
    start
}

/// Copies the two addresses in front of the type, and returns where they begin.
fn join(octets: &mut Vec<u8>, header: DataHeader) -> usize
    requires target { header.target + 6 ≤ length octets.old.items }
    requires source { header.source + 6 ≤ length octets.old.items }
    requires low { 12 ≤ header.kind }
    requires high { header.kind ≤ length octets.old.items }
    ensures frame { drop result octets.new.items ≡ joined header octets.old.items }
    ensures inside { result ≤ length octets.new.items }
{
    let addresses = addresses_of(octets.as_slice(), header);
    put_before(octets, header.kind, &addresses)
}

/// Puts two addresses in front of the type, and returns where they begin.
fn put_before(octets: &mut Vec<u8>, kind: usize, addresses: &[u8; ADDRESSES]) -> usize
    requires low { 12 ≤ kind }
    requires high { kind ≤ length octets.old.items }
    ensures frame { drop result octets.new.items ≡ addresses.now ++ drop kind octets.old.items }
    ensures inside { result ≤ length octets.new.items }
{
    copy_before(octets.as_mut_slice(), kind, addresses)
}

/// Does the work of `put_before` on the octets of the buffer.
fn copy_before(octets: &mut [u8], kind: usize, addresses: &[u8; ADDRESSES]) -> usize
    requires low { 12 ≤ kind }
    requires high { kind ≤ length octets.old }
    ensures frame { drop result octets.new ≡ addresses.now ++ drop kind octets.old }
    ensures place { result + 12 ≡ kind }
    ensures size { length octets.new ≡ length octets.old }
{
    let start = kind - ADDRESSES;
    octets[start..kind].copy_from_slice(addresses);
    start
}

/// The two addresses, target before source.
fn addresses_of(octets: &[u8], header: DataHeader) -> [u8; ADDRESSES]
    requires target { header.target + 6 ≤ length octets.now }
    requires source { header.source + 6 ≤ length octets.now }
    ensures { result ≡ take 6 (drop header.target octets.now)
        ++ take 6 (drop header.source octets.now) }
{
    let mut addresses = [0; ADDRESSES];
    let source = &octets[header.source..header.source + ADDRESS];
    addresses[..ADDRESS].copy_from_slice(&octets[header.target..header.target + ADDRESS]);
    addresses[ADDRESS..].copy_from_slice(source);
    addresses
}

/// How many of the octets are left if a check sequence after a whole frame is left out.
fn unchecked_end(octets: &[u8]) -> usize
    ensures frame { IsUnchecked octets.now (take result octets.now) }
    ensures inside { result ≤ length octets.now }
{
    if octets.len() < CHECK {
        return octets.len();
    }
    let end = octets.len() - CHECK;
    match read_frame(&octets[..end]) {
        Ok(_) => end,
        Err(_) => octets.len(),
    }
}
