//! Frames read in place.

ghost use Rattle.std.specs.Prelude.{◌≡◌, ◌≤◌, ◌<◌, ◌+◌, ℕ, length, take, drop};
ghost use Rattle.std.specs.Prelude.{IfOk, IfErr, IsOkAnd};
ghost use Rattle.byteorder.specs.Endian.{big_bytes, big_number};
ghost use Rattle.its_model.specs.Packet.{Transmission};
ghost use Rattle.its_linkframe.specs.Frames.{EncodesFrame, IsFrame, transmission_of};
ghost use Rattle.its_linkframe.specs.FrameFaults.{IsFrameFault};

use crate::fields::{ETHER_TYPE, PACKET, SOURCE, TARGET};
use crate::record::LONGEST_FRAME;
use its_faults::FrameFault;
use its_gnvalue::Mac;
use its_headers::PacketView;

/// The type of GeoNetworking is 0x8947: its first octet.
pub(crate) const TYPE_HIGH: u8 = 0x89;

/// Its second octet.
pub(crate) const TYPE_LOW: u8 = 0x47;

/// A frame in the octets that it was read from.
#[derive(Debug, Drop)]
pub struct FrameView<'a> {
    /// The link address that it goes to.
    pub to: Mac,
    /// The link address that it comes from.
    pub from: Mac,
    /// Its packet.
    pub packet: PacketView<'a>,
}

/// The frame that the octets are, or their first fault, in this order: L1 under 14 octets, L2
/// another type than 0x8947, L3 over 1468 octets, L5 no packet after the type, L4 octets after the
/// packet.
///
/// - `found`, `only`: it reads exactly the frames: if it returns a view, the octets are the frame
///   of what the view says, and each frame is read.
/// - `fault`: otherwise the answer is the first fault, in the order L1, L2, L3, L5, L4; L5 has the
///   packet's first fault and its place.
#[inline(always)]
pub fn read_frame(octets: &[u8]) -> Result<FrameView<'_>, FrameFault>
    ensures found { IfOk result (λ v. EncodesFrame (transmission_of v) octets.now) }
    ensures only { (t : Transmission) → EncodesFrame t octets.now
        → IsOkAnd result (λ v. transmission_of v ≡ t) }
    ensures fault { IfErr result (IsFrameFault octets.now) }
{
    let (frame, length) = read_beginning(octets)?;
    if length < octets.len() {
        return Err(FrameFault::Trailing);
    }
    Ok(frame)
}

/// The frame that the octets begin with, and its length, or the first fault of the octets: those of
/// `read_frame` but for octets after the packet.
#[inline(always)]
pub(crate) fn read_beginning(octets: &[u8]) -> Result<(FrameView<'_>, usize), FrameFault>
    ensures within { IfOk result (λ read. read.1 ≤ length octets.now) }
    ensures found { IfOk result (λ read.
        EncodesFrame (transmission_of read.0) (take read.1 octets.now)) }
    ensures only { (n : ℕ) (t : Transmission) → length octets.now ≤ 1468 → n ≤ length octets.now
        → EncodesFrame t (take n octets.now)
        → IsOkAnd result (λ read. (read.1 ≡ n) × (transmission_of read.0 ≡ t)) }
    ensures fault { IfErr result (IsFrameFault octets.now) }
    ensures trailing { IfOk result (λ read. read.1 < length octets.now
        → IsFrameFault octets.now FrameFault.Trailing) }
{
    if octets.len() < PACKET {
        return Err(FrameFault::Short);
    }
    if octets[ETHER_TYPE] != TYPE_HIGH || octets[ETHER_TYPE + 1] != TYPE_LOW {
        return Err(FrameFault::EtherType);
    }
    if octets.len() > LONGEST_FRAME {
        return Err(FrameFault::TooLong);
    }
    let (packet, length) = PacketView::read(&octets[PACKET..])?;
    let frame = FrameView {
        to: mac_at(octets, TARGET),
        from: mac_at(octets, SOURCE),
        packet,
    };
    Ok((frame, PACKET + length))
}

impl<'a> FrameView<'a> {
    /// The frame that octets are in which `read_frame` found no fault: nothing is checked again.
    /// For a frame that many stations receive.
    #[inline(always)]
    pub fn of_frame(octets: &'a [u8]) -> FrameView<'a>
        requires { IsFrame octets.now }
        ensures { EncodesFrame (transmission_of result) octets.now }
    {
        FrameView {
            to: mac_at(octets, TARGET),
            from: mac_at(octets, SOURCE),
            packet: PacketView::of_encoding(&octets[PACKET..]),
        }
    }
}

/// The link address that begins at this octet.
#[inline(always)]
pub(crate) fn mac_at(octets: &[u8], at: usize) -> Mac
    requires { at + 6 ≤ length octets.now }
    ensures number { result ≡ big_number 6 (take 6 (drop at octets.now)) }
    ensures octets { big_bytes 6 result ≡ take 6 (drop at octets.now) }
{
    let mut address = [0; 6];
    address.copy_from_slice(&octets[at..at + 6]);
    Mac::from_octets(address)
}
