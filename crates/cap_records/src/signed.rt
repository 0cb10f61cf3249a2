//! Secured frames of records, read by their plain part. No signature is verified.

ghost use Rattle.std.specs.Prelude.{◌≡◌, ◌≤◌, ◌+◌, ◌-◌, IfOk, IfErr, length, take, drop};
ghost use Rattle.its_model.specs.Packet.{Transmission};
ghost use Rattle.its_linkframe.specs.Secured.{EncodesVerified, Verified};
ghost use Rattle.cap_records.specs.FoundFrames.{IsPlaced};
ghost use Rattle.cap_records.specs.RecordFrames.{traits_in};
ghost use Rattle.cap_records.specs.SignedFrames.{begins_secured, reads_secured as reads};
ghost use Rattle.cap_records.specs.SignedFrames.{HasPlain, IsUnread, inner_frame};
ghost use Rattle.cap_records.specs.SignedFrames.{HasSignedFrame, IsSignedFault, plain_octets};
ghost use Rattle.cap_records.specs.SignedFrames.{IsInnerOf, IsInnerFault};
ghost use Rattle.cap_records.specs.SignedFrames.{IsUnsecuredIn, IsUnsecuredFault};

use crate::choosing::{Traits, kind_of_standard};
use crate::found::{FoundFrame, FramePlace};
use crate::frame::find_on;
use crate::messages::{HeaderInfo, read_message};
use crate::refusal::RecordFault;
use cap_pcap::{LinkLayer, RecordHeader, frame_start};
use its_btp::split;
use its_linkframe::{PACKET, VerifiedFrame, read_secured_frame};

/// Octets of a frame: where its type is, and where the message of a secured one begins.
const TYPE: usize = 12;

const MESSAGE: usize = 18;

/// The type of GeoNetworking.
const TYPE_HIGH: u8 = 0x89;

const TYPE_LOW: u8 = 0x47;

/// The first octet of a secured packet: version 1, next header 2.
const SECURED: u8 = 0x12;

/// The first octet of an unsecured packet: version 1, next header 1.
const UNSECURED: u8 = 0x11;

/// Where the plain part of a secured frame is, and what the message says about it.
#[derive(Clone, Copy, Debug, PartialEq, Eq)]
pub struct PlainPart {
    /// Where it begins in the frame.
    pub start: usize,
    /// How many octets it has.
    pub length: usize,
    /// What the header info says. Unsecured data has none.
    pub info: Option<HeaderInfo>,
}

impl PlainPart {
    /// The octets of the plain part, in the frame that it was found in.
    pub fn octets(self, frame: &[u8]) -> &[u8]
        requires { self.start + self.length ≤ length frame.now }
        ensures { result.now ≡ plain_octets frame.now self }
    {
        &frame[self.start..self.start + self.length]
    }
}

/// What is known about a secured frame besides the packet inside.
#[derive(Clone, Copy, Debug, PartialEq, Eq)]
pub struct SecuredFacts {
    /// How many octets the frame has.
    pub length: usize,
    /// What the header info says. Unsecured data has none.
    pub info: Option<HeaderInfo>,
}

/// Whether a frame is read as a secured one: its octets 12 to 14 are 89 47 12.
fn is_secured(frame: &[u8]) -> bool
    ensures { result ≡ begins_secured frame.now }
{
    frame.len() > PACKET
        && frame[TYPE] == TYPE_HIGH
        && frame[TYPE + 1] == TYPE_LOW
        && frame[PACKET] == SECURED
}

/// Whether a frame is read as a secured one: if `signed` says that these are read by their plain part.
pub fn reads_secured(signed: bool, frame: &[u8]) -> bool
    ensures { result ≡ reads signed frame.now }
{
    signed && is_secured(frame)
}

/// Finds the plain part of a secured frame.
///
/// `Signed` with L1, L2, L3 or L5 if the octets aren't a secured frame, and `Message` with E1 or E2
/// if its message can't be read.
pub fn find_plain(frame: &[u8]) -> Result<PlainPart, RecordFault>
    ensures found { IfOk result (HasPlain frame.now) }
    ensures behind { IfOk result (λ part. 18 ≤ part.start) }
    ensures inside { IfOk result (λ part. part.start + part.length ≤ length frame.now) }
    ensures fault { IfErr result (IsUnread frame.now) }
{
    let secured = read_secured_frame(frame)?;
    let message = read_message(secured.message())?;
    Ok(PlainPart {
        start: MESSAGE + message.start(),
        length: message.plain().len(),
        info: message.info(),
    })
}

/// Puts the inner frame of the secured frame that begins at this octet together in front of its
/// plain part: link addresses, type, Basic Header with next header 1, plain part.
pub fn bring_inner(octets: &mut Vec<u8>, start: usize, plain: &PlainPart) -> FramePlace
    requires behind { 18 ≤ plain.now.start }
    requires inside { start + plain.now.start + plain.now.length ≤ length octets.old.items }
    ensures order { result.start ≤ result.end }
    ensures inside { result.end ≤ length octets.new.items }
    ensures inner { take (result.end - result.start) (drop result.start octets.new.items)
        ≡ inner_frame (drop start octets.old.items) plain.now }
{
    let begin = start + plain.start - MESSAGE;
    octets.copy_within(start..start + MESSAGE, begin);
    octets[begin + PACKET] = UNSECURED;
    FramePlace {
        start: begin,
        end: begin + MESSAGE + plain.length,
    }
}

/// Returns the octets from this position on.
pub(crate) fn rest(octets: &Vec<u8>, start: usize) -> &[u8]
    requires { start ≤ length octets.now.items }
    ensures { result.now ≡ drop start octets.now.items }
{
    &octets.as_slice()[start..]
}

/// Finds the frame of a record as `frame_of` does. For a secured frame it finds the inner frame,
/// which is put together among the octets.
///
/// A secured frame is rejected with the faults of `find_plain`, then with L6 if the plain part has
/// no packet, or L4 if octets follow the packet.
pub(crate) fn signed_frame_of(
    head: &RecordHeader,
    octets: &mut Vec<u8>,
) -> Result<FoundFrame, RecordFault>
    ensures frame { IfOk result (λ f. (t : Transmission)
        × HasSignedFrame head.now octets.old.items t f.secured × IsPlaced octets.new.items t f.place) }
    ensures fault { IfErr result (IsSignedFault head.now octets.old.items) }
{
    let layer = head.whole_layer()?;
    let start = frame_start(layer, octets)?;
    if is_secured(rest(octets, start)) {
        find_inner(octets, start)
    } else {
        find_unsecured(layer, octets, start)
    }
}

/// Finds the inner frame of the secured frame that begins at this octet, and puts it together among
/// the octets.
fn find_inner(octets: &mut Vec<u8>, start: usize) -> Result<FoundFrame, RecordFault>
    requires { start ≤ length octets.old.items }
    ensures frame { IfOk result (λ f. (t : Transmission)
        × IsInnerOf (drop start octets.old.items) t f.secured × IsPlaced octets.new.items t f.place) }
    ensures fault { IfErr result (IsInnerFault (drop start octets.old.items)) }
{
    let length = rest(octets, start).len();
    let plain = find_packet(rest(octets, start))?;
    let place = bring_inner(octets, start, &plain);
    let info = plain.info;
    let secured = Some(SecuredFacts { length, info });
    Ok(FoundFrame { place, secured })
}

/// Finds the unsecured frame in what this link layer carried, which are the octets from this one on.
pub(crate) fn find_unsecured(
    layer: LinkLayer,
    octets: &Vec<u8>,
    start: usize,
) -> Result<FoundFrame, RecordFault>
    requires { start ≤ length octets.now.items }
    ensures frame { IfOk result (λ f. (t : Transmission)
        × IsUnsecuredIn layer (drop start octets.now.items) t f.secured
        × IsPlaced octets.now.items t f.place) }
    ensures fault { IfErr result (IsUnsecuredFault layer (drop start octets.now.items)) }
{
    find_on(layer, octets.as_slice(), start)
}

/// Finds the plain part of a secured frame, which has to be a packet.
fn find_packet(frame: &[u8]) -> Result<PlainPart, RecordFault>
    ensures found { IfOk result (HasPlain frame.now) }
    ensures behind { IfOk result (λ part. 18 ≤ part.start) }
    ensures inside { IfOk result (λ part. part.start + part.length ≤ length frame.now) }
    ensures packet { IfOk result (λ part. (v : Verified)
        × EncodesVerified v frame.now (plain_octets frame.now part)) }
    ensures fault { IfErr result (IsInnerFault frame.now) }
{
    let found = find_plain(frame)?;
    match VerifiedFrame::read(frame, found.octets(frame)) {
        Ok(_) => Ok(found),
        Err(fault) => Err(RecordFault::Signed(fault)),
    }
}

/// Returns what a secured frame is selected by: the packet in its plain part.
pub fn traits_inside(frame: &VerifiedFrame<'_, '_>) -> Traits
    ensures { result ≡ traits_in frame.now.frame }
{
    let packet = frame.packet();
    let port = match split(packet.payload()) {
        Ok((port, _, _)) => Some(port),
        Err(_) => None,
    };
    Traits {
        kind: kind_of_standard(packet.kind()),
        source: packet.vector().address().as_u64(),
        from: frame.secured().from(),
        to: frame.secured().to(),
        port,
        left: packet.left(),
        class: packet.class().octet(),
        number: packet.number(),
        area: packet.area(),
    }
}
