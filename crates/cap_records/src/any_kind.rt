//! The frame of a record, in the profile or outside it.

ghost use Rattle.std.specs.Prelude.{◌≡◌, ◌≤◌, ◌+◌, IfErr, IfNone, IfOk, IfSome, false, length, drop};
ghost use Rattle.its_linkframe.specs.Secured.{EncodesVerified, IsVerifiedFault, Verified};
ghost use Rattle.cap_records.specs.AnyFrames.{IsAnyFound, IsAnyIn, IsAnyInner};
ghost use Rattle.cap_records.specs.OutsideFrames.{IsFaultOfAll, IsInnerFaultOfAny};
ghost use Rattle.cap_records.specs.OutsideFrames.{IsUnsecuredFaultOfAny};
ghost use Rattle.cap_records.specs.SignedFrames.{plain_octets};

use crate::found::{Found, FoundFrame, FoundOutside, FramePlace};
use crate::outside::{is_filled, outside_length};
use crate::refusal::RecordFault;
use crate::signed::{
    PlainPart, SecuredFacts, bring_inner, find_plain, find_unsecured, reads_secured, rest,
};
use cap_pcap::{LinkLayer, RecordHeader, frame_start};
use its_linkframe::{SecuredFault, VerifiedFrame};

/// Finds the frame of a record, in the profile or outside it. With `signed`, finds the inner frame
/// of a secured frame, which is put together among the octets.
///
/// - `found`: the frame, and where it is (`IsAnyFound`).
/// - `fault`: otherwise the first fault (`IsFaultOfAll`): the one by which a station refuses it.
pub(crate) fn find_any(
    head: &RecordHeader,
    signed: bool,
    octets: &mut Vec<u8>,
) -> Result<Found, RecordFault>
    ensures found { IfOk result (IsAnyFound signed head.now octets.old.items octets.new.items) }
    ensures fault { IfErr result (IsFaultOfAll signed head.now octets.old.items) }
{
    let layer = head.whole_layer()?;
    let start = frame_start(layer, octets)?;
    if reads_secured(signed, rest(octets, start)) {
        any_inside(octets, start)
    } else {
        any_unsecured(layer, octets, start)
    }
}

/// Finds the frame in what this link layer carried, which are the octets from this one on.
fn any_unsecured(layer: LinkLayer, octets: &Vec<u8>, start: usize) -> Result<Found, RecordFault>
    requires { start ≤ length octets.now.items }
    ensures found { IfOk result
        (IsAnyIn layer (drop start octets.now.items) false octets.now.items) }
    ensures fault { IfErr result (IsUnsecuredFaultOfAny layer (drop start octets.now.items)) }
{
    let fault = match find_unsecured(layer, octets, start) {
        Ok(frame) => return Ok(Found::Profile(frame)),
        Err(fault) => fault,
    };
    match outside_length(rest(octets, start), is_filled(layer)) {
        Some(length) => Ok(Found::Outside(FoundOutside {
            place: FramePlace {
                start,
                end: start + length,
            },
            fault,
            secured: None,
        })),
        None => Err(fault),
    }
}

/// Finds the inner frame of the secured frame that begins at this octet, and puts it together among
/// the octets.
fn any_inside(octets: &mut Vec<u8>, start: usize) -> Result<Found, RecordFault>
    requires { start ≤ length octets.old.items }
    ensures found { IfOk result (IsAnyInner (drop start octets.old.items) octets.new.items) }
    ensures fault { IfErr result (IsInnerFaultOfAny (drop start octets.old.items)) }
{
    let length = rest(octets, start).len();
    let plain = match find_plain(rest(octets, start)) {
        Ok(plain) => plain,
        Err(fault) => return Err(fault),
    };
    let fault = fault_inside(rest(octets, start), plain);
    let place = bring_inner(octets, start, &plain);
    let info = plain.info;
    let secured = Some(SecuredFacts { length, info });
    let fault = match fault {
        None => return Ok(Found::Profile(FoundFrame { place, secured })),
        Some(fault) => RecordFault::Signed(fault),
    };
    match outside_length(place.octets(octets.as_slice()), false) {
        Some(_) => Ok(Found::Outside(FoundOutside {
            place,
            fault,
            secured,
        })),
        None => Err(fault),
    }
}

/// Returns why the plain part of a secured frame is not a packet of the profile. `None` if it is
/// one.
fn fault_inside(frame: &[u8], plain: PlainPart) -> Option<SecuredFault>
    requires { plain.start + plain.length ≤ length frame.now }
    ensures none { IfNone result ((v : Verified)
        × EncodesVerified v frame.now (plain_octets frame.now plain)) }
    ensures some { IfSome result (IsVerifiedFault frame.now (plain_octets frame.now plain)) }
{
    match VerifiedFrame::read(frame, plain.octets(frame)) {
        Ok(_) => None,
        Err(fault) => Some(fault),
    }
}
