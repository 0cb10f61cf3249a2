//! Secured frames of one's own, and secured frames sent on: the message of a security entity in
//! place of the plain part.

ghost use Rattle.std.specs.Prelude.{◌≡◌, ◌≤◌, ◌<◌, ◌+◌, ◌⊎◌, [], length, IfOk, OnErr};
ghost use Rattle.std.specs.Prelude.{MatchOption, vec_capacity};
ghost use Rattle.its_model.specs.Packet.{relay};
ghost use Rattle.its_headers.specs.Encoding.{Encodes};
ghost use Rattle.its_headers.specs.Inner.{inner_octets};
ghost use Rattle.its_linkframe.specs.Frames.{transmission_of};
ghost use Rattle.its_linkframe.specs.Secured.{EncodesSecured, IsSecuredFrame, Secured, sealed};
ghost use Rattle.its_linkframe.specs.Secured.{basic_on_air};

use crate::building::link_header;
use crate::fields::{MESSAGE, SOURCE};
use crate::frame::FrameView;
use crate::secured::LONGEST_SECURED_FRAME;
use crate::verified::VerifiedFrame;
use its_gnvalue::{Mac, NoMemory};
use its_headers::BasicHeader;
use std::alloc::Global;

/// The plain part of a frame's packet: what follows its Basic Header, for a security entity to
/// sign.
pub fn plain_part<'a>(frame: &FrameView<'a>) -> &'a [u8]
    ensures { Encodes frame.now.packet.pdu frame.now.packet.left
        (inner_octets (basic_on_air (transmission_of frame.now)) result.now) }
{
    frame.packet.plain()
}

/// The secured frame with a frame's link addresses, lifetime and hops, and this message, which a
/// security entity made of its plain part. `None` exactly where the message is empty or the frame
/// would have over 2310 octets, which is judged before memory is taken: `NoMemory` says that the
/// one allocation, of the frame, failed.
pub fn seal_frame(
    alloc: Global,
    frame: &FrameView<'_>,
    message: &[u8],
) -> Result<Option<Vec<u8>>, NoMemory>
    ensures frame { IfOk result (λ found. MatchOption found
        ((message.now ≡ []) ⊎ (2310 < 18 + length message.now))
        (λ w. EncodesSecured (sealed (transmission_of frame.now) message.now) w.items)) }
    ensures memory { OnErr result
        ((0 < length message.now) × (18 + length message.now ≤ 2310)) }
{
    if message.is_empty() || message.len() > LONGEST_SECURED_FRAME - MESSAGE {
        return Ok(None);
    }
    let sealed = write_secured(alloc, frame.to, frame.from, frame.packet.basic(), message)?;
    Ok(Some(sealed))
}

/// The secured frame in which a verified packet goes on: other link addresses, one hop fewer left,
/// and the message that came. The packet has to have at least two hops left. `NoMemory` says that
/// the one allocation, of the frame, failed.
pub fn relay_verified(
    alloc: Global,
    to: Mac,
    from: Mac,
    frame: &VerifiedFrame<'_, '_>,
) -> Result<Vec<u8>, NoMemory>
    requires { 2 ≤ frame.now.frame.hops_left }
    ensures { IfOk result (λ w.
        EncodesSecured (sealed (relay frame.now.frame from to) frame.now.message) w.items) }
{
    let secured = frame.secured();
    let basic = BasicHeader::within(secured.lifetime(), secured.left() - 1);
    write_secured(alloc, to, from, basic, secured.message())
}

/// The secured frame of these fields.
fn write_secured(
    alloc: Global,
    to: Mac,
    from: Mac,
    basic: BasicHeader,
    message: &[u8],
) -> Result<Vec<u8>, NoMemory>
    requires some { 0 < length message.now }
    requires short { 18 + length message.now ≤ 2310 }
    ensures { IfOk result (λ w. EncodesSecured
        (record { link_target = to; link_source = from; basic = basic; message = message.now })
        w.items) }
{
    let mut frame = Vec::with_capacity(alloc, MESSAGE + message.len())?;
    fill_secured(&mut frame, to, from, basic, message);
    Ok(frame)
}

/// Writes a secured frame into an empty vector that has the room: it takes no memory.
fn fill_secured(frame: &mut Vec<u8>, to: Mac, from: Mac, basic: BasicHeader, message: &[u8])
    requires empty { frame.old.items ≡ [] }
    requires room { 18 + length message.now ≤ vec_capacity frame.old }
    requires some { 0 < length message.now }
    requires short { 18 + length message.now ≤ 2310 }
    ensures { EncodesSecured
        (record { link_target = to; link_source = from; basic = basic; message = message.now })
        frame.new.items }
{
    let Ok(()) = frame.extend_from_slice(&link_header(to, from)) else {
        unreachable!()
    };
    let Ok(()) = frame.extend_from_slice(&basic.secured_octets()) else {
        unreachable!()
    };
    let Ok(()) = frame.extend_from_slice(message) else {
        unreachable!()
    };
}

/// Gives a secured frame another target, and changes nothing else. The octets have to be one.
pub fn retarget_secured(frame: &mut [u8], to: Mac)
    requires { IsSecuredFrame frame.old }
    ensures { (s : Secured) → EncodesSecured s frame.old →
        EncodesSecured (record s { link_target = to }) frame.new }
{
    let target = to.octets();
    frame[..SOURCE].copy_from_slice(&target);
}
