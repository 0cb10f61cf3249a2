//! The calls around a security entity: they find the message of a secured frame and the plain part
//! of a frame, and write the secured frame of one with its message.

ghost use Rattle.std.specs.Prelude.{◌≡◌, ◌≢◌, ◌≤◌, ◌<◌, ◌+◌, ◌⊎◌, [], ℕ, List, pos, length, drop};
ghost use Rattle.its_faults.specs.declared.frame.FrameFault.{FrameFault};
ghost use Rattle.its_faults.specs.declared.secured.SecuredFault.{SecuredFault};
ghost use Rattle.its_model.specs.Packet.{Transmission};
ghost use Rattle.its_headers.specs.Encoding.{Encodes};
ghost use Rattle.its_headers.specs.Inner.{inner_octets};
ghost use Rattle.its_linkframe.specs.FrameFaults.{IsFrameFault};
ghost use Rattle.its_linkframe.specs.Frames.{EncodesFrame};
ghost use Rattle.its_linkframe.specs.Secured.{Secured, EncodesSecured, IsSecuredFault, sealed};
ghost use Rattle.its_linkframe.specs.Secured.{basic_on_air};
ghost use Rattle.its_c.specs.Told.{Holds};

use crate::status::{BAD_ARGUMENT, BAD_FRAME, NO_MEMORY, NO_ROOM, OK};
use crate::told::hand_out;
use its_linkframe::{
    LONGEST_SECURED_FRAME, plain_part, read_frame, read_secured_frame, seal_frame,
};
use std::alloc::Global;

/// Writes where the message of a secured frame begins, and its length. Refused by `BAD_FRAME` for
/// octets that are no secured frame; both are 0 then.
#[unsafe(no_mangle)]
pub extern "C" fn geostation_message(
    frame: &[u8],
    start: &mut usize,
    message_length: &mut usize,
) -> i32
    ensures message { result ≡ pos 0 → (s : Secured) × EncodesSecured s frame.now
        × (s.message ≡ drop start.new frame.now) × (message_length.new ≡ length s.message) }
    ensures fault { result ≢ pos 0 → (result ≡ pos 3) × ((fault : SecuredFault) ×
        IsSecuredFault frame.now fault) × (start.new ≡ 0) × (message_length.new ≡ 0) }
{
    *start = 0;
    *message_length = 0;
    let Ok(secured) = read_secured_frame(frame) else {
        return BAD_FRAME;
    };
    let message = secured.message();
    *start = frame.len() - message.len();
    *message_length = message.len();
    OK
}

/// Writes where the plain part of a frame's packet begins, and its length. Refused by `BAD_FRAME`
/// for octets that are no frame; both are 0 then.
#[unsafe(no_mangle)]
pub extern "C" fn geostation_plain_part(
    frame: &[u8],
    start: &mut usize,
    plain_length: &mut usize,
) -> i32
    ensures plain { result ≡ pos 0 → (t : Transmission) × EncodesFrame t frame.now
        × Encodes t.pdu t.hops_left (inner_octets (basic_on_air t) (drop start.new frame.now))
        × (start.new + plain_length.new ≡ length frame.now) }
    ensures fault { result ≢ pos 0 → (result ≡ pos 3) × ((fault : FrameFault) ×
        IsFrameFault frame.now fault) × (start.new ≡ 0) × (plain_length.new ≡ 0) }
{
    *start = 0;
    *plain_length = 0;
    let Ok(view) = read_frame(frame) else {
        return BAD_FRAME;
    };
    let plain = plain_part(&view);
    *start = frame.len() - plain.len();
    *plain_length = plain.len();
    OK
}

/// Writes the secured frame of a frame with a message in place of its plain part, and its length.
/// Refused by `NO_ROOM` for a buffer under 2310 octets, by `BAD_FRAME` for octets that are no frame,
/// by `BAD_ARGUMENT` for a message that is empty or too long, and for memory (S5).
#[unsafe(no_mangle)]
pub extern "C" fn geostation_seal(
    alloc: Global,
    frame: &[u8],
    message: &[u8],
    out: &mut [u8],
    out_length: &mut usize,
) -> i32
    ensures room { length out.old < 2310 → result ≡ pos 21 }
    ensures no_room { result ≡ pos 21 → length out.old < 2310 }
    ensures fault { result ≡ pos 3 → (fault : FrameFault) × IsFrameFault frame.now fault }
    ensures argument { result ≡ pos 20 → ((t : Transmission) × EncodesFrame t frame.now)
        × ((message.now ≡ []) ⊎ (2310 < 18 + length message.now)) }
    ensures memory { result ≡ pos 5 →
        (0 < length message.now) × (18 + length message.now ≤ 2310) }
    ensures only { (result ≡ pos 0) ⊎ (result ≡ pos 3) ⊎ (result ≡ pos 5) ⊎ (result ≡ pos 20)
        ⊎ (result ≡ pos 21) }
    ensures sealed { result ≡ pos 0 → (t : Transmission) × EncodesFrame t frame.now
        × (w : List ℕ) × EncodesSecured (sealed t message.now) w
        × Holds out_length.new out.new w }
    ensures nothing { result ≢ pos 0 → (out_length.new ≡ 0) × (out.new ≡ out.old) }
{
    *out_length = 0;
    if out.len() < LONGEST_SECURED_FRAME {
        return NO_ROOM;
    }
    let Ok(view) = read_frame(frame) else {
        return BAD_FRAME;
    };
    match seal_frame(alloc, &view, message) {
        Ok(Some(sealed)) => {
            *out_length = hand_out(sealed.as_slice(), out);
            OK
        }
        Ok(None) => BAD_ARGUMENT,
        Err(_) => NO_MEMORY,
    }
}
