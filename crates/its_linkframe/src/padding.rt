//! Frames that Ethernet filled up.

ghost use Rattle.std.specs.Prelude.{◌≡◌, ◌≢◌, ◌≤◌, ◌↔◌, ℕ, length, All, IsTrue};
ghost use Rattle.std.specs.Prelude.{IfOk, IfErr, IsOkAnd};
ghost use Rattle.its_model.specs.Packet.{Transmission};
ghost use Rattle.its_linkframe.specs.Frames.{EncodesFrame, transmission_of};
ghost use Rattle.its_linkframe.specs.FrameFaults.{IsFrameFault};
ghost use Rattle.its_linkframe.specs.Padding.{IsFrameEnd, IsUnpadded};

use crate::frame::{FrameView, read_beginning};
use crate::record::LONGEST_FRAME;
use its_faults::FrameFault;

/// The most octets of a frame that Ethernet fills up.
const SHORTEST: usize = 60;

/// Octets that came over Ethernet, which fills a short frame up with octets of 0, and the frame
/// that they are without these.
#[derive(Debug, Drop)]
pub struct Unpadded<'a> {
    /// The octets, without the zeros that fill a frame of at most 60 octets up. All of them, if
    /// they are no such frame.
    pub octets: &'a [u8],
    /// The frame that these octets are, or their first fault.
    pub frame: Result<FrameView<'a>, FrameFault>,
}

/// Reads octets that came over Ethernet, once: the frame in them, without the zeros that fill it
/// up.
///
/// - `octets`: the octets without the zeros that fill a frame of at most 60 octets up: all of them,
///   if they are no such frame (`IsUnpadded`).
/// - `found`, `only`, `fault`: of these octets as `read_frame`.
pub fn read_unpadded(octets: &[u8]) -> Unpadded<'_>
    ensures octets { IsUnpadded octets.now result.octets.now }
    ensures found { IfOk result.frame (λ v.
        EncodesFrame (transmission_of v) result.octets.now) }
    ensures only { (t : Transmission) → EncodesFrame t result.octets.now
        → IsOkAnd result.frame (λ v. transmission_of v ≡ t) }
    ensures fault { IfErr result.frame (IsFrameFault result.octets.now) }
{
    let (frame, length) = match read_beginning(octets) {
        Ok(read) => read,
        Err(fault) => {
            return Unpadded {
                octets,
                frame: Err(fault),
            };
        }
    };
    if length == octets.len() {
        return Unpadded {
            octets,
            frame: Ok(frame),
        };
    }
    if octets.len() <= SHORTEST && are_zero(&octets[length..]) {
        return Unpadded {
            octets: &octets[..length],
            frame: Ok(frame),
        };
    }
    Unpadded {
        octets,
        frame: Err(FrameFault::Trailing),
    }
}

/// The length of the frame that the octets begin with (there is one at most), and otherwise 0. What
/// follows it isn't checked.
pub fn frame_length(octets: &[u8]) -> usize
    ensures found { result ≢ 0 → IsFrameEnd octets.now result }
    ensures only { (n : ℕ) → IsFrameEnd octets.now n → result ≡ n }
    ensures within { result ≤ length octets.now }
{
    match read_beginning(&octets[..octets.len().min(LONGEST_FRAME)]) {
        Ok((_, length)) => length,
        Err(_) => 0,
    }
}

/// Whether the octets are all 0.
fn are_zero(octets: &[u8]) -> bool
    ensures { IsTrue result ↔ All (λ b. b ≡ 0) octets.now }
{
    octets.iter().all(|octet| *octet == 0)
}
