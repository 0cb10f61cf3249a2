//! Copies of a frame: the same frame, sent to all by another station.

ghost use Rattle.std.specs.Prelude.{◌≡◌, ◌<◌, length};
ghost use Rattle.its_linkframe.specs.Copies.{is_copy, same_but_sender};

use crate::fields::{ETHER_TYPE, LIFETIME, SOURCE, TARGET};
use its_gnvalue::Mac;

/// Whether a frame that came is a copy of one that waits to be sent: it is sent to all, not by the
/// station that has this link address, and is equal to the frame that waits in all octets but those
/// of the link sender and the lifetime. Both may be secured: then the octets of their messages
/// decide. It takes no memory.
pub fn is_copy(held: &[u8], frame: &[u8], own: Mac) -> bool
    ensures { result ≡ is_copy own held.now frame.now }
{
    if held.len() != frame.len() {
        return false;
    }
    if frame.len() <= LIFETIME {
        return false;
    }
    let all = Mac::BROADCAST.octets();
    if frame[TARGET..SOURCE] != all[..] {
        return false;
    }
    let sender = own.octets();
    if frame[SOURCE..ETHER_TYPE] == sender[..] {
        return false;
    }
    is_same_but_sender(held, frame)
}

/// Whether two frames are equal in all octets but those of the link sender and the lifetime.
fn is_same_but_sender(held: &[u8], frame: &[u8]) -> bool
    requires held { 16 < length held.now }
    requires frame { 16 < length frame.now }
    ensures { result ≡ same_but_sender held.now frame.now }
{
    if held[TARGET..SOURCE] != frame[TARGET..SOURCE] {
        return false;
    }
    if held[ETHER_TYPE..LIFETIME] != frame[ETHER_TYPE..LIFETIME] {
        return false;
    }
    held[LIFETIME + 1..] == frame[LIFETIME + 1..]
}
