//! Sentences for a person, in addition to the codes of lines.

use its_faults::{Fault as PacketFault, FaultKind, FrameFault, SecuredFault};
use std::fmt;

/// A space and a sentence in parentheses, after the code of a line. `None` prints nothing.
#[derive(Clone, Copy, Debug, PartialEq, Eq)]
pub struct Explanation<T>(pub Option<T>);

impl<T: fmt::Display> fmt::Display for Explanation<T> {
    fn fmt<W: fmt::Write>(&self, f: &mut fmt::Formatter<W>) -> fmt::Result {
        match &self.0 {
            Some(sentence) => write!(f, " ({sentence})"),
            None => Ok(()),
        }
    }
}

/// Why octets are not a frame, as a sentence. If the packet is at fault, it is the packet's
/// sentence, for example `more hops left than the maximum, at octet 10`.
#[derive(Clone, Copy, Debug, PartialEq, Eq)]
pub struct FrameReason(pub FrameFault);

impl fmt::Display for FrameReason {
    fn fmt<W: fmt::Write>(&self, f: &mut fmt::Formatter<W>) -> fmt::Result {
        match self.0 {
            FrameFault::Packet(fault) => write!(f, "{}", PacketReason(fault)),
            fault => write!(f, "{fault}"),
        }
    }
}

/// Why octets are not a packet, as a sentence. If a code has several causes, it names them all.
#[derive(Clone, Copy)]
struct PacketReason(PacketFault);

impl fmt::Display for PacketReason {
    fn fmt<W: fmt::Write>(&self, f: &mut fmt::Formatter<W>) -> fmt::Result {
        let PacketReason(fault) = self;
        let kind = fault.kind;
        write!(f, "{kind}{}, at octet {}", other_causes(kind), fault.at)
    }
}

/// Returns what else may be wrong, in addition to what the code says.
fn other_causes(kind: FaultKind) -> &'static str {
    match kind {
        FaultKind::HeaderType => ", or one that does not go with the next header",
        FaultKind::Area => ", or a circle with a second distance or an angle",
        _ => "",
    }
}

/// Why octets are not a secured frame, or not a packet with their plain part, as a sentence. If a
/// packet is at fault, it is the packet's sentence.
#[derive(Clone, Copy, Debug, PartialEq, Eq)]
pub struct SecuredReason(pub SecuredFault);

impl fmt::Display for SecuredReason {
    fn fmt<W: fmt::Write>(&self, f: &mut fmt::Formatter<W>) -> fmt::Result {
        match self.0 {
            SecuredFault::Packet(fault) | SecuredFault::Inner(fault) => {
                write!(f, "{}", PacketReason(fault))
            }
            fault => write!(f, "{fault}"),
        }
    }
}
