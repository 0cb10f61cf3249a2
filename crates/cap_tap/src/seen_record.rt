//! The records of a capture, as they are judged.

use crate::kept_size::kept_size;
use crate::link_header::LinkFrame;
use its_duties::{Claims, FrameSource, RecordFacts, Role, role_of};
use its_linkframe::{FrameFault, FrameView, read_frame};

/// A record of the capture.
#[derive(Drop)]
pub struct SeenRecord {
    /// How many records are before it in the file.
    pub number: u64,
    /// Its time, in nanoseconds.
    pub stamp: u64,
    /// The number of its interface.
    pub interface: u32,
    /// The octets of its frame as Ethernet has them: none if not even the link addresses are read.
    pub octets: Vec<u8>,
    /// The capture doesn't have all octets of the frame.
    pub cut: bool,
    /// The capture has the link target.
    pub known_target: bool,
    /// The header of IEEE 802.11, if it has one.
    pub link: Option<LinkFrame>,
    /// When the link sent the frame again, or before this.
    pub repeats: Vec<u64>,
}

impl SeenRecord {
    /// The frame that it is, or why it is not one. One that is cut is not.
    pub fn frame(&self) -> Result<FrameView<'_>, FrameFault> {
        if self.cut {
            return Err(FrameFault::Short);
        }
        read_frame(self.octets.as_slice())
    }

    /// What it is to the station, with the frame that it is.
    pub fn role(&self, claims: &Claims, frame: &Result<FrameView<'_>, FrameFault>) -> Role {
        let facts = RecordFacts {
            interface: self.interface,
            cut: self.cut,
            known_target: self.known_target,
            frame: match frame {
                Ok(frame) => FrameSource::Frame(frame.packet.vector().address()),
                Err(fault) => FrameSource::NoFrame(*fault),
            },
        };
        role_of(claims, &facts, self.octets.as_slice())
    }

    /// How many octets are kept of it.
    pub fn size(&self) -> usize {
        kept_size(self.octets.len(), self.repeats.len())
    }

    /// Whether it is of IEEE 802.11.
    pub fn is_wireless(&self) -> bool {
        self.link.is_some()
    }

    /// Whether its retry bit is set.
    pub fn is_retry(&self) -> bool {
        match self.link {
            Some(link) => link.retry,
            None => false,
        }
    }
}

/// The nanoseconds of a millisecond.
pub const NANOS: u64 = 1_000_000;
