//! Frames of the link layer, and captures of them.
//!
//! # What is proved
//!
//! - `read_frame`, `read_unpadded`, `retarget`, `Counted` and `CaptureWriter::put` take no memory,
//!   by their types. `next`, `next_into`, `write_frame` and `relay_frame` make at most one
//!   allocation. Nothing after that of `relay_frame` can fail.
//! - Clauses on devices speak of the octets that a slice, a vector or a cursor tells. For a file or
//!   a socket only the count of failed calls is known.
//!
//! # Only tested
//!
//! - `test_values::packet`: that these calls succeed if memory is there; a source and a sink that
//!   fail at each call; the octets of a frame.
//! - `checks/failures`: records from reads of one octet.
//! - `checks/station`: a frame cut to each length; the 496 frames one bit away from a GBC's (354
//!   are read) and a GAC's (354).
//! - `checks/packets`: the octets of a capture; the sentences of faults.
#![tactic(auto)]

mod building;
mod copies;
mod counted;
mod fields;
mod frame;
pub mod laws;
mod padding;
mod reader;
mod record;
mod sealing;
mod secured;
mod sink;
mod source;
mod transfer;
mod verified;
mod writer;

pub use building::{relay_frame, retarget, write_frame};
pub use copies::is_copy;
pub use counted::Counted;
pub use fields::PACKET;
pub use frame::{FrameView, read_frame};
pub use its_faults::{FrameCode, FrameFault, SecuredCode, SecuredFault};
pub use padding::{Unpadded, frame_length, read_unpadded};
pub use reader::CaptureReader;
pub use record::{CaptureFault, LONGEST_FRAME, Record};
pub use sealing::{plain_part, relay_verified, retarget_secured, seal_frame};
pub use secured::{LONGEST_SECURED_FRAME, SecuredFrameView, read_secured_frame};
pub use sink::Sink;
pub use source::Source;
pub use transfer::{fill, store};
pub use verified::VerifiedFrame;
pub use writer::CaptureWriter;
