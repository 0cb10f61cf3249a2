//! The records of a capture as commands see them: which of them are selected, which frame each has,
//! and why it is rejected.
//!
//! # What is proved
//!
//! - With `--signed` the frame of a record is the one inside a secured one (`signed_frame_of`,
//!   clause `frame`: `HasSignedFrame`), or as of `frame_of`. Octets are a secured frame if octets
//!   12 to 14 are 89 47 12. Otherwise the first fault is returned (`fault`: `IsSignedFault`): of
//!   the record, its link layer, the secured frame, its message, the packet inside.
//! - If all kinds are selected, a record whose frame a station rejects may have a frame that the
//!   standard defines outside the profile (`Selection::has_record`: `AreAnyTraits`). It has one if
//!   and only if its octets are such a whole frame, with or without Ethernet's padding. All other
//!   records are rejected with the fault that they have without this choice.
//! - `Choice::is_chosen` and `Selection::has_record` hold if and only if the record's time and
//!   frame meet all that is asked for: also all conditions of one list, at least one of a second,
//!   and none of a third (`Condition::holds`). `cmd_arguments` reads the options.
//! - A pull returns the next selected record of the file, and skips the others (`Records::next_chosen`,
//!   clause `next`: `IsNext`). Nothing is read once as many are selected as are wanted.
//! - `show`, `check` and `stats` see exactly the selected records, each with its frame
//!   (`ReadsFrame`). Cut records that are read up to the cut are not covered. They count these
//!   records, and how many of them are rejected (`Walked::after`: `counts`).
//! - `read_message` reads a message as far as its header info, or its first fault.
//!
//! # Only tested
//!
//! - `cases/signed.md`: which records `--signed` selects, and what a walk does with them; that
//!   `message_in` is what IEEE 1609.2 says, against an encoder and Wireshark.
//! - `cases/show.md`, `choosing.md`, `conditions.md`, `links.md`, `bench.md`: that a walk visits
//!   exactly the selected records.
//! - `checks/packets`: frames that were cut, at each octet.
//! - `checks/failures`: that the line of a record is printed before the next one is read from a
//!   pipe.
//!
//! # Neither proved nor tested
//!
//! Anything about signatures. They are not read.
#![tactic(auto)]

mod any_kind;
pub mod choosing;
pub mod condition;
mod counts;
mod cut;
mod found;
mod frame;
mod frames;
pub mod messages;
mod outside;
mod records;
mod refusal;
mod refused_capture;
mod selection;
mod signed;
mod walk;

pub use crate::choosing::{Choice, Kinds, Traits, kind_of_standard};
pub use crate::condition::{Condition, Conditions};
pub use counts::RecordCounts;
pub use found::{Found, FoundFrame, FoundOutside, FramePlace, SeenFrame};
pub use frame::{frame_of, read_from, traits_of};
pub use frames::{FoundRecord, FrameReader, RecordPlace};
pub use outside::OutsideFrame;
pub use records::{Pulled, RecordReader, Records};
pub use refusal::{FileFault, RecordCode, RecordFault, SIGNED_HINT};
pub use refused_capture::RefusedCapture;
pub use selection::Selection;
pub use signed::{PlainPart, SecuredFacts, bring_inner, find_plain, reads_secured, traits_inside};
pub use walk::{CaptureFile, RecordVisitor, Walked, each_record, open_records};
