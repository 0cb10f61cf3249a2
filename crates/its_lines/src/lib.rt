//! Lines of JSON: each makes one call of a station, or asks what it knows, and is answered by one
//! line.
//!
//! # What is proved
//!
//! A call of the station's own is the one that the word and its keys say. A key that is refused has
//! no value that it takes (`answer_line`, by `read_call` of `its_words`). `receive` with a plain
//! part is the step of `receive_verified`, and `shb` with `media` that of `send_shb_by` (`Makes`).
//!
//! Within the limits of a unit a call is its step (`unit_step`), past them the step to which no limit
//! applies (`unlimited_step`): frames wait and are cancelled in both. What is answered to a frame says
//! when the frame is due in which its packet goes on, if it waits, and whether one is cancelled
//! (`TellsReaction`). `release` is the release of the unit past the limits; within them it is no word.
//!
//! What a query is answered (`TellsQuery`): `next_beacon` is the least time at which a tick of that
//! jitter is a beacon; `look_up` the newest vector of the live source, `neighbours` the first 32
//! above an address, both at the given time or the clock's; `counts` those of the calls before;
//! `next_due` the least time at which a frame that waits is due;
//! `read_frame` whether the octets are a frame, or their first fault; `seal` the secured frame, or
//! why it is not made (`TellsSealed`).
//!
//! # Only tested
//!
//! - `cases/station.md`, `checks/station`: the text of the answers, the `source` of an accepted
//!   packet and the address that a text spells; which bad key is the first; the limits of JSON;
//!   each cut and each single bit of a frame.
//! - `checks/failures`: failed allocations.
#![tactic(auto)]

mod asked;
mod frame_octets;
mod knowing;
mod lines;
mod making;
mod members;
mod printing;
mod reading;
mod reason;
mod request;
mod response;
mod serving;
mod word;

pub use asked::{Asked, Right, Rights};
pub use frame_octets::FrameOctets;
pub use lines::LONGEST_LINE;
pub use printing::{id_length, print_response};
pub use request::{Id, LineFault, Query, QueryKey};
pub use response::{AcceptedPacket, Known, Response, SealFault};
pub use serving::{LineAnswer, Unanswered, answer_input_line, answer_line, answer_line_within};
pub use word::LineWord;
