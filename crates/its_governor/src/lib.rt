//! Bounds on what a station sends (EN 302 636-4-1, in this profile).
//!
//! A `Governor` decides what goes out of a station. What a station would forward passes a token
//! bucket for all forwarded frames, one for the packet's source, and a greatest hop limit. Own
//! packets pass a bucket of their own. A frame that does not pass is not sent, and is counted. The
//! reception is otherwise as the station made it.
//!
//! While the bucket of all forwarded frames holds less than four fifths of its burst, it is under
//! pressure, if there is a limit per source too. Then a frame passes only if its source was known
//! before, is within its share, and the frame's turn has come (`may_share`).
//!
//! A caller asks `judge` about each packet that its station accepted, and `is_over_rate` before each
//! own packet. A frame that may wait is asked about twice: `admits` when its packet is accepted, and
//! `forward` when it is released. `its_unit` does so.
//!
//! - **The bound.** In every list of calls, at most `burst + per_second * t / 1000` frames are
//!   forwarded in each stretch of `t` milliseconds (`laws`: `forwards_are_bounded`).
//! - **Time.** The buckets go by the times of the calls. A call that the station refuses for its
//!   time changes no bucket.
//! - **Beacons** pass no bucket: a station sends one per 3000 ms at most.
//! - **Memory** is taken by `new` alone.
//!
//! # What is proved
//!
//! The clauses hold for every governor, every packet and every time. A copy has the same source, sequence
//! number and time stamp (`is_same_packet`).
//!
//! The laws (`laws`) are about every list of calls in which each call changes the limits as the calls of a
//! unit do (`after_call`, `after_refusal`): with whatever frames, secured or not, and whatever answers of
//! the station. Isolation of sources (`its_station`) ends here: sources share the bucket of all
//! forwarded frames, and the memory of deliveries. Under pressure each has a share of the bucket
//! (`shares_are_kept`), and new sources take nothing of its lower four fifths
//! (`new_sources_take_nothing`).
//!
//! # Only tested
//!
//! - `test_units::governor`: that a storm among three stations ends within its bound and goes on
//!   without limits; that a source has 0.8 of its share in a flood, and that units do not choose in
//!   step; that calls succeed if memory is there.
#![tactic(auto)]

mod bucket;
mod governor;
pub mod laws;
mod memory;
mod rate;
mod receiver;
mod shares;
mod sources;

pub use bucket::Bucket;
pub use governor::{Accepted, Governor, Passed, WithheldCounts};
pub use memory::{DeliveredPacket, DeliveryMemory, PacketId};
pub use rate::{Limits, Rate};
pub use receiver::Receiver;
pub use shares::{SharedFrame, Shares};
pub use sources::{SourceBuckets, SourceDraw};
