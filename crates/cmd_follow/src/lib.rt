//! The command `follow`: which taps saw each packet, when, and which stations forwarded it.
//!
//! # What is proved
//!
//! - A record is followed if and only if it is selected (`SightingReader`: `ReadsSelected`).
//! - At most 65,536 packets are held (`Window::add`, clause `held`).
//! - A quantile is at most 1 % below the delay that it stands for (`rounded`, clauses `least`,
//!   `near`).
//! - Each packet counts as seen or as missing at a tap (`TapPackets::add`, clause `sum`). No tap
//!   counts more packets from another tap than that has (`Pair::add`, clause `ratio`).
//!
//! # Only tested
//!
//! - `cases/follow.md`: rows, tables, objects, warnings and statuses.
//! - `checks/follow`: each row and each number of the summary, against a second computation in
//!   Python over drawn runs with losses.
//! - `checks/failures`: failed writes and allocations.
#![tactic(auto)]

mod cell;
mod command;
mod delays;
mod heads;
mod key;
mod names;
mod packet;
mod row;
mod sighting;
mod standard;
mod summary;
mod tables;
mod tap;
mod warnings;
mod window;

pub use command::{FollowOptions, follow_files};
pub use key::FollowBy;
pub use row::FollowForm;
