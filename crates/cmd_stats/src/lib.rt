//! The commands `stats` and `replay`: counts of a capture's records and of the traffic by source,
//! by port and by second, and what a station would have done with the frames.
//!
//! # What is proved
//!
//! The row of a kind or a refusal is one of the 44 of its table.
//!
//! The octets that the unit receives (`AreHeard`) are the record's own in a capture of this
//! program, otherwise the frame that its link layer gives (`IsFrameIn`), without padding. A record
//! without a frame is reported with the first rule that is broken (`HasNothing`). A record is
//! received if and only if the choice selects it (`TellsHeard`, `TellsPassed`).
//!
//! With `--signed`, a secured frame is a step of `Unit::receive_verified`.
//!
//! The unit begins with the limits of `Limits::CHANNEL` (`BeginsUnit`). Each step applies them with
//! `--limits`, and otherwise doesn't (`step_by`). Each move is made at its time, before the first
//! selected record that is not earlier (`moved`).
//!
//! With `--against`, a frame from the link address of the station under test is not received
//! (`is_sent`, `Tells`). What it sent answers the first waiting frame that is equal except for the
//! link source, and otherwise the first with the same packet (`IsCompared`). A frame waits until
//! its time is over (`missed_place`).
//!
//! # Only tested
//!
//! - `checks/stats`: every number and every line, against a second computation in Python over drawn
//!   captures, with `--top` and each set of `--kind`.
//! - `checks/tshark`: the same tables, from Wireshark's fields.
//! - `cases/stats.md`: selected records, a capture that ends early, and an empty one.
//! - `cases/signed.md`: which plain part is taken of a secured frame, and what is reported.
//! - `cases/replay.md`: lines, numbers of forwarded frames and their file; how a frame differs, and
//!   the counts.
//! - `checks/verdict`: replays against stations that obey, and with one fault each.
//! - `checks/failures`: that each line is written before the next read of standard input.
#![tactic(auto)]

mod counting;
mod kinds;
mod numbers;
mod own;
mod ports;
mod printing;
mod psids;
pub mod replay;
mod seconds;
mod sources;
mod traffic;

pub use counting::{PrintedSources, stats_file};
