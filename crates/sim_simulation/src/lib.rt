//! A scenario run as a world of stations, with one printed line per event: text, or a JSON object
//! with the same values.
//!
//! # What is proved
//!
//! The conditions are that the speed of each move is in its range, and that there are at most 65535
//! stations. No clause says what a text is.
//!
//! A summary of the i-th packet that is sent (`IsSummary`) has a clause for each of these:
//!
//! - `send`, `moment`, `station`, `kind`, `port`: the event that sent it, by its number among the
//!   events that the tally took; the time and station of that event, and the kind and port of its
//!   request.
//! - `frames`: how many frames carry it, with its own. A packet's own frame carries it. A frame
//!   that was sent at the delivery of another carries what that one does, forwarded once more. All
//!   other frames carry no packet (`carried`).
//! - `delivered`: at how many stations a frame that carries it was delivered to the port: how many
//!   deliveries of it are the first at their station (`firsts`).
//! - `hops`: the most, over its deliveries, of how often the frame was forwarded, plus 1. 0 without
//!   a delivery.
//! - `last`: the most, over the first deliveries at each station, of the delivery's time minus the
//!   time of the send. 0 without a delivery.
//!
//! Counts and depths stop at 2^64 - 1. If no frame was released, `late` is false; a run with a
//! radio model releases frames. With `run_air` the totals and summaries are those of the events of
//! its run (`file`), which the radio model's timetable gives if no station contends (`timed`).
//!
//! # Only tested
//!
//! - `cases/sim.md`: the lines and objects, and the sentences of refusals.
//! - `checks/failures`: failed reads and allocations, full files.
//! - `cases/`, `checks/air`: `inside` of a packet; that no entry of a run accepts a released frame;
//!   what stations hold, and how it is counted (`HeldTally`).
#![tactic(auto)]

mod action;
mod entry;
mod fault;
mod json_lines;
mod note;
mod reason;
mod record;
mod simulation;
mod sink;
mod step;
pub mod tally;
mod text_lines;

pub use entry::EntryText;
pub use fault::SimulationFault;
pub use json_lines::{JsonLines, WhoContends};
pub use note::Note;
pub use reason::EntryReason;
pub use record::{ContentionStep, EventRecord};
pub use simulation::simulate_into;
pub use sink::EventSink;
pub use step::{Contending, do_event, do_event_holding};
pub use text_lines::TextLines;

/// The version of the program, which is the newest of the change log.
pub const VERSION: &str = "0.3.0";
