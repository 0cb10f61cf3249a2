//! What a run reports besides its lines: how far each packet for an area came at the stations that
//! it is for, receptions that met a full location table, what is doubtful about the run, and the
//! result files, with one row per packet for an area, per station or per second.
//!
//! # What is proved
//!
//! Inside the crate: an event is not run if and only if it comes after `until` or after a bad row
//! (`WhyLate::of`).
//!
//! The air time of a frame is added to its second, and to its interval of 100 ms; a frame of a
//! later interval starts a new sum (`busy`, `first`, `more`, `dense` of `StationLoad::add`).
//!
//! A doubt is reported if there is one: without one nothing is written (`none` of
//! `Doubts::report`).
//!
//! # Only tested
//!
//! - `checks/air`: each number of each file, how far a packet came at each station, how many
//!   deliveries of it the end of the run cut off, and the least capacity of a full table, against a
//!   second computation (docs/proof/TESTS.md).
//! - `cases/results.md`, `moving.md`, `presence.md`, `unsent.md`: files that can't be written, runs
//!   that are cut short, and which events have a line.
//! - `cases/expect.md`, `missed.md`: expectations and missed packets.
//! - `cases/doubtful.md`: what is doubtful about a run, and that a right one has no doubt.
#![tactic(auto)]

mod audience;
mod busy;
mod doubts;
mod failed_events;
mod full_tables;
mod late_events;
mod load_rows;
mod open_send;
mod quantile;
mod reach;
mod results;
mod rows;
mod send_rows;
mod station_rows;
mod unsent;
mod waiting_frames;

pub use audience::{Audience, Audiences};
pub use doubts::{BeginDoubt, BusyChannel, Doubt, Doubts, MovesRead, RowsApart, WarningDoubt};
pub use failed_events::FailedEvents;
pub use full_tables::FullTables;
pub use reach::Reach;
pub use results::{ResultFiles, ResultWriters, Results};
