//! A world of stations, and all frames that they sent: calls and deliveries in any order, and laws
//! that hold after each of them.
//!
//! # What is proved
//!
//! Inside: a frame is delivered by contents that were read before only if they are the contents of
//! its octets (`receive`: `contents`; the invariant of `World`: `IsReadFrom`).
//!
//! The conditions: the numbers of each config in their ranges and at most 65535 stations (`new`,
//! `of_apart`), no two of which share a MID (`of_apart`); each speed in its range (`run`); a
//! frame's number below `frames()` and no lower than `released()` (`frame`). `add_station` doesn't
//! compare MIDs.
//!
//! # Only tested
//!
//! - `test_worlds`: that a world is made and runs if memory is there; with budgets of memory from
//!   none to enough, that it isn't made, or that its run ends before each of the events and goes on
//!   from there to the same log and frames; all 59049 schedules of five deliveries of a
//!   geobroadcast among three stations; released frames.
//! - `cases/reading.md`: a run of 8193 frames; how many numbers a station remembers, and of how
//!   many sources it knows.
//! - `cases/sim.md`, `cases/sim-refused.md`: printed codes and sentences.
#![tactic(auto)]

mod air;
mod config;
mod entry;
mod event;
pub mod laws;
mod mids;
mod run;
mod stations;
mod world;

pub use config::{Config, WorldFault};
pub use entry::{Entry, EntryCode, EntryFault, entry_of, frame_of};
pub use event::{Event, What};
pub use mids::refuse_shared;
pub use run::Run;
pub use stations::stations_of;
pub use world::World;
