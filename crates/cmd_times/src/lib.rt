//! Times as commands print them: milliseconds, dates in UTC, seconds since another time.
//!
//! # Only tested
//!
//! `cases/show.md`, `cases/verdict.md`: the texts of times, and which time a difference is from.
#![tactic(auto)]

mod date;
mod moment;

pub use date::{Date, days_in_month};
pub use moment::{Clock, Instant, Moment, Time};
