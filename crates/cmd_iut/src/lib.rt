//! The claims about a station under test and about a capture: the station file of `verdict`, and
//! the claims that are assumed in addition.
//!
//! # What is proved
//!
//! A file that is refused ends the command with status 1. A file that can't be read, or memory that
//! runs out, ends it with another status (`station_fault_status`).
//!
//! # Only tested
//!
//! `cases/verdict.md`: the keys, their ranges and defaults, the faults in their order, and the first
//! line of a report.
#![tactic(auto)]

mod claim;
mod fault;
mod first_line;
mod station_file;
mod table_keys;

pub use claim::{Claim, ClaimSet};
pub use fault::StationFault;
pub use first_line::{Premises, PremisesObject};
pub use station_file::StationFile;
