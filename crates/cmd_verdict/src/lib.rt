//! The command `verdict`: does a station behave? Its frames in a capture are judged by the rules of
//! EN 302 636-4-1.
//!
//! # What is proved
//!
//! Each verdict is that of a judge of `its_duties`, and keeps its result (`Case::of`, `Outcome::of`).
//! Fails are always printed (`Printing::has`). The status is that of the result (`status_of`).
//!
//! # Only tested
//!
//! - `cases/verdict.md`: texts, objects, statuses.
//! - `checks/verdict`: which records are judged, and when. What is found of them is that of `cap_tap`.
#![tactic(auto)]

mod area_cases;
mod case;
mod command;
mod counts;
mod duties;
mod forwarded_cases;
mod frame_cases;
mod judge;
mod once_case;
mod owed_case;
mod own_cases;
mod relay_cases;
mod reporter;
mod seen_reader;
mod text;

pub use cmd_iut::{Claim, ClaimSet};
pub use command::{VerdictOptions, verdict_file};
pub use duties::{DutySet, UnknownDuty};
pub use reporter::Printing;
