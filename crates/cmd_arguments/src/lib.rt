//! The arguments of the program: its commands with their arguments, as help shows them, and how
//! their values are read.
//!
//! # What is proved
//!
//! `value_in` is the text of an option's first value, `texts_in` has those of all its uses. Nothing
//! is said about a text that clap refused before.
//!
//! # Only tested
//!
//! - `cases/choosing.md`, `checks/stats`: which kinds `--kind` names, each of the 15 sets.
//! - `cases/conditions.md`: the values of `--to-mac`, `--hops`, `--class`, `--number`, `--area`,
//!   `--any` and `--not`.
//! - `cases/`: which time a time of UTC is; that a port given twice, and a 65th, is refused; of
//!   which of several options a fault is; suggestions (`BadArgument::tip`); the texts of help and
//!   of refused arguments.
//! - `checks/terminal`, on pseudo-terminals: colours, column heads, explanations, progress, and
//!   that a pipe has none of it.
#![tactic(auto)]

mod against;
mod bad_argument;
mod choosing;
mod conditions;
mod contention;
mod following;
mod forms;
mod judging;
mod station;
pub mod terminal;

pub use against::{against_of, limiting_of};
pub use bad_argument::BadArgument;
pub use choosing::{
    count_of, fields_of, ports_of, selection_of, selection_to_any_port, time_of, times_of,
};
pub use contention::rule_of;
pub use following::following_of;
pub use forms::{add_commands, command_named};
pub use judging::{claims_of, duties_of, printing_of};
pub use station::StationArguments;
