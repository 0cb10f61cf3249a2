//! Scenarios: reads the stations, the radio model and the events of a TOML document for a world.
//! Each number is in its range, by the type of a scenario.
//!
//! # What is proved
//!
//! For an area without a centre, the clause `says` has shape and measures. That its centre is the
//! position of its station is only tested. MIDs are compared by `refuse_shared` of `its_world`,
//! whose clause `refused` says which two stations are named.
//!
//! # Only tested
//!
//! - `cases/scenario.md`, `cases/reading.md`: each refusal and its sentence, with line and column
//!   in a text that is not TOML; the order of keys (each key missing and with each of its bad
//!   values, all before it valid and all after it bad); each key at both ends of its range;
//!   defaults, letter cases, ignored keys; each action and each shape.
//! - `cases/around.md`, `checks/air`: areas around their stations.
//! - `checks/failures`: each allocation that fails.
//! - `cases/scenario.md`: which of several bad keys is refused first, and the word that was meant.
//!
//! # By review
//!
//! Linear time in the number of stations.
#![tactic(auto)]

mod contention;
mod document;
mod event_tables;
pub mod events;
mod fault;
mod found;
mod part;
mod places;
mod position;
mod reading;
mod reason;
mod scenario;
mod settings;
mod stations;
mod table_keys;
mod tables;
mod timeline;
mod unknown;

pub use fault::{DocumentFault, ScenarioFault};
pub use found::FoundValue;
pub use part::Part;
pub use position::TomlFault;
pub use reading::{AirTable, Reading};
pub use reason::FaultReason;
pub use scenario::{MOST_STATIONS, Scenario};
pub use timeline::{AirTimeline, MovesTimeline, PlainTimeline, Timeline};
pub use unknown::{Misspelled, Tip, UnknownKey};
