//! How a scenario is run, by the tables that need no world: its radio model, its periodic traffic,
//! how the moves of a file are read, and what is expected of the run.
//!
//! # What is proved
//!
//! Settings are in range by their types and clauses (`Air`, `Traffic`, `Moves`): each field is the
//! value of its key, in the range that the table of keys has (`its_words`), or its default.
//!
//! # Only tested
//!
//! - `cases/scenario.md`, `cases/moving.md`: each refusal and its sentence; which of several bad keys
//!   is refused first; that the first MID is not a group's, and a port not a second one.
//! - `cases/unknown.md`: `--set`.
//!
//! # By review
//!
//! Each key that is read is looked up once.
#![tactic(auto)]

mod air;
mod air_keys;
mod air_settings;
mod expectation;
mod moves;
mod moves_keys;
mod toml_fields;
mod traffic;
mod traffic_keys;

pub use air::Air;
pub use air_keys::{read_air, read_contends};
pub use air_settings::{AIR_KEYS, AirSettings, SetAir, SettingFault, SettingReason};
pub use expectation::{Expectation, Reached, read_expectation};
pub use moves::Moves;
pub use moves_keys::read_moves;
pub use toml_fields::{TomlFields, items_of, value_of};
pub use traffic::Traffic;
pub use traffic_keys::read_traffic;
