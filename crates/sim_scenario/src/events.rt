//! Reads the stations of a scenario and what happens at them, from keys in a TOML table or from
//! fields of another notation. Each number is in the range of its key.

mod action;
mod around;
mod around_keys;
mod end;
mod event;
mod station;
mod verb;
mod what;

pub use action::Action;
pub use around::AroundRequest;
pub use end::{AFTER_EVENTS, end_of};
pub use event::{AddressedEvent, Addressee, FileEvent, read_addressed, read_event};
pub(crate) use event::{StationEvent, read_station_event};
pub use station::{read_own_contention, read_present, read_station};
pub use verb::verb_of;
pub use what::read_what;
