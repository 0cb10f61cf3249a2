//! What tests of several crates share: a process without memory, and addresses, frames and a
//! scenario.
#![tactic(auto)]

mod frames;
mod shortage;
mod vectors;

pub use frames::{GEOBROADCAST_OCTETS, beacon_of, beacon_of_many, geobroadcast_of};
pub use shortage::{MOST, STEP, Shortage};
pub use vectors::{FIRST, GEOBROADCAST, LINK, PORT, RELAYED, SECOND, THIRD, put};
