//! Values of GeoNetworking (EN 302 636-4-1): addresses, places, position vectors, lifetimes and
//! hop pairs. Each is in its range by its type, and nothing here takes memory.
//!
//! # What is proved
//!
//! Values are in range by their types: a `Mac` has 48 bits, the MID of a `GnAddress` is no group, a
//! `Place` has a latitude and a longitude in range, a `LongPv` a speed in range, and of `Hops` the
//! hops left are neither 0 nor over the greatest. So an accessor's `range`, `fits` or `individual`
//! is a fact that its caller may use.
//!
//! A constructor refuses if and only if a value is out of range (V1 to V4; V2 only after a valid
//! latitude). Otherwise the value holds what was passed. `Lifetime::millis` is the multiplier times
//! the base. A MAC is six octets, the highest first.
//!
//! No call takes memory.
//!
//! # Only tested
//!
//! - `test_values`: the printed text of addresses and the sentences of faults.
#![tactic(auto)]

mod address;
mod class;
mod fault;
mod hops;
mod lifetime;
mod place;
mod timestamp;
mod vector;

pub use address::{GnAddress, Mac};
pub use class::TrafficClass;
pub use fault::{NoMemory, NoRoom, ValueFault};
pub use hops::Hops;
pub use lifetime::Lifetime;
pub use place::Place;
pub use timestamp::newer;
pub use vector::LongPv;
