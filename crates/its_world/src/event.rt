//! What happens in a world.

use its_station::OwnCall;

/// What happens at a station: a call of its applications, or the delivery of a frame.
#[derive(Debug, Drop, PartialEq, Eq)]
pub enum What {
    /// The applications of the station make this call.
    Call(OwnCall),
    /// The frame of this number is delivered to the station.
    Deliver(usize),
}

/// What happens, to which station, and when.
#[derive(Debug, Drop, PartialEq, Eq)]
pub struct Event {
    /// The number of the station, from 0 in the order of the configs.
    pub station: usize,
    /// The time, in milliseconds.
    pub moment: u64,
    /// What happens.
    pub what: What,
}
