//! The events of a scenario, and how they are run.

ghost use Rattle.std.specs.Prelude.{All};
ghost use Rattle.sim_scenario.specs.Events.{FitsAddressed, FitsEvent, FitsFileEvent};

use crate::events::{AddressedEvent, FileEvent};
use its_world::Event;
use sim_settings::{Air, Moves, Traffic};

/// The events of a scenario, in the order of the document, and how they are run. Each event has a
/// station from 0 to 65535, a time from 0 to 2^63 - 1, a speed in its range and a frame of 0 to
/// 4294967295. There may be no such station or frame.
#[derive(Debug, Drop, PartialEq, Eq)]
pub enum Timeline {
    /// Without a radio model. Only events deliver frames.
    Plain(PlainTimeline),
    /// In a radio model. Frames go from station to station by themselves.
    Air(AirTimeline),
    /// In a radio model, while stations move by the rows of a file.
    Moves(MovesTimeline),
}

/// The events of a scenario without a radio model.
#[derive(Debug, Drop, PartialEq, Eq)]
pub struct PlainTimeline {
    /// The events.
    pub events: Vec<Event>,
    ghost in_range: { All FitsEvent events.items },
}

/// The events of a scenario in a radio model.
#[derive(Debug, Drop, PartialEq, Eq)]
pub struct AirTimeline {
    /// The radio model.
    pub air: Air,
    /// What each station sends by itself.
    pub every: Vec<Traffic>,
    /// The events and leaves.
    pub events: Vec<FileEvent>,
    ghost in_range: { All FitsFileEvent events.items },
}

/// The events of a scenario in a radio model, while stations move by the rows of a file.
#[derive(Debug, Drop, PartialEq, Eq)]
pub struct MovesTimeline {
    /// The radio model.
    pub air: Air,
    /// What each station sends by itself.
    pub every: Vec<Traffic>,
    /// How the rows are read, and what stations they make.
    pub moves: Moves,
    /// The events and leaves, each for a station of the scenario or for an id.
    pub events: Vec<AddressedEvent>,
    ghost in_range: { All FitsAddressed events.items },
}

impl Timeline {
    /// Returns the radio model, if there is one.
    pub fn air(&self) -> Option<&Air> {
        match self {
            Timeline::Plain(_) => None,
            Timeline::Air(timeline) => Some(&timeline.air),
            Timeline::Moves(timeline) => Some(&timeline.air),
        }
    }
}
