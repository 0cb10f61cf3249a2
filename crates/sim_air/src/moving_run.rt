//! A run in which stations move by the rows of a file, while it is under way.

ghost use Rattle.std.specs.Prelude.{◌≤◌, ◌<◌, ◌^◌, All, IfSome};
ghost use Rattle.std.specs.List.Sorted.{IsNonDecreasingBy};
ghost use Rattle.std.specs.Option.{ForSome};
ghost use Rattle.std.proofs.Props.{props};
ghost use Rattle.sim_scenario.specs.Events.{FitsAddressed};
ghost use Rattle.sim_air.specs.FitsRun.{FitsRun};

use crate::departures::Departures;
use crate::frames::FrameCount;
use crate::run::Run;
use crate::vehicles::Vehicles;
use sim_moves::Row;
use sim_scenario::events::AddressedEvent;
use sim_settings::Moves;
use std::alloc::Global;

/// What a run takes from outside.
#[derive(Clone, Copy, Debug)]
pub(crate) enum Outside {
    /// The next row.
    Row,
    /// The station with this number departs, if no row of it came since.
    Departure(usize),
    /// The next event of the scenario.
    Event,
}

/// What a run takes from outside, and when.
#[derive(Clone, Copy, Debug)]
pub(crate) struct Coming {
    pub(crate) moment: u64,
    pub(crate) outside: Outside,
}

/// A run that is under way.
#[derive(Drop)]
pub(crate) struct MovingRun<'a> {
    pub(crate) alloc: Global,
    pub(crate) run: Run<'a>,
    /// The stations that the rows make.
    pub(crate) moves: &'a Moves,
    pub(crate) vehicles: Vehicles<'a>,
    pub(crate) departures: Departures,
    /// The events and leaves of the scenario, in the order in which they are taken.
    pub(crate) events: Vec<&'a AddressedEvent>,
    /// How many of these were taken.
    pub(crate) taken: usize,
    /// The next row, if there is one.
    pub(crate) row: Option<Row>,
    /// The number of its station, if a row made it. So the id is looked up once.
    pub(crate) known: Option<usize>,
    /// The last time that is run, if one is given.
    pub(crate) until: Option<u64>,
    /// The greatest time of an event or of a row that was read, and 0 without any.
    pub(crate) greatest: u64,
    pub(crate) count: FrameCount,
    ghost ranges: { All (λ a. FitsAddressed a.now) events.items },
    ghost sorted: { IsNonDecreasingBy (λ a. a.now.moment) events.items },
    ghost next: { ForSome row FitsRun },
    ghost last: { IfSome until (λ moment. moment ≤ 2 ^ 62) } by { Prim.hlevel props },
    ghost bound: { greatest < 2 ^ 63 },
}
