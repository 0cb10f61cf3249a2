//! Scenarios.

ghost use Rattle.std.specs.Prelude.{◌≡◌, All, vec_len};
ghost use Rattle.its_world.specs.Events.{IsConfig};
ghost use Rattle.its_world.specs.Mids.{AreApart};

use crate::timeline::Timeline;
use crate::unknown::UnknownKey;
use its_world::Config;
use sim_settings::Expectation;

/// The most stations of a run: their numbers have 16 bits.
pub const MOST_STATIONS: usize = 65535;

/// Stations, events with how they are run, and what is expected, in the order of the document.
#[derive(Debug, Drop, PartialEq, Eq)]
pub struct Scenario {
    /// The stations, no two of which have the same MID.
    pub stations: Vec<Config>,
    /// Whether each of them is present at the start. Without a radio model all are.
    pub present: Vec<bool>,
    /// Whether each of them contends. Without a radio model none does.
    pub contend: Vec<bool>,
    /// The events, and how they are run.
    pub timeline: Timeline,
    /// What is expected of the run.
    pub expectations: Vec<Expectation>,
    /// The unknown keys of the document itself, of its stations and of its events, in this order.
    /// They are ignored.
    pub unknown: Vec<UnknownKey>,
    ghost configs: { All IsConfig stations.items },
    ghost apart: { AreApart stations.items },
    ghost present_or_not: { vec_len present ≡ vec_len stations },
}
