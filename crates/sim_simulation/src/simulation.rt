//! The run of events, one after the other.

ghost use Rattle.std.specs.Prelude.{◌≤◌, [], All, IfOk, length, map};
ghost use Rattle.its_world.specs.Events.{IsConfig, config_of, event_of};
ghost use Rattle.its_world.specs.Mids.{AreApart};
ghost use Rattle.sim_scenario.specs.Events.{FitsEvent};
ghost use Rattle.sim_simulation.specs.Simulated.{IsSimulated};

use crate::fault::SimulationFault;
use crate::sink::EventSink;
use crate::step::do_event;
use its_model::laws::every_schedule;
use its_world::{Config, Event, World};
use std::alloc::Global;

/// Runs events over at most 65535 stations, and passes each to a sink when it is done. Returns the
/// world after the last event.
///
/// The world is the one that begins with these stations and in which all these events were done.
/// The sink took exactly the events and entries of this run, in order. The laws over every schedule
/// hold for it: a geobroadcast reaches its stations if its deliveries are made.
///
/// The numbers of each station and of each event have to be in their ranges, and no two stations
/// may have the same MID. If an allocation or the sink failed, the sink has the events before.
///
/// - its clause: if it succeeds, the world is that of the model's run of exactly these events, the
///   laws over every schedule hold for it, and the sink took exactly these events and the model's
///   entries, in order (`IsSimulated`).
pub fn simulate_into<S: EventSink>(
    alloc: Global,
    stations: &[Config],
    events: &[Event],
    sink: &mut S,
) -> Result<World, SimulationFault>
    requires configs { All IsConfig stations.now }
    requires count { length stations.now ≤ 65535 }
    requires apart { AreApart stations.now }
    requires ranges { All FitsEvent events.now }
    ensures { S.Took sink.old [] [] → IfOk result (λ world.
        IsSimulated (map config_of stations.now) (map event_of events.now) world
        (S.Took sink.new)) }
{
    // A law, for the proof alone.
    every_schedule();
    let mut world = World::of_apart(alloc, stations)?;
    for (number, event) in events.iter().enumerate() {
        do_event(&mut world, number, event, sink)?;
    }
    Ok(world)
}
