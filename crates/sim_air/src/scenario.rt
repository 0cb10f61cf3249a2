//! The run of a scenario.

ghost use Rattle.std.specs.Prelude.{◌≤◌, [], IfOk, vec_len};
ghost use Rattle.sim_air.specs.Scenarios.{IsRunOf};

use crate::fault::AirFault;
use crate::filed::run_air;
use its_world::World;
use sim_scenario::{Scenario, Timeline};
use sim_simulation::{EventSink, simulate_into};
use std::alloc::Global;

/// Runs a scenario of at most 65535 stations by its timeline, and passes each event to a sink as it
/// is done. Returns the world that the last one left.
///
/// The error is `NoRows` if its stations move by the rows of a file. `run_moves` runs such a
/// scenario. If an allocation or the sink failed, the sink has the events before.
///
/// - its clause: by the timeline: `timed` with a radio model, and what `simulate_into` promises
///   without one (`IsRunOf`). With moves it returns `NoRows`.
#[tactic(auto, using(crate::proofs::Ranges::all_in_range, crate::proofs::Ranges::all_moments))]
pub fn run_scenario<S: EventSink>(
    alloc: Global,
    scenario: &Scenario,
    sink: &mut S,
) -> Result<World, AirFault>
    requires { vec_len scenario.now.stations ≤ 65535 }
    ensures { S.Took sink.old [] [] → IfOk result (λ world.
        IsRunOf scenario.now world (S.Took sink.new)) }
{
    let stations = scenario.stations.as_slice();
    match &scenario.timeline {
        Timeline::Plain(timeline) => {
            let events = timeline.events.as_slice();
            Ok(simulate_into(alloc, stations, events, sink)?)
        }
        Timeline::Air(timeline) => run_air(
            alloc,
            stations,
            scenario.present.as_slice(),
            timeline.events.as_slice(),
            &timeline.air,
            timeline.every.as_slice(),
            scenario.contend.as_slice(),
            sink,
        ),
        Timeline::Moves(_) => Err(AirFault::NoRows),
    }
}
