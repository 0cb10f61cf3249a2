//! One event of a simulation.

ghost use Rattle.std.specs.Prelude.{◌≡◌, ◌++◌, ◌∷◌, [], List, OnOk, IfOk};
ghost use Rattle.its_model.specs.World.{Config, Event as Happening};
ghost use Rattle.its_world.specs.Entries.{Entry as LogEntry};
ghost use Rattle.its_world.specs.Events.{IsInRange, event_of, what_of};
ghost use Rattle.its_world.specs.Steps.{AreSameBut, IsKept};
ghost use Rattle.sim_simulation.specs.Simulated.{IsSimulated, IsEntryOf};

use crate::fault::SimulationFault;
use crate::record::{ContentionStep, EventRecord};
use crate::sink::EventSink;
use its_model::laws::{every_schedule, runs_go_on};
use its_world::{Entry, Event, World};

/// The contention of a run: the frames that its stations hold.
pub trait Contending {
    /// Takes an event that was done, with the world after it. Its station may hold the frame that
    /// it sent, and may cancel or drop frames that it holds.
    ///
    /// `OutOfMemory` if an allocation failed.
    fn take(&mut self, world: &World, event: &Event, entry: &Entry) -> Result<(), SimulationFault>;

    /// Returns what a station did with a frame at the last event, if anything.
    fn step(&self) -> Option<ContentionStep<'_>>;
}

/// Does an event as `do_event` does, in a run whose stations hold frames. The sink also gets what
/// the station did with a frame.
pub fn do_event_holding<S: EventSink, C: Contending>(
    world: &mut World,
    number: usize,
    event: &Event,
    held: &mut C,
    sink: &mut S,
) -> Result<Entry, SimulationFault>
    requires range { IsInRange event.now.what }
    requires kept { IsKept world.old.released (what_of event.now.what) }
    ensures run { (configs : List Config) (events : List Happening) →
        IsSimulated configs events world.old (S.Took sink.old) → OnOk result (
        IsSimulated configs (events ++ event_of event.now ∷ []) world.new (S.Took sink.new)) }
    ensures entry { (configs : List Config) (events : List Happening) →
        IsSimulated configs events world.old (S.Took sink.old) → IfOk result (λ entry.
        IsEntryOf configs events (event_of event.now) entry) }
    ensures others { AreSameBut event.now.station world.old.stations world.new.stations }
    ensures released { world.new.released ≡ world.old.released }
{
    // Laws, for the proof alone.
    every_schedule();
    runs_go_on();
    let entry = world.step(event)?;
    held.take(world, event, &entry)?;
    put_event(world, number, event, &entry, held.step(), sink)?;
    Ok(entry)
}

/// Passes a done event with this number to a sink, with its entry and with what its station did
/// with a frame. It is the only caller of a sink's `put`, which is inlined here.
#[inline(never)]
fn put_event<S: EventSink>(
    world: &World,
    number: usize,
    event: &Event,
    entry: &Entry,
    contention: Option<ContentionStep<'_>>,
    sink: &mut S,
) -> Result<(), SimulationFault>
    ensures { (events : List Happening) (log : List LogEntry) → S.Took sink.old events log →
        OnOk result (S.Took sink.new (events ++ event_of event.now ∷ [])
        (log ++ entry.now ∷ [])) }
{
    sink.put(
        world,
        &EventRecord::of(world, number, event, entry, contention),
    )
}

/// Does the event with this number, and passes it to a sink. If world and sink were those after
/// some events, they are then those after one more, and the entry is that of the event. Only the
/// event's station changes. The speed of a `MoveTo` has to be in its range, and a frame that is
/// delivered must not have been released.
///
/// `OutOfMemory` if an allocation failed. Otherwise an error is that of the sink.
#[inline(always)]
pub fn do_event<S: EventSink>(
    world: &mut World,
    number: usize,
    event: &Event,
    sink: &mut S,
) -> Result<Entry, SimulationFault>
    requires range { IsInRange event.now.what }
    requires kept { IsKept world.old.released (what_of event.now.what) }
    ensures run { (configs : List Config) (events : List Happening) →
        IsSimulated configs events world.old (S.Took sink.old) → OnOk result (
        IsSimulated configs (events ++ event_of event.now ∷ []) world.new (S.Took sink.new)) }
    ensures entry { (configs : List Config) (events : List Happening) →
        IsSimulated configs events world.old (S.Took sink.old) → IfOk result (λ entry.
        IsEntryOf configs events (event_of event.now) entry) }
    ensures others { AreSameBut event.now.station world.old.stations world.new.stations }
    ensures released { world.new.released ≡ world.old.released }
{
    // Laws, for the proof alone.
    every_schedule();
    runs_go_on();
    let entry = world.step(event)?;
    put_event(world, number, event, &entry, None, sink)?;
    Ok(entry)
}
