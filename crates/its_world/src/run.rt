//! Many events, one after the other.

ghost use Rattle.std.specs.Prelude.{◌≡◌, ◌<◌, ◌≤◌, List, All, map, take, length, IsTrue, IsFalse};
ghost use Rattle.its_model.specs.World.{WorldModel, Config, Event as Happening, opening, world_run};
ghost use Rattle.its_world.specs.State.{RepresentsWorld};
ghost use Rattle.its_world.specs.Events.{IsInRange, event_of, what_of};
ghost use Rattle.its_world.specs.Steps.{IsKept};
ghost use Rattle.its_world.specs.Runs.{IsRunOf, IsLawfulRunOf};

use crate::entry::Entry;
use crate::event::Event;
use crate::world::World;
use its_model::laws::{every_schedule, runs_go_on};
use std::alloc::Global;

/// The result of the events.
#[derive(Debug, Drop, PartialEq, Eq)]
pub struct Run {
    /// An entry for each event that was done, in order.
    pub log: Vec<Entry>,
    /// How many events were done.
    pub done: usize,
    /// Whether memory ran out, so that the later events weren't done.
    pub out_of_memory: bool,
}

impl World {
    /// Does the events in order, until memory runs out. Then the event for which it ran out and
    /// those after it are not done, the world is as after the events before, and `run` may be
    /// called again. The speed of each `MoveTo` has to be in its range.
    ///
    /// If the world was at the end of a run, and these events deliver no frame that was released,
    /// then they continue that run by the rules of the model. The laws over every schedule of
    /// losses, repeats and reorderings hold of the longer run:
    ///
    /// - What is delivered of a packet for an area was sent earlier to that port, for an area that
    ///   holds the receiver at delivery.
    /// - A forwarded packet is the received packet with one hop less.
    /// - No station delivers a send twice, except in three cases: as many other packets of the
    ///   source as the duplicate packet list holds came between, nothing new of the source came for
    ///   20 s, or the station restarted.
    /// - If the deliveries come and its hops suffice, a geobroadcast reaches each station of a path
    ///   on which each station receives what the one before sent. A station n links away accepts it
    ///   n delays after the send at the latest (`what_is_delivered_reaches` of `its_model`).
    ///
    /// - `run`, field `stands`: for every past run that ended in this world, the world afterwards
    ///   is that at the end of that run and then of the events that were done, if none of them
    ///   delivers a released frame: each station as the written rules have it, and each kept frame
    ///   octet for octet.
    /// - `run`, its fields on the log: for exactly these events and in their order, the log has the
    ///   entry that the written rules give each.
    /// - `run`, field `laws`: the laws of `every_schedule` hold of that very run, from its configs
    ///   on: the main theorem.
    /// - `log`, `done`, `all`, `some`: an entry for each event that was done; all are done unless
    ///   memory ran out, and then those before it.
    pub fn run(&mut self, events: &[Event]) -> Run
        requires { All (λ event. IsInRange event.what) events.now }
        ensures log { length result.log.items ≡ result.done }
        ensures done { result.done ≤ length events.now }
        ensures all { IsFalse result.out_of_memory → result.done ≡ length events.now }
        ensures some { IsTrue result.out_of_memory → result.done < length events.now }
        ensures released { self.new.released ≡ self.old.released }
        ensures run { (configs : List Config) (past : List Happening) →
            RepresentsWorld self.old (world_run (opening configs) past) →
            All (λ event. IsKept self.old.released (what_of event.what)) events.now →
            IsLawfulRunOf configs past (map event_of (take result.done events.now))
            result.log.items self.new }
    {
        // Laws, for the proof alone.
        every_schedule();
        runs_go_on();
        self.run_all(events)
    }

    /// The loop of `run`.
    fn run_all(&mut self, events: &[Event]) -> Run
        requires { All (λ event. IsInRange event.what) events.now }
        ensures log { length result.log.items ≡ result.done }
        ensures done { result.done ≤ length events.now }
        ensures all { IsFalse result.out_of_memory → result.done ≡ length events.now }
        ensures some { IsTrue result.out_of_memory → result.done < length events.now }
        ensures released { self.new.released ≡ self.old.released }
        ensures run { (w : WorldModel) → RepresentsWorld self.old w →
            All (λ event. IsKept self.old.released (what_of event.what)) events.now →
            IsRunOf w (map event_of (take result.done events.now)) result.log.items self.new }
    {
        // Laws, for the proof alone.
        runs_go_on();
        let mut log = Vec::new(self.alloc());
        for event in events {
            if log.reserve(1).is_err() {
                return stopped(log);
            }
            let Ok(entry) = self.step(event) else {
                return stopped(log);
            };
            let Ok(()) = log.push(entry) else {
                unreachable!()
            };
        }
        let done = log.len();
        Run {
            log,
            done,
            out_of_memory: false,
        }
    }

    fn alloc(&self) -> Global {
        self.alloc
    }
}

/// Returns the result of the events that were done before memory ran out.
fn stopped(log: Vec<Entry>) -> Run
    ensures log { result.log ≡ log }
    ensures done { result.done ≡ length log.items }
    ensures stopped { IsTrue result.out_of_memory }
{
    let done = log.len();
    Run {
        log,
        done,
        out_of_memory: true,
    }
}
