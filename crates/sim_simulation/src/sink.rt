//! The sink of a simulation's events.

ghost use Rattle.std.specs.Prelude.{◌++◌, ◌∷◌, [], List, OnOk};
ghost use Rattle.its_model.specs.World.{Event as Happening};
ghost use Rattle.sim_simulation.specs.Records.{happening_in, IsRecordOf};

use crate::fault::SimulationFault;
use crate::note::Note;
use crate::record::EventRecord;
use its_world::World;

/// Takes the events of a simulation, one by one, when they are done.
pub trait EventSink {
    ghost use Rattle.its_world.specs.Entries.{Entry};

    /// What holds for a sink that took these events and these entries, in order. A sink that keeps
    /// none may say nothing.
    ghost Took: { Self → List Happening → List Entry → Type 0 };

    /// Takes an event that was done, with the world after it. The octets of the record are those of
    /// the frame that its entry names.
    ///
    /// `OutOfMemory` if an allocation failed, `Output` if a write did.
    fn put(&mut self, world: &World, done: &EventRecord<'_>) -> Result<(), SimulationFault>
        requires { IsRecordOf world.now done.now }
        ensures { (events : List Happening) (log : List Entry) → Took self.old events log
            → OnOk result (Took self.new (events ++ happening_in done.now ∷ [])
            (log ++ done.now.entry.now ∷ [])) };

    /// Whether it needs `Note::Heard`, one for each station that will receive a frame. A run makes
    /// none for a sink that doesn't. The default is `false`.
    #[inline(always)]
    fn wants_heard_notes(&self) -> bool {
        false
    }

    /// Takes a note of this time in milliseconds, with the world at that time. `Took` holds for the
    /// same events and entries as before.
    ///
    /// `OutOfMemory` if an allocation failed, `Output` if a write did.
    fn note(
        &mut self,
        _world: &World,
        _moment: u64,
        _note: &Note<'_>,
    ) -> Result<(), SimulationFault>
        ensures { (events : List Happening) (log : List Entry) → Took self.old events log
            → OnOk result (Took self.new events log) }
    {
        Ok(())
    }
}
