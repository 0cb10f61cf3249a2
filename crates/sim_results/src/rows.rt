//! The rows of a result file.

use its_world::World;
use sim_simulation::{EventRecord, Note, SimulationFault};
use std::io;
use std::io::Write;

/// The rows of a result file, which a run makes.
pub(crate) trait NumberRows {
    /// Writes the names of the columns.
    fn begin<W: Write>(&self, out: &mut W) -> io::Result<()>;

    /// Takes an event that was done, with the world after it.
    fn take<W: Write>(
        &mut self,
        world: &World,
        done: &EventRecord<'_>,
        out: &mut W,
    ) -> Result<(), SimulationFault>;

    /// Takes a note of this time in milliseconds, with the world at that time.
    fn take_note<W: Write>(
        &mut self,
        world: &World,
        moment: u64,
        note: &Note<'_>,
        out: &mut W,
    ) -> Result<(), SimulationFault>;

    /// Writes the rows that are left, at the end of the run.
    fn end<W: Write>(&mut self, out: &mut W) -> Result<(), SimulationFault>;
}
