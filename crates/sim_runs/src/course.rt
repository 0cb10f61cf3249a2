//! What is run and how: a scenario, its options and, if given, the moves of a file.

use crate::fault::{RunFault, fault_of_moves};
use crate::options::RunOptions;
use its_world::Event;
use sim_moves::{Rows, Word};
use sim_scenario::events::end_of;
use sim_scenario::{Scenario, Timeline};
use sim_settings::Moves;
use std::alloc::Global;
use std::io::BufRead;
use std::{io, str};

/// A file of moves whose first line was read.
#[derive(Drop)]
pub(crate) struct MovesFile<'a, M: BufRead + Drop> {
    pub(crate) name: &'a str,
    pub(crate) rows: Rows<M>,
}

impl<'a, M: BufRead + Drop> MovesFile<'a, M> {
    /// Reads the first line of the file with this name, whose rows are read as `moves` says.
    /// Returns the fault of that line, or that it can't be read or memory ran out.
    pub(crate) fn open(
        alloc: Global,
        name: &'a str,
        reader: M,
        moves: &Moves,
    ) -> Result<MovesFile<'a, M>, RunFault<'a>> {
        match Rows::open(alloc, moves.begin, reader) {
            Ok(rows) => Ok(MovesFile { name, rows }),
            Err(fault) => Err(fault_of_moves(fault, name)),
        }
    }

    /// Returns the field of the last line that is refused with this keyword, if there is one and it
    /// is UTF-8.
    pub(crate) fn refused(&self, word: Word) -> Option<&str> {
        str::from_utf8(self.rows.refused(word)?).ok()
    }
}

/// What is run and how.
#[derive(Drop)]
pub(crate) struct Course<'s, 'a, M: BufRead + Drop> {
    pub(crate) scenario: &'s Scenario,
    /// The options of the run.
    pub(crate) options: &'s RunOptions,
    /// The file of moves, if the scenario is run with one.
    pub(crate) moves: Option<MovesFile<'a, M>>,
}

impl<'s, 'a, M: BufRead + Drop> Course<'s, 'a, M> {
    /// Returns the last time of the run, if it is known before the run. With moves it is the one
    /// that the scenario gives.
    pub(crate) fn end(&self) -> Option<u64> {
        match &self.scenario.timeline {
            Timeline::Plain(timeline) => Some(last_moment(timeline.events.as_slice())),
            Timeline::Air(timeline) => Some(end_of(&timeline.air, timeline.events.as_slice())),
            Timeline::Moves(timeline) => timeline.air.until,
        }
    }
}

/// Returns the time of the last of these events. 0 if there are no events.
fn last_moment(events: &[Event]) -> u64 {
    match events.last() {
        Some(event) => event.moment,
        None => 0,
    }
}
