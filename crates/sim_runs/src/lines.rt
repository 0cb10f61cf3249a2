//! What a run prints on standard output.

use crate::course::Course;
use crate::report::Report;
use crate::summary::{RunCounts, print_summary};
use cmd_reporting::OutputFormat;
use its_world::World;
use sim_scenario::Scenario;
use sim_simulation::tally::{HeldTally, Tally};
use sim_simulation::{
    EventRecord, EventSink, JsonLines, Note, SimulationFault, TextLines, WhoContends,
};
use std::alloc::Global;
use std::io::{BufRead, Write};

/// Prints a run on standard output.
pub(crate) trait RunLines {
    /// Prints what comes before the lines of events.
    fn begin<M: BufRead + Drop>(
        &mut self,
        _course: &Course<'_, '_, M>,
    ) -> Result<(), SimulationFault> {
        Ok(())
    }

    /// Prints what comes after the run, with what is reported about the packets. A run that was cut
    /// short (`is_whole` is false) has no totals.
    fn end(
        &mut self,
        _alloc: Global,
        _report: &Report<'_>,
        _format: OutputFormat,
        _is_whole: bool,
    ) -> Result<(), SimulationFault> {
        Ok(())
    }
}

impl<W: Write> RunLines for TextLines<'_, W> {
    /// Prints column heads, if they are asked for.
    fn begin<M: BufRead + Drop>(
        &mut self,
        course: &Course<'_, '_, M>,
    ) -> Result<(), SimulationFault> {
        if course.options.heads {
            self.heads()
        } else {
            Ok(())
        }
    }
}

impl<W: Write> RunLines for JsonLines<'_, W> {
    /// Prints the object of the stations and of the radio model, if there is one.
    fn begin<M: BufRead + Drop>(
        &mut self,
        course: &Course<'_, '_, M>,
    ) -> Result<(), SimulationFault> {
        let stations = course.scenario.stations.as_slice();
        match course.scenario.timeline.air() {
            Some(air) => {
                let contention = who_contends(course.scenario);
                self.stations_in_air(stations, air, course.end(), contention)
            }
            None => self.stations(stations),
        }
    }
}

/// Which stations contend, in a run in which any does.
fn who_contends(scenario: &Scenario) -> Option<WhoContends<'_>> {
    scenario.has_contention().then(|| WhoContends {
        stations: scenario.contend.as_slice(),
        rows: scenario.timeline.rows_contend(),
    })
}

/// Counts the events of a run, and prints a summary at its end.
#[derive(Drop)]
pub(crate) struct Summary<'o, W> {
    pub(crate) tally: Tally,
    /// The counts of held frames, in a run in which any station contends.
    pub(crate) held: Option<HeldTally>,
    pub(crate) out: &'o mut W,
}

impl<W: Write> RunLines for Summary<'_, W> {
    fn end(
        &mut self,
        alloc: Global,
        report: &Report<'_>,
        format: OutputFormat,
        is_whole: bool,
    ) -> Result<(), SimulationFault> {
        let counts = RunCounts {
            tally: &self.tally,
            held: self.held.as_ref(),
        };
        print_summary(alloc, counts, report, format, is_whole, self.out)
    }
}

impl<W: Write> EventSink for Summary<'_, W> {
    // What is counted isn't said here.
    ghost Took = { λ _ _ _. Unit {0} };

    #[inline(always)]
    fn put(&mut self, world: &World, done: &EventRecord<'_>) -> Result<(), SimulationFault> {
        self.tally.put(world, done)?;
        match &mut self.held {
            Some(held) => Ok(held.take(&self.tally, done)?),
            None => Ok(()),
        }
    }

    fn note(&mut self, world: &World, moment: u64, note: &Note<'_>) -> Result<(), SimulationFault> {
        self.tally.note(world, moment, note)?;
        match &mut self.held {
            Some(held) => Ok(held.take_note(&self.tally, note)?),
            None => Ok(()),
        }
    }
}
