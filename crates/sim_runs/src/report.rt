//! What is reported on standard error about a run.

ghost use Rattle.std.specs.Prelude.{◌≡◌, ◌≢◌, Ok};

use crate::asked::Asked;
use crate::bad_row::BadRow;
use crate::course::{Course, MovesFile};
use crate::fault::{RunFault, fault_of_air, is_cut_short};
use cmd_reporting::{CommandFault, Fault, OutputFormat, Status};
use its_gnvalue::NoMemory;
use its_words::frames::Explanation;
use its_world::World;
use sim_air::AirFault;
use sim_results::{Audiences, Doubt, Doubts, FailedEvents, FullTables, MovesRead, Reach};
use sim_scenario::Scenario;
use sim_settings::{Expectation, Reached};
use sim_simulation::{EventRecord, Note, SimulationFault};
use std::alloc::Global;
use std::io::{BufRead, Write};

/// What is reported at the end of a run: full location tables, events that were not run, doubts,
/// and expectations that are not met. A summary has a part of it too.
#[derive(Drop)]
pub(crate) struct Report<'s> {
    alloc: Global,
    scenario: &'s Scenario,
    full: FullTables,
    failed: FailedEvents,
    audiences: Audiences,
    doubts: Doubts,
    /// Whether an event that wasn't run, or a doubt, makes the status `Refused`.
    strict: bool,
    /// The time of the last event or note, in milliseconds.
    last: u64,
}

impl<'s> Report<'s> {
    /// Returns the report of a run that has not begun. `explain` says whether codes are explained.
    /// `NoMemory` if an allocation failed.
    pub(crate) fn new<M: BufRead + Drop>(
        alloc: Global,
        course: &Course<'s, '_, M>,
        explain: bool,
    ) -> Result<Report<'s>, NoMemory> {
        let (scenario, options) = (course.scenario, course.options);
        let are_wanted = options.tells_missed(explain) || !scenario.expectations.is_empty();
        Ok(Report {
            alloc,
            scenario,
            full: FullTables::new(),
            failed: FailedEvents::new(alloc, scenario)?,
            audiences: Audiences::new(alloc, scenario, are_wanted)?,
            doubts: Doubts::new(alloc, scenario)?,
            strict: options.strict,
            last: 0,
        })
    }

    /// Whether it needs `Note::Heard`.
    #[inline(always)]
    pub(crate) fn wants_heard_notes(&self) -> bool {
        self.audiences.are_wanted() || self.doubts.wants_heard_notes()
    }

    /// Returns the stations that a packet is for and didn't reach, each with how far it came there,
    /// if they are known. `send` is the packet's number among those that were sent. `NoMemory` if
    /// an allocation failed.
    pub(crate) fn missed(&self, send: usize) -> Result<Option<Vec<(usize, Reach)>>, NoMemory> {
        let Some(audience) = self.audiences.get(send) else {
            return Ok(None);
        };
        let is_cut = self.doubts.is_cut(send);
        let mut missed = audience.missed(self.alloc)?;
        for (_, reach) in missed.as_mut_slice() {
            *reach = reach.at_end(is_cut);
        }
        Ok(Some(missed))
    }

    /// Returns what is doubtful about the run, after `finish`.
    pub(crate) fn doubts(&self) -> &[Doubt] {
        self.doubts.found()
    }

    /// Takes the end of a run that is whole, with its file of moves, if there is one. `NoMemory` if
    /// an allocation failed.
    pub(crate) fn finish<M: BufRead + Drop>(
        &mut self,
        moves: Option<&MovesFile<'_, M>>,
    ) -> Result<(), NoMemory> {
        let read = moves.map(|moves| MovesRead {
            lines: moves.rows.line(),
            clock: moves.rows.clock(),
        });
        self.doubts.end(self.scenario, read)
    }

    /// Returns how many receptions of a radio model met a full location table, if any did.
    pub(crate) fn table_full(&self) -> Option<usize> {
        match self.scenario.timeline.air() {
            Some(_) => self.full.receptions(),
            None => None,
        }
    }

    /// Takes an event that was done. `NoMemory` if an allocation failed.
    #[inline(always)]
    pub(crate) fn take(&mut self, world: &World, done: &EventRecord<'_>) -> Result<(), NoMemory> {
        self.last = done.moment;
        self.full.take(self.scenario, done);
        self.failed.take(done)?;
        self.doubts.take(world, done, &self.failed)?;
        if self.audiences.are_wanted() {
            self.audiences.take(world, done)?;
        }
        Ok(())
    }

    /// Takes a note of the run. `NoMemory` if an allocation failed.
    pub(crate) fn take_note(
        &mut self,
        world: &World,
        moment: u64,
        note: &Note<'_>,
    ) -> Result<(), NoMemory> {
        self.last = moment;
        self.failed.take_note(moment, note)?;
        self.doubts.take_note(world, moment, note)?;
        self.audiences.take_note(moment, note)
    }

    /// Returns the time of the first events that weren't run, if the file of moves cut the run short.
    /// It does so after a row, and a row comes before the events of its time.
    pub(crate) fn cut(&self, ran: &Result<Status, AirFault>) -> Option<u64> {
        match ran {
            Err(fault) if is_cut_short(fault) => Some(self.last),
            _ => None,
        }
    }

    /// Returns the scenario that is run.
    pub(crate) fn scenario(&self) -> &'s Scenario {
        self.scenario
    }

    /// Reports on a run that ended as `ran` says. `moves` is its file of moves, if there is one.
    /// Returns `Refused` if a line of moves ended the run. For a run that is done, also if an
    /// expectation isn't met and, with `strict`, if an event wasn't run or something is doubtful.
    pub(crate) fn end<'a, E: Write, M: BufRead + Drop>(
        &mut self,
        ran: Result<Status, AirFault>,
        moves: Option<&MovesFile<'a, M>>,
        format: OutputFormat,
        err: &mut E,
    ) -> Result<Status, Fault<'a>>
        ensures done { result ≡ Ok Status.Done → ran ≡ Ok Status.Done }
    {
        let cut = self.cut(&ran);
        match ran {
            Ok(status) => Ok(self.conclude(status, format.explain, err)?),
            Err(fault) => self.report_fault(fault, cut, moves, format, err),
        }
    }

    /// Reports on a run with this status: full location tables, events that weren't run, what is
    /// doubtful, and each expectation that isn't met. `NoMemory` if an allocation failed.
    fn conclude<E: Write>(
        &mut self,
        status: Status,
        explain: bool,
        err: &mut E,
    ) -> Result<Status, NoMemory>
        ensures done { result ≡ Ok Status.Done → status ≡ Status.Done }
    {
        self.failed.end(self.scenario, None)?;
        self.report_full(err);
        self.failed.report(explain, err);
        self.doubts.report(err);
        let are_met = self.report_unmet(explain, err);
        let is_clear = self.failed.count() == 0 && self.doubts.found().is_empty();
        let is_fine = are_met && (is_clear || !self.strict);
        if is_fine || status != Status::Done {
            Ok(status)
        } else {
            Ok(Status::Refused)
        }
    }

    /// Reports on a run that this fault ended. If its file of moves did, reports full location
    /// tables, events that weren't run, and which line is bad. This comes before the files are
    /// ended, which may fail as well.
    fn report_fault<'a, E: Write, M: BufRead + Drop>(
        &mut self,
        fault: AirFault,
        cut: Option<u64>,
        moves: Option<&MovesFile<'a, M>>,
        format: OutputFormat,
        err: &mut E,
    ) -> Result<Status, Fault<'a>>
        ensures done { result ≢ Ok Status.Done }
    {
        if cut.is_some() {
            self.failed.end(self.scenario, cut)?;
            self.report_full(err);
            self.failed.report(format.explain, err);
        }
        let fault = match fault_of_air(fault, moves.map(|moves| moves.name)) {
            RunFault::Stopped(fault) => return Err(fault),
            RunFault::Row(row) => {
                let value = moves.and_then(|moves| moves.refused(row.word));
                RunFault::Row(BadRow { value, ..row })
            }
            fault => fault,
        };
        fault.report(format, err);
        Ok(fault.status())
    }

    /// Reports that location tables were full, in a radio model, since the numbers of the run are
    /// then wrong.
    fn report_full<E: Write>(&self, err: &mut E) {
        if self.scenario.timeline.air().is_some() {
            self.full.report(err);
        }
    }

    /// Reports each expectation that isn't met, with `explain` what it asks for. Returns whether
    /// each is met.
    fn report_unmet<E: Write>(&self, explain: bool, err: &mut E) -> bool {
        let mut are_met = true;
        for (number, expectation) in self.scenario.expectations.iter().enumerate() {
            let asked = Explanation(explain.then_some(Asked(*expectation)));
            are_met &= self.report_one(number, expectation, asked, err);
        }
        are_met
    }

    /// Reports an expectation that isn't met, with what it asks for. Returns whether it is met.
    fn report_one<E: Write>(
        &self,
        number: usize,
        expectation: &Expectation,
        asked: Explanation<Asked>,
        err: &mut E,
    ) -> bool {
        let Some(audience) = self.audiences.get(expectation.send) else {
            let _ = writeln!(err, "geostation: expect {number}: no such send{asked}");
            return false;
        };
        let size = audience.size();
        let reached = audience.reached(expectation.within);
        let wanted = match expectation.reached {
            Reached::AtLeast(stations) => stations as usize,
            Reached::All => size,
        };
        if reached < wanted {
            let _ = writeln!(
                err,
                "geostation: expect {number}: reached {reached} of {size}{asked}"
            );
        }
        reached >= wanted
    }
}
