//! The result files of a run: its sends, its stations, its load.

ghost use Rattle.std.specs.Prelude.{◌≡◌, ◌↔◌, None, IfOk, IsOk, IsTrue, Ok};
ghost use Rattle.sim_results.specs.Results.{IsNoFile};

use crate::load_rows::LoadRows;
use crate::rows::NumberRows;
use crate::send_rows::SendRows;
use crate::station_rows::StationRows;
use cmd_reporting::{Fault, Status};
use its_gnvalue::NoMemory;
use its_world::World;
use sim_scenario::Scenario;
use sim_simulation::{EventRecord, Note, SimulationFault};
use std::alloc::Global;
use std::io::Write;

/// The names of the result files that a run has to write.
#[derive(Clone, Copy, Debug, Default, PartialEq, Eq)]
pub struct ResultFiles<'a> {
    /// The file with one row per packet for an area.
    pub sends: Option<&'a str>,
    /// The file with one row per station.
    pub stations: Option<&'a str>,
    /// The file with one row per second in which a frame was sent.
    pub load: Option<&'a str>,
}

impl ResultFiles<'_> {
    /// Whether no file is to be written.
    pub fn is_empty(&self) -> bool
        ensures { IsTrue result ↔ IsNoFile self.now }
    {
        self.sends.is_none() && self.stations.is_none() && self.load.is_none()
    }
}

/// A result file that is being written.
#[derive(Drop)]
struct ResultFile<'a, R: Drop, W: Write + Drop> {
    name: &'a str,
    rows: R,
    writer: W,
    /// Whether the file could not be written.
    failed: bool,
}

impl<'a, R: NumberRows + Drop, W: Write + Drop> ResultFile<'a, R, W> {
    /// Begins the file with this name by writing the names of its columns.
    fn begin(name: &'a str, rows: R, writer: W) -> Result<ResultFile<'a, R, W>, Fault<'a>> {
        let mut writer = writer;
        match rows.begin(&mut writer) {
            Ok(()) => Ok(ResultFile {
                name,
                rows,
                writer,
                failed: false,
            }),
            Err(_) => Err(Fault::CannotWrite(name)),
        }
    }

    /// Takes an event that was done.
    fn take(&mut self, world: &World, done: &EventRecord<'_>) -> Result<(), SimulationFault> {
        let taken = self.rows.take(world, done, &mut self.writer);
        self.failed |= is_failure(&taken);
        taken
    }

    /// Takes a note of the run.
    fn take_note(
        &mut self,
        world: &World,
        moment: u64,
        note: &Note<'_>,
    ) -> Result<(), SimulationFault> {
        let taken = self.rows.take_note(world, moment, note, &mut self.writer);
        self.failed |= is_failure(&taken);
        taken
    }

    /// Ends the file after a run that ended as `ran` says. `CannotWrite` if a write failed.
    fn end(mut self, ran: Result<Status, Fault<'a>>) -> Result<Status, Fault<'a>>
        ensures done { result ≡ Ok Status.Done → ran.entry ≡ Ok Status.Done }
    {
        let finished = self.finish();
        if self.failed {
            return Err(Fault::CannotWrite(self.name));
        }
        let status = ran?;
        match finished {
            Ok(()) => Ok(status),
            Err(SimulationFault::OutOfMemory(error)) => Err(Fault::OutOfMemory(error)),
            Err(_) => Err(Fault::CannotWrite(self.name)),
        }
    }

    /// Writes the rows that are left, and flushes the file in any case.
    fn finish(&mut self) -> Result<(), SimulationFault> {
        let ended = self.rows.end(&mut self.writer);
        let flushed = self.writer.flush();
        ended?;
        Ok(flushed?)
    }
}

/// Begins the file with this name, if there is one.
fn begin_file<'a, R: NumberRows + Drop, W: Write + Drop>(
    name: Option<&'a str>,
    rows: R,
    writer: Option<W>,
) -> Result<Option<ResultFile<'a, R, W>>, Fault<'a>>
    ensures { name.entry ≡ None → IfOk result (λ file. file ≡ None) }
{
    match (name, writer) {
        (Some(name), Some(writer)) => Ok(Some(ResultFile::begin(name, rows, writer)?)),
        _ => Ok(None),
    }
}

/// Passes an event that was done to the file, if there is one.
#[inline(always)]
fn take_in<'a, R: NumberRows + Drop, W: Write + Drop>(
    file: &mut Option<ResultFile<'a, R, W>>,
    world: &World,
    done: &EventRecord<'_>,
) -> Result<(), SimulationFault>
    ensures { file.old ≡ None → IsOk result }
{
    match file {
        Some(file) => file.take(world, done),
        None => Ok(()),
    }
}

/// Passes a note of the run to the file, if there is one.
fn take_note_in<'a, R: NumberRows + Drop, W: Write + Drop>(
    file: &mut Option<ResultFile<'a, R, W>>,
    world: &World,
    moment: u64,
    note: &Note<'_>,
) -> Result<(), SimulationFault>
    ensures { file.old ≡ None → IsOk result }
{
    match file {
        Some(file) => file.take_note(world, moment, note),
        None => Ok(()),
    }
}

/// Ends the file, if there is one, after a run that ended as `ran` says.
fn end_file<'a, R: NumberRows + Drop, W: Write + Drop>(
    file: Option<ResultFile<'a, R, W>>,
    ran: Result<Status, Fault<'a>>,
) -> Result<Status, Fault<'a>>
    ensures none { file.entry ≡ None → result ≡ ran.entry }
    ensures done { result ≡ Ok Status.Done → ran.entry ≡ Ok Status.Done }
{
    match file {
        Some(file) => file.end(ran),
        None => ran,
    }
}

/// Whether a write failed.
fn is_failure(taken: &Result<(), SimulationFault>) -> bool {
    matches!(taken, Err(SimulationFault::Output))
}

/// The writers of the result files. A file is written if it has both a name and a writer.
#[derive(Drop)]
pub struct ResultWriters<W: Drop> {
    /// The file of the packets for an area.
    pub sends: Option<W>,
    /// The file of the stations.
    pub stations: Option<W>,
    /// The file of the load.
    pub load: Option<W>,
}

/// The result files of a run that are being written.
#[derive(Drop)]
pub struct Results<'a, W: Write + Drop> {
    sends: Option<ResultFile<'a, SendRows, W>>,
    stations: Option<ResultFile<'a, StationRows, W>>,
    load: Option<ResultFile<'a, LoadRows, W>>,
}

impl<'a, W: Write + Drop> Results<'a, W> {
    /// Returns the results of a run that writes no file.
    pub fn none() -> Results<'a, W>
        ensures sends { result.sends ≡ None }
        ensures stations { result.stations ≡ None }
        ensures load { result.load ≡ None }
    {
        Results {
            sends: None,
            stations: None,
            load: None,
        }
    }

    /// Whether no file is written.
    #[inline(always)]
    pub fn is_none(&self) -> bool
        ensures { IsTrue result ↔ ((self.now.sends ≡ None) × (self.now.stations ≡ None)
            × (self.now.load ≡ None)) }
    {
        self.sends.is_none() && self.stations.is_none() && self.load.is_none()
    }

    /// Begins the files with these names for a run that has not begun, each with the names of its
    /// columns. `CannotWrite`, with its name, if a file could not be written. `OutOfMemory` if an
    /// allocation failed.
    pub fn begin(
        alloc: Global,
        scenario: &Scenario,
        names: ResultFiles<'a>,
        writers: ResultWriters<W>,
    ) -> Result<Results<'a, W>, Fault<'a>>
        ensures sends { names.entry.sends ≡ None → IfOk result (λ results. results.sends ≡ None) }
        ensures stations { names.entry.stations ≡ None →
            IfOk result (λ results. results.stations ≡ None) }
        ensures load { names.entry.load ≡ None → IfOk result (λ results. results.load ≡ None) }
    {
        let sends = begin_file(names.sends, SendRows::new(alloc, scenario)?, writers.sends)?;
        let stations = begin_file(
            names.stations,
            StationRows::new(alloc, scenario)?,
            writers.stations,
        )?;
        let load = begin_file(
            names.load,
            LoadRows::new(alloc, scenario.present.as_slice())?,
            writers.load,
        )?;
        Ok(Results {
            sends,
            stations,
            load,
        })
    }

    /// Takes an event that was done, with the world after it, and writes the rows that are complete
    /// then. `Output` if a file could not be written, which `end` then reports. `OutOfMemory` if an
    /// allocation failed.
    #[inline(always)]
    pub fn take(&mut self, world: &World, done: &EventRecord<'_>) -> Result<(), SimulationFault>
        ensures none { self.old.sends ≡ None → self.old.stations ≡ None → self.old.load ≡ None →
            IsOk result }
    {
        take_in(&mut self.sends, world, done)?;
        take_in(&mut self.stations, world, done)?;
        take_in(&mut self.load, world, done)
    }

    /// Takes a note of the run at this time in milliseconds, with the world at that time. Fails as
    /// `take` does.
    pub fn take_note(
        &mut self,
        world: &World,
        moment: u64,
        note: &Note<'_>,
    ) -> Result<(), SimulationFault>
        ensures none { self.old.sends ≡ None → self.old.stations ≡ None → self.old.load ≡ None →
            IsOk result }
    {
        take_note_in(&mut self.sends, world, moment, note)?;
        take_note_in(&mut self.stations, world, moment, note)?;
        take_note_in(&mut self.load, world, moment, note)
    }

    /// Lists the packets for an area of events that the run doesn't reach, since they have rows
    /// too. `cut` is the time of the first events that weren't run, if the run was cut short.
    /// `NoMemory` if an allocation failed.
    pub fn list_late(&mut self, scenario: &Scenario, cut: Option<u64>) -> Result<(), NoMemory>
        ensures none { (self.old.sends ≡ None → self.new.sends ≡ None)
            × (self.new.stations ≡ self.old.stations) × (self.new.load ≡ self.old.load) }
    {
        match &mut self.sends {
            Some(file) => file.rows.list_late(scenario, cut),
            None => Ok(()),
        }
    }

    /// Writes the rows that are left and ends the files, after a run that ended as `ran` says.
    /// Returns `CannotWrite`, with its name, if a file could not be written, `OutOfMemory` if an
    /// allocation failed, and otherwise `ran`.
    pub fn end(self, ran: Result<Status, Fault<'a>>) -> Result<Status, Fault<'a>>
        ensures none { self.entry.sends ≡ None → self.entry.stations ≡ None →
            self.entry.load ≡ None → result ≡ ran.entry }
        ensures done { result ≡ Ok Status.Done → ran.entry ≡ Ok Status.Done }
    {
        let Results {
            sends,
            stations,
            load,
        } = self;
        end_file(load, end_file(stations, end_file(sends, ran)))
    }
}
