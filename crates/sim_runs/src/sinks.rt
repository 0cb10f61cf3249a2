//! Where the results of a run go.

ghost use Rattle.std.specs.Prelude.{◌≡◌, ◌≤◌, IfOk, List, Ok, not, true, vec_len};
ghost use Rattle.std.specs.List.{list_all};
ghost use Rattle.its_world.specs.Entries.{Entry as LogEntry};
ghost use Rattle.its_world.specs.Entries.{was_done};
ghost use Rattle.sim_runs.specs.Runs.{EndsRun, run_status};

use crate::course::{Course, MovesFile};
use crate::fault::is_cut_short;
use crate::lines::RunLines;
use crate::outputs::Outputs;
use crate::progress::Progress;
use crate::report::Report;
use crate::simulating::run_timeline;
use cmd_reporting::{Fault, FrameFile, OutputFormat, ProgressWriter, Status, end_frames};
use its_gnvalue::NoMemory;
use its_world::{Entry, World};
use sim_air::AirFault;
use sim_results::Results;
use sim_simulation::{EventRecord, EventSink, Note, SimulationFault};
use std::alloc::{AllocError, Global};
use std::io::{BufRead, ErrorKind, Write};

/// The sinks of the results of a run. Each takes each event, in this order.
#[derive(Drop)]
pub(crate) struct RunSinks<'s, 'a, 'o, L, F: Write + Drop, E> {
    /// What is printed on standard output.
    lines: L,
    /// What is reported on standard error at the end of the run.
    report: Report<'s>,
    /// The result files.
    tables: Results<'a, F>,
    /// The progress of the run, shown on standard error.
    progress: Progress,
    /// The file of the frames that stations send, if it is written.
    frames: Option<FrameFile<'a, F>>,
    /// Whether no event was refused so far.
    all_done: bool,
    format: OutputFormat,
    /// Standard error.
    err: &'o mut E,
}

impl<'s, 'a, 'o, L: EventSink + RunLines + Drop, F: Write + Drop, E: ProgressWriter> RunSinks<
    's,
    'a,
    'o,
    L,
    F,
    E,
> {
    /// Returns the sinks of a run that has not begun, which prints these lines and writes these
    /// files. `NoMemory` if an allocation failed.
    pub(crate) fn new<M: BufRead + Drop>(
        alloc: Global,
        course: &Course<'s, '_, M>,
        lines: L,
        outputs: Outputs<'a, F>,
        format: OutputFormat,
        err: &'o mut E,
    ) -> Result<RunSinks<'s, 'a, 'o, L, F, E>, NoMemory>
        ensures { IfOk result (λ sinks. sinks.all_done ≡ true) }
    {
        let Outputs { frames, results } = outputs;
        let report = Report::new(alloc, course, format.explain)?;
        Ok(RunSinks {
            lines,
            report,
            tables: results,
            progress: Progress::of(course),
            frames,
            all_done: true,
            format,
            err,
        })
    }

    /// Runs the scenario into these sinks, and prints its lines or its summary. Returns the status
    /// of `sim`. Nothing is reported yet. If the file of moves cut the run short, the summary is
    /// that of the part before, without the totals.
    pub(crate) fn run<M: BufRead + Drop>(
        &mut self,
        alloc: Global,
        course: &mut Course<'_, '_, M>,
    ) -> Result<Status, AirFault>
        requires stations { vec_len course.old.scenario.now.stations ≤ 65535 }
        requires fresh { self.old.all_done ≡ true }
        ensures ends { EndsRun course.old.options.now.strict course.old.scenario.now result }
    {
        let (strict, format) = (course.options.strict, self.format);
        self.lines.begin(course)?;
        match run_timeline(alloc, course, self) {
            Ok(_) => {
                end_whole(alloc, course, &mut self.report, &mut self.lines, format)?;
                Ok(self.status(strict))
            }
            Err(fault) => {
                if is_cut_short(&fault) {
                    self.lines.end(alloc, &self.report, format, false)?;
                }
                Err(fault)
            }
        }
    }

    /// Returns the status of a run that reached its last event: `Refused` if it is strict and an
    /// event was refused.
    fn status(&self, strict: bool) -> Status
        ensures run { (log : List LogEntry) → self.now.all_done ≡ list_all was_done log
            → result ≡ run_status strict log }
    {
        if strict && !self.all_done {
            Status::Refused
        } else {
            Status::Done
        }
    }

    /// Reports on a run that ended as `ran` says, and ends its files. `moves` is its file of moves,
    /// if there is one. Returns `Refused` if a line of moves ended the run. For a run that is done,
    /// also if an expectation isn't met, if a frame was left out of its file and, with `strict`, if
    /// an event wasn't run. `CannotWrite` if a file failed.
    pub(crate) fn end<M: BufRead + Drop>(
        self,
        ran: Result<Status, AirFault>,
        moves: Option<&MovesFile<'a, M>>,
    ) -> Result<Status, Fault<'a>>
        ensures done { result ≡ Ok Status.Done → ran ≡ Ok Status.Done }
    {
        let RunSinks {
            lines,
            mut report,
            mut tables,
            progress,
            frames,
            format,
            err,
            ..
        } = self;
        drop(lines);
        progress.end(err);
        let listed = tables.list_late(report.scenario(), report.cut(&ran));
        let reported = report.end(ran, moves, format, err);
        let ended = match listed {
            Ok(()) => reported,
            Err(error) => Err(Fault::from(error)),
        };
        end_frames(frames, tables.end(ended))
    }
}

impl<L, F: Write + Drop, E: Write> RunSinks<'_, '_, '_, L, F, E> {
    /// Writes the frame that an event sent to the file of frames, if there is one.
    #[inline(always)]
    fn write_frame(&mut self, done: &EventRecord<'_>) -> Result<(), SimulationFault>
        ensures { self.new.all_done ≡ self.old.all_done }
    {
        self.put_frame(done.station, done.moment, done.sent_octets())
    }

    /// Writes a frame that a station sends at this time to the file of frames, if there is one.
    fn put_frame(
        &mut self,
        station: usize,
        moment: u64,
        octets: Option<&[u8]>,
    ) -> Result<(), SimulationFault>
        ensures { self.new.all_done ≡ self.old.all_done }
    {
        let (Some(file), Some(frame)) = (&mut self.frames, octets) else {
            return Ok(());
        };
        let put = file.put(station, moment, frame, self.format, self.err);
        // The file remembers that it failed.
        put.map_err(|_| SimulationFault::Output)
    }

    /// Adds a station that a run made to the file of frames, if there is one.
    fn add_station(&mut self, station: usize) -> Result<(), SimulationFault>
        ensures { self.new.all_done ≡ self.old.all_done }
    {
        let Some(file) = &mut self.frames else {
            return Ok(());
        };
        file.add_station(station)
            .map_err(|error| match error.kind() {
                ErrorKind::OutOfMemory => SimulationFault::OutOfMemory(AllocError),
                _ => SimulationFault::Output,
            })
    }
}

impl<L: EventSink, F: Write + Drop, E: ProgressWriter> EventSink for RunSinks<'_, '_, '_, L, F, E> {
    // What the parts write isn't said by contracts; whether an entry is a refusal is.
    ghost Took = { λ sinks events log. sinks.all_done ≡ list_all was_done log };

    #[inline(always)]
    fn put(&mut self, world: &World, done: &EventRecord<'_>) -> Result<(), SimulationFault> {
        self.lines.put(world, done)?;
        self.report.take(world, done)?;
        self.tables.take(world, done)?;
        self.progress.note(done, self.err);
        self.write_frame(done)?;
        self.all_done &= !is_refused(done.entry);
        Ok(())
    }

    #[inline(always)]
    fn wants_heard_notes(&self) -> bool {
        self.report.wants_heard_notes() || !self.tables.is_none()
    }

    fn note(&mut self, world: &World, moment: u64, note: &Note<'_>) -> Result<(), SimulationFault> {
        self.lines.note(world, moment, note)?;
        self.report.take_note(world, moment, note)?;
        self.tables.take_note(world, moment, note)?;
        match *note {
            Note::Made { station, .. } => self.add_station(station),
            Note::Released { station, frame } => {
                self.put_frame(station, moment, world.kept_frame(frame))
            }
            _ => Ok(()),
        }
    }
}

/// Takes the end of a run that reached its last event, and prints what comes after its lines.
fn end_whole<L: RunLines, M: BufRead + Drop>(
    alloc: Global,
    course: &Course<'_, '_, M>,
    report: &mut Report<'_>,
    lines: &mut L,
    format: OutputFormat,
) -> Result<(), SimulationFault> {
    report.finish(course.moves.as_ref())?;
    lines.end(alloc, report, format, true)
}

/// Whether an event was refused.
#[inline]
pub fn is_refused(entry: &Entry) -> bool
    ensures { result ≡ not (was_done entry.now) }
{
    matches!(entry, Entry::Refused(_))
}
