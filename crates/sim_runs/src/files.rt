//! The command `sim` over named files. A file that is read is standard input if its name is `-`.

ghost use Rattle.std.specs.Prelude.{◌≡◌, ◌≢◌, ◌≤◌, ◌++◌, IfErr, IfOk, IsErrAnd, OnOk};
ghost use Rattle.std.specs.Prelude.{IfSome, None, vec_len, option_to_list};
ghost use Rattle.cmd_reporting.specs.FileNames.{format_of_file};
ghost use Rattle.sim_results.specs.Results.{IsNoFile};
ghost use Rattle.cmd_reporting.specs.Statuses.{IsOutputFault, IsStopped};
ghost use Rattle.sim_runs.specs.Files.{AreAllApart};
ghost use Rattle.sim_runs.specs.Files.{names_of, names_read, names_written};

use crate::course::{Course, MovesFile};
use crate::fault::RunFault;
use crate::input::Input;
use crate::options::RunOptions;
use crate::outputs::{Outputs, create_outputs};
use crate::simulating::{read_scenario, run_into};
use cmd_reporting::{
    ExitStatus, Fault, Io, NamedFile, Opened, ProgressWriter, Status, Target, WriterFault,
    frame_target, open, refuse_same,
};
use sim_results::ResultFiles;
use sim_scenario::{MOST_STATIONS, Reading, Scenario, Timeline};
use std::alloc::Global;
use std::io::{BufRead, BufReader, Read, Write};
use std::rt::Files;

/// The files of a run.
#[derive(Clone, Copy, Debug, PartialEq, Eq)]
pub struct RunFiles<'a> {
    /// The scenario.
    pub scenario: &'a str,
    /// The moves that make and move its stations, if there are any. They are in another file than
    /// the scenario, and at most one of the two is standard input.
    pub moves: Option<&'a str>,
    /// The frames that stations send, if they are written.
    pub frames: Option<Target<'a>>,
    /// The results of the run, if they are written.
    pub results: ResultFiles<'a>,
}

impl RunFiles<'_> {
    /// Returns how the scenario is read.
    fn reading(&self, options: &RunOptions) -> Reading {
        options.reading(!self.results.is_empty(), self.moves.is_some())
    }
}

/// Runs the scenario in the file and prints one line per event. `input` is standard input. With
/// `moves` it is run with the rows of that file. Their first line is read after the scenario, and
/// the others during the run. With `frames` each frame that a station sends is also written to that
/// file, and with `results` the results to those files. All are created after the scenario and the
/// first line of the moves were read.
///
/// Its status can be:
///
/// - `BadArguments` before anything is opened, if nothing says the format of the file of frames or
///   its name is `-`; and before a file is created, if a file to write is one that is read, or
///   another one to write.
/// - `Refused` for a text that is not a scenario, for a bad line of moves, if a frame doesn't fit
///   its file and, with `strict`, if an event was refused.
/// - `Failed` if a file could not be read, created or written, standard output could not be
///   written, or memory ran out.
pub fn simulate_file<R: Files + AllocGlobal, I: Read + Drop, W: Write, E: ProgressWriter>(
    rt: &R,
    files: &RunFiles<'_>,
    input: I,
    options: &RunOptions,
    io: &mut Io<W, E>,
) -> ExitStatus
where
    R::File: Read + Write + Drop,
    ensures alone { files.now.frames ≡ None → IsNoFile files.now.results →
        result ≢ ExitStatus.BadArguments }
    ensures format { IfSome files.now.frames (λ target.
        format_of_file target.to target.name.now ≡ None → result ≡ ExitStatus.BadArguments) }
{
    let ended = simulate_named(rt, files, input, options, io);
    io.status_of(ended)
}

/// Runs the scenario in the file. The files to be written are created after the scenario and the
/// first line of the moves are read.
fn simulate_named<'a, R: Files + AllocGlobal, I: Read + Drop, W: Write, E: ProgressWriter>(
    rt: &R,
    files: &RunFiles<'a>,
    input: I,
    options: &RunOptions,
    io: &mut Io<W, E>,
) -> Result<Status, WriterFault<'a, RunFault<'a>>>
where
    R::File: Read + Write + Drop,
    ensures alone { files.now.frames ≡ None → IsNoFile files.now.results →
        IfErr result IsStopped }
    ensures format { IfSome files.now.frames (λ target.
        format_of_file target.to target.name.now ≡ None → IsErrAnd result IsOutputFault) }
{
    let target = frame_target(files.frames)?;
    let RunInputs { scenario, moves } = read_inputs(rt, files, input, options)?;
    keep_all_apart(rt, files)?;
    let outputs = create_outputs(rt, &scenario, target, files.results)?;
    let mut course = Course {
        scenario: &scenario,
        options,
        moves,
    };
    Ok(run_into(rt.alloc(), &mut course, outputs, io)?)
}

/// The inputs that are read before a run: a scenario, and the first line of its moves.
#[derive(Drop)]
pub struct RunInputs<'a, M: BufRead + Drop> {
    scenario: Scenario,
    /// The file of moves, if there is one, with its first line read.
    moves: Option<MovesFile<'a, M>>,
    ghost few: { vec_len scenario.stations ≤ 65535 },
}

impl<'a, M: BufRead + Drop> RunInputs<'a, M> {
    /// Runs the scenario with its moves, prints its lines and writes no file. The status is
    /// `Refused` if an expectation isn't met.
    ///
    /// `NoOutput` if a write failed, `CannotRead` or `NotRead` if a read of the moves failed,
    /// `OutOfMemory` if an allocation failed.
    pub fn run<W: Write, E: ProgressWriter>(
        self,
        alloc: Global,
        options: &RunOptions,
        io: &mut Io<W, E>,
    ) -> Result<Status, Fault<'a>> {
        let RunInputs { scenario, moves } = self;
        let mut course = Course {
            scenario: &scenario,
            options,
            moves,
        };
        run_into(alloc, &mut course, Outputs::none(), io)
    }
}

/// The reader of a file of a run.
pub type RunReader<F, I> = BufReader<Opened<F, Input<I>>>;

/// Reads the scenario of these files, and the first line of the moves, if there are any. `input` is
/// standard input. Returns that the text is not a scenario, that the line is bad, that a file can't
/// be read, or that memory ran out.
pub fn read_inputs<'a, R: Files + AllocGlobal, I: Read + Drop>(
    rt: &R,
    files: &RunFiles<'a>,
    input: I,
    options: &RunOptions,
) -> Result<RunInputs<'a, RunReader<R::File, I>>, RunFault<'a>>
where
    R::File: Read + Drop,
{
    let (for_scenario, for_moves) = Input::split(input, files.moves);
    let reader = open(rt, files.scenario, for_scenario)?;
    let reading = files.reading(options);
    let scenario = read_scenario(rt.alloc(), files.scenario, reader, MOST_STATIONS, &reading)?;
    let moves = open_moves(rt, files.moves, for_moves, &scenario.timeline)?;
    Ok(RunInputs { scenario, moves })
}

/// Opens the file of moves of this name, if a timeline is run with one, and reads its first line.
/// `input` is standard input.
fn open_moves<'a, R: Files + AllocGlobal, I: Read + Drop>(
    rt: &R,
    name: Option<&'a str>,
    input: Input<I>,
    timeline: &Timeline,
) -> Result<Option<MovesFile<'a, RunReader<R::File, I>>>, RunFault<'a>>
where
    R::File: Read + Drop,
{
    let (Some(name), Timeline::Moves(timeline)) = (name, timeline) else {
        return Ok(None);
    };
    let reader = open(rt, name, input)?;
    Ok(Some(MovesFile::open(rt.alloc(), name, reader, &timeline.moves)?))
}

/// Refuses a file to be written that is one of those that are read, or another one to be written.
fn keep_all_apart<'a, R: Files + AllocGlobal>(
    rt: &R,
    files: &RunFiles<'a>,
) -> Result<(), WriterFault<'a, RunFault<'a>>>
    ensures apart { OnOk result (AreAllApart files.now) }
    ensures alone { files.now.frames ≡ None → IsNoFile files.now.results →
        IfErr result IsStopped }
{
    let written = written_files(rt, files)?;
    let read = read_files(rt, files)?;
    Ok(refuse_same(written.as_slice(), read.as_slice())?)
}

/// Returns the files that a run writes.
fn written_files<'a, R: Files + AllocGlobal>(
    rt: &R,
    files: &RunFiles<'a>,
) -> Result<Vec<NamedFile<'a>>, Fault<'a>>
    ensures { IfOk result (λ named. names_of named.items ≡ names_written files.now) }
{
    let frames = files.frames.map(|target| target.name);
    let mut named = Vec::new(rt.alloc());
    add_named(rt, frames, &mut named)?;
    add_named(rt, files.results.sends, &mut named)?;
    add_named(rt, files.results.stations, &mut named)?;
    add_named(rt, files.results.load, &mut named)?;
    Ok(named)
}

/// Returns the files that a run reads.
fn read_files<'a, R: Files + AllocGlobal>(
    rt: &R,
    files: &RunFiles<'a>,
) -> Result<Vec<NamedFile<'a>>, Fault<'a>>
    ensures { IfOk result (λ named. names_of named.items ≡ names_read files.now) }
{
    let mut named = Vec::new(rt.alloc());
    add_named(rt, Some(files.scenario), &mut named)?;
    add_named(rt, files.moves, &mut named)?;
    Ok(named)
}

/// Adds the file of this name, if there is one.
#[tactic(auto, using(crate::proofs::Named::names_last))]
fn add_named<'a, R: Files + AllocGlobal>(
    rt: &R,
    name: Option<&'a str>,
    files: &mut Vec<NamedFile<'a>>,
) -> Result<(), Fault<'a>>
    ensures { OnOk result
        (names_of files.new.items ≡ names_of files.old.items ++ option_to_list name.entry) }
{
    if let Some(name) = name {
        files.push(NamedFile::of(rt, name))?;
    }
    Ok(())
}
