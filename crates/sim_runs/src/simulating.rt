//! The command `sim`.

ghost use Rattle.std.specs.Prelude.{◌≡◌, ◌≤◌, [], IfOk, Ok, vec_len};
ghost use Rattle.sim_air.specs.Scenarios.{IsRunOf};
ghost use Rattle.sim_runs.specs.Runs.{IsDoneRun};
ghost use Rattle.sim_scenario.specs.Scenarios.{IsPlain};
ghost use Rattle.sim_scenario.specs.declared.reading.AirTable.TheVariants as air_tables;

use crate::course::Course;
use crate::fault::{RunFault, fault_of_scenario};
use crate::lines::{RunLines, Summary};
use crate::options::RunOptions;
use crate::outputs::Outputs;
use crate::sinks::RunSinks;
use cmd_reporting::{Fault, Io, OutputFormat, ProgressWriter, Status};
use its_words::frames::Explanation;
use its_world::World;
use sim_air::{AirFault, run_moves, run_scenario};
use sim_scenario::{MOST_STATIONS, Reading, Scenario, Timeline};
use sim_simulation::tally::{HeldTally, Tally};
use sim_simulation::{EventSink, JsonLines, TextLines};
use std::alloc::Global;
use std::io;
use std::io::{BufRead, Read, Write};

/// Runs the scenario in the text of a reader and prints a line for each event: its number, its
/// time, its station and its result. In JSON the stations have a line before. `file` is the name of
/// the scenario. An event that is refused has a line too, and the run goes on.
///
/// Returns `Refused` if the text is not a scenario, before any line. With `strict`, also if an
/// event was refused. Returns `Failed` if a read or a write failed, or memory ran out.
pub fn simulate<R: Read + Drop, W: Write, E: ProgressWriter>(
    alloc: Global,
    file: &str,
    reader: R,
    options: &RunOptions,
    io: &mut Io<W, E>,
) -> Status {
    let ended = simulate_text(alloc, file, reader, options, io);
    io.status_of(ended)
}

/// Runs the scenario in a text as `simulate` does. Returns the fault that ends it.
fn simulate_text<'a, R: Read + Drop, W: Write, E: ProgressWriter>(
    alloc: Global,
    file: &'a str,
    reader: R,
    options: &RunOptions,
    io: &mut Io<W, E>,
) -> Result<Status, RunFault<'a>> {
    let reading = options.reading(false, false);
    let scenario = read_scenario(alloc, file, reader, MOST_STATIONS, &reading)?;
    Ok(simulate_scenario(alloc, &scenario, options, io)?)
}

/// Runs a scenario that was read, of at most 65535 stations, and prints its lines as `simulate`
/// does. Returns `Refused` if an expectation isn't met. With `strict`, also if an event was
/// refused. Returns `Failed` with a sentence on standard error if the scenario was read for a file
/// of moves, since it is run without one here.
///
/// `NoOutput` if a write failed, `OutOfMemory` if an allocation did.
///
/// - `done` (`IsDoneRun`): `Done` only if the run of this scenario is done. In a strict run no
///   entry is a refusal.
pub fn simulate_scenario<'f, W: Write, E: ProgressWriter>(
    alloc: Global,
    scenario: &Scenario,
    options: &RunOptions,
    io: &mut Io<W, E>,
) -> Result<Status, Fault<'f>>
    requires { vec_len scenario.now.stations ≤ 65535 }
    ensures done { result ≡ Ok Status.Done →
        IsDoneRun options.now.strict scenario.now }
{
    let options = *options;
    let mut course: Course<'_, '_, io::Empty> = Course {
        scenario,
        options: &options,
        moves: None,
    };
    run_into(alloc, &mut course, Outputs::none(), io)
}

/// Runs a scenario, and writes these files. Returns `Refused` if a frame was left out of its file.
/// With `strict`, also if an event was refused.
pub(crate) fn run_into<'a, M: BufRead + Drop, F: Write + Drop, W: Write, E: ProgressWriter>(
    alloc: Global,
    course: &mut Course<'_, 'a, M>,
    outputs: Outputs<'a, F>,
    io: &mut Io<W, E>,
) -> Result<Status, Fault<'a>>
    requires { vec_len course.old.scenario.now.stations ≤ 65535 }
    ensures done { result ≡ Ok Status.Done →
        IsDoneRun course.old.options.now.strict course.old.scenario.now }
{
    report_unknown(course.scenario, &mut io.err);
    let (options, format) = (course.options, io.format);
    if options.summary {
        let tally = Tally::new(alloc, course.scenario.present.as_slice())?;
        let has_contention = course.scenario.has_contention();
        let held = has_contention.then(|| HeldTally::new(alloc));
        let out = &mut io.out;
        return run_printed(
            alloc,
            course,
            Summary { tally, held, out },
            outputs,
            format,
            &mut io.err,
        );
    }
    if format.json {
        let lines = JsonLines::new(alloc, &mut io.out)?.noting(options.notes);
        return run_printed(alloc, course, lines, outputs, format, &mut io.err);
    }
    let words = match course.scenario.timeline.air() {
        Some(_) => TextLines::with_actions(&mut io.out, format.explain),
        None => TextLines::new(&mut io.out, format.explain),
    };
    let lines = words.noting(options.notes);
    run_printed(alloc, course, lines, outputs, format, &mut io.err)
}

/// Runs a scenario, prints these lines and writes these files, as `run_into` does.
fn run_printed<
    'a,
    L: EventSink + RunLines + Drop,
    M: BufRead + Drop,
    F: Write + Drop,
    E: ProgressWriter,
>(
    alloc: Global,
    course: &mut Course<'_, 'a, M>,
    lines: L,
    outputs: Outputs<'a, F>,
    format: OutputFormat,
    err: &mut E,
) -> Result<Status, Fault<'a>>
    requires { vec_len course.old.scenario.now.stations ≤ 65535 }
    ensures done { result ≡ Ok Status.Done →
        IsDoneRun course.old.options.now.strict course.old.scenario.now }
{
    let mut sinks = RunSinks::new(alloc, course, lines, outputs, format, err)?;
    let ran = sinks.run(alloc, course);
    sinks.end(ran, course.moves.as_ref())
}

/// Runs a scenario by its timeline, with its file of moves if it has one, and passes each event to
/// a sink when it is done. Returns the world after the last event.
pub(crate) fn run_timeline<M: BufRead + Drop, S: EventSink>(
    alloc: Global,
    course: &mut Course<'_, '_, M>,
    sink: &mut S,
) -> Result<World, AirFault>
    requires { vec_len course.old.scenario.now.stations ≤ 65535 }
    ensures { S.Took sink.old [] [] → IfOk result (λ world.
        IsRunOf course.old.scenario.now world (S.Took sink.new)) }
{
    let scenario = course.scenario;
    match (&scenario.timeline, &mut course.moves) {
        (Timeline::Moves(timeline), Some(moves)) => {
            run_moves(alloc, scenario, timeline, &mut moves.rows, sink)
        }
        _ => run_scenario(alloc, scenario, sink),
    }
}

/// How many unknown keys are printed.
const MOST_UNKNOWN: usize = 20;

/// Reports on standard error unknown keys of a scenario's document, of its stations and of its
/// events, which are ignored: a line for each of the first 20, and one with the number of the
/// others, if there are any. A write that fails is ignored.
pub fn report_unknown<E: Write>(scenario: &Scenario, err: &mut E) {
    for key in scenario.unknown.iter().take(MOST_UNKNOWN) {
        let tip = Explanation(key.tip());
        let _ = writeln!(err, "geostation: scenario: {key}{tip}");
    }
    let others = scenario.unknown.len().saturating_sub(MOST_UNKNOWN);
    if others > 0 {
        let _ = writeln!(err, "geostation: scenario: unknown: {others} more keys");
    }
}

/// Reads all text of the reader as a scenario with at most `most_stations` stations, with these
/// choices. `file` is its name.
///
/// Returns the fault of the scenario, or that a read failed or memory ran out.
pub fn read_scenario<'a, R: Read + Drop>(
    alloc: Global,
    file: &'a str,
    reader: R,
    most_stations: usize,
    reading: &Reading,
) -> Result<Scenario, RunFault<'a>>
    ensures few { IfOk result (λ scenario. vec_len scenario.stations ≤ most_stations) }
    ensures plain { reading.now.air ≡ air_tables.Ignored →
        IfOk result (λ scenario. IsPlain scenario.timeline) }
{
    let text = read_text(alloc, file, reader)?;
    Scenario::read(alloc, text.as_slice(), most_stations, reading).map_err(
        |fault| fault_of_scenario(fault, file),
    )
}

/// Reads all text of the reader. `file` is its name.
fn read_text<'a, R: Read + Drop>(
    alloc: Global,
    file: &'a str,
    reader: R,
) -> Result<Vec<u8>, Fault<'a>> {
    let mut reader = reader;
    let mut text = Vec::new(alloc);
    match reader.read_to_end(&mut text) {
        Ok(_) => Ok(text),
        Err(error) => Err(Fault::of_read(&error, file)),
    }
}
