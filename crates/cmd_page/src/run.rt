//! The run that the page shows.

ghost use Rattle.std.specs.Prelude.{◌≤◌, vec_len};

use crate::fault::PageFault;
use crate::inside::Inside;
use crate::limit::{Content, Limited, TooLarge};
use crate::name::ShownName;
use crate::way::{CopyError, Way, copy, fault_of};
use cmd_reporting::{Fault, Io, OutputFormat, ProgressWriter, Status};
use sim_runs::{RunFault, RunInputs, RunOptions, read_scenario, simulate_scenario};
use sim_scenario::{MOST_STATIONS, Reading, Scenario};
use std::alloc::Global;
use std::io;
use std::io::{BufRead, Write};

/// The end of a name of a scenario.
const SCENARIO_ENDING: &str = ".toml";

/// A scenario that can be run.
#[derive(Drop)]
pub(crate) struct Runnable {
    scenario: Scenario,
    ghost few: { vec_len scenario.stations ≤ 65535 },
}

/// What is shown.
#[derive(Drop)]
pub(crate) enum Shown<'a, R: Drop, M: BufRead + Drop> {
    /// The lines of a run, as its file has them.
    Lines(R),
    /// A scenario, which is run for the page.
    Scenario(Runnable),
    /// A scenario that is run with its moves.
    Moved(RunInputs<'a, M>),
}

impl<R: Drop, M: BufRead + Drop> Shown<'_, R, M> {
    /// Returns what kind of content it is.
    fn content(&self) -> Content {
        match self {
            Shown::Lines(_) => Content::Lines,
            Shown::Scenario(_) | Shown::Moved(_) => Content::Scenario,
        }
    }
}

/// Finds what the file with this name is: a scenario if the name ends in `.toml` or the first octet
/// isn't `{`, and otherwise the lines of a run. A scenario is read to its end. Returns the fault of
/// the scenario, or that a read failed or memory ran out.
pub(crate) fn shown_of<'a, R: BufRead + Drop, M: BufRead + Drop>(
    alloc: Global,
    file: &'a str,
    mut reader: R,
) -> Result<Shown<'a, R, M>, RunFault<'a>> {
    let is_run = match begins_object(&mut reader) {
        Ok(begins) => begins && !file.ends_with(SCENARIO_ENDING),
        Err(error) => return Err(RunFault::from(Fault::of_read(&error, file))),
    };
    if is_run {
        return Ok(Shown::Lines(reader));
    }
    let scenario = read_scenario(alloc, file, reader, MOST_STATIONS, &Reading::default())?;
    Ok(Shown::Scenario(Runnable { scenario }))
}

/// Whether the first octet is that of an object in JSON.
fn begins_object<R: BufRead>(reader: &mut R) -> io::Result<bool> {
    Ok(reader.fill_buf()?.first() == Some(&b'{'))
}

/// Writes the element of the page that has the run. For a scenario with a radio model it has the
/// notes. `TooLarge` if the page can't hold it.
pub(crate) fn write_run<'a, R: BufRead + Drop, M: BufRead + Drop, W: Write, E: ProgressWriter>(
    alloc: Global,
    way: Way<'a>,
    shown: Shown<'a, R, M>,
    options: &RunOptions,
    out: &mut W,
    err: &mut E,
) -> Result<Status, PageFault<'a>> {
    let name = ShownName(way.file);
    let begun = writeln!(
        out,
        "<script type=\"application/jsonl\" id=\"inside\" data-name=\"{name}\">"
    );
    way.or_fault(begun)?;
    let content = shown.content();
    let mut limited = Limited::new(out, content);
    let written = write_shown(alloc, way, shown, options, &mut limited, err);
    if limited.is_over() {
        return Err(PageFault::from(way.too_large(content, way.file)));
    }
    let status = written?;
    way.or_fault(writeln!(out, "</script>"))?;
    Ok(status)
}

/// Writes an element without a run, which makes the page say what is too large for it.
pub(crate) fn write_too_large<'a, W: Write>(
    way: Way<'a>,
    fault: TooLarge<'a>,
    out: &mut W,
) -> Result<(), Fault<'a>> {
    let (name, word) = (ShownName(fault.file), fault.content.word());
    let written = writeln!(
        out,
        "<script type=\"application/jsonl\" id=\"inside\" data-name=\"{name}\" \
         data-large=\"{word}\"></script>"
    );
    way.or_fault(written)
}

/// Writes the lines of what is shown.
fn write_shown<'a, R: BufRead + Drop, M: BufRead + Drop, W: Write, E: ProgressWriter>(
    alloc: Global,
    way: Way<'a>,
    shown: Shown<'a, R, M>,
    options: &RunOptions,
    out: &mut W,
    err: &mut E,
) -> Result<Status, Fault<'a>> {
    match shown {
        Shown::Lines(reader) => write_lines(way, reader, out),
        Shown::Scenario(runnable) => {
            let Runnable { scenario } = runnable;
            write_lines_of(alloc, way, &scenario, options, out, err)
        }
        Shown::Moved(inputs) => write_moved(alloc, way, inputs, options, out, err),
    }
}

/// Writes all lines of the reader.
fn write_lines<'a, R: BufRead + Drop, W: Write>(
    way: Way<'a>,
    reader: R,
    out: &mut W,
) -> Result<Status, Fault<'a>> {
    let mut reader = reader;
    let mut inside = Inside::new(out);
    match copy(&mut reader, &mut inside) {
        Ok(()) => Ok(Status::Done),
        Err(CopyError::Read(error)) => Err(Fault::of_read(&error, way.file)),
        Err(CopyError::Write(error)) => Err(fault_of(&error, way.target)),
    }
}

/// Runs the scenario, and writes its lines.
fn write_lines_of<'a, W: Write, E: ProgressWriter>(
    alloc: Global,
    way: Way<'a>,
    scenario: &Scenario,
    options: &RunOptions,
    out: &mut W,
    err: &mut E,
) -> Result<Status, Fault<'a>>
    requires { vec_len scenario.now.stations ≤ 65535 }
{
    let options = lines_options(options, scenario.timeline.air().is_some());
    let mut inside = inside_of(way, out, err);
    let ran = simulate_scenario(alloc, scenario, &options, &mut inside);
    if inside.out.has_failed() {
        // A run's fault is that of standard output, which this may not be.
        return Err(Fault::of_target(way.target));
    }
    ran
}

/// Runs the scenario with its moves, and writes its lines.
fn write_moved<'a, M: BufRead + Drop, W: Write, E: ProgressWriter>(
    alloc: Global,
    way: Way<'a>,
    inputs: RunInputs<'a, M>,
    options: &RunOptions,
    out: &mut W,
    err: &mut E,
) -> Result<Status, Fault<'a>> {
    // Moves need an air.
    let options = lines_options(options, true);
    let mut inside = inside_of(way, out, err);
    let ran = inputs.run(alloc, &options, &mut inside);
    if inside.out.has_failed() {
        return Err(Fault::of_target(way.target));
    }
    ran
}

/// Returns the options with which a scenario is run for the page.
fn lines_options(options: &RunOptions, has_air: bool) -> RunOptions {
    RunOptions {
        summary: false,
        notes: has_air,
        ..*options
    }
}

/// Returns the streams of a run that prints its lines into an element of the page.
fn inside_of<'o, W: Write, E: ProgressWriter>(
    way: Way<'_>,
    out: &'o mut W,
    err: &'o mut E,
) -> Io<Inside<'o, W>, &'o mut E> {
    Io {
        out: Inside::new(out),
        err,
        format: OutputFormat {
            json: true,
            ..way.format
        },
    }
}
