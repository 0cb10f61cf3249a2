//! Why a scenario is not run, or why its run ends.

ghost use Rattle.std.specs.Prelude.{◌≡◌};

use crate::bad_row::BadRow;
use crate::in_file::InFile;
use cmd_reporting::{CommandFault, Fault, OutputFormat, Status, WriterFault};
use its_words::frames::Explanation;
use sim_air::AirFault;
use sim_moves::MovesFault;
use sim_scenario::{DocumentFault, ScenarioFault};
use std::alloc::AllocError;
use std::io::Write;
use thiserror::Error;

/// Why a scenario was not run. It prints as its line on standard error.
#[derive(Debug, Drop, Error)]
pub enum RunFault<'a> {
    /// The text of the file with this name is not a scenario.
    #[error("geostation: {1}")]
    Scenario(&'a str, ScenarioFault),
    /// A line of the file of moves is bad.
    #[error("{0}")]
    Row(BadRow<'a>),
    /// The scenario was read for the moves of a file, and is run without one.
    #[error("geostation: the scenario was read for a file of moves, and none is given")]
    NoMoves,
    /// A fault that can end any command.
    #[error("{0}")]
    Stopped(Fault<'a>),
}

impl CommandFault for RunFault<'_> {
    type Ending = Status;

    ghost use Rattle.sim_runs.specs.Runs.{run_fault_status};

    ghost status_of = { run_fault_status };

    /// Returns `Refused` for a fault of a scenario or of a line of moves, and otherwise `Failed`.
    fn status(&self) -> Status {
        match self {
            RunFault::Scenario(..) => Status::Refused,
            RunFault::Row(row) => row.status(),
            RunFault::NoMoves => Status::Failed,
            RunFault::Stopped(fault) => fault.status(),
        }
    }

    /// For a text that is not a scenario and for a bad line of moves, the line has the name of the
    /// file and a sentence. For a fault of a file it has the system's reason.
    fn report<E: Write>(&self, format: OutputFormat, err: &mut E) {
        match self {
            RunFault::Scenario(file, fault) => {
                let reason = format.explain.then_some(InFile(file, fault.reason()));
                let _ = writeln!(err, "{self}{}", Explanation(reason));
            }
            RunFault::Row(row) => row.report(format, err),
            RunFault::NoMoves => {
                let _ = writeln!(err, "{self}");
            }
            RunFault::Stopped(fault) => fault.report(format, err),
        }
    }
}

/// Returns the fault of the scenario in the file with this name.
pub(crate) fn fault_of_scenario(fault: ScenarioFault, file: &str) -> RunFault<'_> {
    match fault {
        ScenarioFault::Document(DocumentFault::OutOfMemory) => {
            RunFault::Stopped(Fault::OutOfMemory(AllocError))
        }
        _ => RunFault::Scenario(file, fault),
    }
}

impl<'a> From<Fault<'a>> for RunFault<'a> {
    fn from(fault: Fault<'a>) -> RunFault<'a> {
        RunFault::Stopped(fault)
    }
}

impl<'a> From<RunFault<'a>> for WriterFault<'a, RunFault<'a>> {
    ghost use Rattle.cmd_reporting.specs.declared.fault.WriterFault.TheVariants as writer_faults;

    ghost from_gives = { λ fault e. e ≡ writer_faults.Stopped fault };

    fn from(fault: RunFault<'a>) -> WriterFault<'a, RunFault<'a>> {
        WriterFault::Stopped(fault)
    }
}

/// Returns the fault of a command that can't read more rows of the file with this name.
pub(crate) fn fault_of_moves<'a>(fault: MovesFault, file: &'a str) -> RunFault<'a> {
    match fault {
        MovesFault::Line(line, word) => RunFault::Row(BadRow {
            file,
            line,
            word,
            value: None,
        }),
        MovesFault::Read(fault) => RunFault::Stopped(Fault::of_read(&fault.error(), file)),
        MovesFault::NoMemory => RunFault::Stopped(Fault::OutOfMemory(AllocError)),
    }
}

/// Returns the fault of a command whose run with a radio model ended with this fault. `moves` is
/// the name of the file of moves, if there is one.
pub(crate) fn fault_of_air<'a>(fault: AirFault, moves: Option<&'a str>) -> RunFault<'a> {
    match fault {
        AirFault::OutOfMemory(error) => RunFault::Stopped(Fault::OutOfMemory(error)),
        AirFault::Output => RunFault::Stopped(Fault::no_output()),
        AirFault::Moves(fault) => fault_of_moves(fault, moves.unwrap_or("")),
        AirFault::NoRows => RunFault::NoMoves,
        // No memory has the counts of so many.
        AirFault::TooManyEvents => RunFault::Stopped(Fault::OutOfMemory(AllocError)),
    }
}

/// Whether the file of moves ended the run, by a bad line or a failed read. What was run before is
/// then reported.
pub(crate) fn is_cut_short(fault: &AirFault) -> bool {
    matches!(
        fault,
        AirFault::Moves(MovesFault::Line(..) | MovesFault::Read(_))
    )
}
