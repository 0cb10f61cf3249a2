//! The faults of a mesh: those of sockets, and those of any command.

ghost use Rattle.std.specs.Prelude.{◌≡◌};

use cmd_reporting::{CommandFault, Fault, OutputFormat, Status, WriterFault};
use its_gnvalue::NoMemory;
use sim_runs::RunFault;
use sim_simulation::SimulationFault;
use std::alloc::AllocError;
use std::io::Write;
use thiserror::Error;

/// A failed call of the socket of a station, counted from 0. It prints as its line on standard
/// error.
#[derive(Clone, Copy, Debug, PartialEq, Eq, Error)]
pub(crate) enum SocketFault {
    /// The socket could not be made.
    #[error("geostation: station {0}: no socket")]
    NoSocket(usize),
    /// A send from it failed.
    #[error("geostation: station {0}: send failed")]
    SendFailed(usize),
    /// A receive from it failed.
    #[error("geostation: station {0}: receive failed")]
    ReceiveFailed(usize),
}

/// Why a mesh ended before its last event, or didn't begin.
#[derive(Debug, Drop, Error)]
pub(crate) enum MeshFault<'a> {
    /// A socket could not be made.
    #[error("{0}")]
    Socket(SocketFault),
    /// The scenario is not run, or a fault that can end any command.
    #[error("{0}")]
    Run(RunFault<'a>),
}

impl CommandFault for MeshFault<'_> {
    type Ending = Status;

    ghost use Rattle.cmd_mesh.specs.Statuses.{mesh_fault_status};

    ghost status_of = { mesh_fault_status };

    /// Returns `Failed` for a socket, and otherwise the status of the run's fault.
    fn status(&self) -> Status {
        match self {
            MeshFault::Socket(_) => Status::Failed,
            MeshFault::Run(fault) => fault.status(),
        }
    }

    fn report<E: Write>(&self, format: OutputFormat, err: &mut E) {
        match self {
            MeshFault::Socket(_) => {
                let _ = writeln!(err, "{self}");
            }
            MeshFault::Run(fault) => fault.report(format, err),
        }
    }
}

/// Returns the fault of a command that could not write a line.
pub(crate) fn fault_of_lines<'a>(fault: SimulationFault) -> Fault<'a> {
    match fault {
        SimulationFault::OutOfMemory(error) => Fault::OutOfMemory(error),
        SimulationFault::Output => Fault::no_output(),
    }
}

impl<'a> From<RunFault<'a>> for MeshFault<'a> {
    fn from(fault: RunFault<'a>) -> MeshFault<'a> {
        MeshFault::Run(fault)
    }
}

impl<'a> From<Fault<'a>> for MeshFault<'a> {
    fn from(fault: Fault<'a>) -> MeshFault<'a> {
        MeshFault::Run(RunFault::Stopped(fault))
    }
}

impl From<NoMemory> for MeshFault<'_> {
    fn from(_: NoMemory) -> Self {
        MeshFault::Run(RunFault::Stopped(Fault::OutOfMemory(AllocError)))
    }
}

impl<'a> From<MeshFault<'a>> for WriterFault<'a, MeshFault<'a>> {
    ghost use Rattle.cmd_reporting.specs.declared.fault.WriterFault.TheVariants as writer_faults;

    ghost from_gives = { λ fault e. e ≡ writer_faults.Stopped fault };

    fn from(fault: MeshFault<'a>) -> WriterFault<'a, MeshFault<'a>> {
        WriterFault::Stopped(fault)
    }
}
