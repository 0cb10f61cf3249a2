//! What ends a run with a radio model before its last event.

use its_gnvalue::NoMemory;
use sim_moves::MovesFault;
use sim_queue::QueueFault;
use sim_simulation::SimulationFault;
use std::alloc::{AllocError, AllocFailed};
use thiserror::Error;

/// Why a run with a radio model ended before its last event. The sink has the events before it.
#[derive(Debug, Drop, Error)]
pub enum AirFault {
    /// An allocation failed.
    #[error("out of memory")]
    OutOfMemory(#[from(alloc)] AllocError),
    /// The sink failed.
    #[error("the output failed")]
    Output,
    /// There are 2^64 events or more.
    #[error("too many events")]
    TooManyEvents,
    /// The next row of moves can't be read.
    #[error("moves: {0}")]
    Moves(MovesFault),
    /// The scenario is for a file of moves, and is run without it.
    #[error("no rows of moves")]
    NoRows,
}

impl From<MovesFault> for AirFault {
    fn from(fault: MovesFault) -> AirFault {
        match fault {
            MovesFault::NoMemory => AirFault::OutOfMemory(AllocError),
            MovesFault::Line(..) | MovesFault::Read(_) => AirFault::Moves(fault),
        }
    }
}

impl From<NoMemory> for AirFault {
    fn from(_: NoMemory) -> AirFault {
        AirFault::OutOfMemory(AllocError)
    }
}

impl From<QueueFault> for AirFault {
    fn from(fault: QueueFault) -> AirFault {
        match fault {
            QueueFault::OutOfMemory(error) => AirFault::OutOfMemory(error),
            QueueFault::TooManyEvents => AirFault::TooManyEvents,
        }
    }
}

impl From<SimulationFault> for AirFault {
    fn from(fault: SimulationFault) -> AirFault {
        match fault {
            SimulationFault::OutOfMemory(error) => AirFault::OutOfMemory(error),
            SimulationFault::Output => AirFault::Output,
        }
    }
}
