//! What ends a simulation before its last event.

use its_gnvalue::NoMemory;
use its_words::json_lines::JsonFault;
use std::alloc::AllocError;
use std::io;
use thiserror::Error;

/// Why a simulation ended before its last event. The lines of the events before it are written.
#[derive(Debug, Drop, Error)]
pub enum SimulationFault {
    /// An allocation failed.
    #[error("out of memory")]
    OutOfMemory(#[from(alloc)] AllocError),
    /// A line could not be written. The error isn't kept: each event of a run returns a result of
    /// this type, and an error is large.
    #[error("the output failed")]
    Output,
}

impl From<io::Error> for SimulationFault {
    fn from(_: io::Error) -> SimulationFault {
        SimulationFault::Output
    }
}

impl From<NoMemory> for SimulationFault {
    fn from(_: NoMemory) -> SimulationFault {
        SimulationFault::OutOfMemory(AllocError)
    }
}

impl From<JsonFault> for SimulationFault {
    fn from(fault: JsonFault) -> SimulationFault {
        match fault {
            JsonFault::OutOfMemory => SimulationFault::OutOfMemory(AllocError),
            // No line of an event has such a value.
            JsonFault::Kind => SimulationFault::Output,
        }
    }
}
