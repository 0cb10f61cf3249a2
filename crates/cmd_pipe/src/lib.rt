//! The command `station`: one station on a pipe. It reads JSON lines and answers each with one JSON
//! line, which is written before the next line is read. So a test bench in any language can drive a
//! station and control its clock. Each line makes one call of the station, or queries its state
//! (`its_lines`).
//!
//! # What is proved
//!
//! Each line of the input is answered, in order, as `its_lines` answers it (`serve`).
//!
//! # Only tested
//!
//! - `cases/station.md`, `checks/station`: that each answer is written before the next line is
//!   read.
//! - `checks/failures`: failed reads, writes and allocations, a hundred thousand lines in little
//!   memory.
#![tactic(auto)]

mod command;
mod fault;
mod printer;
mod serving;
mod sink;

pub use command::{run_contending_station, run_station};
pub use fault::PipeFault;
pub use printer::Printer;
pub use serving::serve;
pub use sink::ResponseSink;
