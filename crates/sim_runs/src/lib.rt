//! The command `sim`: runs a scenario, prints its lines, and writes its frames to a file.
//!
//! # What is proved
//!
//! - A strict run ends with `Refused` if and only if one of its entries is a refusal, without moves
//!   and with them (`IsRunStatus`; `run`, `ends`: `EndsRun`). After the reports on a run and its
//!   file of frames, the status is `Done` only if it was `Done` before (`Report::end`,
//!   `RunSinks::end`, `run_into`: `done`).
//! - No file that a run writes is one that it reads, or another one that it writes
//!   (`keep_all_apart`: `AreAllApart`).
//!
//! # Only tested
//!
//! - `cases/arguments.md`: that the command over files ends with the same status.
//! - `checks/failures`: failed reads and allocations, full files.
//! - `checks/terminal`: progress.
//! - `cases/frames.md`, `cases/moving.md`: the names of interfaces, that `sim` passes each frame to
//!   its file, and a run that its moves file cuts short.
#![tactic(auto)]

mod asked;
mod bad_row;
mod course;
mod fault;
mod files;
mod in_file;
mod input;
mod lines;
mod options;
mod outputs;
mod progress;
mod report;
mod simulating;
mod sinks;
mod summary;

pub use bad_row::BadRow;
pub use fault::RunFault;
pub use files::{RunFiles, RunInputs, RunReader, read_inputs, simulate_file};
pub use input::Input;
pub use options::RunOptions;
pub use sim_results::ResultFiles;
pub use sim_simulation::VERSION;
pub use simulating::{read_scenario, report_unknown, simulate, simulate_scenario};
pub use sinks::is_refused;
