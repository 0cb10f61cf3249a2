//! What all commands of the program have in common: how they end, what they report then, and the
//! files that they read and write.
//!
//! # What is proved
//!
//! By its type a `Status` is never that of refused arguments. `CommandFault::Ending` says which
//! faults may refuse them. By their types `open`, `create`, `create_output` and `create_frames` end
//! with `Failed` or not at all, `keep_apart` with refused arguments. Files that exist are the same
//! by device and inode, others by those of their folder and the last part of their name
//! (`NamedFile::is`: `same_file`).
//!
//! # Only tested
//!
//! - `cases/import.md`, `cases/files.md`: a file that is missing or can't be created, and that no
//!   input is written over.
//! - `checks/failures`: failed allocations and full files.
#![tactic(auto)]

mod cause;
mod command_io;
mod fault;
mod files;
mod frame_file;
mod left_out;
mod named_file;
mod options;
mod outputs;
mod progress;
mod status;

pub use cause::Cause;
pub use command_io::Io;
pub use fault::{CommandFault, Fault, WriterFault};
pub use files::{Destination, Opened, create, create_output, keep_apart, open};
pub use frame_file::{FrameFile, create_frames, end_frames};
pub use left_out::LeftOut;
pub use named_file::{NamedFile, refuse_same};
pub use options::OutputFormat;
pub use outputs::{FrameTarget, OutputFault, Target, frame_target, is_standard};
pub use progress::{ProgressWriter, RunProgress};
pub use status::{ExitStatus, Status};
