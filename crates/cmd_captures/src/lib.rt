//! The commands over captures: `show`, `check`, `convert` and `import`, each a function over named
//! files that returns the exit status.
//!
//! # What is proved
//!
//! - A walk over a capture ends with `Done` if and only if neither the capture nor a record is
//!   noted as refused (`Walked::status`).
//! - `convert` writes each selected record that OUT can hold, or the record of its frame, with its
//!   time and interface, in order, and nothing else (`copy`: `IsCopied`). A record that is left out
//!   adds nothing. The status is `Refused` if and only if a record was left out or the file has a
//!   fault. If a write failed, nothing is said of the file. With `--signed`, the frame inside a
//!   secured one is written (`IsFrameText`), or nothing if its message can't be read (`IsUnreadIn`).
//! - `import` keeps the first 2964 octets of a line. A line with more is no record (`read_line`),
//!   and has bad digits if and only if one of its characters is not a digit or their number is odd
//!   (`fault_of_long`).
//!
//! # Only tested
//!
//! - `cases/signed.md`: the words and keys of a secured frame.
//! - `cases/outside.md`, `checks/outside`: the words and keys of packets outside the profile.
//! - `cases/samples.md`, `show.md`, `converting.md`, `import.md`: lines and statuses, which records
//!   are refused with which code, how many times and interfaces are reported as lost, that a bad
//!   line makes no capture.
//! - `checks/failures`: failed reads, writes and allocations, full files, lines in pieces and of
//!   over a mebibyte, a million records in little memory, a pipe that nobody reads.
#![tactic(auto)]

mod checking;
mod converting;
mod field;
mod frame_line;
mod importing;
mod losses;
mod output;
mod outside_keys;
mod outside_line;
mod prompt;
mod refused_lines;
mod rows;
mod secured_keys;
mod showing;
mod text;
mod timed_frame;
mod utc;
mod written;

pub use cap_records::{Choice, Condition, Conditions, Kinds, Selection};
pub use checking::check_file;
pub use cmd_times::Time;
pub use converting::{Conversion, convert_file};
pub use field::{FIELDS, Field};
pub use importing::{LineFault, LinesFault, import_file, read_lines, write_frames};
pub use showing::{Showing, show_file};
pub use timed_frame::TimedFrame;
pub use utc::utc_moment;
