//! The words of a station: the keys and the words of calls, how a call is read from them, and
//! answers, frames and values as keys, words and lines of JSON.
//!
//! # What is proved
//!
//! A value is what is under its key, in the range of the one table of keys (`whole`, `place`). The
//! fault is that of a key without a value that it takes. A call is the one that its word and the
//! keys of that word say (`read_call`). `nearest` is the first word with the fewest changed
//! letters, at most two. A line of JSON is compact, and never empty (`JsonLine::of`).
//!
//! # Only tested
//!
//! - `cases/scenario.md`, `cases/reading.md`, `cases/station.md`: each refusal and its sentence;
//!   which of several bad keys is refused first; each key at both ends of its range; both letter
//!   cases.
//! - `test_values`, `cases/sim.md`, `checks/cases`: which keys and values a line of JSON has.
//! - `checks/failures`: failed allocations.
//!
//! # By review
//!
//! A key is looked up once for each value that is read.
#![tactic(auto)]

pub mod answers;
pub mod calls;
pub mod frames;
pub mod ids;
pub mod json_lines;
pub mod keys;
