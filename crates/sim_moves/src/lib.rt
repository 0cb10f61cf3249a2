//! Moves of stations from a file: rows of CSV (RFC 4180, but a row is one line), read one after the
//! other in bounded memory. The columns are this project's own, or those of SUMO.
//!
//! # What is proved
//!
//! - Fields of a line and of a row are those of the written rules (`split`, `fields_of`,
//!   `find_bounds`, `join`).
//! - The columns are those of the first line. It is refused if and only if one is missing or occurs
//!   twice, or names are of both kinds (`columns_of`, `IsHeader`).
//! - Numbers are those that the fields write, a decimal's the nearest of its unit, halves away from
//!   zero (`AreNumbers`). The fault of a row is its first one (`IsFirstWord`).
//!
//! # Only tested
//!
//! - `cases/moving.md`, `checks/air`: the lines of a file, which of them are ignored, and the
//!   number of a bad one.
#![tactic(auto)]

mod columns;
mod decimal;
mod fault;
mod fields;
mod row;
mod rows;

pub use columns::{Column, Columns, Notation};
pub use fault::{HeaderFault, MovesFault, MovesReadFault, Word, WordReason};
pub use row::Row;
pub use rows::{LONGEST_LINE, Rows};
