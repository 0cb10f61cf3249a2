//! Tables, as commands print them: as text, and their rows as JSON.
//!
//! # Only tested
//!
//! `cases/stats.md`, `cases/follow.md`, `checks/stats`, `checks/follow`: the widths of columns,
//! hyphens, and arrays of rows.
#![tactic(auto)]

mod optional;
mod rows;
mod table;

pub use optional::Hyphened;
pub use rows::RowArray;
pub use table::Table;
