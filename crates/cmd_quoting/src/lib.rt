//! How a message shows a text from outside: a name, a path or a value of a file or an argument. The
//! text stays on its line, and different texts print differently.
//!
//! # What is proved
//!
//! `OneLine` and `Quoted` print a text from outside. No call allocates memory. No clause says what
//! is printed.
//!
//! # Only tested
//!
//! - `checks/names`: that a name or a value stays on the line of its message, for each message of
//!   `sim`, `view`, `mesh` and `station`; which letters are written by their number, against
//!   Unicode's tables; that a backslash is doubled, and a value cut after 40 characters.
#![tactic(auto)]

mod letter;
mod one_line;
mod quoted;

pub use one_line::OneLine;
pub use quoted::Quoted;
