//! The lines of the files that commands read.
//!
//! # What is proved
//!
//! The octets of a line are kept in a buffer that never has to grow (`Line::add`). For further
//! octets it only keeps whether there are any, whether their number is odd, and whether one is not
//! a hexadecimal digit (`Passed::add`).
//!
//! # Only tested
//!
//! `checks/failures`: lines in pieces of any size, interrupted and failed reads, lines of a
//! mebibyte in little memory, failed allocations.
#![tactic(auto)]

pub mod lines;
