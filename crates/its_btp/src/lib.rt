//! BTP-B (EN 302 636-5-1): its header, and the ports that are open.
//!
//! # What is proved
//!
//! `split` and `join_into` read and write the header, the highest octet first. `Ports` has each
//! open port once, and at most 64. No call has a condition, and none takes memory, by their types.
//!
//! # Only tested
//!
//! - `test_values::table`: worked headers, 64 ports that are opened and closed, and the sentences.
#![tactic(auto)]

mod header;
mod ports;

pub use header::{HEADER_LENGTH, Short, join_into, split};
pub use ports::{MAX_OPEN_PORTS, PortFault, Ports};
