//! The faults of octets: why they are no packet, or no frame (EN 302 636-4-1 clause 9, profile).
//!
//! Each prints a sentence for a person by `Display`, and what logs and the program's lines show by
//! `code()`. A station's refusal names faults, so their types stand below the definitions of
//! stations; what a fault says of octets is defined where the octets are.
//!
//! # What is proved
//!
//! `Fault::code` and `FrameFault::code` give a wrapper of this very fault, its place among it; what
//! it prints, as `G9 at 10` or `L5 G9 at 10`, is tested. `From<Fault> for FrameFault` is L5 with
//! that very fault, so that `?` leads from a packet's fault to a frame's.
//!
//! No call takes memory.
//!
//! # Only tested
//!
//! - `checks/packets`: what is printed, which is every code of a packet's and of a frame's fault,
//!   and the sentences (that of L5 in `test_values::packet`).
#![tactic(auto)]

mod frame;
mod packet;
mod secured;

pub use frame::{FrameCode, FrameFault};
pub use packet::{Fault, FaultCode, FaultKind};
pub use secured::{SecuredCode, SecuredFault};
