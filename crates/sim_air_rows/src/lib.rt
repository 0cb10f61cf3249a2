//! Two runs of four stations in an air, without beacons and with them, line by line: what each run
//! does and what is answered is written out, and the definitions of an air and of a world give just
//! these lines. Nothing of this crate runs.
//!
//! # What is proved
//!
//! The definitions are evaluated, so an edit of them that changes a line is refused here.
//! `FourStations` has the lines. `cases/air.md` has what `sim` prints.
#![tactic(auto)]

pub mod laws;
