//! Formats: one language for what octets say. A format lists the fields of octets in their order,
//! each with its width, its test and its kind of fault. Nothing of this crate runs.
//!
//! Packets, secured packets and messages are formats, each with faults of its own: `Faults` says
//! how a fault is made of a length, or of a position and a kind.
//!
//! # What is proved
//!
//! The lemmas of `proofs/` are about every format, whatever its faults are. The crates that name a
//! format cite them. A walk of a format reads what the format spells, and nothing else. A walk that
//! fails returns the first fault: that of the first field with which no encoding begins any more.
//!
//! Nothing of this crate runs, so nothing of it is only tested.
#![tactic(auto)]
