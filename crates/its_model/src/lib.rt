//! The protocol apart from octets and tables: what stations and a world of them do, and what holds
//! of that over every schedule. The definitions are in `specs/`, the laws in [`laws`]; nothing of
//! this crate runs.
//!
//! # What is proved
//!
//! Each law is the contract of a function of `laws` with an empty body. All hold for every list of
//! configs, events or calls, and for geobroadcasts (GBC) and geoanycasts (GAC) alike.
//! `sources_are_isolated` has premises (docs/proof/DEFINITIONS.md).
//!
//! Evaluated: small worlds, steps and decisions in `proofs/Rows*.antt`. Its mutants are wrong
//! definitions, each of which makes a law or a small world false.
//!
//! # Not promised
//!
//! That any delivery comes, so that a payload reaches a station to which none did; anything of
//! single-hop broadcasts beyond each single step, that relays and link targets are the same without
//! the frames of others, protection against a frame that bears another's address.
#![tactic(auto)]

pub mod laws;
