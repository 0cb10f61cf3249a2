//! The model of a radio model: its timetable, which says what is done for given rules, stations and
//! file, and the laws of its runs. Nothing in this crate is run.
//!
//! # What is proved
//!
//! Laws of a run with a radio model (`air_run`). `run_air` of `sim_air` does such a run (its clause
//! `timed`).
//!
//! Nothing in this crate is run, so nothing is only tested.
//!
//! # Neither proved nor tested
//!
//! Whether real radios follow the rules of the model.
#![tactic(auto)]

pub mod laws;
