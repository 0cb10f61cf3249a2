//! Tests of what a station withstands, and of a station as a program that embeds it sees it,
//! through its public calls.
#![tactic(auto)]

#[cfg(test)]
mod embedding;
#[cfg(test)]
mod endurance;
#[cfg(test)]
mod fates;
#[cfg(test)]
mod stations;
