//! Tests of units, of contention beside a station and of limits, through their public calls.
#![tactic(auto)]

#[cfg(test)]
mod contention;
#[cfg(test)]
mod governor;
