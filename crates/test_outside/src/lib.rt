//! Tests of `its_outside` through its public calls: rows of packets whose fields tshark has found
//! too, and octets that no standard lays out.
#![tactic(auto)]

#[cfg(test)]
mod faults;
#[cfg(test)]
mod fields;
#[cfg(test)]
mod rows;
