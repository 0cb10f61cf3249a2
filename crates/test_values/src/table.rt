//! Tests of location tables, of lists of recent numbers, of forwarding, of walks over neighbours
//! and of ports through their public calls, a module for each subject.

#[cfg(test)]
mod fixtures;
#[cfg(test)]
mod forwarding;
#[cfg(test)]
mod nearest;
#[cfg(test)]
mod pieces;
#[cfg(test)]
mod ports;
#[cfg(test)]
mod tables;
