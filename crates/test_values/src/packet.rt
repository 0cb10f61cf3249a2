//! Tests of packets, frames and files of records through their public calls: typed values that are
//! written, devices of the caller's own, memory that runs out, and the longest values. How octets
//! are read is tested with the program (`checks/packets`, `checks/failures`).

#[cfg(test)]
mod devices;
#[cfg(test)]
mod faults;
#[cfg(test)]
mod frames;
#[cfg(test)]
mod memory;
#[cfg(test)]
mod packets;
#[cfg(test)]
mod vectors;
