//! Tests of contention: rules, a buffer behind a station, and copies, through their public calls.

#[cfg(test)]
mod contender;
#[cfg(test)]
mod copies;
#[cfg(test)]
mod frames;
#[cfg(test)]
mod limits;
#[cfg(test)]
mod senders;
#[cfg(test)]
mod times;
#[cfg(test)]
mod units;
#[cfg(test)]
mod waits;
