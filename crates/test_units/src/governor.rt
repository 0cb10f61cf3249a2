//! Tests of a station behind a governor, through its public calls.

#[cfg(test)]
mod flood;
#[cfg(test)]
mod options;
#[cfg(test)]
mod storm;
#[cfg(test)]
mod unit;
#[cfg(test)]
mod withheld;
