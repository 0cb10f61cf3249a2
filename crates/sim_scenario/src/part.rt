//! The tables of a scenario.

use std::fmt;

/// A table of a scenario, by its number from 0 if there are several. It prints as a fault shows it:
/// `station 3`, `air`.
#[derive(Clone, Copy, Debug, PartialEq, Eq)]
pub enum Part {
    /// A station.
    Station(usize),
    /// The radio model.
    Air,
    /// Traffic of the radio model.
    Every(usize),
    /// How moves are read.
    Moves,
    /// An event.
    Event(usize),
    /// Something that is expected.
    Expectation(usize),
}

impl fmt::Display for Part {
    fn fmt<W: fmt::Write>(&self, f: &mut fmt::Formatter<W>) -> fmt::Result {
        match self {
            Part::Station(number) => write!(f, "station {number}"),
            Part::Air => f.write_str("air"),
            Part::Every(number) => write!(f, "every {number}"),
            Part::Moves => f.write_str("moves"),
            Part::Event(number) => write!(f, "event {number}"),
            Part::Expectation(number) => write!(f, "expect {number}"),
        }
    }
}
