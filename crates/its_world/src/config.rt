//! How the stations of a world begin.

ghost use Rattle.std.specs.Prelude.{◌≡◌};
ghost use Rattle.its_world.specs.Mids.{mid_code};

use its_gnvalue::{GnAddress, Place};
use std::error::Error;
use std::fmt;

/// How a station begins.
#[derive(Clone, Copy, Debug, PartialEq, Eq)]
pub struct Config {
    /// Its address.
    pub address: GnAddress,
    /// Its position.
    pub place: Place,
    /// The size of its location table, 1 to 4096.
    pub capacity: u16,
    /// The length of its duplicate packet lists, 1 to 64.
    pub remember: u8,
}

/// Why a world can't be made.
#[derive(Clone, Copy, Debug, PartialEq, Eq)]
pub enum WorldFault {
    /// M1: two stations have one MID. The second of these numbers is the first station that has the
    /// MID of an earlier one. The first is that earlier one.
    SameMid(usize, usize),
    /// M2: an allocation failed.
    NoMemory,
}

impl WorldFault {
    /// The code that logs show.
    pub fn code(self) -> &'static str
        ensures { result.now ≡ mid_code self }
    {
        match self {
            WorldFault::SameMid(_, _) => "M1",
            WorldFault::NoMemory => "M2",
        }
    }
}

impl fmt::Display for WorldFault {
    fn fmt<W: fmt::Write>(&self, f: &mut fmt::Formatter<W>) -> fmt::Result {
        match self {
            WorldFault::SameMid(first, second) => {
                write!(f, "stations {first} and {second} share a MID")
            }
            WorldFault::NoMemory => write!(f, "out of memory"),
        }
    }
}

impl Error for WorldFault {}
