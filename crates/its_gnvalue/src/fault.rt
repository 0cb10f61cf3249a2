//! Why a value, memory or room is refused.

ghost use Rattle.std.specs.Prelude.{◌≡◌};
ghost use Rattle.its_gnvalue.specs.Codes.{value_code};

use std::alloc::{AllocError, AllocFailed};
use std::error::Error;
use std::fmt;

/// Out of memory: an allocation failed.
#[derive(Clone, Copy, Debug, PartialEq, Eq)]
pub struct NoMemory;

impl fmt::Display for NoMemory {
    fn fmt<W: fmt::Write>(&self, f: &mut fmt::Formatter<W>) -> fmt::Result {
        write!(f, "out of memory")
    }
}

impl Error for NoMemory {}

impl From<AllocError> for NoMemory {
    fn from(_: AllocError) -> NoMemory {
        NoMemory
    }
}

impl<T: Drop> From<AllocFailed<T>> for NoMemory {
    fn from(_: AllocFailed<T>) -> NoMemory {
        NoMemory
    }
}

/// The slice that was passed is shorter than what is to be written; it is as it was.
#[derive(Clone, Copy, Debug, PartialEq, Eq)]
pub struct NoRoom;

impl fmt::Display for NoRoom {
    fn fmt<W: fmt::Write>(&self, f: &mut fmt::Formatter<W>) -> fmt::Result {
        write!(f, "no room in the slice")
    }
}

impl Error for NoRoom {}

/// Why a number is no value of its field.
#[derive(Clone, Copy, Debug, PartialEq, Eq)]
pub enum ValueFault {
    /// V1: a latitude outside -900000000..=900000000 tenths of a microdegree.
    LatitudeRange,
    /// V2: a longitude outside -1800000000..=1800000000 tenths of a microdegree.
    LongitudeRange,
    /// V3: a speed outside -16384..=16383 hundredths of a metre a second.
    SpeedRange,
    /// V4: the MID of an address is a group MAC.
    GroupMid,
}

impl ValueFault {
    /// The code of the fault, V1 to V4: what logs show.
    pub fn code(self) -> &'static str
        ensures { result.now ≡ value_code self }
    {
        match self {
            ValueFault::LatitudeRange => "V1",
            ValueFault::LongitudeRange => "V2",
            ValueFault::SpeedRange => "V3",
            ValueFault::GroupMid => "V4",
        }
    }
}

impl fmt::Display for ValueFault {
    fn fmt<W: fmt::Write>(&self, f: &mut fmt::Formatter<W>) -> fmt::Result {
        match self {
            ValueFault::LatitudeRange => write!(f, "latitude outside -90 to 90 degrees"),
            ValueFault::LongitudeRange => write!(f, "longitude outside -180 to 180 degrees"),
            ValueFault::SpeedRange => write!(f, "speed outside -163.84 to 163.83 m/s"),
            ValueFault::GroupMid => write!(f, "the MID of an address is a group MAC"),
        }
    }
}

impl Error for ValueFault {}
