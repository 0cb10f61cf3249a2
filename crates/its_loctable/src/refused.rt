//! Why a store refuses a packet.

ghost use Rattle.std.specs.Prelude.{◌≡◌};
ghost use Rattle.its_loctable.specs.Codes.{code_of};
ghost use Rattle.its_loctable.specs.declared.refused.StoreRefused.TheVariants as refusals;

use its_gnvalue::NoMemory;
use std::error::Error;
use std::fmt;

/// Why a store refuses a packet; nothing changed.
#[derive(Clone, Copy, Debug, PartialEq, Eq)]
pub enum StoreRefused {
    /// T1: the source isn't live, and as many others are as the store has room for.
    Full,
    /// T2: an allocation failed.
    NoMemory,
}

impl StoreRefused {
    /// What logs show: T1 or T2.
    pub fn code(&self) -> &'static str
        ensures { result.now ≡ code_of self.now }
    {
        match self {
            StoreRefused::Full => "T1",
            StoreRefused::NoMemory => "T2",
        }
    }
}

impl fmt::Display for StoreRefused {
    fn fmt<W: fmt::Write>(&self, f: &mut fmt::Formatter<W>) -> fmt::Result {
        match self {
            StoreRefused::Full => write!(f, "the location table is full"),
            StoreRefused::NoMemory => write!(f, "out of memory"),
        }
    }
}

impl Error for StoreRefused {}

impl From<NoMemory> for StoreRefused {
    ghost from_gives = { λ fault refused. refused ≡ refusals.NoMemory };

    fn from(_: NoMemory) -> StoreRefused {
        StoreRefused::NoMemory
    }
}
