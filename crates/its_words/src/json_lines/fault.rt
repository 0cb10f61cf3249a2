//! Why a value can't be written as a line.

ghost use Rattle.std.specs.Prelude.{◌≡◌};
ghost use Rattle.its_words.specs.declared.json_lines.fault.JsonFault.TheVariants.{OutOfMemory};

use std::alloc::{AllocError, AllocFailed};
use thiserror::Error;

/// Why a value can't be written as a line.
#[derive(Clone, Copy, Debug, PartialEq, Eq, Error)]
pub enum JsonFault {
    /// An allocation failed.
    #[error("out of memory")]
    OutOfMemory,
    /// It has a part of a kind that no line has: a float, a character, an integer of 128 bits, a
    /// variant with fields, or a key that is not the name of a field. Or it prints nothing.
    #[error("a value of a kind that no line has")]
    Kind,
}

impl From<AllocError> for JsonFault {
    ghost from_gives = { λ _ fault. fault ≡ OutOfMemory };

    fn from(_: AllocError) -> JsonFault {
        JsonFault::OutOfMemory
    }
}

impl<T: Drop> From<AllocFailed<T>> for JsonFault {
    ghost from_gives = { λ _ fault. fault ≡ OutOfMemory };

    fn from(_: AllocFailed<T>) -> JsonFault {
        JsonFault::OutOfMemory
    }
}
