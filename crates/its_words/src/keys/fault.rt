//! Why the value of a key was not taken.

use crate::keys::key::Key;
use crate::keys::wrong::{Wrong, WrongOf};

/// Why the value of a key was not taken.
#[derive(Clone, Copy, Debug, PartialEq, Eq)]
pub enum KeyFault {
    /// The key is missing, or its value is of another kind or out of range.
    Refused(Key, Wrong),
    /// An allocation failed.
    OutOfMemory,
}

impl KeyFault {
    /// Returns what is wrong with the value of the key. `None` if an allocation failed.
    pub fn wrong(self) -> Option<WrongOf> {
        match self {
            KeyFault::Refused(key, wrong) => Some(WrongOf(key, wrong)),
            KeyFault::OutOfMemory => None,
        }
    }
}
