//! Why an event can't be put into a queue.

use std::alloc::{AllocError, AllocFailed};
use thiserror::Error;

/// Why an event can't be put into a queue.
#[derive(Clone, Copy, Debug, PartialEq, Eq, Error)]
pub enum QueueFault {
    /// An allocation failed.
    #[error("out of memory")]
    OutOfMemory(#[from(alloc)] AllocError),
    /// There are 2^64 events or more.
    #[error("too many events")]
    TooManyEvents,
}
