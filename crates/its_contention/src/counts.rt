//! Counts of frames that wait to be forwarded, by outcome.

/// How often each thing happened. A count stays at 2^64 - 1 once it is there.
#[derive(Clone, Copy, Debug, PartialEq, Eq)]
pub struct ContentionCounts {
    /// Frames that began to wait.
    pub held: u64,
    /// Frames that were released: they were to be sent.
    pub released: u64,
    /// Frames that were cancelled: enough others had sent them.
    pub cancelled: u64,
    /// Frames that were dropped: by a restart, since they were late, or for a limit.
    pub dropped: u64,
    /// Frames that were sent at once, since no place was free.
    pub full: u64,
}

impl ContentionCounts {
    /// All counts at 0.
    pub(crate) const NONE: ContentionCounts = ContentionCounts {
        held: 0,
        released: 0,
        cancelled: 0,
        dropped: 0,
        full: 0,
    };
}
