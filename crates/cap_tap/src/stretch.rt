//! Stretches of time.

/// All stamps from one to another, in nanoseconds.
#[derive(Clone, Copy)]
pub(crate) struct Stretch {
    pub(crate) from: u64,
    pub(crate) to: u64,
}

impl Stretch {
    /// Whether a stamp lies in it.
    pub(crate) fn has(self, stamp: u64) -> bool {
        self.from <= stamp && stamp <= self.to
    }
}
