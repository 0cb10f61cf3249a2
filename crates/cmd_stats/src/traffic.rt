//! Frames of one kind, and their octets.

/// How many frames there are, and how many octets they have.
#[derive(Clone, Copy, Drop)]
pub(crate) struct Traffic {
    pub(crate) frames: u64,
    pub(crate) octets: u64,
}

impl Traffic {
    /// Returns the counts before the first frame.
    pub(crate) fn none() -> Traffic {
        Traffic {
            frames: 0,
            octets: 0,
        }
    }

    /// Counts a frame of this many octets.
    pub(crate) fn add(&mut self, octets: u64) {
        self.frames = self.frames.saturating_add(1);
        self.octets = self.octets.saturating_add(octets);
    }
}
