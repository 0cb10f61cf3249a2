//! The frames of a run that are kept beyond their first delay, since stations hold them.

use std::alloc::{AllocError, Global};
use std::collections::{HashMap, VecDeque};

/// The frames that stations hold, and those that were released and have deliveries to come.
#[derive(Drop)]
pub(crate) struct KeptFrames {
    /// Until when each is kept, in milliseconds. `None` while it is held.
    until: HashMap<usize, Option<u64>>,
    /// Their numbers in order, and some of frames that need not be kept.
    numbers: VecDeque<usize>,
}

impl KeptFrames {
    /// No frame.
    pub(crate) fn new(alloc: Global) -> KeptFrames {
        KeptFrames {
            until: HashMap::new(alloc),
            numbers: VecDeque::new(alloc),
        }
    }

    /// Keeps a frame that a station begins to hold. Its number is above those of the others.
    pub(crate) fn hold(&mut self, frame: usize) -> Result<(), AllocError> {
        self.until.insert(frame, None)?;
        self.numbers.push_back(frame)?;
        Ok(())
    }

    /// Keeps a frame that is released until its deliveries at this time are done.
    pub(crate) fn release(&mut self, frame: usize, delivered_at: u64) {
        if let Some(until) = self.until.get_mut(&frame) {
            *until = Some(delivered_at);
        }
    }

    /// Forgets a frame that is not sent.
    pub(crate) fn forget(&mut self, frame: usize) {
        self.until.remove(&frame);
    }

    /// Whether a station holds a frame.
    pub(crate) fn is_held(&self, frame: usize) -> bool {
        matches!(self.until.get(&frame), Some(None))
    }

    /// The lowest number of a frame that has to be kept when an event of this time is done, or the
    /// greatest `usize`.
    pub(crate) fn lowest(&mut self, moment: u64) -> usize {
        for _ in 0..self.numbers.len() {
            let Some(first) = self.numbers.front().copied() else {
                break;
            };
            if self.is_needed(first, moment) {
                return first;
            }
            self.until.remove(&first);
            self.numbers.pop_front();
        }
        usize::MAX
    }

    /// Whether a frame has to be kept when an event of this time is done.
    fn is_needed(&self, frame: usize, moment: u64) -> bool {
        match self.until.get(&frame) {
            Some(Some(until)) => moment <= *until,
            Some(None) => true,
            None => false,
        }
    }
}
