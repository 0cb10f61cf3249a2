//! The records that are not judged yet.

use crate::kept_size::STAMP;
use crate::owed::{owed_time, sent_from_to};
use crate::repeats::RETRY_TIME;
use crate::seen_record::SeenRecord;
use crate::tap::MetRecord;
use its_duties::{Claims, doubt_between};
use std::alloc::{AllocError, Global};
use std::collections::VecDeque;

/// How many frames wait at most.
const MOST: usize = 16384;

/// How many octets they have at most.
const MOST_OCTETS: usize = 1 << 22;

/// A record that the station sent, or a packet for an area that it may have heard. It is judged once
/// the capture has all that it is judged by.
#[derive(Drop)]
pub struct Waiting {
    /// The record. If its retry bit is set, its first sending isn't in the capture.
    pub record: SeenRecord,
    /// What was known when it was met.
    pub met: MetRecord,
}

impl Waiting {
    /// When the capture has all that it is judged by. A frame that the link sends again and again
    /// doesn't put this off without an end.
    fn end(&self, claims: &Claims) -> u64 {
        if self.met.heard.is_some() {
            let (_, last) = sent_from_to(&self.record);
            let longest = self.record.stamp.saturating_add(RETRY_TIME);
            return last.min(longest).saturating_add(owed_time(claims));
        }
        let retries = if self.record.is_wireless() {
            RETRY_TIME
        } else {
            0
        };
        self.record
            .stamp
            .saturating_add(doubt_between(claims))
            .saturating_add(retries)
    }
}

/// The records that wait, in the order of their stamps.
#[derive(Drop)]
pub struct WaitingFrames {
    frames: VecDeque<Waiting>,
    octets: usize,
}

impl WaitingFrames {
    /// No records yet.
    pub fn new(alloc: Global) -> WaitingFrames {
        WaitingFrames {
            frames: VecDeque::new(alloc),
            octets: 0,
        }
    }

    /// How many wait.
    pub fn count(&self) -> usize {
        self.frames.len()
    }

    /// The stamp of the first one.
    pub fn first_stamp(&self) -> Option<u64> {
        Some(self.frames.front()?.record.stamp)
    }

    /// Adds one.
    pub fn add(&mut self, waiting: Waiting) -> Result<(), AllocError> {
        self.octets = self.octets.saturating_add(waiting.record.size());
        self.frames.push_back(waiting)?;
        Ok(())
    }

    /// Notes another sending of a record, which is looked for from the end: the link sends a frame
    /// again soon.
    pub fn repeat(&mut self, number: u64, stamp: u64) -> Result<(), AllocError> {
        for place in (0..self.frames.len()).rev() {
            let waiting = self.frames.get(place);
            if waiting.is_some_and(|waiting| waiting.record.number == number) {
                return self.add_repeat(place, stamp);
            }
        }
        Ok(())
    }

    /// Notes another sending of the record at a place, if it may have been heard.
    fn add_repeat(&mut self, place: usize, stamp: u64) -> Result<(), AllocError> {
        if let Some(waiting) = self.frames.get_mut(place)
            && waiting.met.heard.is_some()
        {
            waiting.record.repeats.push(stamp)?;
            self.octets = self.octets.saturating_add(STAMP);
        }
        Ok(())
    }

    /// Whether more wait than may.
    pub fn is_over(&self) -> bool {
        MOST < self.frames.len() || MOST_OCTETS < self.octets
    }

    /// Takes the first one.
    pub fn take_first(&mut self) -> Option<Waiting> {
        let first = self.frames.pop_front()?;
        self.octets = self.octets.saturating_sub(first.record.size());
        Some(first)
    }

    /// Takes the first one, if the capture has all that it is judged by: the next record has this
    /// stamp.
    pub fn take_due(&mut self, claims: &Claims, stamp: u64) -> Option<Waiting> {
        let end = self.frames.front()?.end(claims);
        if end < stamp {
            return self.take_first();
        }
        None
    }
}
