//! Records in the order of their stamps.

use crate::kept_size::STAMP;
use crate::kept_times::disorder;
use crate::seen_record::SeenRecord;
use its_duties::Claims;
use std::alloc::{AllocError, Global};
use std::collections::VecDeque;

/// How many records wait at most.
const MOST: usize = 16384;

/// How many octets are kept of them at most.
const MOST_OCTETS: usize = 1 << 22;

/// How many repeats of one of them are noted at most.
const MOST_REPEATS: usize = 4096;

/// The last records of the file, in the order of their stamps, and of the file if these are equal.
/// They wait until no other record can come before them.
#[derive(Drop)]
pub struct Arrivals {
    alloc: Global,
    waiting: VecDeque<SeenRecord>,
    /// How many octets are kept of them.
    octets: usize,
    /// The greatest stamp so far.
    greatest: u64,
    /// How far a stamp may be below the greatest before it, in nanoseconds.
    disorder: u64,
}

impl Arrivals {
    /// No record yet, of a capture of which this is claimed.
    pub fn new(alloc: Global, claims: &Claims) -> Arrivals {
        Arrivals {
            alloc,
            waiting: VecDeque::new(alloc),
            octets: 0,
            greatest: 0,
            disorder: disorder(claims),
        }
    }

    /// Whether the stamp of a record is not too far below the greatest.
    pub fn is_in_order(&self, stamp: u64) -> bool {
        self.greatest <= stamp.saturating_add(self.disorder)
    }

    /// Adds the next record of the file.
    pub fn add(&mut self, record: SeenRecord) -> Result<(), AllocError> {
        self.greatest = self.greatest.max(record.stamp);
        self.octets = self.octets.saturating_add(record.size());
        let mut later = Vec::new(self.alloc);
        for _ in 0..self.waiting.len() {
            match self.take_later(record.stamp) {
                Some(last) => later.push(last)?,
                None => break,
            }
        }
        self.waiting.push_back(record)?;
        for _ in 0..later.len() {
            if let Some(last) = later.pop() {
                self.waiting.push_back(last)?;
            }
        }
        Ok(())
    }

    /// Takes the last record, if it is later than a stamp.
    fn take_later(&mut self, stamp: u64) -> Option<SeenRecord> {
        let last = self.waiting.back()?;
        if stamp < last.stamp {
            return self.waiting.pop_back();
        }
        None
    }

    /// How many records wait.
    pub fn count(&self) -> usize {
        self.waiting.len()
    }

    /// Takes the first record, if no other can come before it or be the first sending of its frame.
    pub fn take(&mut self) -> Option<SeenRecord> {
        let first = self.waiting.front()?;
        let passed = first.stamp.saturating_add(self.disorder.saturating_mul(2));
        if self.disorder == 0 || passed < self.greatest {
            return self.take_first();
        }
        None
    }

    /// Whether more records wait than may.
    pub fn is_over(&self) -> bool {
        MOST < self.waiting.len() || MOST_OCTETS < self.octets
    }

    /// Takes the first record, whether another one can come before it or not.
    pub fn take_first(&mut self) -> Option<SeenRecord> {
        let first = self.waiting.pop_front()?;
        self.octets = self.octets.saturating_sub(first.size());
        Some(first)
    }

    /// Notes a record as a repeat of a later one that waits and may be its first sending. Returns
    /// whether there is one.
    pub fn note_repeat(&mut self, record: &SeenRecord) -> Result<bool, AllocError> {
        let last = record.stamp.saturating_add(self.disorder);
        for later in self.waiting.iter_mut() {
            let has_room = later.repeats.len() < MOST_REPEATS;
            if has_room && later.stamp <= last && is_same_sending(later, record) {
                later.repeats.push(record.stamp)?;
                self.octets = self.octets.saturating_add(STAMP);
                return Ok(true);
            }
        }
        Ok(false)
    }
}

/// Whether two records are of one frame of IEEE 802.11.
fn is_same_sending(first: &SeenRecord, second: &SeenRecord) -> bool {
    match (first.link, second.link) {
        (Some(first_link), Some(second_link)) => {
            first_link.header == second_link.header
                && 14 <= second.octets.len()
                && first.octets.as_slice() == second.octets.as_slice()
        }
        _ => false,
    }
}
