//! Records that the station may have processed and that aren't read.

use std::alloc::{AllocError, Global};
use std::collections::VecDeque;

/// How many are kept at most.
const MOST: usize = 65536;

/// A sending of a record that isn't read.
#[derive(Clone, Copy)]
pub(crate) struct UnreadRecord {
    /// When it was sent.
    pub(crate) stamp: u64,
    /// The record.
    pub(crate) number: u64,
    /// It stays unread though the station processes only frames of the profile.
    pub(crate) despite_profile: bool,
}

/// What is unread in a stretch of time.
#[derive(Clone, Copy)]
pub struct UnreadIn {
    /// The first record.
    pub first: u64,
    /// One stays unread though the station processes only frames of the profile.
    pub despite_profile: bool,
}

/// The later one of two sendings.
fn later_of(before: Option<UnreadRecord>, record: UnreadRecord) -> UnreadRecord {
    match before {
        Some(before) if record.stamp < before.stamp => before,
        _ => record,
    }
}

/// The last sendings of records that aren't read.
#[derive(Drop)]
pub(crate) struct UnreadRecords {
    records: VecDeque<UnreadRecord>,
    /// How many of them stay unread though the station processes only frames of the profile.
    despite_profile: usize,
    /// The last of those that had to give way.
    lost: Option<UnreadRecord>,
    /// The last of those that were forgotten.
    forgotten: Option<UnreadRecord>,
}

impl UnreadRecords {
    /// No records yet.
    pub(crate) fn new(alloc: Global) -> UnreadRecords {
        UnreadRecords {
            records: VecDeque::new(alloc),
            despite_profile: 0,
            lost: None,
            forgotten: None,
        }
    }

    /// Adds a sending. Those before `oldest` are forgotten.
    pub(crate) fn add(&mut self, record: UnreadRecord, oldest: u64) -> Result<(), AllocError> {
        self.forget(oldest);
        self.push(record)
    }

    /// Adds a sending. If there are too many, the first one gives way.
    fn push(&mut self, record: UnreadRecord) -> Result<(), AllocError> {
        if MOST <= self.records.len() {
            if let Some(first) = self.take_first() {
                self.lost = Some(later_of(self.lost, first));
            }
        }
        let despite_profile = usize::from(record.despite_profile);
        self.despite_profile = self.despite_profile.saturating_add(despite_profile);
        self.records.push_back(record)?;
        Ok(())
    }

    /// Takes the first sending.
    fn take_first(&mut self) -> Option<UnreadRecord> {
        let first = self.records.pop_front()?;
        let despite_profile = usize::from(first.despite_profile);
        self.despite_profile = self.despite_profile.saturating_sub(despite_profile);
        Some(first)
    }

    /// Forgets the sendings of before a stamp.
    fn forget(&mut self, oldest: u64) {
        for _ in 0..self.records.len() {
            match self.records.front() {
                Some(record) if record.stamp < oldest => {}
                _ => return,
            }
            if let Some(first) = self.take_first() {
                self.forgotten = Some(later_of(self.forgotten, first));
            }
        }
    }

    /// Adds another sending of a record, if it is one of these.
    pub(crate) fn repeat(&mut self, number: u64, stamp: u64) -> Result<(), AllocError> {
        match self.last_of(number) {
            Some(record) => self.push(UnreadRecord { stamp, ..record }),
            None => Ok(()),
        }
    }

    /// The last sending of a record, looked for from the end: the link sends a frame again soon.
    fn last_of(&self, number: u64) -> Option<UnreadRecord> {
        for record in self.records.iter().rev() {
            if record.number == number {
                return Some(*record);
            }
        }
        None
    }

    /// What is unread from one stamp to another, if anything is.
    pub(crate) fn within(&self, from: u64, to: u64) -> Option<UnreadIn> {
        if let Some(lost) = self.lost
            && from <= lost.stamp
        {
            return Some(UnreadIn {
                first: lost.number,
                despite_profile: true,
            });
        }
        if let Some(forgotten) = self.forgotten
            && from <= forgotten.stamp
        {
            return Some(UnreadIn {
                first: forgotten.number,
                despite_profile: true,
            });
        }
        let first = self.first_in(from, to)?;
        Some(UnreadIn {
            first,
            despite_profile: self.has_despite_profile(from, to),
        })
    }

    /// The first record that is unread from one stamp to another.
    fn first_in(&self, from: u64, to: u64) -> Option<u64> {
        for record in self.records.iter() {
            if from <= record.stamp && record.stamp <= to {
                return Some(record.number);
            }
        }
        None
    }

    /// Whether a record from one stamp to another stays unread though the station processes only
    /// frames of the profile. They are looked at only if any of all is such a one.
    fn has_despite_profile(&self, from: u64, to: u64) -> bool {
        if self.despite_profile == 0 {
            return false;
        }
        for record in self.records.iter() {
            if record.despite_profile && from <= record.stamp && record.stamp <= to {
                return true;
            }
        }
        false
    }
}
