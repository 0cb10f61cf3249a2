//! Frames that the link sends again, as the retry bit of IEEE 802.11 says.

use crate::link_header::LinkHeader;
use crate::seen_record::{NANOS, SeenRecord};
use std::alloc::{AllocError, Global};
use std::collections::VecDeque;

/// For how long a frame may be sent again.
pub(crate) const RETRY_TIME: u64 = 100 * NANOS;

/// How many sendings are kept at most.
const MOST: usize = 4096;

/// How many octets they have at most, but for the last one.
const MOST_OCTETS: usize = 1 << 20;

/// A sending of a frame.
#[derive(Drop)]
struct Sending {
    stamp: u64,
    /// The record of its first sending.
    first: u64,
    header: LinkHeader,
    octets: Vec<u8>,
}

/// The last sendings of frames of IEEE 802.11.
#[derive(Drop)]
pub struct Repeats {
    alloc: Global,
    sendings: VecDeque<Sending>,
    /// How many octets they have.
    octets: usize,
}

impl Repeats {
    /// No sendings yet.
    pub fn new(alloc: Global) -> Repeats {
        Repeats {
            alloc,
            sendings: VecDeque::new(alloc),
            octets: 0,
        }
    }

    /// The record of the first sending of a frame that this record is a repeat of, if there is one.
    pub fn first_of(&self, record: &SeenRecord) -> Option<u64> {
        let link = record.link?;
        if !link.retry || record.octets.len() < 14 {
            return None;
        }
        let oldest = record.stamp.saturating_sub(RETRY_TIME);
        for sending in self.sendings.iter().rev() {
            if oldest <= sending.stamp
                && sending.header == link.header
                && sending.octets.as_slice() == record.octets.as_slice()
            {
                return Some(sending.first);
            }
        }
        None
    }

    /// Forgets the sendings of before a stamp, and the first ones if there are too many.
    fn forget(&mut self, oldest: u64) {
        for _ in 0..self.sendings.len() {
            let is_over = MOST <= self.sendings.len() || MOST_OCTETS < self.octets;
            match self.sendings.front() {
                Some(sending) if is_over || sending.stamp < oldest => {}
                _ => return,
            }
            if let Some(sending) = self.sendings.pop_front() {
                self.octets = self.octets.saturating_sub(sending.octets.len());
            }
        }
    }

    /// Notes a record as a sending of the frame that this record sent first.
    pub fn note(&mut self, record: &SeenRecord, first: u64) -> Result<(), AllocError> {
        let Some(link) = record.link else {
            return Ok(());
        };
        self.forget(record.stamp.saturating_sub(RETRY_TIME));
        let mut octets = Vec::new(self.alloc);
        octets.extend_from_slice(record.octets.as_slice())?;
        self.octets = self.octets.saturating_add(octets.len());
        self.sendings.push_back(Sending {
            stamp: record.stamp,
            first,
            header: link.header,
            octets,
        })?;
        Ok(())
    }
}
