//! The station's own packets: those that put its beacon off, and their sequence numbers.

use crate::lost::Lost;
use crate::seen_record::SeenRecord;
use its_duties::{BeaconReset, Claims, NumberStep};
use its_gnvalue::newer;
use its_headers::Kind;
use its_linkframe::FrameView;
use std::alloc::{AllocError, Global};
use std::collections::VecDeque;

/// Among how many own packets for areas a repetition is looked for.
const REPETITIONS: usize = 64;

/// How many records that may be own packets are kept at most.
const MOST: usize = 65536;

/// An own packet that puts the beacon off.
#[derive(Clone, Copy)]
pub struct Reset {
    /// Its record.
    pub number: u64,
    /// When it was sent, in nanoseconds.
    pub stamp: u64,
    /// Its first sending isn't in the capture.
    pub retried: bool,
}

/// An own packet for an area, which is no repetition.
#[derive(Clone, Copy)]
struct Numbered {
    record: u64,
    stamp: u64,
    retried: bool,
    sequence: u16,
    timestamp: u32,
}

/// The step from the own packet for an area before to one, and the record of that.
#[derive(Clone, Copy)]
pub struct StepFrom {
    /// The step.
    pub step: NumberStep,
    /// The record of the packet before.
    pub record: u64,
}

/// A record that may be an own packet and isn't read.
#[derive(Clone, Copy)]
struct Hidden {
    number: u64,
    stamp: u64,
}

/// The own packets so far, as far as later ones are judged by them.
#[derive(Drop)]
pub struct OwnPackets {
    alloc: Global,
    resets: VecDeque<Reset>,
    hidden: VecDeque<Hidden>,
    last: Option<Numbered>,
    /// The octets of the last ones for areas.
    octets: VecDeque<Vec<u8>>,
    /// What had to give way.
    lost: Lost,
}

impl OwnPackets {
    /// No packets yet.
    pub fn new(alloc: Global) -> OwnPackets {
        OwnPackets {
            alloc,
            resets: VecDeque::new(alloc),
            hidden: VecDeque::new(alloc),
            last: None,
            octets: VecDeque::new(alloc),
            lost: Lost::nothing(),
        }
    }

    /// Notes that packets may be missing up to this stamp.
    pub fn lose(&mut self, stamp: u64) {
        self.lost.lose(stamp);
    }

    /// Whether one may be missing that was sent at this time or later.
    pub fn may_lack(&self, from: u64) -> bool {
        self.lost.may_lack(from)
    }

    /// Adds a record that may be an own packet and isn't read. Those of before `oldest` are
    /// forgotten.
    pub fn add_hidden(&mut self, record: &SeenRecord, oldest: u64) -> Result<(), AllocError> {
        self.forget_hidden(oldest);
        if MOST <= self.hidden.len()
            && let Some(first) = self.hidden.pop_front()
        {
            self.lose(first.stamp);
        }
        self.hidden.push_back(Hidden {
            number: record.number,
            stamp: record.stamp,
        })?;
        Ok(())
    }

    /// Forgets the records of before a stamp.
    fn forget_hidden(&mut self, oldest: u64) {
        for _ in 0..self.hidden.len() {
            match self.hidden.front() {
                Some(hidden) if hidden.stamp < oldest => {}
                _ => return,
            }
            self.hidden.pop_front();
        }
    }

    /// The first record from one stamp to another that may be an own packet and isn't read.
    pub fn hidden_in(&self, from: u64, to: u64) -> Option<u64> {
        for hidden in self.hidden.iter() {
            if from <= hidden.stamp && hidden.stamp <= to {
                return Some(hidden.number);
            }
        }
        None
    }

    /// Adds an own packet. Returns the step to its number, if one before it is known and each
    /// record between is read. `None` for a repetition.
    pub fn add(
        &mut self,
        claims: &Claims,
        record: &SeenRecord,
        frame: &FrameView<'_>,
    ) -> Result<Option<StepFrom>, AllocError> {
        let retried = record.is_retry();
        if resets(claims, frame.packet.kind()) {
            if MOST <= self.resets.len()
                && let Some(first) = self.resets.pop_front()
            {
                self.lose(first.stamp);
            }
            self.resets.push_back(Reset {
                number: record.number,
                stamp: record.stamp,
                retried,
            })?;
        }
        let Some(sequence) = frame.packet.number() else {
            return Ok(None);
        };
        if self.is_repetition(record)? {
            return Ok(None);
        }
        let next = Numbered {
            record: record.number,
            stamp: record.stamp,
            retried,
            sequence,
            timestamp: frame.packet.vector().tst(),
        };
        let before = self.last.replace(next);
        match before {
            Some(before) if self.hidden_in(before.stamp, next.stamp).is_none() => {
                Ok(Some(step_to(before, next)))
            }
            _ => Ok(None),
        }
    }

    /// Whether a packet is a repetition of one of the last ones for areas. It is one of these from
    /// now on.
    fn is_repetition(&mut self, record: &SeenRecord) -> Result<bool, AllocError> {
        let own = record.octets.as_slice();
        let mut is_repetition = false;
        for octets in self.octets.iter() {
            is_repetition = is_repetition || octets.as_slice() == own;
        }
        if REPETITIONS <= self.octets.len() {
            self.octets.pop_front();
        }
        let mut octets = Vec::new(self.alloc);
        octets.extend_from_slice(own)?;
        self.octets.push_back(octets)?;
        Ok(is_repetition)
    }

    /// The last packet before a stamp that puts the beacon off.
    pub fn last_reset(&self, before: u64) -> Option<Reset> {
        let mut last = None;
        for reset in self.resets.iter() {
            if reset.stamp < before {
                last = Some(*reset);
            }
        }
        last
    }

    /// Whether another packet than that of a record puts the beacon off from one stamp to another.
    pub fn has_other_reset(&self, number: u64, from: u64, to: u64) -> bool {
        for reset in self.resets.iter() {
            if reset.number != number && from <= reset.stamp && reset.stamp <= to {
                return true;
            }
        }
        false
    }

    /// Forgets the packets that come before the last one before a stamp.
    pub fn forget_resets(&mut self, before: u64) {
        for _ in 0..self.resets.len() {
            match self.resets.get(1) {
                Some(second) if second.stamp < before => {}
                _ => return,
            }
            self.resets.pop_front();
        }
    }
}

/// Whether an own packet of this kind puts the beacon off.
fn resets(claims: &Claims, kind: Kind) -> bool {
    match (claims.reset, kind) {
        (Some(BeaconReset::Any), _) | (_, Kind::Beacon | Kind::Shb) => true,
        (_, Kind::Gbc | Kind::Gac) => false,
    }
}

/// The step from one own packet for an area to the next.
fn step_to(before: Numbered, next: Numbered) -> StepFrom {
    StepFrom {
        step: NumberStep {
            first: before.sequence,
            second: next.sequence,
            since: next.stamp.saturating_sub(before.stamp),
            ahead: next.timestamp.wrapping_sub(before.timestamp),
            newer: newer(next.timestamp, before.timestamp),
            sure: !before.retried && !next.retried,
        },
        record: before.record,
    }
}
