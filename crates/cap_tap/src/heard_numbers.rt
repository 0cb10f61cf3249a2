//! The sequence numbers that the station may have heard of each source.

use crate::lost::Lost;
use crate::seen_record::SeenRecord;
use crate::stretch::Stretch;
use its_gnvalue::GnAddress;
use its_linkframe::FrameView;
use std::alloc::{AllocError, Global};
use std::collections::{BTreeSet, VecDeque};

/// How many sendings are kept at most.
const MOST: usize = 65536;

/// The source and the sequence number of a packet for an area.
#[derive(Clone, Copy, PartialEq, Eq, PartialOrd, Ord)]
pub struct PacketId {
    /// Its source.
    pub source: GnAddress,
    /// Its sequence number.
    pub sequence: u16,
}

impl PacketId {
    /// That of a frame, if its packet is one for an area.
    pub fn of(frame: &FrameView<'_>) -> Option<PacketId> {
        let sequence = frame.packet.number()?;
        let source = frame.packet.vector().address();
        Some(PacketId { source, sequence })
    }
}

/// What is read once of a packet that was heard.
#[derive(Clone, Copy)]
pub(crate) struct HeardFrom {
    pub(crate) source: GnAddress,
    /// Its sequence number, if it is one for an area.
    pub(crate) sequence: Option<u16>,
}

impl HeardFrom {
    /// That of a frame.
    pub(crate) fn of(frame: &FrameView<'_>) -> HeardFrom {
        HeardFrom {
            source: frame.packet.vector().address(),
            sequence: frame.packet.number(),
        }
    }

    /// Its source and its number, if it is a packet for an area.
    pub(crate) fn id(&self) -> Option<PacketId> {
        Some(PacketId {
            source: self.source,
            sequence: self.sequence?,
        })
    }
}

/// A sending of a packet for an area.
#[derive(Clone, Copy)]
struct NumberSending {
    /// Its record.
    record: u64,
    stamp: u64,
    /// When the record was sent before this, if it was.
    before: Option<u64>,
    packet: PacketId,
}

impl NumberSending {
    /// Whether it is the first sending of its record in a stretch.
    fn is_first_in(&self, stretch: Stretch) -> bool {
        match self.before {
            Some(before) if stretch.from <= before => false,
            _ => stretch.has(self.stamp),
        }
    }
}

/// The packets for areas that were heard last: their sources and numbers.
#[derive(Drop)]
pub(crate) struct HeardNumbers {
    alloc: Global,
    sendings: VecDeque<NumberSending>,
    /// What had to give way.
    lost: Lost,
}

impl HeardNumbers {
    /// Nothing yet.
    pub(crate) fn new(alloc: Global) -> HeardNumbers {
        HeardNumbers {
            alloc,
            sendings: VecDeque::new(alloc),
            lost: Lost::nothing(),
        }
    }

    /// Whether one may be missing that was sent at this time or later.
    pub(crate) fn may_lack(&self, from: u64) -> bool {
        self.lost.may_lack(from)
    }

    /// Adds the packet of a record, if it is one for an area. Those sent before `oldest` are
    /// forgotten.
    pub(crate) fn add(
        &mut self,
        record: &SeenRecord,
        heard: &HeardFrom,
        oldest: u64,
    ) -> Result<(), AllocError> {
        let Some(PacketId { source, sequence }) = heard.id() else {
            return Ok(());
        };
        self.forget(oldest);
        let mut before = None;
        // The repeats that come with a record were sent before it, by their stamps.
        for stamp in record.repeats.iter() {
            self.push(NumberSending {
                record: record.number,
                stamp: *stamp,
                before,
                packet: PacketId { source, sequence },
            })?;
            before = Some(*stamp);
        }
        self.push(NumberSending {
            record: record.number,
            stamp: record.stamp,
            before,
            packet: PacketId { source, sequence },
        })
    }

    /// Adds a sending. If there are too many, the first one gives way.
    fn push(&mut self, sending: NumberSending) -> Result<(), AllocError> {
        if MOST <= self.sendings.len()
            && let Some(first) = self.sendings.pop_front()
        {
            self.lost.lose(first.stamp);
        }
        self.sendings.push_back(sending)?;
        Ok(())
    }

    /// Forgets the sendings of before a stamp.
    fn forget(&mut self, oldest: u64) {
        for _ in 0..self.sendings.len() {
            match self.sendings.front() {
                Some(sending) if sending.stamp < oldest => {}
                _ => return,
            }
            self.sendings.pop_front();
        }
    }

    /// Adds another sending of a record, if it is one of these.
    pub(crate) fn repeat(&mut self, record: u64, stamp: u64) -> Result<(), AllocError> {
        match self.last_of(record) {
            Some(last) => {
                self.push(NumberSending {
                    stamp,
                    before: Some(last.stamp),
                    ..last
                })
            }
            None => Ok(()),
        }
    }

    /// The last sending of a record, looked for from the end: the link sends a frame again soon.
    fn last_of(&self, record: u64) -> Option<NumberSending> {
        for sending in self.sendings.iter().rev() {
            if sending.record == record {
                return Some(*sending);
            }
        }
        None
    }

    /// How many other numbers of the source of a packet were heard in a stretch.
    pub(crate) fn others(&self, packet: PacketId, stretch: Stretch) -> Result<u32, AllocError> {
        let mut others = BTreeSet::new(self.alloc);
        for sending in self.sendings.iter() {
            if sending.packet.source == packet.source
                && sending.packet.sequence != packet.sequence
                && stretch.has(sending.stamp)
            {
                others.insert(sending.packet.sequence)?;
            }
        }
        Ok(u32::try_from(others.len()).unwrap_or(u32::MAX))
    }

    /// How many records of a packet were heard in a stretch.
    pub(crate) fn copies(&self, packet: PacketId, stretch: Stretch) -> u32 {
        let mut copies: u32 = 0;
        for sending in self.sendings.iter() {
            if sending.packet == packet && sending.is_first_in(stretch) {
                copies = copies.saturating_add(1);
            }
        }
        copies
    }
}
