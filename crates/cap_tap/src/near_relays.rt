//! The packets for areas that the station forwarded not long ago, with their octets.

use crate::heard_numbers::PacketId;
use crate::lost::Lost;
use crate::packet_queue::{PacketQueue, Walk};
use crate::seen_record::SeenRecord;
use its_linkframe::FrameView;
use std::alloc::{AllocError, Global};

/// How many octets of forwarded packets are kept at most.
const MOST_OCTETS: usize = 1 << 20;

/// A packet that the station forwarded not long ago.
#[derive(Drop)]
pub(crate) struct NearRelay {
    pub(crate) record: u64,
    pub(crate) stamp: u64,
    pub(crate) retried: bool,
    pub(crate) left: u8,
    pub(crate) octets: Vec<u8>,
}

/// The packets that the station forwarded not long ago.
#[derive(Drop)]
pub(crate) struct NearRelays {
    alloc: Global,
    relays: PacketQueue<NearRelay>,
    octets: usize,
    /// What was forgotten.
    lost: Lost,
}

impl NearRelays {
    /// No packets yet.
    pub(crate) fn new(alloc: Global) -> NearRelays {
        NearRelays {
            alloc,
            relays: PacketQueue::new(alloc),
            octets: 0,
            lost: Lost::nothing(),
        }
    }

    /// A walk over the packets with this source and number.
    pub(crate) fn walk(&self, id: &PacketId) -> Walk {
        self.relays.walk(id)
    }

    /// The next packet of a walk.
    pub(crate) fn step(&self, walk: &mut Walk) -> Option<&NearRelay> {
        self.relays.step(walk)
    }

    /// Whether one may be missing that was sent at this time or later.
    pub(crate) fn may_lack(&self, from: u64) -> bool {
        self.lost.may_lack(from)
    }

    /// Adds a packet for an area. Those of before `oldest` are forgotten.
    pub(crate) fn add(
        &mut self,
        record: &SeenRecord,
        frame: &FrameView<'_>,
        oldest: u64,
    ) -> Result<(), AllocError> {
        let Some(id) = PacketId::of(frame) else {
            return Ok(());
        };
        let mut octets = Vec::new(self.alloc);
        octets.extend_from_slice(frame.packet.octets())?;
        self.octets = self.octets.saturating_add(octets.len());
        let relay = NearRelay {
            record: record.number,
            stamp: record.stamp,
            retried: record.is_retry(),
            left: frame.packet.left(),
            octets,
        };
        self.relays.push_back(&id, relay)?;
        self.forget(oldest);
        Ok(())
    }

    /// Forgets the first ones.
    fn forget(&mut self, oldest: u64) {
        for _ in 0..self.relays.len() {
            let Some(first) = self.relays.front() else {
                return;
            };
            let stamp = first.stamp;
            if oldest <= stamp && self.octets <= MOST_OCTETS {
                return;
            }
            self.lost.lose(stamp);
            if let Some(first) = self.relays.pop_front() {
                self.octets = self.octets.saturating_sub(first.octets.len());
            }
        }
    }
}
