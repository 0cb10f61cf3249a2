//! The packets for areas that the station may have heard.

use crate::heard_numbers::{HeardFrom, PacketId};
use crate::kept_size::{STAMP, kept_size};
use crate::lost::Lost;
use crate::owed::sent_from_to;
use crate::packet_queue::{PacketQueue, Walk};
use crate::seen_record::SeenRecord;
use its_duties::Claims;
use its_gnvalue::{Hops, Lifetime};
use its_linkframe::FrameView;
use std::alloc::{AllocError, Global};

/// How many octets of packets are kept at most, but for those within the longest wait.
const MOST_OCTETS: usize = 1 << 20;

/// How many octets of packets are kept at most.
const MOST_NEAR_OCTETS: usize = 1 << 22;

/// Where the lifetime and the remaining hops stand in a packet.
const LIFETIME: usize = 2;

const HOPS: usize = 3;

/// A packet for an area that was heard.
#[derive(Drop)]
pub(crate) struct HeardPacket {
    /// Its record.
    pub(crate) number: u64,
    /// When it was sent first.
    pub(crate) stamp: u64,
    /// When the link sent it again.
    repeats: Vec<u64>,
    /// When it was sent last.
    last: u64,
    pub(crate) hops: Hops,
    pub(crate) octets: Vec<u8>,
}

impl HeardPacket {
    /// How many octets are kept of it.
    fn size(&self) -> usize {
        kept_size(self.octets.len(), self.repeats.len())
    }

    /// Whether the link sent it again.
    pub(crate) fn is_repeated(&self) -> bool {
        !self.repeats.is_empty()
    }

    /// When it was sent last.
    pub(crate) fn last_sending(&self) -> u64 {
        self.last
    }

    /// When it was sent last, up to a stamp. `None` if it was sent only later.
    pub(crate) fn last_until(&self, to: u64) -> Option<u64> {
        let mut last = (self.stamp <= to).then_some(self.stamp);
        for stamp in self.repeats.iter() {
            if *stamp <= to && last.unwrap_or(0) <= *stamp {
                last = Some(*stamp);
            }
        }
        last
    }

    /// Whether a sending of it lies between two stamps.
    pub(crate) fn lies_in(&self, from: u64, to: u64) -> bool {
        let mut lies_in = from <= self.stamp && self.stamp <= to;
        for stamp in self.repeats.iter() {
            lies_in = lies_in || (from <= *stamp && *stamp <= to);
        }
        lies_in
    }

    /// Whether a later packet is a copy of it, with any number of hops left. If the station may keep
    /// packets, the later one may have a shorter lifetime.
    pub(crate) fn is_copy(&self, claims: &Claims, later: &[u8]) -> bool {
        let own = self.octets.as_slice();
        if own.len() != later.len() {
            return false;
        }
        let mut is_copy = true;
        for (place, (before, after)) in own.iter().zip(later).enumerate() {
            if before != after && place != HOPS {
                is_copy = is_copy && place == LIFETIME && may_be_later(claims, *before, *after);
            }
        }
        is_copy
    }

    /// The first octet that differs in a packet of the same number: that of the remaining hops left
    /// out. If one is the front of the other, the length of the shorter.
    pub(crate) fn first_change(&self, packet: &[u8]) -> usize {
        let own = self.octets.as_slice();
        for (place, (before, after)) in own.iter().zip(packet).enumerate() {
            if before != after && place != HOPS {
                return place;
            }
        }
        own.len().min(packet.len())
    }
}

/// Whether a station that keeps packets may have changed a lifetime like this.
fn may_be_later(claims: &Claims, before: u8, after: u8) -> bool {
    let (before, after) = (Lifetime::from_octet(before), Lifetime::from_octet(after));
    !claims.unbuffered && after.millis() < before.millis()
}

/// The packets for areas that were heard last.
#[derive(Drop)]
pub(crate) struct HeardPackets {
    alloc: Global,
    packets: PacketQueue<HeardPacket>,
    /// How many octets they have.
    octets: usize,
    /// What had to give way, by its last sending.
    lost: Lost,
}

impl HeardPackets {
    /// No packets yet.
    pub(crate) fn new(alloc: Global) -> HeardPackets {
        HeardPackets {
            alloc,
            packets: PacketQueue::new(alloc),
            octets: 0,
            lost: Lost::nothing(),
        }
    }

    /// How many packets are kept.
    pub(crate) fn count(&self) -> usize {
        self.packets.len()
    }

    /// The packet of a place, if it is still kept.
    pub(crate) fn at(&self, place: u64) -> Option<&HeardPacket> {
        self.packets.at(place)
    }

    /// A walk over the packets with this source and number.
    pub(crate) fn walk(&self, id: &PacketId) -> Walk {
        self.packets.walk(id)
    }

    /// The next packet of a walk.
    pub(crate) fn step(&self, walk: &mut Walk) -> Option<&HeardPacket> {
        self.packets.step(walk)
    }

    /// Whether one may be missing that was sent at this time or later.
    pub(crate) fn may_lack(&self, from: u64) -> bool {
        self.lost.may_lack(from)
    }

    /// Notes that packets may be missing up to this stamp.
    pub(crate) fn lose(&mut self, stamp: u64) {
        self.lost.lose(stamp);
    }

    /// Adds the packet of a record, if it is one for an area. Those of before `oldest` are
    /// forgotten, and so many octets of those of before `near` that the others fit. Returns its place.
    pub(crate) fn add(
        &mut self,
        record: &SeenRecord,
        frame: &FrameView<'_>,
        heard: &HeardFrom,
        (oldest, near): (u64, u64),
    ) -> Result<Option<u64>, AllocError> {
        let Some(id) = heard.id() else {
            return Ok(None);
        };
        let mut octets = Vec::new(self.alloc);
        octets.extend_from_slice(frame.packet.octets())?;
        let mut repeats = Vec::new(self.alloc);
        repeats.extend_from_slice(record.repeats.as_slice())?;
        let (_, last) = sent_from_to(record);
        let packet = HeardPacket {
            number: record.number,
            stamp: record.stamp,
            repeats,
            last,
            hops: frame.packet.hops(),
            octets,
        };
        self.octets = self.octets.saturating_add(packet.size());
        let place = self.packets.push_back(&id, packet)?;
        self.forget(oldest, near);
        Ok(Some(place))
    }

    /// Forgets the first ones.
    fn forget(&mut self, oldest: u64, near: u64) {
        for _ in 0..self.packets.len() {
            let Some(first) = self.packets.front() else {
                return;
            };
            let last = first.last_sending();
            let is_over = MOST_NEAR_OCTETS < self.octets
                || (MOST_OCTETS < self.octets && last < near);
            if oldest <= last && !is_over {
                return;
            }
            if oldest <= last {
                self.lose(last);
            }
            if let Some(first) = self.packets.pop_front() {
                self.octets = self.octets.saturating_sub(first.size());
            }
        }
    }

    /// Notes another sending of a record.
    pub(crate) fn repeat(&mut self, number: u64, stamp: u64) -> Result<(), AllocError> {
        if let Some(place) = self.place_of(number)
            && let Some(packet) = self.packets.at_mut(place)
        {
            packet.repeats.push(stamp)?;
            packet.last = packet.last.max(stamp);
            self.octets = self.octets.saturating_add(STAMP);
        }
        self.forget(0, 0);
        Ok(())
    }

    /// The place of the packet of a record. The last ones come first: the link sends a frame again
    /// soon.
    fn place_of(&self, number: u64) -> Option<u64> {
        for place in self.packets.places().rev() {
            if self
                .packets
                .at(place)
                .is_some_and(|packet| packet.number == number)
            {
                return Some(place);
            }
        }
        None
    }
}
