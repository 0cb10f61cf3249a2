//! Packets in the order in which they were met. Those of one source and sequence number are found
//! without a look at the others.

use crate::heard_numbers::PacketId;
use std::alloc::{AllocError, Global};
use std::collections::{BTreeMap, VecDeque};
use std::ops::Range;

/// A packet of a queue.
#[derive(Drop)]
struct Queued<T> {
    id: PacketId,
    packet: T,
    /// The place of the next packet with its source and number.
    next: Option<u64>,
}

/// The places of the first and the last packet with one source and number.
#[derive(Clone, Copy)]
struct Ends {
    first: u64,
    last: u64,
}

/// A walk over the packets with one source and number, the oldest first.
#[derive(Clone, Copy)]
pub(crate) struct Walk {
    /// The place of the next one.
    next: Option<u64>,
}

impl Walk {
    /// Whether a packet is left.
    pub(crate) fn has_more(self) -> bool {
        self.next.is_some()
    }
}

/// Packets, the oldest first. A place is how many were added before.
#[derive(Drop)]
pub(crate) struct PacketQueue<T> {
    packets: VecDeque<Queued<T>>,
    /// The place of the first one.
    begin: u64,
    ends: BTreeMap<PacketId, Ends>,
}

impl<T: Drop> PacketQueue<T> {
    /// No packets yet.
    pub(crate) fn new(alloc: Global) -> PacketQueue<T> {
        PacketQueue {
            packets: VecDeque::new(alloc),
            begin: 0,
            ends: BTreeMap::new(alloc),
        }
    }

    /// How many packets there are.
    pub(crate) fn len(&self) -> usize {
        self.packets.len()
    }

    /// The places of all packets.
    pub(crate) fn places(&self) -> Range<u64> {
        self.begin..self.end()
    }

    /// The place of the next packet that is added.
    fn end(&self) -> u64 {
        self.begin
            .saturating_add(u64::try_from(self.packets.len()).unwrap_or(u64::MAX))
    }

    /// The oldest packet.
    pub(crate) fn front(&self) -> Option<&T> {
        Some(&self.packets.front()?.packet)
    }

    /// The packet at a place, if it is still there.
    pub(crate) fn at(&self, place: u64) -> Option<&T> {
        Some(&self.packets.get(self.index_of(place)?)?.packet)
    }

    /// The packet at a place, to be changed.
    pub(crate) fn at_mut(&mut self, place: u64) -> Option<&mut T> {
        let index = self.index_of(place)?;
        Some(&mut self.packets.get_mut(index)?.packet)
    }

    /// Where the packet of a place lies.
    fn index_of(&self, place: u64) -> Option<usize> {
        usize::try_from(place.checked_sub(self.begin)?).ok()
    }

    /// A walk over the packets with this source and number.
    pub(crate) fn walk(&self, id: &PacketId) -> Walk {
        Walk {
            next: self.ends.get(id).map(|ends| ends.first),
        }
    }

    /// The next packet of a walk.
    pub(crate) fn step(&self, walk: &mut Walk) -> Option<&T> {
        let queued = self.packets.get(self.index_of(walk.next?)?)?;
        walk.next = queued.next;
        Some(&queued.packet)
    }

    /// Adds a packet. Returns its place.
    pub(crate) fn push_back(&mut self, id: &PacketId, packet: T) -> Result<u64, AllocError> {
        let place = self.end();
        let queued = Queued {
            id: *id,
            packet,
            next: None,
        };
        self.packets.push_back(queued)?;
        if let Some(before) = self.end_with(id, place)? {
            self.link(before, place);
        }
        Ok(place)
    }

    /// Notes that the last packet with a source and number has this place. Returns the place of the
    /// one before it.
    fn end_with(&mut self, id: &PacketId, place: u64) -> Result<Option<u64>, AllocError> {
        if let Some(ends) = self.ends.get_mut(id) {
            let before = ends.last;
            ends.last = place;
            return Ok(Some(before));
        }
        let ends = Ends {
            first: place,
            last: place,
        };
        self.ends.insert(*id, ends)?;
        Ok(None)
    }

    /// Notes the place of the packet that comes after the one of a place.
    fn link(&mut self, before: u64, place: u64) {
        if let Some(index) = self.index_of(before)
            && let Some(queued) = self.packets.get_mut(index)
        {
            queued.next = Some(place);
        }
    }

    /// Takes the oldest packet.
    pub(crate) fn pop_front(&mut self) -> Option<T> {
        let Queued { id, packet, next } = self.packets.pop_front()?;
        self.begin = self.begin.saturating_add(1);
        match next {
            Some(next) => {
                if let Some(ends) = self.ends.get_mut(&id) {
                    ends.first = next;
                }
            }
            None => {
                self.ends.remove(&id);
            }
        }
        Some(packet)
    }
}
