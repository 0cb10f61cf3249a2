//! The packets that may still be seen.

ghost use Rattle.std.specs.Prelude.{◌≡◌, ◌≤◌, length};
ghost use Rattle.cmd_follow.specs.declared.window.TheConstants.{MOST_HELD};

use crate::key::PacketKey;
use crate::packet::FollowedPacket;
use crate::sighting::{NANOS, SeenPacket};
use std::alloc::{AllocError, Global};
use std::collections::{BTreeMap, VecDeque};

/// How many frames are held at most.
pub(crate) const MOST_HELD: usize = 65_536;

/// How many records are not followed, and why.
#[derive(Clone, Copy, Debug, PartialEq, Eq)]
pub(crate) struct WindowCounts {
    /// Records whose time is before the window.
    pub(crate) late: u64,
    /// Records of a packet that already has the most frames.
    pub(crate) crowded: u64,
    /// Packets that were forgotten before their time.
    pub(crate) early: u64,
}

/// The packets that may still be seen, the one that was opened first before the others.
#[derive(Drop)]
pub(crate) struct Window {
    alloc: Global,
    /// How long a packet is held, in nanoseconds.
    width: u64,
    /// The greatest time of a record.
    now: u64,
    packets: VecDeque<FollowedPacket>,
    /// The numbers of the packets by their keys.
    numbers: BTreeMap<PacketKey, u64>,
    /// The number of the next packet.
    next: u64,
    /// How many frames are held.
    frames: usize,
    pub(crate) counts: WindowCounts,
}

impl Window {
    /// Returns a window of this many milliseconds without packets.
    pub(crate) fn new(alloc: Global, millis: u64) -> Window
        ensures { length result.packets.items ≤ MOST_HELD }
    {
        Window {
            alloc,
            width: millis.saturating_mul(NANOS),
            now: 0,
            packets: VecDeque::new(alloc),
            numbers: BTreeMap::new(alloc),
            next: 0,
            frames: 0,
            counts: WindowCounts {
                late: 0,
                crowded: 0,
                early: 0,
            },
        }
    }

    /// Moves the window to the time of the next record. A time before the greatest one changes
    /// nothing.
    pub(crate) fn advance(&mut self, stamp: u64)
        ensures { self.new.packets ≡ self.old.packets }
    {
        self.now = self.now.max(stamp);
    }

    /// How many packets are held.
    pub(crate) fn count(&self) -> usize {
        self.packets.len()
    }

    /// Removes the oldest packet, if its time is over or the most frames are held.
    pub(crate) fn take_complete(&mut self) -> Option<FollowedPacket>
        ensures { length self.new.packets.items ≤ length self.old.packets.items }
    {
        let oldest = self.packets.front()?;
        if self.now <= oldest.opened.saturating_add(self.width) {
            if self.frames < MOST_HELD && self.packets.len() < MOST_HELD {
                return None;
            }
            self.counts.early = self.counts.early.saturating_add(1);
        }
        self.take_oldest()
    }

    /// Removes the oldest packet.
    pub(crate) fn take_oldest(&mut self) -> Option<FollowedPacket>
        ensures { length self.new.packets.items ≤ length self.old.packets.items }
    {
        let oldest = self.packets.pop_front()?;
        let _ = self.numbers.remove(&oldest.key);
        self.frames = self.frames.saturating_sub(oldest.sightings().len());
        Some(oldest)
    }

    /// Adds the packet of a record, or its frame to the packet of which it is a copy. A record
    /// before the window is only counted. `AllocError` if an allocation failed.
    ///
    /// - `held`: no more packets are held than the limit.
    pub(crate) fn add(&mut self, seen: SeenPacket) -> Result<(), AllocError>
        ensures held { length self.old.packets.items ≤ MOST_HELD
            → length self.new.packets.items ≤ MOST_HELD }
    {
        if seen.sighting.stamp.saturating_add(self.width) < self.now {
            self.counts.late = self.counts.late.saturating_add(1);
            return Ok(());
        }
        match self.place_of(&seen.key) {
            Some(place) => self.add_frame(place, seen),
            None => self.open(seen),
        }
    }

    /// Returns the index of a packet among those that are held.
    fn place_of(&self, key: &PacketKey) -> Option<usize> {
        let number = *self.numbers.get(key)?;
        let oldest = self.packets.front()?.number;
        usize::try_from(number.checked_sub(oldest)?).ok()
    }

    /// Adds a frame to the packet at this index.
    fn add_frame(&mut self, place: usize, seen: SeenPacket) -> Result<(), AllocError>
        ensures { length self.new.packets.items ≡ length self.old.packets.items }
    {
        let is_added = match self.packets.get_mut(place) {
            Some(packet) => packet.add(seen.sighting)?,
            None => false,
        };
        if is_added {
            self.frames = self.frames.saturating_add(1);
        } else {
            self.counts.crowded = self.counts.crowded.saturating_add(1);
        }
        Ok(())
    }

    /// Begins a packet.
    fn open(&mut self, seen: SeenPacket) -> Result<(), AllocError>
        ensures { length self.old.packets.items ≤ MOST_HELD
            → length self.new.packets.items ≤ MOST_HELD }
    {
        if MOST_HELD <= self.packets.len() {
            self.counts.crowded = self.counts.crowded.saturating_add(1);
            return Ok(());
        }
        let key = seen.key;
        let packet = FollowedPacket::new(self.alloc, self.next, self.now, seen)?;
        self.numbers.insert(key, self.next)?;
        self.packets.push_back(packet)?;
        self.next = self.next.saturating_add(1);
        self.frames = self.frames.saturating_add(1);
        Ok(())
    }
}
