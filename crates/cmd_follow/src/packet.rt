//! A packet with its frames at all taps.

use crate::key::{PacketFields, PacketKey};
use crate::sighting::{SeenPacket, Sighting};
use std::alloc::{AllocError, Global};

/// How many frames of a packet are kept at most.
pub(crate) const MOST_OF_PACKET: usize = 1024;

/// A packet with its frames at all taps.
#[derive(Drop)]
pub(crate) struct FollowedPacket {
    /// How many packets come before it.
    pub(crate) number: u64,
    pub(crate) key: PacketKey,
    pub(crate) fields: PacketFields,
    /// The greatest time of a record when its first frame was read, in nanoseconds.
    pub(crate) opened: u64,
    /// Its frames in the order of their times.
    sightings: Vec<Sighting>,
}

impl FollowedPacket {
    /// Returns the packet with this number and one frame.
    pub(crate) fn new(
        alloc: Global,
        number: u64,
        opened: u64,
        seen: SeenPacket,
    ) -> Result<FollowedPacket, AllocError> {
        let mut sightings = Vec::new(alloc);
        sightings.push(seen.sighting)?;
        Ok(FollowedPacket {
            number,
            key: seen.key,
            fields: seen.fields,
            opened,
            sightings,
        })
    }

    /// Its frames in the order of their times.
    pub(crate) fn sightings(&self) -> &[Sighting] {
        self.sightings.as_slice()
    }

    /// Returns its first frame at a tap.
    pub(crate) fn first_at(&self, tap: usize) -> Option<&Sighting> {
        self.sightings().iter().find(|sighting| sighting.tap == tap)
    }

    /// Returns the time of its first frame.
    pub(crate) fn first_stamp(&self) -> u64 {
        match self.sightings().first() {
            Some(first) => first.stamp,
            None => self.opened,
        }
    }

    /// Adds a frame, after those with the same time. Returns whether there was space for it.
    pub(crate) fn add(&mut self, sighting: Sighting) -> Result<bool, AllocError> {
        if MOST_OF_PACKET <= self.sightings.len() {
            return Ok(false);
        }
        let later = self
            .sightings()
            .iter()
            .rev()
            .take_while(|other| sighting.stamp < other.stamp)
            .count();
        let place = self.sightings.len().saturating_sub(later);
        self.sightings.insert(place, sighting)?;
        Ok(true)
    }

    /// Returns how long a station took to forward this frame, in nanoseconds: the time since the
    /// first frame from another station at the same tap with a hop limit higher by 1. `None` if the
    /// tap has no such frame, if nobody forwarded the packet, or if the station had sent this frame
    /// before.
    pub(crate) fn forwarding_delay(&self, frame: &Sighting) -> Option<u64> {
        if !frame.is_forwarded() {
            return None;
        }
        let mut cause = None;
        for other in self.sightings() {
            if other == frame {
                break;
            }
            if other.tap == frame.tap && other.from == frame.from && other.hops == frame.hops {
                return None;
            }
            if cause.is_none() && is_cause(other, frame) {
                cause = Some(other.stamp);
            }
        }
        frame.stamp.checked_sub(cause?)
    }
}

/// Whether a station may have received the first frame before it sent the second one.
fn is_cause(first: &Sighting, second: &Sighting) -> bool {
    first.tap == second.tap
        && first.from != second.from
        && first.hops.checked_sub(1) == Some(second.hops)
}
