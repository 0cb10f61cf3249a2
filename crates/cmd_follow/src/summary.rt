//! The counts of the packets of a run over several captures.

ghost use Rattle.std.specs.Prelude.{◌≡◌, ◌≤◌, ◌<◌, ◌+◌, ◌-◌, ◌^◌, false};

use crate::delays::{Delays, Histogram};
use crate::packet::FollowedPacket;
use crate::sighting::NANOS;
use std::alloc::{AllocError, Global};

/// How many of all packets a tap has.
#[derive(Clone, Copy, Debug, PartialEq, Eq)]
pub(crate) struct TapPackets {
    pub(crate) tap: usize,
    pub(crate) seen: u64,
    pub(crate) missing: u64,
}

impl TapPackets {
    /// Counts a packet.
    ///
    /// - `sum`: each packet counts either as seen or as missing.
    fn add(&mut self, is_seen: bool)
        ensures sum { self.old.seen < 2 ^ 64 - 1 → self.old.missing < 2 ^ 64 - 1
            → self.new.seen + self.new.missing ≡ self.old.seen + self.old.missing + 1 }
        ensures seen { is_seen ≡ false → self.new.seen ≡ self.old.seen }
    {
        if is_seen {
            self.seen = self.seen.saturating_add(1);
        } else {
            self.missing = self.missing.saturating_add(1);
        }
    }
}

/// The counts of one tap's packets at another tap.
#[derive(Drop)]
pub(crate) struct Pair {
    /// The number of the first tap.
    pub(crate) from: usize,
    /// The number of the other one.
    pub(crate) to: usize,
    /// How many packets the first one has.
    pub(crate) packets: u64,
    /// How many of them the other one has as well.
    pub(crate) received: u64,
    /// The delays from the first frame of each packet at the first tap to that at the other, in
    /// microseconds. A packet that the other tap had earlier has none.
    pub(crate) delays: Delays,
}

impl Pair {
    /// Returns the pair of two taps without packets.
    fn new(alloc: Global, from: usize, to: usize) -> Pair {
        Pair {
            from,
            to,
            packets: 0,
            received: 0,
            delays: Delays::new(alloc),
        }
    }

    /// Counts a packet, if the first tap has it.
    ///
    /// - `ratio`: no more packets are received than there are.
    fn add(&mut self, packet: &FollowedPacket) -> Result<(), AllocError>
        ensures ratio { self.old.received ≤ self.old.packets
            → self.new.received ≤ self.new.packets }
    {
        let Some(first) = packet.first_at(self.from) else {
            return Ok(());
        };
        let Some(other) = packet.first_at(self.to) else {
            self.count(false);
            return Ok(());
        };
        self.count(true);
        match other.stamp.checked_sub(first.stamp) {
            Some(nanos) => self.delays.add(nanos / 1000),
            None => Ok(()),
        }
    }

    /// Counts a packet that the first tap has. None is counted after 2^64 - 1 packets.
    fn count(&mut self, is_received: bool)
        ensures { self.old.received ≤ self.old.packets
            → self.new.received ≤ self.new.packets }
    {
        let Some(packets) = self.packets.checked_add(1) else {
            return;
        };
        self.packets = packets;
        if is_received {
            self.received = self.received.saturating_add(1);
        }
    }
}

/// The counts of the packets of all taps.
#[derive(Drop)]
pub(crate) struct Summary {
    /// How many packets some tap has.
    pub(crate) packets: u64,
    pub(crate) taps: Vec<TapPackets>,
    /// Each tap with each other one.
    pub(crate) pairs: Vec<Pair>,
    /// How long stations took to forward frames, in milliseconds.
    pub(crate) forwarding: Histogram,
}

impl Summary {
    /// Returns the summary of this many taps without packets. `AllocError` if an allocation failed.
    pub(crate) fn new(alloc: Global, count: usize) -> Result<Summary, AllocError> {
        let (mut taps, mut pairs) = (Vec::new(alloc), Vec::new(alloc));
        for from in 0..count {
            taps.push(TapPackets {
                tap: from,
                seen: 0,
                missing: 0,
            })?;
            for to in 0..count {
                if from != to {
                    pairs.push(Pair::new(alloc, from, to))?;
                }
            }
        }
        Ok(Summary {
            packets: 0,
            taps,
            pairs,
            forwarding: Histogram::new(alloc),
        })
    }

    /// Counts a packet. `AllocError` if an allocation failed.
    pub(crate) fn add(&mut self, packet: &FollowedPacket) -> Result<(), AllocError> {
        self.packets = self.packets.saturating_add(1);
        for tap in self.taps.iter_mut() {
            tap.add(packet.first_at(tap.tap).is_some());
        }
        for pair in self.pairs.iter_mut() {
            pair.add(packet)?;
        }
        for frame in packet.sightings() {
            if let Some(nanos) = packet.forwarding_delay(frame) {
                self.forwarding.add(nanos / NANOS)?;
            }
        }
        Ok(())
    }
}
