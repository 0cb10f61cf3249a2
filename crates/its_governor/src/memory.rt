//! Packets that were delivered.

ghost use Rattle.std.specs.Prelude.{◌≡◌, [], IfOk};
ghost use Rattle.its_governor.specs.Memory.{is_held, with_packet, is_packet};
ghost use Rattle.std.specs.List.{list_any};

use circular_buffer::HeapCircularBuffer;
use its_gnvalue::{GnAddress, NoMemory};
use std::alloc::Global;
use std::marker::Model;

/// How many packets are kept.
const PACKETS: usize = 1024;

/// What tells a packet for an area from all other packets, and what no forwarder changes: its source,
/// its sequence number and the time stamp of its position vector. A source that was restarted uses
/// its sequence numbers again, but with newer time stamps.
#[derive(Clone, Copy, Debug, PartialEq, Eq)]
pub struct PacketId {
    /// The address of the source.
    pub source: GnAddress,
    /// The sequence number.
    pub number: u16,
    /// The time stamp of the source's position vector, in milliseconds modulo 2^32.
    pub timestamp: u32,
}

/// A packet for an area that was delivered, and the first time at which its lifetime is over.
#[derive(Clone, Copy, Debug, PartialEq, Eq)]
pub struct DeliveredPacket {
    pub(crate) id: PacketId,
    pub(crate) until: u64,
}

/// The last 1024 packets for an area that were delivered. Contracts see them, the newest first, and
/// how many are kept.
#[derive(Drop)]
pub struct DeliveryMemory {
    packets: HeapCircularBuffer<DeliveredPacket>,
}

impl Model for DeliveryMemory {
    ghost use Rattle.its_governor.specs.Memory.{MemoryState};

    ghost Value = { MemoryState };

    ghost view = { λ m. record { packets = m.packets.items; limit = m.packets.capacity } };
}

impl DeliveryMemory {
    /// No packet yet, and memory for all that will be kept.
    pub fn new(alloc: Global) -> Result<DeliveryMemory, NoMemory>
        ensures { IfOk result (λ m. m ≡ record { packets = []; limit = 1024 }) }
    {
        let packets = HeapCircularBuffer::with_capacity(alloc, PACKETS)?;
        Ok(DeliveryMemory { packets })
    }

    /// Whether this packet was delivered, and its lifetime isn't over.
    pub fn holds(&self, id: &PacketId, now: u64) -> bool
        ensures { result ≡ is_held self.now id.now now }
    {
        let (newer, older) = self.packets.as_slices();
        is_among(newer, id, now) || is_among(older, id, now)
    }

    /// Keeps a packet that was delivered. If 1024 packets were kept, the oldest goes. It takes no
    /// memory.
    pub fn note(&mut self, id: PacketId, until: u64)
        ensures { self.new ≡ with_packet id until self.old }
    {
        self.packets.push_front(DeliveredPacket { id, until });
    }
}

/// Whether a packet that still lives is among these.
fn is_among(packets: &[DeliveredPacket], id: &PacketId, now: u64) -> bool
    ensures { result ≡ list_any (is_packet id.now now) packets.now }
{
    packets.iter().any(|p| {
        p.id.source == id.source
            && p.id.number == id.number
            && p.id.timestamp == id.timestamp
            && now < p.until
    })
}
