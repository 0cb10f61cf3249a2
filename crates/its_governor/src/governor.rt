//! What passes a governor.

ghost use Rattle.std.specs.Prelude.{◌≡◌, ◌&&◌, Bool, true, false, IfOk, IsTrue, IsFalse, Option};
ghost use Rattle.std.specs.Prelude.{None};
ghost use Rattle.its_model.specs.Packet.{number_in};
ghost use Rattle.its_headers.specs.Seen.{Seen};
ghost use Rattle.its_governor.specs.Governing.{IsNewGovernor, room_in, draw_from, source_room};
ghost use Rattle.its_governor.specs.Governing.{source_drawn, is_echo, may_forward, passed_of};
ghost use Rattle.its_governor.specs.Governing.{after_forwarding, after_delivery, after_judging};
ghost use Rattle.its_governor.specs.Governing.{IsDraw, IsDrawOf, has_room_for, id_of};
ghost use Rattle.its_governor.specs.Governing.{is_over_rate, after_refusal, after_sent};
ghost use Rattle.its_governor.specs.Governing.{admits, has_room_of};
ghost use Rattle.its_governor.specs.Pressure.{is_pressed, has_share_of, may_share_of};

use crate::bucket::{Bucket, turns_of};
use crate::memory::{DeliveryMemory, PacketId};
use crate::rate::Limits;
use crate::receiver::Receiver;
use crate::shares::{SharedFrame, Shares};
use crate::sources::SourceBuckets;
use its_gnvalue::{GnAddress, NoMemory};
use its_station::{LAST_MOMENT, ReceivedFrame};
use std::alloc::Global;

/// How often something was withheld. A count stays at 2^64 - 1 once it is there.
#[derive(Clone, Copy, Debug, PartialEq, Eq)]
pub struct WithheldCounts {
    /// Frames that the station would have forwarded.
    pub suppressed: u64,
    /// Packets that were delivered before, and so were neither delivered nor forwarded.
    pub repeated: u64,
    /// Own packets: the calls were refused.
    pub over_rate: u64,
}

/// What a station does with a packet that it accepts.
#[derive(Clone, Copy, Debug, PartialEq, Eq)]
pub struct Accepted {
    /// Whether it delivers the payload.
    pub handed: bool,
    /// Whether it would forward the packet.
    pub sent: bool,
}

/// What passes of an accepted packet.
#[derive(Clone, Copy, Debug, PartialEq, Eq)]
pub struct Passed {
    /// Whether its payload is delivered.
    pub delivers: bool,
    /// Whether it is forwarded.
    pub forwards: bool,
    /// Whether it was delivered before, and is remembered: then it passes neither way.
    pub is_repeated: bool,
}

/// The limits of a station, and what is left of them.
#[derive(Drop)]
pub struct Governor {
    pub(crate) forward: Option<Bucket>,
    pub(crate) sources: Option<SourceBuckets>,
    pub(crate) shares: Option<Shares>,
    pub(crate) own: Option<Bucket>,
    pub(crate) hop_cap: u8,
    pub(crate) delivered: Option<DeliveryMemory>,
    pub(crate) counts: WithheldCounts,
}

impl Governor {
    /// A governor of these limits, whose buckets are full. It takes all its memory here.
    pub fn new(alloc: Global, limits: &Limits) -> Result<Governor, NoMemory>
        ensures { IfOk result (IsNewGovernor limits.now) }
    {
        let sources = match limits.source {
            Some(rate) => Some(SourceBuckets::new(alloc, rate)?),
            None => None,
        };
        let shares = match (limits.forward, limits.source) {
            (Some(_), Some(_)) => Some(Shares::new(alloc)?),
            _ => None,
        };
        let delivered = if limits.delivers_once {
            Some(DeliveryMemory::new(alloc)?)
        } else {
            None
        };
        Ok(Governor {
            forward: limits.forward.map(Bucket::new),
            sources,
            shares,
            own: limits.own.map(Bucket::new),
            hop_cap: limits.hop_cap,
            delivered,
            counts: WithheldCounts {
                suppressed: 0,
                repeated: 0,
                over_rate: 0,
            },
        })
    }

    /// How often something was withheld.
    pub fn counts(&self) -> WithheldCounts
        ensures { result ≡ self.now.counts }
    {
        self.counts
    }

    /// Whether the bucket of all forwarded frames is under pressure: it holds less than four fifths of
    /// its burst, and there is a limit per source too. Only then a frame depends on its receiver.
    pub fn is_pressed(&self, now: u64) -> bool
        ensures { result ≡ is_pressed self.now.forward self.now.shares now }
    {
        match (&self.forward, &self.shares) {
            (Some(bucket), Some(_)) => bucket.is_low(now),
            _ => false,
        }
    }

    /// What passes of a packet that a station accepted: whether it is delivered, and whether it is
    /// forwarded. A packet that is remembered as delivered passes neither way.
    #[inline(always)]
    pub fn judge<'a, F: ReceivedFrame<'a>>(
        &mut self,
        now: u64,
        receiver: &Receiver,
        frame: &F,
        accepted: Accepted,
    ) -> Passed
        ensures passed { result ≡ passed_of self.old receiver.now now (F.frame frame.now)
            accepted.handed accepted.sent }
        ensures state { self.new ≡ after_judging self.old receiver.now now (F.frame frame.now)
            accepted.handed accepted.sent }
        ensures once { IsTrue (is_echo self.old.delivered now (F.frame frame.now)) →
            IsFalse result.delivers }
        ensures open { IsTrue (may_forward self.old receiver.now now (F.frame frame.now)) →
            result ≡ record {
              delivers = accepted.handed;
              forwards = accepted.sent;
              is_repeated = false;
            } }
        ensures deliveries { self.old.delivered ≡ None → result.delivers ≡ accepted.handed }
        ensures room { IsDraw self.old.forward result.forwards now self.new.forward }
        ensures source { IsDrawOf self.old.sources (F.frame frame.now).pdu.vector.address
            result.forwards now self.new.sources }
    {
        let is_repeated = self.is_echo(now, frame);
        let forwards = accepted.sent && !is_repeated && self.has_room_for(now, receiver, frame);
        let delivers = accepted.handed && !is_repeated;
        if accepted.sent {
            self.note_forwarding(now, frame.vector().address(), forwards);
        }
        self.note_delivery(now, frame, is_repeated, delivers);
        Passed {
            delivers,
            forwards,
            is_repeated,
        }
    }

    /// Whether nothing but the buckets can withhold a packet: it wasn't delivered before, and it has
    /// no more hops left than the greatest. A frame that may wait before it is forwarded is judged by
    /// this when its packet is accepted, and by `forward` when it is released. It takes nothing from
    /// the buckets.
    ///
    /// - `split`: a packet may be forwarded if it is admitted and the buckets have room.
    pub fn admits<'a, F: ReceivedFrame<'a>>(&self, now: u64, frame: &F) -> bool
        ensures value { result ≡ admits self.now now (F.frame frame.now) }
        ensures split { (r : Receiver) → may_forward self.now r now (F.frame frame.now)
            ≡ (result && has_room_of self.now r now (F.frame frame.now).pdu.vector.address
            (number_in (F.frame frame.now).pdu.body)) }
    {
        !self.is_echo(now, frame) && frame.hops_left() <= self.hop_cap
    }

    /// Judges a frame that waited and is to be sent at this time, by the source and the sequence
    /// number of its packet: whether the buckets have room. Then it takes the frame out of them;
    /// otherwise the frame is counted as suppressed.
    pub fn forward(
        &mut self,
        now: u64,
        receiver: &Receiver,
        source: GnAddress,
        number: Option<u16>,
    ) -> bool
        ensures passed { result ≡ has_room_of self.old receiver.now now source number }
        ensures state { self.new ≡ after_forwarding self.old now source true result }
        ensures room { IsDraw self.old.forward result now self.new.forward }
        ensures source { IsDrawOf self.old.sources source result now self.new.sources }
    {
        let forwards = self.has_room_of(now, receiver, source, number);
        self.note_forwarding(now, source, forwards);
        forwards
    }

    /// Whether the limits have room for a packet that is to be forwarded.
    fn has_room_for<'a, F: ReceivedFrame<'a>>(
        &self,
        now: u64,
        receiver: &Receiver,
        frame: &F,
    ) -> bool
        ensures { result ≡ has_room_for self.now receiver.now now (F.frame frame.now) }
    {
        frame.hops_left() <= self.hop_cap
            && self.has_room_of(now, receiver, frame.vector().address(), frame.number())
    }

    /// Whether the buckets have room for a frame of a packet from this source, with this number.
    fn has_room_of(
        &self,
        now: u64,
        receiver: &Receiver,
        source: GnAddress,
        number: Option<u16>,
    ) -> bool
        ensures { result ≡ has_room_of self.now receiver.now now source number }
    {
        has_room(&self.forward, now)
            && self.source_has_room(now, source)
            && self.has_share(now, receiver, source, number)
    }

    /// Whether a frame keeps the rules of a bucket under pressure, or there is no pressure.
    fn has_share(
        &self,
        now: u64,
        receiver: &Receiver,
        source: GnAddress,
        number: Option<u16>,
    ) -> bool
        ensures { result ≡ has_share_of self.now.forward self.now.shares receiver.now now source
            number }
    {
        match (&self.forward, &self.shares) {
            (Some(bucket), Some(shares)) => {
                !bucket.is_low(now) || may_share(bucket, shares, now, receiver, source, number)
            }
            _ => true,
        }
    }

    /// Whether the bucket of a source has room.
    fn source_has_room(&self, now: u64, source: GnAddress) -> bool
        ensures { result ≡ source_room self.now.sources source now }
    {
        match &self.sources {
            Some(sources) => sources.bucket_of(source).has_room(now),
            None => true,
        }
    }

    /// Whether a packet was delivered before, and is remembered.
    #[inline(always)]
    fn is_echo<'a, F: ReceivedFrame<'a>>(&self, now: u64, frame: &F) -> bool
        ensures { result ≡ is_echo self.now.delivered now (F.frame frame.now) }
    {
        let Some(delivered) = &self.delivered else {
            return false;
        };
        match id_of(frame) {
            Some(id) => delivered.holds(&id, now),
            None => false,
        }
    }

    /// Takes a frame that is forwarded out of its buckets, and counts one that isn't.
    fn note_forwarding(&mut self, now: u64, source: GnAddress, forwards: bool)
        ensures { self.new ≡ after_forwarding self.old now source true forwards }
    {
        if forwards {
            let pressed = self.is_pressed(now);
            draw(&mut self.forward, now);
            if let Some(sources) = &mut self.sources {
                sources.draw(source, now);
            }
            if let Some(shares) = &mut self.shares {
                shares.note(SharedFrame {
                    source,
                    time: now,
                    pressed,
                });
            }
        } else {
            self.counts.suppressed = self.counts.suppressed.saturating_add(1);
        }
    }

    /// Remembers a packet that is delivered, and counts one that was delivered before.
    #[inline(always)]
    fn note_delivery<'a, F: ReceivedFrame<'a>>(
        &mut self,
        now: u64,
        frame: &F,
        is_repeated: bool,
        delivers: bool,
    )
        ensures { self.new
            ≡ after_delivery self.old now (F.frame frame.now) is_repeated delivers }
    {
        if delivers {
            self.remember(now, frame);
        } else if is_repeated {
            self.counts.repeated = self.counts.repeated.saturating_add(1);
        }
    }

    /// Remembers a packet that is delivered, if it has a number and the governor a memory.
    fn remember<'a, F: ReceivedFrame<'a>>(&mut self, now: u64, frame: &F)
        ensures { self.new ≡ after_delivery self.old now (F.frame frame.now) true true }
    {
        let Some(delivered) = &mut self.delivered else {
            return;
        };
        if let Some(id) = id_of(frame) {
            delivered.note(id, now.saturating_add(frame.lifetime().millis()));
        }
    }

    /// Whether a request for an own packet at this time finds no room. `clock` is that of the station:
    /// a request at a time that the station refuses (S1, S2) is not over its rate.
    pub fn is_over_rate(&self, clock: u64, now: u64) -> bool
        ensures { result ≡ is_over_rate self.now clock now }
    {
        clock <= now && now <= LAST_MOMENT && !self.may_send(now)
    }

    /// Counts a request that was refused for its rate.
    pub fn note_refusal(&mut self)
        ensures { self.new ≡ after_refusal self.old }
    {
        self.counts.over_rate = self.counts.over_rate.saturating_add(1);
    }

    /// Whether an own packet may be sent.
    pub fn may_send(&self, now: u64) -> bool
        ensures { result ≡ room_in self.now.own now }
    {
        has_room(&self.own, now)
    }

    /// An own packet was sent.
    pub fn note_sent(&mut self, now: u64)
        ensures { self.new ≡ after_sent self.old now }
    {
        draw(&mut self.own, now);
    }
}

/// What tells the packet of a frame from all others, if it has a sequence number.
fn id_of<'a, F: ReceivedFrame<'a>>(frame: &F) -> Option<PacketId>
    ensures { result ≡ id_of (F.frame frame.now) }
{
    let number = frame.number()?;
    let vector = frame.vector();
    Some(PacketId {
        source: vector.address(),
        number,
        timestamp: vector.tst(),
    })
}

/// Whether a frame of a packet keeps the rules of a bucket under pressure.
fn may_share(
    bucket: &Bucket,
    shares: &Shares,
    now: u64,
    receiver: &Receiver,
    source: GnAddress,
    number: Option<u16>,
) -> bool
    ensures { result ≡ may_share_of bucket.now shares.now receiver.now now source number }
{
    let turn = receiver.turn_in(turns_of(bucket.rate()), source, number);
    receiver.knew_source
        && shares.is_within_share(bucket.rate(), source, now)
        && bucket.holds_more_than(turn, now)
}

/// Whether a bucket has room for a frame. A limit that isn't there has.
fn has_room(bucket: &Option<Bucket>, now: u64) -> bool
    ensures { result ≡ room_in bucket.now now }
{
    match bucket {
        Some(bucket) => bucket.has_room(now),
        None => true,
    }
}

/// Takes a frame out of a bucket, if there is one.
fn draw(bucket: &mut Option<Bucket>, now: u64)
    ensures { bucket.new ≡ draw_from bucket.old now }
{
    if let Some(bucket) = bucket {
        bucket.draw(now);
    }
}
