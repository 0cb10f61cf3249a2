//! What is kept of a capture to judge whether a packet is forwarded once.

use crate::heard_numbers::{HeardFrom, HeardNumbers, PacketId};
use crate::heard_sources::HeardSources;
use crate::lost::Lost;
use crate::packet_queue::PacketQueue;
use crate::seen_record::{NANOS, SeenRecord};
use crate::stretch::Stretch;
use crate::unread::{UnreadIn, UnreadRecord, UnreadRecords};
use its_duties::{Claims, EarlierRelay, RelayAgain, Verdict, judge_once, slack, wait};
use its_linkframe::FrameView;
use std::alloc::{AllocError, Global};
use std::collections::VecDeque;

/// How many forwarded packets are kept at most.
const MOST: usize = 16384;

/// So many earlier frames of a packet are tried at most, the last first.
const MOST_TRIED: usize = 16;

/// A packet for an area that the station forwarded.
#[derive(Clone, Copy)]
pub struct ForwardedPacket {
    /// Its record.
    pub record: u64,
    /// When it was sent, in nanoseconds.
    pub stamp: u64,
    /// Its first sending isn't in the capture.
    pub retried: bool,
    /// Its source and sequence number.
    pub packet: PacketId,
}

impl ForwardedPacket {
    /// The one of a record, if its packet is one for an area.
    pub fn of(record: &SeenRecord, frame: &FrameView<'_>) -> Option<ForwardedPacket> {
        Some(ForwardedPacket {
            record: record.number,
            stamp: record.stamp,
            retried: record.is_retry(),
            packet: PacketId::of(frame)?,
        })
    }

    /// Whether it comes before another one, by stamps and by records.
    fn is_before(&self, other: &ForwardedPacket) -> bool {
        self.stamp < other.stamp || (self.stamp == other.stamp && self.record < other.record)
    }
}

/// That no earlier frame was found of a packet that was forwarded.
#[derive(Clone, Copy)]
pub struct FoundNone {
    /// The capture has all of the time that counts.
    pub begins: bool,
    /// What isn't read of what was sent in this time.
    pub unread: Option<UnreadIn>,
    /// Packets had to give way that were forwarded in this time.
    pub too_many: bool,
}

impl FoundNone {
    /// It, by these claims.
    pub fn earlier(&self, claims: &Claims) -> EarlierRelay {
        let begins = claims.fresh || self.begins;
        if begins && self.unread.is_none() && !self.too_many {
            return EarlierRelay::Never;
        }
        EarlierRelay::NotSeen
    }
}

/// An earlier frame of a packet that was forwarded.
#[derive(Clone, Copy)]
pub struct FoundAgain {
    /// Its record.
    pub record: u64,
    since: u64,
    sure: bool,
    others: u32,
    /// The capture has all of the time in which other numbers count.
    others_begin: bool,
    /// The packet was heard less often than it was forwarded, and the capture has all of the time in
    /// which it may have been heard.
    heard_less: bool,
    sources: u32,
    /// The capture has all of the time in which sources count.
    pub sources_begin: bool,
    /// What isn't read of what was heard in this time.
    pub unread: Option<UnreadIn>,
    /// What was heard in this time had to give way.
    pub too_many: bool,
}

impl FoundAgain {
    /// Whether each record is read by which it is judged.
    pub fn is_read(&self) -> bool {
        self.unread.is_none() && !self.too_many
    }

    /// It, by these claims, if all records are read or not.
    pub fn earlier(&self, claims: &Claims, all_read: bool) -> EarlierRelay {
        EarlierRelay::Again(RelayAgain {
            since: self.since,
            sure: self.sure,
            others: self.others,
            others_known: all_read && self.others_begin,
            heard_less: all_read && self.heard_less,
            sources: self.sources,
            sources_known: all_read && (claims.fresh || self.sources_begin),
        })
    }

    /// How many other numbers were heard between.
    pub fn others(&self) -> u32 {
        self.others
    }
}

/// Whether a packet was forwarded before.
#[derive(Clone, Copy)]
pub enum FoundEarlier {
    /// No earlier frame was found.
    None(FoundNone),
    /// This one was found.
    Again(FoundAgain),
}

/// A stretch of time from so long before an earlier frame on.
#[derive(Clone, Copy)]
struct Around {
    back: u64,
    first: u64,
    stretch: Stretch,
}

impl Around {
    /// The one that ends so long after the later frame.
    fn of(back: u64, first: u64, second: u64, after: u64) -> Around {
        let stretch = Stretch {
            from: first.saturating_sub(back),
            to: second.saturating_add(after),
        };
        Around {
            back,
            first,
            stretch,
        }
    }

    /// Whether it doesn't begin before the capture.
    fn is_after(&self, begin: u64) -> bool {
        begin.saturating_add(self.back) <= self.first
    }
}

/// How long a source counts.
pub(crate) fn life(claims: &Claims) -> u64 {
    u64::from(claims.life).saturating_mul(NANOS)
}

/// How long before a forwarded packet another frame of it counts.
fn counted_time(claims: &Claims) -> u64 {
    life(claims)
        .saturating_add(wait(claims))
        .saturating_add(slack(claims).saturating_mul(2))
}

/// How long before a record another one may be by which it is judged whether a packet is forwarded
/// once.
pub(crate) fn once_time(claims: &Claims) -> u64 {
    counted_time(claims)
        .saturating_add(life(claims))
        .saturating_add(wait(claims).saturating_mul(2))
        .saturating_add(slack(claims).saturating_mul(2))
}

/// The packets that were forwarded last, and what was heard in their time.
#[derive(Drop)]
pub(crate) struct ForwardedPackets {
    alloc: Global,
    packets: PacketQueue<ForwardedPacket>,
    /// What had to give way.
    lost: Lost,
    /// What the station sent that isn't read and may be a forwarded packet.
    unread: UnreadRecords,
    numbers: HeardNumbers,
    sources: HeardSources,
}

impl ForwardedPackets {
    /// Nothing yet.
    pub(crate) fn new(alloc: Global) -> ForwardedPackets {
        ForwardedPackets {
            alloc,
            packets: PacketQueue::new(alloc),
            lost: Lost::nothing(),
            unread: UnreadRecords::new(alloc),
            numbers: HeardNumbers::new(alloc),
            sources: HeardSources::new(alloc),
        }
    }

    /// Notes that packets may be missing up to this stamp.
    pub(crate) fn lose(&mut self, stamp: u64) {
        self.lost.lose(stamp);
    }

    /// Adds a packet that was forwarded. Those of before `oldest` are forgotten.
    pub(crate) fn add(&mut self, packet: ForwardedPacket, oldest: u64) -> Result<(), AllocError> {
        for _ in 0..self.packets.len() {
            match self.packets.front() {
                Some(first) if first.stamp < oldest => {}
                _ => break,
            }
            self.packets.pop_front();
        }
        if MOST <= self.packets.len()
            && let Some(first) = self.packets.pop_front()
        {
            self.lose(first.stamp);
        }
        let id = packet.packet;
        self.packets.push_back(&id, packet)?;
        Ok(())
    }

    /// Adds a record that the station sent and that isn't read, if it may be a forwarded packet.
    pub(crate) fn add_unread(
        &mut self,
        record: &SeenRecord,
        oldest: u64,
    ) -> Result<(), AllocError> {
        let unread = UnreadRecord {
            stamp: record.stamp,
            number: record.number,
            despite_profile: true,
        };
        self.unread.add(unread, oldest)
    }

    /// Adds a frame that was heard. No frame is judged any more that was sent before `settled`.
    pub(crate) fn add_heard(
        &mut self,
        record: &SeenRecord,
        heard: &HeardFrom,
        settled: u64,
        oldest: u64,
    ) -> Result<(), AllocError> {
        for stamp in record.repeats.iter() {
            self.sources.add(heard.source, *stamp, settled, oldest)?;
        }
        self.sources
            .add(heard.source, record.stamp, settled, oldest)?;
        self.numbers.add(record, heard, oldest)
    }

    /// Adds another sending of a frame that was heard first in this record.
    pub(crate) fn repeat_heard(
        &mut self,
        first: u64,
        stamp: u64,
        heard: &HeardFrom,
        settled: u64,
        oldest: u64,
    ) -> Result<(), AllocError> {
        self.sources.add(heard.source, stamp, settled, oldest)?;
        match heard.sequence {
            Some(_) => self.numbers.repeat(first, stamp),
            None => Ok(()),
        }
    }

    /// Adds another sending of a record that isn't read, if it is one of these.
    pub(crate) fn repeat_unread(&mut self, first: u64, stamp: u64) -> Result<(), AllocError> {
        self.unread.repeat(first, stamp)
    }

    /// What the station sent from one stamp to another that isn't read and may be a forwarded packet.
    pub(crate) fn unread_in(&self, from: u64, to: u64) -> Option<UnreadIn> {
        self.unread.within(from, to)
    }

    /// At least as many sources as were heard in a stretch, and at most `limit` if those are: the
    /// greatest number if one may be missing.
    pub(crate) fn sources_at_most(&self, stretch: Stretch, limit: u32) -> u32 {
        if self.sources.may_lack(stretch.from) {
            return u32::MAX;
        }
        self.sources.at_most(stretch, limit)
    }

    /// Finds the last earlier frame of a packet with which it fails to be forwarded once, or else
    /// the last of all. The capture begins at this stamp.
    pub(crate) fn find(
        &self,
        claims: &Claims,
        unread: &UnreadRecords,
        begin: u64,
        packet: &ForwardedPacket,
    ) -> Result<FoundEarlier, AllocError> {
        let from = packet.stamp.saturating_sub(counted_time(claims));
        let mut earlier = self.earlier_of(packet, from)?;
        let mut last = None;
        for _ in 0..earlier.len() {
            let Some(other) = earlier.pop_back() else {
                break;
            };
            let found = self.again(claims, unread, begin, &other, packet)?;
            let verdict = judge_once(claims, found.earlier(claims, found.is_read()));
            if matches!(verdict, Verdict::Fail(_)) {
                return Ok(FoundEarlier::Again(found));
            }
            last = last.or(Some(found));
        }
        Ok(match last {
            Some(found) => FoundEarlier::Again(found),
            None => FoundEarlier::None(self.none(claims, begin, packet.stamp, from)),
        })
    }

    /// The last earlier frames of a packet since `from`.
    fn earlier_of(
        &self,
        packet: &ForwardedPacket,
        from: u64,
    ) -> Result<VecDeque<ForwardedPacket>, AllocError> {
        let mut earlier = VecDeque::new(self.alloc);
        let mut walk = self.packets.walk(&packet.packet);
        for _ in 0..self.packets.len() {
            let Some(other) = self.packets.step(&mut walk) else {
                break;
            };
            if from <= other.stamp && other.is_before(packet) {
                if MOST_TRIED <= earlier.len() {
                    earlier.pop_front();
                }
                earlier.push_back(*other)?;
            }
        }
        Ok(earlier)
    }

    /// That a packet with this stamp wasn't forwarded since `from`.
    fn none(&self, claims: &Claims, begin: u64, stamp: u64, from: u64) -> FoundNone {
        FoundNone {
            begins: begin.saturating_add(counted_time(claims)) <= stamp,
            unread: self.unread.within(from, stamp),
            too_many: self.lost.may_lack(from),
        }
    }

    /// What was heard from an earlier frame of a packet to it.
    fn again(
        &self,
        claims: &Claims,
        unread: &UnreadRecords,
        begin: u64,
        first: &ForwardedPacket,
        second: &ForwardedPacket,
    ) -> Result<FoundAgain, AllocError> {
        let doubt = slack(claims).saturating_mul(2);
        let near = wait(claims).saturating_add(doubt);
        let before_near = near.saturating_add(wait(claims));
        let copies = Around::of(near, first.stamp, second.stamp, doubt);
        let others = Around::of(before_near, first.stamp, second.stamp, doubt);
        let all = before_near.saturating_add(life(claims));
        let all = Around::of(all, first.stamp, second.stamp, doubt);
        let heard = self.numbers.copies(second.packet, copies.stretch);
        Ok(FoundAgain {
            record: first.record,
            since: second.stamp.saturating_sub(first.stamp),
            sure: !first.retried && !second.retried,
            others: self.numbers.others(second.packet, others.stretch)?,
            others_begin: others.is_after(begin),
            heard_less: copies.is_after(begin) && heard < self.count(first, second),
            sources: self.sources.count(all.stretch),
            sources_begin: all.is_after(begin),
            unread: unread.within(all.stretch.from, all.stretch.to),
            too_many: self.lost.may_lack(all.stretch.from)
                || self.numbers.may_lack(others.stretch.from)
                || self.sources.may_lack(all.stretch.from),
        })
    }

    /// How often a packet was forwarded from one frame of it to another.
    fn count(&self, first: &ForwardedPacket, second: &ForwardedPacket) -> u32 {
        let stretch = Stretch {
            from: first.stamp,
            to: second.stamp,
        };
        let mut count: u32 = 0;
        let mut walk = self.packets.walk(&second.packet);
        for _ in 0..self.packets.len() {
            let Some(other) = self.packets.step(&mut walk) else {
                return count;
            };
            if !other.retried && stretch.has(other.stamp) {
                count = count.saturating_add(1);
            }
        }
        count
    }
}
