//! What is kept of a capture, by which its records are judged.

use crate::forwarded::{ForwardedPacket, ForwardedPackets, FoundEarlier};
use crate::heard::HeardPackets;
use crate::heard_numbers::HeardFrom;
use crate::kept_times::{disorder, oldest, oldest_near, oldest_of_once};
use crate::near_relays::NearRelays;
use crate::owed::{CaptureTimes, FoundOwed, HeardFrame, Kept, reach, sent_from_to};
use crate::own_packets::{OwnPackets, StepFrom};
use crate::relays::{FoundOrigin, Relay, find_origin};
use crate::seen_record::SeenRecord;
use crate::source_runs::{KnownSince, SourceRuns};
use crate::unread::{UnreadRecord, UnreadRecords};
use its_duties::{Claims, Role, may_be_own, may_be_relay};
use its_linkframe::{FrameFault, FrameView};
use std::alloc::{AllocError, Global};

/// What is kept of the records that were met.
#[derive(Drop)]
pub struct Tap {
    /// What is claimed of the station and of the capture.
    pub claims: Claims,
    pub(crate) heard: HeardPackets,
    pub(crate) unread: UnreadRecords,
    /// The station's own packets.
    pub own: OwnPackets,
    pub(crate) forwarded: ForwardedPackets,
    pub(crate) relays: NearRelays,
    runs: SourceRuns,
}

/// What a record is to the station, and what was known when it was met.
#[derive(Clone, Copy)]
pub struct MetRecord {
    /// What it is to the station.
    pub role: Role,
    /// The step to its sequence number, if there is one.
    pub step: Option<StepFrom>,
    /// The packet, if it is one for an area that the station may have received.
    pub heard: Option<MetPacket>,
}

/// A packet for an area that the station may have received.
#[derive(Clone, Copy)]
pub struct MetPacket {
    /// What was known of its source when it was met.
    pub(crate) since: KnownSince,
    /// Its place among all that were heard.
    pub(crate) place: u64,
}

impl MetRecord {
    /// A record with this role, of which nothing else is known.
    fn of(role: Role) -> MetRecord {
        MetRecord {
            role,
            step: None,
            heard: None,
        }
    }

    /// Whether it is judged.
    pub fn is_judged(&self) -> bool {
        let is_sent = matches!(self.role, Role::Own | Role::Forwarded | Role::SentUnread);
        is_sent || self.heard.is_some()
    }
}

impl Tap {
    /// Nothing yet.
    pub fn new(alloc: Global, claims: &Claims) -> Tap {
        Tap {
            claims: *claims,
            heard: HeardPackets::new(alloc),
            unread: UnreadRecords::new(alloc),
            own: OwnPackets::new(alloc),
            forwarded: ForwardedPackets::new(alloc),
            relays: NearRelays::new(alloc),
            runs: SourceRuns::new(alloc),
        }
    }

    /// Notes that records may be missing up to this stamp.
    pub fn lose(&mut self, stamp: u64) {
        self.heard.lose(stamp);
        self.own.lose(stamp);
        self.forwarded.lose(stamp);
    }

    /// Adds a record that is no repeat. No record is judged any more that was sent before `settled`.
    pub fn add(&mut self, record: &SeenRecord, settled: u64) -> Result<MetRecord, AllocError> {
        let frame = record.frame();
        let role = record.role(&self.claims, &frame);
        let mut met = MetRecord::of(role);
        match (role, &frame) {
            (Role::Own, Ok(view)) => met.step = self.own.add(&self.claims, record, view)?,
            (Role::Heard, Ok(view)) => met.heard = self.add_heard(record, view, settled)?,
            (Role::Forwarded, Ok(view)) => self.add_forwarded(record, view)?,
            _ => self.add_unread(record, role, &frame)?,
        }
        Ok(met)
    }

    /// Adds a frame that the station may have received. Returns the packet, if it is one for an area.
    fn add_heard(
        &mut self,
        record: &SeenRecord,
        frame: &FrameView<'_>,
        settled: u64,
    ) -> Result<Option<MetPacket>, AllocError> {
        let claims = &self.claims;
        let back = oldest(claims, record.stamp);
        let near = oldest_near(claims, record.stamp);
        let once = oldest_of_once(claims, record.stamp);
        let heard = HeardFrom::of(frame);
        let place = self.heard.add(record, frame, &heard, (back, near))?;
        self.forwarded.add_heard(record, &heard, settled, once)?;
        let since = self.add_to_run(record, &heard)?;
        Ok(place.map(|place| MetPacket { since, place }))
    }

    /// Adds such a frame to the run of its source. Returns what was known of the source before.
    fn add_to_run(
        &mut self,
        record: &SeenRecord,
        heard: &HeardFrom,
    ) -> Result<KnownSince, AllocError> {
        let reach = reach(&self.claims);
        let (_, last) = sent_from_to(record);
        let first = record.stamp.saturating_sub(disorder(&self.claims));
        self.runs
            .add(heard.source, heard.sequence, (first, last), reach)
    }

    /// Adds a packet that the station forwarded, if it is one for an area.
    fn add_forwarded(
        &mut self,
        record: &SeenRecord,
        frame: &FrameView<'_>,
    ) -> Result<(), AllocError> {
        let near = oldest_near(&self.claims, record.stamp);
        self.relays.add(record, frame, near)?;
        let once = oldest_of_once(&self.claims, record.stamp);
        match ForwardedPacket::of(record, frame) {
            Some(packet) => self.forwarded.add(packet, once),
            None => Ok(()),
        }
    }

    /// Adds a record that isn't read, or is of another type.
    fn add_unread(
        &mut self,
        record: &SeenRecord,
        role: Role,
        frame: &Result<FrameView<'_>, FrameFault>,
    ) -> Result<(), AllocError> {
        let back = oldest(&self.claims, record.stamp);
        let once = oldest_of_once(&self.claims, record.stamp);
        if matches!(role, Role::Unread | Role::Untyped) {
            self.add_unread_heard(record, frame, once.min(back))?;
        }
        if may_be_own(&self.claims, role, record.octets.as_slice()) {
            self.own.add_hidden(record, back)?;
        }
        if may_be_relay(&self.claims, role, record.octets.as_slice()) {
            self.forwarded.add_unread(record, once)?;
        }
        Ok(())
    }

    /// Adds a record that the station may have processed and that isn't read.
    fn add_unread_heard(
        &mut self,
        record: &SeenRecord,
        frame: &Result<FrameView<'_>, FrameFault>,
        oldest: u64,
    ) -> Result<(), AllocError> {
        let mut profile = self.claims;
        profile.profile = true;
        let unread = UnreadRecord {
            stamp: record.stamp,
            number: record.number,
            despite_profile: record.role(&profile, frame) != Role::Other,
        };
        self.unread.add(unread, oldest)?;
        for stamp in record.repeats.iter() {
            let repeat = UnreadRecord {
                stamp: *stamp,
                ..unread
            };
            self.unread.add(repeat, oldest)?;
        }
        Ok(())
    }

    /// Adds a record as another sending of the frame of its first sending. Returns whether it is a
    /// packet for an area that the station may have received.
    pub fn add_repeat(
        &mut self,
        record: &SeenRecord,
        first: u64,
        settled: u64,
    ) -> Result<bool, AllocError> {
        let stamp = record.stamp;
        let frame = record.frame();
        if may_have_number(&frame) {
            self.heard.repeat(first, stamp)?;
        }
        self.unread.repeat(first, stamp)?;
        self.forwarded.repeat_unread(first, stamp)?;
        match (record.role(&self.claims, &frame), &frame) {
            (Role::Heard, Ok(view)) => {
                let once = oldest_of_once(&self.claims, stamp);
                let heard = HeardFrom::of(view);
                self.runs.repeat(heard.source, stamp);
                self.forwarded
                    .repeat_heard(first, stamp, &heard, settled, once)?;
                Ok(heard.sequence.is_some())
            }
            _ => Ok(false),
        }
    }

    /// Finds what a forwarded packet was made from. The capture begins at this stamp.
    pub fn find_origin(&self, begin: u64, relay: &Relay<'_>) -> FoundOrigin {
        find_origin(&self.claims, &self.heard, &self.unread, begin, relay)
    }

    /// Finds whether a packet was forwarded before. The capture begins at this stamp.
    pub fn find_earlier(
        &self,
        begin: u64,
        packet: &ForwardedPacket,
    ) -> Result<FoundEarlier, AllocError> {
        self.forwarded
            .find(&self.claims, &self.unread, begin, packet)
    }

    /// Finds what is known of a packet for an area that the station may have received.
    pub fn find_owed(&self, times: CaptureTimes, frame: &HeardFrame<'_>) -> FoundOwed {
        Kept { tap: self, times }.find(frame)
    }
}

/// Whether the first sending of a frame may be a packet for an area.
fn may_have_number(frame: &Result<FrameView<'_>, FrameFault>) -> bool {
    match frame {
        Ok(view) => view.packet.number().is_some(),
        Err(_) => true,
    }
}
