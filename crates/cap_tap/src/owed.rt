//! Whether a packet that was heard was forwarded, and what makes it sure that it had to be.

use crate::forwarded::life;
use crate::heard::HeardPacket;
use crate::heard_numbers::PacketId;
use crate::heard_sources::LARGEST_TABLE;
use crate::near_relays::NearRelay;
use crate::repeats::RETRY_TIME;
use crate::seen_record::SeenRecord;
use crate::source_runs::KnownSince;
use crate::stretch::Stretch;
use crate::tap::{MetPacket, Tap};
use crate::unread::UnreadIn;
use its_duties::{Claims, OwedSearch, RelaySeen, lag, slack, wait};

/// A heard packet that may be owed.
#[derive(Clone, Copy)]
pub struct HeardFrame<'a> {
    /// Its record.
    pub record: &'a SeenRecord,
    /// Its source and sequence number.
    pub packet: PacketId,
    /// What was known of it when it was met.
    pub met: MetPacket,
}

/// When a capture begins, and up to when it is complete.
#[derive(Clone, Copy)]
pub struct CaptureTimes {
    /// The first stamp.
    pub begin: u64,
    /// The stamp up to which the capture is complete.
    pub end: u64,
}

/// What was kept of a capture, by which a heard packet is judged.
#[derive(Clone, Copy)]
pub(crate) struct Kept<'a> {
    pub(crate) tap: &'a Tap,
    pub(crate) times: CaptureTimes,
}

/// How many frames of a packet's number are looked at, and how many packets of it if numbers of its
/// source may be missing, so that each one may be new.
const MOST_TRIED: usize = 4096;

/// For so many frames that a packet didn't cause its copies are looked at.
const MOST_OTHERS: usize = 64;

/// The frame that a heard packet caused.
#[derive(Clone, Copy)]
pub enum Caused {
    /// The one of this record.
    Frame(u64),
    /// The one of this record, by a copy that came beside it.
    ByCopy(u64),
    /// It caused no frame. The one of this record is another packet of its number.
    Other(u64),
    /// It caused no frame.
    None,
}

/// What may be missing of what a heard packet is judged by.
#[derive(Clone, Copy)]
pub struct Gaps {
    /// A record isn't read that may have its source.
    pub unread: Option<UnreadIn>,
    /// A frame that the station may have sent isn't read.
    pub sent_unread: Option<UnreadIn>,
    /// What was heard or forwarded had to give way, or isn't all looked at.
    pub too_many: bool,
}

impl Gaps {
    /// Whether nothing is missing.
    fn is_empty(self) -> bool {
        self.unread.is_none() && self.sent_unread.is_none() && !self.too_many
    }
}

/// What was found of a heard packet.
#[derive(Clone, Copy)]
pub struct FoundOwed {
    /// What it is judged by.
    pub search: OwedSearch,
    /// The frame that it caused.
    pub caused: Caused,
    /// The station knew the source only since the begin, if it knew no other station then.
    pub is_fresh: bool,
    /// The first record of its number that is no copy of it.
    pub other: Option<u64>,
    /// What may be missing.
    pub gaps: Gaps,
}

/// The copies of a heard packet that came beside it.
#[derive(Clone, Copy)]
struct Copies {
    until: u64,
    /// The link sent one of them again.
    repeated: bool,
    is_new: bool,
    other: Option<u64>,
    /// There are more than are looked at.
    too_many: bool,
}

/// The frame that a packet caused, as far as frames were looked at.
#[derive(Clone, Copy)]
struct CauseSearch {
    caused: Caused,
    /// How many frames the packet didn't cause, nor a copy of it.
    others: usize,
    /// There are more than are looked at.
    too_many: bool,
}

/// How long a source may count for the station, by stamps.
pub(crate) fn reach(claims: &Claims) -> u64 {
    life(claims).saturating_add(span(claims))
}

/// From the last sending of a packet to the last frame that it may cause.
fn span(claims: &Claims) -> u64 {
    wait(claims).saturating_add(slack(claims).saturating_mul(2))
}

/// How long after its last sending a heard packet is judged.
pub(crate) fn owed_time(claims: &Claims) -> u64 {
    span(claims)
        .saturating_mul(3)
        .saturating_add(lag(claims))
        .saturating_add(RETRY_TIME.saturating_mul(3))
}

/// When a record was sent first and last.
pub(crate) fn sent_from_to(record: &SeenRecord) -> (u64, u64) {
    let (mut first, mut last) = (record.stamp, record.stamp);
    for stamp in record.repeats.iter() {
        first = first.min(*stamp);
        last = last.max(*stamp);
    }
    (first, last)
}

/// Whether a frame was made from a heard packet in time.
fn is_made_from(claims: &Claims, packet: &HeardPacket, relay: &NearRelay) -> bool {
    let latest = relay.stamp.saturating_add(slack(claims).saturating_mul(2));
    let is_in_time = match packet.last_until(latest) {
        Some(last) => relay.stamp <= last.saturating_add(span(claims)),
        None => false,
    };
    is_in_time
        && packet.hops.left().checked_sub(1) == Some(relay.left)
        && packet.is_copy(claims, relay.octets.as_slice())
}

impl Kept<'_> {
    /// Finds what is known of a heard packet. Its copies are looked at only if its number is new,
    /// because it isn't owed otherwise. A number is new once for as long as its source counts. So a
    /// source that sends one number again and again has its packets looked at once.
    pub(crate) fn find(&self, frame: &HeardFrame<'_>) -> FoundOwed {
        let own = self.tap.heard.at(frame.met.place);
        if frame.met.since.is_new {
            return self.find_new(frame, own);
        }
        let claims = &self.tap.claims;
        let (first, last) = sent_from_to(frame.record);
        let sent = sent_then(claims, first, last);
        let search = self.caused(frame, own, false, sent);
        FoundOwed {
            search: OwedSearch {
                relay: relay_seen(search.caused),
                known_target: frame.record.known_target,
                late: false,
                known_from: false,
                new: false,
                copies: false,
                sources: u32::MAX,
                goes_on: false,
                all_read: false,
            },
            caused: search.caused,
            is_fresh: false,
            other: None,
            gaps: Gaps {
                unread: None,
                sent_unread: None,
                too_many: true,
            },
        }
    }

    /// Finds what is known of a heard packet whose number is new.
    fn find_new(&self, frame: &HeardFrame<'_>, own: Option<&HeardPacket>) -> FoundOwed {
        let claims = &self.tap.claims;
        let (first, last) = sent_from_to(frame.record);
        let heard = Stretch {
            from: first,
            to: last.saturating_add(span(claims)),
        };
        let (from, is_fresh) = self.known_from(frame.met.since);
        let start = from.unwrap_or(first);
        let copies = self.copies(frame, own, start, heard);
        let sent = sent_then(claims, first, copies.until);
        let search = self.caused(frame, own, copies.is_new, sent);
        let mut gaps = self.gaps(
            Stretch {
                from: start,
                ..heard
            },
            sent,
        );
        let lacks_heard = own.is_none() || copies.too_many || self.tap.heard.may_lack(first);
        gaps.too_many = gaps.too_many || lacks_heard || search.too_many;
        FoundOwed {
            search: OwedSearch {
                relay: relay_seen(search.caused),
                known_target: frame.record.known_target,
                late: self.is_late(first),
                known_from: from.is_some(),
                new: copies.is_new,
                copies: copies.other.is_none(),
                sources: self.sources(heard),
                goes_on: self.goes_on(frame.record.is_wireless() || copies.repeated, sent.to),
                all_read: gaps.is_empty(),
            },
            caused: search.caused,
            is_fresh,
            other: copies.other,
            gaps,
        }
    }

    /// Whether a packet that was sent first at this stamp comes after the last call before the
    /// capture.
    fn is_late(&self, first: u64) -> bool {
        let doubt = slack(&self.tap.claims).saturating_mul(2);
        self.times.begin.saturating_add(doubt) <= first
    }

    /// What isn't read of what was heard, and of what the station sent, in these stretches.
    fn gaps(&self, heard: Stretch, sent: Stretch) -> Gaps {
        let sent_until = sent.to.saturating_add(RETRY_TIME);
        Gaps {
            unread: self.tap.unread.within(heard.from, heard.to),
            sent_unread: self.tap.forwarded.unread_in(sent.from, sent_until),
            too_many: self.tap.relays.may_lack(sent.from),
        }
    }

    /// At least as many sources as count for a packet that was heard in this stretch, and not more
    /// than a table has room for if those are not.
    fn sources(&self, heard: Stretch) -> u32 {
        let claims = &self.tap.claims;
        let counted = Stretch {
            from: heard.from.saturating_sub(reach(claims)),
            ..heard
        };
        let room = claims.capacity.unwrap_or(LARGEST_TABLE);
        self.tap.forwarded.sources_at_most(counted, room)
    }

    /// From which stamp on it is known what was heard of a source, if from one. `true`: it is known
    /// if the station knew no other station when the capture began.
    fn known_from(&self, since: KnownSince) -> (Option<u64>, bool) {
        let Some(oldest) = since.oldest else {
            return (None, false);
        };
        let reach = reach(&self.tap.claims);
        if self.times.begin.saturating_add(reach) <= oldest {
            return (Some(oldest.saturating_sub(reach)), false);
        }
        (self.tap.claims.fresh.then_some(0), true)
    }

    /// Whether the capture has each frame that a packet may have caused up to this time.
    fn goes_on(&self, wireless: bool, until: u64) -> bool {
        let retries = if wireless { RETRY_TIME } else { 0 };
        let needed = until
            .saturating_add(lag(&self.tap.claims))
            .saturating_add(wait(&self.tap.claims))
            .saturating_add(retries);
        needed <= self.times.end
    }

    /// The copies that came beside a packet. `start`: since when its number is new.
    fn copies(
        &self,
        frame: &HeardFrame<'_>,
        own: Option<&HeardPacket>,
        start: u64,
        beside: Stretch,
    ) -> Copies {
        let (_, last) = sent_from_to(frame.record);
        let mut copies = Copies {
            until: last,
            repeated: false,
            is_new: true,
            other: None,
            too_many: false,
        };
        let Some(own) = own else {
            return copies;
        };
        let heard = &self.tap.heard;
        let mut walk = heard.walk(&frame.packet);
        for _ in 0..self.most_copies(frame) {
            match heard.step(&mut walk) {
                Some(packet) if packet.number == own.number => {}
                Some(packet) => {
                    copies = copies.with(&self.tap.claims, own, packet, start, beside);
                }
                None => return copies,
            }
        }
        copies.too_many = walk.has_more();
        copies
    }

    /// How many packets of a packet's number are looked at.
    fn most_copies(&self, frame: &HeardFrame<'_>) -> usize {
        match frame.met.since.oldest {
            Some(_) => self.tap.heard.count(),
            None => MOST_TRIED,
        }
    }

    /// The frame that a packet caused.
    fn caused(
        &self,
        frame: &HeardFrame<'_>,
        own: Option<&HeardPacket>,
        is_new: bool,
        sent: Stretch,
    ) -> CauseSearch {
        let mut search = CauseSearch {
            caused: Caused::None,
            others: 0,
            too_many: false,
        };
        let relays = &self.tap.relays;
        let mut walk = relays.walk(&frame.packet);
        for _ in 0..MOST_TRIED {
            let Some(relay) = relays.step(&mut walk) else {
                return search;
            };
            if !is_sent_then(relay, sent) {
                continue;
            }
            if let Some(own) = own
                && is_made_from(&self.tap.claims, own, relay)
            {
                search.caused = Caused::Frame(relay.record);
                return search;
            }
            let may_be_by_copy = is_new && search.takes_copies();
            let by_copy = may_be_by_copy && self.is_of_copy(frame, own, relay);
            search = search.with(relay.record, by_copy);
        }
        search.too_many = search.too_many || walk.has_more();
        search
    }

    /// Whether a frame was made from a copy of a packet.
    fn is_of_copy(
        &self,
        frame: &HeardFrame<'_>,
        own: Option<&HeardPacket>,
        relay: &NearRelay,
    ) -> bool {
        let Some(own) = own else {
            return false;
        };
        let (claims, heard) = (&self.tap.claims, &self.tap.heard);
        let mut walk = heard.walk(&frame.packet);
        for _ in 0..self.most_copies(frame) {
            let Some(packet) = heard.step(&mut walk) else {
                return false;
            };
            if own.is_copy(claims, packet.octets.as_slice())
                && is_made_from(claims, packet, relay)
            {
                return true;
            }
        }
        false
    }
}

impl Copies {
    /// Adds another packet of the same source and number.
    fn with(
        self,
        claims: &Claims,
        own: &HeardPacket,
        packet: &HeardPacket,
        start: u64,
        beside: Stretch,
    ) -> Copies {
        let mut copies = self;
        if packet.lies_in(beside.from, beside.to) {
            copies.until = copies.until.max(packet.last_sending());
            copies.repeated = copies.repeated || packet.is_repeated();
            let is_copy = own.is_copy(claims, packet.octets.as_slice());
            if !(is_copy && 2 <= packet.hops.left()) {
                copies.other = copies.other.or(Some(packet.number));
            }
        }
        let before = beside.from.saturating_sub(1);
        copies.is_new = copies.is_new && !packet.lies_in(start, before);
        copies
    }
}

impl CauseSearch {
    /// Whether it may be by a copy that the next frame was caused.
    fn takes_copies(self) -> bool {
        self.others < MOST_OTHERS && !matches!(self.caused, Caused::ByCopy(_))
    }

    /// Adds the frame of a record that the packet itself didn't cause.
    fn with(self, record: u64, by_copy: bool) -> CauseSearch {
        let caused = match self.caused {
            Caused::None | Caused::Other(_) if by_copy => Caused::ByCopy(record),
            Caused::None => Caused::Other(record),
            other => other,
        };
        let others = self.others.saturating_add(usize::from(!by_copy));
        CauseSearch {
            caused,
            others,
            too_many: MOST_OTHERS < others && !matches!(caused, Caused::ByCopy(_)),
        }
    }
}

/// Whether a frame was sent in this time, or may have been before its link sent it again.
fn is_sent_then(relay: &NearRelay, sent: Stretch) -> bool {
    let later = if relay.retried { RETRY_TIME } else { 0 };
    sent.from <= relay.stamp && relay.stamp <= sent.to.saturating_add(later)
}

/// When the frames were sent that a packet may have caused: it was sent first at one stamp, and the
/// last of its copies at the other.
fn sent_then(claims: &Claims, first: u64, last: u64) -> Stretch {
    Stretch {
        from: first.saturating_sub(slack(claims).saturating_mul(2)),
        to: last.saturating_add(span(claims)),
    }
}

/// Whether a packet was forwarded.
fn relay_seen(caused: Caused) -> RelaySeen {
    match caused {
        Caused::Frame(_) | Caused::ByCopy(_) => RelaySeen::Forwarded,
        Caused::Other(_) => RelaySeen::OtherForwarded,
        Caused::None => RelaySeen::NotSeen,
    }
}
