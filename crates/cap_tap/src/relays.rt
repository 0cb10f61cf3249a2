//! What a forwarded packet was made from.

use crate::heard::{HeardPacket, HeardPackets};
use crate::heard_numbers::PacketId;
use crate::repeats::RETRY_TIME;
use crate::unread::{UnreadIn, UnreadRecords};
use its_duties::{Claims, PacketOrigin, RelaySearch, longest, slack, wait};
use its_linkframe::FrameView;

/// A packet that the station forwarded.
#[derive(Clone, Copy)]
pub struct Relay<'a> {
    /// When it was sent, in nanoseconds.
    pub stamp: u64,
    /// Its first sending isn't in the capture.
    pub retried: bool,
    /// Its frame.
    pub frame: &'a FrameView<'a>,
}

/// The heard packet that is nearest to a forwarded one, of which no heard one is a copy with one hop
/// more.
#[derive(Clone, Copy)]
pub enum Nearest {
    /// No heard packet has its source and its number.
    None,
    /// The packet of this record, but with so many hops left, of so many.
    OtherHops(u64, u8, u8),
    /// The packet of this record has the same source and number, and another octet at this place.
    Changed(u64, usize),
}

/// What was found of a forwarded packet.
#[derive(Clone, Copy)]
pub struct FoundOrigin {
    /// What it is judged by.
    pub search: RelaySearch,
    /// The last record that it may be made from.
    pub cause: u64,
    /// The heard packet that is nearest to it.
    pub nearest: Nearest,
    /// What is unread where it was looked for.
    pub unread: Option<UnreadIn>,
    /// What is unread where it may have been received in time.
    pub near_unread: Option<UnreadIn>,
    /// Packets had to give way that were heard in that time.
    pub too_many: bool,
    /// Packets had to give way that may have been received in time.
    pub near_too_many: bool,
}

/// The stretch of time in which a packet is looked for, and the two ends of what is in time.
#[derive(Clone, Copy)]
struct Search {
    from: u64,
    near: u64,
    to: u64,
}

impl Search {
    fn of(claims: &Claims, relay: &Relay<'_>) -> Search {
        let doubt = slack(claims).saturating_mul(2);
        let earlier = if relay.retried { RETRY_TIME } else { 0 };
        let near = wait(claims).saturating_add(doubt);
        Search {
            from: relay
                .stamp
                .saturating_sub(longest(claims).saturating_add(earlier)),
            near: relay.stamp.saturating_sub(near),
            to: relay.stamp.saturating_add(doubt),
        }
    }
}

/// The last packets that a forwarded one may be made from.
#[derive(Clone, Copy)]
struct Sources {
    /// The last that may have caused it in time: its record, and when it was sent.
    in_time: Option<(u64, u64)>,
    /// The last of all.
    last: Option<(u64, u64)>,
    nearest: Nearest,
}

impl Sources {
    /// Those among the heard packets.
    fn of(claims: &Claims, heard: &HeardPackets, relay: &Relay<'_>, search: Search) -> Sources {
        let mut sources = Sources {
            in_time: None,
            last: None,
            nearest: Nearest::None,
        };
        let Some(id) = PacketId::of(relay.frame) else {
            return sources;
        };
        let mut walk = heard.walk(&id);
        for _ in 0..heard.count() {
            match heard.step(&mut walk) {
                Some(packet) => sources = sources.with(claims, packet, relay, search),
                None => return sources,
            }
        }
        sources
    }

    /// Adds a later packet of the same source and number.
    fn with(
        self,
        claims: &Claims,
        packet: &HeardPacket,
        relay: &Relay<'_>,
        search: Search,
    ) -> Sources {
        let octets = relay.frame.packet.octets();
        let lies_in = packet.lies_in(search.from, search.to);
        if !packet.is_copy(claims, octets) {
            let is_copy = matches!(self.nearest, Nearest::OtherHops(..));
            if !lies_in || is_copy {
                return self;
            }
            return Sources {
                nearest: Nearest::Changed(packet.number, packet.first_change(octets)),
                ..self
            };
        }
        let left = relay.frame.packet.left();
        if packet.hops.left().checked_sub(1) != Some(left) {
            if !lies_in {
                return self;
            }
            let (left, max) = (packet.hops.left(), packet.hops.max());
            return Sources {
                nearest: Nearest::OtherHops(packet.number, left, max),
                ..self
            };
        }
        self.with_source(packet, search, lies_in)
    }

    /// Adds a later packet that it may be made from.
    fn with_source(self, packet: &HeardPacket, search: Search, lies_in: bool) -> Sources {
        let Some(sent) = packet.last_until(search.to) else {
            return self;
        };
        let found = Some((packet.number, sent));
        let in_time = search.near <= packet.last_sending();
        Sources {
            in_time: if in_time { found } else { self.in_time },
            last: if lies_in { found } else { self.last },
            ..self
        }
    }

    /// How a packet with this stamp was made from these, and the record that it was made from.
    fn origin(self, stamp: u64) -> (PacketOrigin, u64) {
        match (self.in_time, self.last) {
            (Some((number, sent)), _) => {
                (PacketOrigin::InTime(stamp.saturating_sub(sent)), number)
            }
            (None, Some((number, sent))) => {
                (PacketOrigin::Late(stamp.saturating_sub(sent)), number)
            }
            (None, None) => (PacketOrigin::NotHeard, 0),
        }
    }
}

/// Finds what a forwarded packet was made from. The capture begins at this stamp.
pub(crate) fn find_origin(
    claims: &Claims,
    heard: &HeardPackets,
    unread: &UnreadRecords,
    begin: u64,
    relay: &Relay<'_>,
) -> FoundOrigin {
    let search = Search::of(claims, relay);
    let sources = Sources::of(claims, heard, relay, search);
    let (origin, cause) = sources.origin(relay.stamp);
    let found = unread.within(search.from, search.to);
    let near_found = unread.within(search.near, search.to);
    let too_many = heard.may_lack(search.from);
    let near_too_many = heard.may_lack(search.near);
    FoundOrigin {
        search: RelaySearch {
            origin,
            late: is_late(claims, begin, relay),
            all_read: found.is_none() && !too_many,
            near_read: near_found.is_none() && !near_too_many,
            sure: !relay.retried,
        },
        cause,
        nearest: sources.nearest,
        unread: found,
        near_unread: near_found,
        too_many,
        near_too_many,
    }
}

/// Whether a packet was forwarded so long after the begin of the capture that this has what it was
/// made from.
fn is_late(claims: &Claims, begin: u64, relay: &Relay<'_>) -> bool {
    let earlier = if relay.retried { RETRY_TIME } else { 0 };
    let first = begin
        .saturating_add(wait(claims))
        .saturating_add(slack(claims).saturating_mul(2))
        .saturating_add(earlier);
    first <= relay.stamp
}
