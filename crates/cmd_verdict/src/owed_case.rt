//! The verdict on whether a packet that was heard was forwarded.

use crate::case::{Case, Needs, is_fail};
use crate::text::Text;
use cap_tap::{
    CaptureTimes, Caused, FoundOwed, HeardFrame, LARGEST_TABLE, PacketId, Tap, UnreadIn, Waiting,
};
use its_duties::{
    AreaForwarding, Claims, Doubt, Duty, NotOwed, OwedSearch, Verdict, judge_forward,
};
use its_linkframe::FrameView;

/// The verdict on a packet for an area that was heard, by what is kept. `None` if it need not be
/// forwarded.
pub(crate) fn owed_case_of(
    tap: &Tap,
    waiting: &Waiting,
    frame: &FrameView<'_>,
    times: CaptureTimes,
) -> Option<Case> {
    let heard = HeardFrame {
        record: &waiting.record,
        packet: PacketId::of(frame)?,
        met: waiting.met.heard?,
    };
    let found = tap.find_owed(times, &heard);
    owed_case(&tap.claims, frame, &found)
}

/// The verdict by what was found.
fn owed_case(claims: &Claims, frame: &FrameView<'_>, found: &FoundOwed) -> Option<Case> {
    let verdict = judge_forward(claims, frame, found.search);
    let duty = Duty::Forward;
    match verdict {
        None => None,
        Some(Verdict::Pass) => Some(Case::of(duty, Verdict::Pass, forwarded_text(found.caused))),
        Some(Verdict::Fail(breach)) => {
            let text = Text::NotForwarded(claims.within);
            Some(Case::of(duty, Verdict::Fail(breach), text))
        }
        Some(Verdict::Inconclusive(doubt)) => {
            let verdict = Verdict::Inconclusive(doubt);
            let case = Case::of(duty, verdict, doubt_text(doubt, found));
            Some(case.needing(owed_needs(claims, frame, found)))
        }
    }
}

/// As which frame a packet was forwarded.
fn forwarded_text(caused: Caused) -> Text {
    match caused {
        Caused::ByCopy(record) => Text::ForwardedByCopy(record),
        Caused::Frame(record) | Caused::Other(record) => Text::ForwardedAs(record),
        Caused::None => Text::TooMany,
    }
}

/// Why a packet isn't owed for sure.
fn doubt_text(doubt: Doubt, found: &FoundOwed) -> Text {
    let Doubt::NotOwed(why) = doubt else {
        return Text::TooMany;
    };
    match (why, found.caused) {
        (NotOwed::NotRead, _) => match found.gaps.unread.or(found.gaps.sent_unread) {
            Some(unread) => Text::NotOwed(why, unread.first),
            None => Text::TooMany,
        },
        (NotOwed::OtherPacket, Caused::Other(record)) => {
            Text::NotOwed(why, found.other.unwrap_or(record))
        }
        _ => Text::NotOwed(why, found.other.unwrap_or(0)),
    }
}

/// The claims with which a packet would be owed.
fn owed_needs(claims: &Claims, frame: &FrameView<'_>, found: &FoundOwed) -> Needs {
    let mut all = *claims;
    all.area = AreaForwarding::Simple;
    all.capacity = Some(claims.capacity.unwrap_or(LARGEST_TABLE));
    all.sent = true;
    all.received = true;
    all.delivered = true;
    all.unlimited = true;
    all.unbuffered = true;
    all.steady = true;
    all.fresh = true;
    let helps = is_helped(found.gaps.unread)
        && found.gaps.sent_unread.is_none()
        && !found.gaps.too_many;
    let search = OwedSearch {
        known_from: found.search.known_from || found.is_fresh,
        all_read: helps,
        ..found.search
    };
    let is_owed = match judge_forward(&all, frame, search) {
        Some(verdict) => is_fail(&verdict),
        None => false,
    };
    if !is_owed {
        return Needs::default();
    }
    Needs {
        area: claims.area != AreaForwarding::Simple,
        capacity: claims.capacity.is_none(),
        profile: found.gaps.unread.is_some(),
        steady: !claims.steady,
        fresh: !found.search.known_from,
        unlimited: !claims.unlimited,
        unbuffered: !claims.unbuffered,
        sent: !claims.sent,
        received: !claims.received,
        delivered: !claims.delivered,
        ..Needs::default()
    }
}

/// Whether nothing is unread, at the latest if the station processes only frames of the profile.
fn is_helped(unread: Option<UnreadIn>) -> bool {
    match unread {
        Some(unread) => !unread.despite_profile,
        None => true,
    }
}
