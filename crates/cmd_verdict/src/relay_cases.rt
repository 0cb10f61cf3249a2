//! The verdicts on a forwarded packet by what it was made from.

use crate::case::{Case, Needs, is_fail};
use crate::text::Text;
use cap_tap::{FoundOrigin, Nearest, UnreadIn};
use its_duties::{AreaForwarding, Claims, Duty, PacketOrigin, Verdict, judge_in_time};
use its_linkframe::FrameView;

/// The verdict on what a forwarded packet with this number was made from.
pub(crate) fn faithful_case(
    claims: &Claims,
    frame: &FrameView<'_>,
    number: u16,
    found: &FoundOrigin,
    verdict: Verdict,
) -> Case {
    if matches!(verdict, Verdict::Pass) {
        return Case::of(Duty::Faithful, verdict, Text::OfRecord(found.cause));
    }
    let is_claimed = claims.received && claims.unbuffered && found.search.late;
    let is_doubt = is_claimed && !is_fail(&verdict);
    let text = doubt_of(found, is_doubt).unwrap_or(nearest_text(frame, number, found.nearest));
    let case = Case::of(Duty::Faithful, verdict, text);
    if is_claimed || !found.search.late || found.too_many {
        return case;
    }
    if stays_unread(found.unread) {
        return case;
    }
    case.needing(Needs {
        profile: found.unread.is_some(),
        unbuffered: !claims.unbuffered,
        received: !claims.received,
        ..Needs::default()
    })
}

/// Why it isn't known what a forwarded packet was made from, though all is claimed that a fail needs.
fn doubt_of(found: &FoundOrigin, is_doubt: bool) -> Option<Text> {
    if !is_doubt {
        return None;
    }
    match found.unread {
        Some(unread) => Some(Text::NotRead(unread.first)),
        None => found.too_many.then_some(Text::TooMany),
    }
}

/// How a forwarded packet with this number differs from the nearest one that was heard.
fn nearest_text(frame: &FrameView<'_>, number: u16, nearest: Nearest) -> Text {
    match nearest {
        Nearest::OtherHops(record, left, max) => {
            Text::WrongHops(frame.packet.left(), left, max, record)
        }
        Nearest::Changed(record, octet) => Text::Changed(octet, record),
        Nearest::None => Text::NeverReceived(frame.packet.vector().address(), number),
    }
}

/// Whether something stays unread though the station processes only frames of the profile.
fn stays_unread(unread: Option<UnreadIn>) -> bool {
    match unread {
        Some(unread) => unread.despite_profile,
        None => false,
    }
}

/// The verdict on the time of a forwarded packet.
pub(crate) fn in_time_case(claims: &Claims, found: &FoundOrigin) -> Case {
    let verdict = judge_in_time(claims, found.search);
    let text = match found.search.origin {
        PacketOrigin::InTime(since) => Text::After(since, found.cause),
        PacketOrigin::Late(since) => Text::Late(since, found.cause),
        PacketOrigin::NotHeard => Text::NotHeard,
    };
    let case = Case::of(Duty::InTime, verdict, text);
    let is_late = matches!(found.search.origin, PacketOrigin::Late(_));
    if !is_late || !found.search.sure {
        return case;
    }
    late_case(claims, found, case)
}

/// The verdict on a late packet: with what it needs, or what isn't read.
fn late_case(claims: &Claims, found: &FoundOrigin, case: Case) -> Case {
    let is_simple = claims.area == AreaForwarding::Simple;
    let is_claimed = claims.received && claims.unbuffered && is_simple;
    let doubt = match found.near_unread {
        Some(unread) => Some(Text::NotRead(unread.first)),
        None => found.near_too_many.then_some(Text::TooMany),
    };
    if let Some(text) = doubt
        && is_claimed
    {
        return Case { text, ..case };
    }
    if stays_unread(found.near_unread) || found.near_too_many {
        return case;
    }
    case.needing(Needs {
        area: !is_simple,
        profile: found.near_unread.is_some(),
        unbuffered: !claims.unbuffered,
        received: !claims.received,
        ..Needs::default()
    })
}
