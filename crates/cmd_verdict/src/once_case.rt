//! The verdict on whether a packet is forwarded once.

use crate::case::{Case, Needs, is_fail};
use crate::text::Text;
use cap_tap::{FoundAgain, FoundEarlier, FoundNone, LARGEST_TABLE, PacketId};
use its_duties::{AreaForwarding, Claims, Duty, Verdict, judge_once};

/// The verdict on a packet that was forwarded, by what was found of earlier frames of it.
pub(crate) fn once_case(claims: &Claims, packet: PacketId, found: &FoundEarlier) -> Case {
    match found {
        FoundEarlier::None(found) => first_time_case(claims, found),
        FoundEarlier::Again(found) => again_case(claims, packet, found),
    }
}

/// The verdict if no earlier frame was found.
fn first_time_case(claims: &Claims, found: &FoundNone) -> Case {
    let verdict = judge_once(claims, found.earlier(claims));
    let is_claimed = claims.sent && (claims.fresh || found.begins);
    let text = match found.unread {
        Some(unread) if is_claimed => Text::NotRead(unread.first),
        None if is_claimed && found.too_many => Text::TooMany,
        _ => Text::FirstTime,
    };
    let case = Case::of(Duty::Once, verdict, text);
    if found.unread.is_some() || found.too_many {
        return case;
    }
    case.needing(Needs {
        fresh: !(claims.fresh || found.begins),
        sent: !claims.sent,
        ..Needs::default()
    })
}

/// The verdict if an earlier frame was found.
fn again_case(claims: &Claims, packet: PacketId, found: &FoundAgain) -> Case {
    let verdict = judge_once(claims, found.earlier(claims, found.is_read()));
    let text = match verdict {
        Verdict::Fail(_) => {
            let PacketId { source, sequence } = packet;
            Text::ForwardedAgain(source, sequence, found.record, found.others())
        }
        Verdict::Pass | Verdict::Inconclusive(_) => again_doubt(claims, found),
    };
    Case::of(Duty::Once, verdict, text).needing(again_needs(claims, found))
}

/// Why it isn't known whether a packet breaks the rule that was forwarded again.
fn again_doubt(claims: &Claims, found: &FoundAgain) -> Text {
    if !is_fail(&judge_once(claims, found.earlier(claims, true))) {
        return Text::Again(found.record, found.others());
    }
    match found.unread {
        Some(unread) => Text::NotRead(unread.first),
        None => Text::TooMany,
    }
}

/// The claims with which a packet that was forwarded again breaks the rule.
fn again_needs(claims: &Claims, found: &FoundAgain) -> Needs {
    let mut all = *claims;
    all.area = AreaForwarding::Simple;
    all.capacity = Some(claims.capacity.unwrap_or(LARGEST_TABLE));
    all.steady = true;
    all.fresh = true;
    all.unbuffered = true;
    all.received = true;
    let stays_unread = found.unread.is_some_and(|unread| unread.despite_profile);
    let all_read = !stays_unread && !found.too_many;
    if !is_fail(&judge_once(&all, found.earlier(&all, all_read))) {
        return Needs::default();
    }
    Needs {
        area: claims.area != AreaForwarding::Simple,
        capacity: claims.capacity.is_none(),
        profile: found.unread.is_some(),
        steady: !claims.steady,
        fresh: !(claims.fresh || found.sources_begin),
        unbuffered: !claims.unbuffered,
        received: !claims.received,
        ..Needs::default()
    }
}
