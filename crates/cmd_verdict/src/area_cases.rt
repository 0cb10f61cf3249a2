//! Where a packet for an area goes, by where its station is.

use crate::case::{Case, Needs};
use crate::text::Text;
use its_duties::{
    AreaForwarding, Breach, Claims, Doubt, Duty, RelaySearch, Verdict, judge_area_target,
    judge_in_time, judge_next_hop, judge_stops_inside,
};
use its_gnvalue::Mac;
use its_linkframe::FrameView;

/// The verdict on a geoanycast that was forwarded. `None` for a packet of another kind.
pub(crate) fn stops_inside_case(
    claims: &Claims,
    frame: &FrameView<'_>,
    search: RelaySearch,
) -> Option<Case> {
    let duty = Duty::StopsInside;
    match judge_stops_inside(claims, frame, judge_in_time(claims, search)) {
        None => None,
        Some(Verdict::Pass) => Some(Case::of(duty, Verdict::Pass, Text::OutsideItsArea)),
        Some(Verdict::Fail(_)) => {
            let verdict = Verdict::Fail(Breach::InsideArea);
            Some(Case::of(duty, verdict, Text::AnycastInside))
        }
        Some(Verdict::Inconclusive(doubt)) => Some(doubt_case(duty, doubt)),
    }
}

/// A verdict that isn't known, as a case.
fn doubt_case(duty: Duty, doubt: Doubt) -> Case {
    Case::of(duty, Verdict::Inconclusive(doubt), place_doubt(doubt))
}

/// The verdict on to whom a packet was forwarded. `None` if the packet has no area.
pub(crate) fn next_hop_case(
    claims: &Claims,
    frame: &FrameView<'_>,
    search: RelaySearch,
    known_target: bool,
) -> Option<Case> {
    let simple = next_hop_of(&simple_claims(claims), frame, search, known_target);
    let needs = needs_area(simple);
    let verdict = next_hop_of(claims, frame, search, known_target);
    target_case(Duty::NextHop, verdict, needs, frame.to)
}

/// The same verdict, by these claims.
fn next_hop_of(
    claims: &Claims,
    frame: &FrameView<'_>,
    search: RelaySearch,
    known_target: bool,
) -> Option<Verdict> {
    judge_next_hop(claims, frame, judge_in_time(claims, search), known_target)
}

/// The verdict on to whom an own packet went. `None` if the packet has no area.
pub(crate) fn area_target_case(
    claims: &Claims,
    frame: &FrameView<'_>,
    known_target: bool,
) -> Option<Case> {
    let simple = judge_area_target(&simple_claims(claims), frame, known_target);
    let needs = needs_area(simple);
    let verdict = judge_area_target(claims, frame, known_target);
    target_case(Duty::AreaTarget, verdict, needs, frame.to)
}

/// The same claims of a station that forwards to all inside of an area.
fn simple_claims(claims: &Claims) -> Claims {
    let mut simple = *claims;
    simple.area = AreaForwarding::Simple;
    simple
}

/// What an inconclusive verdict needs, by the one of a station that forwards to all inside of an area.
fn needs_area(simple: Option<Verdict>) -> Needs {
    Needs {
        area: matches!(simple, Some(Verdict::Pass | Verdict::Fail(_))),
        ..Needs::default()
    }
}

/// A verdict on a link target as a case, with what it needs if it is inconclusive.
fn target_case(duty: Duty, verdict: Option<Verdict>, needs: Needs, target: Mac) -> Option<Case> {
    match verdict {
        None => None,
        Some(Verdict::Pass) => Some(Case::of(duty, Verdict::Pass, Text::InsideToAll)),
        Some(Verdict::Fail(_)) => {
            let verdict = Verdict::Fail(Breach::InsideTo(target));
            Some(Case::of(duty, verdict, Text::InsideTo(target)))
        }
        Some(Verdict::Inconclusive(Doubt::InsideToOne)) => {
            let verdict = Verdict::Inconclusive(Doubt::InsideToOne);
            Some(Case::of(duty, verdict, Text::InsideTo(target)).needing(needs))
        }
        Some(Verdict::Inconclusive(doubt)) => Some(doubt_case(duty, doubt).needing(needs)),
    }
}

/// Why a verdict by the station's place isn't known.
fn place_doubt(doubt: Doubt) -> Text {
    match doubt {
        Doubt::DecidedLate => Text::DecidedLate,
        Doubt::NoLinkTarget => Text::NoLinkTarget,
        Doubt::OutsideArea => Text::OutsideArea,
        _ => Text::PlaceUnsure,
    }
}
