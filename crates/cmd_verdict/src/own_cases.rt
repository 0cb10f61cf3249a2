//! The verdicts on an own packet of the station.

use crate::area_cases::area_target_case;
use crate::case::{Case, Needs, is_fail};
use crate::frame_cases::{form_case, hops_case, lifetime_case, link_target_case, mobile_case};
use crate::text::Text;
use cap_tap::{OwnPackets, StepFrom, Tap, Waiting};
use its_duties::{
    BeaconGap, Claims, Doubt, Duty, NumberStep, Verdict, doubt_between, judge_beacon, judge_numbers,
};
use its_headers::Kind;
use its_linkframe::FrameView;

/// The verdicts on an own packet, in the order of the duties.
pub(crate) fn own_cases(tap: &Tap, waiting: &Waiting, frame: &FrameView<'_>) -> [Option<Case>; 8] {
    let (claims, record) = (&tap.claims, &waiting.record);
    [
        Some(form_case(claims, record)),
        Some(link_target_case(frame, record.known_target)),
        Some(mobile_case(claims, frame)),
        Some(hops_case(frame)),
        Some(lifetime_case(claims, frame)),
        numbers_case(claims, &tap.own, waiting),
        beacon_case(claims, &tap.own, waiting, frame),
        area_target_case(claims, frame, record.known_target),
    ]
}

/// Returns the verdict on the sequence number of an own packet, if an earlier own packet has one.
fn numbers_case(claims: &Claims, own: &OwnPackets, waiting: &Waiting) -> Option<Case> {
    let StepFrom { step, record } = waiting.met.step?;
    let stamp = waiting.record.stamp;
    if own.hidden_in(stamp, stamp).is_some() {
        return None;
    }
    let lacks = own.may_lack(stamp.saturating_sub(step.since));
    let step = NumberStep {
        sure: step.sure && !lacks,
        ..step
    };
    let verdict = judge_numbers(claims, step);
    let text = match verdict {
        Verdict::Pass => Text::Number(step.second),
        Verdict::Fail(_) => Text::NumberAfter(step.second, step.first, record),
        Verdict::Inconclusive(doubt) => not_seen(doubt),
    };
    Some(Case::of(Duty::Numbers, verdict, text).needing(numbers_needs(claims, step)))
}

/// Returns the claims that would decide a verdict on a sequence number.
fn numbers_needs(claims: &Claims, step: NumberStep) -> Needs {
    let mut steady = *claims;
    steady.steady = true;
    let mut needs = Needs::default();
    needs.steady = is_fail(&judge_numbers(&steady, step));
    needs
}

/// Returns the text that says how many sequence numbers were not seen.
fn not_seen(doubt: Doubt) -> Text {
    match doubt {
        Doubt::NumbersNotSeen(count) => Text::NumbersNotSeen(count),
        _ => Text::NumbersNotSeen(0),
    }
}

/// What was found in the capture before a beacon.
#[derive(Clone, Copy)]
struct FoundGap {
    gap: BeaconGap,
    /// The record of the own packet that restarted the beacon interval.
    record: u64,
    /// A record that may be an own packet and isn't read.
    hidden: Option<u64>,
    /// Own packets may be missing.
    lacks: bool,
}

/// Returns the verdict on the time of a beacon, if an own packet before it restarted the interval.
fn beacon_case(
    claims: &Claims,
    own: &OwnPackets,
    waiting: &Waiting,
    frame: &FrameView<'_>,
) -> Option<Case> {
    if frame.packet.kind() != Kind::Beacon {
        return None;
    }
    let found = gap_before(claims, own, waiting)?;
    let verdict = judge_beacon(claims, found.gap);
    let text = beacon_text(claims, &verdict, &found);
    let needs = beacon_needs(claims, found.gap);
    Some(Case::of(Duty::BeaconNotEarly, verdict, text).needing(needs))
}

/// Returns what was found before a beacon, if an own packet restarted the interval.
fn gap_before(claims: &Claims, own: &OwnPackets, waiting: &Waiting) -> Option<FoundGap> {
    let (stamp, number) = (waiting.record.stamp, waiting.record.number);
    let doubt = doubt_between(claims);
    let (from, to) = (stamp.saturating_sub(doubt), stamp.saturating_add(doubt));
    let reset = own.last_reset(from)?;
    let interval = u64::from(claims.interval).saturating_mul(1_000_000);
    let first = from.saturating_sub(interval);
    let (hidden, lacks) = (own.hidden_in(first, to), own.may_lack(first));
    Some(FoundGap {
        gap: BeaconGap {
            since: stamp.saturating_sub(reset.stamp),
            sure: !reset.retried && !waiting.record.is_retry(),
            alone: hidden.is_none() && !lacks && !own.has_other_reset(number, from, to),
        },
        record: reset.number,
        hidden,
        lacks,
    })
}

/// Returns the text of a verdict on a beacon.
fn beacon_text(claims: &Claims, verdict: &Verdict, found: &FoundGap) -> Text {
    let since = found.gap.since;
    let after = Text::After(since, found.record);
    match verdict {
        Verdict::Fail(_) => Text::BeaconEarly(since, found.record, claims.interval),
        Verdict::Inconclusive(_) if passes_but_for(claims, found.gap) => {
            gap_doubt(found).unwrap_or(after)
        }
        _ => after,
    }
}

/// Returns why it isn't known whether other own packets are in the interval before a beacon.
fn gap_doubt(found: &FoundGap) -> Option<Text> {
    match found.hidden {
        Some(hidden) => Some(Text::NotRead(hidden)),
        None => found.lacks.then_some(Text::TooMany),
    }
}

/// Whether a beacon would pass if no other own packets were in the interval.
fn passes_but_for(claims: &Claims, gap: BeaconGap) -> bool {
    judge_beacon(claims, BeaconGap { alone: true, ..gap }) == Verdict::Pass
}

/// Returns the claims that would decide a verdict on a beacon.
fn beacon_needs(claims: &Claims, gap: BeaconGap) -> Needs {
    let mut steady = *claims;
    steady.steady = true;
    let mut sent = *claims;
    sent.sent = true;
    let mut needs = Needs::default();
    needs.steady = is_fail(&judge_beacon(&steady, gap));
    needs.sent = judge_beacon(&sent, gap) == Verdict::Pass;
    needs
}
