//! The verdicts on a packet that the station forwarded.

use crate::area_cases::{next_hop_case, stops_inside_case};
use crate::case::{Case, is_fail};
use crate::frame_cases::kind_case;
use crate::once_case::once_case;
use crate::relay_cases::{faithful_case, in_time_case};
use cap_tap::{ForwardedPacket, FoundOrigin, Relay, SeenRecord, Tap};
use its_duties::judge_faithful;
use its_linkframe::FrameView;
use std::alloc::AllocError;

/// The verdicts on a forwarded packet, in the order of the duties. The capture begins at this stamp.
pub(crate) fn forwarded_cases(
    tap: &Tap,
    record: &SeenRecord,
    frame: &FrameView<'_>,
    begin: u64,
) -> Result<[Option<Case>; 6], AllocError> {
    let kind = Some(kind_case(frame));
    let Some(packet) = ForwardedPacket::of(record, frame) else {
        return Ok([None, kind, None, None, None, None]);
    };
    let again = tap.find_earlier(begin, &packet)?;
    let once = Some(once_case(&tap.claims, packet.packet, &again));
    let relay = Relay {
        stamp: record.stamp,
        retried: record.is_retry(),
        frame: &*frame,
    };
    let found = tap.find_origin(begin, &relay);
    let verdict = judge_faithful(&tap.claims, found.search);
    let number = packet.packet.sequence;
    let faithful = Some(faithful_case(&tap.claims, frame, number, &found, verdict));
    if is_fail(&verdict) {
        return Ok([faithful, kind, once, None, None, None]);
    }
    let [in_time, inside, next] = decided_cases(tap, record, frame, &found);
    Ok([faithful, kind, once, in_time, inside, next])
}

/// The verdicts on when a packet was forwarded, and on what the station decided then.
fn decided_cases(
    tap: &Tap,
    record: &SeenRecord,
    frame: &FrameView<'_>,
    found: &FoundOrigin,
) -> [Option<Case>; 3] {
    let claims = &tap.claims;
    [
        Some(in_time_case(claims, found)),
        stops_inside_case(claims, frame, found.search),
        next_hop_case(claims, frame, found.search, record.known_target),
    ]
}
