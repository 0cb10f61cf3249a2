//! Where a packet for an area goes, by where its station is: inside of the area a geoanycast goes no
//! further (EN 302 636-4-1, 10.3.12.3), and other packets go to all (Annex D).

ghost use Rattle.std.specs.Prelude.{◌≡◌, ℕ, List, IsTrue, Some};
ghost use Rattle.its_headers.specs.Fields.{kind_of_body, area_in};
ghost use Rattle.its_linkframe.specs.Frames.{transmission_of};
ghost use Rattle.its_duties.specs.Seen.{Seen, AreRead};
ghost use Rattle.its_duties.specs.Verdicts.{is_fail};
ghost use Rattle.its_duties.specs.Duties.{IsOwnRecord, IsRelayRecord, NoScenario};
ghost use Rattle.its_duties.specs.Inside.{unless_late, anycast_area, stops_inside_by};
ghost use Rattle.its_duties.specs.Inside.{stops_inside_verdict, inside_verdict, target_in};
ghost use Rattle.its_duties.specs.Inside.{area_target_verdict, next_hop_verdict};
ghost use Rattle.its_duties.specs.declared.verdict.Verdict.{Verdict};

use crate::claims::Claims;
use crate::places::{AreaPosition, position_in};
use crate::relays::is_simple;
use crate::verdict::{Breach, Doubt, Verdict};
use its_geometry::Area;
use its_gnvalue::Mac;
use its_headers::Kind;
use its_linkframe::FrameView;

/// Returns the verdict on a geoanycast that the station forwarded: inside of its area it goes no
/// further (10.3.12.3). It isn't known if it was forwarded late, as `in_time` says, the verdict of
/// `judge_in_time`. `None` if the packet is no geoanycast.
///
/// - `fail_is_proof`: if it is a fail, no scenario explains a capture with a record of this packet
///   that the station forwarded.
pub fn judge_stops_inside(
    claims: &Claims,
    frame: &FrameView<'_>,
    in_time: Verdict,
) -> Option<Verdict>
    ensures verdict { result
        ≡ stops_inside_verdict claims.now in_time (transmission_of frame.now) }
    ensures fail_is_proof { (tap : List Seen) (j : ℕ) (r : Seen) (v : Verdict) → AreRead tap
        → IsRelayRecord claims.now tap j r (transmission_of frame.now) → result ≡ Some v
        → IsTrue (is_fail v) → NoScenario claims.now tap }
{
    stops_inside_of(claims, frame, in_time)
}

/// The verdict on a geoanycast.
fn stops_inside_of(claims: &Claims, frame: &FrameView<'_>, in_time: Verdict) -> Option<Verdict>
    ensures { result ≡ stops_inside_verdict claims.now in_time (transmission_of frame.now) }
{
    let area = anycast_area(frame)?;
    let verdict = stops_inside_by(position_in(claims, &area));
    Some(unless_late(in_time, verdict))
}

/// The area of a geoanycast.
fn anycast_area(frame: &FrameView<'_>) -> Option<Area>
    ensures { result
        ≡ anycast_area (kind_of_body (transmission_of frame.now).pdu.body)
        (area_in (transmission_of frame.now).pdu.body) }
{
    match frame.packet.kind() {
        Kind::Gac => frame.packet.area(),
        Kind::Beacon | Kind::Shb | Kind::Gbc => None,
    }
}

/// The verdict on a geoanycast by where the station is.
fn stops_inside_by(position: AreaPosition) -> Verdict
    ensures { result ≡ stops_inside_by position }
{
    match position {
        AreaPosition::Inside => Verdict::Fail(Breach::InsideArea),
        AreaPosition::Outside => Verdict::Pass,
        AreaPosition::Unsure => Verdict::Inconclusive(Doubt::PlaceUnsure),
    }
}

/// The verdict, but for a packet that was forwarded late: then it isn't known when the station
/// decided on it.
fn unless_late(in_time: Verdict, verdict: Verdict) -> Verdict
    ensures { result ≡ unless_late in_time verdict }
{
    match in_time {
        Verdict::Fail(_) => Verdict::Inconclusive(Doubt::DecidedLate),
        Verdict::Pass | Verdict::Inconclusive(_) => verdict,
    }
}

/// Returns the verdict on the link target of an own packet for an area: inside of the area it goes
/// to all (Annex D). Outside it isn't judged. `known_target`: the capture has the link target;
/// otherwise it isn't known. `None` if the packet has no area.
///
/// - `fail_is_proof`: if it is a fail, no scenario explains a capture with a record of this packet
///   of the station's own.
pub fn judge_area_target(
    claims: &Claims,
    frame: &FrameView<'_>,
    known_target: bool,
) -> Option<Verdict>
    ensures verdict { result
        ≡ area_target_verdict claims.now known_target (transmission_of frame.now) }
    ensures fail_is_proof { (tap : List Seen) (j : ℕ) (r : Seen) (v : Verdict) → AreRead tap
        → IsOwnRecord claims.now tap j r (transmission_of frame.now)
        → r.known_target ≡ known_target → result ≡ Some v
        → IsTrue (is_fail v) → NoScenario claims.now tap }
{
    area_target_of(claims, frame, known_target)
}

/// The verdict on an own packet.
fn area_target_of(claims: &Claims, frame: &FrameView<'_>, known_target: bool) -> Option<Verdict>
    ensures { result ≡ area_target_verdict claims.now known_target (transmission_of frame.now) }
{
    let area = frame.packet.area()?;
    Some(target_in(claims, known_target, frame.to, &area))
}

/// The verdict on a link target. `known`: the capture has it.
fn target_in(claims: &Claims, known: bool, target: Mac, area: &Area) -> Verdict
    ensures { result ≡ target_in claims.now known target area.now }
{
    if !known {
        return Verdict::Inconclusive(Doubt::NoLinkTarget);
    }
    match position_in(claims, area) {
        AreaPosition::Inside => inside_to(claims, target),
        AreaPosition::Outside => Verdict::Inconclusive(Doubt::OutsideArea),
        AreaPosition::Unsure => Verdict::Inconclusive(Doubt::PlaceUnsure),
    }
}

/// The verdict on a link target inside of the area.
fn inside_to(claims: &Claims, target: Mac) -> Verdict
    ensures { result ≡ inside_verdict claims.now target }
{
    if target == Mac::BROADCAST {
        return Verdict::Pass;
    }
    if is_simple(claims.area) {
        return Verdict::Fail(Breach::InsideTo(target));
    }
    Verdict::Inconclusive(Doubt::InsideToOne)
}

/// Returns the verdict on the link target of a packet for an area that the station forwarded: inside
/// of the area it goes to all (Annex D). Outside it isn't judged. It isn't known if the packet was
/// forwarded late, as `in_time` says, the verdict of `judge_in_time`. `known_target`: the capture
/// has the link target; otherwise it isn't known. `None` if the packet has no area.
///
/// - `fail_is_proof`: if it is a fail, no scenario explains a capture with a record of this packet
///   that the station forwarded.
pub fn judge_next_hop(
    claims: &Claims,
    frame: &FrameView<'_>,
    in_time: Verdict,
    known_target: bool,
) -> Option<Verdict>
    ensures verdict { result
        ≡ next_hop_verdict claims.now in_time known_target (transmission_of frame.now) }
    ensures fail_is_proof { (tap : List Seen) (j : ℕ) (r : Seen) (v : Verdict) → AreRead tap
        → IsRelayRecord claims.now tap j r (transmission_of frame.now)
        → r.known_target ≡ known_target → result ≡ Some v
        → IsTrue (is_fail v) → NoScenario claims.now tap }
{
    next_hop_of(claims, frame, in_time, known_target)
}

/// The verdict on a packet that was forwarded.
fn next_hop_of(
    claims: &Claims,
    frame: &FrameView<'_>,
    in_time: Verdict,
    known_target: bool,
) -> Option<Verdict>
    ensures { result
        ≡ next_hop_verdict claims.now in_time known_target (transmission_of frame.now) }
{
    let area = frame.packet.area()?;
    let verdict = target_in(claims, known_target, frame.to, &area);
    Some(unless_late(in_time, verdict))
}
