//! Own packets that were read: to whom they go, their mobile bit, hops and lifetime (EN 302 636-4-1
//! clauses 9 and 10.3).

ghost use Rattle.std.specs.Prelude.{◌≡◌, ℕ, List, IsTrue};
ghost use Rattle.its_linkframe.specs.Frames.{transmission_of};
ghost use Rattle.its_duties.specs.Seen.{Seen, AreRead};
ghost use Rattle.its_duties.specs.Verdicts.{is_fail, goes_one_hop, link_target_verdict};
ghost use Rattle.its_duties.specs.Verdicts.{mobile_verdict, hops_verdict, is_beacon};
ghost use Rattle.its_duties.specs.Verdicts.{lifetime_verdict, lifetime_verdict_by, kind_verdict};
ghost use Rattle.its_duties.specs.Duties.{IsOwnRecord, IsRelayRecord, IsModelled, NoScenario};
ghost use Rattle.its_duties.specs.declared.claims.Claims.{Claims};

use crate::claims::Claims;
use crate::verdict::{Breach, Doubt, Verdict};
use its_gnvalue::Mac;
use its_headers::Kind;
use its_linkframe::FrameView;

/// Whether packets of the kind go to all neighbours, and no further.
fn goes_one_hop(kind: Kind) -> bool
    ensures { result ≡ goes_one_hop kind }
{
    match kind {
        Kind::Beacon | Kind::Shb => true,
        Kind::Gbc | Kind::Gac => false,
    }
}

/// Returns the verdict on the link target of an own packet. A beacon and a single-hop broadcast go
/// to all (10.3.6.2, 10.3.10.2). `known_target`: the capture has the link target; otherwise it
/// isn't known.
///
/// - `fail_is_proof`: if it is a fail, no scenario explains a capture with a record of this packet
///   of the station's own.
pub fn judge_link_target(frame: &FrameView<'_>, known_target: bool) -> Verdict
    ensures verdict { result ≡ link_target_verdict known_target (transmission_of frame.now) }
    ensures fail_is_proof { (k : Claims) (tap : List Seen) (i : ℕ) (r : Seen) → AreRead tap
        → IsOwnRecord k tap i r (transmission_of frame.now) → r.known_target ≡ known_target
        → IsTrue (is_fail result) → NoScenario k tap }
{
    link_target_of(frame, known_target)
}

/// The verdict on a link target.
fn link_target_of(frame: &FrameView<'_>, known_target: bool) -> Verdict
    ensures { result ≡ link_target_verdict known_target (transmission_of frame.now) }
{
    if !known_target {
        return Verdict::Inconclusive(Doubt::NoLinkTarget);
    }
    if goes_one_hop(frame.packet.kind()) && frame.to != Mac::BROADCAST {
        return Verdict::Fail(Breach::LinkTarget(frame.to));
    }
    Verdict::Pass
}

/// Returns the verdict on the mobile bit of an own packet, which is the claimed one (clause 9).
///
/// - `fail_is_proof`: if it is a fail, no scenario explains a capture with a record of this packet
///   of the station's own.
pub fn judge_mobile(claims: &Claims, frame: &FrameView<'_>) -> Verdict
    ensures verdict { result ≡ mobile_verdict claims.now.mobile (transmission_of frame.now) }
    ensures fail_is_proof { (tap : List Seen) (i : ℕ) (r : Seen) → AreRead tap
        → IsOwnRecord claims.now tap i r (transmission_of frame.now)
        → IsTrue (is_fail result) → NoScenario claims.now tap }
{
    mobile_of(claims.mobile, frame)
}

/// The verdict on a mobile bit.
fn mobile_of(claimed: Option<bool>, frame: &FrameView<'_>) -> Verdict
    ensures { result ≡ mobile_verdict claimed (transmission_of frame.now) }
{
    let Some(claimed) = claimed else {
        return Verdict::Inconclusive(Doubt::NoMobile);
    };
    let mobile = frame.packet.mobile();
    if mobile == claimed {
        return Verdict::Pass;
    }
    Verdict::Fail(Breach::MobileBit(mobile))
}

/// Returns the verdict on the hops of an own packet: all are left, and a beacon and a single-hop
/// broadcast have one (clause 9).
///
/// - `fail_is_proof`: if it is a fail, no scenario explains a capture with a record of this packet
///   of the station's own.
pub fn judge_hops(frame: &FrameView<'_>) -> Verdict
    ensures verdict { result ≡ hops_verdict (transmission_of frame.now) }
    ensures fail_is_proof { (k : Claims) (tap : List Seen) (i : ℕ) (r : Seen) → AreRead tap
        → IsOwnRecord k tap i r (transmission_of frame.now)
        → IsTrue (is_fail result) → NoScenario k tap }
{
    hops_of(frame)
}

/// The verdict on hops.
fn hops_of(frame: &FrameView<'_>) -> Verdict
    ensures { result ≡ hops_verdict (transmission_of frame.now) }
{
    let hops = frame.packet.hops();
    let left = hops.left();
    let max = hops.max();
    if left == max && (!goes_one_hop(frame.packet.kind()) || max == 1) {
        return Verdict::Pass;
    }
    Verdict::Fail(Breach::Hops(left, max))
}

/// Returns the verdict on the lifetime of an own packet. That of a beacon is the claimed one. Of
/// another packet none is a fail, and it isn't known of one under 1 s or over 600 s (clause 9,
/// itsGnMaxPacketLifetime).
///
/// - `fail_is_proof`: if it is a fail, no scenario explains a capture with a record of this packet
///   of the station's own, if the claims are those of a station of the model.
pub fn judge_lifetime(claims: &Claims, frame: &FrameView<'_>) -> Verdict
    ensures verdict { result ≡ lifetime_verdict claims.now (transmission_of frame.now) }
    ensures fail_is_proof { (tap : List Seen) (i : ℕ) (r : Seen) → AreRead tap
        → IsModelled claims.now → IsOwnRecord claims.now tap i r (transmission_of frame.now)
        → IsTrue (is_fail result) → NoScenario claims.now tap }
{
    packet_lifetime(claims, frame)
}

/// The verdict on the lifetime of a packet.
fn packet_lifetime(claims: &Claims, frame: &FrameView<'_>) -> Verdict
    ensures { result ≡ lifetime_verdict claims.now (transmission_of frame.now) }
{
    let beacon = is_beacon(frame.packet.kind());
    lifetime_of(
        beacon,
        claims.lifetime as u64,
        frame.packet.lifetime().millis(),
    )
}

/// Whether packets of the kind are beacons.
fn is_beacon(kind: Kind) -> bool
    ensures { result ≡ is_beacon kind }
{
    match kind {
        Kind::Beacon => true,
        Kind::Shb | Kind::Gbc | Kind::Gac => false,
    }
}

/// The verdict on a lifetime in milliseconds.
fn lifetime_of(beacon: bool, claimed: u64, millis: u64) -> Verdict
    ensures { result ≡ lifetime_verdict_by beacon claimed millis }
{
    if beacon {
        if millis == claimed {
            return Verdict::Pass;
        }
        return Verdict::Fail(Breach::Lifetime(millis));
    }
    if 1000 <= millis && millis <= 600_000 {
        return Verdict::Pass;
    }
    Verdict::Inconclusive(Doubt::LifetimeRange(millis))
}

/// Returns the verdict on the kind of a packet of another source that the station forwarded: only a
/// packet for an area is forwarded (10.3).
///
/// - `fail_is_proof`: if it is a fail, no scenario explains a capture with a record of this packet
///   that the station forwarded.
pub fn judge_kind(frame: &FrameView<'_>) -> Verdict
    ensures verdict { result ≡ kind_verdict (transmission_of frame.now) }
    ensures fail_is_proof { (k : Claims) (tap : List Seen) (i : ℕ) (r : Seen) → AreRead tap
        → IsRelayRecord k tap i r (transmission_of frame.now)
        → IsTrue (is_fail result) → NoScenario k tap }
{
    kind_of(frame)
}

/// The verdict on the kind of a packet.
fn kind_of(frame: &FrameView<'_>) -> Verdict
    ensures { result ≡ kind_verdict (transmission_of frame.now) }
{
    let kind = frame.packet.kind();
    if goes_one_hop(kind) {
        return Verdict::Fail(Breach::Kind(kind));
    }
    Verdict::Pass
}
