//! What the station has to forward: a packet for an area that it accepted, if another hop is left
//! (EN 302 636-4-1, 10.3.11.3).

ghost use Rattle.std.specs.Prelude.{◌≡◌, ℕ, List, IsTrue, Some};
ghost use Rattle.its_headers.specs.Fields.{kind_of_body, area_in};
ghost use Rattle.its_linkframe.specs.Frames.{transmission_of};
ghost use Rattle.its_duties.specs.Seen.{Seen, AreRead};
ghost use Rattle.its_duties.specs.Verdicts.{is_fail};
ghost use Rattle.its_duties.specs.Duties.{IsModelled, NoScenario};
ghost use Rattle.its_duties.specs.Owed.{IsFound, is_forwarded, is_other_forwarded, is_broadcast};
ghost use Rattle.its_duties.specs.Owed.{is_inside, unless, claims_reason, packet_reason};
ghost use Rattle.its_duties.specs.Owed.{capture_reason, reason, owed_by, may_be_owed, owed_in};
ghost use Rattle.its_duties.specs.Owed.{owed_verdict};
ghost use Rattle.its_duties.specs.declared.verdict.Verdict.{Verdict};

use crate::claims::Claims;
use crate::once::has_room;
use crate::places::{AreaPosition, position_in};
use crate::relays::is_simple;
use crate::verdict::{Breach, Doubt, NotOwed, Verdict};
use its_headers::Kind;
use its_linkframe::FrameView;

/// Whether a packet for an area that was heard was forwarded: from the time at which it was heard
/// to the longest wait after its last copy.
#[derive(Clone, Copy, Debug, PartialEq, Eq)]
pub enum RelaySeen {
    /// It was, or a copy that came beside it.
    Forwarded,
    /// Another packet of its source and number was.
    OtherForwarded,
    /// No packet of its source and number was.
    NotSeen,
}

/// What was found of a packet for an area that was heard.
#[derive(Clone, Copy, Debug, PartialEq, Eq)]
pub struct OwedSearch {
    /// Whether it was forwarded.
    pub relay: RelaySeen,
    /// The capture has its link target.
    pub known_target: bool,
    /// It came after the last call before the capture: two slacks after the begin or later.
    pub late: bool,
    /// From a stamp on it is known what was heard of its source: the station knew no other station
    /// when the capture began, or the source wasn't heard for as long as a source counts.
    pub known_from: bool,
    /// From this stamp on no packet of its number was heard before it.
    pub new: bool,
    /// Each other record of its number up to the longest wait after it is a copy with another hop.
    pub copies: bool,
    /// At most so many sources were heard from a source's life before it to the longest wait after
    /// it.
    pub sources: u32,
    /// The capture has each frame that it may have caused.
    pub goes_on: bool,
    /// Each record is read that may be a packet of its number or that the station may have sent.
    pub all_read: bool,
}

/// Returns the verdict on whether a packet for an area that was heard was forwarded: the station
/// forwards what it accepts with another hop left, but for a geoanycast inside of its area
/// (10.3.11.3, 10.3.12.3). `None` if it need not be forwarded: it has no area, its number was heard
/// before, it has its last hop, or it is a geoanycast and the station is inside.
///
/// - `fail_is_proof`: if it is a fail, no scenario explains a capture in which this was found of
///   the packet, if the claims are those of a station of the model.
pub fn judge_forward(claims: &Claims, frame: &FrameView<'_>, search: OwedSearch) -> Option<Verdict>
    ensures verdict { result ≡ owed_verdict claims.now search (transmission_of frame.now) }
    ensures fail_is_proof { (tap : List Seen) (i : ℕ) (r : Seen) (n : ℕ) (v : Verdict)
        → AreRead tap → IsModelled claims.now
        → IsFound claims.now tap i r (transmission_of frame.now) n search → result ≡ Some v
        → IsTrue (is_fail v) → NoScenario claims.now tap }
{
    relay_owed_of(claims, frame, search)
}

/// The verdict on a packet by what was found.
fn relay_owed_of(claims: &Claims, frame: &FrameView<'_>, search: OwedSearch) -> Option<Verdict>
    ensures { result ≡ owed_verdict claims.now search (transmission_of frame.now) }
{
    let area = frame.packet.area()?;
    let left = frame.packet.hops().left();
    let broadcast = is_broadcast(frame.packet.kind());
    owed_in(claims, search, left, broadcast, position_in(claims, &area))
}

/// The verdict by where the station is.
fn owed_in(
    claims: &Claims,
    search: OwedSearch,
    hops: u8,
    broadcast: bool,
    position: AreaPosition,
) -> Option<Verdict>
    ensures { result ≡ owed_in claims.now search hops broadcast position }
{
    if is_forwarded(search.relay) {
        return Some(Verdict::Pass);
    }
    if may_be_owed(search, hops, broadcast, position) {
        return Some(owed_by(reason(claims, search, is_inside(position))));
    }
    None
}

/// Whether a packet may be owed: its number is new, another hop is left, and it is no geoanycast
/// that has come inside.
fn may_be_owed(search: OwedSearch, hops: u8, broadcast: bool, position: AreaPosition) -> bool
    ensures { result ≡ may_be_owed search hops broadcast position }
{
    search.new && 2 <= hops && (broadcast || !is_inside(position))
}

/// The verdict by the first reason for which it isn't owed.
fn owed_by(reason: Option<NotOwed>) -> Verdict
    ensures { result ≡ owed_by reason }
{
    match reason {
        Some(why) => Verdict::Inconclusive(Doubt::NotOwed(why)),
        None => Verdict::Fail(Breach::NotForwarded),
    }
}

/// The first reason for which a packet isn't owed for sure.
fn reason(claims: &Claims, search: OwedSearch, inside: bool) -> Option<NotOwed>
    ensures { result ≡ reason claims.now search inside }
{
    if let Some(why) = claims_reason(claims) {
        return Some(why);
    }
    if let Some(why) = packet_reason(claims, search) {
        return Some(why);
    }
    capture_reason(search, inside)
}

/// The first claim that is missing.
fn claims_reason(claims: &Claims) -> Option<NotOwed>
    ensures { result ≡ claims_reason claims.now }
{
    if !claims.sent {
        return Some(NotOwed::Sent);
    }
    if !claims.received {
        return Some(NotOwed::Received);
    }
    if !claims.delivered {
        return Some(NotOwed::Delivered);
    }
    if !claims.unlimited {
        return Some(NotOwed::Limited);
    }
    if !claims.unbuffered {
        return Some(NotOwed::Buffered);
    }
    unless(is_simple(claims.area), NotOwed::OtherForwarding)
}

/// The first reason by what was found of the packet.
fn packet_reason(claims: &Claims, search: OwedSearch) -> Option<NotOwed>
    ensures { result ≡ packet_reason claims.now search }
{
    if !search.known_target {
        return Some(NotOwed::NoLinkTarget);
    }
    if !(search.late && search.known_from) {
        return Some(NotOwed::KnownBefore);
    }
    if !search.copies {
        return Some(NotOwed::OtherPacket);
    }
    if !has_room(claims.capacity, search.sources) {
        return Some(NotOwed::TableFull);
    }
    unless(claims.steady, NotOwed::Restarted)
}

/// The first reason by where the station is and by what the capture has.
fn capture_reason(search: OwedSearch, inside: bool) -> Option<NotOwed>
    ensures { result ≡ capture_reason search inside }
{
    if !inside {
        return Some(NotOwed::PlaceUnsure);
    }
    if !search.goes_on {
        return Some(NotOwed::CaptureEnds);
    }
    if !search.all_read {
        return Some(NotOwed::NotRead);
    }
    unless(!is_other_forwarded(search.relay), NotOwed::OtherPacket)
}

/// No reason if it holds.
fn unless(holds: bool, why: NotOwed) -> Option<NotOwed>
    ensures { result ≡ unless holds why }
{
    if holds { None } else { Some(why) }
}

/// Whether the packet was forwarded.
fn is_forwarded(relay: RelaySeen) -> bool
    ensures { result ≡ is_forwarded relay }
{
    match relay {
        RelaySeen::Forwarded => true,
        RelaySeen::OtherForwarded | RelaySeen::NotSeen => false,
    }
}

/// Whether another packet of its number was forwarded.
fn is_other_forwarded(relay: RelaySeen) -> bool
    ensures { result ≡ is_other_forwarded relay }
{
    match relay {
        RelaySeen::OtherForwarded => true,
        RelaySeen::Forwarded | RelaySeen::NotSeen => false,
    }
}

/// Whether the packet is a geobroadcast.
fn is_broadcast(kind: Kind) -> bool
    ensures { result ≡ is_broadcast kind }
{
    match kind {
        Kind::Gbc => true,
        Kind::Beacon | Kind::Shb | Kind::Gac => false,
    }
}

/// Whether the station is inside of the area for sure.
fn is_inside(position: AreaPosition) -> bool
    ensures { result ≡ is_inside position }
{
    match position {
        AreaPosition::Inside => true,
        AreaPosition::Outside | AreaPosition::Unsure => false,
    }
}
