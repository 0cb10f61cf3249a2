//! Whether a packet was forwarded before (EN 302 636-4-1, Annex A).

ghost use Rattle.std.specs.Prelude.{◌≡◌, ℕ, List, IsTrue};
ghost use Rattle.its_model.specs.Packet.{Transmission};
ghost use Rattle.its_duties.specs.Seen.{Seen, AreRead};
ghost use Rattle.its_duties.specs.Verdicts.{is_fail};
ghost use Rattle.its_duties.specs.Duties.{IsModelled, NoScenario};
ghost use Rattle.its_duties.specs.Heard.{has_room};
ghost use Rattle.its_duties.specs.Once.{IsRelayAgain, is_within_life, is_not_forgotten};
ghost use Rattle.its_duties.specs.Once.{breaks_once, once_verdict};

use crate::claims::Claims;
use crate::relays::is_simple;
use crate::spans::{life, slack, wait};
use crate::verdict::{Breach, Doubt, Verdict};

/// A packet that the station forwarded, and an earlier frame of the same source and number that it
/// forwarded.
#[derive(Clone, Copy, Debug, PartialEq, Eq)]
pub struct RelayAgain {
    /// The time between the stamps of the two, in nanoseconds.
    pub since: u64,
    /// The first sending of both is in the capture.
    pub sure: bool,
    /// So many other numbers of the source were heard from the reception of the first to that of the
    /// second.
    pub others: u32,
    /// The capture has all of this time, and each record in it is read.
    pub others_known: bool,
    /// In this time the packet was heard less often than it was forwarded. The capture has all of
    /// this time, and each record in it is read.
    pub heard_less: bool,
    /// So many sources were heard from a source's life before the first.
    pub sources: u32,
    /// The capture has all of this time, or the station knew no other station when the capture
    /// began; and each record in it is read.
    pub sources_known: bool,
}

/// Whether the station forwarded a packet of this source and number before.
#[derive(Clone, Copy, Debug, PartialEq, Eq)]
pub enum EarlierRelay {
    /// It did not: the capture has each frame that counts.
    Never,
    /// None is in the capture, but one may be from before it.
    NotSeen,
    /// It did.
    Again(RelayAgain),
}

/// Returns the verdict on whether a packet is forwarded once (Annex A). A second time is a fail if
/// the station can't have forgotten the first: fewer other numbers were heard than it remembers, or
/// the packet was heard less often than it was forwarded.
///
/// - `fail_is_proof`: if it is a fail, no scenario explains a capture in which this was found of
///   the packet, if the claims are those of a station of the model.
pub fn judge_once(claims: &Claims, earlier: EarlierRelay) -> Verdict
    ensures verdict { result ≡ once_verdict claims.now earlier }
    ensures fail_is_proof { (tap : List Seen) (j : ℕ) (r : Seen) (t : Transmission) → AreRead tap
        → IsModelled claims.now → IsRelayAgain claims.now tap j r t earlier
        → IsTrue (is_fail result) → NoScenario claims.now tap }
{
    once_of(claims, earlier)
}

/// The verdict by what was found.
fn once_of(claims: &Claims, earlier: EarlierRelay) -> Verdict
    ensures { result ≡ once_verdict claims.now earlier }
{
    match earlier {
        EarlierRelay::Never => {
            if claims.sent {
                return Verdict::Pass;
            }
            Verdict::Inconclusive(Doubt::FirstTime)
        }
        EarlierRelay::NotSeen => Verdict::Inconclusive(Doubt::FirstTime),
        EarlierRelay::Again(again) => {
            if breaks_once(claims, again) {
                return Verdict::Fail(Breach::Again(again.others));
            }
            Verdict::Inconclusive(Doubt::Again(again.others))
        }
    }
}

/// Whether the station can't have forgotten the packet.
fn breaks_once(claims: &Claims, again: RelayAgain) -> bool
    ensures { result ≡ breaks_once claims.now again }
{
    let simple = is_simple(claims.area);
    let claimed = claims.steady && claims.unbuffered && simple && claims.received;
    let within = is_within_life(claims, again.since);
    let kept = is_not_forgotten(claims, again);
    let room = has_room(claims.capacity, again.sources);
    claimed && again.sure && within && kept && room && again.sources_known
}

/// Whether the first reception counts at the second for sure.
fn is_within_life(claims: &Claims, since: u64) -> bool
    ensures { result ≡ is_within_life claims.now since }
{
    let doubt = wait(claims) + 2 * slack(claims);
    let life = life(claims);
    doubt < life && since < life - doubt
}

/// Whether the station remembers the number for sure, or the packet was heard less often than it was
/// forwarded.
fn is_not_forgotten(claims: &Claims, again: RelayAgain) -> bool
    ensures { result ≡ is_not_forgotten claims.now again }
{
    (again.others_known && again.others < claims.remember) || again.heard_less
}

/// Whether the table has room for so many sources for sure.
pub(crate) fn has_room(capacity: Option<u32>, sources: u32) -> bool
    ensures { result ≡ has_room capacity sources }
{
    match capacity {
        Some(capacity) => sources <= capacity,
        None => false,
    }
}
