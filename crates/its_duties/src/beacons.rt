//! When a beacon comes (EN 302 636-4-1, 10.3.6.2).

ghost use Rattle.std.specs.Prelude.{◌≡◌, ℕ, List, IsTrue, false, true};
ghost use Rattle.its_model.specs.Packet.{Transmission};
ghost use Rattle.its_duties.specs.Seen.{Seen, AreRead};
ghost use Rattle.its_duties.specs.Verdicts.{is_fail, beacon_verdict};
ghost use Rattle.its_duties.specs.Duties.{IsBeaconAfter, IsModelled, NoScenario};

use crate::claims::Claims;
use crate::spans::{doubt_between, nanos};
use crate::verdict::{Breach, Doubt, Verdict};

/// How an own beacon comes after the last own packet before it that puts it off, and that is so
/// much earlier that its call was earlier too.
#[derive(Clone, Copy, Debug, PartialEq, Eq)]
pub struct BeaconGap {
    /// The time between their stamps, in nanoseconds.
    pub since: u64,
    /// The first sending of both is in the capture.
    pub sure: bool,
    /// No other packet that puts the beacon off is so near to it, and none that isn't read lies in
    /// the time that is counted.
    pub alone: bool,
}

/// Returns the verdict on a beacon, which doesn't come earlier than the claimed interval after an
/// own packet that puts it off (10.3.6.2).
///
/// - `fail_is_proof`: if it is a fail, no scenario explains a capture with records of these two
///   packets, if the claims are those of a station of the model.
pub fn judge_beacon(claims: &Claims, gap: BeaconGap) -> Verdict
    ensures verdict { result ≡ beacon_verdict claims.now gap.since gap.sure gap.alone }
    ensures fail_is_proof { (tap : List Seen) (i j : ℕ) (r s : Seen) (t u : Transmission)
        → AreRead tap → IsModelled claims.now → IsBeaconAfter claims.now tap i j r s t u gap.since
        → (gap.sure ≡ true → (r.retried ≡ false) × (s.retried ≡ false))
        → IsTrue (is_fail result) → NoScenario claims.now tap }
{
    gap_of(claims, gap)
}

/// The verdict on a gap.
fn gap_of(claims: &Claims, gap: BeaconGap) -> Verdict
    ensures { result ≡ beacon_verdict claims.now gap.since gap.sure gap.alone }
{
    let doubt = doubt_between(claims);
    let interval = nanos(claims.interval as u64);
    let early = doubt < interval && gap.since < interval - doubt;
    if claims.steady && gap.sure && early {
        return Verdict::Fail(Breach::BeaconEarly(gap.since));
    }
    if claims.sent && gap.alone && interval + doubt <= gap.since {
        return Verdict::Pass;
    }
    Verdict::Inconclusive(Doubt::BeaconBetween(gap.since))
}
