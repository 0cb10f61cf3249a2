//! What the station forwards: a packet that it received, with one hop fewer, and in time (EN 302
//! 636-4-1, 10.3.11.3 and 10.3.12.3).

ghost use Rattle.std.specs.Prelude.{◌≡◌, ℕ, List, IsTrue};
ghost use Rattle.its_model.specs.Packet.{Transmission};
ghost use Rattle.its_duties.specs.Seen.{Seen, AreRead};
ghost use Rattle.its_duties.specs.Verdicts.{is_fail};
ghost use Rattle.its_duties.specs.Duties.{IsModelled, NoScenario};
ghost use Rattle.its_duties.specs.Relays.{IsSearch, is_simple, faithful_verdict, in_time_verdict};

use crate::claims::{AreaForwarding, Claims};
use crate::verdict::{Breach, Doubt, Verdict};

/// Whether a packet that the station forwarded was heard before: a copy of it with one hop more.
#[derive(Clone, Copy, Debug, PartialEq, Eq)]
pub enum PacketOrigin {
    /// It was not heard, as long before as a source counts.
    NotHeard,
    /// It was heard for the last time so many nanoseconds before, which is earlier than the longest
    /// wait.
    Late(u64),
    /// It was heard for the last time so many nanoseconds before, and may have caused the frame.
    InTime(u64),
}

/// What was found of a packet that the station forwarded.
#[derive(Clone, Copy, Debug, PartialEq, Eq)]
pub struct RelaySearch {
    /// Whether it was heard.
    pub origin: PacketOrigin,
    /// It is so much later than the begin of the capture that the capture has what it was made
    /// from.
    pub late: bool,
    /// Each record is read in the time in which it was looked for.
    pub all_read: bool,
    /// Each record is read in the time in which it may have been received.
    pub near_read: bool,
    /// Its first sending is in the capture.
    pub sure: bool,
}

/// Returns the verdict on whether a forwarded packet is one that was heard, with one hop fewer and
/// nothing else changed (10.3.11.3, 10.3.12.3).
///
/// - `fail_is_proof`: if it is a fail, no scenario explains a capture in which this was found of
///   the packet, if the claims are those of a station of the model.
pub fn judge_faithful(claims: &Claims, search: RelaySearch) -> Verdict
    ensures verdict { result ≡ faithful_verdict claims.now search }
    ensures fail_is_proof { (tap : List Seen) (j : ℕ) (r : Seen) (t : Transmission) → AreRead tap
        → IsModelled claims.now → IsSearch claims.now tap j r t search
        → IsTrue (is_fail result) → NoScenario claims.now tap }
{
    faithful_of(claims, search)
}

/// The verdict on a packet by what was found.
fn faithful_of(claims: &Claims, search: RelaySearch) -> Verdict
    ensures { result ≡ faithful_verdict claims.now search }
{
    match search.origin {
        PacketOrigin::NotHeard => {
            if claims.received && claims.unbuffered && search.late && search.all_read {
                return Verdict::Fail(Breach::NotFaithful);
            }
            Verdict::Inconclusive(Doubt::NotFaithful)
        }
        PacketOrigin::Late(_) | PacketOrigin::InTime(_) => Verdict::Pass,
    }
}

/// Returns the verdict on whether a forwarded packet left in time: at most the longest wait after
/// one that it was made from. It is asked only if `judge_faithful` doesn't fail.
///
/// - `fail_is_proof`: if it is a fail, no scenario explains a capture in which this was found of
///   the packet, if the claims are those of a station of the model.
pub fn judge_in_time(claims: &Claims, search: RelaySearch) -> Verdict
    ensures verdict { result ≡ in_time_verdict claims.now search }
    ensures fail_is_proof { (tap : List Seen) (j : ℕ) (r : Seen) (t : Transmission) → AreRead tap
        → IsModelled claims.now → IsSearch claims.now tap j r t search
        → IsTrue (is_fail result) → NoScenario claims.now tap }
{
    in_time_of(claims, search)
}

/// The verdict on the time of a packet by what was found.
fn in_time_of(claims: &Claims, search: RelaySearch) -> Verdict
    ensures { result ≡ in_time_verdict claims.now search }
{
    match search.origin {
        PacketOrigin::NotHeard => Verdict::Inconclusive(Doubt::NeverReceived),
        PacketOrigin::Late(since) => {
            let simple = is_simple(claims.area);
            let known = claims.received && claims.unbuffered && simple;
            if known && search.sure && search.near_read {
                return Verdict::Fail(Breach::Late(since));
            }
            Verdict::Inconclusive(Doubt::Late(since))
        }
        PacketOrigin::InTime(_) => Verdict::Pass,
    }
}

/// Whether the station is claimed to forward at once.
pub(crate) fn is_simple(area: AreaForwarding) -> bool
    ensures { result ≡ is_simple area }
{
    match area {
        AreaForwarding::Simple => true,
        AreaForwarding::Other => false,
    }
}
