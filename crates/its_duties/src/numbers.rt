//! The sequence numbers of own packets for areas (EN 302 636-4-1, 8.3).

ghost use Rattle.std.specs.Prelude.{◌≡◌, ◌≤◌, ◌<◌, ◌+◌, ◌*◌, ◌^◌, ℕ, List, IsTrue};
ghost use Rattle.its_model.specs.Packet.{Transmission};
ghost use Rattle.its_duties.specs.Seen.{Seen, AreRead};
ghost use Rattle.its_duties.specs.Verdicts.{is_fail, doubt_between};
ghost use Rattle.its_duties.specs.Duties.{IsModelled, NoScenario};
ghost use Rattle.its_duties.specs.Numbers.{IsNumberStep, breaks_numbers, numbers_in_time};
ghost use Rattle.its_duties.specs.Numbers.{numbers_verdict, size_of, steps_by, steps_of};
ghost use Rattle.its_duties.specs.Numbers.{max_of, time_between};

use crate::claims::{Claims, SequenceModulus};
use crate::spans::doubt_between;
use crate::verdict::{Breach, Doubt, Verdict};

/// Two own packets for areas, one after the other in the capture: no other one that isn't a
/// repetition is between them, and each own packet between them is read.
#[derive(Clone, Copy, Debug, PartialEq, Eq)]
pub struct NumberStep {
    /// The sequence number of the first.
    pub first: u16,
    /// The sequence number of the second.
    pub second: u16,
    /// The time between their stamps, in nanoseconds.
    pub since: u64,
    /// How far the timestamp of the second is ahead of that of the first, in milliseconds modulo
    /// 2^32.
    pub ahead: u32,
    /// The timestamp of the second is newer.
    pub newer: bool,
    /// The first sending of both is in the capture.
    pub sure: bool,
}

/// Returns the verdict on the sequence number of an own packet for an area, which is one more than
/// that of the one before (8.3). More numbers were used if a packet is not in the capture. They are
/// a fail only if they are more than the claimed rate allows.
///
/// - `fail_is_proof`: if it is a fail, no scenario explains a capture with records of these two
///   packets, if the claims are those of a station of the model.
pub fn judge_numbers(claims: &Claims, step: NumberStep) -> Verdict
    ensures verdict { result ≡ numbers_verdict claims.now step }
    ensures fail_is_proof { (tap : List Seen) (i j : ℕ) (r s : Seen) (t u : Transmission)
        → AreRead tap → IsModelled claims.now → IsNumberStep claims.now tap i j r s t u step
        → IsTrue (is_fail result) → NoScenario claims.now tap }
{
    numbers_of(claims, step)
}

/// The verdict on a step from one number to the next.
fn numbers_of(claims: &Claims, step: NumberStep) -> Verdict
    ensures { result ≡ numbers_verdict claims.now step }
{
    let steps = steps_of(claims.modulus, step.first, step.second);
    if breaks_numbers(claims, step, steps) {
        return Verdict::Fail(Breach::Number(step.second, step.first));
    }
    if steps == 1 {
        return Verdict::Pass;
    }
    Verdict::Inconclusive(Doubt::NumbersNotSeen(steps - 1))
}

/// Whether the station can't have used so many numbers.
fn breaks_numbers(claims: &Claims, step: NumberStep, steps: u32) -> bool
    ensures { result ≡ breaks_numbers claims.now step steps claims.now.age }
{
    let Some(age) = claims.age else {
        return false;
    };
    claims.steady
        && step.sure
        && step.newer
        && doubt_between(claims) < step.since
        && used_at_most(claims, step, age) < u128::from(steps)
}

/// How many numbers the station may have used at the most.
fn used_at_most(claims: &Claims, step: NumberStep, age: u32) -> u128
    ensures { result
        ≡ numbers_in_time claims.now (time_between claims.now step.since step.ahead age) }
{
    let by_stamps = u128::from(step.since) + u128::from(doubt_between(claims));
    let by_timestamps = 1_000_000 * (u128::from(step.ahead) + u128::from(age));
    let nanoseconds = greater(by_stamps, by_timestamps);
    let seconds = (nanoseconds + 999_999_999) / 1_000_000_000;
    used_within(claims.rate, seconds)
}

/// How many numbers a station may have used in so many seconds, rounded up.
fn used_within(rate: u32, seconds: u128) -> u128
    requires { seconds < 2 ^ 40 }
    ensures { result ≡ rate * (seconds + 1) }
{
    rate as u128 * (seconds + 1)
}

/// How many steps of 1 lead from one number to another: by the claimed modulus, or by the one with
/// which they are fewer.
fn steps_of(modulus: Option<SequenceModulus>, first: u16, second: u16) -> u32
    ensures value { result ≡ steps_of modulus first second }
    ensures least { 1 ≤ result }
{
    match modulus {
        Some(modulus) => steps_by(modulus, first, second),
        None => {
            let few = steps_by(SequenceModulus::Short, first, second);
            let many = steps_by(SequenceModulus::Full, first, second);
            if many < few { many } else { few }
        }
    }
}

/// The same by one modulus.
fn steps_by(modulus: SequenceModulus, first: u16, second: u16) -> u32
    ensures value { result ≡ steps_by (size_of modulus) first second }
    ensures least { 1 ≤ result }
{
    let size = size_of(modulus);
    let ahead = (u32::from(second) + size - u32::from(first)) % size;
    if ahead == 0 { size } else { ahead }
}

/// How many numbers there are.
fn size_of(modulus: SequenceModulus) -> u32
    ensures value { result ≡ size_of modulus }
    ensures least { 65535 ≤ result }
    ensures most { result ≤ 65536 }
{
    match modulus {
        SequenceModulus::Short => 65535,
        SequenceModulus::Full => 65536,
    }
}

/// The greater of two.
fn greater(a: u128, b: u128) -> u128
    ensures value { result ≡ max_of a b }
    ensures bound { result ≤ a + b }
{
    if a < b { b } else { a }
}
