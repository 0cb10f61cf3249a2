//! Times of the claims, in nanoseconds.

ghost use Rattle.std.specs.Prelude.{◌≡◌, ◌≤◌, ◌^◌};
ghost use Rattle.its_duties.specs.Forwarding.{longest};
ghost use Rattle.its_duties.specs.Times.{lag, life, nanos, slack, wait};
ghost use Rattle.its_duties.specs.Verdicts.{doubt_between};

use crate::claims::Claims;

/// Milliseconds in nanoseconds.
pub(crate) fn nanos(ms: u64) -> u64
    requires { ms ≤ 2 ^ 33 }
    ensures value { result ≡ nanos ms }
    ensures bound { result ≤ 2 ^ 53 }
{
    1_000_000 * ms
}

/// How far a stamp may be from a moment of the station: by its skew, and by a millisecond, since a
/// station knows whole milliseconds only.
pub fn slack(claims: &Claims) -> u64
    ensures value { result ≡ slack claims.now }
    ensures bound { result ≤ 2 ^ 53 }
{
    nanos(u64::from(claims.skew) + 1)
}

/// From a reception to the frame that it causes, at the most.
pub fn wait(claims: &Claims) -> u64
    ensures value { result ≡ wait claims.now }
    ensures bound { result ≤ 2 ^ 53 }
{
    nanos(u64::from(claims.within))
}

/// From an own call to its frame, at the most.
pub fn lag(claims: &Claims) -> u64
    ensures value { result ≡ lag claims.now }
    ensures bound { result ≤ 2 ^ 53 }
{
    nanos(u64::from(claims.queue))
}

/// How long a source counts.
pub(crate) fn life(claims: &Claims) -> u64
    ensures value { result ≡ life claims.now }
    ensures bound { result ≤ 2 ^ 53 }
{
    nanos(u64::from(claims.life))
}

/// How long before a forwarded frame its packet may have been received, at the most: as long as a
/// source counts.
pub fn longest(claims: &Claims) -> u64
    ensures value { result ≡ longest claims.now }
    ensures bound { result ≤ 2 ^ 55 }
{
    let near = wait(claims) + 2 * slack(claims);
    let life = life(claims);
    if life < near { near } else { life }
}

/// How far the time between two own packets may be from that between their stamps.
pub fn doubt_between(claims: &Claims) -> u64
    ensures value { result ≡ doubt_between claims.now }
    ensures bound { result ≤ 2 ^ 55 }
{
    lag(claims) + 2 * slack(claims)
}
