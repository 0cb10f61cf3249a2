//! For how long what was met of a capture is kept.

use crate::forwarded::once_time;
use crate::owed::owed_time;
use crate::repeats::RETRY_TIME;
use its_duties::{Claims, doubt_between, longest, slack, wait};

/// How far a stamp may be below the greatest before it.
pub(crate) fn disorder(claims: &Claims) -> u64 {
    slack(claims).saturating_sub(1_000_000).saturating_mul(2)
}

/// How long after it was met a record may wait, and what may come between.
fn waiting_time(claims: &Claims) -> u64 {
    doubt_between(claims)
        .saturating_mul(4)
        .saturating_add(owed_time(claims).saturating_mul(2))
        .saturating_add(RETRY_TIME.saturating_mul(4))
}

/// The stamp before which nothing is looked for any more, once a record of this stamp is met.
pub(crate) fn oldest(claims: &Claims, stamp: u64) -> u64 {
    let interval = u64::from(claims.interval).saturating_mul(1_000_000);
    let back = longest(claims).max(interval);
    stamp.saturating_sub(back.saturating_add(waiting_time(claims)))
}

/// The stamp before which nothing is looked for by which it is judged whether a packet is forwarded
/// once.
pub(crate) fn oldest_of_once(claims: &Claims, stamp: u64) -> u64 {
    stamp.saturating_sub(once_time(claims).saturating_add(waiting_time(claims)))
}

/// The stamp before which no record is that caused a frame that still waits.
pub(crate) fn oldest_near(claims: &Claims, stamp: u64) -> u64 {
    let back = wait(claims).saturating_add(slack(claims).saturating_mul(4));
    stamp.saturating_sub(back.saturating_add(waiting_time(claims)))
}
