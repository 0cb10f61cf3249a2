//! Which frame is due first.

ghost use Rattle.std.specs.Prelude.{◌≡◌, ◌<◌, ◌==◌, ℕ, length, position, IfSome};
ghost use Rattle.its_model.specs.Contention.{next_due, place_due};

use crate::held::Held;

/// The least time at which one of these frames is due.
pub(crate) fn next_due<F>(held: &[Held<F>]) -> Option<u64>
    ensures { result ≡ next_due held.now }
{
    let mut least: Option<u64> = None;
    let mut i = held.len();
    while i > 0 {
        i -= 1;
        let due = held[i].due();
        least = Some(match least {
            Some(other) => due.min(other),
            None => due,
        });
    }
    least
}

/// Where the frame is that is released at this time: of those that are due the one with the least
/// time, of several the one that was put first.
pub(crate) fn place_due<F>(held: &[Held<F>], now: u64) -> Option<usize>
    ensures place { result ≡ place_due now held.now }
    ensures within { IfSome result (λ place. place < length held.now) }
{
    let Some(due) = next_due(held) else {
        return None;
    };
    if now < due {
        return None;
    }
    place_of(held, due)
}

/// Where the first of these frames is that is due at this time.
fn place_of<F>(held: &[Held<F>], due: u64) -> Option<usize>
    ensures place { result ≡ position (λ h. h.due == due) held.now }
    ensures within { IfSome result (λ place. place < length held.now) }
{
    held.iter().position(|h| h.due() == due)
}
