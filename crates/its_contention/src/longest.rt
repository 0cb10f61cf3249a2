//! How long frames that wait are.

ghost use Rattle.std.specs.Prelude.{◌≡◌};
ghost use Rattle.its_contention.specs.Waiting.{longest};

use crate::held::Held;
use crate::waiting::WaitingFrame;

/// The length of the longest of these frames, in octets: 0 of none.
pub(crate) fn longest(held: &[Held<WaitingFrame>]) -> usize
    ensures { result ≡ longest held.now }
{
    let mut most = 0;
    let mut i = held.len();
    while i > 0 {
        i -= 1;
        most = held[i].frame().octets().len().max(most);
    }
    most
}
