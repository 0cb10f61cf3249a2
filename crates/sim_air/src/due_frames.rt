//! The frames that stations of a run hold, by when they are due.

ghost use Rattle.std.specs.Prelude.{◌≡◌, nat_eq};
ghost use Rattle.std.specs.Cmp.{partial_order_from_own_ties};
ghost use Rattle.std.specs.Cmp.Rules.{comparing};
ghost use Rattle.std.specs.Ordering.{nat_cmp, on, flip_args, then_cmp, as_partial_cmp, eq_of_both};
ghost use Rattle.std.proofs.Common.{rules};

use std::cmp::Ordering;

/// A frame that a station holds. The greatest is the first one that is released: the one with the
/// earlier due time, and of one time the one with the lower number, which was held first.
#[derive(Clone, Copy, Debug)]
pub(crate) struct DueFrame {
    /// When it is due, in milliseconds.
    pub(crate) moment: u64,
    /// Its number.
    pub(crate) frame: usize,
    /// The number of the station.
    pub(crate) station: usize,
}

impl PartialEq for DueFrame {
    ghost eq = { eq_of_both (on (λ d. d.moment) nat_eq) (on (λ d. d.frame) nat_eq) };

    ghost laws = { Prim.search (comparing, rules) };

    fn eq(&self, other: &DueFrame) -> bool {
        self.moment == other.moment && self.frame == other.frame
    }
}

impl Eq for DueFrame {
    ghost laws = { Prim.search (comparing, rules) };
}

impl Ord for DueFrame {
    ghost cmp = { then_cmp (flip_args (on (λ d. d.moment) nat_cmp))
        (flip_args (on (λ d. d.frame) nat_cmp)) };

    ghost total = { Prim.search (comparing, rules) };

    ghost matches_partial_cmp = { Prim.search (comparing, rules) };

    ghost matches_eq = { Prim.search (comparing, rules) };

    fn cmp(&self, other: &DueFrame) -> Ordering {
        other
            .moment
            .cmp(&self.moment)
            .then(other.frame.cmp(&self.frame))
    }
}

impl PartialOrd for DueFrame {
    ghost partial_cmp = { as_partial_cmp (then_cmp (flip_args (on (λ d. d.moment) nat_cmp))
        (flip_args (on (λ d. d.frame) nat_cmp))) };

    ghost laws = { partial_order_from_own_ties (Prim.search (comparing, rules))
        (Prim.search (comparing, rules)) };

    fn partial_cmp(&self, other: &DueFrame) -> Option<Ordering> {
        Some(self.cmp(other))
    }
}
