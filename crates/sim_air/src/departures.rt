//! When the stations that move by rows leave: some time after the last row of each.

ghost use Rattle.std.specs.Prelude.{◌≡◌, ◌≤◌, ℕ, [], All, nat_eq};
ghost use Rattle.std.specs.Prelude.{IfNone, IfOk, IfSome, OnOk};
ghost use Rattle.std.specs.BinaryHeap.{IsHeap, heap_items};
ghost use Rattle.std.specs.Cmp.{partial_order_from_own_ties};
ghost use Rattle.std.specs.Cmp.Rules.{comparing};
ghost use Rattle.std.specs.Ordering.{nat_cmp, on, flip_args, then_cmp, as_partial_cmp, eq_of_both};
ghost use Rattle.std.proofs.Common.{rules};
ghost use Rattle.std.proofs.Props.{props};

use std::alloc::{AllocError, Global};
use std::cmp::Ordering;
use std::collections::BinaryHeap;

/// When a station departs. The greatest is the first one: the one with the earlier time, and at one
/// time the one with the lower number.
#[derive(Clone, Copy, Debug)]
pub(crate) struct Departure {
    /// The time, in milliseconds.
    pub(crate) moment: u64,
    /// The number of the station.
    pub(crate) station: usize,
}

impl PartialEq for Departure {
    ghost eq = { eq_of_both (on (λ d. d.moment) nat_eq) (on (λ d. d.station) nat_eq) };

    ghost laws = { Prim.search (comparing, rules) };

    fn eq(&self, other: &Departure) -> bool {
        self.moment == other.moment && self.station == other.station
    }
}

impl Eq for Departure {
    ghost laws = { Prim.search (comparing, rules) };
}

impl Ord for Departure {
    ghost cmp = { then_cmp (flip_args (on (λ d. d.moment) nat_cmp))
        (flip_args (on (λ d. d.station) nat_cmp)) };

    ghost total = { Prim.search (comparing, rules) };

    ghost matches_partial_cmp = { Prim.search (comparing, rules) };

    ghost matches_eq = { Prim.search (comparing, rules) };

    fn cmp(&self, other: &Departure) -> Ordering {
        other
            .moment
            .cmp(&self.moment)
            .then(other.station.cmp(&self.station))
    }
}

impl PartialOrd for Departure {
    ghost partial_cmp = { as_partial_cmp (then_cmp (flip_args (on (λ d. d.moment) nat_cmp))
        (flip_args (on (λ d. d.station) nat_cmp))) };

    ghost laws = { partial_order_from_own_ties (Prim.search (comparing, rules))
        (Prim.search (comparing, rules)) };

    fn partial_cmp(&self, other: &Departure) -> Option<Ordering> {
        Some(self.cmp(other))
    }
}

/// What is known of a station.
#[derive(Clone, Copy, Debug, Default)]
struct Seen {
    /// When it departs, if no row of it comes before that.
    due: u64,
    /// Whether it is among the departures that wait.
    waits: bool,
}

/// When each station leaves, if no row of it comes before that.
#[derive(Drop)]
pub(crate) struct Departures {
    /// How long after its last row a station departs, in milliseconds.
    gone: u32,
    /// What is known of each station, by its number.
    seen: Vec<Seen>,
    /// One entry per station that waits, at a time that is not after its departure. So a row
    /// changes no entry.
    waiting: BinaryHeap<Departure>,
    ghost ordered: { IsHeap (then_cmp (flip_args (on (λ d. d.moment) nat_cmp))
        (flip_args (on (λ d. d.station) nat_cmp))) (heap_items waiting) } by { Prim.hlevel props },
}

impl Departures {
    /// No row was seen yet, for this number of stations.
    pub(crate) fn of(alloc: Global, stations: usize, gone: u32) -> Result<Departures, AllocError>
        ensures none { IfOk result (λ departures. heap_items departures.waiting ≡ []) }
    {
        Ok(Departures {
            gone,
            seen: Vec::from_elem(alloc, Seen::default(), stations)?,
            waiting: BinaryHeap::new(alloc),
        })
    }

    /// Adds a station.
    pub(crate) fn add_station(&mut self) -> Result<(), AllocError>
        ensures waiting { self.new.waiting ≡ self.old.waiting }
    {
        self.seen.push(Seen::default())?;
        Ok(())
    }

    /// Notes a row of a station at this time.
    pub(crate) fn note_row(&mut self, station: usize, moment: u64) -> Result<(), AllocError>
        ensures from { (from : ℕ) → from ≤ moment →
            All (λ d. from ≤ d.moment) (heap_items self.old.waiting) → OnOk result
            (All (λ d. from ≤ d.moment) (heap_items self.new.waiting)) }
    {
        let due = moment.saturating_add(u64::from(self.gone));
        let Some(seen) = self.seen.get_mut(station) else {
            return Ok(());
        };
        let waits = seen.waits;
        *seen = Seen { due, waits: true };
        if waits {
            return Ok(());
        }
        self.push(station, due)
    }

    /// Returns the station that may leave first.
    pub(crate) fn first(&self) -> Option<Departure>
        ensures first { IfSome result (λ first.
            All (λ d. first.moment ≤ d.moment) (heap_items self.now.waiting)) }
        ensures after { IfSome result (λ first. (from : ℕ) →
            All (λ d. from ≤ d.moment) (heap_items self.now.waiting) → from ≤ first.moment) }
        ensures none { IfNone result (heap_items self.now.waiting ≡ []) }
    {
        self.waiting.peek().copied()
    }

    /// Takes the station that may leave first. Returns whether it leaves. If a row of it came
    /// since, it waits for the departure that follows that row.
    pub(crate) fn take_first(&mut self) -> Result<bool, AllocError>
        ensures from { (from : ℕ) → All (λ d. from ≤ d.moment) (heap_items self.old.waiting) →
            OnOk result (All (λ d. from ≤ d.moment) (heap_items self.new.waiting)) }
    {
        let Some(first) = self.waiting.pop() else {
            return Ok(false);
        };
        let Some(seen) = self.seen.get_mut(first.station) else {
            return Ok(false);
        };
        let due = seen.due;
        if due <= first.moment {
            seen.waits = false;
            return Ok(true);
        }
        self.push(first.station, due)?;
        Ok(false)
    }

    fn push(&mut self, station: usize, moment: u64) -> Result<(), AllocError>
        ensures from { (from : ℕ) → from ≤ moment →
            All (λ d. from ≤ d.moment) (heap_items self.old.waiting) → OnOk result
            (All (λ d. from ≤ d.moment) (heap_items self.new.waiting)) }
    {
        self.waiting.push(Departure { moment, station })?;
        Ok(())
    }
}
