//! How many events of each kind wait at each station.

ghost use Rattle.std.specs.Prelude.{◌≡◌, ◌<◌, ◌+◌, ◌^◌, [], ◌∷◌, List, length, count_by};
ghost use Rattle.std.specs.Prelude.{IfSome, IfNone, OnOk, OnErr};
ghost use Rattle.std.specs.List.Sorted.{IsPermutation};
ghost use Rattle.sim_queue.specs.Counted.{AreCounted, IsCountedAt, IsUncounted, IsPlaceOf};
ghost use Rattle.sim_queue.specs.Counted.{HasNoPlace, is_kind_at, number_of};

use crate::fault::QueueFault;
use crate::scheduled::Scheduled;
use std::alloc::{AllocError, Global};

/// A kind of event that a station repeats.
#[derive(Clone, Copy, Debug)]
pub(crate) enum Kind {
    /// A tick.
    Tick,
    /// A send of the traffic of this number.
    Send(usize),
}

impl Kind {
    /// Returns the number of the kind, if it has one. Ticks have number 0, the sends of a traffic
    /// have one more than the number of the traffic.
    pub(crate) fn number(self) -> Option<usize>
        ensures { IfSome result (λ number. number ≡ number_of self) }
    {
        match self {
            Kind::Tick => Some(0),
            Kind::Send(number) => number.checked_add(1),
        }
    }
}

/// How many events of each kind wait at each station. The counts of one station are side by side:
/// ticks first, then the sends of each traffic. So no search among the events is needed.
#[derive(Debug, Drop)]
pub(crate) struct Counts {
    /// How many kinds are counted.
    kinds: usize,
    /// The counts. All further ones are 0.
    each: Vec<usize>,
}

impl Counts {
    /// Returns counts of 0, for this number of kinds.
    pub(crate) fn new(alloc: Global, kinds: usize) -> Counts
        ensures { AreCounted result.kinds result.each.items [] }
    {
        Counts {
            kinds,
            each: Vec::new(alloc),
        }
    }

    /// Returns how many of a kind wait at a station, if they are counted.
    pub(crate) fn get(&self, kind: usize, station: usize) -> Option<usize>
        ensures { (own : List Scheduled) → AreCounted self.now.kinds self.now.each.items own →
            IfSome result (λ count. count ≡ count_by (is_kind_at kind station) own) }
    {
        let at = self.place(kind, station)?;
        if at < self.each.len() {
            Some(self.each[at])
        } else {
            Some(0)
        }
    }

    /// Counts an event that is put.
    pub(crate) fn add(&mut self, waiting: &Scheduled) -> Result<(), QueueFault>
        ensures added { (own new : List Scheduled) →
            AreCounted self.old.kinds self.old.each.items own →
            IsPermutation (waiting.now ∷ own) new →
            OnOk result (AreCounted self.new.kinds self.new.each.items new) }
        ensures failed { (own : List Scheduled) →
            AreCounted self.old.kinds self.old.each.items own →
            OnErr result (AreCounted self.new.kinds self.new.each.items own) }
    {
        let Some(at) = self.place_of(waiting) else {
            return Ok(());
        };
        self.grow(at)?;
        let Some(more) = self.each[at].checked_add(1) else {
            return Err(QueueFault::TooManyEvents);
        };
        self.each[at] = more;
        Ok(())
    }

    /// Removes an event that is taken from the counts.
    pub(crate) fn remove(&mut self, waiting: &Scheduled)
        ensures { (own new : List Scheduled) →
            AreCounted self.old.kinds self.old.each.items own →
            IsPermutation own (waiting.now ∷ new) →
            AreCounted self.new.kinds self.new.each.items new }
    {
        let Some(at) = self.place_of(waiting) else {
            return;
        };
        if at < self.each.len() {
            self.each[at] = self.each[at].saturating_sub(1);
        }
    }

    /// Lengthens the counts, so that they have this index.
    fn grow(&mut self, at: usize) -> Result<(), AllocError>
        requires { at + 1 < 2 ^ 64 }
        ensures kinds { self.new.kinds ≡ self.old.kinds }
        ensures same { (own : List Scheduled) → AreCounted self.old.kinds self.old.each.items own →
            AreCounted self.new.kinds self.new.each.items own }
        ensures room { OnOk result (at < length self.new.each.items) }
    {
        if self.each.len() <= at {
            self.each.resize(at + 1, 0)?;
        }
        Ok(())
    }

    /// Returns the index of the count of an event, if it is counted.
    fn place_of(&self, waiting: &Scheduled) -> Option<usize>
        ensures counted { IfSome result (IsCountedAt self.now.kinds waiting.now) }
        ensures uncounted { IfNone result (IsUncounted self.now.kinds waiting.now) }
    {
        let kind = waiting.own.kind()?;
        self.place(kind, waiting.station)
    }

    /// Returns the index of the count of a kind at a station, if it is counted.
    fn place(&self, kind: usize, station: usize) -> Option<usize>
        ensures place { IfSome result (IsPlaceOf self.now.kinds kind station) }
        ensures none { IfNone result (HasNoPlace self.now.kinds kind station) }
    {
        if self.kinds <= kind {
            return None;
        }
        let at = station.checked_mul(self.kinds)?.checked_add(kind)?;
        if at < usize::MAX { Some(at) } else { None }
    }
}
