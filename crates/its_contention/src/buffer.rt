//! The frames of a station that wait to be forwarded.

ghost use Rattle.std.specs.Prelude.{◌≡◌, ◌<◌, ◌≤◌, ◌+◌, ◌-◌, ℕ, Bool, length, map, IfOk, IfSome};
ghost use Rattle.std.specs.Prelude.{nat_lt, vec_len, vec_capacity, [], ◌++◌};
ghost use Rattle.std.specs.Option.{option_copied};
ghost use Rattle.its_model.specs.Contention.{next_due, first_due, kept_at, after_copy};
ghost use Rattle.its_model.specs.Contention.{cancelled_by};
ghost use Rattle.its_contention.specs.Buffer.{empty, with_frame, after_hearing, after_late};
ghost use Rattle.its_contention.specs.Buffer.{after_release, after_drop, cleared, with_full};
ghost use Rattle.its_contention.specs.Buffer.{first_left, rest_left, AllStay};
ghost use Rattle.its_contention.specs.Tests.{AreTested};

use crate::counts::ContentionCounts;
use crate::due::{next_due, place_due};
use crate::held::Held;
use crate::rule::ContentionRule;
use its_gnvalue::{Mac, NoMemory};
use std::alloc::Global;
use std::marker::Model;

/// How many frames may wait.
const PLACES: usize = 64;

/// The frames of a station that wait to be forwarded, at most 64. Contracts see the rule, the
/// frames, the one that was put first being first, the frames that left last and are not fetched,
/// and the counts.
#[derive(Drop)]
pub struct HeldFrames<F> {
    rule: ContentionRule,
    held: Vec<Held<F>>,
    left: Vec<F>,
    counts: ContentionCounts,
}

impl<F> Model for HeldFrames<F> {
    ghost use Rattle.std.specs.Prelude.{◌≡◌, vec_capacity};
    ghost use Rattle.its_model.specs.Contention.{IsRule};
    ghost use Rattle.its_contention.specs.Buffer.{Buffer, AllStay};

    ghost Value = { Buffer F };

    ghost view = { λ s. record {
      rule = s.rule;
      held = s.held.items;
      left = s.left.items;
      counts = s.counts;
    } };

    ghost invariant = { λ s. (vec_capacity s.held ≡ 64) × (vec_capacity s.left ≡ 64)
        × IsRule s.rule × AllStay s.rule.copies s.held.items };
}

impl<F: Drop> HeldFrames<F> {
    /// No frame waits. All memory is taken here, for 64 frames. `NoMemory` says that an allocation
    /// failed.
    pub fn new(alloc: Global, rule: ContentionRule) -> Result<HeldFrames<F>, NoMemory>
        ensures { IfOk result (λ b. b ≡ empty rule) }
    {
        let held = Vec::with_capacity(alloc, PLACES)?;
        let left = Vec::with_capacity(alloc, PLACES)?;
        let _ = rule.copies();
        Ok(HeldFrames {
            rule,
            held,
            left,
            counts: ContentionCounts::NONE,
        })
    }

    /// The rule.
    pub fn rule(&self) -> ContentionRule
        ensures { result ≡ self.now.rule }
    {
        self.rule
    }

    /// How many frames wait, due and late ones too: at most 64.
    pub fn len(&self) -> usize
        ensures value { result ≡ length self.now.held }
        ensures bound { result ≤ 64 }
    {
        self.held.len()
    }

    /// The frames that wait, the one that was put first being first.
    pub(crate) fn waiting(&self) -> &[Held<F>]
        ensures { result.now ≡ self.now.held }
    {
        self.held.as_slice()
    }

    /// Whether another frame may wait: fewer than 64 do.
    pub fn has_room(&self) -> bool
        ensures { result ≡ nat_lt (length self.now.held) 64 }
    {
        self.held.len() < PLACES
    }

    /// How often each thing happened since the buffer was made.
    pub fn counts(&self) -> ContentionCounts
        ensures { result ≡ self.now.counts }
    {
        self.counts
    }

    /// Has a frame wait until it is due, in milliseconds. There has to be room. It takes no memory.
    pub fn hold(&mut self, frame: F, due: u64)
        requires { length self.old.held < 64 }
        ensures { self.new ≡ with_frame self.old frame due }
    {
        self.held.push_reserved(Held::new(frame, due));
        self.counts.held = self.counts.held.saturating_add(1);
    }

    /// Counts a frame from this link sender at each frame that waits of which it is a copy, by
    /// `is_copy`, and returns how many frames that cancels. `next_left` returns them, the oldest
    /// first. It takes no memory.
    ///
    /// - `state`: with any test that `is_copy` computes of the frames that wait, these and those
    ///   that left are what the rule says.
    pub fn hear<C: Fn(&F) -> bool>(&mut self, sender: Mac, is_copy: C) -> usize
        requires { C.IsAlwaysCallable is_copy }
        ensures state { (test : F → Bool) → AreTested C.Fn is_copy test self.old.held →
            self.new ≡ after_hearing self.old test sender }
        ensures count { result ≡ length self.new.left }
    {
        self.left.clear();
        let copies = self.rule.copies();
        sort_out(&mut self.held, &mut self.left, copies, sender, &is_copy);
        let cancelled = self.left.len();
        self.counts.cancelled = self.counts.cancelled.saturating_add(cancelled as u64);
        cancelled
    }

    /// Takes the oldest out of the frames that the last `hear` cancelled or the last `clear`
    /// dropped. Those that are not fetched are lost at the next of these calls.
    pub fn next_left(&mut self) -> Option<F>
        ensures frame { result ≡ first_left self.old.left }
        ensures state { self.new ≡ record self.old { left = rest_left self.old.left } }
    {
        if self.left.is_empty() {
            return None;
        }
        Some(self.left.remove(0))
    }

    /// The least time at which a frame is due, in milliseconds.
    pub fn next_due(&self) -> Option<u64>
        ensures { result ≡ next_due self.now.held }
    {
        next_due(self.held.as_slice())
    }

    /// Drops the frames that were due more than 1000 ms before.
    pub fn drop_late(&mut self, now: u64)
        ensures { self.new ≡ after_late self.old now }
    {
        let before = self.held.len();
        keep_in_time(&mut self.held, now);
        let dropped = before - self.held.len();
        self.counts.dropped = self.counts.dropped.saturating_add(dropped as u64);
    }

    /// The frame that is released at this time: of those that are due the one with the least time,
    /// of several the one that was put first.
    pub fn first_due(&self, now: u64) -> Option<&F>
        ensures { option_copied result ≡ first_due now self.now.held }
    {
        match place_due(self.held.as_slice(), now) {
            Some(place) => Some(self.held[place].frame()),
            None => None,
        }
    }

    /// Takes the frame of `first_due` out, in order to send it: it counts as released.
    pub fn take_due(&mut self, now: u64) -> Option<F>
        ensures frame { result ≡ first_due now self.old.held }
        ensures state { self.new ≡ after_release self.old now }
    {
        let place = place_due(self.held.as_slice(), now)?;
        let held = self.held.remove(place);
        self.counts.released = self.counts.released.saturating_add(1);
        Some(held.into_frame())
    }

    /// Takes the frame of `first_due` out, since a limit withholds it: it counts as dropped.
    pub fn drop_due(&mut self, now: u64) -> Option<F>
        ensures frame { result ≡ first_due now self.old.held }
        ensures state { self.new ≡ after_drop self.old now }
    {
        let place = place_due(self.held.as_slice(), now)?;
        let held = self.held.remove(place);
        self.counts.dropped = self.counts.dropped.saturating_add(1);
        Some(held.into_frame())
    }

    /// Drops all frames, and returns how many. `next_left` returns them, the oldest first.
    pub fn clear(&mut self) -> usize
        ensures state { self.new ≡ cleared self.old }
        ensures count { result ≡ length self.new.left }
    {
        self.left.clear();
        empty_into(&mut self.held, &mut self.left);
        let dropped = self.left.len();
        self.counts.dropped = self.counts.dropped.saturating_add(dropped as u64);
        dropped
    }

    /// Counts a frame that is sent at once, since no place is free.
    pub fn note_full(&mut self)
        ensures { self.new ≡ with_full self.old }
    {
        self.counts.full = self.counts.full.saturating_add(1);
    }
}

/// Drops the late frames.
fn keep_in_time<F: Drop>(held: &mut Vec<Held<F>>, now: u64)
    ensures held { held.new.items ≡ kept_at now held.old.items }
    ensures fewer { length held.new.items ≤ length held.old.items }
    ensures waiting { (copies : ℕ) → AllStay copies held.old.items
        → AllStay copies held.new.items }
    ensures room { vec_capacity held.new ≡ vec_capacity held.old }
{
    held.retain(|h| h.is_in_time(now));
}

/// Counts a sender at each frame of which it sent a copy, and moves those that are cancelled.
fn sort_out<F, C: Fn(&F) -> bool>(
    held: &mut Vec<Held<F>>,
    left: &mut Vec<F>,
    copies: u8,
    sender: Mac,
    is_copy: &C,
)
    requires callable { C.IsAlwaysCallable is_copy.now }
    requires few { copies ≤ 3 }
    requires waiting { AllStay copies held.old.items }
    requires empty { left.old.items ≡ [] }
    requires room { (vec_capacity held.old ≡ 64) × (vec_capacity left.old ≡ 64) }
    ensures lists { (test : F → Bool) → AreTested C.Fn is_copy.now test held.old.items →
        (held.new.items ≡ after_copy copies test sender held.old.items)
        × (left.new.items ≡ cancelled_by copies test sender held.old.items) }
    ensures waiting { AllStay copies held.new.items }
    ensures room { (vec_capacity held.new ≡ 64) × (vec_capacity left.new ≡ 64) }
{
    let mut i = 0;
    while i < held.len() {
        let waiting = &mut held[i];
        let found = is_copy(waiting.frame());
        if waiting.note(sender, copies, found) {
            i += 1;
        } else {
            let gone = held.remove(i);
            left.push_reserved(gone.into_frame());
        }
    }
}

/// Moves all frames, the oldest first.
fn empty_into<F>(held: &mut Vec<Held<F>>, left: &mut Vec<F>)
    requires empty { left.old.items ≡ [] }
    requires room { (vec_capacity held.old ≡ 64) × (vec_capacity left.old ≡ 64) }
    ensures held { held.new.items ≡ [] }
    ensures left { left.new.items ≡ map (λ h. h.frame) held.old.items }
    ensures room { (vec_capacity held.new ≡ 64) × (vec_capacity left.new ≡ 64) }
{
    while held.len() > 0 {
        let gone = held.remove(0);
        left.push_reserved(gone.into_frame());
    }
}
