//! A frame that waits.

ghost use Rattle.std.specs.Prelude.{◌≡◌, ◌<◌, ◌≤◌, ◌+◌, length, nat_le};
ghost use Rattle.std.specs.Bool.{OnTrue};
ghost use Rattle.its_model.specs.Contention.{newly_held, counted_as, stays};

use crate::senders::Senders;
use its_gnvalue::Mac;
use std::marker::Model;

/// How long after it was due a frame may be released, in milliseconds.
const LATE: u64 = 1000;

/// A frame that waits, when it is due, and who sent copies of it.
#[derive(Drop)]
pub(crate) struct Held<F> {
    frame: F,
    due: u64,
    senders: Senders,
}

impl<F> Model for Held<F> {
    ghost use Rattle.its_model.specs.Contention.{HeldFrame};

    ghost Value = { HeldFrame F };

    ghost view = { λ h. record { frame = h.frame; due = h.due; senders = h.senders } };
}

impl<F> Held<F> {
    /// A frame that begins to wait.
    pub(crate) fn new(frame: F, due: u64) -> Held<F>
        ensures { result ≡ newly_held frame due }
    {
        Held {
            frame,
            due,
            senders: Senders::none(),
        }
    }

    /// The frame.
    pub(crate) fn frame(&self) -> &F
        ensures { result.now ≡ self.now.frame }
    {
        &self.frame
    }

    /// When it is due.
    pub(crate) fn due(&self) -> u64
        ensures { result ≡ self.now.due }
    {
        self.due
    }

    /// Whether it was due at most 1000 ms before this time, or is not due yet.
    pub(crate) fn is_in_time(&self, now: u64) -> bool
        ensures { result ≡ nat_le now (self.now.due + 1000) }
    {
        now <= self.due || now - self.due <= LATE
    }

    /// The frame, which waits no longer.
    pub(crate) fn into_frame(self) -> F
        ensures { result ≡ self.frame }
    {
        let Held { frame, .. } = self;
        frame
    }

    /// Counts a sender of what may be a copy, and returns whether the frame still waits.
    pub(crate) fn note(&mut self, sender: Mac, copies: u8, is_copy: bool) -> bool
        requires few { copies ≤ 3 }
        requires waits { length self.old.senders < copies }
        ensures stays { result ≡ stays copies (counted_as is_copy sender self.old) }
        ensures state { OnTrue result (self.new ≡ counted_as is_copy sender self.old) }
        ensures frame { self.new.frame ≡ self.old.frame }
    {
        if !is_copy || self.senders.has(sender) {
            return true;
        }
        if self.senders.len() + 1 < usize::from(copies) {
            self.senders.add(sender);
            return true;
        }
        false
    }
}
