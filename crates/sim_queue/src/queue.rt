//! The waiting events of the radio model: ticks, deliveries and sends.

ghost use Rattle.std.specs.Prelude.{◌≡◌, ◌≤◌, ◌<◌, ◌+◌, ◌∷◌, [], All};
ghost use Rattle.std.specs.Prelude.{IfSome, IfNone, OnOk, ◌==◌, count_by};
ghost use Rattle.std.specs.BinaryHeap.{IsUpperBound};
ghost use Rattle.std.specs.List.Sorted.{IsPermutation};
ghost use Rattle.sim_queue.specs.Waiting.{delivery_of, is_send_at, is_tick_at, waiting_cmp};

use crate::fault::QueueFault;
use crate::own_events::OwnEvents;
use crate::receivers::Receivers;
use crate::scheduled::{AirAction, Delivery, Scheduled};
use std::alloc::Global;

/// The waiting events of the radio model. They are taken in the order of their times, and at one
/// time in the order in which they were put.
#[derive(Debug, Drop)]
pub struct Queue {
    own: OwnEvents,
    /// How many were put.
    pushed: u64,
}

impl Queue {
    /// Returns an empty queue, for a radio model with this number of traffics.
    pub fn new(alloc: Global, traffics: usize) -> Queue
        ensures { (result.own ≡ []) × (result.pushed ≡ 0) }
    {
        Queue {
            own: OwnEvents::new(alloc, traffics.saturating_add(1)),
            pushed: 0,
        }
    }

    /// Puts a tick, a delivery or a send, at a time in milliseconds. `TooManyEvents` if 2^64 were
    /// put, `OutOfMemory` if an allocation failed.
    pub fn push(&mut self, moment: u64, station: usize, own: AirAction) -> Result<(), QueueFault>
        ensures put { OnOk result (IsPermutation (record {
          moment = moment;
          place = self.old.pushed;
          station = station;
          own = own;
        } ∷ self.old.own) self.new.own) }
        ensures count { OnOk result (self.new.pushed ≡ self.old.pushed + 1) }
    {
        let Some(pushed) = self.pushed.checked_add(1) else {
            return Err(QueueFault::TooManyEvents);
        };
        self.own.push(moment, self.pushed, station, own)?;
        self.pushed = pushed;
        Ok(())
    }

    /// Puts the delivery of a frame to a station, at a time in milliseconds. Fails as `push` does.
    #[inline(always)]
    pub fn push_delivery(
        &mut self,
        moment: u64,
        station: usize,
        frame: usize,
    ) -> Result<(), QueueFault>
        ensures put { OnOk result (IsPermutation (delivery_of (record {
          moment = moment;
          place = self.old.pushed;
          station = station;
          frame = frame;
        }) ∷ self.old.own) self.new.own) }
        ensures count { OnOk result (self.new.pushed ≡ self.old.pushed + 1) }
    {
        let place = self.pushed;
        let Some(pushed) = place.checked_add(1) else {
            return Err(QueueFault::TooManyEvents);
        };
        self.own.push_delivery(Delivery {
            moment,
            place,
            station,
            frame,
        })?;
        self.pushed = pushed;
        Ok(())
    }

    /// Returns the stations that receive the frame of a delivery that was just taken: its own, and
    /// those of the deliveries that come next.
    pub fn receivers(&self, delivery: &Delivery) -> Receivers {
        self.own.receivers(delivery)
    }

    /// Whether no tick waits at a station.
    pub fn has_no_tick(&self, station: usize) -> bool
        ensures { result ≡ (count_by (is_tick_at station) self.now.own == 0) }
    {
        self.own.has_no_tick(station)
    }

    /// Whether no send of the traffic with this number waits at a station.
    pub fn has_no_send(&self, number: usize, station: usize) -> bool
        ensures { result ≡ (count_by (is_send_at number station) self.now.own == 0) }
    {
        self.own.has_no_send(number, station)
    }

    /// Takes the first event if it is a delivery in the line, and its time is before this one.
    /// `pop_before` takes any event.
    #[inline(always)]
    pub fn pop_delivery_before(&mut self, moment: u64) -> Option<Delivery>
        ensures put { self.new.pushed ≡ self.old.pushed }
        ensures before { IfSome result (λ delivery. delivery.moment < moment) }
        ensures first { IfSome result (λ delivery.
            IsUpperBound waiting_cmp (delivery_of delivery) self.new.own) }
        ensures left { IfSome result (λ delivery.
            IsPermutation self.old.own (delivery_of delivery ∷ self.new.own)) }
        ensures none { IfNone result (self.new ≡ self.old) }
    {
        self.own.pop_delivery_before(moment)
    }

    /// Takes the first event, if its time is before this one.
    pub fn pop_before(&mut self, moment: u64) -> Option<Scheduled>
        ensures put { self.new.pushed ≡ self.old.pushed }
        ensures before { IfSome result (λ waiting. waiting.moment < moment) }
        ensures first { IfSome result (λ waiting. IsUpperBound waiting_cmp waiting self.new.own) }
        ensures left { IfSome result (λ waiting.
            IsPermutation self.old.own (waiting ∷ self.new.own)) }
        ensures none { IfNone result (self.new.own ≡ self.old.own) }
        ensures late { IfNone result (All (λ waiting. moment ≤ waiting.moment) self.old.own) }
    {
        self.own.pop_before(moment)
    }
}
