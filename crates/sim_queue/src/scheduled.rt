//! What a radio model does by itself, and when.

ghost use Rattle.std.specs.Prelude.{◌≡◌, ◌≤◌, ◌^◌, ℕ, Some, IfOk, IfSome, IfNone};
ghost use Rattle.std.specs.BinaryHeap.{lt_by_cmp};
ghost use Rattle.std.specs.Prelude.{nat_eq};
ghost use Rattle.std.specs.Cmp.{partial_order_from_own_ties};
ghost use Rattle.std.specs.Cmp.Rules.{comparing};
ghost use Rattle.std.specs.Ordering.{nat_cmp, on, flip_args, then_cmp, as_partial_cmp, eq_of_both};
ghost use Rattle.std.proofs.Common.{rules};
ghost use Rattle.sim_air_model.specs.Timetable.{is_delivery, is_numbered};
ghost use Rattle.sim_queue.specs.Counted.{is_of_kind, kind_in};
ghost use Rattle.sim_queue.specs.Traffics.{traffic_in};
ghost use Rattle.sim_queue.specs.Waiting.{delivery_of, happening_of, own_of, waiting_cmp};
ghost use Rattle.its_world.specs.Events.{event_of, what_of, IsInRange};

use crate::kinds::Kind;
use its_station::{OwnCall, OwnedShbRequest};
use its_world::{Event, What};
use sim_settings::Traffic;
use std::alloc::{AllocError, Global};
use std::cmp::Ordering;

/// What a radio model does by itself.
#[derive(Clone, Copy, Debug)]
pub enum AirAction {
    /// A tick with this jitter.
    Tick(u16),
    /// The delivery of the frame of this number.
    Deliver(usize),
    /// A send of the traffic of this number.
    Send(usize, Traffic),
}

impl AirAction {
    /// Whether it is a delivery.
    pub fn is_delivery(&self) -> bool
        ensures { result ≡ is_delivery (own_of self.now) }
    {
        matches!(self, AirAction::Deliver(_))
    }

    /// Whether it is of this kind.
    pub(crate) fn is_of(&self, kind: Kind) -> bool
        ensures { result ≡ is_of_kind kind self.now }
    {
        match kind {
            Kind::Tick => matches!(self, AirAction::Tick(_)),
            Kind::Send(number) => self.is_send_of(number),
        }
    }

    /// Whether it is a send of the traffic of this number.
    fn is_send_of(&self, number: usize) -> bool
        ensures { result ≡ is_numbered number (traffic_in self.now) }
    {
        match self {
            AirAction::Send(of, _) => *of == number,
            _ => false,
        }
    }

    /// Returns the number of its kind, if the kind is counted: 0 for a tick, one more than the
    /// number of the traffic for a send.
    pub(crate) fn kind(&self) -> Option<usize>
        ensures kind { IfSome result (λ kind. kind_in self.now ≡ Some kind) }
        ensures none { IfNone result ((kind : ℕ) → kind_in self.now ≡ Some kind → 2 ^ 64 ≤ kind) }
    {
        match self {
            AirAction::Tick(_) => Some(0),
            AirAction::Deliver(_) => None,
            AirAction::Send(number, _) => number.checked_add(1),
        }
    }

    /// Returns what happens in the world.
    fn what(&self, alloc: Global) -> Result<What, AllocError>
        ensures what { IfOk result (λ what. what_of what ≡ own_of self.now) }
        ensures range { IfOk result IsInRange }
    {
        Ok(match self {
            AirAction::Tick(jitter) => What::Call(OwnCall::Tick(*jitter)),
            AirAction::Deliver(frame) => What::Deliver(*frame),
            AirAction::Send(_, traffic) => What::Call(OwnCall::SendShb(OwnedShbRequest {
                port: traffic.port,
                info: traffic.info,
                class: traffic.class,
                payload: vec![in alloc; 0u8; usize::from(traffic.octets)]?,
            })),
        })
    }
}

/// An event that a radio model planned. The first one is the greatest: the one with the earlier
/// time, and at one time the one that was put earlier.
#[derive(Clone, Copy, Debug)]
pub struct Scheduled {
    /// The time, in milliseconds.
    pub moment: u64,
    /// How many events were put before it.
    pub place: u64,
    /// The station.
    pub station: usize,
    /// What it does.
    pub own: AirAction,
}

impl PartialEq for Scheduled {
    ghost eq = { eq_of_both (on (λ w. w.moment) nat_eq) (on (λ w. w.place) nat_eq) };

    ghost laws = { Prim.search (comparing, rules) };

    fn eq(&self, other: &Scheduled) -> bool {
        self.moment == other.moment && self.place == other.place
    }
}

impl Eq for Scheduled {
    ghost laws = { Prim.search (comparing, rules) };
}

impl Ord for Scheduled {
    ghost cmp = { then_cmp (flip_args (on (λ w. w.moment) nat_cmp))
        (flip_args (on (λ w. w.place) nat_cmp)) };

    ghost total = { Prim.search (comparing, rules) };

    ghost matches_partial_cmp = { Prim.search (comparing, rules) };

    ghost matches_eq = { Prim.search (comparing, rules) };

    fn cmp(&self, other: &Scheduled) -> Ordering {
        other
            .moment
            .cmp(&self.moment)
            .then(other.place.cmp(&self.place))
    }
}

impl PartialOrd for Scheduled {
    ghost partial_cmp = { as_partial_cmp (then_cmp (flip_args (on (λ w. w.moment) nat_cmp))
        (flip_args (on (λ w. w.place) nat_cmp))) };

    ghost laws = { partial_order_from_own_ties (Prim.search (comparing, rules))
        (Prim.search (comparing, rules)) };

    fn partial_cmp(&self, other: &Scheduled) -> Option<Ordering> {
        Some(self.cmp(other))
    }
}

impl Scheduled {
    /// Returns the event of the world.
    pub fn event(&self, alloc: Global) -> Result<Event, AllocError>
        ensures event { IfOk result (λ event. event_of event ≡ happening_of self.now) }
        ensures range { IfOk result (λ event. IsInRange event.what) }
    {
        Ok(Event {
            station: self.station,
            moment: self.moment,
            what: self.own.what(alloc)?,
        })
    }
}

/// A delivery that is in the line.
#[derive(Clone, Copy, Debug)]
pub struct Delivery {
    /// The time, in milliseconds.
    pub moment: u64,
    /// How many events were put before it.
    pub place: u64,
    /// The station that receives the frame.
    pub station: usize,
    /// The number of the frame.
    pub frame: usize,
}

impl Delivery {
    /// Whether it is taken before an event with this time, before which `place` events were put.
    pub(crate) fn is_before(&self, moment: u64, place: u64) -> bool
        ensures { (w : Scheduled) → w.moment ≡ moment → w.place ≡ place →
            result ≡ lt_by_cmp waiting_cmp w (delivery_of self.now) }
    {
        if self.moment == moment {
            self.place < place
        } else {
            self.moment < moment
        }
    }

    /// Returns the delivery in the form in which ticks and sends wait.
    pub(crate) fn scheduled(&self) -> Scheduled
        ensures { result ≡ delivery_of self.now }
    {
        Scheduled {
            moment: self.moment,
            place: self.place,
            station: self.station,
            own: AirAction::Deliver(self.frame),
        }
    }

    /// Returns the event of the world.
    pub fn event(&self) -> Event
        ensures event { event_of result ≡ happening_of (delivery_of self.now) }
        ensures range { IsInRange result.what }
    {
        Event {
            station: self.station,
            moment: self.moment,
            what: What::Deliver(self.frame),
        }
    }
}
