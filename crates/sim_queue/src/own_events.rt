//! The events that wait: deliveries in a line, all others on a heap.

ghost use Rattle.std.specs.Prelude.{◌≡◌, ◌≤◌, ◌<◌, ◌∷◌, [], All, ◌==◌, count_by};
ghost use Rattle.std.specs.Prelude.{IfSome, IfNone, OnOk, OnErr, IsTrue, false};
ghost use Rattle.std.specs.BinaryHeap.{IsHeap, IsUpperBound, heap_items};
ghost use Rattle.std.specs.List.Sorted.{IsPermutation};
ghost use Rattle.sim_queue.specs.Counted.{is_of_kind_at};
ghost use Rattle.sim_queue.specs.Line.{StandInLine, IsBehind, IsLineFirst, IsHeapFirst, IsLate};
ghost use Rattle.sim_queue.specs.Line.{IsFrontLate};
ghost use Rattle.sim_queue.specs.Waiting.{is_tick_at, is_send_at, waiting_cmp};
ghost use Rattle.sim_queue.specs.Waiting.{delivery_of, in_line};

use crate::fault::QueueFault;
use crate::kinds::{Counts, Kind};
use crate::receivers::{MOST_RECEIVERS, Receivers};
use crate::scheduled::{AirAction, Delivery, Scheduled};
use std::alloc::Global;
use std::collections::{BinaryHeap, VecDeque};
use std::marker::Model;

/// The events that wait. All deliveries of a frame have one time, and a frame that is sent later is
/// not delivered earlier. So deliveries are in a line, in the order in which they are taken, and
/// need no search. Ticks and sends come in any order.
#[derive(Debug, Drop)]
pub struct OwnEvents {
    /// Ticks and sends, and each delivery that can't go to the end of the line.
    heap: BinaryHeap<Scheduled>,
    /// Deliveries, in the order in which they are taken.
    line: VecDeque<Delivery>,
    /// How many of each kind wait at each station. The line has none that are counted.
    counts: Counts,
}

impl Model for OwnEvents {
    ghost use Rattle.std.specs.Prelude.{List, ◌++◌};
    ghost use Rattle.std.specs.BinaryHeap.{heap_items};
    ghost use Rattle.sim_queue.specs.Line.{AreInOrder};
    ghost use Rattle.sim_queue.specs.Waiting.{in_line};
    ghost use Rattle.sim_queue.specs.declared.scheduled.Scheduled.{Scheduled};

    ghost Value = { List Scheduled };

    ghost view = { λ own. heap_items own.heap ++ in_line own.line.items };

    ghost invariant = { λ own. AreInOrder (heap_items own.heap) (in_line own.line.items)
        own.counts.kinds own.counts.each.items };
}

impl OwnEvents {
    /// Returns an empty set of events. This number of kinds is counted.
    pub fn new(alloc: Global, kinds: usize) -> OwnEvents
        ensures { result ≡ [] }
    {
        OwnEvents {
            heap: BinaryHeap::new(alloc),
            line: VecDeque::new(alloc),
            counts: Counts::new(alloc, kinds),
        }
    }

    /// Puts what a station does at a time on the heap. `place` is the number of events that were
    /// put before. An event is counted only after memory for it was reserved, so that each one that
    /// is counted waits.
    pub fn push(
        &mut self,
        moment: u64,
        place: u64,
        station: usize,
        own: AirAction,
    ) -> Result<(), QueueFault>
        ensures put { OnOk result (IsPermutation (record {
          moment = moment;
          place = place;
          station = station;
          own = own;
        } ∷ self.old) self.new) }
        ensures unchanged { OnErr result (self.new ≡ self.old) }
    {
        let event = Scheduled {
            moment,
            place,
            station,
            own,
        };
        self.heap.reserve(1)?;
        self.counts.add(&event)?;
        self.heap.push(event)?;
        Ok(())
    }

    /// Puts a delivery: at the end of the line if it is taken after all that are there, otherwise
    /// on the heap.
    #[inline(always)]
    pub fn push_delivery(&mut self, delivery: Delivery) -> Result<(), QueueFault>
        ensures put { OnOk result (IsPermutation (delivery_of delivery ∷ self.old) self.new) }
        ensures unchanged { OnErr result (self.new ≡ self.old) }
    {
        if is_behind(&self.line, &delivery) {
            self.line.push_back(delivery)?;
            Ok(())
        } else {
            let own = AirAction::Deliver(delivery.frame);
            self.push(delivery.moment, delivery.place, delivery.station, own)
        }
    }

    /// Returns the stations that receive the frame of a delivery that was just taken: its own, and
    /// those of the deliveries that come next in line.
    pub fn receivers(&self, delivery: &Delivery) -> Receivers {
        let mut receivers = Receivers::none();
        receivers.add(delivery.station);
        for next in self.line.iter().take(MOST_RECEIVERS - 1) {
            if next.frame != delivery.frame {
                break;
            }
            receivers.add(next.station);
        }
        receivers
    }

    /// Takes the first event if it is a delivery in the line, and its time is before this one.
    ///
    /// - `first`, `left`, `before`, `none`: if it takes a delivery, that is what `pop_before` would
    ///   take; otherwise it takes nothing.
    #[inline(always)]
    pub fn pop_delivery_before(&mut self, moment: u64) -> Option<Delivery>
        ensures before { IfSome result (λ delivery. delivery.moment < moment) }
        ensures first { IfSome result (λ delivery.
            IsUpperBound waiting_cmp (delivery_of delivery) self.new) }
        ensures left { IfSome result (λ delivery.
            IsPermutation self.old (delivery_of delivery ∷ self.new)) }
        ensures none { IfNone result (self.new ≡ self.old) }
    {
        if is_line_first(&self.heap, &self.line) {
            pop_line(&mut self.line, moment)
        } else {
            None
        }
    }

    /// Takes the first event, if its time is before this one.
    ///
    /// - `first`, `left`, `before`, `none`, `late`: it takes what comes first of all that waits, by
    ///   time and then by the order of putting. That is before the given time. If nothing that
    ///   waits is before that time, it takes nothing.
    pub fn pop_before(&mut self, moment: u64) -> Option<Scheduled>
        ensures before { IfSome result (λ event. event.moment < moment) }
        ensures first { IfSome result (λ event. IsUpperBound waiting_cmp event self.new) }
        ensures left { IfSome result (λ event. IsPermutation self.old (event ∷ self.new)) }
        ensures none { IfNone result (self.new ≡ self.old) }
        ensures late { IfNone result (All (λ event. moment ≤ event.moment) self.old) }
    {
        if is_line_first(&self.heap, &self.line) {
            let delivery = pop_line(&mut self.line, moment)?;
            Some(delivery.scheduled())
        } else {
            let event = pop_heap(&mut self.heap, moment)?;
            self.counts.remove(&event);
            Some(event)
        }
    }

    /// Whether no tick waits at a station.
    pub fn has_no_tick(&self, station: usize) -> bool
        ensures { result ≡ (count_by (is_tick_at station) self.now == 0) }
    {
        self.has_none(Kind::Tick, station)
    }

    /// Whether no send of the traffic with this number waits at a station.
    pub fn has_no_send(&self, number: usize, station: usize) -> bool
        ensures { result ≡ (count_by (is_send_at number station) self.now == 0) }
    {
        self.has_none(Kind::Send(number), station)
    }

    /// Whether no event of a kind waits at a station. Searches the heap if the kind isn't counted.
    fn has_none(&self, kind: Kind, station: usize) -> bool
        ensures { result ≡ (count_by (is_of_kind_at kind station) self.now == 0) }
    {
        match self.counted(kind, station) {
            Some(count) => count == 0,
            None => count_of(self.heap.as_slice(), kind, station) == 0,
        }
    }

    /// Returns how many of a kind wait at a station, if they are counted.
    fn counted(&self, kind: Kind, station: usize) -> Option<usize>
        ensures { IfSome result (λ count.
            count ≡ count_by (is_of_kind_at kind station) self.now) }
    {
        self.counts.get(kind.number()?, station)
    }
}

/// Whether a delivery is taken after all that are in the line.
#[inline(always)]
fn is_behind(line: &VecDeque<Delivery>, delivery: &Delivery) -> bool
    requires { StandInLine (in_line line.now.items) }
    ensures { IsTrue result → IsBehind (delivery_of delivery.now) (in_line line.now.items) }
{
    match line.back() {
        Some(last) => !delivery.is_before(last.moment, last.place),
        None => true,
    }
}

/// Whether the first event that is taken is in the line, and not on the heap.
#[inline(always)]
fn is_line_first(heap: &BinaryHeap<Scheduled>, line: &VecDeque<Delivery>) -> bool
    requires heap { IsHeap waiting_cmp (heap_items heap.now) }
    requires line { StandInLine (in_line line.now.items) }
    ensures line { IsTrue result → IsLineFirst (heap_items heap.now) (in_line line.now.items) }
    ensures heap { result ≡ false → IsHeapFirst (heap_items heap.now) (in_line line.now.items) }
{
    let Some(in_line) = line.front() else {
        return false;
    };
    match heap.peek() {
        Some(on_heap) => in_line.is_before(on_heap.moment, on_heap.place),
        None => true,
    }
}

/// Takes the first in the line, if its time is before this one.
#[inline(always)]
fn pop_line(line: &mut VecDeque<Delivery>, moment: u64) -> Option<Delivery>
    ensures taken { IfSome result (λ first. line.old.items ≡ first ∷ line.new.items) }
    ensures before { IfSome result (λ first. first.moment < moment) }
    ensures none { IfNone result (line.new.items ≡ line.old.items) }
    ensures late { IfNone result (IsFrontLate moment (in_line line.old.items)) }
{
    match line.front() {
        Some(first) if first.moment < moment => line.pop_front(),
        _ => None,
    }
}

/// Takes the first on the heap, if its time is before this one.
fn pop_heap(heap: &mut BinaryHeap<Scheduled>, moment: u64) -> Option<Scheduled>
    requires { IsHeap waiting_cmp (heap_items heap.old) }
    ensures order { IsHeap waiting_cmp (heap_items heap.new) }
    ensures taken { IfSome result (λ event.
        IsPermutation (heap_items heap.old) (event ∷ heap_items heap.new)) }
    ensures before { IfSome result (λ event. event.moment < moment) }
    ensures first { IfSome result (λ event. IsUpperBound waiting_cmp event (heap_items heap.old)) }
    ensures rest { IfSome result (λ event. IsUpperBound waiting_cmp event (heap_items heap.new)) }
    ensures none { IfNone result (heap_items heap.new ≡ heap_items heap.old) }
    ensures late { IfNone result (IsLate moment (heap_items heap.old)) }
{
    let Some(first) = heap.peek() else {
        return None;
    };
    if first.moment < moment {
        heap.pop()
    } else {
        None
    }
}

/// Returns how many of these are of a kind, at a station.
fn count_of(own: &[Scheduled], kind: Kind, station: usize) -> usize
    ensures count { result ≡ count_by (is_of_kind_at kind station) own.now }
{
    let mut count = 0;
    for event in own {
        if event.own.is_of(kind) && event.station == station {
            count += 1;
        }
    }
    count
}
