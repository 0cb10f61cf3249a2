//! Contention in a run: the frames that its stations hold, and when these go out.

ghost use Rattle.std.specs.Prelude.{◌≡◌, ◌≤◌, ◌^◌, false, None, IfOk, IfSome};
ghost use Rattle.std.specs.BinaryHeap.{IsHeap, heap_items};
ghost use Rattle.std.specs.Ordering.{nat_cmp, on, flip_args, then_cmp};
ghost use Rattle.std.proofs.Props.{props};
ghost use Rattle.sim_air.specs.Contenders.{NoneContends};

use crate::due_frames::DueFrame;
use crate::kept_frames::KeptFrames;
use its_contention::{ContentionRule, HeldFrames, contends_for, due_of};
use its_gnvalue::{Mac, NoMemory};
use its_linkframe::{FrameView, is_copy, read_frame};
use its_station::{LAST_MOMENT, ReceivedFrame, Why};
use its_world::{Entry, Event, What, World};
use sim_simulation::{Contending, ContentionStep, SimulationFault};
use std::alloc::{AllocError, Global};
use std::collections::BinaryHeap;

/// What the station of the last event did with frames.
#[derive(Clone, Copy, Debug)]
enum LastStep {
    Nothing,
    /// It holds the frame that it would send until this time, in milliseconds.
    Holds(u64),
    /// It no longer holds those in `left`, since enough other stations have sent them.
    Cancels,
    /// It no longer holds those in `left`, since it restarted.
    Drops,
}

/// The frames that the stations of a run hold.
#[derive(Drop)]
pub(crate) struct Contentions {
    alloc: Global,
    rule: ContentionRule,
    /// The numbers of the frames that each station holds, by its number. `None` if it doesn't
    /// contend.
    stations: Vec<Option<HeldFrames<usize>>>,
    /// All held frames, and some that are no longer held. The first one is held.
    due: BinaryHeap<DueFrame>,
    kept: KeptFrames,
    last: LastStep,
    /// The frames that the station of the last event no longer holds, in the order in which they
    /// were held.
    left: Vec<usize>,
    ghost ordered: { IsHeap (then_cmp (flip_args (on (λ d. d.moment) nat_cmp))
        (flip_args (on (λ d. d.frame) nat_cmp))) (heap_items due) } by { Prim.hlevel props },
}

impl Contentions {
    /// No frame is held. `contend` says which stations contend, by their numbers, and `rows_contend`
    /// whether stations that rows make do. `None` if no station contends.
    pub(crate) fn new(
        alloc: Global,
        rule: ContentionRule,
        contend: &[bool],
        rows_contend: bool,
    ) -> Result<Option<Contentions>, NoMemory>
        ensures none { rows_contend ≡ false → NoneContends contend.now →
            IfOk result (λ contentions. contentions ≡ None) }
    {
        if !any_contends(contend, rows_contend) {
            return Ok(None);
        }
        let mut contentions = Contentions {
            alloc,
            rule,
            stations: Vec::new(alloc),
            due: BinaryHeap::new(alloc),
            kept: KeptFrames::new(alloc),
            last: LastStep::Nothing,
            left: Vec::new(alloc),
        };
        for contends in contend {
            contentions.add_station(*contends)?;
        }
        Ok(Some(contentions))
    }

    /// Adds a station, with the next number.
    fn add_station(&mut self, contends: bool) -> Result<(), NoMemory> {
        let held = if contends {
            Some(HeldFrames::new(self.alloc, self.rule)?)
        } else {
            None
        };
        self.stations.push(held)?;
        Ok(())
    }

    /// When a frame is due next, in milliseconds. No frame is released after 2^62 ms.
    pub(crate) fn next_due(&self) -> Option<u64>
        ensures { IfSome result (λ due. due ≤ 2 ^ 62) }
    {
        let moment = self.due.peek()?.moment;
        if moment <= LAST_MOMENT {
            Some(moment)
        } else {
            None
        }
    }

    /// Takes out the frame that is released next: of those that are due first the one that was held
    /// first. Its deliveries come this many milliseconds later.
    pub(crate) fn take_due(&mut self, delay: u64) -> Option<DueFrame>
        ensures { IfSome result (λ due. due.moment ≤ 2 ^ 62) }
    {
        let moment = self.next_due()?;
        let station = self.due.pop()?.station;
        let held = held_of(&mut self.stations, station)?;
        let frame = held.take_due(moment)?;
        self.kept.release(frame, moment.saturating_add(delay));
        self.skip_left();
        Some(DueFrame {
            moment,
            frame,
            station,
        })
    }

    /// Whether the station of the last event holds the frame that it would send.
    pub(crate) fn holds_last(&self) -> bool {
        matches!(self.last, LastStep::Holds(_))
    }

    /// The frames that the station of the last event dropped, since it restarted.
    pub(crate) fn dropped(&self) -> &[usize] {
        match self.last {
            LastStep::Drops => self.left.as_slice(),
            _ => &[],
        }
    }

    /// Has a station hold the frame in which it forwards what it received, if the rule says so and
    /// the station has room.
    fn hold(
        &mut self,
        world: &World,
        event: &Event,
        received: usize,
        given: usize,
    ) -> Result<(), AllocError> {
        let Some(held) = held_of(&mut self.stations, event.station) else {
            return Ok(());
        };
        let Some(due) = due_at(self.rule, world, event, received) else {
            return Ok(());
        };
        if !held.has_room() {
            held.note_full();
            return Ok(());
        }
        held.hold(given, due);
        self.kept.hold(given)?;
        self.due.push(DueFrame {
            moment: due,
            frame: given,
            station: event.station,
        })?;
        self.last = LastStep::Holds(due);
        Ok(())
    }

    /// Passes a station that contends a duplicate, which may cancel frames that it holds.
    fn hear(&mut self, world: &World, station: usize, received: usize) -> Result<(), AllocError> {
        let Some(held) = held_of(&mut self.stations, station) else {
            return Ok(());
        };
        let (Some(own), Some(octets)) = (mid_of(world, station), world.kept_frame(received)) else {
            return Ok(());
        };
        let Some(packet) = view_of(world, received) else {
            return Ok(());
        };
        let cancelled = held.hear(packet.sender(), |number| {
            match world.kept_frame(*number) {
                Some(held) => is_copy(held, octets, own),
                None => false,
            }
        });
        if cancelled > 0 {
            self.last = LastStep::Cancels;
            self.take_left(station)?;
        }
        Ok(())
    }

    /// Drops all frames of a station that restarted.
    fn drop_all(&mut self, station: usize) -> Result<(), AllocError> {
        let Some(held) = held_of(&mut self.stations, station) else {
            return Ok(());
        };
        held.clear();
        self.last = LastStep::Drops;
        self.take_left(station)
    }

    /// Takes the frames that a station has just ceased to hold.
    fn take_left(&mut self, station: usize) -> Result<(), AllocError> {
        let Some(held) = held_of(&mut self.stations, station) else {
            return Ok(());
        };
        for _ in 0..MOST_HELD {
            let Some(number) = held.next_left() else {
                break;
            };
            self.kept.forget(number);
            self.left.push(number)?;
        }
        self.skip_left();
        Ok(())
    }

    /// Removes frames that are no longer held from the front of those that are due.
    fn skip_left(&mut self) {
        for _ in 0..self.due.len() {
            match self.due.peek() {
                Some(first) if !self.kept.is_held(first.frame) => {}
                _ => return,
            }
            self.due.pop();
        }
    }
}

impl Contending for Contentions {
    fn take(&mut self, world: &World, event: &Event, entry: &Entry) -> Result<(), SimulationFault> {
        self.last = LastStep::Nothing;
        self.left.clear();
        match (&event.what, entry) {
            (
                What::Deliver(frame),
                Entry::Accepted {
                    sent: Some(sent),
                    ..
                },
            ) => {
                self.hold(world, event, *frame, *sent)?;
            }
            (What::Deliver(frame), Entry::Ignored(Why::Duplicate)) => {
                self.hear(world, event.station, *frame)?;
            }
            (What::Call(_), Entry::Restarted) => self.drop_all(event.station)?,
            _ => {}
        }
        Ok(())
    }

    fn step(&self) -> Option<ContentionStep<'_>> {
        match self.last {
            LastStep::Holds(due) => Some(ContentionStep::Waits(due)),
            LastStep::Cancels => Some(ContentionStep::Cancels(self.left.as_slice())),
            LastStep::Nothing | LastStep::Drops => None,
        }
    }
}

/// Whether any station contends.
#[tactic(auto, using(crate::proofs::Contending::none_found))]
fn any_contends(contend: &[bool], rows_contend: bool) -> bool
    ensures { rows_contend ≡ false → NoneContends contend.now → result ≡ false }
{
    rows_contend || contend.contains(&true)
}

/// Adds a station, with the next number, to a run in which any station contends.
pub(crate) fn add_contender(
    contentions: &mut Option<Contentions>,
    contends: bool,
) -> Result<(), NoMemory>
    ensures none { contentions.old ≡ None → contentions.new ≡ None }
{
    match contentions {
        Some(contentions) => contentions.add_station(contends),
        None => Ok(()),
    }
}

/// The lowest number of a frame that has to be kept when an event of this time is done, since a
/// station holds it or its deliveries are to come. The greatest `usize` if there is no such frame.
pub(crate) fn lowest_kept(contentions: &mut Option<Contentions>, moment: u64) -> usize
    ensures none { contentions.old ≡ None → contentions.new ≡ None }
{
    match contentions {
        Some(contentions) => contentions.kept.lowest(moment),
        None => usize::MAX,
    }
}

/// How many frames a station holds at most.
const MOST_HELD: usize = 64;

/// The frames that a station holds, if it contends.
fn held_of(
    stations: &mut Vec<Option<HeldFrames<usize>>>,
    station: usize,
) -> Option<&mut HeldFrames<usize>> {
    stations.as_mut_slice().get_mut(station)?.as_mut()
}

/// Returns when a station has to forward a packet whose frame it received with an event and
/// accepted. `None` if it is forwarded at once.
fn due_at(rule: ContentionRule, world: &World, event: &Event, received: usize) -> Option<u64> {
    let station = world.station(event.station)?;
    let packet = view_of(world, received)?;
    if contends_for(station, &packet) {
        Some(due_of(rule, event.moment, station, &packet))
    } else {
        None
    }
}

/// The link address of a station.
fn mid_of(world: &World, station: usize) -> Option<Mac> {
    Some(world.station(station)?.address().mid())
}

/// A frame that the world keeps, as it is read.
fn view_of(world: &World, frame: usize) -> Option<FrameView<'_>> {
    read_frame(world.kept_frame(frame)?).ok()
}
