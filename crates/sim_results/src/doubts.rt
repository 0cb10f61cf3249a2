//! Signs that a run isn't what its author meant.

ghost use Rattle.std.specs.Prelude.{◌≡◌, vec_len};

mod bounds;
mod doubt;
mod vehicles;
mod warnings;

use crate::doubts::bounds::Bounds;
use crate::doubts::vehicles::VehicleWatch;
use crate::doubts::warnings::WarningWatch;
use crate::failed_events::FailedEvents;
use cap_linklayers::airtime::air_time;
pub use doubt::{BeginDoubt, BusyChannel, Doubt, RowsApart, WarningDoubt};
use its_gnvalue::{NoMemory, Place};
use its_station::{OwnCall, OwnedGbcRequest};
use its_words::keys::Verb;
use its_world::{Entry, What, World};
use sim_scenario::events::end_of;
use sim_scenario::{Scenario, Timeline};
use sim_settings::Traffic;
use sim_simulation::{EventRecord, Note};
use std::alloc::Global;
use std::io::Write;

/// How many doubts are printed.
const MOST_LINES: usize = 20;

/// From this many vehicles on, it is doubtful that all are in range of one point.
const MANY: usize = 10;

/// From this percentage of the channel on, the traffic of one sender is doubtful.
const BUSY: u64 = 3;

/// The octets of an SHB frame without its payload: 14 of Ethernet, 4, 8 and 28 of the headers, and
/// 4 of BTP-B.
const SHB_FRAME: u32 = 58;

/// How far a file of moves was read.
#[derive(Clone, Copy, Debug, Default, PartialEq, Eq)]
pub struct MovesRead {
    /// How many lines, the first one among them.
    pub lines: u64,
    /// The time of the file in the last row.
    pub clock: u64,
}

/// What is doubtful about a run with a radio model, and what was observed up to its end.
#[derive(Drop)]
pub struct Doubts {
    alloc: Global,
    /// Whether the run has a radio model: otherwise nothing is watched.
    is_watching: bool,
    /// Whether each station is present, by its number.
    present: Vec<bool>,
    bounds: Bounds,
    warnings: WarningWatch,
    /// If stations move by a file.
    vehicles: Option<VehicleWatch>,
    found: Vec<Doubt>,
    /// Whether the run went to its end.
    is_over: bool,
}

impl Doubts {
    /// Returns the doubts of a run that has not begun: none. `NoMemory` if an allocation failed.
    pub fn new(alloc: Global, scenario: &Scenario) -> Result<Doubts, NoMemory> {
        let mut bounds = Bounds::none();
        for config in &scenario.stations {
            bounds.extend(config.place);
        }
        let (end, delay) = end_and_delay(&scenario.timeline);
        Ok(Doubts {
            alloc,
            is_watching: scenario.timeline.air().is_some(),
            present: Vec::from_slice(alloc, scenario.present.as_slice())?,
            bounds,
            warnings: WarningWatch::new(alloc, end, delay),
            vehicles: match &scenario.timeline {
                Timeline::Moves(timeline) => Some(VehicleWatch::new(alloc, scenario, timeline)?),
                _ => None,
            },
            found: Vec::new(alloc),
            is_over: false,
        })
    }

    /// Whether it needs `Note::Heard` for the frame that was just sent.
    #[inline(always)]
    pub fn wants_heard_notes(&self) -> bool {
        self.warnings.is_late()
    }

    /// Takes an event that was done, with the world after it. `failed` has taken it before.
    /// `NoMemory` if an allocation failed.
    #[inline(always)]
    pub fn take(
        &mut self,
        world: &World,
        done: &EventRecord<'_>,
        failed: &FailedEvents,
    ) -> Result<(), NoMemory> {
        if !self.is_watching {
            return Ok(());
        }
        self.warnings.take_other(done);
        match done.what {
            What::Call(OwnCall::MoveTo { place, .. }) => {
                self.take_move(done.station, done.moment, *place);
                Ok(())
            }
            What::Call(OwnCall::SendGeobroadcast(request) | OwnCall::SendGeoanycast(request)) => {
                self.take_send(world, done, request, failed)
            }
            _ => Ok(()),
        }
    }

    /// Takes the move of a station.
    fn take_move(&mut self, station: usize, moment: u64, place: Place) {
        self.bounds.extend(place);
        self.warnings.take_place(place);
        if let Some(vehicles) = &mut self.vehicles {
            vehicles.take_move(station, moment, place);
        }
    }

    /// Takes the send of a warning, if it was sent.
    fn take_send(
        &mut self,
        world: &World,
        done: &EventRecord<'_>,
        request: &OwnedGbcRequest,
        failed: &FailedEvents,
    ) -> Result<(), NoMemory> {
        let Entry::Sent(_) = done.entry else {
            return Ok(());
        };
        let event = failed.last_send().unwrap_or(done.number);
        let present = self.present.as_slice();
        self.warnings
            .take_send(world, present, done, request, event)
    }

    /// Takes a note of the run at this time in milliseconds, with the world at that time.
    /// `NoMemory` if an allocation failed.
    pub fn take_note(
        &mut self,
        world: &World,
        moment: u64,
        note: &Note<'_>,
    ) -> Result<(), NoMemory> {
        match *note {
            Note::Made { id, .. } => self.take_made(id),
            Note::Came { station } => {
                self.set_present(station, true);
                Ok(())
            }
            Note::Left { station } => {
                self.set_present(station, false);
                Ok(())
            }
            Note::Heard { .. } => {
                self.warnings.take_delivery();
                Ok(())
            }
            Note::Released { frame, .. } => {
                self.warnings.take_release(world.kept_frame(frame), moment);
                Ok(())
            }
            Note::Lost { .. } | Note::Dropped { .. } | Note::Absent { .. } => Ok(()),
        }
    }

    /// Notes that a row made a station.
    fn take_made(&mut self, id: &str) -> Result<(), NoMemory> {
        self.present.push(false)?;
        match &mut self.vehicles {
            Some(vehicles) => vehicles.take_made(id),
            None => Ok(()),
        }
    }

    /// Notes that a station arrives or departs.
    fn set_present(&mut self, station: usize, is_present: bool) {
        if let Some(present) = self.present.get_mut(station) {
            *present = is_present;
        }
    }

    /// Takes the end of the run: finds what is doubtful. `read` is how far the file of moves was
    /// read, if there is one. `NoMemory` if an allocation failed.
    pub fn end(&mut self, scenario: &Scenario, read: Option<MovesRead>) -> Result<(), NoMemory> {
        self.is_over = true;
        self.find_unknown(scenario)?;
        if !self.is_watching {
            return Ok(());
        }
        self.find_places(scenario)?;
        if let (Timeline::Moves(timeline), Some(vehicles)) = (&scenario.timeline, &self.vehicles) {
            let warning = first_warning(scenario);
            vehicles.find(timeline, read.unwrap_or_default(), warning, &mut self.found)?;
        }
        self.find_busy(&scenario.timeline)?;
        self.warnings.find(self.bounds, &mut self.found)
    }

    /// Adds the unknown keys of the scenario.
    fn find_unknown(&mut self, scenario: &Scenario) -> Result<(), NoMemory> {
        for key in &scenario.unknown {
            let sentence = format!(in self.alloc; "scenario: {key}")?;
            self.found.push(Doubt::UnknownKey(sentence))?;
        }
        Ok(())
    }

    /// Adds what is doubtful about where stations are.
    fn find_places(&mut self, scenario: &Scenario) -> Result<(), NoMemory> {
        let stations = self.present.len();
        if stations > 1 && self.bounds.are_within(1) && !self.bounds.hold_origin() {
            return Ok(self.found.push(Doubt::OnePoint { stations })?);
        }
        let (Some(air), Some(_)) = (scenario.timeline.air(), &self.vehicles) else {
            return Ok(());
        };
        let range = air.range;
        if stations < MANY || !self.warnings.has_relayed() || !self.bounds.are_within(range) {
            return Ok(());
        }
        Ok(
            self.found
                .push(Doubt::InRangeOfOnePoint { stations, range })?,
        )
    }

    /// Adds the traffic of which one sender fills much of the channel.
    fn find_busy(&mut self, timeline: &Timeline) -> Result<(), NoMemory> {
        for (every, traffic) in traffic_of(timeline).iter().enumerate() {
            let (period, percent) = (traffic.period, busy_percent(traffic));
            if percent >= BUSY {
                let busy = BusyChannel {
                    every,
                    period,
                    percent,
                };
                self.found.push(Doubt::BusyChannel(busy))?;
            }
        }
        Ok(())
    }

    /// Returns what is doubtful, once the run has ended.
    pub fn found(&self) -> &[Doubt] {
        self.found.as_slice()
    }

    /// Whether the end of the run cut off deliveries of a warning, by its number among the sent
    /// warnings, from 0.
    pub fn is_cut(&self, send: usize) -> bool {
        self.is_over && self.warnings.is_cut(send)
    }

    /// Prints a line for each of the first 20 on standard error, and one with the number of the
    /// others, if there are any. Unknown keys have theirs before the run. A write that fails is
    /// ignored.
    pub fn report<E: Write>(&self, err: &mut E)
        ensures none { vec_len self.now.found ≡ 0 → err.new ≡ err.old }
    {
        if self.found.is_empty() {
            return;
        }
        let mut others = 0_usize;
        let mut lines = 0_usize;
        for doubt in &self.found {
            if matches!(doubt, Doubt::UnknownKey(_)) {
                continue;
            }
            if lines < MOST_LINES {
                lines += 1;
                let _ = writeln!(err, "geostation: {doubt}");
            } else {
                others = others.saturating_add(1);
            }
        }
        if others > 0 {
            let _ = writeln!(err, "geostation: {others} more doubts about the run");
        }
    }
}

/// Returns the last time of a run, if it is known before the run, and the delay of its frames.
fn end_and_delay(timeline: &Timeline) -> (Option<u64>, u16) {
    match timeline {
        Timeline::Plain(_) => (None, 0),
        Timeline::Air(timeline) => (
            Some(end_of(&timeline.air, timeline.events.as_slice())),
            timeline.air.delay,
        ),
        Timeline::Moves(timeline) => (timeline.air.until, timeline.air.delay),
    }
}

/// Returns what stations send periodically.
fn traffic_of(timeline: &Timeline) -> &[Traffic] {
    match timeline {
        Timeline::Plain(_) => &[],
        Timeline::Air(timeline) => timeline.every.as_slice(),
        Timeline::Moves(timeline) => timeline.every.as_slice(),
    }
}

/// Returns the percentage of the channel that one sender takes, rounded down.
fn busy_percent(traffic: &Traffic) -> u64 {
    let octets = SHB_FRAME + u32::from(traffic.octets);
    air_time(octets) / (10 * u64::from(traffic.period))
}

/// Returns the first time at which an event of a scenario with moves sends a warning.
fn first_warning(scenario: &Scenario) -> Option<u64> {
    let Timeline::Moves(timeline) = &scenario.timeline else {
        return None;
    };
    let mut first = None;
    for event in &timeline.events {
        if matches!(event.action.verb(), Verb::Gbc | Verb::Gac) {
            first = Some(event.moment.min(first.unwrap_or(u64::MAX)));
        }
    }
    first
}
