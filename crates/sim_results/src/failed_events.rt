//! Events of a scenario that weren't run, and sends of it that were refused.

ghost use Rattle.std.specs.Prelude.{◌≡◌, ◌↔◌, IfOk, IfSome, IsTrue, OnOk, Some, if◌then◌else◌, true};
ghost use Rattle.sim_results.specs.FailedEvents.{Adds, IsAsked, IsListed, IsNextSend, is_absent};
ghost use Rattle.sim_results.specs.FailedEvents.{is_absent_send, is_send, next_send};
ghost use Rattle.sim_scenario.specs.Verbs.{action_verb};
ghost use Rattle.its_station.specs.Counting.{one_more};
ghost use Rattle.its_world.specs.Entries.{was_done};

use crate::late_events::{WhyLate, late_events};
use cmd_quoting::OneLine;
use its_gnvalue::NoMemory;
use its_station::Answer;
use its_words::frames::Explanation;
use its_words::keys::Verb;
use its_world::{EntryFault, Event};
use sim_scenario::events::{AddressedEvent, verb_of};
use sim_scenario::{Scenario, Timeline};
use sim_simulation::{EntryReason, EventRecord, Note};
use std::alloc::Global;
use std::io::Write;
use std::{fmt, io};

/// How many events are printed.
const MOST_LINES: usize = 20;

/// What is known about a vehicle that isn't there.
#[derive(Clone, Copy)]
enum MissingVehicle {
    /// It was there before, and has left.
    HasLeft,
    /// It first arrives at this time, in milliseconds.
    Comes(u64),
    /// It doesn't arrive in the run.
    NeverComes,
}

impl fmt::Display for MissingVehicle {
    fn fmt<W: fmt::Write>(&self, f: &mut fmt::Formatter<W>) -> fmt::Result {
        match self {
            MissingVehicle::HasLeft => f.write_str("it has left"),
            MissingVehicle::Comes(moment) => write!(f, "it comes at {moment} ms"),
            MissingVehicle::NeverComes => f.write_str("it never comes"),
        }
    }
}

/// Why an event wasn't run, or its packet wasn't sent.
#[derive(Drop)]
enum Failure {
    /// The vehicle with its id isn't there.
    NoVehicle(String, MissingVehicle),
    /// The run doesn't reach it.
    Late(WhyLate),
    /// The station refused to send.
    Refused(EntryFault),
}

/// An event of a scenario that wasn't run, or whose packet wasn't sent. It prints as its line.
#[derive(Drop)]
struct FailedEvent {
    number: usize,
    moment: u64,
    why: Failure,
}

impl fmt::Display for FailedEvent {
    fn fmt<W: fmt::Write>(&self, f: &mut fmt::Formatter<W>) -> fmt::Result {
        let (number, moment) = (self.number, self.moment);
        match &self.why {
            Failure::NoVehicle(id, _) => {
                let id = OneLine(id.as_str());
                write!(f, "event {number}: no vehicle '{id}' at {moment} ms")
            }
            Failure::Late(WhyLate::AfterUntil(until)) => {
                write!(
                    f,
                    "event {number}: {moment} ms is after the run, which ends at {until} ms"
                )
            }
            Failure::Late(WhyLate::CutShort) => {
                write!(
                    f,
                    "event {number}: not run at {moment} ms: the run was cut short"
                )
            }
            Failure::Refused(fault) => {
                write!(f, "event {number}: refused {} at {moment} ms", fault.code())
            }
        }
    }
}

impl FailedEvent {
    /// Prints its line. With `explain` it ends with an explanation in parentheses.
    fn write<E: Write>(&self, explain: bool, err: &mut E) -> io::Result<()> {
        write!(err, "geostation: {self}")?;
        match &self.why {
            Failure::NoVehicle(_, vehicle) => {
                write!(err, "{}", Explanation(explain.then_some(*vehicle)))?;
            }
            Failure::Refused(fault) => {
                write!(
                    err,
                    "{}",
                    Explanation(explain.then_some(EntryReason(*fault)))
                )?;
            }
            Failure::Late(_) => {}
        }
        writeln!(err)
    }

    /// A vehicle comes first at this moment.
    fn note_coming(&mut self, id: &str, moment: u64) {
        if let Failure::NoVehicle(name, vehicle) = &mut self.why {
            if matches!(vehicle, MissingVehicle::NeverComes) && name.as_str() == id {
                *vehicle = MissingVehicle::Comes(moment);
            }
        }
    }
}

/// Whether a station sends a packet with a payload by this keyword.
fn is_send(verb: Verb) -> bool
    ensures { result ≡ is_send verb }
{
    matches!(verb, Verb::Shb | Verb::Gbc | Verb::Gac)
}

/// A send that the scenario asks for.
#[derive(Clone, Copy)]
struct AskedSend {
    number: usize,
    moment: u64,
    /// Its station, if the event names it by its number.
    station: Option<usize>,
    verb: Verb,
}

impl AskedSend {
    /// Returns the send of this event of the world, which has this number.
    fn of_event(number: usize, event: &Event) -> AskedSend {
        AskedSend {
            number,
            moment: event.moment,
            station: Some(event.station),
            verb: verb_of(&event.what),
        }
    }

    /// Returns the send of this event of a scenario with moves.
    fn of_addressed(event: &AddressedEvent) -> AskedSend {
        AskedSend {
            number: event.number,
            moment: event.moment,
            station: event.station(),
            verb: event.action.verb(),
        }
    }

    /// Whether an event that was done is this send. Periodic traffic of the same time comes after
    /// it.
    fn is(&self, done: &EventRecord<'_>) -> bool
        ensures { IsTrue result ↔ IsAsked self.now done.now }
    {
        done.moment == self.moment && verb_of(done.what) == self.verb && self.is_at(done.station)
    }

    /// Whether the send may be from the station with this number.
    fn is_at(&self, station: usize) -> bool
        ensures { IsTrue result ↔ IfSome self.now.station (λ own. own ≡ station) }
    {
        match self.station {
            Some(own) => own == station,
            None => true,
        }
    }
}

/// Returns the sends that a timeline asks for, in the order in which they are run.
fn asked_sends(alloc: Global, timeline: &Timeline) -> Result<Vec<AskedSend>, NoMemory> {
    let mut sends = Vec::new(alloc);
    match timeline {
        Timeline::Plain(timeline) => {
            for (number, event) in timeline.events.iter().enumerate() {
                push_send(&mut sends, AskedSend::of_event(number, event))?;
            }
            return Ok(sends);
        }
        Timeline::Air(timeline) => {
            for (number, filed) in timeline.events.iter().enumerate() {
                if let Some(event) = filed.event() {
                    push_send(&mut sends, AskedSend::of_event(number, event))?;
                }
            }
        }
        Timeline::Moves(timeline) => {
            for event in &timeline.events {
                push_send(&mut sends, AskedSend::of_addressed(event))?;
            }
        }
    }
    sends.sort_by_key(|send| send.moment)?;
    Ok(sends)
}

/// Adds an event, if it is a send.
fn push_send(sends: &mut Vec<AskedSend>, event: AskedSend) -> Result<(), NoMemory> {
    if is_send(event.verb) {
        sends.push(event)?;
    }
    Ok(())
}

/// The events of a scenario that weren't run, and its sends that were refused: how many there are,
/// and the first of them.
#[derive(Drop)]
pub struct FailedEvents {
    alloc: Global,
    /// The sends that the scenario asks for, in the order in which they are run.
    sends: Vec<AskedSend>,
    /// How many of these the run has reached.
    came: usize,
    first: Vec<FailedEvent>,
    count: usize,
}

impl FailedEvents {
    /// Returns the failed events of a run that has not begun: none. `NoMemory` if an allocation
    /// failed.
    pub fn new(alloc: Global, scenario: &Scenario) -> Result<FailedEvents, NoMemory>
        ensures { IfOk result (λ failed. failed.count ≡ 0) }
    {
        Ok(FailedEvents {
            alloc,
            sends: asked_sends(alloc, &scenario.timeline)?,
            came: 0,
            first: Vec::new(alloc),
            count: 0,
        })
    }

    /// Returns how many there are. The count stops at 2^64 - 1.
    pub fn count(&self) -> usize
        ensures { result ≡ self.now.count }
    {
        self.count
    }

    /// Returns the number in the scenario of the last send that the run reached, if there was one.
    pub(crate) fn last_send(&self) -> Option<usize> {
        let last = self.came.checked_sub(1)?;
        match self.sends.as_slice().get(last) {
            Some(send) => Some(send.number),
            None => None,
        }
    }

    /// Takes an event that was done: it counts if it is a send of the scenario and was refused.
    /// `NoMemory` if an allocation failed.
    ///
    /// - `refused`, `next`, `other`: if the event that was done is the next send of the scenario
    ///   (`IsAsked`: time, keyword and station) and was refused, it counts, under its own number;
    ///   that send is then no longer awaited. Any other event changes nothing.
    #[inline(always)]
    pub fn take(&mut self, done: &EventRecord<'_>) -> Result<(), NoMemory>
        ensures done { was_done done.now.entry.now ≡ true → self.new.count ≡ self.old.count }
        ensures other { ¬ IsNextSend self.old done.now → self.new ≡ self.old }
        ensures next { IsNextSend self.old done.now → self.new.came ≡ one_more self.old.came }
        ensures refused { (send : AskedSend) (fault : EntryFault) →
            next_send self.old ≡ Some send → IsAsked send done.now →
            done.now.entry.now ≡ Answer.Refused fault → OnOk result (Adds self.old self.new
            (record { number = send.number; moment = send.moment; why = Failure.Refused fault })) }
    {
        let Some(send) = self.sends.as_slice().get(self.came).copied() else {
            return Ok(());
        };
        if !send.is(done) {
            return Ok(());
        }
        self.came = self.came.saturating_add(1);
        match done.entry {
            Answer::Refused(fault) => self.add(FailedEvent {
                number: send.number,
                moment: send.moment,
                why: Failure::Refused(*fault),
            }),
            _ => Ok(()),
        }
    }

    /// Takes a note of the run at this time in milliseconds. An event whose station is absent
    /// counts. `NoMemory` if an allocation failed.
    ///
    /// - `absent`, `next`: an event whose station is absent counts, and is no longer awaited if it
    ///   is a send.
    pub fn take_note(&mut self, moment: u64, note: &Note<'_>) -> Result<(), NoMemory>
        ensures absent { IfOk result (λ _. self.new.count ≡ (if is_absent note.now
            then one_more self.old.count else self.old.count)) }
        ensures next { self.new.came ≡ (if is_absent_send note.now
            then one_more self.old.came else self.old.came) }
    {
        match *note {
            Note::Made { id, .. } => {
                self.note_coming(id, moment);
                Ok(())
            }
            Note::Absent {
                id,
                event,
                has_left,
            } => self.take_absent(id, event, has_left),
            _ => Ok(()),
        }
    }

    /// A vehicle comes first at this moment.
    fn note_coming(&mut self, id: &str, moment: u64)
        ensures count { self.new.count ≡ self.old.count }
        ensures came { self.new.came ≡ self.old.came }
    {
        for failed in self.first.as_mut_slice() {
            failed.note_coming(id, moment);
        }
    }

    /// Counts an event of an id whose station is absent.
    fn take_absent(
        &mut self,
        id: &str,
        event: &AddressedEvent,
        has_left: bool,
    ) -> Result<(), NoMemory>
        ensures count { IfOk result (λ _. self.new.count ≡ one_more self.old.count) }
        ensures came { self.new.came ≡ (if is_send (action_verb event.now.action)
            then one_more self.old.came else self.old.came) }
        ensures listed { OnOk result ((failed : FailedEvent) × (failed.number ≡ event.now.number)
            × (failed.moment ≡ event.now.moment) × IsListed self.old self.new failed) }
    {
        if is_send(event.action.verb()) {
            self.came = self.came.saturating_add(1);
        }
        let vehicle = if has_left {
            MissingVehicle::HasLeft
        } else {
            MissingVehicle::NeverComes
        };
        let id = String::from_str(self.alloc, id)?;
        self.add(FailedEvent {
            number: event.number,
            moment: event.moment,
            why: Failure::NoVehicle(id, vehicle),
        })
    }

    /// Takes the end of the run of the scenario. The events that it doesn't reach count. `cut` is
    /// the time of the first events that weren't run, if the run was cut short. `NoMemory` if an
    /// allocation failed.
    pub fn end(&mut self, scenario: &Scenario, cut: Option<u64>) -> Result<(), NoMemory> {
        for late in late_events(self.alloc, scenario, cut)? {
            self.add(FailedEvent {
                number: late.number,
                moment: late.moment,
                why: Failure::Late(late.why),
            })?;
        }
        Ok(())
    }

    /// Counts a failed event, and keeps it if it is one of the first 20.
    fn add(&mut self, failed: FailedEvent) -> Result<(), NoMemory>
        ensures count { self.new.count ≡ one_more self.old.count }
        ensures came { self.new.came ≡ self.old.came }
        ensures listed { OnOk result (IsListed self.old self.new failed) }
    {
        self.count = self.count.saturating_add(1);
        if self.first.len() < MOST_LINES {
            self.first.push(failed)?;
        }
        Ok(())
    }

    /// Prints a line for each of the first 20 on standard error, and one with the number of the
    /// others, if there are any. With `explain` a line ends with an explanation. A write that fails
    /// is ignored.
    pub fn report<E: Write>(&self, explain: bool, err: &mut E)
        ensures none { self.now.count ≡ 0 → err.new ≡ err.old }
    {
        if self.count == 0 {
            return;
        }
        for failed in &self.first {
            let _ = failed.write(explain, err);
        }
        let others = self.count.saturating_sub(self.first.len());
        if others > 0 {
            let _ = writeln!(
                err,
                "geostation: {others} more events were not run or refused to send"
            );
        }
    }
}
