//! The state of a run with a radio model, and what it does with one event.

ghost use Rattle.std.specs.Prelude.{◌≡◌, ◌≤◌, ◌<◌, ◌^◌, ◌++◌, ◌∷◌, [], List, All, map, length};
ghost use Rattle.std.specs.Prelude.{ℕ, ◌+◌, ◌↔◌, Bool, cond, slice_set};
ghost use Rattle.std.specs.Prelude.{false, Some, None, IfOk, IfSome, OnOk, IsTrue, slice_get};
ghost use Rattle.std.specs.List.{filter};
ghost use Rattle.std.specs.Option.{option_map};
ghost use Rattle.its_model.specs.Calls.{Answer};
ghost use Rattle.its_model.specs.Reach.{is_moved};
ghost use Rattle.its_model.specs.World.{Config as Beginning, Event as Happening, opening};
ghost use Rattle.its_model.specs.World.{WorldModel, world_run};
ghost use Rattle.its_model.specs.World.{frame_of as model_frame_of};
ghost use Rattle.its_station.specs.State.{StationState};
ghost use Rattle.its_world.specs.State.{RepresentsWorld};
ghost use Rattle.its_world.specs.Entries.{TellsEntry};
ghost use Rattle.its_world.specs.Steps.{AreSameBut, IsKept};
ghost use Rattle.its_world.specs.Events.{IsConfig, IsInRange, config_of, event_of, what_of};
ghost use Rattle.its_world.specs.Mids.{AreApart};
ghost use Rattle.sim_scenario.specs.Airs.{end_of, moment_of};
ghost use Rattle.sim_simulation.specs.Simulated.{IsEntryOf, IsSimulated, IsSimulation};
ghost use Rattle.sim_air.specs.Due.{AreDue};
ghost use Rattle.sim_air.specs.AirRun.{events_in};
ghost use Rattle.sim_air.specs.AirTimed.{rules_of};
ghost use Rattle.sim_air.specs.Contenders.{NoneContends};
ghost use Rattle.sim_air.specs.Going.{GoesOn};
ghost use Rattle.sim_queue.specs.Keeps.{Keeps};
ghost use Rattle.sim_air.specs.Keeps.{IsAnswered, IsTimed, GoesBy, follow_own};
ghost use Rattle.sim_air.specs.Outside.{IsDelivery};
ghost use Rattle.sim_air_model.specs.Timetable.{Timetable, send, send_all, is_refusal, is_present};
ghost use Rattle.sim_air_model.specs.Timetable.{schedule_first_ticks};
ghost use Rattle.sim_air_model.specs.Timetable.{schedule_traffic, schedule_tick, heard_by};
ghost use Rattle.sim_air_model.specs.Timetable.{spread_frame, tick_again, take_one, of_file};
ghost use Rattle.sim_air_model.specs.Timetable.{come};
ghost use Rattle.sim_air_model.specs.Timetable.{comes};
ghost use Rattle.sim_air_model.specs.Timetable.{present_after, is_passed_over};
ghost use Rattle.sim_air_model.specs.Timetable.{Rules, AirModel, spread, air_opening};
ghost use Rattle.sim_air_model.specs.Timetable.Filed.{Happens};
ghost use Rattle.sim_air.specs.Runs.{AreIndexed, SameRadio, SameWorld, SaysAsBefore};
ghost use Rattle.sim_queue.specs.PlaceIndexes.{AreStandingsOf};
ghost use Rattle.sim_air.specs.FileEvents.{filed_of, IsFiledInRange};
ghost use Rattle.sim_queue.specs.Waiting.{happening_of, own_of};
ghost use Rattle.sim_queue.specs.Waiting.{delivery_of};
ghost use Rattle.sim_queue.specs.Traffics.{all_traffic};
ghost use Rattle.sim_queue.specs.Waits.{pending_of, planned_of};

use crate::contentions::{Contentions, add_contender};
use crate::fault::AirFault;
use its_gnvalue::Place;
use its_model::laws::every_schedule;
use its_world::laws::late_stations_were_there;
use its_world::{Config, Entry, Event, What, World, frame_of};
use sim_queue::places::PlaceIndex;
use sim_queue::{
    AirAction, Delivery, Draws, Queue, Scheduled, is_present, schedule_coming_sends,
    schedule_coming_tick, schedule_first_ticks, schedule_tick, schedule_traffic,
};
use sim_scenario::events::FileEvent;
use sim_settings::{Air, Traffic};
use sim_simulation::{EventSink, Note, SimulationFault, do_event, do_event_holding};
use std::alloc::Global;

/// A run that is under way.
#[derive(Drop)]
pub(crate) struct Run<'a> {
    alloc: Global,
    air: Air,
    /// The traffic that each station sends by itself.
    every: &'a [Traffic],
    pub(crate) world: World,
    pub(crate) queue: Queue,
    draws: Draws,
    /// Which stations are present, by their numbers.
    present: Vec<bool>,
    /// The positions of the stations of the world.
    pub(crate) standings: PlaceIndex,
    /// The receivers of the last frame that was sent.
    hearers: Vec<usize>,
    /// How many events were done.
    done: usize,
    /// How many of the next deliveries were announced.
    announced: usize,
    /// The frames that stations hold. `None` if no station contends.
    pub(crate) contentions: Option<Contentions>,
}

/// Which stations of a run contend.
#[derive(Clone, Copy, Debug)]
pub(crate) struct Contenders<'a> {
    /// Whether each station of the scenario does, by its number.
    pub(crate) contend: &'a [bool],
    /// Whether those that rows make do.
    pub(crate) rows_contend: bool,
}

impl<'a> Run<'a> {
    /// A run before its first event.
    pub(crate) fn begin(
        alloc: Global,
        configs: &[Config],
        present: &[bool],
        air: &Air,
        every: &'a [Traffic],
        contenders: Contenders<'_>,
    ) -> Result<Run<'a>, AirFault>
        requires configs { All IsConfig configs.now }
        requires count { length configs.now ≤ 65535 }
        requires apart { AreApart configs.now }
        ensures world { IfOk result (λ run.
            RepresentsWorld run.world (opening (map config_of configs.now))) }
        ensures kept { IfOk result (λ run. run.world.released ≡ 0) }
        ensures present { IfOk result (λ run. run.present.items ≡ present.now) }
        ensures rules { IfOk result (GoesBy (rules_of air.now (all_traffic every.now)
            (end_of air.now.until []) present.now)) }
        ensures timed { IfOk result (λ run. Keeps run.queue run.draws (air_opening
            (rules_of air.now (all_traffic every.now) (end_of air.now.until []) present.now)
            (map config_of configs.now) []).timetable) }
        ensures standings { IfOk result AreIndexed }
        ensures steady { contenders.entry.rows_contend ≡ false →
            NoneContends contenders.entry.contend.now →
            IfOk result (λ run. run.contentions ≡ None) }
    {
        let (queue, draws) = Run::begin_queue(alloc, configs, present, air, every)?;
        let world = World::of_apart(alloc, configs)?;
        let standings = PlaceIndex::of(alloc, air.range, world.stations())?;
        Ok(Run {
            alloc,
            air: *air,
            every,
            world,
            queue,
            draws,
            present: Vec::from_slice(alloc, present)?,
            standings,
            hearers: Vec::new(alloc),
            done: 0,
            announced: 0,
            contentions: Contentions::new(
                alloc,
                air.rule,
                contenders.contend,
                contenders.rows_contend,
            )?,
        })
    }

    /// Returns what waits at the start, and the random numbers that follow those that it used.
    fn begin_queue(
        alloc: Global,
        configs: &[Config],
        present: &[bool],
        air: &Air,
        every: &[Traffic],
    ) -> Result<(Queue, Draws), AirFault>
        ensures timed { IfOk result (λ begun. Keeps begun.0 begun.1 (air_opening
            (rules_of air.now (all_traffic every.now) (end_of air.now.until []) present.now)
            (map config_of configs.now) []).timetable) }
    {
        let mut draws = Draws::of_seed(air.seed);
        let mut queue = Queue::new(alloc, every.len());
        let ticking = if air.beacons { configs.len() } else { 0 };
        schedule_first_ticks(&mut queue, &mut draws, present, ticking)?;
        schedule_traffic(&mut queue, &mut draws, present, every, configs.len())?;
        Ok((queue, draws))
    }

    /// Adds a station of this config with the next number. It is absent. It may contend in a run in
    /// which any station does.
    pub(crate) fn add_station(&mut self, config: &Config, contends: bool) -> Result<(), AirFault>
        requires config { IsConfig config.now }
        requires standings { AreIndexed self.old }
        ensures standings { OnOk result (AreIndexed self.new) }
        ensures count { OnOk result
            (length self.new.world.stations ≡ length self.old.world.stations + 1) }
        ensures air { self.new.air ≡ self.old.air }
        ensures every { self.new.every ≡ self.old.every }
        ensures queue { self.new.queue ≡ self.old.queue }
        ensures draws { self.new.draws ≡ self.old.draws }
        ensures present { OnOk result
            (self.new.present.items ≡ self.old.present.items ++ false ∷ []) }
        ensures frames { OnOk result ((self.new.world.released ≡ self.old.world.released)
            × (length self.new.world.frames ≡ length self.old.world.frames)) }
        ensures none { self.old.contentions ≡ None → self.new.contentions ≡ None }
        ensures late { (configs : List Beginning) (events : List Happening) →
            IsSimulation configs events self.old.world →
            All (λ event. event.station < length configs) events → OnOk result
            (IsSimulation (configs ++ config_of config.now ∷ []) events self.new.world) }
    {
        // Laws, for the proof alone.
        every_schedule();
        late_stations_were_there();
        let number = self.world.stations().len();
        self.world.add_station(config)?;
        let Some(station) = self.world.station(number) else {
            unreachable!()
        };
        let place = station.vector().place();
        self.standings.add_station(number, place)?;
        self.present.push(false)?;
        add_contender(&mut self.contentions, contends)?;
        Ok(())
    }

    /// Whether there is a station of this number.
    pub(crate) fn has_station(&self, station: usize) -> bool
        ensures { IsTrue result ↔ station < length self.now.world.stations }
    {
        station < self.world.stations().len()
    }

    /// Whether an event delivers no released frame.
    pub(crate) fn keeps(&self, what: &What) -> bool
        ensures kept { IsTrue result → IsKept self.now.world.released (what_of what.now) }
        ensures delivers { result ≡ false → IsDelivery (what_of what.now) }
    {
        match what {
            What::Deliver(frame) => self.world.released() <= *frame,
            What::Call(_) => true,
        }
    }

    /// Whether what the radio model planned delivers no released frame.
    pub(crate) fn keeps_own(&self, own: &AirAction) -> bool
        ensures { IsTrue result ↔ IsKept self.now.world.released (own_of own.now) }
    {
        match own {
            AirAction::Deliver(frame) => self.world.released() <= *frame,
            _ => true,
        }
    }

    /// Returns how long after its send a frame is delivered, in milliseconds.
    pub(crate) fn delay(&self) -> u64
        ensures delay { result ≡ self.now.air.delay }
        ensures bound { result < 2 ^ 32 }
    {
        u64::from(self.air.delay)
    }

    /// Whether the station of this number is present.
    #[inline(always)]
    pub(crate) fn is_present(&self, station: usize) -> bool {
        is_present(self.present.as_slice(), station)
    }

    /// Does an event or a departure of the file. With an event its station may come.
    pub(crate) fn do_filed<S: EventSink>(
        &mut self,
        filed: &FileEvent,
        sink: &mut S,
    ) -> Result<(), AirFault>
        requires range { IsFiledInRange filed.now }
        requires moment { moment_of filed.now ≤ 2 ^ 63 + 10000 }
        requires kept { All (λ event. IsKept self.old.world.released event.what)
            (events_in (filed_of filed.now ∷ [])) }
        requires standings { AreIndexed self.old }
        ensures released { self.new.world.released ≡ self.old.world.released }
        ensures standings { OnOk result (AreIndexed self.new) }
        ensures run { (configs : List Beginning) (events : List Happening) →
            IsSimulated configs events self.old.world (S.Took sink.old) → OnOk result
            (IsSimulated configs (events ++ events_in (filed_of filed.now ∷ [])) self.new.world
            (S.Took sink.new)) }
        ensures timed { (rules : Rules) (configs : List Beginning) (a : AirModel) →
            IsTimed rules configs a self.old (S.Took sink.old) → OnOk result
            (IsTimed rules configs (take_one rules configs a (of_file (filed_of filed.now))
            a.timetable) self.new (S.Took sink.new)) }
    {
        match filed {
            FileEvent::Happens(event) => {
                if self.do_outer(event, sink)? {
                    self.note_coming(event, sink)?;
                }
                Ok(())
            }
            FileEvent::Leaves { station, moment } => self.leave(*station, *moment, sink),
        }
    }

    /// Does an event from outside, with which its station may come. Returns whether the station
    /// came. The sink has no note of that yet.
    pub(crate) fn do_outer<S: EventSink>(
        &mut self,
        event: &Event,
        sink: &mut S,
    ) -> Result<bool, AirFault>
        requires range { IsInRange event.now.what }
        requires moment { event.now.moment ≤ 2 ^ 63 + 10000 }
        requires kept { IsKept self.old.world.released (what_of event.now.what) }
        requires standings { AreIndexed self.old }
        ensures released { self.new.world.released ≡ self.old.world.released }
        ensures count { length self.new.world.stations ≡ length self.old.world.stations }
        ensures standings { OnOk result (AreIndexed self.new) }
        ensures run { (configs : List Beginning) (events : List Happening) →
            IsSimulated configs events self.old.world (S.Took sink.old) → OnOk result
            (IsSimulated configs (events ++ event_of event.now ∷ []) self.new.world
            (S.Took sink.new)) }
        ensures timed { (rules : Rules) (configs : List Beginning) (a : AirModel) →
            IsTimed rules configs a self.old (S.Took sink.old) → OnOk result
            (IsTimed rules configs (take_one rules configs a
            (of_file (Happens (event_of event.now))) a.timetable) self.new (S.Took sink.new)) }
    {
        let entry = self.do_event(event, sink)?;
        self.admit(event, &entry)
    }

    /// Makes a station absent.
    pub(crate) fn leave<S: EventSink>(
        &mut self,
        station: usize,
        moment: u64,
        sink: &mut S,
    ) -> Result<(), AirFault>
        ensures world { SameWorld self.old self.new }
        ensures queue { self.new.queue ≡ self.old.queue }
        ensures draws { self.new.draws ≡ self.old.draws }
        ensures told { OnOk result (SaysAsBefore (S.Took sink.old) (S.Took sink.new)) }
        ensures present { self.new.present.items ≡ slice_set self.old.present.items station false }
    {
        let was = is_present(self.present.as_slice(), station);
        set_present(&mut self.present, station, false);
        if !was {
            return Ok(());
        }
        sink.note(&self.world, moment, &Note::Left { station })?;
        Ok(())
    }

    /// Does a delivery. Nothing follows it but the deliveries of a frame that the station sends.
    #[inline(always)]
    pub(crate) fn deliver<S: EventSink>(
        &mut self,
        delivery: &Delivery,
        sink: &mut S,
    ) -> Result<(), AirFault>
        requires moment { delivery.now.moment ≤ 2 ^ 63 + 10000 }
        requires kept { self.old.world.released ≤ delivery.now.frame }
        requires standings { AreIndexed self.old }
        ensures released { self.new.world.released ≡ self.old.world.released }
        ensures standings { OnOk result (AreIndexed self.new) }
        ensures run { (configs : List Beginning) (events : List Happening) →
            IsSimulated configs events self.old.world (S.Took sink.old) → OnOk result
            (IsSimulated configs (events ++ happening_of (delivery_of delivery.now) ∷ [])
            self.new.world (S.Took sink.new)) }
        ensures timed { (rules : Rules) (configs : List Beginning) (a : AirModel) →
            IsTimed rules configs a self.old (S.Took sink.old) → OnOk result
            (IsTimed rules configs
            (take_one rules configs a (pending_of (delivery_of delivery.now)) a.timetable) self.new
            (S.Took sink.new)) }
    {
        self.announce(delivery);
        let event = delivery.event();
        let entry = self.do_event(&event, sink)?;
        let came = self.come(&event, &entry, sink);
        self.world.reuse(entry);
        came
    }

    /// Has the receivers of a frame look up its source together, when the first of them receives it.
    #[inline(always)]
    fn announce(&mut self, delivery: &Delivery)
        ensures world { SameWorld self.old self.new }
        ensures present { self.new.present ≡ self.old.present }
        ensures queue { self.new.queue ≡ self.old.queue }
        ensures draws { self.new.draws ≡ self.old.draws }
    {
        if self.announced > 0 {
            self.announced -= 1;
        } else {
            self.announce_receivers(*delivery);
        }
    }

    /// Has the next receivers of a frame look up its source together.
    #[inline(never)]
    fn announce_receivers(&mut self, delivery: Delivery)
        ensures world { SameWorld self.old self.new }
        ensures present { self.new.present ≡ self.old.present }
        ensures queue { self.new.queue ≡ self.old.queue }
        ensures draws { self.new.draws ≡ self.old.draws }
    {
        let receivers = self.queue.receivers(&delivery);
        let stations = receivers.as_slice();
        self.announced = stations.len().saturating_sub(1);
        self.world.expect(delivery.moment, delivery.frame, stations);
    }

    /// Does what the radio model planned, and puts what follows it. A tick or a send of an absent
    /// station is skipped.
    pub(crate) fn do_own<S: EventSink>(
        &mut self,
        waiting: &Scheduled,
        sink: &mut S,
    ) -> Result<(), AirFault>
        requires moment { waiting.now.moment ≤ 2 ^ 63 + 10000 }
        requires kept { IsKept self.old.world.released (own_of waiting.now.own) }
        requires standings { AreIndexed self.old }
        ensures released { self.new.world.released ≡ self.old.world.released }
        ensures standings { OnOk result (AreIndexed self.new) }
        ensures going { (grows : Bool) →
            waiting.now.station < length self.old.world.stations → OnOk result
            (GoesOn grows self.old.world (S.Took sink.old) self.new.world (S.Took sink.new)) }
        ensures timed { (rules : Rules) (configs : List Beginning) (a : AirModel) →
            IsTimed rules configs a self.old (S.Took sink.old) → OnOk result
            (IsTimed rules configs (take_one rules configs a (pending_of waiting.now) a.timetable)
            self.new (S.Took sink.new)) }
    {
        if self.is_passed_over(waiting) {
            return Ok(());
        }
        let event = waiting.event(self.alloc)?;
        let entry = self.do_event(&event, sink)?;
        self.schedule_next(waiting, &entry)?;
        self.come(&event, &entry, sink)
    }

    /// Whether it is skipped: a tick or a send of an absent station.
    fn is_passed_over(&self, waiting: &Scheduled) -> bool
        ensures { result ≡ is_passed_over self.now.present.items (planned_of waiting.now) }
    {
        !waiting.own.is_delivery() && !is_present(self.present.as_slice(), waiting.station)
    }

    /// Does an event, passes it to the sink, and puts the deliveries of the frame that was sent.
    /// The index of positions follows the station if it moved.
    #[inline(always)]
    pub(crate) fn do_event<S: EventSink>(
        &mut self,
        event: &Event,
        sink: &mut S,
    ) -> Result<Entry, AirFault>
        requires range { IsInRange event.now.what }
        requires moment { event.now.moment ≤ 2 ^ 63 + 10000 }
        requires kept { IsKept self.old.world.released (what_of event.now.what) }
        requires standings { AreIndexed self.old }
        ensures released { self.new.world.released ≡ self.old.world.released }
        ensures count { length self.new.world.stations ≡ length self.old.world.stations }
        ensures standings { OnOk result (AreIndexed self.new) }
        ensures run { (configs : List Beginning) (events : List Happening) →
            IsSimulated configs events self.old.world (S.Took sink.old) → OnOk result (
            IsSimulated configs (events ++ event_of event.now ∷ []) self.new.world
            (S.Took sink.new)) }
        ensures air { self.new.air ≡ self.old.air }
        ensures every { self.new.every ≡ self.old.every }
        ensures present { self.new.present ≡ self.old.present }
        ensures none { self.old.contentions ≡ None → self.new.contentions ≡ None }
        ensures answered { (configs : List Beginning) (events : List Happening) →
            IsSimulated configs events self.old.world (S.Took sink.old) → IfOk result (λ entry.
            IsAnswered entry
            (world_run (opening configs) (events ++ event_of event.now ∷ []))) }
        ensures spread { (rules : Rules) (configs : List Beginning) (events : List Happening)
            (t : Timetable) → self.old.contentions ≡ None → GoesBy rules self.old →
            IsSimulated configs events self.old.world (S.Took sink.old) →
            Keeps self.old.queue self.old.draws t → OnOk result
            (Keeps self.new.queue self.new.draws
            (spread rules self.old.present.items (event_of event.now)
            (world_run (opening configs) (events ++ event_of event.now ∷ [])) t)) }
    {
        let Some(next) = self.done.checked_add(1) else {
            return Err(AirFault::TooManyEvents);
        };
        let stood = place_of(&self.world, event.station);
        let entry = self.step(event, sink)?;
        self.done = next;
        self.update_place(event.station, stood);
        if let Some(frame) = self.sent_frame(&entry) {
            self.schedule_frame(event.station, event.moment, frame, sink)?;
        }
        Ok(entry)
    }

    /// Does an event in the world. In a run in which stations contend, its station may hold the frame
    /// that it would send. If it restarted, the sink gets a note of each frame that it dropped.
    #[inline(always)]
    fn step<S: EventSink>(&mut self, event: &Event, sink: &mut S) -> Result<Entry, SimulationFault>
        requires range { IsInRange event.now.what }
        requires kept { IsKept self.old.world.released (what_of event.now.what) }
        ensures radio { SameRadio self.old self.new }
        ensures none { self.old.contentions ≡ None → self.new.contentions ≡ None }
        ensures run { (configs : List Beginning) (events : List Happening) →
            IsSimulated configs events self.old.world (S.Took sink.old) → OnOk result
            (IsSimulated configs (events ++ event_of event.now ∷ []) self.new.world
            (S.Took sink.new)) }
        ensures entry { (configs : List Beginning) (events : List Happening) →
            IsSimulated configs events self.old.world (S.Took sink.old) → IfOk result (λ entry.
            IsEntryOf configs events (event_of event.now) entry) }
        ensures others { AreSameBut event.now.station self.old.world.stations
            self.new.world.stations }
        ensures released { self.new.world.released ≡ self.old.world.released }
    {
        match &mut self.contentions {
            None => do_event(&mut self.world, self.done, event, sink),
            Some(held) => step_holding(&mut self.world, self.done, event, held, sink),
        }
    }

    /// The frame that is sent with the last event, if there is one. A frame that is held is sent
    /// later.
    #[inline(always)]
    fn sent_frame(&self, entry: &Entry) -> Option<usize>
        ensures none { self.now.contentions ≡ None → (answer : Answer ℕ) →
            TellsEntry entry.now answer → result ≡ model_frame_of answer }
    {
        match &self.contentions {
            Some(contentions) if contentions.holds_last() => None,
            _ => frame_of(entry),
        }
    }

    /// When a frame that a station holds is due next, if that is before a limit, in milliseconds.
    #[inline(always)]
    pub(crate) fn due_before(&self, limit: u64) -> Option<u64>
        ensures before { IfSome result (λ due. due < limit) }
        ensures none { self.now.contentions ≡ None → result ≡ None }
    {
        match &self.contentions {
            None => None,
            Some(contentions) => match contentions.next_due() {
                Some(due) if due < limit => Some(due),
                _ => None,
            },
        }
    }

    /// Sends the frame that is due first, and passes a sink a note of it. Its receivers are those in
    /// range of the position of its station now. It is not an event of the world.
    pub(crate) fn release_due<S: EventSink>(&mut self, sink: &mut S) -> Result<(), AirFault>
        requires standings { AreIndexed self.old }
        ensures world { self.new.world ≡ self.old.world }
        ensures standings { self.new.standings ≡ self.old.standings }
        ensures told { OnOk result (SaysAsBefore (S.Took sink.old) (S.Took sink.new)) }
    {
        let delay = self.delay();
        let Some(contentions) = &mut self.contentions else {
            return Ok(());
        };
        let Some(due) = contentions.take_due(delay) else {
            return Ok(());
        };
        let (station, frame) = (due.station, due.frame);
        sink.note(&self.world, due.moment, &Note::Released { station, frame })?;
        self.schedule_frame(station, due.moment, frame, sink)
    }

    /// Brings the position of a station, which may have moved, into the index.
    #[inline(always)]
    fn update_place(&mut self, number: usize, stood: Option<Place>)
        ensures air { self.new.air ≡ self.old.air }
        ensures every { self.new.every ≡ self.old.every }
        ensures present { self.new.present ≡ self.old.present }
        ensures world { self.new.world ≡ self.old.world }
        ensures queue { self.new.queue ≡ self.old.queue }
        ensures draws { self.new.draws ≡ self.old.draws }
        ensures contentions { self.new.contentions ≡ self.old.contentions }
        ensures standings { (before : List StationState) →
            AreStandingsOf before self.old.standings.order.items →
            AreSameBut number before self.old.world.stations →
            stood ≡ option_map (λ st. st.vector.place) (slice_get before number) →
            AreIndexed self.new }
    {
        let Some(place) = place_of(&self.world, number) else {
            return;
        };
        if !stood_at(&stood, place) {
            self.standings.move_station(number, stood, place);
        }
    }

    /// Puts a delivery of a frame to each station that receives it and doesn't lose it, and notes
    /// which stations receive it and which lose it. The frame of an absent station has no
    /// receivers.
    fn schedule_frame<S: EventSink>(
        &mut self,
        giver: usize,
        moment: u64,
        frame: usize,
        sink: &mut S,
    ) -> Result<(), AirFault>
        requires moment { moment ≤ 2 ^ 63 + 10000 }
        requires standings { AreIndexed self.old }
        ensures world { SameWorld self.old self.new }
        ensures present { self.new.present ≡ self.old.present }
        ensures told { OnOk result (SaysAsBefore (S.Took sink.old) (S.Took sink.new)) }
        ensures spread { (rules : Rules) (event : Happening) (w : WorldModel) (t : Timetable) →
            event.station ≡ giver → event.moment ≡ moment → GoesBy rules self.old →
            RepresentsWorld self.old.world w → Keeps self.old.queue self.old.draws t → OnOk result
            (Keeps self.new.queue self.new.draws
            (spread_frame rules self.old.present.items event w (Some frame) t)) }
    {
        self.find_hearers(giver)?;
        let given = GivenFrame {
            frame,
            moment,
            heard_at: moment + u64::from(self.air.delay),
        };
        let hearers = self.hearers.as_slice();
        let (queue, draws) = (&mut self.queue, &mut self.draws);
        schedule_deliveries(
            queue,
            draws,
            self.air.loss,
            given,
            hearers,
            &self.world,
            sink,
        )
    }

    /// Finds the receivers of what a station sends. An absent station has no receivers.
    fn find_hearers(&mut self, giver: usize) -> Result<(), AirFault>
        requires standings { AreIndexed self.old }
        ensures world { SameWorld self.old self.new }
        ensures present { self.new.present ≡ self.old.present }
        ensures queue { self.new.queue ≡ self.old.queue }
        ensures draws { self.new.draws ≡ self.old.draws }
        ensures heard { (w : WorldModel) → RepresentsWorld self.old.world w → OnOk result
            (self.new.hearers.items ≡ heard_by self.old.air.range self.old.present.items w giver) }
    {
        self.hearers.clear();
        if !is_present(self.present.as_slice(), giver) {
            return Ok(());
        }
        let Some(station) = self.world.station(giver) else {
            return Ok(());
        };
        self.standings.find_hearers(
            self.air.range,
            self.world.stations(),
            giver,
            station.vector().place(),
            &mut self.hearers,
        )?;
        keep_present(&mut self.hearers, self.present.as_slice());
        Ok(())
    }

    /// Has the station of an event come, if it does, and passes the sink a note of it.
    #[inline(always)]
    fn come<S: EventSink>(
        &mut self,
        event: &Event,
        entry: &Entry,
        sink: &mut S,
    ) -> Result<(), AirFault>
        requires moment { event.now.moment ≤ 2 ^ 63 + 10000 }
        ensures world { SameWorld self.old self.new }
        ensures told { OnOk result (SaysAsBefore (S.Took sink.old) (S.Took sink.new)) }
        ensures present { (after : WorldModel) → IsAnswered entry.now after → OnOk result
            (self.new.present.items
            ≡ present_after self.old.present.items (event_of event.now) after) }
        ensures come { (rules : Rules) (after : WorldModel) (t : Timetable) →
            GoesBy rules self.old → IsAnswered entry.now after →
            Keeps self.old.queue self.old.draws t → OnOk result
            (Keeps self.new.queue self.new.draws
            (cond (comes self.old.present.items (event_of event.now) after)
            (come rules event.now.station event.now.moment t) t)) }
    {
        if self.admit(event, entry)? {
            self.note_coming(event, sink)
        } else {
            Ok(())
        }
    }

    /// Makes a station present if it was absent and an event moved it. Then puts its first tick and
    /// its first sends, if none of them waits. Returns whether the station came. The sink has no
    /// note of that yet.
    #[inline(always)]
    fn admit(&mut self, event: &Event, entry: &Entry) -> Result<bool, AirFault>
        requires moment { event.now.moment ≤ 2 ^ 63 + 10000 }
        ensures world { SameWorld self.old self.new }
        ensures present { (after : WorldModel) → IsAnswered entry.now after → OnOk result
            (self.new.present.items
            ≡ present_after self.old.present.items (event_of event.now) after) }
        ensures come { (rules : Rules) (after : WorldModel) (t : Timetable) →
            GoesBy rules self.old → IsAnswered entry.now after →
            Keeps self.old.queue self.old.draws t → OnOk result
            (Keeps self.new.queue self.new.draws
            (cond (comes self.old.present.items (event_of event.now) after)
            (come rules event.now.station event.now.moment t) t)) }
    {
        if !self.is_coming(event, entry) {
            return Ok(false);
        }
        set_present(&mut self.present, event.station, true);
        self.schedule_coming(event.station, event.moment)?;
        Ok(true)
    }

    /// Passes a sink the note that the station of an event came.
    pub(crate) fn note_coming<S: EventSink>(
        &self,
        event: &Event,
        sink: &mut S,
    ) -> Result<(), AirFault>
        ensures told { OnOk result (SaysAsBefore (S.Took sink.old) (S.Took sink.new)) }
    {
        let station = event.station;
        sink.note(&self.world, event.moment, &Note::Came { station })?;
        Ok(())
    }

    /// Whether the station of an event comes: it is absent, and the event moved it.
    #[inline(always)]
    fn is_coming(&self, event: &Event, entry: &Entry) -> bool
        ensures { (after : WorldModel) → IsAnswered entry.now after →
            result ≡ comes self.now.present.items (event_of event.now) after }
    {
        is_move(entry) && !is_present(self.present.as_slice(), event.station)
    }

    /// Puts the first tick and the first sends of a station that comes, if none of them waits.
    fn schedule_coming(&mut self, station: usize, moment: u64) -> Result<(), AirFault>
        requires moment { moment ≤ 2 ^ 63 + 10000 }
        ensures world { SameWorld self.old self.new }
        ensures present { self.new.present ≡ self.old.present }
        ensures come { (rules : Rules) (t : Timetable) → GoesBy rules self.old →
            Keeps self.old.queue self.old.draws t → OnOk result
            (Keeps self.new.queue self.new.draws (come rules station moment t)) }
    {
        let (queue, draws) = (&mut self.queue, &mut self.draws);
        schedule_coming_tick(queue, draws, self.air.beacons, station, moment)?;
        schedule_coming_sends(queue, draws, self.every, station, moment)?;
        Ok(())
    }

    /// Puts what follows what the radio model planned: after a tick that was not refused the next
    /// tick of the station, after a send of traffic the next one.
    fn schedule_next(&mut self, done: &Scheduled, entry: &Entry) -> Result<(), AirFault>
        requires moment { done.now.moment ≤ 2 ^ 63 + 10000 }
        ensures world { SameWorld self.old self.new }
        ensures present { self.new.present ≡ self.old.present }
        ensures next { (w : WorldModel) (t : Timetable) (answer : Answer ℕ) →
            RepresentsWorld self.old.world w → TellsEntry entry.now answer →
            Keeps self.old.queue self.old.draws t → OnOk result
            (Keeps self.new.queue self.new.draws (follow_own done.now (is_refusal answer)
            (slice_get w.stations done.now.station) t)) }
    {
        match &done.own {
            AirAction::Tick(_) => self.schedule_next_tick(done, entry),
            AirAction::Deliver(_) => Ok(()),
            AirAction::Send(number, traffic) => {
                let moment = done.moment + u64::from(traffic.period);
                let send = AirAction::Send(*number, *traffic);
                self.queue.push(moment, done.station, send)?;
                Ok(())
            }
        }
    }

    /// Puts the next tick of a station, if the last one was not refused.
    fn schedule_next_tick(&mut self, tick: &Scheduled, entry: &Entry) -> Result<(), AirFault>
        ensures world { SameWorld self.old self.new }
        ensures present { self.new.present ≡ self.old.present }
        ensures tick { (w : WorldModel) (t : Timetable) (answer : Answer ℕ) →
            RepresentsWorld self.old.world w → TellsEntry entry.now answer →
            Keeps self.old.queue self.old.draws t → OnOk result
            (Keeps self.new.queue self.new.draws (cond (is_refusal answer) t
            (tick_again (happening_of tick.now) (slice_get w.stations tick.now.station) t))) }
    {
        if matches!(entry, Entry::Refused(_)) {
            return Ok(());
        }
        let Some(station) = self.world.station(tick.station) else {
            return Ok(());
        };
        let (queue, draws) = (&mut self.queue, &mut self.draws);
        schedule_tick(
            queue,
            draws,
            tick.station,
            tick.moment,
            station.beacon_from(),
        )?;
        Ok(())
    }
}

/// Does an event, which is the one of this number, in a world in which stations hold these frames.
/// If its station restarted, the sink gets a note of each frame that it dropped.
fn step_holding<S: EventSink>(
    world: &mut World,
    number: usize,
    event: &Event,
    held: &mut Contentions,
    sink: &mut S,
) -> Result<Entry, SimulationFault>
    requires range { IsInRange event.now.what }
    requires kept { IsKept world.old.released (what_of event.now.what) }
    ensures run { (configs : List Beginning) (events : List Happening) →
        IsSimulated configs events world.old (S.Took sink.old) → OnOk result
        (IsSimulated configs (events ++ event_of event.now ∷ []) world.new (S.Took sink.new)) }
    ensures entry { (configs : List Beginning) (events : List Happening) →
        IsSimulated configs events world.old (S.Took sink.old) → IfOk result (λ entry.
        IsEntryOf configs events (event_of event.now) entry) }
    ensures others { AreSameBut event.now.station world.old.stations world.new.stations }
    ensures released { world.new.released ≡ world.old.released }
{
    let entry = do_event_holding(world, number, event, held, sink)?;
    note_dropped(world, event, held.dropped(), sink)?;
    Ok(entry)
}

/// Passes a sink a note of each of these frames, which the station of an event dropped.
fn note_dropped<S: EventSink>(
    world: &World,
    event: &Event,
    dropped: &[usize],
    sink: &mut S,
) -> Result<(), SimulationFault>
    ensures told { OnOk result (SaysAsBefore (S.Took sink.old) (S.Took sink.new)) }
{
    let station = event.station;
    for frame in dropped {
        let frame = *frame;
        sink.note(world, event.moment, &Note::Dropped { station, frame })?;
    }
    Ok(())
}

/// Returns the position of a station, by its number.
#[inline(always)]
pub(crate) fn place_of(world: &World, number: usize) -> Option<Place>
    ensures { result ≡ option_map (λ st. st.vector.place) (slice_get world.now.stations number) }
{
    match world.station(number) {
        Some(station) => Some(station.vector().place()),
        None => None,
    }
}

/// Whether the position of a station was this one.
#[inline(always)]
fn stood_at(stood: &Option<Place>, place: Place) -> bool
    ensures { IsTrue result → stood.now ≡ Some place }
{
    match stood {
        Some(stood) => *stood == place,
        None => false,
    }
}

/// Notes whether a station is present. Changes nothing if there is no such station.
fn set_present(present: &mut Vec<bool>, station: usize, is_present: bool)
    ensures { present.new.items ≡ slice_set present.old.items station is_present }
{
    if station < present.len() {
        present[station] = is_present;
    }
}

/// Keeps those of these stations that are present, in order.
fn keep_present(stations: &mut Vec<usize>, present: &[bool])
    ensures { stations.new.items ≡ filter (is_present present.now) stations.old.items }
{
    stations.retain(|station| is_present(present, *station));
}

/// Whether an entry is that of a move that was not refused.
fn is_move(entry: &Entry) -> bool
    ensures { (answer : Answer ℕ) → TellsEntry entry.now answer → result ≡ is_moved answer }
{
    matches!(entry, Entry::Moved)
}

/// A frame that was just sent.
#[derive(Clone, Copy, Debug)]
struct GivenFrame {
    /// Its number.
    frame: usize,
    /// The time when it was sent.
    moment: u64,
    /// The time of its deliveries.
    heard_at: u64,
}

/// Puts a delivery of a frame to each of these stations that doesn't lose it, and passes a sink a
/// note of each loss, in order. A sink that uses them also gets a note of each delivery.
#[inline(always)]
fn schedule_deliveries<S: EventSink>(
    queue: &mut Queue,
    draws: &mut Draws,
    loss: u8,
    given: GivenFrame,
    hearers: &[usize],
    world: &World,
    sink: &mut S,
) -> Result<(), AirFault>
    ensures told { OnOk result (SaysAsBefore (S.Took sink.old) (S.Took sink.new)) }
    ensures sent { (t : Timetable) → Keeps queue.old draws.old t → OnOk result
        (Keeps queue.new draws.new (send_all loss given.frame given.heard_at hearers.now t)) }
{
    let wants_heard = sink.wants_heard_notes();
    for station in hearers {
        let note = schedule_delivery(queue, draws, loss, given, *station)?;
        if wants_heard || matches!(note, Note::Lost { .. }) {
            sink.note(world, given.moment, &note)?;
        }
    }
    Ok(())
}

/// Puts a delivery of a frame to a station, unless a random number loses it. Returns the note of
/// it.
#[inline(always)]
fn schedule_delivery(
    queue: &mut Queue,
    draws: &mut Draws,
    loss: u8,
    given: GivenFrame,
    station: usize,
) -> Result<Note<'static>, AirFault>
    ensures sent { (t : Timetable) → Keeps queue.old draws.old t → OnOk result
        (Keeps queue.new draws.new (send loss given.frame given.heard_at station t)) }
{
    let frame = given.frame;
    if draws.is_lost(loss) {
        return Ok(Note::Lost { station, frame });
    }
    queue.push_delivery(given.heard_at, station, frame)?;
    Ok(Note::Heard { station, frame })
}
