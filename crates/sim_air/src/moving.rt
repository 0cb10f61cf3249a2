//! A run with a radio model in which stations move by the rows of a file. A station arrives with
//! its first row and departs some time after its last one.

ghost use Rattle.std.specs.Prelude.{[], ◌∷◌, ℕ, List, Some, None, map, ◌≡◌, ◌≤◌, ◌<◌, ◌+◌, ◌^◌};
ghost use Rattle.std.specs.Prelude.{All};
ghost use Rattle.std.specs.Prelude.{length, slice_get, true, false, vec_len, ◌⊎◌, ◌*◌};
ghost use Rattle.std.specs.Prelude.{IfNone, IfOk, IfSome, OnOk};
ghost use Rattle.std.specs.BinaryHeap.{heap_items};
ghost use Rattle.std.specs.List.{AllByRecursion};
ghost use Rattle.std.specs.List.Sorted.{IsNonDecreasingBy};
ghost use Rattle.std.specs.Option.{ForSome};
ghost use denote.Ref.{Bor};
ghost use Rattle.sim_scenario.specs.Airs.{end_of};
ghost use Rattle.sim_scenario.specs.Events.{FitsAddressed};
ghost use Rattle.sim_scenario.specs.declared.events.event.AddressedEvent.{AddressedEvent as Addressed};
ghost use Rattle.its_model.specs.World.{Config as Beginning, WorldModel, opening};
ghost use Rattle.sim_moves.specs.Rows.{IsRowBetween};
ghost use Rattle.its_world.specs.Events.{IsConfig, IsInRange, config_of, event_of, what_of};
ghost use Rattle.its_world.specs.Steps.{IsKept};
ghost use Rattle.its_world.specs.State.{RepresentsWorld};
ghost use Rattle.sim_air.specs.AirTimed.{rules_of};
ghost use Rattle.sim_air.specs.Contenders.{IsMadeRun, NoneContends};
ghost use Rattle.sim_air.specs.FitsRun.{FitsRun};
ghost use Rattle.sim_air.specs.Going.{GoesOn};
ghost use Rattle.sim_air.specs.Keeps.{GoesBy};
ghost use Rattle.sim_queue.specs.Keeps.{Keeps};
ghost use Rattle.sim_air.specs.Moving.{Awaits, IsMovedRun};
ghost use Rattle.sim_air.specs.Outside.{Came, IsByMoment, row_move};
ghost use Rattle.sim_air.specs.Runs.{AreIndexed};
ghost use Rattle.sim_air_model.specs.Timetable.{Filed, Pending, Rules, air_opening, at};
ghost use Rattle.sim_queue.specs.Traffics.{all_traffic};
ghost use Rattle.sim_air.specs.UnderRows.{CameUnder, ComesFrom, DoesEvent, DoesLeave, DoesRow};
ghost use Rattle.sim_air.specs.UnderRows.{IsComing, IsNext, IsUnder, IsUnderSome, MakesUnder};
ghost use Rattle.sim_air.specs.UnderRows.{StaysUnder, asked_in, class_in, end_in, stations_in};
ghost use Rattle.sim_air.specs.UnderRows.{turn_in};

use crate::departures::Departures;
use crate::fault::AirFault;
use crate::frames::FrameCount;
use crate::moving_run::{Coming, MovingRun, Outside};
use crate::run::{Contenders, Run};
use crate::step::{do_at, do_filed, move_in, take_turn};
use crate::vehicles::Vehicles;
use its_gnvalue::Place;
use its_model::laws::every_schedule;
use its_station::OwnCall;
use its_world::{Config, Event, What, World};
use sim_moves::{MovesFault, Row, Rows, Word};
use sim_scenario::events::{AFTER_EVENTS, AddressedEvent, Addressee, FileEvent};
use sim_scenario::{MOST_STATIONS, MovesTimeline, Scenario};
use sim_settings::Moves;
use sim_simulation::{EventSink, Note};
use std::alloc::{AllocError, Global};
use std::io::BufRead;

/// Runs a scenario of at most 65535 stations with this timeline, while stations move by the rows of
/// a file, and passes each event to a sink when it is done. Returns the world after the last event.
///
/// - A row moves the station of its id, with an accurate position.
/// - The first row of an id makes the station, with the next number. The station is moved, opens
///   the ports that the scenario gives it, and is present from then on.
/// - A station of an id departs after the scenario's time without a row.
/// - At one time, rows come first, in the order of the file. Then come departures by number, the
///   events of the scenario in their order, and what the radio model planned, as in `run_air`.
/// - An event for an id of which no station is present isn't run. The sink gets a note of it.
///
/// Frames are released some time after their deliveries are done, so the world that is returned has
/// only the last ones.
///
/// Without a last time the run ends ten seconds after the greatest time of an event or a row. A row
/// is read when the one before it was run. No row is read after the last time.
///
/// This is a run with a radio model, as `run_air` does one, so the laws of such runs hold of it.
/// Its stations are those of the scenario, and those that rows made, which are absent at the start.
/// Its file is what came from outside, in the order of time.
///
/// The error is `Moves` if a row can't be read, or needs one station too many, or a station with
/// the MID of another. If it fails, the sink has the events before.
///
/// - `run`: a run that ends well is a run of the world, of all stations (`IsMadeRun`).
/// - `moved`: if no station contends it is a run as in `timed` (`IsMovedRun`). Its field `outside`
///   (`IsOutside`) says what came from outside.
pub fn run_moves<R: BufRead + Drop, S: EventSink>(
    alloc: Global,
    scenario: &Scenario,
    timeline: &MovesTimeline,
    rows: &mut Rows<R>,
    sink: &mut S,
) -> Result<World, AirFault>
    requires { vec_len scenario.now.stations ≤ 65535 }
    ensures run { S.Took sink.old [] [] → IfOk result (λ world.
        IsMadeRun (map config_of scenario.now.stations.items) world (S.Took sink.new)) }
    ensures moved { NoneContends (timeline.now.moves.contends ∷ scenario.now.contend.items) →
        S.Took sink.old [] [] → IfOk result (λ world. IsMovedRun (rules_of timeline.now.air
        (all_traffic timeline.now.every.items) (end_of timeline.now.air.until [])
        scenario.now.present.items)
        (map config_of scenario.now.stations.items) timeline.now.moves
        timeline.now.events.items timeline.now.air.until world (S.Took sink.new)) }
{
    // A law, for the proof alone.
    every_schedule();
    let mut moving = MovingRun::begin(alloc, scenario, timeline)?;
    moving.read_row(rows)?;
    for _ in 0..usize::MAX {
        if !moving.go_on(rows, sink)? {
            return Ok(moving.run.world);
        }
    }
    Err(AirFault::TooManyEvents)
}

/// The station of a row.
#[derive(Clone, Copy, Debug)]
struct RowStation<'a> {
    /// The number of the station.
    station: usize,
    /// The ports that the station opens.
    ports: &'a [u16],
}

impl<'a> MovingRun<'a> {
    /// A run before its first event. No row was read.
    fn begin(
        alloc: Global,
        scenario: &'a Scenario,
        timeline: &'a MovesTimeline,
    ) -> Result<MovingRun<'a>, AirFault>
        requires { vec_len scenario.now.stations ≤ 65535 }
        ensures world { IfOk result (λ moving. RepresentsWorld moving.run.world
            (opening (map config_of scenario.now.stations.items))) }
        ensures standings { IfOk result (λ moving. AreIndexed moving.run) }
        ensures steady { NoneContends (timeline.now.moves.contends ∷ scenario.now.contend.items)
            → IfOk result (λ moving. moving.run.contentions ≡ None) }
        ensures rules { IfOk result (λ moving. GoesBy (rules_of timeline.now.air
            (all_traffic timeline.now.every.items) (end_of timeline.now.air.until [])
            scenario.now.present.items) moving.run) }
        ensures present { IfOk result (λ moving.
            moving.run.present.items ≡ scenario.now.present.items) }
        ensures keeps { IfOk result (λ moving. Keeps moving.run.queue moving.run.draws
            (air_opening (rules_of timeline.now.air (all_traffic timeline.now.every.items)
            (end_of timeline.now.air.until []) scenario.now.present.items)
            (map config_of scenario.now.stations.items) []).timetable) }
        ensures departures { IfOk result (λ moving.
            heap_items moving.departures.waiting ≡ []) }
        ensures row { IfOk result (λ moving. moving.row ≡ None) }
        ensures moves { IfOk result (λ moving. moving.moves.now ≡ timeline.now.moves) }
        ensures asked { IfOk result (λ moving.
            IsByMoment timeline.now.events.items (asked_in moving)) }
        ensures taken { IfOk result (λ moving. moving.taken ≡ 0) }
        ensures until { IfOk result (λ moving. moving.until ≡ timeline.now.air.until) }
        ensures frames { IfOk result (λ moving. (moving.run.world.released ≡ 0)
            × (moving.count.before ≡ 0) × (moving.count.delivered_by ≡ 0)) }
    {
        let stations = scenario.stations.as_slice();
        let present = scenario.present.as_slice();
        let moves = &timeline.moves;
        let events = in_order(alloc, timeline.events.as_slice())?;
        let greatest = last_moment(events.as_slice());
        let every = timeline.every.as_slice();
        let contenders = Contenders {
            contend: scenario.contend.as_slice(),
            rows_contend: moves.contends,
        };
        Ok(MovingRun {
            alloc,
            run: Run::begin(alloc, stations, present, &timeline.air, every, contenders)?,
            moves,
            vehicles: Vehicles::beside(alloc, stations, moves)?,
            departures: Departures::of(alloc, stations.len(), moves.gone)?,
            events,
            taken: 0,
            row: None,
            known: None,
            until: timeline.air.until,
            greatest,
            count: FrameCount {
                before: 0,
                delivered_by: 0,
            },
        })
    }

    /// Reads the next row.
    fn read_row<R: BufRead + Drop>(&mut self, rows: &mut Rows<R>) -> Result<(), AirFault>
        ensures run { self.new.run ≡ self.old.run }
        ensures departures { self.new.departures ≡ self.old.departures }
        ensures events { (self.new.events ≡ self.old.events) × (self.new.taken ≡ self.old.taken) }
        ensures frames { (self.new.count.before ≡ self.old.count.before)
            × (self.new.count.delivered_by ≡ self.old.count.delivered_by) }
        ensures until { self.new.until ≡ self.old.until }
        ensures end { self.old.greatest ≤ self.new.greatest }
        ensures moves { self.new.moves ≡ self.old.moves }
        ensures begin { rows.new.begin ≡ rows.old.begin }
        ensures row { OnOk result (ForSome self.new.row
            (IsRowBetween rows.old.begin rows.old.before rows.new.before)) }
    {
        let row = rows.next()?;
        if let Some(row) = &row {
            self.known = self.vehicles.number_of_row(row.id.as_str());
            if !self.has_station_for(row) {
                return Err(MovesFault::Line(rows.line(), Word::TooManyStations).into());
            }
            self.greatest = self.greatest.max(row.moment);
        }
        self.row = row;
        Ok(())
    }

    /// Whether the station of a row exists, or can be made.
    fn has_station_for(&self, row: &Row) -> bool {
        self.known.is_some() || self.next_config(row.place).is_some()
    }

    /// Returns how the next station that a row makes begins, at this place. `None` if it would be
    /// one too many, or would have the MID of another station or an invalid one.
    fn next_config(&self, place: Place) -> Option<Config>
        ensures { IfSome result IsConfig }
    {
        if self.run.world.stations().len() >= MOST_STATIONS {
            return None;
        }
        self.vehicles.next_config(place)
    }

    /// Does what comes next, if anything does. Returns whether it did.
    fn go_on<R: BufRead + Drop, S: EventSink>(
        &mut self,
        rows: &mut Rows<R>,
        sink: &mut S,
    ) -> Result<bool, AirFault>
        requires standings { AreIndexed self.old.run }
        ensures standings { OnOk result (AreIndexed self.new.run) }
        ensures until { self.new.until ≡ self.old.until }
        ensures moves { self.new.moves ≡ self.old.moves }
        ensures asked { self.new.events ≡ self.old.events }
        ensures going { OnOk result (GoesOn true self.old.run.world (S.Took sink.old)
            self.new.run.world (S.Took sink.new)) }
        ensures moving { IfOk result (λ more. more ≡ true →
            (rules : Rules) (configs : List Beginning) →
            IsUnderSome rules configs rows.old.begin rows.old.before self.old (S.Took sink.old) →
            IsUnderSome rules configs rows.new.begin rows.new.before self.new (S.Took sink.new)) }
        ensures ended { IfOk result (λ more. more ≡ false →
            (rules : Rules) (configs : List Beginning) (asked : List Addressed) →
            IsByMoment asked (asked_in self.old) →
            IsUnderSome rules configs rows.old.begin rows.old.before self.old (S.Took sink.old) →
            IsMovedRun rules configs self.old.moves.now asked self.old.until self.new.run.world
            (S.Took sink.new)) }
    {
        let end = self.end();
        let coming = self.next_until(end);
        let limit = limit_of(coming, end);
        // An event that delivers a frame is left out of a run with rows.
        let taken = take_turn(&mut self.run, &mut self.count, usize::MAX, limit, sink)?;
        if taken {
            return Ok(true);
        }
        match coming {
            Some(coming) => {
                self.take_in(coming, rows, sink)?;
                Ok(true)
            }
            None => Ok(false),
        }
    }

    /// Returns the last time that is run, by the rows that were read. It is not before the next
    /// row.
    fn end(&self) -> u64
        ensures end { result ≡ end_in self.now }
        ensures bound { result ≤ 2 ^ 63 + 10000 }
    {
        match self.until {
            Some(until) => until,
            None => self.greatest + AFTER_EVENTS,
        }
    }

    /// Returns what comes next from outside, up to a time. At one time a row comes first, then a
    /// departure, then an event.
    fn next_until(&self, end: u64) -> Option<Coming>
        requires end { end ≤ 2 ^ 63 + 10000 }
        ensures until { IfSome result (λ coming. coming.moment ≤ end) }
        ensures next { IfSome result (IsNext self.now) }
        ensures none { IfNone result (ComesFrom (end + 1) self.now) }
    {
        let next = first_of(
            first_of(self.next_row(), self.next_departure()),
            self.next_event(),
        )?;
        if next.moment <= end { Some(next) } else { None }
    }

    /// Returns the next row as what comes.
    fn next_row(&self) -> Option<Coming>
        ensures some { IfSome result (λ coming. IsComing self.now coming.moment coming.outside
            × ForSome self.now.row (λ row. coming.moment ≤ row.moment)) }
        ensures class { IfSome result (λ coming. class_in coming.outside ≡ 0) }
        ensures none { IfNone result (self.now.row ≡ None) }
    {
        match &self.row {
            Some(row) => Some(Coming {
                moment: row.moment,
                outside: Outside::Row,
            }),
            None => None,
        }
    }

    /// Returns the next departure as what comes.
    fn next_departure(&self) -> Option<Coming>
        ensures some { IfSome result (λ coming. IsComing self.now coming.moment coming.outside
            × All (λ d. coming.moment ≤ d.moment) (heap_items self.now.departures.waiting)) }
        ensures class { IfSome result (λ coming. class_in coming.outside ≡ 1) }
        ensures none { IfNone result (heap_items self.now.departures.waiting ≡ []) }
    {
        match self.departures.first() {
            Some(first) => Some(Coming {
                moment: first.moment,
                outside: Outside::Departure(first.station),
            }),
            None => None,
        }
    }

    /// Returns the next event of the scenario as what comes.
    fn next_event(&self) -> Option<Coming>
        ensures some { IfSome result (λ coming. IsComing self.now coming.moment coming.outside
            × ((e : Bor Addressed) → slice_get self.now.events.items self.now.taken ≡ Some e →
            coming.moment ≤ e.now.moment)) }
        ensures class { IfSome result (λ coming. class_in coming.outside ≡ 2) }
        ensures none { IfNone result (slice_get self.now.events.items self.now.taken ≡ None) }
    {
        match self.events.get(self.taken) {
            Some(event) => Some(Coming {
                moment: event.moment,
                outside: Outside::Event,
            }),
            None => None,
        }
    }

    /// Does what comes from outside.
    fn take_in<R: BufRead + Drop, S: EventSink>(
        &mut self,
        coming: Coming,
        rows: &mut Rows<R>,
        sink: &mut S,
    ) -> Result<(), AirFault>
        requires next { IsNext self.old coming }
        requires until { coming.moment ≤ end_in self.old }
        requires bound { coming.moment ≤ 2 ^ 63 + 10000 }
        requires standings { AreIndexed self.old.run }
        ensures standings { OnOk result (AreIndexed self.new.run) }
        ensures until { self.new.until ≡ self.old.until }
        ensures moves { self.new.moves ≡ self.old.moves }
        ensures asked { self.new.events ≡ self.old.events }
        ensures going { OnOk result (GoesOn true self.old.run.world (S.Took sink.old)
            self.new.run.world (S.Took sink.new)) }
        ensures moving { OnOk result ((rules : Rules) (configs made : List Beginning)
            (past : List Filed) (came : List Came) →
            IsUnder rules configs made past coming.moment coming.moment rows.old.begin
            rows.old.before self.old (S.Took sink.old) →
            CameUnder (length configs) (length made) came past (turn_in coming) self.old →
            IsUnderSome rules configs rows.new.begin rows.new.before self.new (S.Took sink.new)) }
    {
        match coming.outside {
            Outside::Row => self.take_row(rows, sink),
            Outside::Departure(station) => self.do_departure(station, coming.moment, sink),
            Outside::Event => self.do_next_event(sink),
        }
    }

    /// Does the next row, and reads the one after it.
    fn take_row<R: BufRead + Drop, S: EventSink>(
        &mut self,
        rows: &mut Rows<R>,
        sink: &mut S,
    ) -> Result<(), AirFault>
        requires standings { AreIndexed self.old.run }
        ensures standings { OnOk result (AreIndexed self.new.run) }
        ensures until { self.new.until ≡ self.old.until }
        ensures moves { self.new.moves ≡ self.old.moves }
        ensures asked { self.new.events ≡ self.old.events }
        ensures going { OnOk result (GoesOn true self.old.run.world (S.Took sink.old)
            self.new.run.world (S.Took sink.new)) }
        ensures moving { OnOk result ((rules : Rules) (configs made : List Beginning)
            (past : List Filed) (came : List Came) (moment : ℕ) →
            IsComing self.old moment Outside.Row → moment ≤ end_in self.old →
            IsUnder rules configs made past moment moment rows.old.begin rows.old.before
            self.old (S.Took sink.old) →
            CameUnder (length configs) (length made) came past (3 * moment) self.old →
            IsUnderSome rules configs rows.new.begin rows.new.before self.new (S.Took sink.new)) }
    {
        let Some(row) = self.row.take() else {
            return Ok(());
        };
        self.do_row(&row, rows.line(), sink)?;
        self.read_row(rows)
    }

    /// Has the station of this number leave, if no row of it came since.
    fn do_departure<S: EventSink>(
        &mut self,
        station: usize,
        moment: u64,
        sink: &mut S,
    ) -> Result<(), AirFault>
        requires moment { moment ≤ 2 ^ 63 + 10000 }
        requires standings { AreIndexed self.old.run }
        ensures standings { OnOk result (AreIndexed self.new.run) }
        ensures until { self.new.until ≡ self.old.until }
        ensures moves { self.new.moves ≡ self.old.moves }
        ensures row { self.new.row ≡ self.old.row }
        ensures events { (self.new.events ≡ self.old.events) × (self.new.taken ≡ self.old.taken) }
        ensures going { OnOk result (GoesOn true self.old.run.world (S.Took sink.old)
            self.new.run.world (S.Took sink.new)) }
        ensures moving { OnOk result (DoesLeave station moment self.old (S.Took sink.old) self.new
            (S.Took sink.new)) }
    {
        if self.departures.take_first()? {
            let leaves = FileEvent::Leaves { station, moment };
            do_filed(&mut self.run, &leaves, sink)
        } else {
            Ok(())
        }
    }

    /// Moves the station of a row, which is in this line. A station that the row makes then opens
    /// its ports. A station that was absent comes.
    fn do_row<S: EventSink>(&mut self, row: &Row, line: u64, sink: &mut S) -> Result<(), AirFault>
        requires row { FitsRun row.now }
        requires standings { AreIndexed self.old.run }
        ensures standings { OnOk result (AreIndexed self.new.run) }
        ensures until { self.new.until ≡ self.old.until }
        ensures end { self.new.greatest ≡ self.old.greatest }
        ensures moves { self.new.moves ≡ self.old.moves }
        ensures events { (self.new.events ≡ self.old.events) × (self.new.taken ≡ self.old.taken) }
        ensures going { OnOk result (GoesOn true self.old.run.world (S.Took sink.old)
            self.new.run.world (S.Took sink.new)) }
        ensures moving { OnOk result (DoesRow row.now self.old (S.Took sink.old) self.new
            (S.Took sink.new)) }
    {
        let found = self.station_of(row, line, sink)?;
        self.departures.note_row(found.station, row.moment)?;
        let event = move_of(found.station, row);
        move_in(&mut self.run, &event, found.ports, sink)
    }

    /// Returns the station of a row, which is in this line, and makes it if it does not exist. A new
    /// station opens the ports of the scenario.
    fn station_of<S: EventSink>(
        &mut self,
        row: &Row,
        line: u64,
        sink: &mut S,
    ) -> Result<RowStation<'a>, AirFault>
        requires standings { AreIndexed self.old.run }
        ensures standings { OnOk result (AreIndexed self.new.run) }
        ensures until { self.new.until ≡ self.old.until }
        ensures end { self.new.greatest ≡ self.old.greatest }
        ensures moves { self.new.moves ≡ self.old.moves }
        ensures events { (self.new.events ≡ self.old.events) × (self.new.taken ≡ self.old.taken) }
        ensures there { IfOk result (λ found.
            found.station < length self.new.run.world.stations) }
        ensures going { OnOk result (GoesOn true self.old.run.world (S.Took sink.old)
            self.new.run.world (S.Took sink.new)) }
        ensures moving { IfOk result (λ found.
            ((found.station < stations_in self.old) × (found.ports.now ≡ [])
            × StaysUnder self.old (S.Took sink.old) self.new (S.Took sink.new))
            ⊎ ((found.station ≡ stations_in self.old)
            × (found.ports.now ≡ self.old.moves.now.ports.items)
            × (config : Beginning)
            × MakesUnder config self.old (S.Took sink.old) self.new (S.Took sink.new))) }
    {
        if let Some(station) = self.known_station() {
            return Ok(RowStation {
                station,
                ports: &[],
            });
        }
        Ok(RowStation {
            station: self.make_station(row, line, sink)?,
            ports: self.moves.ports.as_slice(),
        })
    }

    /// Returns the number of the station of an id, if a row made it.
    fn number_of(&self, id: &str) -> Option<usize>
        ensures { IfSome result (λ station. station < length self.now.run.world.stations) }
    {
        let station = self.vehicles.number(id)?;
        if self.run.has_station(station) {
            Some(station)
        } else {
            None
        }
    }

    /// Returns the number of the station of the row that was read last, if a row made it.
    fn known_station(&self) -> Option<usize>
        ensures { IfSome result (λ station. station < length self.now.run.world.stations) }
    {
        let station = self.known?;
        if self.run.has_station(station) {
            Some(station)
        } else {
            None
        }
    }

    /// Makes the station of a row, which is in this line. Returns its number.
    fn make_station<S: EventSink>(
        &mut self,
        row: &Row,
        line: u64,
        sink: &mut S,
    ) -> Result<usize, AirFault>
        requires standings { AreIndexed self.old.run }
        ensures standings { OnOk result (AreIndexed self.new.run) }
        ensures until { self.new.until ≡ self.old.until }
        ensures end { self.new.greatest ≡ self.old.greatest }
        ensures moves { self.new.moves ≡ self.old.moves }
        ensures events { (self.new.events ≡ self.old.events) × (self.new.taken ≡ self.old.taken) }
        ensures number { IfOk result (λ station. station ≡ stations_in self.old) }
        ensures going { OnOk result (GoesOn true self.old.run.world (S.Took sink.old)
            self.new.run.world (S.Took sink.new)) }
        ensures moving { OnOk result ((config : Beginning)
            × MakesUnder config self.old (S.Took sink.old) self.new (S.Took sink.new)) }
        ensures there { IfOk result (λ station.
            station < length self.new.run.world.stations) }
    {
        let station = self.run.world.stations().len();
        let Some(config) = self.next_config(row.place) else {
            // This was checked when the row was read.
            return Err(MovesFault::Line(line, Word::TooManyStations).into());
        };
        self.run.add_station(&config, self.moves.contends)?;
        self.departures.add_station()?;
        let id = row.id.as_str();
        self.vehicles.add(self.alloc, id, station)?;
        let made = Note::Made { station, id };
        sink.note(&self.run.world, row.moment, &made)?;
        Ok(station)
    }

    /// Does the next event or departure of the scenario. One for an id of which no station is
    /// present isn't run, and the sink gets a note of it.
    fn do_next_event<S: EventSink>(&mut self, sink: &mut S) -> Result<(), AirFault>
        requires standings { AreIndexed self.old.run }
        ensures standings { OnOk result (AreIndexed self.new.run) }
        ensures until { self.new.until ≡ self.old.until }
        ensures going { OnOk result (GoesOn true self.old.run.world (S.Took sink.old)
            self.new.run.world (S.Took sink.new)) }
        ensures moving { (e : Bor Addressed) →
            slice_get self.old.events.items self.old.taken ≡ Some e → OnOk result
            (DoesEvent e.now self.old (S.Took sink.old) self.new (S.Took sink.new)) }
        ensures moves { self.new.moves ≡ self.old.moves }
        ensures row { self.new.row ≡ self.old.row }
        ensures departures { self.new.departures ≡ self.old.departures }
        ensures events { (e : Bor Addressed) →
            slice_get self.old.events.items self.old.taken ≡ Some e →
            (self.new.events ≡ self.old.events) × (self.new.taken ≡ self.old.taken + 1) }
        ensures asked { self.new.events ≡ self.old.events }
    {
        let Some(event) = self.events.get(self.taken) else {
            return Ok(());
        };
        let event = *event;
        self.taken += 1;
        match &event.addressee {
            Addressee::Station(station) => do_at(self.alloc, &mut self.run, event, *station, sink),
            Addressee::Vehicle(id) => match self.present_station(id.as_str()) {
                Some(station) => do_at(self.alloc, &mut self.run, event, station, sink),
                None => {
                    let id = id.as_str();
                    let has_left = self.number_of(id).is_some();
                    let absent = Note::Absent {
                        id,
                        event,
                        has_left,
                    };
                    sink.note(&self.run.world, event.moment, &absent)?;
                    Ok(())
                }
            },
        }
    }

    /// Returns the number of the station of an id, if it is present.
    fn present_station(&self, id: &str) -> Option<usize> {
        let station = self.number_of(id)?;
        if self.run.is_present(station) {
            Some(station)
        } else {
            None
        }
    }
}

/// Returns events and departures by time. Those of one time keep their order.
fn in_order(alloc: Global, addressed: &[AddressedEvent]) -> Result<Vec<&AddressedEvent>, AllocError>
    requires ranges { All FitsAddressed addressed.now }
    ensures ranges { IfOk result (λ events. All (λ a. FitsAddressed a.now) events.items) }
    ensures sorted { IfOk result (λ events.
        IsNonDecreasingBy (λ a. a.now.moment) events.items) }
    ensures each { IfOk result (λ events. IsByMoment addressed.now
        (map (λ (a : Bor Addressed). a.now) events.items)) }
{
    let mut events = Vec::with_capacity(alloc, addressed.len())?;
    for event in addressed {
        events.push(event)?;
    }
    events.sort_by_key(|event| event.moment)?;
    Ok(events)
}

/// Returns the time of the last of these, and 0 if there are no events.
fn last_moment(events: &[&AddressedEvent]) -> u64
    requires { All (λ a. FitsAddressed a.now) events.now }
    ensures { result < 2 ^ 63 }
{
    match events.len().checked_sub(1) {
        Some(last) => events[last].moment,
        None => 0,
    }
}

/// Returns the earlier of two, and the former if they have one time.
fn first_of(former: Option<Coming>, latter: Option<Coming>) -> Option<Coming>
    requires classes { IfSome former (λ one. IfSome latter (λ other.
        class_in one.outside ≤ class_in other.outside)) }
    ensures one { IfSome result (λ first. (former ≡ Some first) ⊎ (latter ≡ Some first)) }
    ensures former { IfSome former (λ other. IfSome result (λ first.
        first.moment ≤ other.moment)) }
    ensures latter { IfSome latter (λ other. IfSome result (λ first.
        first.moment ≤ other.moment)) }
    ensures former_turn { IfSome former (λ other. IfSome result (λ first.
        turn_in first ≤ turn_in other)) }
    ensures latter_turn { IfSome latter (λ other. IfSome result (λ first.
        turn_in first ≤ turn_in other)) }
    ensures none { IfNone result ((former ≡ None) × (latter ≡ None)) }
{
    match (former, latter) {
        (Some(former), Some(latter)) if latter.moment < former.moment => Some(latter),
        (Some(former), _) => Some(former),
        (None, latter) => latter,
    }
}

/// Returns the time before which what the radio model planned comes first: the time of what comes
/// from outside, up to the last time.
fn limit_of(coming: Option<Coming>, end: u64) -> u64
    requires { end ≤ 2 ^ 63 + 10000 }
    ensures some { IfSome coming (λ coming. result ≡ coming.moment) }
    ensures none { IfNone coming (result ≡ end + 1) }
{
    match coming {
        Some(coming) => coming.moment,
        None => end + 1,
    }
}

/// Returns the move of a row.
fn move_of(station: usize, row: &Row) -> Event
    requires { FitsRun row.now }
    ensures range { IsInRange result.what }
    ensures kept { (released : ℕ) → IsKept released (what_of result.what) }
    ensures moment { result.moment ≡ row.now.moment }
    ensures station { result.station ≡ station }
    ensures event { event_of result ≡ row_move station row.now }
{
    Event {
        station,
        moment: row.moment,
        what: What::Call(OwnCall::MoveTo {
            place: row.place,
            pai: true,
            speed: row.speed,
            heading: row.heading,
        }),
    }
}
