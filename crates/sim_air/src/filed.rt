//! A run with a radio model over the events of a file.

ghost use Rattle.std.specs.Prelude.{[], List, Some, None, All, map, length, slice_get, true, false};
ghost use Rattle.std.specs.Prelude.{◌≡◌, ◌≤◌, ◌<◌, ◌+◌, ◌^◌, ◌∷◌, IfNone, IfOk, IfSome, OnOk};
ghost use Rattle.std.specs.List.Sorted.{IsNonDecreasingBy};
ghost use denote.Ref.{Bor};
ghost use Rattle.its_model.specs.World.{Config as Beginning, opening};
ghost use Rattle.its_world.specs.Events.{IsConfig, config_of};
ghost use Rattle.its_world.specs.Mids.{AreApart};
ghost use Rattle.its_world.specs.State.{RepresentsWorld};
ghost use Rattle.sim_air.specs.AirRun.{IsAirRun};
ghost use Rattle.sim_air.specs.AirTimed.{IsTimedRun, rules_of};
ghost use Rattle.sim_air.specs.Beside.{rules_beside};
ghost use Rattle.sim_air.specs.Contenders.{NoneContends};
ghost use Rattle.sim_air.specs.Delivered.{KeepsFrom};
ghost use Rattle.sim_air.specs.Filing.{IsFiling};
ghost use Rattle.sim_air.specs.Going.{HasDone};
ghost use Rattle.sim_air.specs.Keeps.{GoesBy};
ghost use Rattle.sim_air.specs.Runs.{AreIndexed};
ghost use Rattle.sim_air_model.specs.Timetable.{Filed, Rules, air_opening};
ghost use Rattle.sim_air.specs.Due.{AreDue};
ghost use Rattle.sim_queue.specs.Keeps.{Keeps};
ghost use Rattle.sim_air.specs.FileEvents.{IsFiledInRange, filed_in, filed_of};
ghost use Rattle.sim_queue.specs.Traffics.{all_traffic};
ghost use Rattle.sim_scenario.specs.Airs.{end_of, moment_of};
ghost use Rattle.sim_scenario.specs.declared.events.event.FileEvent.{FileEvent as Line};

use crate::fault::AirFault;
use crate::filed_run::FiledRun;
use crate::frames::FrameCount;
use crate::run::{Contenders, Run};
use crate::step::take_turn;
use its_model::laws::every_schedule;
use its_world::{Config, What, World};
use sim_scenario::events::{FileEvent, end_of};
use sim_settings::{Air, Traffic};
use sim_simulation::EventSink;
use std::alloc::{AllocError, Global};

/// Runs the events and departures of a file with a radio model, and passes each event to a sink as
/// it is done. Returns the world that the last one left.
///
/// What waits is taken in the order of its time. At one time the events of the file come first, in
/// their order. After them comes what the radio model put, in the order in which it was put. At the
/// start it puts a tick of each present station, if beacons are on, at a jitter, and then for each
/// traffic in order a send of each present station, at a random time below its period.
///
/// - A frame that a present station sends is received by each other present station in range, after
///   the delay. Each receiver loses it with the given probability.
/// - After a tick that was not refused the station's next one is put: at the event's time, or when
///   its beacon is due by the next jitter, if that is later. After a send of traffic, refused or
///   not, the next one is put a period later.
/// - A station is absent once the file has it leave. A tick or a send that is taken of an absent
///   station is not run, and nothing follows it.
/// - A move that is not refused makes an absent station present. Its first tick and its first sends
///   are put as at the start, if none of them waits.
///
/// - A station that contends, by `contend`, may hold the frame in which it forwards a geobroadcast.
///   It is released when it is due, after all that is done up to that time: its receivers are found
///   then. Copies of it cancel it, and a restart drops it.
///
/// The run ends when nothing waits up to the last time. Frames are released some time after their
/// deliveries are done, except those from the first on that an event of the file delivers.
///
/// By the written rules, there is a list of events after which the world is as at the end. The laws
/// over every schedule hold for that end. The sink took exactly these events and their entries.
/// Those of the file up to the last time are among them, in their order. One of these laws is that
/// a geobroadcast reaches its stations if its deliveries are made (`what_is_delivered_reaches` of
/// `its_model`).
///
/// The numbers of each config have to be in their ranges. At most 65535 stations are possible, no
/// two with the same MID. The speed of each `MoveTo` has to be in its range. `present` has, by
/// numbers, which stations are present at the start. If an allocation or the sink failed, the sink
/// has the events before.
///
/// - `timed`: a run that ends well and in which no station contends did exactly the events of the
///   timetable of the model (`IsTimedRun`).
/// - `file`: the events of the file up to the last time are among these, by time, and at one time
///   in the order of the file (`IsAirRun`).
pub fn run_air<S: EventSink>(
    alloc: Global,
    configs: &[Config],
    present: &[bool],
    file: &[FileEvent],
    air: &Air,
    every: &[Traffic],
    contend: &[bool],
    sink: &mut S,
) -> Result<World, AirFault>
    requires configs { All IsConfig configs.now }
    requires count { length configs.now ≤ 65535 }
    requires apart { AreApart configs.now }
    requires events { All IsFiledInRange file.now }
    requires moments { All (λ filed. moment_of filed < 2 ^ 63) file.now }
    ensures file { S.Took sink.old [] [] → IfOk result (λ world.
        IsAirRun (map config_of configs.now) (map filed_of file.now)
        (end_of air.now.until file.now) world (S.Took sink.new)) }
    ensures timed { NoneContends contend.now → S.Took sink.old [] [] → IfOk result (λ world.
        IsTimedRun (rules_of air.now (all_traffic every.now) (end_of air.now.until file.now)
        present.now) (map config_of configs.now) (map filed_of file.now) world
        (S.Took sink.new)) }
{
    // A law, for the proof alone.
    every_schedule();
    let contenders = Contenders {
        contend,
        rows_contend: false,
    };
    let mut filed = FiledRun::begin(alloc, configs, present, file, air, every, contenders)?;
    for _ in 0..usize::MAX {
        if !filed.go_on(sink)? {
            return Ok(filed.run.world);
        }
    }
    Err(AirFault::TooManyEvents)
}

impl<'a> FiledRun<'a> {
    /// A run before its first event.
    fn begin(
        alloc: Global,
        configs: &[Config],
        present: &[bool],
        file: &'a [FileEvent],
        air: &Air,
        every: &'a [Traffic],
        contenders: Contenders<'_>,
    ) -> Result<FiledRun<'a>, AirFault>
        requires configs { All IsConfig configs.now }
        requires count { length configs.now ≤ 65535 }
        requires apart { AreApart configs.now }
        requires events { All IsFiledInRange file.now }
        requires moments { All (λ filed. moment_of filed < 2 ^ 63) file.now }
        ensures world { IfOk result (λ filed.
            RepresentsWorld filed.run.world (opening (map config_of configs.now))) }
        ensures kept { IfOk result (λ filed. filed.run.world.released ≡ 0) }
        ensures standings { IfOk result (λ filed. AreIndexed filed.run) }
        ensures present { IfOk result (λ filed. filed.run.present.items ≡ present.now) }
        ensures steady { contenders.entry.rows_contend ≡ false →
            NoneContends contenders.entry.contend.now →
            IfOk result (λ filed. filed.run.contentions ≡ None) }
        ensures rules { IfOk result (λ filed. GoesBy (rules_of air.now (all_traffic every.now)
            (end_of air.now.until []) present.now) filed.run) }
        ensures keeps { IfOk result (λ filed. Keeps filed.run.queue filed.run.draws (air_opening
            (rules_of air.now (all_traffic every.now) (end_of air.now.until []) present.now)
            (map config_of configs.now) []).timetable) }
        ensures count { IfOk result (λ filed. (filed.count.before ≡ 0)
            × (filed.count.delivered_by ≡ 0)) }
        ensures due { IfOk result (λ filed. AreDue (map filed_of file.now)
            (end_of air.now.until file.now) (filed_in filed.due.items)) }
        ensures taken { IfOk result (λ filed. filed.taken ≡ 0) }
        ensures ranges { IfOk result (λ filed.
            All (λ e. IsFiledInRange e.now) filed.due.items) }
        ensures deliveries { IfOk result (λ filed.
            All (λ e. KeepsFrom filed.lowest e.now) filed.due.items) }
        ensures end { IfOk result (λ filed. filed.end ≡ end_of air.now.until file.now) }
    {
        let end = end_of(air, file);
        let due = due_until(alloc, file, end)?;
        let lowest = lowest_delivery(due.as_slice());
        Ok(FiledRun {
            run: Run::begin(alloc, configs, present, air, every, contenders)?,
            count: FrameCount {
                before: 0,
                delivered_by: 0,
            },
            due,
            taken: 0,
            end,
            lowest,
        })
    }

    /// Does what comes next, if anything does: of the file, or what the radio model planned.
    /// Returns whether it did.
    fn go_on<S: EventSink>(&mut self, sink: &mut S) -> Result<bool, AirFault>
        requires standings { AreIndexed self.old.run }
        requires kept { self.old.run.world.released ≤ self.old.lowest }
        requires ranges { All (λ e. IsFiledInRange e.now) self.old.due.items }
        requires deliveries { All (λ e. KeepsFrom self.old.lowest e.now) self.old.due.items }
        ensures standings { OnOk result (AreIndexed self.new.run) }
        ensures kept { OnOk result (self.new.run.world.released ≤ self.new.lowest) }
        ensures due { self.new.due ≡ self.old.due }
        ensures end { self.new.end ≡ self.old.end }
        ensures lowest { self.new.lowest ≡ self.old.lowest }
        ensures filing { IfOk result (λ more. more ≡ true →
            (rules : Rules) (configs : List Beginning) →
            IsFiling rules configs self.old (S.Took sink.old) →
            IsFiling rules configs self.new (S.Took sink.new)) }
        ensures timed { IfOk result (λ more. more ≡ false →
            (rules : Rules) (configs : List Beginning) (file : List Filed) →
            AreDue file self.old.end (filed_in self.old.due.items) →
            IsFiling rules configs self.old (S.Took sink.old) →
            IsTimedRun (rules_beside [] self.old.end rules) configs file self.new.run.world
            (S.Took sink.new)) }
        ensures going { IfOk result (λ more. more ≡ true → (configs : List Beginning) →
            HasDone configs self.old (S.Took sink.old) →
            HasDone configs self.new (S.Took sink.new)) }
        ensures file { IfOk result (λ more. more ≡ false →
            (configs : List Beginning) (file : List Filed) →
            AreDue file self.old.end (filed_in self.old.due.items) →
            HasDone configs self.old (S.Took sink.old) →
            IsAirRun configs file self.old.end self.new.run.world (S.Took sink.new)) }
    {
        let limit = self.limit();
        let taken = take_turn(&mut self.run, &mut self.count, self.lowest, limit, sink)?;
        if taken {
            return Ok(true);
        }
        let Some(filed) = self.next() else {
            return Ok(false);
        };
        self.taken += 1;
        self.run.do_filed(filed, sink)?;
        Ok(true)
    }

    /// Returns the time before which what the radio model planned comes first: the time of the next
    /// event of the file, if there is one.
    fn limit(&self) -> u64
        ensures next { (e : Bor Line) → slice_get self.now.due.items self.now.taken ≡ Some e →
            result ≡ moment_of e.now }
        ensures most { result ≤ self.now.end + 1 }
        ensures last { length self.now.due.items ≤ self.now.taken → result ≡ self.now.end + 1 }
    {
        match self.next() {
            Some(next) => next.moment(),
            None => self.end + 1,
        }
    }

    /// Returns the next event or departure of the file.
    fn next(&self) -> Option<&'a FileEvent>
        ensures some { IfSome result (λ next.
            slice_get self.now.due.items self.now.taken ≡ Some next) }
        ensures none { IfNone result (length self.now.due.items ≤ self.now.taken) }
    {
        match self.due.get(self.taken) {
            Some(next) => Some(*next),
            None => None,
        }
    }
}

/// Returns the events and departures of a file up to a time, in the order of time and then of the
/// file.
fn due_until(alloc: Global, file: &[FileEvent], end: u64) -> Result<Vec<&FileEvent>, AllocError>
    requires ranges { All IsFiledInRange file.now }
    ensures due { IfOk result (λ due. AreDue (map filed_of file.now) end (filed_in due.items)) }
    ensures ranges { IfOk result (λ due. All (λ e. IsFiledInRange e.now) due.items) }
    ensures within { IfOk result (λ due. All (λ e. moment_of e.now ≤ end) due.items) }
    ensures sorted { IfOk result (λ due. IsNonDecreasingBy (λ e. moment_of e.now) due.items) }
{
    let mut due = Vec::new(alloc);
    for filed in file {
        if filed.moment() <= end {
            due.push(filed)?;
        }
    }
    due.sort_by_key(|filed| filed.moment())?;
    Ok(due)
}

/// Returns the lowest number of a frame that one of these delivers, or the greatest `usize`.
fn lowest_delivery(due: &[&FileEvent]) -> usize
    ensures { All (λ e. KeepsFrom result e.now) due.now }
{
    let mut lowest = usize::MAX;
    for filed in due {
        lowest = lowest.min(delivered(filed));
    }
    lowest
}

/// Returns the number of the frame that an event delivers, or the greatest `usize`.
fn delivered(filed: &FileEvent) -> usize
    ensures { KeepsFrom result filed.now }
{
    match filed {
        FileEvent::Happens(event) => match &event.what {
            What::Deliver(frame) => *frame,
            What::Call(_) => usize::MAX,
        },
        FileEvent::Leaves { .. } => usize::MAX,
    }
}
