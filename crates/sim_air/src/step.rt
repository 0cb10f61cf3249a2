//! How a run does what comes from outside, and what the radio model planned.

ghost use Rattle.std.specs.Prelude.{[], ℕ, IsTrue, ◌≡◌, ◌≤◌, ◌<◌, ◌+◌, ◌^◌, ◌∷◌, All, length};
ghost use Rattle.std.specs.Prelude.{IfOk, OnOk, ◌⊎◌, Bool, true, false, map};
ghost use Rattle.sim_scenario.specs.Airs.{moment_of};
ghost use Rattle.sim_scenario.specs.Events.{FitsAddressed, station_in};
ghost use Rattle.its_world.specs.Events.{IsInRange, event_of, what_of};
ghost use Rattle.its_world.specs.Steps.{IsKept};
ghost use Rattle.sim_air.specs.AirRun.{events_in};
ghost use Rattle.sim_air.specs.Going.{GoesOn};
ghost use Rattle.sim_air.specs.Moving.{DoesAsked, DoesFiled, DoesTaken, DoesThere};
ghost use Rattle.sim_air.specs.Moving.{LeavesOwn, TakesOwn};
ghost use Rattle.sim_air.specs.Outside.{Delivers, opening_at, station_of_filed};
ghost use Rattle.sim_air.specs.FileEvents.{IsFiledInRange, filed_of};
ghost use Rattle.sim_air.specs.Runs.{AreIndexed};
ghost use Rattle.sim_queue.specs.Waiting.{delivery_of, own_of};
ghost use Rattle.sim_air_model.specs.Timetable.Filed.{Happens};

use crate::fault::AirFault;
use crate::frames::{FrameCount, release_delivered};
use crate::run::{Run, place_of};
use its_station::OwnCall;
use its_world::{Event, What};
use sim_queue::{Delivery, Scheduled};
use sim_scenario::events::{AddressedEvent, FileEvent};
use sim_simulation::EventSink;
use std::alloc::Global;

/// Does an event or leave of the scenario at the station of this number. Nothing is done if there is
/// no such station.
pub(crate) fn do_at<S: EventSink>(
    alloc: Global,
    run: &mut Run<'_>,
    event: &AddressedEvent,
    station: usize,
    sink: &mut S,
) -> Result<(), AirFault>
    requires fits { FitsAddressed event.now }
    requires standings { AreIndexed run.old }
    ensures standings { OnOk result (AreIndexed run.new) }
    ensures going { OnOk result (GoesOn true run.old.world (S.Took sink.old) run.new.world
        (S.Took sink.new)) }
    ensures moving { OnOk result (DoesAsked event.now station run.old (S.Took sink.old) run.new
        (S.Took sink.new)) }
{
    let Some(place) = place_of(&run.world, station) else {
        return Ok(());
    };
    let filed = event.at(alloc, station, place)?;
    do_filed(run, &filed, sink)
}

/// Does an event or departure of the scenario, if its station exists.
pub(crate) fn do_filed<S: EventSink>(
    run: &mut Run<'_>,
    filed: &FileEvent,
    sink: &mut S,
) -> Result<(), AirFault>
    requires range { IsFiledInRange filed.now }
    requires moment { moment_of filed.now ≤ 2 ^ 63 + 10000 }
    requires standings { AreIndexed run.old }
    ensures standings { OnOk result (AreIndexed run.new) }
    ensures going { OnOk result (GoesOn true run.old.world (S.Took sink.old) run.new.world
        (S.Took sink.new)) }
    ensures moving { OnOk result (DoesFiled (moment_of filed.now) (filed_of filed.now) run.old
        (S.Took sink.old) run.new (S.Took sink.new)) }
{
    if is_there(run, filed) {
        run.do_filed(filed, sink)
    } else {
        Ok(())
    }
}

/// Whether the station exists, and the frame that is delivered, if any, is kept. A scenario with
/// rows of moves delivers no frame.
fn is_there(run: &Run<'_>, filed: &FileEvent) -> bool
    ensures there { IsTrue result → station_in filed.now < length run.now.world.stations }
    ensures kept { IsTrue result → All (λ event. IsKept run.now.world.released event.what)
        (events_in (filed_of filed.now ∷ [])) }
    ensures away { result ≡ false →
        (length run.now.world.stations ≤ station_of_filed (filed_of filed.now))
        ⊎ Delivers (filed_of filed.now) }
{
    match filed {
        FileEvent::Happens(event) => run.has_station(event.station) && run.keeps(&event.what),
        FileEvent::Leaves { station, .. } => run.has_station(*station),
    }
}

/// Takes the first of the radio model's own, if its time is before a limit, and does it. Returns
/// whether it did. First it releases frames whose deliveries are done, but none from the `lowest` on.
#[inline(always)]
pub(crate) fn take_own<S: EventSink>(
    run: &mut Run<'_>,
    count: &mut FrameCount,
    lowest: usize,
    limit: u64,
    sink: &mut S,
) -> Result<bool, AirFault>
    requires limit { limit ≤ 2 ^ 63 + 10001 }
    requires standings { AreIndexed run.old }
    ensures standings { OnOk result (AreIndexed run.new) }
    ensures kept { OnOk result (run.old.world.released ≤ lowest →
        run.new.world.released ≤ lowest) }
    ensures going { (grows : Bool) → OnOk result (GoesOn grows run.old.world (S.Took sink.old)
        run.new.world (S.Took sink.new)) }
    ensures taken { IfOk result (λ taken. taken ≡ true →
        TakesOwn limit count.old run.old (S.Took sink.old) count.new run.new
        (S.Took sink.new)) }
    ensures left { IfOk result (λ taken. taken ≡ false →
        LeavesOwn limit count.old run.old (S.Took sink.old) count.new run.new
        (S.Took sink.new)) }
{
    // Most are deliveries in the line, and `deliver` copies no event of another kind.
    if let Some(delivery) = run.queue.pop_delivery_before(limit) {
        release_delivered(run, count, lowest, delivery.moment);
        deliver(run, &delivery, sink)?;
        return Ok(true);
    }
    take_planned(run, count, lowest, limit, sink)
}

/// Takes the first of the radio model's own, as `take_own` does, or releases a frame that a station
/// holds. Returns whether it did. A frame is released when it is due, after all that is done up to
/// that time.
#[inline(always)]
pub(crate) fn take_turn<S: EventSink>(
    run: &mut Run<'_>,
    count: &mut FrameCount,
    lowest: usize,
    limit: u64,
    sink: &mut S,
) -> Result<bool, AirFault>
    requires limit { limit ≤ 2 ^ 63 + 10001 }
    requires standings { AreIndexed run.old }
    ensures standings { OnOk result (AreIndexed run.new) }
    ensures kept { OnOk result (run.old.world.released ≤ lowest →
        run.new.world.released ≤ lowest) }
    ensures going { (grows : Bool) → OnOk result (GoesOn grows run.old.world (S.Took sink.old)
        run.new.world (S.Took sink.new)) }
    ensures taken { IfOk result (λ taken. taken ≡ true →
        TakesOwn limit count.old run.old (S.Took sink.old) count.new run.new
        (S.Took sink.new)) }
    ensures left { IfOk result (λ taken. taken ≡ false →
        LeavesOwn limit count.old run.old (S.Took sink.old) count.new run.new
        (S.Took sink.new)) }
{
    let Some(due) = run.due_before(limit) else {
        return take_own(run, count, lowest, limit, sink);
    };
    take_until_due(run, count, lowest, due, sink)?;
    Ok(true)
}

/// Takes the first of the radio model's own, as `take_own` does, if its time is at most this one.
/// Otherwise releases the frame that is due at this time.
fn take_until_due<S: EventSink>(
    run: &mut Run<'_>,
    count: &mut FrameCount,
    lowest: usize,
    due: u64,
    sink: &mut S,
) -> Result<(), AirFault>
    requires due { due ≤ 2 ^ 63 + 10000 }
    requires standings { AreIndexed run.old }
    ensures standings { OnOk result (AreIndexed run.new) }
    ensures kept { OnOk result (run.old.world.released ≤ lowest →
        run.new.world.released ≤ lowest) }
    ensures going { (grows : Bool) → OnOk result (GoesOn grows run.old.world (S.Took sink.old)
        run.new.world (S.Took sink.new)) }
{
    if take_own(run, count, lowest, due + 1, sink)? {
        return Ok(());
    }
    run.release_due(sink)?;
    Ok(())
}

/// Takes the first of the radio model's own and does it, as `take_own` does.
#[inline(never)]
fn take_planned<S: EventSink>(
    run: &mut Run<'_>,
    count: &mut FrameCount,
    lowest: usize,
    limit: u64,
    sink: &mut S,
) -> Result<bool, AirFault>
    requires limit { limit ≤ 2 ^ 63 + 10001 }
    requires standings { AreIndexed run.old }
    ensures standings { OnOk result (AreIndexed run.new) }
    ensures kept { OnOk result (run.old.world.released ≤ lowest →
        run.new.world.released ≤ lowest) }
    ensures going { (grows : Bool) → OnOk result (GoesOn grows run.old.world (S.Took sink.old)
        run.new.world (S.Took sink.new)) }
    ensures taken { IfOk result (λ taken. taken ≡ true →
        TakesOwn limit count.old run.old (S.Took sink.old) count.new run.new
        (S.Took sink.new)) }
    ensures left { IfOk result (λ taken. taken ≡ false →
        LeavesOwn limit count.old run.old (S.Took sink.old) count.new run.new
        (S.Took sink.new)) }
{
    let Some(waiting) = run.queue.pop_before(limit) else {
        return Ok(false);
    };
    release_delivered(run, count, lowest, waiting.moment);
    do_own(run, &waiting, sink)?;
    Ok(true)
}

/// Does a delivery, if its station exists and its frame is kept. Both always hold in a run that is
/// under way (`IsMoving`). But `IsMoving` also says what the sink took, which `run_air` doesn't
/// require of its caller. So the other branch can't be `unreachable!()`.
#[inline(always)]
fn deliver<S: EventSink>(
    run: &mut Run<'_>,
    delivery: &Delivery,
    sink: &mut S,
) -> Result<(), AirFault>
    requires moment { delivery.now.moment ≤ 2 ^ 63 + 10000 }
    requires standings { AreIndexed run.old }
    ensures standings { OnOk result (AreIndexed run.new) }
    ensures released { run.new.world.released ≡ run.old.world.released }
    ensures going { (grows : Bool) → OnOk result (GoesOn grows run.old.world (S.Took sink.old)
        run.new.world (S.Took sink.new)) }
    ensures moving { OnOk result (DoesTaken (delivery_of delivery.now) run.old (S.Took sink.old)
        run.new (S.Took sink.new)) }
{
    if can_deliver(run, delivery) {
        run.deliver(delivery, sink)
    } else {
        Ok(())
    }
}

/// Whether the station of a delivery exists, and its frame is kept.
#[inline(always)]
fn can_deliver(run: &Run<'_>, delivery: &Delivery) -> bool
    ensures there { IsTrue result → delivery.now.station < length run.now.world.stations }
    ensures kept { IsTrue result → run.now.world.released ≤ delivery.now.frame }
    ensures can { delivery.now.station < length run.now.world.stations →
        run.now.world.released ≤ delivery.now.frame → IsTrue result }
{
    run.has_station(delivery.station) && run.world.released() <= delivery.frame
}

/// Does what the radio model planned, if its station exists and the frame that it delivers, if any,
/// is kept. Both always hold, as in `deliver`.
fn do_own<S: EventSink>(
    run: &mut Run<'_>,
    waiting: &Scheduled,
    sink: &mut S,
) -> Result<(), AirFault>
    requires moment { waiting.now.moment ≤ 2 ^ 63 + 10000 }
    requires standings { AreIndexed run.old }
    ensures standings { OnOk result (AreIndexed run.new) }
    ensures released { run.new.world.released ≡ run.old.world.released }
    ensures going { (grows : Bool) → OnOk result (GoesOn grows run.old.world (S.Took sink.old)
        run.new.world (S.Took sink.new)) }
    ensures moving { OnOk result (DoesTaken waiting.now run.old (S.Took sink.old) run.new
        (S.Took sink.new)) }
{
    if can_do(run, waiting) {
        run.do_own(waiting, sink)
    } else {
        Ok(())
    }
}

/// Whether the station exists, and the frame that is delivered, if any, is kept.
fn can_do(run: &Run<'_>, waiting: &Scheduled) -> bool
    ensures there { IsTrue result → waiting.now.station < length run.now.world.stations }
    ensures kept { IsTrue result → IsKept run.now.world.released (own_of waiting.now.own) }
    ensures can { waiting.now.station < length run.now.world.stations →
        IsKept run.now.world.released (own_of waiting.now.own) → IsTrue result }
{
    run.has_station(waiting.station) && run.keeps_own(&waiting.own)
}

/// Does a move, opens these ports at its station, and has the station come if it was absent.
pub(crate) fn move_in<S: EventSink>(
    run: &mut Run<'_>,
    event: &Event,
    ports: &[u16],
    sink: &mut S,
) -> Result<(), AirFault>
    requires range { IsInRange event.now.what }
    requires moment { event.now.moment ≤ 2 ^ 63 + 10000 }
    requires kept { (released : ℕ) → IsKept released (what_of event.now.what) }
    requires standings { AreIndexed run.old }
    ensures standings { OnOk result (AreIndexed run.new) }
    ensures going { OnOk result (event.now.station < length run.old.world.stations →
        GoesOn true run.old.world (S.Took sink.old) run.new.world (S.Took sink.new)) }
    ensures moving { OnOk result (DoesThere event.now.station event.now.moment
        (Happens (event_of event.now)
        ∷ map (opening_at event.now.station event.now.moment) ports.now) run.old
        (S.Took sink.old) run.new (S.Took sink.new)) }
{
    let came = run.do_outer(event, sink)?;
    open_ports(run, event, ports, sink)?;
    if came {
        run.note_coming(event, sink)?;
    }
    Ok(())
}

/// Opens these ports at the station of an event, at the time of the event.
fn open_ports<S: EventSink>(
    run: &mut Run<'_>,
    event: &Event,
    ports: &[u16],
    sink: &mut S,
) -> Result<(), AirFault>
    requires moment { event.now.moment ≤ 2 ^ 63 + 10000 }
    requires standings { AreIndexed run.old }
    ensures standings { OnOk result (AreIndexed run.new) }
    ensures going { OnOk result (event.now.station < length run.old.world.stations →
        GoesOn true run.old.world (S.Took sink.old) run.new.world (S.Took sink.new)) }
    ensures moving { OnOk result (DoesThere event.now.station event.now.moment
        (map (opening_at event.now.station event.now.moment) ports.now) run.old
        (S.Took sink.old) run.new (S.Took sink.new)) }
{
    for port in ports {
        let open = Event {
            station: event.station,
            moment: event.moment,
            what: What::Call(OwnCall::Open(*port)),
        };
        // No station comes with it.
        run.do_outer(&open, sink)?;
    }
    Ok(())
}
