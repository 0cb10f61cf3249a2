//! What a radio model plans at its start and when a station comes: ticks, and the sends of its
//! traffic. Times are in milliseconds. The error is `TooManyEvents` if 2^64 events were put, and
//! `OutOfMemory` if an allocation failed.

ghost use Rattle.std.specs.Prelude.{◌≡◌, ◌≤◌, ◌+◌, ◌^◌, OnOk, cond};
ghost use Rattle.sim_air_model.specs.Timetable.{Timetable, come_sending, come_sending_all};
ghost use Rattle.sim_air_model.specs.Timetable.{come_ticking, is_present, schedule_first_sends};
ghost use Rattle.sim_air_model.specs.Timetable.{schedule_first_ticks, schedule_send};
ghost use Rattle.sim_air_model.specs.Timetable.{schedule_tick, schedule_traffic};
ghost use Rattle.sim_queue.specs.Keeps.{Keeps};
ghost use Rattle.sim_queue.specs.Traffics.{all_traffic, traffic_of};

use crate::draws::Draws;
use crate::fault::QueueFault;
use crate::queue::Queue;
use crate::scheduled::AirAction;
use sim_settings::Traffic;

/// Whether the station of this number is present, by `present`, which has an element per station. A
/// station that doesn't exist is absent.
pub fn is_present(present: &[bool], station: usize) -> bool
    ensures { result ≡ is_present present.now station }
{
    match present.get(station) {
        Some(is_present) => *is_present,
        None => false,
    }
}

/// Puts the first tick of each of the first `count` stations that is present, at a random jitter.
pub fn schedule_first_ticks(
    queue: &mut Queue,
    draws: &mut Draws,
    present: &[bool],
    count: usize,
) -> Result<(), QueueFault>
    ensures ticks { (t : Timetable) → Keeps queue.old draws.old t → OnOk result
        (Keeps queue.new draws.new (schedule_first_ticks present.now count t)) }
{
    for station in 0..count {
        schedule_first_tick(queue, draws, present, station)?;
    }
    Ok(())
}

/// Puts the first tick of a station, if it is present.
fn schedule_first_tick(
    queue: &mut Queue,
    draws: &mut Draws,
    present: &[bool],
    station: usize,
) -> Result<(), QueueFault>
    ensures tick { (t : Timetable) → Keeps queue.old draws.old t → OnOk result
        (Keeps queue.new draws.new (cond (is_present present.now station)
        (schedule_tick station 0 0 t) t)) }
{
    if is_present(present, station) {
        schedule_tick(queue, draws, station, 0, 0)
    } else {
        Ok(())
    }
}

/// Puts the first sends of each traffic, in order: one for each of the first `count` stations that
/// is present, at a random time below the period.
pub fn schedule_traffic(
    queue: &mut Queue,
    draws: &mut Draws,
    present: &[bool],
    every: &[Traffic],
    count: usize,
) -> Result<(), QueueFault>
    ensures sends { (t : Timetable) → Keeps queue.old draws.old t → OnOk result
        (Keeps queue.new draws.new (schedule_traffic present.now (all_traffic every.now) count t)) }
{
    for (number, traffic) in every.iter().enumerate() {
        schedule_first_sends(queue, draws, present, number, traffic, count)?;
    }
    Ok(())
}

/// Puts the first sends of the traffic of a number: one for each of the first `count` stations that
/// is present, in order.
fn schedule_first_sends(
    queue: &mut Queue,
    draws: &mut Draws,
    present: &[bool],
    number: usize,
    traffic: &Traffic,
    count: usize,
) -> Result<(), QueueFault>
    ensures sends { (t : Timetable) → Keeps queue.old draws.old t → OnOk result
        (Keeps queue.new draws.new (schedule_first_sends present.now (traffic_of number traffic.now)
        count t)) }
{
    for station in 0..count {
        schedule_first_send(queue, draws, present, number, traffic, station)?;
    }
    Ok(())
}

/// Puts the first send of the traffic of a number by a station, if it is present.
fn schedule_first_send(
    queue: &mut Queue,
    draws: &mut Draws,
    present: &[bool],
    number: usize,
    traffic: &Traffic,
    station: usize,
) -> Result<(), QueueFault>
    ensures send { (t : Timetable) → Keeps queue.old draws.old t → OnOk result
        (Keeps queue.new draws.new (cond (is_present present.now station)
        (schedule_send (traffic_of number traffic.now) station 0 t) t)) }
{
    if is_present(present, station) {
        schedule_send(queue, draws, number, traffic, station, 0)
    } else {
        Ok(())
    }
}

/// Puts the first tick of a station that comes, a random jitter later, if there are beacons and no
/// tick of it waits.
pub fn schedule_coming_tick(
    queue: &mut Queue,
    draws: &mut Draws,
    beacons: bool,
    station: usize,
    moment: u64,
) -> Result<(), QueueFault>
    requires moment { moment ≤ 2 ^ 63 + 10000 }
    ensures tick { (t : Timetable) → Keeps queue.old draws.old t → OnOk result
        (Keeps queue.new draws.new (come_ticking beacons station moment t)) }
{
    if !beacons {
        return Ok(());
    }
    if queue.has_no_tick(station) {
        schedule_tick(queue, draws, station, moment, moment)
    } else {
        Ok(())
    }
}

/// Puts the first sends of a station that comes: one for each traffic, in order, if none of it
/// waits.
pub fn schedule_coming_sends(
    queue: &mut Queue,
    draws: &mut Draws,
    every: &[Traffic],
    station: usize,
    moment: u64,
) -> Result<(), QueueFault>
    requires moment { moment ≤ 2 ^ 63 + 10000 }
    ensures sends { (t : Timetable) → Keeps queue.old draws.old t → OnOk result
        (Keeps queue.new draws.new (come_sending_all (all_traffic every.now) station moment t)) }
{
    for (number, traffic) in every.iter().enumerate() {
        schedule_coming_send(queue, draws, number, traffic, station, moment)?;
    }
    Ok(())
}

/// Puts the first send of one traffic, a random time below the period later, if none of it waits.
fn schedule_coming_send(
    queue: &mut Queue,
    draws: &mut Draws,
    number: usize,
    traffic: &Traffic,
    station: usize,
    moment: u64,
) -> Result<(), QueueFault>
    requires moment { moment ≤ 2 ^ 63 + 10000 }
    ensures send { (t : Timetable) → Keeps queue.old draws.old t → OnOk result
        (Keeps queue.new draws.new
        (come_sending (traffic_of number traffic.now) station moment t)) }
{
    if queue.has_no_send(number, station) {
        schedule_send(queue, draws, number, traffic, station, moment)
    } else {
        Ok(())
    }
}

/// Puts a send of the traffic of a number by a station, a random time below its period after
/// `moment`.
fn schedule_send(
    queue: &mut Queue,
    draws: &mut Draws,
    number: usize,
    traffic: &Traffic,
    station: usize,
    moment: u64,
) -> Result<(), QueueFault>
    requires moment { moment ≤ 2 ^ 63 + 10000 }
    ensures send { (t : Timetable) → Keeps queue.old draws.old t → OnOk result
        (Keeps queue.new draws.new
        (schedule_send (traffic_of number traffic.now) station moment t)) }
{
    let moment = moment + draws.within(traffic.period);
    queue.push(moment, station, AirAction::Send(number, *traffic))
}

/// Puts a tick of a station with the next jitter: at `moment`, or when its beacon is due by that
/// jitter, if that is later.
pub fn schedule_tick(
    queue: &mut Queue,
    draws: &mut Draws,
    station: usize,
    moment: u64,
    beacon_from: u64,
) -> Result<(), QueueFault>
    requires { beacon_from ≤ 2 ^ 63 + 10000 }
    ensures tick { (t : Timetable) → Keeps queue.old draws.old t → OnOk result
        (Keeps queue.new draws.new (schedule_tick station moment beacon_from t)) }
{
    let jitter = draws.jitter();
    let due = beacon_from.saturating_add(u64::from(jitter));
    queue.push(moment.max(due), station, AirAction::Tick(jitter))
}
