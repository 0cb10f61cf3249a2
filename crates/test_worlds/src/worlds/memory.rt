//! A world that is made, and run, with budgets of memory from none to enough. A run can go on when
//! there is more.

ghost use Rattle.std.specs.Prelude.{◌≤◌, All, IfOk, length};
ghost use Rattle.its_world.specs.Events.{IsConfig, IsInRange};

use super::{Fate, config, deliver, fate_of, new_world, open, run, send};
use its_world::{Config, Event, Run, World, WorldFault};
use std::alloc::Global;
use std::process::Abort;
use std::test::Fail;
use test_support::{FIRST, GEOBROADCAST, RELAYED, SECOND, Shortage};

/// The outcomes of the events.
static FATES: [Fate; 3] = [Fate::Opened, Fate::Sent(0), Fate::Relayed(1)];

/// How many budgets are tried at most, and how far they are apart, in octets.
const BUDGETS: usize = 400;

const APART: usize = 32;

/// A station with the smallest location table.
fn small(address: u64, lat: i32) -> Result<Config, Fail>
    ensures { IfOk result IsConfig }
{
    let mut made = config(address, lat, 0)?;
    made.capacity = 1;
    made.remember = 1;
    Ok(made)
}

/// The frames at the end.
#[derive(Drop)]
struct Frames {
    sent: Vec<u8>,
    relayed: Vec<u8>,
}

fn frames_at_the_end(alloc: Global) -> Result<Frames, Fail> {
    Ok(Frames {
        sent: hex::decode(alloc, GEOBROADCAST)?,
        relayed: hex::decode(alloc, RELAYED)?,
    })
}

/// A world that may have stopped before the last event, and its entries up to then.
#[derive(Drop)]
struct PartialRun {
    world: World,
    run: Run,
}

/// Makes a world with ample memory, and runs it with this many octets, which are free again
/// afterwards.
fn run_short(
    rt: &impl Abort,
    alloc: Global,
    configs: &[Config],
    events: &[Event],
    octets: usize,
) -> Result<PartialRun, Fail>
    requires configs { All IsConfig configs.now }
    requires few { length configs.now ≤ 65535 }
    requires events { All (λ event. IsInRange event.what) events.now }
{
    let mut world = new_world(alloc, configs)?;
    let mut shortage = Shortage::new(alloc)?;
    assert!(rt; shortage.leave(octets), "{octets}");
    let run = run(&mut world, events);
    Ok(PartialRun { world, run })
}

/// A world that was made and run with so many octets, or none where they were too few to make it.
fn make_and_run_short(
    rt: &impl Abort,
    alloc: Global,
    configs: &[Config],
    events: &[Event],
    octets: usize,
) -> Result<Option<PartialRun>, Fail>
    requires configs { All IsConfig configs.now }
    requires few { length configs.now ≤ 65535 }
    requires events { All (λ event. IsInRange event.what) events.now }
{
    let mut shortage = Shortage::new(alloc)?;
    assert!(rt; shortage.leave(octets), "{octets}");
    match new_world(alloc, configs) {
        Ok(mut world) => {
            let run = run(&mut world, events);
            Ok(Some(PartialRun { world, run }))
        }
        Err(fault) => {
            assert!(rt; fault == WorldFault::NoMemory);
            Ok(None)
        }
    }
}

/// The entries are those from this event on.
fn has_fates(rt: &impl Abort, run: &Run, from: usize) {
    assert!(rt; run.done == run.log.len());
    for (want, entry) in FATES.iter().skip(from).zip(run.log.iter()) {
        assert!(rt; fate_of(entry) == *want);
    }
}

/// With ample memory a world goes on where it stopped.
fn does_the_rest(rt: &impl Abort, world: &mut World, rest: &[Event], done: usize)
    requires { All (λ event. IsInRange event.what) rest.now }
{
    let run = run(world, rest);
    assert!(rt; !run.out_of_memory && run.done == rest.len());
    has_fates(rt, &run, done);
}

fn has_frames(rt: &impl Abort, world: &World, frames: &Frames) {
    assert!(rt; world.released() == 0 && world.frames() == 2);
    assert!(rt; world.frame(0) == frames.sent.as_slice());
    assert!(rt; world.frame(1) == frames.relayed.as_slice());
}

/// With ample memory a world goes on where it stopped, and its log and frames are the whole ones.
fn goes_on(
    rt: &impl Abort,
    partial: &mut PartialRun,
    events: &[Event],
    frames: &Frames,
) -> Result<(), Fail>
    requires { All (λ event. IsInRange event.what) events.now }
{
    let done = partial.run.done;
    assert!(rt; partial.run.out_of_memory == (done < FATES.len()));
    has_fates(rt, &partial.run, 0);
    let rest = events.get(done..).ok_or("too many are done")?;
    does_the_rest(rt, &mut partial.world, rest, done);
    has_frames(rt, &partial.world, frames);
    Ok(())
}

/// How many events are done with so many octets, after which the world goes on.
fn done_with(
    rt: &impl Abort,
    alloc: Global,
    events: &[Event],
    frames: &Frames,
    octets: usize,
) -> Result<usize, Fail>
    requires { All (λ event. IsInRange event.what) events.now }
{
    let configs = [config(FIRST, 0, 0)?, config(SECOND, 449, 0)?];
    let mut partial = run_short(rt, alloc, &configs, events, octets)?;
    let done = partial.run.done;
    goes_on(rt, &mut partial, events, frames)?;
    Ok(done)
}

/// Makes and runs a world with this many octets, and then goes on. Returns how many events were
/// done before. `None` if the octets were too few to make the world.
fn made_and_done_with(
    rt: &impl Abort,
    alloc: Global,
    events: &[Event],
    frames: &Frames,
    octets: usize,
) -> Result<Option<usize>, Fail>
    requires { All (λ event. IsInRange event.what) events.now }
{
    let configs = [small(FIRST, 0)?, small(SECOND, 449)?];
    let Some(mut partial) = make_and_run_short(rt, alloc, &configs, events, octets)? else {
        return Ok(None);
    };
    let done = partial.run.done;
    goes_on(rt, &mut partial, events, frames)?;
    Ok(Some(done))
}

/// Some budgets end the run before each of the events, and the last one is enough for all.
#[test]
fn a_world_runs_short_of_memory(rt: HostRuntime) -> Result<(), Fail> {
    let alloc = rt.alloc();
    let (events, frames) = (
        [open(1), send(alloc)?, deliver(1, 0)],
        frames_at_the_end(alloc)?,
    );
    let mut ends = [0u32; 4];
    for step in 0..BUDGETS {
        let done = done_with(&rt, alloc, &events, &frames, step * APART)?;
        let end = ends.get_mut(done).ok_or("too many are done")?;
        *end = end.saturating_add(1);
        if done == FATES.len() {
            break;
        }
    }
    assert!(rt; ends.iter().all(|count| *count > 0), "{ends:?}");
    Ok(())
}

/// Some budgets are too small to make it, and the last one has room for all. What is left of the
/// events is run with ample memory.
#[test]
fn a_world_is_made_and_runs_short_of_memory(rt: HostRuntime) -> Result<(), Fail> {
    let alloc = rt.alloc();
    let (events, frames) = (
        [open(1), send(alloc)?, deliver(1, 0)],
        frames_at_the_end(alloc)?,
    );
    let (mut refused, mut is_whole) = (0u32, false);
    for step in 0..BUDGETS {
        let done = made_and_done_with(&rt, alloc, &events, &frames, step * APART)?;
        if done.is_none() {
            refused = refused.saturating_add(1);
        }
        is_whole = done == Some(FATES.len());
        if is_whole {
            break;
        }
    }
    assert!(rt; refused > 0 && is_whole, "{refused}");
    Ok(())
}
