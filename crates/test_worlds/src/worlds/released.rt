//! Frames that are released. The others keep their numbers and octets.

use super::{Fate, config, deliver, fate_in, new_world, open, run, send};
use its_world::{EntryFault, World};
use std::alloc::Global;
use std::process::Abort;
use std::test::Fail;
use test_support::{FIRST, GEOBROADCAST, SECOND};

/// `World::release`.
fn release(world: &mut World, before: usize) {
    world.release(before);
}

/// What is done in a world: the first station sends, a frame is delivered to the second one, or the
/// frames before a number are released.
#[derive(Clone, Copy)]
enum Doing {
    Send,
    Deliver(usize),
    Release(usize),
}

/// Does it, and returns the outcome. `None` for a release of frames.
fn fate_of_doing(world: &mut World, alloc: Global, doing: Doing) -> Result<Option<Fate>, Fail> {
    let event = match doing {
        Doing::Send => send(alloc)?,
        Doing::Deliver(frame) => deliver(1, frame),
        Doing::Release(before) => {
            release(world, before);
            return Ok(None);
        }
    };
    Ok(fate_in(world, event))
}

/// What is done, its outcome, and how many frames were released and were sent by then.
static ROWS: [(Doing, Option<Fate>, usize, usize); 10] = [
    (Doing::Send, Some(Fate::Sent(0)), 0, 1),
    (Doing::Send, Some(Fate::Sent(1)), 0, 2),
    (Doing::Release(1), None, 1, 2),
    (
        Doing::Deliver(0),
        Some(Fate::Refused(EntryFault::NoSuchFrame)),
        1,
        2,
    ),
    (Doing::Deliver(1), Some(Fate::Relayed(2)), 1, 3),
    (Doing::Release(9), None, 3, 3),
    (
        Doing::Deliver(2),
        Some(Fate::Refused(EntryFault::NoSuchFrame)),
        3,
        3,
    ),
    (Doing::Release(2), None, 3, 3),
    (Doing::Send, Some(Fate::Sent(3)), 3, 4),
    (Doing::Deliver(3), Some(Fate::Relayed(4)), 3, 5),
];

fn expect_rows(rt: &impl Abort, world: &mut World, alloc: Global) -> Result<(), Fail> {
    for (row, (doing, fate, released, given)) in ROWS.iter().enumerate() {
        assert!(rt; fate_of_doing(world, alloc, *doing)? == *fate, "row {row}");
        assert!(rt;
            world.released() == *released && world.frames() == *given,
            "row {row}"
        );
    }
    Ok(())
}

/// A world of a sender and of a receiver that opened its port.
fn pair(alloc: Global) -> Result<World, Fail> {
    let configs = [config(FIRST, 0, 0)?, config(SECOND, 449, 0)?];
    let mut world = new_world(alloc, &configs)?;
    run(&mut world, &[open(1)]);
    Ok(world)
}

/// A frame that was released is refused like one that never existed, and the number of the next one
/// follows those of all frames that were sent.
#[test]
fn frames_are_let_go(rt: HostRuntime) -> Result<(), Fail> {
    let mut world = pair(rt.alloc())?;
    expect_rows(&rt, &mut world, rt.alloc())
}

/// Whether a frame differs from the first only in its sequence number, which is 1.
fn is_second(frame: &[u8], first: &[u8]) -> bool {
    frame.get(26..28) == Some([0, 1].as_slice()) && frame.get(28..) == first.get(28..)
}

/// Whether only the second of two frames is kept.
fn is_second_kept(world: &World, first: &[u8]) -> bool {
    match (
        world.kept_frame(0),
        world.kept_frame(1),
        world.kept_frame(2),
    ) {
        (None, Some(second), None) => {
            world.released() <= 1 && world.frames() == 2 && is_second(second, first)
        }
        _ => false,
    }
}

/// The octets of frames that are kept don't change.
#[test]
fn frames_that_are_kept(rt: HostRuntime) -> Result<(), Fail> {
    let first = hex::decode(rt.alloc(), GEOBROADCAST)?;
    let mut world = pair(rt.alloc())?;
    fate_of_doing(&mut world, rt.alloc(), Doing::Send)?;
    assert!(rt; world.kept_frame(0) == Some(first.as_slice()));
    fate_of_doing(&mut world, rt.alloc(), Doing::Send)?;
    release(&mut world, 1);
    assert!(rt; is_second_kept(&world, &first));
    Ok(())
}
