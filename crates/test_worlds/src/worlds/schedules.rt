//! One geobroadcast among three stations, under every schedule of five deliveries.

use super::{Fate, config, deliver, fate_at, new_world, open, run, send};
use its_station::Why;
use its_world::{EntryFault, Run, World};
use std::alloc::Global;
use std::process::Abort;
use std::test::Fail;
use test_support::{FIRST, GEOBROADCAST, LINK, SECOND, THIRD, put};

/// How many lists there are of five deliveries, each of one of three frames to one of three
/// stations.
const SCHEDULES: usize = 59_049;

/// A frame of the flood: the end of the link address of the station that gave it, and how many hops
/// it has left.
#[derive(Clone, Copy)]
struct Copied {
    giver: u8,
    hops: u8,
}

/// The ends of the link addresses of the stations.
const GIVERS: [u8; 3] = [1, 2, 3];

/// The flood as a rule: each station of the area but the source takes the packet once, from
/// whichever frame comes first, and passes it on to all.
#[derive(Drop)]
struct Flood {
    frames: Vec<Copied>,
    took: [bool; 3],
}

impl Flood {
    fn new(alloc: Global) -> Result<Flood, Fail> {
        let mut frames = Vec::with_capacity(alloc, 3)?;
        frames.push(Copied { giver: 1, hops: 10 })?;
        Ok(Flood {
            frames,
            took: [false; 3],
        })
    }

    fn deliver(&mut self, station: usize, frame: usize) -> Result<Fate, Fail> {
        let Some(came) = self.frames.get(frame).copied() else {
            return Ok(Fate::Refused(EntryFault::NoSuchFrame));
        };
        if station == 0 {
            return Ok(Fate::Ignored(Why::OwnSource));
        }
        let took = self.took.get_mut(station).ok_or("no such station")?;
        if *took {
            return Ok(Fate::Ignored(Why::Duplicate));
        }
        *took = true;
        let number = self.frames.len();
        self.frames.push(Copied {
            giver: *GIVERS.get(station).ok_or("no such station")?,
            hops: came.hops.saturating_sub(1),
        })?;
        Ok(Fate::Relayed(number))
    }
}

/// A world of three stations, of which the first sent its geobroadcast.
fn begun(rt: &impl Abort, alloc: Global) -> Result<World, Fail> {
    let configs = [
        config(FIRST, 0, 0)?,
        config(SECOND, 449, 0)?,
        config(THIRD, 0, 449)?,
    ];
    let mut world = new_world(alloc, &configs)?;
    let events = [open(0), open(1), open(2), send(alloc)?];
    has_sent(rt, &run(&mut world, &events));
    Ok(world)
}

fn has_sent(rt: &impl Abort, ran: &Run) {
    assert!(rt; !ran.out_of_memory && fate_at(ran.log.last()) == Some(Fate::Sent(0)));
}

/// The first frame, as this station gives it with so many hops left.
fn given(alloc: Global, first: &[u8], copied: Copied) -> Result<Vec<u8>, Fail> {
    let mut frame = Vec::from_slice(alloc, first)?;
    put(frame.as_mut_slice(), 11, &[copied.giver]);
    put(frame.as_mut_slice(), LINK + 3, &[copied.hops]);
    Ok(frame)
}

/// The frames of the world are those of the flood: the first, but for who sent it on and the hops
/// that are left.
fn has_frames(
    rt: &impl Abort,
    alloc: Global,
    world: &World,
    flood: &Flood,
    first: &[u8],
) -> Result<(), Fail> {
    assert!(rt; first.len() == 76 && world.released() == 0);
    assert!(rt; world.frames() == flood.frames.len());
    for number in 0..world.frames() {
        let copied = *flood.frames.get(number).ok_or("no such frame")?;
        let want = given(alloc, first, copied)?;
        assert!(rt; world.frame(number) == want.as_slice(), "frame {number}");
    }
    Ok(())
}

/// One delivery comes out as in the flood; whether it was relayed.
fn one_delivery(
    rt: &impl Abort,
    world: &mut World,
    flood: &mut Flood,
    station: usize,
    frame: usize,
) -> Result<bool, Fail> {
    let want = flood.deliver(station, frame)?;
    let ran = run(world, &[deliver(station, frame)]);
    assert!(rt; !ran.out_of_memory && ran.done == 1);
    assert!(rt;
        fate_at(ran.log.first()) == Some(want),
        "{frame} to {station}"
    );
    Ok(matches!(&want, Fate::Relayed(_)))
}

/// Five digits to the base 9, each a station and a frame. How often each station delivered.
fn five_deliveries(
    rt: &impl Abort,
    world: &mut World,
    flood: &mut Flood,
    schedule: usize,
) -> Result<[u32; 3], Fail> {
    let mut delivered = [0u32; 3];
    for unit in [1, 9, 81, 729, 6561] {
        let digit = schedule / unit % 9;
        if one_delivery(rt, world, flood, digit / 3, digit % 3)? {
            delivered[digit / 3] = delivered[digit / 3].saturating_add(1);
        }
    }
    Ok(delivered)
}

fn one_schedule(rt: &impl Abort, alloc: Global, schedule: usize, first: &[u8]) -> Result<(), Fail> {
    let (mut world, mut flood) = (begun(rt, alloc)?, Flood::new(alloc)?);
    let [source, second, third] = five_deliveries(rt, &mut world, &mut flood, schedule)?;
    assert!(rt;
        world.frames() <= 3 && source == 0 && second <= 1 && third <= 1,
        "schedule {schedule}"
    );
    has_frames(rt, alloc, &world, &flood, first)
}

/// At most three frames, at most one delivery to the port of each of the other stations, and none
/// at the source.
#[test]
fn three_stations(rt: HostRuntime) -> Result<(), Fail> {
    let first = hex::decode(rt.alloc(), GEOBROADCAST)?;
    for schedule in 0..SCHEDULES {
        one_schedule(&rt, rt.alloc(), schedule, &first)?;
    }
    Ok(())
}
