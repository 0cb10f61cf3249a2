//! Worlds of stations: schedules, released frames, memory that runs out, and what worlds show.

ghost use Rattle.std.specs.Prelude.{◌≤◌, All, IfOk, length};
ghost use Rattle.its_world.specs.Events.{IsConfig, IsInRange};

mod memory;
mod released;
mod schedules;
mod shown;

use its_geometry::Area;
use its_gnvalue::{GnAddress, Lifetime, Place, TrafficClass};
use its_station::{OwnCall, OwnedGbcRequest, Why};
use its_world::{Config, Entry, EntryFault, Event, Run, What, World, WorldFault};
use std::alloc::Global;
use std::test::Fail;
use test_support::PORT;

// The calls of a world stand in functions of their own, which promise nothing: all that the
// contracts say of a world would else be carried along in the proof of each test.

/// `World::new`.
fn new_world(alloc: Global, configs: &[Config]) -> Result<World, WorldFault>
    requires configs { All IsConfig configs.now }
    requires few { length configs.now ≤ 65535 }
{
    World::new(alloc, configs)
}

/// `World::run`.
fn run(world: &mut World, events: &[Event]) -> Run
    requires { All (λ event. IsInRange event.what) events.now }
{
    world.run(events)
}

/// Runs one event by itself, and returns its outcome.
fn fate_in(world: &mut World, event: Event) -> Option<Fate>
    requires { IsInRange event.what }
{
    fate_at(run(world, &[event]).log.first())
}

/// The outcome of an event. A packet counts as delivered if it is "hi" for `PORT`, with info 0.
#[derive(Clone, Copy, PartialEq, Eq)]
enum Fate {
    Opened,
    Sent(usize),
    /// Delivered, and forwarded as this frame.
    Relayed(usize),
    Ignored(Why),
    Refused(EntryFault),
    /// Anything else.
    Other,
}

fn fate_of(entry: &Entry) -> Fate {
    match entry {
        Entry::Opened => Fate::Opened,
        Entry::Sent(frame) => Fate::Sent(*frame),
        Entry::Ignored(why) => Fate::Ignored(*why),
        Entry::Refused(fault) => Fate::Refused(*fault),
        Entry::Accepted {
            handed: Some(handed),
            sent: Some(frame),
        } if handed.port == PORT
            && handed.info == 0
            && handed.payload.as_slice() == b"hi".as_slice() => { Fate::Relayed(*frame) }
        _ => Fate::Other,
    }
}

/// Returns the outcome of an entry, if there is one.
fn fate_at(entry: Option<&Entry>) -> Option<Fate> {
    match entry {
        Some(entry) => Some(fate_of(entry)),
        None => None,
    }
}

/// A station with a duplicate packet list of length 8 for each of 64 sources.
fn config(address: u64, lat: i32, lon: i32) -> Result<Config, Fail>
    ensures { IfOk result IsConfig }
{
    Ok(Config {
        address: GnAddress::from_u64(address)?,
        place: Place::new(lat, lon)?,
        capacity: 64,
        remember: 8,
    })
}

fn open(station: usize) -> Event
    ensures { IsInRange result.what }
{
    Event {
        station,
        moment: 0,
        what: What::Call(OwnCall::Open(PORT)),
    }
}

/// The first station sends "hi" for a circle of 100 m round it, over at most ten hops.
fn send(alloc: Global) -> Result<Event, Fail>
    ensures { IfOk result (λ event. IsInRange event.what) }
{
    let request = OwnedGbcRequest {
        port: PORT,
        info: 0,
        class: TrafficClass::from_octet(0),
        lifetime: Lifetime::from_octet(26),
        max_hops: 10,
        area: Area::circle(Place::new(0, 0)?, 100)?,
        payload: Vec::from_slice(alloc, b"hi")?,
    };
    Ok(Event {
        station: 0,
        moment: 1000,
        what: What::Call(OwnCall::SendGeobroadcast(request)),
    })
}

fn deliver(station: usize, frame: usize) -> Event
    ensures { IsInRange result.what }
{
    Event {
        station,
        moment: 1010,
        what: What::Deliver(frame),
    }
}
