//! Counts beside a station.

ghost use Rattle.its_station.specs.Runs.{IsInRange};

use crate::stations::{circle, receiver, request};
use its_gnvalue::NoMemory;
use its_headers::Kind;
use its_loctable::SortedTable;
use its_station::{
    Call, Counts, GbcRequest, IgnoredCounts, OwnCall, RefusedCounts, SentCounts, Station,
};
use std::test::Fail;
use test_support::{GEOBROADCAST_OCTETS, PORT, beacon_of};

type Unit = Station<SortedTable>;

/// No frame was ignored.
const NOT_IGNORED: IgnoredCounts = IgnoredCounts {
    not_for_me: 0,
    own_source: 0,
    sender_mismatch: 0,
    duplicate: 0,
};

/// One frame was a duplicate.
const ONE_DUPLICATE: IgnoredCounts = IgnoredCounts {
    duplicate: 1,
    ..NOT_IGNORED
};

/// No call was refused.
const NOT_REFUSED: RefusedCounts = RefusedCounts {
    moment_earlier: 0,
    moment_too_late: 0,
    frame: 0,
    table_full: 0,
    no_memory: 0,
    other: 0,
};

/// One beacon was sent.
const ONE_BEACON: SentCounts = SentCounts {
    beacons: 1,
    single_hop: 0,
    geobroadcasts: 0,
    geoanycasts: 0,
};

/// Receives a frame, and counts its outcome. It has no contract, and neither have the calls below.
/// Otherwise the proof of each test would carry all that the contracts of the calls say.
fn receive(counts: &mut Counts, station: &mut Unit, now: u64, octets: &[u8]) {
    counts.note_received(&station.receive(now, octets));
}

fn tick(counts: &mut Counts, station: &mut Unit, now: u64, jitter: u16) {
    counts.note_tick(&station.tick(now, jitter));
}

fn send_geobroadcast(counts: &mut Counts, station: &mut Unit, now: u64, request: &GbcRequest<'_>) {
    counts.note_send(Kind::Gbc, &station.send_geobroadcast(now, request));
}

fn send_geoanycast(counts: &mut Counts, station: &mut Unit, now: u64, request: &GbcRequest<'_>) {
    counts.note_send(Kind::Gac, &station.send_geoanycast(now, request));
}

fn open(counts: &mut Counts, station: &mut Unit, now: u64, port: u16) {
    counts.note_done(&station.open(now, port));
}

fn restart(counts: &mut Counts, station: &mut Unit, now: u64, number: u16) {
    counts.note_done(&station.restart(now, number));
}

/// Makes a call, and counts its outcome.
fn note(counts: &mut Counts, station: &mut Unit, moment: u64, call: &Call)
    requires { IsInRange call.now }
{
    let answer = station.answer(moment, call);
    counts.note_answer(call, &answer);
}

/// Five frames come, and two are sent.
fn counts_of_frames(station: &mut Unit) -> Counts {
    let beacon = beacon_of(5);
    let mut counts = Counts::new();
    for (now, octets) in [
        (1000, GEOBROADCAST_OCTETS.as_slice()),
        (1001, &GEOBROADCAST_OCTETS),
        (1002, &beacon),
        (1003, &[]),
        (0, &GEOBROADCAST_OCTETS),
    ] {
        receive(&mut counts, station, now, octets);
    }
    counts.note_sent(Kind::Beacon);
    counts.note_sent(Kind::Gac);
    counts
}

static OF_FRAMES: Counts = Counts {
    received: 5,
    accepted: 2,
    delivered: 1,
    relayed: 1,
    ignored: ONE_DUPLICATE,
    refused: RefusedCounts {
        moment_earlier: 1,
        frame: 1,
        ..NOT_REFUSED
    },
    sent: SentCounts {
        geoanycasts: 1,
        ..ONE_BEACON
    },
};

#[test]
fn what_becomes_of_frames_is_counted(rt: HostRuntime) -> Result<(), Fail> {
    let counts = counts_of_frames(&mut receiver(rt.alloc())?);
    assert_eq!(rt; counts, OF_FRAMES);
    Ok(())
}

/// Three ticks, a geobroadcast, a geoanycast of the past, a port that is open already, a restart
/// for a moment that is too late, and one.
fn counts_of_calls(station: &mut Unit, request: &GbcRequest<'_>) -> Counts {
    let mut counts = Counts::new();
    tick(&mut counts, station, 1000, 0);
    tick(&mut counts, station, 1000, 0);
    tick(&mut counts, station, 1000, 751);
    send_geobroadcast(&mut counts, station, 1001, request);
    send_geoanycast(&mut counts, station, 0, request);
    open(&mut counts, station, 1002, PORT);
    restart(&mut counts, station, u64::MAX, 0);
    restart(&mut counts, station, 1003, 0);
    counts
}

static OF_CALLS: Counts = Counts {
    received: 0,
    accepted: 0,
    delivered: 0,
    relayed: 0,
    ignored: NOT_IGNORED,
    refused: RefusedCounts {
        moment_earlier: 1,
        moment_too_late: 1,
        other: 2,
        ..NOT_REFUSED
    },
    sent: SentCounts {
        geobroadcasts: 1,
        ..ONE_BEACON
    },
};

#[test]
fn what_came_of_calls_is_counted(rt: HostRuntime) -> Result<(), Fail> {
    let request = request(circle().ok_or("no circle")?, b"hi");
    let counts = counts_of_calls(&mut receiver(rt.alloc())?, &request);
    assert_eq!(rt; counts, OF_CALLS);
    Ok(())
}

/// The packet, its copy and no octets come, and then no frame.
fn counts_of_replies(station: &mut Unit, octets: Vec<u8>, none: Vec<u8>) -> Counts {
    let mut counts = Counts::new();
    let frame = Call::Receive(octets);
    note(&mut counts, station, 1000, &frame);
    note(&mut counts, station, 1001, &frame);
    note(&mut counts, station, 1002, &Call::Receive(none));
    note(&mut counts, station, 1003, &Call::Own(OwnCall::Tick(0)));
    note(&mut counts, station, 1004, &Call::Own(OwnCall::Close(PORT)));
    note(&mut counts, station, 1005, &Call::Own(OwnCall::Close(PORT)));
    counts.note_answer(&Call::Own(OwnCall::Tick(0)), &Err(NoMemory));
    counts
}

static OF_REPLIES: Counts = Counts {
    received: 3,
    accepted: 1,
    delivered: 1,
    relayed: 1,
    ignored: ONE_DUPLICATE,
    refused: RefusedCounts {
        frame: 1,
        no_memory: 1,
        other: 1,
        ..NOT_REFUSED
    },
    sent: ONE_BEACON,
};

#[test]
fn replies_are_counted_as_what_they_tell(rt: HostRuntime) -> Result<(), Fail> {
    let octets = Vec::from_slice(rt.alloc(), &GEOBROADCAST_OCTETS)?;
    let mut station = receiver(rt.alloc())?;
    let counts = counts_of_replies(&mut station, octets, Vec::new(rt.alloc()));
    assert_eq!(rt; counts, OF_REPLIES);
    Ok(())
}
