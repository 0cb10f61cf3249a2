//! A road-side unit in a few lines: it sleeps from one frame to the next, but for its beacons.
//!
//! The unit is stationary, and its packets say so. It draws a jitter of 0 to 750 ms once for each
//! beacon, not for each `tick`, and begins at a sequence number that it drew: if numbers began at 0
//! at each start, stations that remember some of them would take what it sends for duplicates. The
//! draws here are the same in each run; a real unit takes its seed from the system's random numbers.

use its_gnvalue::{GnAddress, Place};
use its_linkframe::read_frame;
use its_loctable::SortedTable;
use its_station::{Counts, Outcome, Refused, Station};
use rand_core::{Rng, SeedableRng};
use rand_xoshiro::Xoshiro256PlusPlus;
use std::alloc::Global;
use std::test::Fail;

/// What the draws begin with.
const SEED: u64 = 3;

/// A beacon of another station.
const BEACON: &str =
    "ffffffffffff020000000001894711001a01001000800000010014000200000000010000000000\
    0000000000000000000000";

/// A warning of that station, for port 2002.
const WARNING: &str =
    "ffffffffffff020000000001894711001a0a2040008000060a0000000000140002000000000100\
    0000000000000000000000000000000000000000000000006400000000000007d200006869";

/// What the unit does on its link.
const DONE: &str = "send ffffffffffff020000000010894711001a0100100000000001003c0002000000001000000\
    0b3000001c10000000080000000\n\
    deliver 6869 from 1400020000000001\n\
    send ffffffffffff020000000010894711001a092040008000060a00000000001400020000000001000000000000000\
    000000000000000000000000000000000006400000000000007d200006869\n\
    refused S3 L1\n\
    send ffffffffffff020000000010894711001a0100100000000001003c0002000000001000000d16000001c10000000\
    080000000\n\
    received 6 delivered 1\n\
    duplicates 1 junk 1\n\
    beacons 2 relays 1\n";

/// A station, its counts and its draws.
#[derive(Drop)]
struct Unit {
    station: Station<SortedTable>,
    counts: Counts,
    draws: Xoshiro256PlusPlus,
    /// How much later than due the next beacon goes out, in milliseconds.
    jitter: u16,
    /// What it did.
    log: String,
}

impl Unit {
    /// A unit that stands still, with port 2002, that of hazard warnings, open from a moment on. It
    /// knows up to 64 stations, and 8 numbers of each.
    fn begin(alloc: Global, now: u64) -> Result<Unit, Fail> {
        let address = GnAddress::from_u64(0x3c00_0200_0000_0010)?;
        let mut draws = Xoshiro256PlusPlus::seed_from_u64(SEED);
        let first_number = (draws.next_u64() % 65536) as u16;
        let mut station = Station::new(alloc, address, Place::new(449, 0)?, 64, 8)?;
        station.set_mobile(false);
        station.restart(now, first_number)?;
        station.open(now, 2002)?;
        let mut unit = Unit {
            station,
            counts: Counts::new(),
            draws,
            jitter: 0,
            log: String::new(alloc),
        };
        unit.draw_jitter();
        Ok(unit)
    }

    /// A jitter for the next beacon: 0 to 750 ms, each as likely as the others.
    fn draw_jitter(&mut self) {
        self.jitter = (self.draws.next_u64() % 751) as u16;
    }

    /// A frame came: delivers its payload and forwards the frame, if the station says so.
    fn hear(&mut self, alloc: Global, now: u64, octets: &[u8]) -> Result<(), Fail> {
        let read = read_frame(octets);
        let answer = match &read {
            Ok(frame) => self.station.receive_frame(now, frame),
            Err(fault) => Err(Refused::Frame(*fault)),
        };
        self.counts.note_received(&answer);
        match answer {
            Ok(Outcome::Accepted { handed, sent }) => {
                if let (Some(message), Ok(frame)) = (handed, read) {
                    let payload = hex::encode(alloc, message.payload)?;
                    let source = frame.packet.vector().address().as_u64();
                    writeln!(self.log, "deliver {payload} from {source:016x}")?;
                }
                if let Some(frame) = sent {
                    writeln!(self.log, "send {}", hex::encode(alloc, frame)?)?;
                }
            }
            Ok(Outcome::Ignored(_)) => {}
            Err(refused) => writeln!(self.log, "refused {}", refused.code())?,
        }
        Ok(())
    }

    /// Sends each beacon that is due until a moment, with its place as given just before.
    fn sleep_until(&mut self, alloc: Global, moment: u64) -> Result<(), Fail> {
        for _ in 0..u64::MAX {
            let wakes = self.station.beacon_at(self.jitter);
            if wakes > moment {
                return Ok(());
            }
            let place = self.station.vector().place();
            self.station.move_to(wakes, place, true, 0, 0)?;
            let answer = self.station.tick(wakes, self.jitter);
            self.counts.note_tick(&answer);
            if let Some(beacon) = answer? {
                writeln!(self.log, "send {}", hex::encode(alloc, beacon)?)?;
                self.draw_jitter();
            }
        }
        Ok(())
    }

    /// Writes down what was counted.
    fn end(&mut self) -> Result<(), Fail> {
        let counts = self.counts;
        let (received, delivered) = (counts.received, counts.delivered);
        writeln!(self.log, "received {received} delivered {delivered}")?;
        let (duplicates, junk) = (counts.ignored.duplicate, counts.refused.frame);
        writeln!(self.log, "duplicates {duplicates} junk {junk}")?;
        writeln!(
            self.log,
            "beacons {} relays {}",
            counts.sent.beacons, counts.relayed
        )?;
        Ok(())
    }
}

#[test]
fn a_road_side_unit_hears_and_sends(rt: HostRuntime) -> Result<(), Fail> {
    let alloc = rt.alloc();
    let mut unit = Unit::begin(alloc, 0)?;
    let link = [
        (1000, BEACON),
        (1010, WARNING),
        (1011, WARNING),
        (1020, "00"),
        (3999, BEACON),
        (4000, BEACON),
    ];
    for (now, digits) in link {
        unit.sleep_until(alloc, now)?;
        let frame = hex::decode(alloc, digits)?;
        unit.hear(alloc, now, frame.as_slice())?;
    }
    unit.end()?;
    assert!(rt; unit.log.as_str() == DONE);
    Ok(())
}
