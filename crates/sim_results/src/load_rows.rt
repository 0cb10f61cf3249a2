//! The file of the load of a run, one row per second in which a frame was sent.

ghost use Rattle.std.specs.Prelude.{◌≡◌, ◌+◌, ◌-◌, ◌^◌, min};

use crate::busy::{frame_time, octets_time};
use crate::quantile::Quantiles;
use crate::rows::NumberRows;
use its_gnvalue::NoMemory;
use its_world::World;
use sim_simulation::{EventRecord, Note, SimulationFault};
use std::alloc::Global;
use std::io;
use std::io::Write;

/// The names of the columns.
const HEAD: &str = "second,stations,frames,octets,busy_p50,busy_p95,busy_most,peak";

/// The milliseconds of a second.
const SECOND: u64 = 1000;

/// The length of a window in milliseconds. The busiest window of a second counts.
const WINDOW: u64 = 100;

/// The load at a station in the current second.
#[derive(Clone, Copy)]
struct StationLoad {
    is_present: bool,
    /// How long the channel is busy there, in microseconds.
    busy: u64,
    /// The number of the last window in which the channel is busy, from 0.
    window: u64,
    /// How long the channel is busy in that window, in microseconds.
    dense: u64,
}

impl StationLoad {
    /// Returns the load at a station where no frame was received yet.
    fn silent(is_present: bool) -> StationLoad {
        StationLoad {
            is_present,
            busy: 0,
            window: 0,
            dense: 0,
        }
    }

    /// Adds the air time of a frame in the window of this number. Returns how long the channel is
    /// busy in that window then.
    fn add(&mut self, window: u64, time: u64) -> u64
        ensures busy { self.new.busy ≡ min (self.old.busy + time) (2 ^ 64 - 1) }
        ensures first { ¬ (self.old.window ≡ window) → result ≡ time }
        ensures more { self.old.window ≡ window → result ≡ min (self.old.dense + time) (2 ^ 64 - 1) }
        ensures dense { (self.new.window ≡ window) × (self.new.dense ≡ result) }
    {
        self.busy = self.busy.saturating_add(time);
        self.dense = if window == self.window {
            self.dense.saturating_add(time)
        } else {
            time
        };
        self.window = window;
        self.dense
    }
}

/// The load of the current second.
#[derive(Drop)]
pub(crate) struct LoadRows {
    alloc: Global,
    stations: Vec<StationLoad>,
    second: u64,
    frames: u64,
    octets: u64,
    /// The most that the channel is busy at a station in one window of this second, in
    /// microseconds.
    peak: u64,
}

impl LoadRows {
    /// Returns the load of a run that has not begun. These stations are present at its start.
    pub(crate) fn new(alloc: Global, present: &[bool]) -> Result<LoadRows, NoMemory> {
        let mut loads = Vec::with_capacity(alloc, present.len())?;
        for is_present in present {
            loads.push(StationLoad::silent(*is_present))?;
        }
        Ok(LoadRows {
            alloc,
            stations: loads,
            second: 0,
            frames: 0,
            octets: 0,
            peak: 0,
        })
    }

    /// Goes on to a time. If that is in another second, the row of the second before is written.
    fn reach<W: Write>(&mut self, moment: u64, out: &mut W) -> Result<(), SimulationFault> {
        let second = moment / SECOND;
        if second == self.second {
            return Ok(());
        }
        self.end(out)?;
        self.second = second;
        self.frames = 0;
        self.octets = 0;
        self.peak = 0;
        for station in self.stations.as_mut_slice() {
            station.busy = 0;
        }
        Ok(())
    }

    /// Returns how long the channel was busy at each station that is present, in milliseconds.
    fn busy_of_present(&self) -> Result<Vec<u64>, NoMemory> {
        let mut busy = Vec::new(self.alloc);
        for station in &self.stations {
            if station.is_present {
                busy.push(station.busy / 1000)?;
            }
        }
        Ok(busy)
    }

    /// Adds a frame that is sent or received at a station at this time.
    fn add(&mut self, station: usize, moment: u64, time: u64) {
        if let Some(load) = self.stations.as_mut_slice().get_mut(station) {
            self.peak = self.peak.max(load.add(moment / WINDOW, time));
        }
    }

    /// Adds a frame that a station sends at this time.
    fn send(&mut self, station: usize, moment: u64, octets: &[u8]) {
        self.frames = self.frames.saturating_add(1);
        self.octets = self.octets.saturating_add(octets.len() as u64);
        self.add(station, moment, octets_time(octets));
    }

    /// Notes that a station arrives or departs.
    fn set_present(&mut self, station: usize, is_present: bool) {
        if let Some(load) = self.stations.as_mut_slice().get_mut(station) {
            load.is_present = is_present;
        }
    }
}

impl NumberRows for LoadRows {
    fn begin<W: Write>(&self, out: &mut W) -> io::Result<()> {
        writeln!(out, "{HEAD}")
    }

    fn take<W: Write>(
        &mut self,
        _world: &World,
        done: &EventRecord<'_>,
        out: &mut W,
    ) -> Result<(), SimulationFault> {
        self.reach(done.moment, out)?;
        if let Some(octets) = done.sent_octets() {
            self.send(done.station, done.moment, octets);
        }
        Ok(())
    }

    fn take_note<W: Write>(
        &mut self,
        world: &World,
        moment: u64,
        note: &Note<'_>,
        out: &mut W,
    ) -> Result<(), SimulationFault> {
        self.reach(moment, out)?;
        match *note {
            Note::Made { .. } => self.stations.push(StationLoad::silent(false))?,
            Note::Came { station } => self.set_present(station, true),
            Note::Left { station } => self.set_present(station, false),
            Note::Heard { station, frame } | Note::Lost { station, frame } => {
                self.add(station, moment, frame_time(world, frame));
            }
            Note::Released { station, frame } => {
                if let Some(octets) = world.kept_frame(frame) {
                    self.send(station, moment, octets);
                }
            }
            Note::Dropped { .. } | Note::Absent { .. } => {}
        }
        Ok(())
    }

    /// Writes the row of the current second, if a frame was sent in it.
    fn end<W: Write>(&mut self, out: &mut W) -> Result<(), SimulationFault> {
        if self.frames == 0 {
            return Ok(());
        }
        let mut busy = self.busy_of_present()?;
        let present = busy.len();
        let Quantiles { p50, p95, most, .. } = Quantiles::of(&mut busy)?;
        let (second, frames, octets) = (self.second, self.frames, self.octets);
        // A hundredth of a window is 1000 microseconds.
        let peak = self.peak / 1000;
        writeln!(
            out,
            "{second},{present},{frames},{octets},{p50},{p95},{most},{peak}"
        )?;
        Ok(())
    }
}
