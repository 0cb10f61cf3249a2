//! The file of the stations of a run, one row per station.

use crate::busy::{frame_time, octets_time};
use crate::rows::NumberRows;
use its_gnvalue::{GnAddress, NoMemory};
use its_station::{Refused, Why};
use its_world::{Entry, EntryFault, What, World};
use sim_scenario::Scenario;
use sim_simulation::{EventRecord, Note, SimulationFault};
use std::alloc::Global;
use std::io;
use std::io::Write;

/// The names of the columns.
const HEAD: &str = "station,id,address,from,to,away,sent,relayed,octets,heard,delivered,duplicates,\
    ignored,refused,full,lost,busy,busiest";

/// The names of two more columns, for a run in which any station contends.
const CONTENTION_HEAD: &str = ",held,cancelled";

/// The length of an interval in milliseconds. A row has the busy time of the busiest interval.
const INTERVAL: u64 = 100;

/// When a station is present.
#[derive(Clone, Copy)]
struct PresenceTimes {
    is_present: bool,
    /// When it was first present, if it ever was.
    from: Option<u64>,
    /// When it last departed.
    to: u64,
    /// The milliseconds between these times in which it was absent.
    away: u64,
}

impl PresenceTimes {
    /// Returns the times of a station that is present from the start, or not yet.
    fn new(is_present: bool) -> PresenceTimes {
        PresenceTimes {
            is_present,
            from: is_present.then_some(0),
            to: 0,
            away: 0,
        }
    }

    /// Notes that the station arrives.
    fn come(&mut self, moment: u64) {
        match self.from {
            Some(_) => self.away = self.away.saturating_add(moment.saturating_sub(self.to)),
            None => self.from = Some(moment),
        }
        self.is_present = true;
    }

    /// Notes that the station departs.
    fn leave(&mut self, moment: u64) {
        self.to = moment;
        self.is_present = false;
    }
}

/// How long the channel is busy at a station, in microseconds.
#[derive(Clone, Copy, Default)]
struct BusyTime {
    whole: u64,
    /// The interval of the last frame, counted from the start of the run.
    interval: u64,
    /// How long the channel was busy in that interval.
    within: u64,
    /// The most in one interval.
    most: u64,
}

impl BusyTime {
    /// Adds a frame of this air time that is sent at this time.
    fn add(&mut self, moment: u64, time: u64) {
        let interval = moment / INTERVAL;
        if interval != self.interval {
            self.interval = interval;
            self.within = 0;
        }
        self.whole = self.whole.saturating_add(time);
        self.within = self.within.saturating_add(time);
        self.most = self.most.max(self.within);
    }
}

/// The counts of a station.
#[derive(Clone, Copy, Default)]
struct StationNumbers {
    sent: u64,
    relayed: u64,
    octets: u64,
    heard: u64,
    delivered: u64,
    duplicates: u64,
    ignored: u64,
    refused: u64,
    full: u64,
    lost: u64,
    held: u64,
    cancelled: u64,
}

impl StationNumbers {
    /// Counts an event of the station.
    fn count(&mut self, done: &EventRecord<'_>) {
        match done.entry {
            Entry::Sent(_) => add_one(&mut self.sent),
            Entry::Accepted { handed, sent } => {
                let is_relayed = sent.is_some() && !done.is_held();
                self.delivered = self.delivered.saturating_add(u64::from(handed.is_some()));
                self.relayed = self.relayed.saturating_add(u64::from(is_relayed));
            }
            Entry::Ignored(Why::Duplicate) => add_one(&mut self.duplicates),
            Entry::Ignored(_) => add_one(&mut self.ignored),
            Entry::Refused(fault) => self.count_refused(*fault),
            Entry::Moved | Entry::Opened | Entry::Closed | Entry::Restarted | Entry::Quiet => {}
        }
        let is_missing = matches!(done.entry, Entry::Refused(EntryFault::NoSuchFrame));
        if matches!(done.what, What::Deliver(_)) && !is_missing {
            add_one(&mut self.heard);
        }
        if let Some(octets) = done.sent_octets() {
            self.add_octets(octets.len());
        }
        self.held = self.held.saturating_add(u64::from(done.is_held()));
        self.cancelled = self.cancelled.saturating_add(done.cancelled() as u64);
    }

    /// Counts a frame of this many octets that the station held and now sends.
    fn release(&mut self, octets: usize) {
        add_one(&mut self.relayed);
        self.add_octets(octets);
    }

    /// Adds the octets of a frame that is sent.
    fn add_octets(&mut self, octets: usize) {
        self.octets = self.octets.saturating_add(octets as u64);
    }

    /// Counts an event that was refused.
    fn count_refused(&mut self, fault: EntryFault) {
        add_one(&mut self.refused);
        if let EntryFault::Station(Refused::TableFull) = fault {
            add_one(&mut self.full);
        }
    }
}

/// Adds 1 to a count.
fn add_one(count: &mut u64) {
    *count = count.saturating_add(1);
}

/// A station of a run.
#[derive(Drop)]
struct StationRow {
    /// Its id in a file of moves. Empty for a station of the scenario.
    id: String,
    address: GnAddress,
    times: PresenceTimes,
    counts: StationNumbers,
    busy: BusyTime,
}

impl StationRow {
    /// Returns the row of a station that has done nothing yet, and is present from the start or not
    /// yet.
    fn new(id: String, address: GnAddress, is_present: bool) -> StationRow {
        StationRow {
            id,
            address,
            times: PresenceTimes::new(is_present),
            counts: StationNumbers::default(),
            busy: BusyTime::default(),
        }
    }
}

/// The rows of the stations up to now.
#[derive(Drop)]
pub(crate) struct StationRows {
    alloc: Global,
    rows: Vec<StationRow>,
    /// The time of the last event or note.
    last: u64,
    /// Whether any station contends.
    has_contention: bool,
}

impl StationRows {
    /// Returns the rows of a run that has not begun.
    pub(crate) fn new(alloc: Global, scenario: &Scenario) -> Result<StationRows, NoMemory> {
        let (configs, present) = (scenario.stations.as_slice(), scenario.present.as_slice());
        let mut rows = Vec::with_capacity(alloc, configs.len())?;
        for (config, is_present) in configs.iter().zip(present.iter()) {
            rows.push(StationRow::new(String::new(alloc), config.address, *is_present))?;
        }
        Ok(StationRows {
            alloc,
            rows,
            last: 0,
            has_contention: scenario.has_contention(),
        })
    }

    /// Adds a station that a file of moves made.
    fn make(&mut self, world: &World, station: usize, id: &str) -> Result<(), NoMemory> {
        let Some(made) = world.station(station) else {
            return Ok(());
        };
        let id = String::from_str(self.alloc, id)?;
        self.rows
            .push(StationRow::new(id, made.vector().address(), false))?;
        Ok(())
    }

    /// Notes that a station arrives.
    fn come(&mut self, station: usize, moment: u64) {
        if let Some(row) = self.row(station) {
            row.times.come(moment);
        }
    }

    /// Notes that a station departs.
    fn leave(&mut self, station: usize, moment: u64) {
        if let Some(row) = self.row(station) {
            row.times.leave(moment);
        }
    }

    /// Notes that a frame is lost on the way to a station.
    fn lose(&mut self, station: usize) {
        if let Some(row) = self.row(station) {
            add_one(&mut row.counts.lost);
        }
    }

    /// Adds a frame that was in range of a station, received or lost.
    fn hear(&mut self, world: &World, moment: u64, station: usize, frame: usize) {
        let time = frame_time(world, frame);
        if let Some(row) = self.row(station) {
            row.busy.add(moment, time);
        }
    }

    /// Notes that a frame which a station held is sent.
    fn release(&mut self, world: &World, moment: u64, station: usize, frame: usize) {
        let Some(octets) = world.kept_frame(frame) else {
            return;
        };
        if let Some(row) = self.row(station) {
            row.counts.release(octets.len());
            row.busy.add(moment, octets_time(octets));
        }
    }

    /// Returns the row of a station.
    fn row(&mut self, station: usize) -> Option<&mut StationRow> {
        self.rows.as_mut_slice().get_mut(station)
    }
}

impl NumberRows for StationRows {
    fn begin<W: Write>(&self, out: &mut W) -> io::Result<()> {
        let more = if self.has_contention {
            CONTENTION_HEAD
        } else {
            ""
        };
        writeln!(out, "{HEAD}{more}")
    }

    fn take<W: Write>(
        &mut self,
        _world: &World,
        done: &EventRecord<'_>,
        _out: &mut W,
    ) -> Result<(), SimulationFault> {
        self.last = done.moment;
        if let Some(row) = self.row(done.station) {
            row.counts.count(done);
            if let Some(octets) = done.sent_octets() {
                row.busy.add(done.moment, octets_time(octets));
            }
        }
        Ok(())
    }

    fn take_note<W: Write>(
        &mut self,
        world: &World,
        moment: u64,
        note: &Note<'_>,
        _out: &mut W,
    ) -> Result<(), SimulationFault> {
        self.last = moment;
        match *note {
            Note::Made { station, id } => self.make(world, station, id)?,
            Note::Came { station } => self.come(station, moment),
            Note::Left { station } => self.leave(station, moment),
            Note::Heard { station, frame } => self.hear(world, moment, station, frame),
            Note::Lost { station, frame } => {
                self.hear(world, moment, station, frame);
                self.lose(station);
            }
            Note::Released { station, frame } => self.release(world, moment, station, frame),
            Note::Dropped { .. } | Note::Absent { .. } => {}
        }
        Ok(())
    }

    fn end<W: Write>(&mut self, out: &mut W) -> Result<(), SimulationFault> {
        for (number, row) in self.rows.iter().enumerate() {
            write!(out, "{number},")?;
            write_id(row.id.as_str(), out)?;
            write!(out, ",{:016x},", row.address.as_u64())?;
            write_row(row, self.last, out)?;
            if self.has_contention {
                write!(out, ",{},{}", row.counts.held, row.counts.cancelled)?;
            }
            writeln!(out)?;
        }
        Ok(())
    }
}

/// Writes an id, in quotation marks if it has a comma or a quotation mark.
fn write_id<W: Write>(id: &str, out: &mut W) -> io::Result<()> {
    if !id.contains(',') && !id.contains('"') {
        return write!(out, "{id}");
    }
    write!(out, "\"")?;
    for (place, part) in id.split('"').enumerate() {
        let before = if place == 0 { "" } else { "\"\"" };
        write!(out, "{before}{part}")?;
    }
    write!(out, "\"")
}

/// Writes the row of a station from its presence on. `last` is the end of the run.
fn write_row<W: Write>(row: &StationRow, last: u64, out: &mut W) -> io::Result<()> {
    let times = &row.times;
    match times.from {
        Some(from) => {
            let to = if times.is_present { last } else { times.to };
            write!(out, "{from},{to},{},", times.away)?;
        }
        None => write!(out, ",,{},", times.away)?,
    }
    let counts = &row.counts;
    let (sent, relayed, octets) = (counts.sent, counts.relayed, counts.octets);
    write!(out, "{sent},{relayed},{octets},")?;
    let (heard, delivered, duplicates) = (counts.heard, counts.delivered, counts.duplicates);
    write!(out, "{heard},{delivered},{duplicates},")?;
    let (ignored, refused, full, lost) = (counts.ignored, counts.refused, counts.full, counts.lost);
    write!(out, "{ignored},{refused},{full},{lost},")?;
    write!(out, "{},{}", row.busy.whole, row.busy.most)
}
