//! A packet for an area whose row isn't written yet.

use crate::audience::Audience;
use crate::quantile::Quantiles;
use crate::reach::Reach;
use its_gnvalue::NoMemory;
use its_headers::Kind;
use its_station::{OwnedGbcRequest, Refused, Why};
use its_world::{Entry, EntryFault, World};
use sim_simulation::tally::Presence;
use sim_simulation::{EventRecord, SimulationFault};
use std::alloc::Global;
use std::collections::HashSet;
use std::io;
use std::io::Write;

/// A packet for an area, and the outcomes of its frames so far.
#[derive(Drop)]
pub(crate) struct OpenSend {
    /// The number of the event that sent it.
    send: usize,
    moment: u64,
    station: usize,
    kind: Kind,
    port: u16,
    audience: Audience,
    /// The stations at which it was delivered to its port.
    delivered: HashSet<usize>,
    /// The milliseconds from the send to each of these first deliveries.
    firsts: Vec<u64>,
    /// How many frames of it were sent: the first and the forwarded ones.
    frames: usize,
    /// The most frames on the path to a delivery.
    hops: usize,
    /// Deliveries of its frames that were run.
    heard: usize,
    /// Deliveries that were lost at random.
    lost: usize,
    /// Deliveries that were ignored as duplicates.
    duplicates: usize,
    /// Deliveries that a full location table refused.
    full: usize,
    /// How many deliveries of its frames are still to come, and how many of its frames are held.
    waiting: usize,
    /// How many of its frames a station held, and how many of these were cancelled by copies from
    /// others.
    held: usize,
    cancelled: usize,
}

impl OpenSend {
    /// Returns the packet that an event sent, with its first frame.
    pub(crate) fn new(
        alloc: Global,
        world: &World,
        presence: &Presence,
        done: &EventRecord<'_>,
        kind: Kind,
        request: &OwnedGbcRequest,
    ) -> Result<OpenSend, NoMemory> {
        Ok(OpenSend {
            send: done.number,
            moment: done.moment,
            station: done.station,
            kind,
            port: request.port,
            audience: Audience::new(alloc, world, presence, done, request)?,
            delivered: HashSet::new(alloc),
            firsts: Vec::new(alloc),
            frames: 1,
            hops: 0,
            heard: 0,
            lost: 0,
            duplicates: 0,
            full: 0,
            waiting: 0,
            held: 0,
            cancelled: 0,
        })
    }

    /// Whether a delivery of one of its frames is still to come, or a station holds one.
    pub(crate) fn is_open(&self) -> bool {
        self.waiting > 0
    }

    /// Notes that this many more deliveries of its frames are to come.
    pub(crate) fn wait(&mut self, deliveries: usize) {
        self.waiting = self.waiting.saturating_add(deliveries);
    }

    /// Notes that one delivery less is to come.
    pub(crate) fn wait_no_more(&mut self) {
        self.waiting = self.waiting.saturating_sub(1);
    }

    /// Notes that a station holds a frame of it.
    pub(crate) fn hold(&mut self) {
        add_one(&mut self.held);
        self.wait(1);
    }

    /// Notes that a frame of it which a station held is sent.
    pub(crate) fn release(&mut self) {
        self.wait_no_more();
        self.relay();
    }

    /// Notes that a frame of it which a station held is not sent. It is cancelled if copies from
    /// others were received.
    pub(crate) fn let_go(&mut self, is_cancelled: bool) {
        self.wait_no_more();
        if is_cancelled {
            add_one(&mut self.cancelled);
        }
    }

    /// Notes that a station forwarded a frame of it.
    pub(crate) fn relay(&mut self) {
        add_one(&mut self.frames);
    }

    /// Notes that a delivery to a station was lost at random.
    pub(crate) fn lose(&mut self) {
        add_one(&mut self.lost);
    }

    /// Takes the delivery of a frame that was forwarded `depth` times.
    pub(crate) fn take(
        &mut self,
        world: &World,
        done: &EventRecord<'_>,
        depth: usize,
    ) -> Result<(), NoMemory> {
        self.count(done.entry);
        self.audience.take(world, done);
        if Reach::is_delivery(done.entry) {
            self.hops = self.hops.max(depth.saturating_add(1));
            if self.delivered.insert(done.station)? {
                self.firsts.push(done.moment.saturating_sub(self.moment))?;
            }
        }
        Ok(())
    }

    /// Counts a delivery with this outcome.
    fn count(&mut self, entry: &Entry) {
        match entry {
            Entry::Refused(EntryFault::NoSuchFrame | EntryFault::NoSuchStation) => return,
            Entry::Refused(EntryFault::Station(Refused::TableFull)) => add_one(&mut self.full),
            Entry::Ignored(Why::Duplicate) => add_one(&mut self.duplicates),
            _ => {}
        }
        add_one(&mut self.heard);
    }

    /// Returns the quantiles of the times to its first deliveries.
    fn times(&mut self) -> Result<Quantiles, NoMemory> {
        Quantiles::of(&mut self.firsts)
    }

    /// Writes its row. `times` are those of its first deliveries.
    fn write_row<W: Write>(
        &self,
        times: Quantiles,
        has_contention: bool,
        out: &mut W,
    ) -> io::Result<()> {
        self.write_send(out)?;
        self.write_audience(out)?;
        self.write_deliveries(out)?;
        let Quantiles {
            least,
            p50,
            p95,
            most,
        } = times;
        write!(out, "{},{least},{p50},{p95},{most}", self.hops)?;
        if has_contention {
            write!(out, ",{},{}", self.held, self.cancelled)?;
        }
        writeln!(out)
    }

    /// Writes when it was sent, by which station, and as what.
    fn write_send<W: Write>(&self, out: &mut W) -> io::Result<()> {
        let (send, moment, station, port) = (self.send, self.moment, self.station, self.port);
        write!(out, "{send},{moment},{station},{},{port},", self.kind)
    }

    /// Writes how many stations it was for, how many of these it reached, and with how many frames.
    fn write_audience<W: Write>(&self, out: &mut W) -> io::Result<()> {
        let (inside, reached) = (self.audience.size(), self.audience.reached(None));
        write!(
            out,
            "{inside},{reached},{},{},",
            self.delivered.len(),
            self.frames
        )
    }

    /// Writes the outcomes of the deliveries of its frames.
    fn write_deliveries<W: Write>(&self, out: &mut W) -> io::Result<()> {
        let (heard, lost, duplicates, full) = (self.heard, self.lost, self.duplicates, self.full);
        write!(out, "{heard},{lost},{duplicates},{full},")
    }

    /// Writes its row, once none of its frames has deliveries to come. The row has the held frames
    /// if any station contends.
    pub(crate) fn write<W: Write>(
        mut self,
        has_contention: bool,
        out: &mut W,
    ) -> Result<(), SimulationFault> {
        let times = self.times()?;
        Ok(self.write_row(times, has_contention, out)?)
    }
}

/// Adds 1 to a count.
fn add_one(count: &mut usize) {
    *count = count.saturating_add(1);
}
