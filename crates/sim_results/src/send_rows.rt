//! The file of a run's packets for an area, one row per packet. A row is written once no delivery
//! of the packet's frames is still to come. A packet that an event asks for and that isn't sent has
//! a row too.

use crate::late_events::late_events;
use crate::open_send::OpenSend;
use crate::rows::NumberRows;
use crate::unsent::UnsentPacket;
use crate::waiting_frames::WaitingFrames;
use its_gnvalue::NoMemory;
use its_headers::Kind;
use its_station::{OwnCall, OwnedGbcRequest};
use its_world::{Entry, What, World, frame_of};
use sim_scenario::Scenario;
use sim_simulation::tally::{CarriedPacket, Presence};
use sim_simulation::{EventRecord, Note, SimulationFault};
use std::alloc::Global;
use std::collections::VecDeque;
use std::io;
use std::io::Write;

/// The names of the columns.
const HEAD: &str = "send,moment,station,kind,port,inside,reached,delivered,frames,heard,lost,\
    duplicates,full,hops,first,p50,p95,last";

/// The names of two more columns, for a run in which any station contends.
const CONTENTION_HEAD: &str = ",held,cancelled";

/// A row that isn't written yet.
#[derive(Drop)]
enum WaitingRow {
    /// The row of a packet that was sent.
    Sent(OpenSend),
    /// The row of a packet that wasn't sent.
    Unsent(UnsentPacket),
}

impl WaitingRow {
    /// Whether a delivery of its packet is still to come.
    fn is_open(&self) -> bool {
        match self {
            WaitingRow::Sent(packet) => packet.is_open(),
            WaitingRow::Unsent(_) => false,
        }
    }

    /// Writes the row, once no delivery of its packet is still to come.
    fn write<W: Write>(self, has_contention: bool, out: &mut W) -> Result<(), SimulationFault> {
        match self {
            WaitingRow::Sent(packet) => packet.write(has_contention, out),
            WaitingRow::Unsent(packet) => write_unsent(&packet, has_contention, out),
        }
    }
}

/// Writes the row of a packet that wasn't sent.
fn write_unsent<W: Write>(
    packet: &UnsentPacket,
    has_contention: bool,
    out: &mut W,
) -> Result<(), SimulationFault> {
    packet.write(out)?;
    // What was held of it is left empty.
    writeln!(out, "{}", if has_contention { ",," } else { "" })?;
    Ok(())
}

/// The packets for an area whose rows aren't written yet, in the order in which they were sent.
#[derive(Drop)]
pub(crate) struct SendRows {
    alloc: Global,
    presence: Presence,
    frames: WaitingFrames,
    /// How many rows were written.
    written: usize,
    open: VecDeque<WaitingRow>,
    /// The packets of events that the run doesn't reach, once its end is known.
    late: Vec<UnsentPacket>,
    /// Whether any station contends.
    has_contention: bool,
}

impl SendRows {
    /// Returns the rows of a run that has not begun: none.
    pub(crate) fn new(alloc: Global, scenario: &Scenario) -> Result<SendRows, NoMemory> {
        Ok(SendRows {
            alloc,
            presence: Presence::at_start(alloc, scenario.present.as_slice())?,
            frames: WaitingFrames::new(alloc, scenario)?,
            written: 0,
            open: VecDeque::new(alloc),
            late: Vec::new(alloc),
            has_contention: scenario.has_contention(),
        })
    }

    /// Lists the packets of events that the run doesn't reach. Their rows are the last. `cut` is
    /// the time of the first events that weren't run, if the run was cut short.
    pub(crate) fn list_late(
        &mut self,
        scenario: &Scenario,
        cut: Option<u64>,
    ) -> Result<(), NoMemory> {
        for event in late_events(self.alloc, scenario, cut)? {
            if let Some(packet) = UnsentPacket::late(&event) {
                self.late.push(packet)?;
            }
        }
        Ok(())
    }

    /// Returns the sent packet of the row with this number, if the row isn't written yet.
    fn packet(&mut self, row: usize) -> Option<&mut OpenSend> {
        match self.open.get_mut(row.checked_sub(self.written)?)? {
            WaitingRow::Sent(packet) => Some(packet),
            WaitingRow::Unsent(_) => None,
        }
    }

    /// Adds the row of a packet that wasn't sent, if there is one.
    fn add_unsent(&mut self, packet: Option<UnsentPacket>) -> Result<(), NoMemory> {
        match packet {
            Some(packet) => Ok(self.open.push_back(WaitingRow::Unsent(packet))?),
            None => Ok(()),
        }
    }

    /// Writes the rows of the first packets, up to one that still has deliveries to come.
    fn write_finished<W: Write>(&mut self, out: &mut W) -> Result<(), SimulationFault> {
        self.frames.forget_finished();
        for _ in 0..self.open.len() {
            match self.open.front() {
                Some(first) if !first.is_open() => self.write_first(out)?,
                _ => break,
            }
        }
        Ok(())
    }

    /// Writes the row of the first packet.
    fn write_first<W: Write>(&mut self, out: &mut W) -> Result<(), SimulationFault> {
        let Some(first) = self.open.pop_front() else {
            return Ok(());
        };
        self.written = self.written.saturating_add(1);
        first.write(self.has_contention, out)
    }

    /// Counts the event. Returns what the frame that it sent carries, if that is a packet for an
    /// area.
    fn count(
        &mut self,
        world: &World,
        done: &EventRecord<'_>,
    ) -> Result<Option<CarriedPacket>, NoMemory> {
        match done.what {
            What::Call(OwnCall::SendGeobroadcast(request)) => {
                self.count_send(world, done, Kind::Gbc, request)
            }
            What::Call(OwnCall::SendGeoanycast(request)) => {
                self.count_send(world, done, Kind::Gac, request)
            }
            What::Call(_) => Ok(None),
            What::Deliver(frame) => self.count_delivery(world, done, *frame),
        }
    }

    /// Counts the send of a packet for an area. Returns what its frame carries, if it was sent.
    fn count_send(
        &mut self,
        world: &World,
        done: &EventRecord<'_>,
        kind: Kind,
        request: &OwnedGbcRequest,
    ) -> Result<Option<CarriedPacket>, NoMemory> {
        if let Entry::Refused(fault) = done.entry {
            self.add_unsent(UnsentPacket::refused(done, *fault))?;
        }
        if frame_of(done.entry).is_none() {
            return Ok(None);
        }
        let send = self.written.saturating_add(self.open.len());
        let packet = OpenSend::new(self.alloc, world, &self.presence, done, kind, request)?;
        self.open.push_back(WaitingRow::Sent(packet))?;
        Ok(Some(CarriedPacket { send, depth: 0 }))
    }

    /// Counts the delivery of a frame. Returns what the forwarded frame carries, if there is one.
    fn count_delivery(
        &mut self,
        world: &World,
        done: &EventRecord<'_>,
        frame: usize,
    ) -> Result<Option<CarriedPacket>, NoMemory> {
        let Some(carried) = self.frames.deliver(frame) else {
            return Ok(None);
        };
        let is_relayed = frame_of(done.entry).is_some();
        let Some(packet) = self.packet(carried.send) else {
            return Ok(None);
        };
        packet.wait_no_more();
        packet.take(world, done, carried.depth)?;
        if !is_relayed {
            return Ok(None);
        }
        if !done.is_held() {
            packet.relay();
        }
        Ok(Some(carried.relayed()))
    }

    /// Notes that a station holds a frame of the packet of this row.
    fn note_held(&mut self, frame: usize, send: usize) {
        self.frames.hold(frame);
        if let Some(packet) = self.packet(send) {
            packet.hold();
        }
    }

    /// Notes that a frame which a station held is sent.
    fn release(&mut self, frame: usize) {
        let Some(carried) = self.frames.release(frame) else {
            return;
        };
        if let Some(packet) = self.packet(carried.send) {
            packet.release();
        }
    }

    /// Notes that a frame which a station held is not sent. It is cancelled if copies from others
    /// were received.
    fn let_go(&mut self, frame: usize, is_cancelled: bool) {
        let Some(carried) = self.frames.let_go(frame) else {
            return;
        };
        if let Some(packet) = self.packet(carried.send) {
            packet.let_go(is_cancelled);
        }
    }

    /// Notes a frame that was sent, with what it carries.
    fn note_given(&mut self, frame: usize, carried: CarriedPacket) -> Result<(), NoMemory> {
        let waiting = self.frames.note_given(frame, carried)?;
        if let Some(packet) = self.packet(carried.send) {
            packet.wait(waiting);
        }
        Ok(())
    }
}

impl NumberRows for SendRows {
    fn begin<W: Write>(&self, out: &mut W) -> io::Result<()> {
        let more = if self.has_contention {
            CONTENTION_HEAD
        } else {
            ""
        };
        writeln!(out, "{HEAD}{more}")
    }

    fn take<W: Write>(
        &mut self,
        world: &World,
        done: &EventRecord<'_>,
        out: &mut W,
    ) -> Result<(), SimulationFault> {
        self.write_finished(out)?;
        let carried = self.count(world, done)?;
        if let (Some(frame), Some(carried)) = (frame_of(done.entry), carried) {
            self.note_given(frame, carried)?;
            if done.is_held() {
                self.note_held(frame, carried.send);
            }
        }
        for frame in done.cancelled_frames().unwrap_or(&[]) {
            self.let_go(*frame, true);
        }
        Ok(())
    }

    fn take_note<W: Write>(
        &mut self,
        _world: &World,
        _moment: u64,
        note: &Note<'_>,
        _out: &mut W,
    ) -> Result<(), SimulationFault> {
        self.presence.take(note)?;
        let (frame, is_heard) = match *note {
            Note::Heard { frame, .. } => (frame, true),
            Note::Lost { frame, .. } => (frame, false),
            Note::Released { frame, .. } => return Ok(self.release(frame)),
            Note::Dropped { frame, .. } => return Ok(self.let_go(frame, false)),
            Note::Absent { event, .. } => return Ok(self.add_unsent(UnsentPacket::absent(event))?),
            _ => return Ok(()),
        };
        let Some(CarriedPacket { send, .. }) = self.frames.get(frame) else {
            return Ok(());
        };
        if is_heard {
            self.frames.wait(frame);
        }
        match self.packet(send) {
            Some(packet) if is_heard => packet.wait(1),
            Some(packet) => packet.lose(),
            None => {}
        }
        Ok(())
    }

    fn end<W: Write>(&mut self, out: &mut W) -> Result<(), SimulationFault> {
        for _ in 0..self.open.len() {
            self.write_first(out)?;
        }
        for packet in &self.late {
            write_unsent(packet, self.has_contention, out)?;
        }
        Ok(())
    }
}
