//! Stations that talk by sockets, and their lines.

ghost use Rattle.std.specs.Prelude.{◌≡◌, ◌&&◌, ◌||◌, not, ℕ, false, All, IfOk, OnOk, OnErr};
ghost use Rattle.std.specs.Prelude.{List, map, slice_get};
ghost use Rattle.its_model.specs.Station.{StationModel};
ghost use Rattle.its_model.specs.World.{opening};
ghost use Rattle.its_world.specs.Entries.{was_done};
ghost use Rattle.its_station.specs.Runs.{IsInRange};
ghost use Rattle.its_world.specs.Events as happenings;
ghost use Rattle.its_world.specs.Events.{IsConfig, config_of, event_of};
ghost use Rattle.its_world.specs.State.{RepresentStations};
ghost use Rattle.cmd_mesh.specs.Calls.{HasBegun, HasRun};
ghost use Rattle.cmd_mesh.specs.Stations.{IsCalled, IsCutShort, IsNoted};
ghost use Rattle.cmd_mesh.specs.Statuses.{mesh_status};

use crate::answers::{answer, call_word};
use crate::fault::{MeshFault, SocketFault, fault_of_lines};
use crate::lines::{print_call, print_stations};
use crate::sockets::{Sent, Sockets};
use cmd_reporting::{Fault, FrameFile, Io, Status};
use its_gnvalue::NoMemory;
use its_loctable::SortedTable;
use its_station::{Answer, Call, Station};
use its_world::{Config, Entry, EntryFault, Event, What, entry_of, stations_of};
use sim_runs::is_refused;
use sim_simulation::SimulationFault;
use std::alloc::Global;
use std::io;
use std::io::{ErrorKind, Write};

/// Stations, each with a socket, and the sinks of their lines.
#[derive(Drop)]
pub(crate) struct Mesh<'a, 't, S, W, E, F: Write + Drop> {
    pub(crate) alloc: Global,
    pub(crate) stations: Vec<Station<SortedTable>>,
    pub(crate) sockets: &'a mut S,
    /// Where its lines are printed.
    io: &'a mut Io<W, E>,
    /// Where frames are written, if they are.
    pub(crate) file: Option<FrameFile<'t, F>>,
    /// The greatest time of the events so far. It is the time of each datagram that arrives.
    pub(crate) moment: u64,
    /// How many frames were sent so far.
    frames: usize,
    /// Whether a send or a receive failed.
    failed: bool,
    /// Whether a call was refused.
    refused: bool,
}

impl<'a, 't, S: Sockets, W: Write, E: Write, F: Write + Drop> Mesh<'a, 't, S, W, E, F> {
    /// Returns new stations with these configs, each with a socket, and no file of frames. In JSON
    /// the line of the stations is printed.
    pub(crate) fn new<'f>(
        alloc: Global,
        configs: &[Config],
        sockets: &'a mut S,
        io: &'a mut Io<W, E>,
    ) -> Result<Mesh<'a, 't, S, W, E, F>, MeshFault<'f>>
        requires { All IsConfig configs.now }
        ensures stations { IfOk result (λ mesh. RepresentStations mesh.stations.items
            (opening (map config_of configs.now)).stations) }
        ensures unused { IfOk result (λ mesh. (mesh.moment ≡ 0) × (mesh.refused ≡ false)) }
    {
        let stations = stations_of(alloc, configs)?;
        for number in 0..configs.len() {
            make_socket(sockets, number)?;
        }
        if let Err(fault) = print_stations(alloc, io.format, configs, &mut io.out) {
            return Err(MeshFault::from(fault_of_lines(fault)));
        }
        Ok(Mesh {
            alloc,
            stations,
            sockets,
            io,
            file: None,
            moment: 0,
            frames: 0,
            failed: false,
            refused: false,
        })
    }

    /// Runs the events, and rounds after each. An event that delivers a frame is skipped, since the
    /// sockets do that. Each call of the other events is made once, in order. Between them
    /// datagrams are received, at the greatest time so far. With `strict` a call that was refused
    /// changes the status from `Done` to `Refused`. If the run ends before the last event, the
    /// calls that were made are the first ones.
    pub(crate) fn run<'f>(&mut self, events: Vec<Event>, strict: bool) -> Result<Status, Fault<'f>>
        requires ranges { All (λ event. happenings.IsInRange event.what) events.items }
        ensures status { IfOk result (λ status. status
            ≡ mesh_status self.new.failed (strict && self.new.refused)) }
        ensures made { (models : List StationModel) →
            RepresentStations self.old.stations.items models →
            OnOk result (HasRun (map event_of events.items) models self.old.moment
            self.old.refused self.new.stations.items self.new.refused) }
        ensures stopped { (models : List StationModel) →
            RepresentStations self.old.stations.items models →
            OnErr result (HasBegun (map event_of events.items) models self.old.moment
            self.old.refused self.new.stations.items self.new.refused) }
    {
        for event in events {
            let Event {
                station,
                moment,
                what,
            } = event;
            match what {
                What::Call(own) => {
                    self.moment = self.moment.max(moment);
                    self.call(station, moment, Call::Own(own))?;
                    self.rounds()?;
                }
                // The sockets deliver.
                What::Deliver(_) => {}
            }
        }
        Ok(if self.failed {
            Status::Failed
        } else if strict && self.refused {
            Status::Refused
        } else {
            Status::Done
        })
    }

    /// Makes a call of a station, notes whether it was refused, prints its line, and sends its
    /// frame to each other station. If memory ran out, the call was not made. If the line or the
    /// frame could not be written, it was made.
    pub(crate) fn call<'f>(
        &mut self,
        station: usize,
        moment: u64,
        call: Call,
    ) -> Result<(), Fault<'f>>
        requires { IsInRange call }
        ensures called { (models : List StationModel) →
            RepresentStations self.old.stations.items models →
            OnOk result (IsNoted self.old.stations.items (slice_get models station) station moment
            call self.old.refused self.new.stations.items self.new.refused) }
        ensures stopped { (models : List StationModel) →
            RepresentStations self.old.stations.items models →
            OnErr result (IsCutShort self.old.stations.items models (slice_get models station)
            station moment call self.old.refused self.new.stations.items self.new.refused) }
        ensures moment { self.new.moment ≡ self.old.moment }
        ensures asked { (count : ℕ) → S.Asked self.old.sockets.now count
            → S.Asked self.new.sockets.now count }
    {
        let word = call_word(&call);
        let (entry, frame) = self.outcome_at(station, moment, call)?;
        if let Err(fault) = self.print(moment, station, word, &entry) {
            return Err(fault_of_lines(fault));
        }
        if let Some(frame) = frame {
            // No run sends as many frames as there are numbers.
            self.frames = self.frames.saturating_add(1);
            self.record(moment, station, frame.as_slice())?;
            self.send(station, frame.as_slice());
        }
        Ok(())
    }

    /// Writes a frame that a station sent to the file of frames, if there is one.
    fn record(&mut self, moment: u64, station: usize, frame: &[u8]) -> io::Result<()>
        ensures stations { self.new.stations ≡ self.old.stations }
        ensures refused { self.new.refused ≡ self.old.refused }
        ensures moment { self.new.moment ≡ self.old.moment }
        ensures sockets { self.new.sockets.now ≡ self.old.sockets.now }
    {
        match &mut self.file {
            Some(file) => file.put(station, moment, frame, self.io.format, &mut self.io.err),
            None => Ok(()),
        }
    }

    /// Makes a call of a station. Returns its entry, and the frame that the station sent, if any.
    fn outcome_at(
        &mut self,
        station: usize,
        moment: u64,
        call: Call,
    ) -> Result<(Entry, Option<Vec<u8>>), NoMemory>
        requires { IsInRange call }
        ensures called { (models : List StationModel) →
            RepresentStations self.old.stations.items models →
            IfOk result (λ outcome. IsCalled self.old.stations.items (slice_get models station)
            station moment call (not (was_done outcome.0)) self.new.stations.items) }
        ensures unmade { (models : List StationModel) →
            RepresentStations self.old.stations.items models →
            OnErr result (RepresentStations self.new.stations.items models) }
        ensures sockets { self.new.sockets.now ≡ self.old.sockets.now }
        ensures refused { self.new.refused ≡ self.old.refused }
        ensures moment { self.new.moment ≡ self.old.moment }
    {
        if station >= self.stations.len() {
            let fault = EntryFault::NoSuchStation;
            return Ok((Answer::Refused(fault), None));
        }
        let answer = answer(&mut self.stations[station], moment, call)?;
        Ok(entry_of(answer, self.frames))
    }

    /// Prints the line of a call with this keyword, and notes whether it was refused.
    fn print(
        &mut self,
        moment: u64,
        station: usize,
        word: &'static str,
        entry: &Entry,
    ) -> Result<(), SimulationFault>
        ensures refused { self.new.refused ≡ (self.old.refused || not (was_done entry.now)) }
        ensures stations { self.new.stations ≡ self.old.stations }
        ensures moment { self.new.moment ≡ self.old.moment }
        ensures sockets { self.new.sockets.now ≡ self.old.sockets.now }
    {
        self.refused |= is_refused(entry);
        print_call(
            self.alloc,
            self.io.format,
            moment,
            station,
            word,
            entry,
            &mut self.io.out,
        )
    }

    /// Sends a frame to each other station. A send that fails or would block is reported, and the
    /// others are made.
    fn send(&mut self, from: usize, frame: &[u8])
        ensures stations { self.new.stations ≡ self.old.stations }
        ensures refused { self.new.refused ≡ self.old.refused }
        ensures moment { self.new.moment ≡ self.old.moment }
        ensures asked { (count : ℕ) → S.Asked self.old.sockets.now count
            → S.Asked self.new.sockets.now count }
    {
        for to in 0..self.stations.len() {
            if to != from && self.sockets.send(from, to, frame) != Sent::Done {
                self.fail(SocketFault::SendFailed(from));
            }
        }
    }

    /// Reports a socket that failed, and goes on.
    pub(crate) fn fail(&mut self, fault: SocketFault)
        ensures stations { self.new.stations ≡ self.old.stations }
        ensures refused { self.new.refused ≡ self.old.refused }
        ensures moment { self.new.moment ≡ self.old.moment }
        ensures sockets { self.new.sockets.now ≡ self.old.sockets.now }
    {
        let _ = writeln!(self.io.err, "{fault}");
        self.failed = true;
    }
}

/// Makes the socket of the station with this number.
fn make_socket<'f, S: Sockets>(sockets: &mut S, number: usize) -> Result<(), MeshFault<'f>> {
    match sockets.make() {
        Ok(()) => Ok(()),
        Err(error) if error.kind() == ErrorKind::OutOfMemory => { Err(MeshFault::from(NoMemory)) }
        Err(_) => Err(MeshFault::Socket(SocketFault::NoSocket(number))),
    }
}
