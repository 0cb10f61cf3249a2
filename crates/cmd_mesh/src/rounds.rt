//! Rounds in which each socket is asked for datagrams.

ghost use Rattle.std.specs.Prelude.{◌≡◌, ℕ, ◌+◌, ◌≤◌, ◌<◌, IfOk, OnOk, List, length};
ghost use Rattle.its_model.specs.Station.{StationModel};
ghost use Rattle.its_world.specs.State.{RepresentStations};
ghost use Rattle.cmd_mesh.specs.Calls.{HasReceived, HasReceivedAt};

use crate::fault::SocketFault;
use crate::mesh::Mesh;
use crate::sockets::{Received, Sockets};
use cmd_reporting::Fault;
use its_linkframe::LONGEST_FRAME;
use its_station::Call;
use std::io::Write;

/// The most rounds after an event, and the most datagrams that a socket is asked for in one round.
const MOST: u32 = 64;

/// After this many rounds in a row without a datagram, there is no further round.
const QUIET: u32 = 4;

/// The longest prefix of a datagram that is read: one octet more than a frame may have, so that
/// what is too long for a frame stays so.
const LONGEST_READ: usize = LONGEST_FRAME + 1;

impl<'a, 't, S: Sockets, W: Write, E: Write, F: Write + Drop> Mesh<'a, 't, S, W, E, F> {
    /// Holds at most 64 rounds, until four in a row had no datagram. Only datagrams make calls.
    pub(crate) fn rounds<'f>(&mut self) -> Result<(), Fault<'f>>
        ensures received { (models : List StationModel) →
            RepresentStations self.old.stations.items models →
            HasReceived models self.old.moment self.old.refused self.new.stations.items
            self.new.refused }
        ensures moment { self.new.moment ≡ self.old.moment }
    {
        let mut quiet = 0;
        for _ in 0..MOST {
            quiet = if self.round()? { 0 } else { quiet + 1 };
            if quiet == QUIET {
                break;
            }
        }
        Ok(())
    }

    /// Asks each socket in turn, and returns whether a datagram arrived. Only datagrams make calls.
    fn round<'f>(&mut self) -> Result<bool, Fault<'f>>
        ensures received { (models : List StationModel) →
            RepresentStations self.old.stations.items models →
            HasReceived models self.old.moment self.old.refused self.new.stations.items
            self.new.refused }
        ensures moment { self.new.moment ≡ self.old.moment }
    {
        let mut came = false;
        for station in 0..self.stations.len() {
            if self.ask(station)? > 0 {
                came = true;
            }
        }
        Ok(came)
    }

    /// Asks a station's socket until it would block, it fails, or 64 datagrams arrived. Passes each
    /// to the station once, at the greatest time so far. Returns how many arrived.
    fn ask<'f>(&mut self, station: usize) -> Result<u32, Fault<'f>>
        ensures received { (models : List StationModel) →
            RepresentStations self.old.stations.items models →
            station < length self.old.stations.items →
            (count : ℕ) × HasReceivedAt models station self.old.moment self.old.refused
            self.new.stations.items self.new.refused count × IfOk result (λ came. came ≡ count) }
        ensures moment { self.new.moment ≡ self.old.moment }
        ensures asked { (before : ℕ) → S.Asked self.old.sockets.now before → OnOk result
            ((count : ℕ) × (count ≤ 64) × S.Asked self.new.sockets.now (before + count)) }
    {
        let mut buffer = [0u8; LONGEST_READ];
        for count in 0..MOST {
            match self.sockets.receive(station, &mut buffer) {
                Received::Done(length) => {
                    let datagram = Vec::from_slice(self.alloc, &buffer[..length])?;
                    self.call(station, self.moment, Call::Receive(datagram))?;
                }
                Received::WouldBlock => return Ok(count),
                Received::Failed => {
                    self.fail(SocketFault::ReceiveFailed(station));
                    return Ok(count);
                }
            }
        }
        Ok(MOST)
    }
}
