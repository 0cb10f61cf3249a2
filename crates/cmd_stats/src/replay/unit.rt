//! The unit to which a capture is replayed.

ghost use Rattle.std.specs.Prelude.{◌≡◌, ◌++◌, ◌∷◌, [], IfOk, MatchResult, false};
ghost use Rattle.its_model.specs.History.{is_among};
ghost use Rattle.its_model.specs.Station.{StationModel};
ghost use Rattle.its_station.specs.State.{RepresentsStation};
ghost use Rattle.cmd_stats.specs.Units.{BeginsUnit, IsUnit, begun, listed, with_open};

use its_btp::{MAX_OPEN_PORTS, PortFault};
use its_gnvalue::{GnAddress, NoMemory, Place};
use its_governor::Limits;
use its_loctable::SortedTable;
use its_model::laws::calls_go_on;
use its_station::Station;
use its_unit::Unit;
use std::alloc::Global;

/// The ports that a station opens at its start: at most 64, each once.
#[derive(Clone, Copy, Debug, PartialEq, Eq)]
pub struct PortList {
    ports: [u16; MAX_OPEN_PORTS],
    count: usize,
}

impl PortList {
    /// Returns a list without ports.
    pub fn new() -> PortList
        ensures { listed result ≡ [] }
    {
        PortList {
            ports: [0; MAX_OPEN_PORTS],
            count: 0,
        }
    }

    /// Returns the ports, in the order in which they were added.
    pub fn as_slice(&self) -> &[u16]
        ensures { result.now ≡ listed self.now }
    {
        &self.ports[..self.count.min(MAX_OPEN_PORTS)]
    }

    /// Whether a port is one of them.
    fn has(&self, port: u16) -> bool
        ensures { result ≡ is_among port (listed self.now) }
    {
        self.as_slice().iter().any(|other| *other == port)
    }

    /// Adds a port. Returns `AlreadyOpen` (B2) if the list has it, and otherwise `Full` (B3) if the
    /// list has 64 ports. The list is unchanged then.
    pub fn add(&mut self, port: u16) -> Result<(), PortFault>
        ensures { MatchResult result
            (λ _. (is_among port (listed self.old) ≡ false)
            × (listed self.new ≡ listed self.old ++ port ∷ []))
            (λ _. self.new ≡ self.old) }
    {
        if self.has(port) {
            return Err(PortFault::AlreadyOpen);
        }
        if self.count >= MAX_OPEN_PORTS {
            return Err(PortFault::Full);
        }
        self.ports[self.count] = port;
        self.count += 1;
        Ok(())
    }
}

/// A unit that only listens: where it begins, and what it opens at its start.
#[derive(Clone, Copy, Debug, PartialEq, Eq)]
pub struct ReplayUnit {
    /// Its address.
    pub address: GnAddress,
    /// Its first position.
    pub place: Place,
    /// The size of its location table, 1 to 4096.
    pub capacity: u16,
    /// The length of its duplicate packet lists, 1 to 64.
    pub remember: u8,
    /// The ports that it opens at time 0.
    pub ports: PortList,
}

impl ReplayUnit {
    /// Returns the unit at time 0, with its ports open and the default limits. It doesn't contend.
    /// `NoMemory` if an allocation failed.
    pub(crate) fn begin(&self, alloc: Global) -> Result<Unit<SortedTable>, NoMemory>
        requires { IsUnit self.now }
        ensures { IfOk result (BeginsUnit Limits.CHANNEL (begun self.now)) }
    {
        let station = self.begin_station(alloc)?;
        Unit::new(alloc, station, &Limits::CHANNEL)
    }

    /// Returns the station at time 0, with its ports open. `NoMemory` if an allocation failed.
    fn begin_station(&self, alloc: Global) -> Result<Station<SortedTable>, NoMemory>
        requires { IsUnit self.now }
        ensures { IfOk result (λ station. RepresentsStation station (begun self.now)) }
    {
        let (address, place) = (self.address, self.place);
        let Ok(mut station) = Station::new(alloc, address, place, self.capacity, self.remember)
        else {
            return Err(NoMemory);
        };
        open_ports(&mut station, self.ports.as_slice());
        Ok(station)
    }
}

/// Opens these ports at time 0. A port that can't be opened stays as it was.
fn open_ports(station: &mut Station<SortedTable>, ports: &[u16])
    ensures { (s : StationModel) → RepresentsStation station.old s →
        RepresentsStation station.new (with_open s ports.now) }
{
    // A law, for the proof alone.
    calls_go_on();
    for port in ports {
        let _ = station.open(0, *port);
    }
}
