//! The ports of a station.

ghost use Rattle.std.specs.Prelude.{◌≡◌, ◌≢◌, ◌<◌, ◌++◌, ◌∷◌, [], ◌==◌, not, filter, length, true};
ghost use Rattle.std.specs.Prelude.{false, Err, OnErr, MatchResult};
ghost use Rattle.its_model.specs.Calls.{Opened, Closed, Own};
ghost use Rattle.its_model.specs.Calls.OwnCall.{Open, Close};
ghost use Rattle.its_model.specs.History.{is_among};
ghost use Rattle.its_model.specs.Station.{StationModel, station_step};
ghost use Rattle.its_btp.specs.PortSets.{IsOpenFault};
ghost use Rattle.its_station.specs.State.{RepresentsStation};
ghost use Rattle.its_station.specs.Steps.{IsStepOf, Says};

use crate::refused::Refused;
use crate::station::Station;
use its_btp::PortFault;
use its_loctable::LocationStore;

impl<S: LocationStore> Station<S> {
    /// Opens a port: from now on payloads for it are delivered. Refused for its moment (S1, S2),
    /// and by `Port` (S8) where the port is open or 64 others are. It takes no memory.
    pub fn open(&mut self, now: u64, port: u16) -> Result<(), Refused>
        ensures step { (s : StationModel) → RepresentsStation self.old s →
            IsStepOf (Says Opened) result self.new (station_step s now (Own (Open port))) }
        ensures unchanged { OnErr result (self.new ≡ self.old) }
        ensures memory { result ≢ Err Refused.NoMemory }
    {
        self.check_moment(now)?;
        self.open_port(port)?;
        self.set_clock(now);
        Ok(())
    }

    /// Closes a port. Refused for its moment (S1, S2), and by `Port` (S8) where the port isn't
    /// open. It takes no memory.
    pub fn close(&mut self, now: u64, port: u16) -> Result<(), Refused>
        ensures step { (s : StationModel) → RepresentsStation self.old s →
            IsStepOf (Says Closed) result self.new (station_step s now (Own (Close port))) }
        ensures unchanged { OnErr result (self.new ≡ self.old) }
        ensures memory { result ≢ Err Refused.NoMemory }
    {
        self.check_moment(now)?;
        self.close_port(port)?;
        self.set_clock(now);
        Ok(())
    }

    fn open_port(&mut self, port: u16) -> Result<(), PortFault>
        ensures { MatchResult result
            (λ _. (is_among port self.old.ports ≡ false) × (length self.old.ports < 64)
            × (self.new ≡ record self.old { ports = self.old.ports ++ port ∷ [] }))
            (λ f. IsOpenFault port self.old.ports f × (self.new ≡ self.old)) }
    {
        self.ports.open(port)
    }

    fn close_port(&mut self, port: u16) -> Result<(), PortFault>
        ensures { MatchResult result
            (λ _. (is_among port self.old.ports ≡ true)
            × (self.new ≡ record self.old {
              ports = filter (λ other. not (other == port)) self.old.ports;
            }))
            (λ f. (f ≡ PortFault.NotOpen) × (is_among port self.old.ports ≡ false)
            × (self.new ≡ self.old)) }
    {
        self.ports.close(port)
    }
}
