//! A restart of a station.

ghost use Rattle.std.specs.Prelude.{◌≡◌, ◌≢◌, ◌≤◌, ◌^◌, [], Err, OnErr};
ghost use Rattle.its_model.specs.Calls.{Restarted, Own};
ghost use Rattle.its_model.specs.Calls.OwnCall.{Restart};
ghost use Rattle.its_model.specs.Station.{StationModel, station_step};
ghost use Rattle.its_loctable.specs.Content.{Represents};
ghost use Rattle.its_station.specs.State.{RepresentsStation};
ghost use Rattle.its_station.specs.Steps.{IsStepOf, Says};

use crate::refused::Refused;
use crate::station::Station;
use its_loctable::LocationStore;

impl<S: LocationStore> Station<S> {
    /// The station forgets all that it heard and closes its ports, and gives its next packet for an
    /// area this sequence number. Its address, its place and its capacity stay; its next beacon is
    /// due at once. Refused for its moment alone (S1, S2). It takes no memory.
    pub fn restart(&mut self, now: u64, number: u16) -> Result<(), Refused>
        ensures step { (s : StationModel) → RepresentsStation self.old s →
            IsStepOf (Says Restarted) result self.new
            (station_step s now (Own (Restart number))) }
        ensures unchanged { OnErr result (self.new ≡ self.old) }
        ensures memory { result ≢ Err Refused.NoMemory }
    {
        self.check_moment(now)?;
        self.begin_anew(now, number);
        Ok(())
    }

    fn begin_anew(&mut self, now: u64, number: u16)
        requires { now ≤ 2 ^ 62 }
        ensures fields { self.new ≡ record self.old {
          clock = now;
          next_number = number;
          ports = [];
          beacon_from = now;
          content = self.new.content;
        } }
        ensures table { Represents self.new.remember self.new.content [] 0 }
    {
        self.store.clear();
        self.ports.clear();
        self.next_number = number;
        self.beacon_from = now;
        self.clock = now;
    }
}
