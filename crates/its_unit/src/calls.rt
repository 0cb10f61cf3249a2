//! The calls of a unit that tell nothing but that they were made.

ghost use Rattle.std.specs.Prelude.{◌≡◌, ◌≢◌, Err, OnErr, OnOk};
ghost use Rattle.std.specs.Option.{option_map};
ghost use Rattle.its_contention.specs.Buffer.{cleared};
ghost use Rattle.its_gnvalue.specs.Values.{IsSpeed};
ghost use Rattle.its_model.specs.Calls.{Moved, Opened, Closed, Restarted};
ghost use Rattle.its_model.specs.Calls.OwnCall.{Move, Open, Close, Restart};
ghost use Rattle.its_station.specs.Counting.{counted_done};
ghost use Rattle.its_station.specs.Steps.{Says};
ghost use Rattle.its_unit.specs.Unit.{UnitModel, RepresentsUnit, unit_step, Own, MoveAt};
ghost use Rattle.its_unit.specs.Steps.{IsStepOf, SaysPassed, IsSameUnit};

use crate::unit::Unit;
use its_gnvalue::Place;
use its_loctable::LocationStore;
use its_station::Refused;

impl<S: LocationStore> Unit<S> {
    /// The station stands there from now on, as `Station::move_to` says.
    pub fn move_to(
        &mut self,
        now: u64,
        place: Place,
        pai: bool,
        speed: i16,
        heading: u16,
    ) -> Result<(), Refused>
        requires { IsSpeed speed }
        ensures step { (u : UnitModel) → RepresentsUnit self.old u →
            IsStepOf (SaysPassed (Says Moved)) result self.new
            (unit_step u now (Own (Move place pai speed heading))) }
        ensures counts { self.new.counts ≡ counted_done result self.old.counts }
        ensures limits { self.new.governor ≡ self.old.governor }
        ensures contention { self.new.contention ≡ self.old.contention }
        ensures unchanged { OnErr result (IsSameUnit self.old self.new) }
        ensures memory { result ≢ Err Refused.NoMemory }
    {
        let said = self.station.move_to(now, place, pai, speed, heading);
        self.counts.note_done(&said);
        said
    }

    /// The station stands there from now on, by a fix of another time than `now`, as `Station::move_at`
    /// says.
    pub fn move_at(
        &mut self,
        now: u64,
        fix: u32,
        place: Place,
        pai: bool,
        speed: i16,
        heading: u16,
    ) -> Result<(), Refused>
        requires { IsSpeed speed }
        ensures step { (u : UnitModel) → RepresentsUnit self.old u →
            IsStepOf (SaysPassed (Says Moved)) result self.new
            (unit_step u now (MoveAt fix place pai speed heading)) }
        ensures counts { self.new.counts ≡ counted_done result self.old.counts }
        ensures limits { self.new.governor ≡ self.old.governor }
        ensures contention { self.new.contention ≡ self.old.contention }
        ensures unchanged { OnErr result (IsSameUnit self.old self.new) }
        ensures memory { result ≢ Err Refused.NoMemory }
    {
        let said = self.station.move_at(now, fix, place, pai, speed, heading);
        self.counts.note_done(&said);
        said
    }

    /// Opens a port, as `Station::open` does.
    pub fn open(&mut self, now: u64, port: u16) -> Result<(), Refused>
        ensures step { (u : UnitModel) → RepresentsUnit self.old u →
            IsStepOf (SaysPassed (Says Opened)) result self.new
            (unit_step u now (Own (Open port))) }
        ensures counts { self.new.counts ≡ counted_done result self.old.counts }
        ensures limits { self.new.governor ≡ self.old.governor }
        ensures contention { self.new.contention ≡ self.old.contention }
        ensures unchanged { OnErr result (IsSameUnit self.old self.new) }
        ensures memory { result ≢ Err Refused.NoMemory }
    {
        let said = self.station.open(now, port);
        self.counts.note_done(&said);
        said
    }

    /// Closes a port, as `Station::close` does.
    pub fn close(&mut self, now: u64, port: u16) -> Result<(), Refused>
        ensures step { (u : UnitModel) → RepresentsUnit self.old u →
            IsStepOf (SaysPassed (Says Closed)) result self.new
            (unit_step u now (Own (Close port))) }
        ensures counts { self.new.counts ≡ counted_done result self.old.counts }
        ensures limits { self.new.governor ≡ self.old.governor }
        ensures contention { self.new.contention ≡ self.old.contention }
        ensures unchanged { OnErr result (IsSameUnit self.old self.new) }
        ensures memory { result ≢ Err Refused.NoMemory }
    {
        let said = self.station.close(now, port);
        self.counts.note_done(&said);
        said
    }

    /// The station begins again with this sequence number, as `Station::restart` says. The frames that
    /// wait are dropped. The limits and the counts stay.
    pub fn restart(&mut self, now: u64, number: u16) -> Result<(), Refused>
        ensures step { (u : UnitModel) → RepresentsUnit self.old u →
            IsStepOf (SaysPassed (Says Restarted)) result self.new
            (unit_step u now (Own (Restart number))) }
        ensures counts { self.new.counts ≡ counted_done result self.old.counts }
        ensures limits { self.new.governor ≡ self.old.governor }
        ensures contention { OnOk result
            (self.new.contention ≡ option_map cleared self.old.contention) }
        ensures unchanged { OnErr result (IsSameUnit self.old self.new) }
        ensures memory { result ≢ Err Refused.NoMemory }
    {
        let said = self.station.restart(now, number);
        self.counts.note_done(&said);
        if let (Ok(()), Some(contention)) = (&said, &mut self.contention) {
            contention.clear();
        }
        said
    }
}
