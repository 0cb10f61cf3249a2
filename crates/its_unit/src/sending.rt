//! What a unit originates: beacons, and own packets within their rate.

ghost use Rattle.std.specs.Prelude.{◌≡◌, ◌≤◌, ◌+◌, None, Ok, Err, IfOk, IfSome, OnErr, OnOk, length};
ghost use Rattle.std.specs.Prelude.{IsTrue, nat_le};
ghost use Rattle.its_headers.specs.declared.kind.Kind.TheVariants as kinds;
ghost use Rattle.its_model.specs.Calls.{area_call};
ghost use Rattle.its_model.specs.Calls.OwnCall.{Tick, SendShb};
ghost use Rattle.its_model.specs.Station.{StationModel, first, moment_refusal, own_refusal};
ghost use Rattle.its_station.specs.Beside.{shb_refusal};
ghost use Rattle.its_station.specs.Counting.{counted_tick};
ghost use Rattle.its_station.specs.Requests.{TellsTick, shb_request, gbc_request};
ghost use Rattle.its_station.specs.Requests.{kind_cast, kind_of_cast};
ghost use Rattle.its_station.specs.State.{RepresentsStation};
ghost use Rattle.its_governor.specs.Governing.{is_over_rate, after_sent, after_refusal};
ghost use Rattle.its_unit.specs.Unit.{UnitModel, RepresentsUnit, unit_step, Own, SendShbFor};
ghost use Rattle.its_unit.specs.Steps.{IsStepOf, IsSendOf, SaysPassed, IsSameUnit};
ghost use Rattle.its_unit.specs.Steps.{counted_request, unsent_of};

use crate::unit::Unit;
use crate::unsent::Unsent;
use its_headers::Kind;
use its_loctable::LocationStore;
use its_station::{AreaCast, GbcRequest, Refused, ShbOptions, ShbRequest};

impl<S: LocationStore> Unit<S> {
    /// The frame of a beacon, if one is due, as `Station::tick` gives it. No limit applies to it.
    pub fn tick(&mut self, now: u64, jitter: u16) -> Result<Option<Vec<u8>>, Refused>
        ensures step { (u : UnitModel) → RepresentsUnit self.old u →
            IsStepOf (SaysPassed TellsTick) result self.new (unit_step u now (Own (Tick jitter))) }
        ensures counts { self.new.counts ≡ counted_tick result self.old.counts }
        ensures limits { self.new.governor ≡ self.old.governor }
        ensures contention { self.new.contention ≡ self.old.contention }
        ensures unchanged { OnErr result (IsSameUnit self.old self.new) }
        ensures memory { (s : StationModel) → RepresentsStation self.old.station s →
            result ≡ Err Refused.NoMemory →
            (first (moment_refusal s now) (own_refusal s (Tick jitter)) ≡ None)
            × IsTrue (nat_le (s.beacon_from + jitter) now) }
        ensures short_frame { IfOk result (λ beacon.
            IfSome beacon (λ frame. length frame.items ≤ 1468)) }
    {
        let said = self.station.tick(now, jitter);
        self.counts.note_tick(&said);
        said
    }

    /// The frame of a single-hop broadcast, as `Station::send_shb` gives it. It isn't sent if own
    /// packets are over their rate.
    pub fn send_shb(&mut self, now: u64, r: &ShbRequest<'_>) -> Result<Vec<u8>, Unsent>
        ensures step { (u : UnitModel) → RepresentsUnit self.old u →
            IsSendOf result self.new (unit_step u now (Own (SendShb (shb_request r.now)))) }
        ensures counts { self.new.counts
            ≡ counted_request kinds.Shb result self.old.counts }
        ensures over_rate { result ≡ Err Unsent.OverRate →
            IsTrue (is_over_rate self.old.governor self.old.station.clock now)
            × (self.new.governor ≡ after_refusal self.old.governor)
            × (self.new.station ≡ self.old.station) }
        ensures limit { IsTrue (is_over_rate self.old.governor self.old.station.clock now) →
            result ≡ Err Unsent.OverRate }
        ensures contention { self.new.contention ≡ self.old.contention }
        ensures unchanged { (e : Refused) → result ≡ Err (Unsent.Refused e) →
            IsSameUnit self.old self.new }
        ensures memory { (s : StationModel) → RepresentsStation self.old.station s →
            result ≡ Err (Unsent.Refused Refused.NoMemory) →
            first (moment_refusal s now) (own_refusal s (SendShb (shb_request r.now))) ≡ None }
        ensures short_frame { IfOk result (λ frame. length frame.items ≤ 1468) }
    {
        if self.is_over_rate(now) {
            return Err(self.refuse_for_rate());
        }
        let said = self.station.send_shb(now, r);
        self.note_request(now, Kind::Shb, said)
    }

    /// The frame of a single-hop broadcast with a lifetime and media-dependent data of its own, as
    /// `Station::send_shb_for` gives it. It isn't sent if own packets are over their rate.
    pub fn send_shb_for(
        &mut self,
        now: u64,
        r: &ShbRequest<'_>,
        options: ShbOptions,
    ) -> Result<Vec<u8>, Unsent>
        ensures step { (u : UnitModel) → RepresentsUnit self.old u →
            IsSendOf result self.new (unit_step u now (SendShbFor options (shb_request r.now))) }
        ensures counts { self.new.counts
            ≡ counted_request kinds.Shb result self.old.counts }
        ensures over_rate { result ≡ Err Unsent.OverRate →
            IsTrue (is_over_rate self.old.governor self.old.station.clock now)
            × (self.new.governor ≡ after_refusal self.old.governor)
            × (self.new.station ≡ self.old.station) }
        ensures limit { IsTrue (is_over_rate self.old.governor self.old.station.clock now) →
            result ≡ Err Unsent.OverRate }
        ensures contention { self.new.contention ≡ self.old.contention }
        ensures unchanged { (e : Refused) → result ≡ Err (Unsent.Refused e) →
            IsSameUnit self.old self.new }
        ensures memory { (s : StationModel) → RepresentsStation self.old.station s →
            result ≡ Err (Unsent.Refused Refused.NoMemory) →
            shb_refusal s now (shb_request r.now) ≡ None }
        ensures short_frame { IfOk result (λ frame. length frame.items ≤ 1468) }
    {
        if self.is_over_rate(now) {
            return Err(self.refuse_for_rate());
        }
        let said = self.station.send_shb_for(now, r, options);
        self.note_request(now, Kind::Shb, said)
    }

    /// The frame of a packet for an area, as `Station::send_to_area` gives it. It isn't sent if own
    /// packets are over their rate.
    pub fn send_to_area(
        &mut self,
        now: u64,
        cast: AreaCast,
        r: &GbcRequest<'_>,
    ) -> Result<Vec<u8>, Unsent>
        ensures step { (u : UnitModel) → RepresentsUnit self.old u →
            IsSendOf result self.new
            (unit_step u now (Own (area_call (kind_of_cast cast) (gbc_request r.now)))) }
        ensures counts { self.new.counts
            ≡ counted_request (kind_cast cast) result self.old.counts }
        ensures over_rate { result ≡ Err Unsent.OverRate →
            IsTrue (is_over_rate self.old.governor self.old.station.clock now)
            × (self.new.governor ≡ after_refusal self.old.governor)
            × (self.new.station ≡ self.old.station) }
        ensures limit { IsTrue (is_over_rate self.old.governor self.old.station.clock now) →
            result ≡ Err Unsent.OverRate }
        ensures contention { self.new.contention ≡ self.old.contention }
        ensures unchanged { (e : Refused) → result ≡ Err (Unsent.Refused e) →
            IsSameUnit self.old self.new }
        ensures memory { (s : StationModel) → RepresentsStation self.old.station s →
            result ≡ Err (Unsent.Refused Refused.NoMemory) → first (moment_refusal s now)
            (own_refusal s (area_call (kind_of_cast cast) (gbc_request r.now))) ≡ None }
        ensures short_frame { IfOk result (λ frame. length frame.items ≤ 1468) }
    {
        if self.is_over_rate(now) {
            return Err(self.refuse_for_rate());
        }
        let said = self.station.send_to_area(now, cast, r);
        self.note_request(now, cast.kind(), said)
    }

    /// Whether a request for an own packet at this time finds no room.
    fn is_over_rate(&self, now: u64) -> bool
        ensures { result ≡ is_over_rate self.now.governor self.now.station.clock now }
    {
        self.governor.is_over_rate(self.station.clock(), now)
    }

    /// Counts a request that finds no room.
    fn refuse_for_rate(&mut self) -> Unsent
        ensures refusal { result ≡ Unsent.OverRate }
        ensures counted { self.new
            ≡ record self.old { governor = after_refusal self.old.governor } }
    {
        self.governor.note_refusal();
        Unsent::OverRate
    }

    /// Counts the outcome of a request, and takes a frame that is sent out of its bucket.
    fn note_request(
        &mut self,
        now: u64,
        kind: Kind,
        said: Result<Vec<u8>, Refused>,
    ) -> Result<Vec<u8>, Unsent>
        ensures station { self.new.station ≡ self.old.station }
        ensures contention { self.new.contention ≡ self.old.contention }
        ensures counts { self.new.counts ≡ counted_request kind result self.old.counts }
        ensures said { result ≡ unsent_of said }
        ensures sent { OnOk result (self.new.governor ≡ after_sent self.old.governor now) }
        ensures failed { OnErr result (self.new.governor ≡ self.old.governor) }
    {
        self.counts.note_send(kind, &said);
        match said {
            Ok(frame) => {
                self.governor.note_sent(now);
                Ok(frame)
            }
            Err(refused) => Err(Unsent::Refused(refused)),
        }
    }
}
