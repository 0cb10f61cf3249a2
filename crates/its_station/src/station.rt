//! A station, how it is made, and how it moves.

ghost use Rattle.std.specs.Prelude.{◌≡◌, ◌≢◌, ◌≤◌, ◌^◌, ◌+◌, ◌%◌, ℕ, [], List};
ghost use Rattle.std.specs.Prelude.{Result, Option, Some, None, Err, IfOk, IfErr, OnErr, OnOk};
ghost use Rattle.its_gnvalue.specs.Values.{IsSpeed, mid_of};
ghost use Rattle.its_model.specs.Calls.{Moved, Own};
ghost use Rattle.its_model.specs.Calls.OwnCall.{Move};
ghost use Rattle.its_model.specs.History.{Reception};
ghost use Rattle.its_model.specs.Station.{StationModel, new_station, station_step, moment_refusal};
ghost use Rattle.its_loctable.specs.Content.{Represents};
ghost use Rattle.its_station.specs.State.{model_of, RepresentsStation};
ghost use Rattle.its_station.specs.Beside.{move_at_step};
ghost use Rattle.its_station.specs.Steps.{IsStepOf, refusal_in, Says};

use crate::refused::Refused;
use its_btp::Ports;
use its_gnvalue::{GnAddress, LongPv, Mac, Place};
use its_loctable::LocationStore;
use std::alloc::Global;
use std::fmt;
use std::marker::Model;

/// The last moment of a call, in milliseconds (profile).
pub const LAST_MOMENT: u64 = 1 << 62;

/// A station over a location table. Contracts see its fields and the content of its table
/// (`StationState`), and each call's contract speaks of the stations of the model that it
/// represents. What a reception reads is in front, and side by side in memory.
///
/// - its invariant: its clock is at most 2^62, no beacon waits longer than 3000 ms from there, and
///   its location table represents some history of accepted packets from the clock on.
#[derive(Drop)]
pub struct Station<S: LocationStore> {
    pub(crate) clock: u64,
    pub(crate) vector: LongPv,
    pub(crate) store: S,
    pub(crate) ports: Ports,
    pub(crate) beacon_from: u64,
    pub(crate) next_number: u16,
    pub(crate) mobile: bool,
    pub(crate) alloc: Global,
}

impl<S: LocationStore> Model for Station<S> {
    ghost use Rattle.std.specs.Prelude.{◌≤◌, ◌^◌, ◌+◌};
    ghost use Rattle.its_station.specs.State.{StationState, HasPast};

    ghost Value = { StationState };

    ghost view = { λ s. record {
      vector = s.vector;
      capacity = S.limit s.store;
      remember = S.remember s.store;
      clock = s.clock;
      mobile = s.mobile;
      next_number = s.next_number;
      beacon_from = s.beacon_from;
      ports = s.ports;
      content = S.content s.store;
    } };

    ghost invariant = { λ s. (s.clock ≤ 2 ^ 62) × (s.beacon_from ≤ 2 ^ 62 + 3000)
        × HasPast (S.remember s.store) (S.content s.store) s.clock };
}

/// The location table is left out: it may hold thousands of sources.
impl<S: LocationStore> fmt::Debug for Station<S> {
    fn fmt<W: fmt::Write>(&self, f: &mut fmt::Formatter<W>) -> fmt::Result {
        f.debug_struct("Station")
            .field("vector", &self.vector)
            .field("clock", &self.clock)
            .field("next_number", &self.next_number)
            .field("beacon_from", &self.beacon_from)
            .finish_non_exhaustive()
    }
}

impl<S: LocationStore> Station<S> {
    /// A station to which nothing happened yet: at a place, with a location table for `capacity`
    /// sources, 1 to 4096, that remembers the last `remember` sequence numbers of each, 1 to 64.
    /// It is mobile. `NoMemory` (S5) is the one refusal.
    pub fn new(
        alloc: Global,
        address: GnAddress,
        place: Place,
        capacity: u16,
        remember: u8,
    ) -> Result<Station<S>, Refused>
        requires capacity { (1 ≤ capacity) × (capacity ≤ 4096) }
        requires remember { (1 ≤ remember) × (remember ≤ 64) }
        ensures represents { IfOk result (λ st.
            RepresentsStation st (new_station address place capacity remember)) }
        ensures memory { IfErr result (λ e. e ≡ Refused.NoMemory) }
    {
        let store = S::empty(alloc, capacity, remember)?;
        let Ok(vector) = LongPv::new(address, 0, place, false, 0, 0) else {
            unreachable!()
        };
        Ok(Station {
            alloc,
            vector,
            clock: 0,
            mobile: true,
            next_number: 0,
            beacon_from: 0,
            ports: Ports::new(),
            store,
        })
    }

    /// The station stands there from now on: its place, whether that is accurate (PAI), its speed
    /// in 0.01 m/s, from -16384 to 16383, and its heading in 0.1 degree. Refused for its moment
    /// alone (S1, S2). It takes no memory.
    pub fn move_to(
        &mut self,
        now: u64,
        place: Place,
        pai: bool,
        speed: i16,
        heading: u16,
    ) -> Result<(), Refused>
        requires { IsSpeed speed }
        ensures step { (s : StationModel) → RepresentsStation self.old s →
            IsStepOf (Says Moved) result self.new
            (station_step s now (Own (Move place pai speed heading))) }
        ensures unchanged { OnErr result (self.new ≡ self.old) }
        ensures memory { result ≢ Err Refused.NoMemory }
    {
        self.check_moment(now)?;
        let timestamp = (now % (1 << 32)) as u32;
        self.set_vector(now, timestamp, place, pai, speed, heading);
        Ok(())
    }

    /// Sets the place to one of another moment than `now`, as a receiver reports it: the moment of
    /// the fix, in milliseconds since 2004-01-01 TAI, modulo 2^32, is the time stamp that packets
    /// carry. Otherwise it does what `move_to` does.
    pub fn move_at(
        &mut self,
        now: u64,
        fix: u32,
        place: Place,
        pai: bool,
        speed: i16,
        heading: u16,
    ) -> Result<(), Refused>
        requires { IsSpeed speed }
        ensures step { (s : StationModel) → RepresentsStation self.old s →
            IsStepOf (Says Moved) result self.new
            (move_at_step s now fix place pai speed heading) }
        ensures unchanged { OnErr result (self.new ≡ self.old) }
        ensures memory { result ≢ Err Refused.NoMemory }
    {
        self.check_moment(now)?;
        self.set_vector(now, fix, place, pai, speed, heading);
        Ok(())
    }

    /// Whether the packets that the station originates say that it is mobile, from now on: the
    /// first of the Common Header's flags (EN 302 636-4-1), 1 for a mobile station and 0 for a
    /// stationary one, as a road-side unit. It is set beside the calls: it has no moment, is never
    /// refused, changes nothing else and takes no memory. What was sent, and what is passed on of
    /// others, keeps its flag; `restart` keeps it too.
    pub fn set_mobile(&mut self, mobile: bool)
        ensures fields { self.new ≡ record self.old { mobile = mobile } }
        ensures represents { (s : StationModel) → RepresentsStation self.old s →
            RepresentsStation self.new (record s { mobile = mobile }) }
    {
        self.mobile = mobile;
    }

    /// The moment of a call is checked first: S1, then S2.
    pub(crate) fn check_moment(&self, now: u64) -> Result<(), Refused>
        ensures refusal { (ports : List ℕ) (history : List Reception) →
            refusal_in result ≡ moment_refusal (model_of self.now ports history) now }
        ensures time { OnOk result ((self.now.clock ≤ now) × (now ≤ 2 ^ 62)) }
        ensures memory { result ≢ Err Refused.NoMemory }
    {
        if now < self.clock {
            return Err(Refused::MomentEarlier);
        }
        if now > LAST_MOMENT {
            return Err(Refused::MomentTooLate);
        }
        Ok(())
    }

    /// The link address of the station.
    pub(crate) fn mac(&self) -> Mac
        ensures { result ≡ mid_of self.now.vector.address }
    {
        self.vector.address().mid()
    }

    pub(crate) fn set_clock(&mut self, now: u64)
        requires from { self.old.clock ≤ now }
        requires to { now ≤ 2 ^ 62 }
        ensures { self.new ≡ record self.old { clock = now } }
    {
        self.clock = now;
    }

    fn set_vector(
        &mut self,
        now: u64,
        timestamp: u32,
        place: Place,
        pai: bool,
        speed: i16,
        heading: u16,
    )
        requires from { self.old.clock ≤ now }
        requires to { now ≤ 2 ^ 62 }
        requires speed { IsSpeed speed }
        ensures { self.new ≡ record self.old {
          clock = now;
          vector = record {
            address = self.old.vector.address;
            timestamp = timestamp;
            place = place;
            accurate = pai;
            speed = speed;
            heading = heading;
          };
        } }
    {
        let address = self.vector.address();
        let Ok(vector) = LongPv::new(address, timestamp, place, pai, speed, heading) else {
            unreachable!()
        };
        self.vector = vector;
        self.clock = now;
    }
}
