//! What a station knows: of itself, of when its next beacon is due, and of others.

ghost use Rattle.std.specs.Prelude.{◌≡◌, ◌≤◌, ◌<◌, ◌+◌, ◌-◌, ◌^◌, ◌⊎◌, ℕ, None};
ghost use Rattle.its_model.specs.Calls.{Own};
ghost use Rattle.its_model.specs.Calls.Answer.{Sent, Quiet, Refused as IsRefused};
ghost use Rattle.its_model.specs.Calls.OwnCall.{Tick};
ghost use Rattle.its_model.specs.Calls.Refusal.{MomentEarlier};
ghost use Rattle.its_model.specs.History.{is_among};
ghost use Rattle.its_model.specs.Station.{StationModel, station_step, beacon_of};
ghost use Rattle.its_station.specs.State.{RepresentsStation};

use crate::neighbours::Neighbours;
use crate::sending::MAX_JITTER;
use crate::station::Station;
use its_gnvalue::{GnAddress, LongPv};
use its_loctable::LocationStore;

impl<S: LocationStore> Station<S> {
    /// The station's address, which never changes.
    pub fn address(&self) -> GnAddress
        ensures { result ≡ self.now.vector.address }
    {
        self.vector.address()
    }

    /// The position vector that the station's packets carry: its address, and what was last handed
    /// to `move_to`, with the moment of that call as its time stamp, or to `move_at`.
    pub fn vector(&self) -> LongPv
        ensures { result ≡ self.now.vector }
    {
        self.vector
    }

    /// Whether the station's packets say that it is mobile. A new station's do.
    pub fn is_mobile(&self) -> bool
        ensures { result ≡ self.now.mobile }
    {
        self.mobile
    }

    /// The moment of the last call that wasn't refused, in milliseconds. No call may be earlier.
    pub fn clock(&self) -> u64
        ensures { result ≡ self.now.clock }
    {
        self.clock
    }

    /// The sequence number of the station's next packet for an area.
    pub fn next_number(&self) -> u16
        ensures { result ≡ self.now.next_number }
    {
        self.next_number
    }

    /// Whether payloads for a port are delivered.
    pub fn is_open(&self, port: u16) -> bool
        ensures { result ≡ is_among port self.now.ports }
    {
        self.ports.is_open(port)
    }

    /// The open ports, each once, in the order in which they were opened.
    pub fn open_ports(&self) -> &[u16]
        ensures { result.now ≡ self.now.ports }
    {
        self.ports.as_slice()
    }

    /// From when on the station lets a beacon go, in milliseconds: 3000 ms after the last packet of
    /// its own, or the moment of its restart. A `tick` gives one where its jitter has passed since.
    /// It may lie before the clock: `next_beacon` doesn't.
    pub fn beacon_from(&self) -> u64
        ensures value { result ≡ self.now.beacon_from }
        ensures bound { result ≤ 2 ^ 62 + 3000 }
    {
        self.beacon_from
    }

    /// The least moment at which `tick` with this jitter gives a beacon, in milliseconds; the
    /// greatest number for a jitter over 750, with which none comes. A program draws a jitter once
    /// for each beacon and sleeps until this moment. It asks again after a packet of the station's
    /// own and after a restart, and not after a frame that came: the answer is never before the
    /// clock, which each call sets.
    pub fn beacon_at(&self, jitter: u16) -> u64
        ensures due { (s : StationModel) (now : ℕ) → RepresentsStation self.now s → jitter ≤ 750 →
            result ≤ now → now ≤ 2 ^ 62 →
            (station_step s now (Own (Tick jitter))).answer ≡ Sent (beacon_of s) }
        ensures early { (s : StationModel) (now : ℕ) → RepresentsStation self.now s →
            jitter ≤ 750 → now < result → now ≤ 2 ^ 62 →
            ((station_step s now (Own (Tick jitter))).answer ≡ Quiet)
            ⊎ ((station_step s now (Own (Tick jitter))).answer ≡ IsRefused MomentEarlier) }
        ensures never { 750 < jitter → result ≡ 2 ^ 64 - 1 }
    {
        if jitter > MAX_JITTER {
            return u64::MAX;
        }
        (self.beacon_from + u64::from(jitter)).max(self.clock)
    }

    /// The least moment at which `tick` with no jitter gives a beacon, in milliseconds: `beacon_at`
    /// of none. Once the beacon is due it moves on with each call, so that a program whose beacons
    /// have a jitter asks `beacon_at` in place of adding it here.
    pub fn next_beacon(&self) -> u64
        ensures due { (s : StationModel) (now : ℕ) → RepresentsStation self.now s →
            result ≤ now → now ≤ 2 ^ 62 →
            (station_step s now (Own (Tick 0))).answer ≡ Sent (beacon_of s) }
        ensures early { (s : StationModel) (now : ℕ) → RepresentsStation self.now s →
            now < result → now ≤ 2 ^ 62 →
            ((station_step s now (Own (Tick 0))).answer ≡ Quiet)
            ⊎ ((station_step s now (Own (Tick 0))).answer ≡ IsRefused MomentEarlier) }
    {
        self.beacon_from.max(self.clock)
    }

    /// The station's location table, for look-ups in it.
    pub fn table(&self) -> &S
        ensures content { S.content result.now ≡ self.now.content }
        ensures capacity { S.limit result.now ≡ self.now.capacity }
        ensures remember { S.remember result.now ≡ self.now.remember }
    {
        &self.store
    }

    /// The position vectors of the stations heard directly that are live at a moment, at most 2^62
    /// ms, in ascending order of their addresses.
    pub fn neighbours(&self, now: u64) -> Neighbours<'_, S>
        requires { now ≤ 2 ^ 62 }
        ensures table { S.content result.table.now ≡ self.now.content }
        ensures remember { S.remember result.table.now ≡ self.now.remember }
        ensures moment { result.moment ≡ now }
        ensures start { result.after ≡ None }
    {
        Neighbours::new(&self.store, now)
    }
}
