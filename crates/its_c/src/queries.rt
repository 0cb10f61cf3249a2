//! The calls that look at a station: when its next beacon is due, and what it heard of others.

ghost use Rattle.std.specs.Prelude.{◌≡◌, ◌≤◌, ◌<◌, ◌+◌, ◌-◌, ◌^◌, ◌⊎◌, ◌↔◌, ℕ, None, IfSome};
ghost use Rattle.std.specs.Prelude.{IsTrue};
ghost use Rattle.its_gnvalue.specs.Values.{IsGroup, IsIndividual};
ghost use Rattle.its_model.specs.Calls.{Own};
ghost use Rattle.its_model.specs.Calls.Answer.{Sent, Quiet, Refused as IsRefused};
ghost use Rattle.its_model.specs.Calls.OwnCall.{Tick};
ghost use Rattle.its_model.specs.Calls.Refusal.{MomentEarlier};
ghost use Rattle.its_model.specs.Station.{StationModel, station_step, beacon_of};
ghost use Rattle.its_station.specs.State.{RepresentsStation};
ghost use Rattle.its_c.specs.Lookups.{IsMoment, neighbour_above, source_at, shown_vector};
ghost use Rattle.its_c.specs.Lookups.{no_vector, TellsFound};
ghost use Rattle.its_unit.specs.Unit.{UnitModel};
ghost use Rattle.its_c.specs.Life.{CallStep};
ghost use Rattle.its_c.specs.Life.HandleCall.{Read};
ghost use Rattle.its_c.specs.Open.{HoldsUnit};
ghost use Rattle.its_c.specs.Told.{shown_next_due};
ghost use Rattle.its_unit.specs.Releases.{due_in};

use crate::handle::Geostation;
use crate::layout::Vector;
use its_gnvalue::{GnAddress, LongPv};
use its_loctable::{LocationStore, SortedTable};
use its_station::{LAST_MOMENT, Station};
use std::alloc::Global;

/// The bit of an address that says whether its MID is a group.
const GROUP_BIT: u64 = 1 << 40;

/// The least moment at which `geostation_tick` with this jitter gives a beacon, in milliseconds;
/// the greatest number for a jitter over 750. A program draws a jitter once for each beacon and
/// sleeps until this moment; it asks again after a packet of the station's own and after a restart.
#[unsafe(no_mangle)]
pub extern "C" fn geostation_beacon_at(alloc: Global, s: &mut Geostation, jitter: u16) -> u64
    ensures due { (u : UnitModel) (now : ℕ) → HoldsUnit s.old.held.unit u →
        jitter ≤ 750 → result ≤ now → now ≤ 2 ^ 62 →
        (station_step u.station now (Own (Tick jitter))).answer ≡ Sent (beacon_of u.station) }
    ensures early { (u : UnitModel) (now : ℕ) → HoldsUnit s.old.held.unit u →
        jitter ≤ 750 → now < result → now ≤ 2 ^ 62 →
        ((station_step u.station now (Own (Tick jitter))).answer ≡ Quiet)
        ⊎ ((station_step u.station now (Own (Tick jitter))).answer ≡ IsRefused MomentEarlier) }
    ensures never { 750 < jitter → result ≡ 2 ^ 64 - 1 }
    ensures unchanged { CallStep Read s.old s.new }
{
    let unit = s.held.take(alloc);
    let due = unit.station().beacon_at(jitter);
    s.held.put(unit);
    due
}

/// The least moment at which a held frame is due, in milliseconds; the greatest number if none is held.
#[unsafe(no_mangle)]
pub extern "C" fn geostation_next_due(alloc: Global, s: &mut Geostation) -> u64
    ensures due { (u : UnitModel) → HoldsUnit s.old.held.unit u →
        result ≡ shown_next_due (due_in u.contention) }
    ensures unchanged { CallStep Read s.old s.new }
{
    let unit = s.held.take(alloc);
    let due = shown_next_due(unit.next_due());
    s.held.put(unit);
    due
}

/// The time, or the greatest number.
fn shown_next_due(due: Option<u64>) -> u64
    ensures { result ≡ shown_next_due due }
{
    match due {
        Some(due) => due,
        None => u64::MAX,
    }
}

/// The sequence number of the station's next packet for an area.
#[unsafe(no_mangle)]
pub extern "C" fn geostation_next_number(alloc: Global, s: &mut Geostation) -> u16
    ensures number { (u : UnitModel) → HoldsUnit s.old.held.unit u →
        result ≡ u.station.next_number }
    ensures unchanged { CallStep Read s.old s.new }
{
    let unit = s.held.take(alloc);
    let number = unit.station().next_number();
    s.held.put(unit);
    number
}

/// The least moment at which `geostation_tick` with no jitter gives a beacon, in milliseconds. It
/// moves on with each call once the beacon is due: with a jitter a program asks
/// `geostation_beacon_at`.
#[unsafe(no_mangle)]
pub extern "C" fn geostation_next_beacon(alloc: Global, s: &mut Geostation) -> u64
    ensures due { (u : UnitModel) (now : ℕ) → HoldsUnit s.old.held.unit u →
        result ≤ now → now ≤ 2 ^ 62 →
        (station_step u.station now (Own (Tick 0))).answer ≡ Sent (beacon_of u.station) }
    ensures early { (u : UnitModel) (now : ℕ) → HoldsUnit s.old.held.unit u →
        now < result → now ≤ 2 ^ 62 →
        ((station_step u.station now (Own (Tick 0))).answer ≡ Quiet)
        ⊎ ((station_step u.station now (Own (Tick 0))).answer ≡ IsRefused MomentEarlier) }
    ensures unchanged { CallStep Read s.old s.new }
{
    let unit = s.held.take(alloc);
    let due = unit.station().next_beacon();
    s.held.put(unit);
    due
}

/// Writes the position vector of the live neighbour of least address above `after`, and returns 1;
/// 0 if no neighbour is left, and at a moment before the station's last call or over 2^62. A
/// neighbour is a station that was heard directly.
#[unsafe(no_mangle)]
pub extern "C" fn geostation_neighbour(
    alloc: Global,
    s: &mut Geostation,
    now: u64,
    after: u64,
    vector: &mut Vector,
) -> i32
    ensures found { (u : UnitModel) → HoldsUnit s.old.held.unit u → IsMoment u.station now →
        TellsFound (neighbour_above u.station now after) result vector.new }
    ensures none { (u : UnitModel) → HoldsUnit s.old.held.unit u → ¬ IsMoment u.station now →
        TellsFound None result vector.new }
    ensures unchanged { CallStep Read s.old s.new }
{
    let unit = s.held.take(alloc);
    let found = tell_neighbour(unit.station(), now, after, vector);
    s.held.put(unit);
    found
}

/// Writes the newest position vector of the live source of an address, and returns 1; 0 if the
/// source isn't known, and at a moment before the station's last call or over 2^62.
#[unsafe(no_mangle)]
pub extern "C" fn geostation_look_up(
    alloc: Global,
    s: &mut Geostation,
    now: u64,
    address: u64,
    vector: &mut Vector,
) -> i32
    ensures found { (u : UnitModel) → HoldsUnit s.old.held.unit u → IsMoment u.station now →
        IsIndividual address → TellsFound (source_at u.station now address) result vector.new }
    ensures none { (u : UnitModel) → HoldsUnit s.old.held.unit u → ¬ IsMoment u.station now →
        TellsFound None result vector.new }
    ensures group { IsGroup address → TellsFound None result vector.new }
    ensures unchanged { CallStep Read s.old s.new }
{
    let unit = s.held.take(alloc);
    let found = tell_source(unit.station(), now, address, vector);
    s.held.put(unit);
    found
}

/// Writes the neighbour of least address above a number.
fn tell_neighbour(station: &Station<SortedTable>, now: u64, after: u64, vector: &mut Vector) -> i32
    ensures found { (m : StationModel) → RepresentsStation station.now m → IsMoment m now →
        TellsFound (neighbour_above m now after) result vector.new }
    ensures none { (m : StationModel) → RepresentsStation station.now m → ¬ IsMoment m now →
        TellsFound None result vector.new }
{
    if !is_moment(station, now) {
        return tell_found(None, vector);
    }
    let after = greatest_to(after);
    let found = station.table().next_neighbour(now, Some(after));
    tell_found(found, vector)
}

/// Writes the source of an address, where the number is one.
fn tell_source(station: &Station<SortedTable>, now: u64, address: u64, vector: &mut Vector) -> i32
    ensures found { (m : StationModel) → RepresentsStation station.now m → IsMoment m now →
        IsIndividual address → TellsFound (source_at m now address) result vector.new }
    ensures none { (m : StationModel) → RepresentsStation station.now m → ¬ IsMoment m now →
        TellsFound None result vector.new }
    ensures group { IsGroup address → TellsFound None result vector.new }
{
    let Ok(address) = GnAddress::from_u64(address) else {
        return tell_found(None, vector);
    };
    if !is_moment(station, now) {
        return tell_found(None, vector);
    }
    let known = station.table().lookup(now, address);
    tell_found(known.map(|known| known.vector), vector)
}

/// Whether look-ups are answered at a moment.
fn is_moment(station: &Station<SortedTable>, now: u64) -> bool
    ensures range { IsTrue result → now ≤ 2 ^ 62 }
    ensures moment { (m : StationModel) → RepresentsStation station.now m →
        IsTrue result ↔ IsMoment m now }
{
    station.clock() <= now && now <= LAST_MOMENT
}

/// The greatest address that isn't above a number: between the two there is no other.
fn greatest_to(number: u64) -> GnAddress
    ensures least { result ≤ number }
    ensures above { (address : ℕ) → IsIndividual address → result < address → number < address }
{
    match GnAddress::from_u64(number) {
        Ok(address) => address,
        Err(_) => GnAddress::within(number / GROUP_BIT * GROUP_BIT - 1),
    }
}

/// Writes what is found, and returns whether anything is.
fn tell_found(found: Option<LongPv>, vector: &mut Vector) -> i32
    ensures told { TellsFound found result vector.new }
    ensures individual { IfSome found (λ v. IsIndividual v.address) }
{
    match found {
        Some(found) => {
            *vector = shown_vector(found);
            1
        }
        None => {
            *vector = Vector::NOTHING;
            0
        }
    }
}

/// A position vector in C's struct.
pub(crate) fn shown_vector(v: LongPv) -> Vector
    ensures fields { result ≡ shown_vector v }
    ensures individual { IsIndividual v.address }
{
    Vector {
        address: v.address().as_u64(),
        timestamp: v.tst(),
        latitude: v.place().lat(),
        longitude: v.place().lon(),
        speed: v.speed(),
        heading: v.heading(),
        accurate: u8::from(v.pai()),
    }
}
