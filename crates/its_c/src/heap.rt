//! Handles on the heap: how one is made, and how its memory is given back.

ghost use Rattle.std.specs.Borrow.{sem};
ghost use Rattle.std.specs.Prelude.{◌≡◌, ◌≢◌, ◌⊎◌, pos, IfSome, IsSomeAnd, None};
ghost use Rattle.its_c.specs.Arguments.{AreForNew, place_of};
ghost use Rattle.its_c.specs.Configs.{IsForNew, HasContention, HasSizes, HasLimits, station_for};
ghost use Rattle.its_c.specs.Configs.{limits_of, rule_of, station_at, usual_config};
ghost use Rattle.its_c.specs.Handles.{handle_owns};
ghost use Rattle.its_c.specs.Life.{HoldsNew};
ghost use Rattle.std.specs.Option.{option_map};
ghost use Rattle.its_contention.specs.Buffer.{empty};
ghost use Rattle.its_governor.specs.Governing.{IsNewGovernor};
ghost use Rattle.its_model.specs.Station.{new_station};
ghost use Rattle.its_station.specs.Counting.{nothing};
ghost use Rattle.its_c.specs.declared.handle.Geostation.{Geostation as Handle};

use crate::config::{has_contention, has_limits, has_sizes, limits_of, rule_of, station_at};
use crate::handle::Geostation;
use crate::handle_out::HandleOut;
use crate::layout::Config;
use crate::raw_box::RawBox;
use crate::status::{BAD_ARGUMENT, NO_MEMORY, OK};
use crate::unit_ptr::UnitPtr;
use its_gnvalue::{GnAddress, Place};
use its_loctable::SortedTable;
use its_station::Station;
use its_unit::Unit;
use its_unit::laws::units_are_lawful;
use std::alloc::Global;
use std::ptr::null_mut;

/// Makes a station to which nothing happened yet, and writes the pointer to its handle: of this
/// address, at these coordinates in 0.1 microdegree, with a location table for `capacity` sources,
/// 1 to 4096, that remembers the last `remember` sequence numbers of each, 1 to 64. Its limits are
/// those that `geostation_config_init` writes. Where the status isn't 0 there is no handle, and the
/// pointer is null: `BAD_ARGUMENT` for an argument out of its range, and `NO_MEMORY`.
#[unsafe(no_mangle)]
pub extern "C" fn geostation_new(
    alloc: Global,
    out: &mut HandleOut,
    address: u64,
    latitude: i32,
    longitude: i32,
    capacity: u16,
    remember: u8,
) -> i32
    ensures new { result ≡ pos 0 → IsSomeAnd out.new.handle (λ h. HoldsNew h
        (new_station address (place_of latitude longitude) capacity remember) None
        (limits_of usual_config)) }
    ensures none { result ≢ pos 0 → out.new.handle ≡ None }
    ensures only { (result ≡ pos 0) ⊎ (result ≡ pos 5) ⊎ (result ≡ pos 20) }
    ensures refused { result ≡ pos 20 →
        AreForNew address latitude longitude capacity remember → ⊥ }
    ensures taken { result ≢ pos 20 → AreForNew address latitude longitude capacity remember }
{
    let config = Config {
        address,
        latitude,
        longitude,
        capacity,
        remember: u16::from(remember),
        ..Config::USUAL
    };
    geostation_new_from_config(alloc, out, &config)
}

/// Makes a station as `geostation_new` does, from a struct that also has whether the station is
/// mobile, the sequence number of its first packet for an area, its limits, and how it forwards inside an
/// area. `BAD_ARGUMENT` too for a struct of another size, and for rates with which a source would be forgotten before its
/// bucket is full (`Limits::remembers_sources`).
#[unsafe(no_mangle)]
pub extern "C" fn geostation_new_from_config(
    alloc: Global,
    out: &mut HandleOut,
    config: &Config,
) -> i32
    ensures new { result ≡ pos 0 → IsSomeAnd out.new.handle (λ h. HoldsNew h
        (station_for config.now) (rule_of config.now) (limits_of config.now)) }
    ensures none { result ≢ pos 0 → out.new.handle ≡ None }
    ensures only { (result ≡ pos 0) ⊎ (result ≡ pos 5) ⊎ (result ≡ pos 20) }
    ensures refused { result ≡ pos 20 → IsForNew config.now → ⊥ }
    ensures taken { result ≢ pos 20 → IsForNew config.now }
{
    let at: *mut Geostation = null_mut();
    *out = HandleOut::none(at, alloc);
    if !has_sizes(config) {
        return BAD_ARGUMENT;
    }
    if !has_limits(config) || !limits_of(config).remembers_sources() {
        return BAD_ARGUMENT;
    }
    if !has_contention(config) {
        return BAD_ARGUMENT;
    }
    let Ok(address) = GnAddress::from_u64(config.address) else {
        return BAD_ARGUMENT;
    };
    let Ok(place) = Place::new(config.latitude, config.longitude) else {
        return BAD_ARGUMENT;
    };
    let Some(handle) = make(alloc, address, place, config) else {
        return NO_MEMORY;
    };
    *out = HandleOut::of(RawBox::of(handle));
    OK
}

/// The handle of a new unit on the heap, or none where an allocation failed.
fn make(alloc: Global, address: GnAddress, place: Place, config: &Config) -> Option<Box<Geostation>>
    requires sizes { HasSizes config.now }
    requires limits { HasLimits config.now }
    requires contention { HasContention config.now }
    ensures unit { IfSome result (λ h. HoldsNew h.value
        (station_at address place config.now) (rule_of config.now) (limits_of config.now)) }
{
    // The laws of a unit, for the proof alone.
    units_are_lawful();
    let station = station_at(alloc, address, place, config)?;
    let unit = new_unit(alloc, station, config)?;
    let unit = Box::new(alloc, unit).ok()?;
    let handle = Geostation::new(UnitPtr::new(unit));
    match Box::new(alloc, handle) {
        Ok(handle) => Some(handle),
        Err(failed) => {
            let Geostation { mut held, .. } = failed.value;
            drop(held.take(alloc));
            None
        }
    }
}

/// A new unit with this station, or none if an allocation failed.
fn new_unit(
    alloc: Global,
    station: Station<SortedTable>,
    config: &Config,
) -> Option<Unit<SortedTable>>
    requires limits { HasLimits config.now }
    requires contention { HasContention config.now }
    ensures station { IfSome result (λ u. u.station ≡ station) }
    ensures limits { IfSome result (λ u. IsNewGovernor (limits_of config.now) u.governor) }
    ensures contention { IfSome result (λ u.
        u.contention ≡ option_map empty (rule_of config.now)) }
    ensures counts { IfSome result (λ u. u.counts ≡ nothing) }
{
    let limits = limits_of(config);
    match rule_of(config) {
        Some(rule) => Unit::contending(alloc, station, &limits, rule).ok(),
        None => Unit::new(alloc, station, &limits).ok(),
    }
}

/// Gives the memory of a handle back, and that of its unit.
#[unsafe(no_mangle)]
pub unsafe extern "C" fn geostation_dispose(alloc: Global, s: *mut Geostation)
    ghost handle: { Handle }
    requires* { sem 𝓛 (handle_owns alloc s handle) }
{
    release(RawBox { at: s, alloc })
}

fn release(raw_box: RawBox<Geostation, Global>) {
    let handle = raw_box.into_box();
    let alloc = *Box::allocator(&handle);
    let Geostation { mut held, .. } = Box::into_inner(handle);
    drop(held.take(alloc));
}
