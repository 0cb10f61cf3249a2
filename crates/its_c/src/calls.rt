//! The calls that tell C nothing but their status.

ghost use Rattle.std.specs.Prelude.{◌≡◌, ◌≢◌, pos};
ghost use Rattle.its_c.specs.Held.{IsSame, limits_in};
ghost use Rattle.its_c.specs.Life.{CallStep};
ghost use Rattle.its_c.specs.Life.HandleCall.{Move, MoveAt, OpenPort, ClosePort, Restart};

use crate::handle::Geostation;
use crate::status::BAD_ARGUMENT;
use crate::told::told;
use its_gnvalue::Place;
use std::alloc::Global;

/// The station stands at these coordinates from now on, in 0.1 microdegree: whether that is
/// accurate, its speed in 0.01 m/s, from -16384 to 16383, and its heading in 0.1 degree. Refused
/// for its moment (S1, S2), and by `BAD_ARGUMENT` for coordinates or a speed out of range.
#[unsafe(no_mangle)]
pub extern "C" fn geostation_move(
    alloc: Global,
    s: &mut Geostation,
    now: u64,
    latitude: i32,
    longitude: i32,
    accurate: u8,
    speed: i16,
    heading: u16,
) -> i32
    ensures step { CallStep (Move now latitude longitude accurate speed heading result)
        s.old s.new }
    ensures limits { limits_in s.new ≡ limits_in s.old }
    ensures unchanged { result ≢ pos 0 → IsSame s.old s.new }
    ensures memory { result ≢ pos 5 }
{
    if speed < -16384 || speed > 16383 {
        return BAD_ARGUMENT;
    }
    let Ok(place) = Place::new(latitude, longitude) else {
        return BAD_ARGUMENT;
    };
    let mut unit = s.held.take(alloc);
    let said = unit.move_to(now, place, accurate != 0, speed, heading);
    s.held.put(unit);
    told(said)
}

/// Sets the place to one of another moment than `now`, with its own time stamp: milliseconds since
/// 2004-01-01 TAI, modulo 2^32. Otherwise it does what `geostation_move` does.
#[unsafe(no_mangle)]
pub extern "C" fn geostation_move_at(
    alloc: Global,
    s: &mut Geostation,
    now: u64,
    timestamp: u32,
    latitude: i32,
    longitude: i32,
    accurate: u8,
    speed: i16,
    heading: u16,
) -> i32
    ensures step { CallStep (MoveAt now timestamp latitude longitude accurate speed heading result)
        s.old s.new }
    ensures limits { limits_in s.new ≡ limits_in s.old }
    ensures unchanged { result ≢ pos 0 → IsSame s.old s.new }
    ensures memory { result ≢ pos 5 }
{
    if speed < -16384 || speed > 16383 {
        return BAD_ARGUMENT;
    }
    let Ok(place) = Place::new(latitude, longitude) else {
        return BAD_ARGUMENT;
    };
    let mut unit = s.held.take(alloc);
    let said = unit.move_at(now, timestamp, place, accurate != 0, speed, heading);
    s.held.put(unit);
    told(said)
}

/// Opens a port. Refused for its moment (S1, S2), and by S8 where the port is open already or 64
/// are.
#[unsafe(no_mangle)]
pub extern "C" fn geostation_open_port(
    alloc: Global,
    s: &mut Geostation,
    now: u64,
    port: u16,
) -> i32
    ensures step { CallStep (OpenPort now port result) s.old s.new }
    ensures limits { limits_in s.new ≡ limits_in s.old }
    ensures unchanged { result ≢ pos 0 → IsSame s.old s.new }
    ensures memory { result ≢ pos 5 }
{
    let mut unit = s.held.take(alloc);
    let said = unit.open(now, port);
    s.held.put(unit);
    told(said)
}

/// Closes a port. Refused for its moment (S1, S2), and by S8 where the port isn't open.
#[unsafe(no_mangle)]
pub extern "C" fn geostation_close_port(
    alloc: Global,
    s: &mut Geostation,
    now: u64,
    port: u16,
) -> i32
    ensures step { CallStep (ClosePort now port result) s.old s.new }
    ensures limits { limits_in s.new ≡ limits_in s.old }
    ensures unchanged { result ≢ pos 0 → IsSame s.old s.new }
    ensures memory { result ≢ pos 5 }
{
    let mut unit = s.held.take(alloc);
    let said = unit.close(now, port);
    s.held.put(unit);
    told(said)
}

/// The station forgets all that it heard and closes its ports, and gives its next packet for an
/// area this sequence number. Refused for its moment alone (S1, S2).
#[unsafe(no_mangle)]
pub extern "C" fn geostation_restart(
    alloc: Global,
    s: &mut Geostation,
    now: u64,
    number: u16,
) -> i32
    ensures step { CallStep (Restart now number result) s.old s.new }
    ensures limits { limits_in s.new ≡ limits_in s.old }
    ensures unchanged { result ≢ pos 0 → IsSame s.old s.new }
    ensures memory { result ≢ pos 5 }
{
    let mut unit = s.held.take(alloc);
    let said = unit.restart(now, number);
    s.held.put(unit);
    told(said)
}
