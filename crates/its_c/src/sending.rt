//! The calls that send to all in reach: beacons and single-hop broadcasts, written into the
//! caller's buffer.

ghost use Rattle.std.specs.Prelude.{◌≡◌, ◌≢◌, ◌≤◌, ◌+◌, pos, length, IsTrue, nat_le, None};
ghost use Rattle.its_governor.specs.Governing.{is_over_rate};
ghost use Rattle.its_model.specs.Calls as model;
ghost use Rattle.its_model.specs.Station.{first, moment_refusal, own_refusal};
ghost use Rattle.its_station.specs.Beside.{shb_refusal};
ghost use Rattle.its_station.specs.Requests.{shb_request};
ghost use Rattle.its_unit.specs.Unit.{UnitModel};
ghost use Rattle.its_c.specs.Arguments.{shb_asked, shb_options, with_lifetime};
ghost use Rattle.its_c.specs.Held.{IsSame, limits_in, station_in};
ghost use Rattle.its_c.specs.Life.{CallStep};
ghost use Rattle.its_c.specs.Life.HandleCall.{Tick, SendShb, SendShbWith};
ghost use Rattle.its_c.specs.Open.{HoldsUnit};

use crate::handle::Geostation;
use crate::layout::{ShbOptions, ShbRequest};
use crate::status::NO_ROOM;
use crate::told::{told_beacon, told_frame};
use its_gnvalue::{Lifetime, TrafficClass};
use its_linkframe::LONGEST_FRAME;
use its_station::{ShbOptions as StationShbOptions, ShbRequest as StationShbRequest};
use std::alloc::Global;

/// Writes the frame of a beacon, if one is due: 3000 ms after the last packet of the station's own,
/// and `jitter` ms later. Otherwise the length is 0. Refused by `NO_ROOM` for a buffer under 1468
/// octets, for its moment (S1, S2), for a jitter over 750 (S9), and for memory (S5).
#[unsafe(no_mangle)]
pub extern "C" fn geostation_tick(
    alloc: Global,
    s: &mut Geostation,
    now: u64,
    jitter: u16,
    frame: &mut [u8],
    written: &mut usize,
) -> i32
    ensures step { CallStep (Tick now jitter frame.old result written.new frame.new) s.old s.new }
    ensures limits { limits_in s.new ≡ limits_in s.old }
    ensures unchanged { result ≢ pos 0 → IsSame s.old s.new }
    ensures nothing { result ≢ pos 0 → written.new ≡ 0 }
    ensures memory { (u : UnitModel) → HoldsUnit s.old.held.unit u → result ≡ pos 5 →
        (first (moment_refusal u.station now) (own_refusal u.station (model.OwnCall.Tick jitter)) ≡ None)
        × IsTrue (nat_le (u.station.beacon_from + jitter) now) }
{
    *written = 0;
    if frame.len() < LONGEST_FRAME {
        return NO_ROOM;
    }
    let mut unit = s.held.take(alloc);
    let said = unit.tick(now, jitter);
    s.held.put(unit);
    told_beacon(said, frame, written)
}

/// Writes the frame of a single-hop broadcast (SHB), to all stations in reach. Refused by `NO_ROOM`
/// for a buffer under 1468 octets, by `OVER_RATE` if own packets are over their rate, for its moment
/// (S1, S2), for a payload over 1394 octets (S6), and for memory (S5).
#[unsafe(no_mangle)]
pub extern "C" fn geostation_send_shb(
    alloc: Global,
    s: &mut Geostation,
    now: u64,
    request: &ShbRequest,
    payload: &[u8],
    frame: &mut [u8],
    written: &mut usize,
) -> i32
    ensures step { CallStep
        (SendShb now request.now payload.now frame.old result written.new frame.new) s.old s.new }
    ensures over_rate { (u : UnitModel) → HoldsUnit s.old.held.unit u → result ≡ pos 22 →
        IsTrue (is_over_rate u.governor u.station.clock now) }
    ensures limit { (u : UnitModel) → 1468 ≤ length frame.old → HoldsUnit s.old.held.unit u →
        IsTrue (is_over_rate u.governor u.station.clock now) → result ≡ pos 22 }
    ensures unchanged { result ≢ pos 0 → result ≢ pos 22 → IsSame s.old s.new }
    ensures station { result ≢ pos 0 → station_in s.new ≡ station_in s.old }
    ensures nothing { result ≢ pos 0 → written.new ≡ 0 }
    ensures memory { (u : UnitModel) → HoldsUnit s.old.held.unit u → result ≡ pos 5 →
        first (moment_refusal u.station now)
        (own_refusal u.station (model.OwnCall.SendShb (shb_asked request.now payload.now))) ≡ None }
{
    *written = 0;
    if frame.len() < LONGEST_FRAME {
        return NO_ROOM;
    }
    let r = single_hop_request(request, payload);
    let mut unit = s.held.take(alloc);
    let said = unit.send_shb(now, &r);
    s.held.put(unit);
    told_frame(said, frame, written)
}

/// Writes the frame of a single-hop broadcast that lives as long as this octet says, a multiplier
/// of six bits and a base of two. It is refused as one of `geostation_send_shb` is.
#[unsafe(no_mangle)]
pub extern "C" fn geostation_send_shb_with_lifetime(
    alloc: Global,
    s: &mut Geostation,
    now: u64,
    request: &ShbRequest,
    lifetime: u8,
    payload: &[u8],
    frame: &mut [u8],
    written: &mut usize,
) -> i32
    ensures step { CallStep
        (SendShbWith now request.now (with_lifetime lifetime) payload.now frame.old result written.new frame.new)
        s.old s.new }
    ensures over_rate { (u : UnitModel) → HoldsUnit s.old.held.unit u → result ≡ pos 22 →
        IsTrue (is_over_rate u.governor u.station.clock now) }
    ensures limit { (u : UnitModel) → 1468 ≤ length frame.old → HoldsUnit s.old.held.unit u →
        IsTrue (is_over_rate u.governor u.station.clock now) → result ≡ pos 22 }
    ensures unchanged { result ≢ pos 0 → result ≢ pos 22 → IsSame s.old s.new }
    ensures station { result ≢ pos 0 → station_in s.new ≡ station_in s.old }
    ensures nothing { result ≢ pos 0 → written.new ≡ 0 }
    ensures memory { (u : UnitModel) → HoldsUnit s.old.held.unit u → result ≡ pos 5 →
        shb_refusal u.station now (shb_asked request.now payload.now) ≡ None }
{
    let options = ShbOptions {
        lifetime,
        media: [0; 4],
    };
    send_with(alloc, s, now, request, &options, payload, frame, written)
}

/// Writes the frame of a single-hop broadcast with a lifetime and media-dependent data of its own.
/// It is refused as one of `geostation_send_shb` is.
#[unsafe(no_mangle)]
pub extern "C" fn geostation_send_shb_with(
    alloc: Global,
    s: &mut Geostation,
    now: u64,
    request: &ShbRequest,
    options: &ShbOptions,
    payload: &[u8],
    frame: &mut [u8],
    written: &mut usize,
) -> i32
    ensures step { CallStep
        (SendShbWith now request.now options.now payload.now frame.old result written.new frame.new)
        s.old s.new }
    ensures over_rate { (u : UnitModel) → HoldsUnit s.old.held.unit u → result ≡ pos 22 →
        IsTrue (is_over_rate u.governor u.station.clock now) }
    ensures limit { (u : UnitModel) → 1468 ≤ length frame.old → HoldsUnit s.old.held.unit u →
        IsTrue (is_over_rate u.governor u.station.clock now) → result ≡ pos 22 }
    ensures unchanged { result ≢ pos 0 → result ≢ pos 22 → IsSame s.old s.new }
    ensures station { result ≢ pos 0 → station_in s.new ≡ station_in s.old }
    ensures nothing { result ≢ pos 0 → written.new ≡ 0 }
    ensures memory { (u : UnitModel) → HoldsUnit s.old.held.unit u → result ≡ pos 5 →
        shb_refusal u.station now (shb_asked request.now payload.now) ≡ None }
{
    send_with(alloc, s, now, request, options, payload, frame, written)
}

/// What both calls with options do: inlined, so that their arguments aren't passed a second time.
#[inline(always)]
fn send_with(
    alloc: Global,
    s: &mut Geostation,
    now: u64,
    request: &ShbRequest,
    options: &ShbOptions,
    payload: &[u8],
    frame: &mut [u8],
    written: &mut usize,
) -> i32
    ensures step { CallStep
        (SendShbWith now request.now options.now payload.now frame.old result written.new frame.new)
        s.old s.new }
    ensures over_rate { (u : UnitModel) → HoldsUnit s.old.held.unit u → result ≡ pos 22 →
        IsTrue (is_over_rate u.governor u.station.clock now) }
    ensures limit { (u : UnitModel) → 1468 ≤ length frame.old → HoldsUnit s.old.held.unit u →
        IsTrue (is_over_rate u.governor u.station.clock now) → result ≡ pos 22 }
    ensures unchanged { result ≢ pos 0 → result ≢ pos 22 → IsSame s.old s.new }
    ensures station { result ≢ pos 0 → station_in s.new ≡ station_in s.old }
    ensures nothing { result ≢ pos 0 → written.new ≡ 0 }
    ensures memory { (u : UnitModel) → HoldsUnit s.old.held.unit u → result ≡ pos 5 →
        shb_refusal u.station now (shb_asked request.now payload.now) ≡ None }
{
    *written = 0;
    if frame.len() < LONGEST_FRAME {
        return NO_ROOM;
    }
    let r = single_hop_request(request, payload);
    let options = single_hop_options(options);
    let mut unit = s.held.take(alloc);
    let said = unit.send_shb_for(now, &r, options);
    s.held.put(unit);
    told_frame(said, frame, written)
}

/// What its broadcast has besides.
fn single_hop_options(options: &ShbOptions) -> StationShbOptions
    ensures { result ≡ shb_options options.now }
{
    StationShbOptions {
        lifetime: Lifetime::from_octet(options.lifetime),
        media: options.media,
    }
}

/// What the station is asked for.
fn single_hop_request<'a>(request: &ShbRequest, payload: &'a [u8]) -> StationShbRequest<'a>
    ensures { shb_request result ≡ shb_asked request.now payload.now }
{
    StationShbRequest {
        port: request.port,
        info: request.info,
        class: TrafficClass::from_octet(request.traffic_class),
        payload,
    }
}
