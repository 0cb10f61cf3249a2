//! The calls that send to an area: geobroadcasts and geoanycasts, written into the caller's buffer.

ghost use Rattle.std.specs.Prelude.{◌≡◌, ◌≢◌, ◌≤◌, pos, length};
ghost use Rattle.std.specs.Prelude.{None, Some, IfSome, IsTrue};
ghost use Rattle.its_governor.specs.Governing.{is_over_rate};
ghost use Rattle.its_geometry.specs.Area.{GeoArea};
ghost use Rattle.its_model.specs.Calls.{area_call};
ghost use Rattle.its_model.specs.Calls.OwnCall.{SendGbc, SendGac};
ghost use Rattle.its_model.specs.Station.{first, moment_refusal, own_refusal};
ghost use Rattle.its_station.specs.Requests.{gbc_request, kind_of_cast};
ghost use Rattle.its_unit.specs.Unit.{UnitModel};
ghost use Rattle.its_c.specs.Arguments.{IsAreaOf, gbc_asked};
ghost use Rattle.its_c.specs.Held.{IsSame, station_in};
ghost use Rattle.its_c.specs.Life.{CallStep};
ghost use Rattle.its_c.specs.Life.HandleCall.{SendToArea};
ghost use Rattle.its_c.specs.Open.{HoldsUnit};

use crate::handle::Geostation;
use crate::layout::AreaRequest;
use crate::status::{BAD_ARGUMENT, NO_ROOM};
use crate::told::told_frame;
use its_geometry::Area;
use its_gnvalue::{Lifetime, Place, TrafficClass};
use its_linkframe::LONGEST_FRAME;
use its_station::{AreaCast, GbcRequest};
use std::alloc::Global;

/// Writes the frame of a geobroadcast (GBC), to all stations in an area, with the station's next
/// sequence number. Refused by `NO_ROOM` for a buffer under 1468 octets, by `BAD_ARGUMENT` for a
/// request that has no area, by `OVER_RATE` if own packets are over their rate, for its moment (S1,
/// S2), for a payload over 1394 octets (S6), for no hop (S7), and for memory (S5).
#[unsafe(no_mangle)]
pub extern "C" fn geostation_send_gbc(
    alloc: Global,
    s: &mut Geostation,
    now: u64,
    request: &AreaRequest,
    payload: &[u8],
    frame: &mut [u8],
    written: &mut usize,
) -> i32
    ensures step { CallStep (SendToArea now AreaCast.Geobroadcast request.now payload.now frame.old
        result written.new frame.new) s.old s.new }
    ensures over_rate { (u : UnitModel) → HoldsUnit s.old.held.unit u → result ≡ pos 22 →
        IsTrue (is_over_rate u.governor u.station.clock now) }
    ensures limit { (u : UnitModel) → 1468 ≤ length frame.old → HoldsUnit s.old.held.unit u →
        result ≢ pos 20 → IsTrue (is_over_rate u.governor u.station.clock now) → result ≡ pos 22 }
    ensures unchanged { result ≢ pos 0 → result ≢ pos 22 → IsSame s.old s.new }
    ensures station { result ≢ pos 0 → station_in s.new ≡ station_in s.old }
    ensures nothing { result ≢ pos 0 → written.new ≡ 0 }
    ensures memory { (u : UnitModel) → HoldsUnit s.old.held.unit u → result ≡ pos 5 →
        (area : GeoArea) × IsAreaOf request.now area ×
        (first (moment_refusal u.station now)
        (own_refusal u.station (SendGbc (gbc_asked request.now area payload.now))) ≡ None) }
{
    send_to_area(
        alloc,
        s,
        now,
        AreaCast::Geobroadcast,
        request,
        payload,
        frame,
        written,
    )
}

/// Writes the frame of a geoanycast (GAC), to any one station in an area, with the station's next
/// sequence number. It is refused as a geobroadcast is.
#[unsafe(no_mangle)]
pub extern "C" fn geostation_send_gac(
    alloc: Global,
    s: &mut Geostation,
    now: u64,
    request: &AreaRequest,
    payload: &[u8],
    frame: &mut [u8],
    written: &mut usize,
) -> i32
    ensures step { CallStep (SendToArea now AreaCast.Geoanycast request.now payload.now frame.old
        result written.new frame.new) s.old s.new }
    ensures over_rate { (u : UnitModel) → HoldsUnit s.old.held.unit u → result ≡ pos 22 →
        IsTrue (is_over_rate u.governor u.station.clock now) }
    ensures limit { (u : UnitModel) → 1468 ≤ length frame.old → HoldsUnit s.old.held.unit u →
        result ≢ pos 20 → IsTrue (is_over_rate u.governor u.station.clock now) → result ≡ pos 22 }
    ensures unchanged { result ≢ pos 0 → result ≢ pos 22 → IsSame s.old s.new }
    ensures station { result ≢ pos 0 → station_in s.new ≡ station_in s.old }
    ensures nothing { result ≢ pos 0 → written.new ≡ 0 }
    ensures memory { (u : UnitModel) → HoldsUnit s.old.held.unit u → result ≡ pos 5 →
        (area : GeoArea) × IsAreaOf request.now area ×
        (first (moment_refusal u.station now)
        (own_refusal u.station (SendGac (gbc_asked request.now area payload.now))) ≡ None) }
{
    send_to_area(
        alloc,
        s,
        now,
        AreaCast::Geoanycast,
        request,
        payload,
        frame,
        written,
    )
}

/// What both calls for an area do: inlined, so that their arguments aren't passed a second time.
#[inline(always)]
fn send_to_area(
    alloc: Global,
    s: &mut Geostation,
    now: u64,
    cast: AreaCast,
    request: &AreaRequest,
    payload: &[u8],
    frame: &mut [u8],
    written: &mut usize,
) -> i32
    ensures step { CallStep
        (SendToArea now cast request.now payload.now frame.old result written.new frame.new)
        s.old s.new }
    ensures over_rate { (u : UnitModel) → HoldsUnit s.old.held.unit u → result ≡ pos 22 →
        IsTrue (is_over_rate u.governor u.station.clock now) }
    ensures limit { (u : UnitModel) → 1468 ≤ length frame.old → HoldsUnit s.old.held.unit u →
        result ≢ pos 20 → IsTrue (is_over_rate u.governor u.station.clock now) → result ≡ pos 22 }
    ensures unchanged { result ≢ pos 0 → result ≢ pos 22 → IsSame s.old s.new }
    ensures station { result ≢ pos 0 → station_in s.new ≡ station_in s.old }
    ensures nothing { result ≢ pos 0 → written.new ≡ 0 }
    ensures memory { (u : UnitModel) → HoldsUnit s.old.held.unit u → result ≡ pos 5 →
        (area : GeoArea) × IsAreaOf request.now area ×
        (first (moment_refusal u.station now) (own_refusal u.station
        (area_call (kind_of_cast cast) (gbc_asked request.now area payload.now))) ≡ None) }
{
    *written = 0;
    if frame.len() < LONGEST_FRAME {
        return NO_ROOM;
    }
    let Some(area) = area_of(request) else {
        return BAD_ARGUMENT;
    };
    let r = area_request(request, area, payload);
    let mut unit = s.held.take(alloc);
    let said = unit.send_to_area(now, cast, &r);
    s.held.put(unit);
    told_frame(said, frame, written)
}

/// The area of a request, if it has one.
fn area_of(r: &AreaRequest) -> Option<Area>
    ensures made { IfSome result (IsAreaOf r.now) }
    ensures none { result ≡ None → (area : GeoArea) → IsAreaOf r.now area → ⊥ }
{
    let Ok(centre) = Place::new(r.latitude, r.longitude) else {
        return None;
    };
    let made = match r.shape {
        0 => Area::circle(centre, r.a),
        1 => Area::rectangle(centre, r.a, r.b, r.angle),
        2 => Area::ellipse(centre, r.a, r.b, r.angle),
        _ => return None,
    };
    made.ok()
}

/// What the station is asked for.
fn area_request<'a>(request: &AreaRequest, area: Area, payload: &'a [u8]) -> GbcRequest<'a>
    ensures { gbc_request result ≡ gbc_asked request.now area payload.now }
{
    GbcRequest {
        port: request.port,
        info: request.info,
        class: TrafficClass::from_octet(request.traffic_class),
        lifetime: Lifetime::from_octet(request.lifetime),
        max_hops: request.max_hops,
        area,
        payload,
    }
}
