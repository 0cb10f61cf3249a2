//! The area of a geobroadcast and of a geoanycast (EN 302 636-4-1 clause 9, EN 302 931).

ghost use Rattle.std.specs.Prelude.{◌≡◌, ◌≤◌, length};
ghost use Rattle.its_headers.specs.Encoding.{area_octets, IsArea};
ghost use Rattle.its_formats.specs.Format.{Gives};
ghost use Rattle.its_headers.specs.Format.{walk};
ghost use Rattle.its_headers.specs.Layout.{area_format, area_at, is_second, is_angle};
ghost use Rattle.its_headers.specs.Puts.{Puts};

use crate::wire::fields::{
    ANGLE, AREA_LATITUDE, AREA_LONGITUDE, DISTANCE_A, DISTANCE_B, fault, u16_at, u16_in, u32_at,
    u32_in, write_u16, write_u32,
};
use crate::wire::octets::{Head, Octets};
use crate::wire::position::{is_latitude, is_longitude};
use its_faults::{Fault, FaultKind};
use its_geometry::{Area, Shape};
use its_gnvalue::Place;

/// Checks the area, of a shape that the sub-type names.
#[tactic(auto, unfolding(crate::specs::Layout::area_format))]
#[inline(always)]
pub(crate) fn check_area<H: Head>(octets: &Octets<'_, H>, shape: Shape) -> Result<(), Fault>
    ensures { Gives (λ _. (area_at shape octets.now, 54)) result
        (walk (area_format shape) 40 octets.now) }
{
    if !is_latitude(u32_at(octets, AREA_LATITUDE)?.cast_signed()) {
        return Err(fault(AREA_LATITUDE, FaultKind::Area));
    }
    if !is_longitude(u32_at(octets, AREA_LONGITUDE)?.cast_signed()) {
        return Err(fault(AREA_LONGITUDE, FaultKind::Area));
    }
    if u16_at(octets, DISTANCE_A)? == 0 {
        return Err(fault(DISTANCE_A, FaultKind::Area));
    }
    if !is_second(shape, u16_at(octets, DISTANCE_B)?) {
        return Err(fault(DISTANCE_B, FaultKind::Area));
    }
    if !is_angle(shape, u16_at(octets, ANGLE)?) {
        return Err(fault(ANGLE, FaultKind::Area));
    }
    Ok(())
}

/// Whether a shape may have this second distance.
fn is_second(shape: Shape, b: u16) -> bool
    ensures { result ≡ is_second shape b }
{
    match shape {
        Shape::Circle => b == 0,
        Shape::Rectangle | Shape::Ellipse => b > 0,
    }
}

/// Whether a shape may have this angle.
fn is_angle(shape: Shape, angle: u16) -> bool
    ensures { result ≡ is_angle shape angle }
{
    match shape {
        Shape::Circle => angle == 0,
        Shape::Rectangle | Shape::Ellipse => angle < 360,
    }
}

/// The area, of this shape, which was checked.
pub(crate) fn area_in<H: Head>(octets: &Octets<'_, H>, shape: Shape) -> Area
    requires here { 54 ≤ length octets.now }
    requires fits { IsArea (area_at shape octets.now) }
    ensures { result ≡ area_at shape octets.now }
{
    let lat = u32_in(octets, AREA_LATITUDE).cast_signed();
    let lon = u32_in(octets, AREA_LONGITUDE).cast_signed();
    let a = u16_in(octets, DISTANCE_A);
    let b = u16_in(octets, DISTANCE_B);
    let angle = u16_in(octets, ANGLE);
    Area::within(shape, Place::within(lat, lon), a, b, angle)
}

/// Writes an area, 14 octets.
pub(crate) fn write_area(out: &mut [u8], a: Area)
    requires { 54 ≤ length out.old }
    ensures puts { Puts out.old out.new 40 (area_octets a) }
    ensures fits { IsArea a }
{
    write_u32(out, AREA_LATITUDE, a.centre().lat().cast_unsigned());
    write_u32(out, AREA_LONGITUDE, a.centre().lon().cast_unsigned());
    write_u16(out, DISTANCE_A, a.a());
    write_u16(out, DISTANCE_B, a.b());
    write_u16(out, ANGLE, a.angle());
}
