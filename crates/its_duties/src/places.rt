//! Where a station that stands still is, seen from an area: inside of it for sure, outside for
//! sure, or neither.

ghost use Rattle.std.specs.Prelude.{◌≡◌, ◌≤◌, ◌<◌, ◌^◌, ◌+◌, ◌*◌, ◌≤ℤ◌, ◌+ℤ◌, ◌-ℤ◌, ◌*ℤ◌, true};
ghost use Rattle.std.specs.Prelude.{not, pos, int_div, int_lt, unsigned_abs};
ghost use Rattle.its_geometry.specs.Offsets.{square, wrap_longitude, eastward};
ghost use Rattle.its_duties.specs.Places.{IsUpTo, metres_north, metres_east, box_around};
ghost use Rattle.its_duties.specs.Places.{ends_before_180, is_on_one_side, is_plain_box};
ghost use Rattle.its_duties.specs.Places.{is_plain, north_of};
ghost use Rattle.its_duties.specs.Places.{east_of, along_axis, across_axis, holds_all, holds_none};
ghost use Rattle.its_duties.specs.Places.{offsets_of, is_box_inside, is_box_outside};
ghost use Rattle.its_duties.specs.Places.{area_position, position_in};

use crate::claims::Claims;
use crate::interval::Interval;
use its_geometry::{Area, Shape, cosine, longitude_scale, sine};
use its_gnvalue::Place;

/// Where a station is, seen from an area.
#[derive(Clone, Copy)]
pub(crate) enum AreaPosition {
    /// Inside of it for sure.
    Inside,
    /// Outside of it for sure.
    Outside,
    /// Either.
    Unsure,
}

/// A box of places, in tenths of a microdegree.
#[derive(Clone, Copy)]
pub(crate) struct PlaceBox {
    latitudes: Interval,
    longitudes: Interval,
}

/// The offsets of a box of places from a centre, in centimetres.
#[derive(Clone, Copy)]
pub(crate) struct Offsets {
    north: Interval,
    east: Interval,
}

/// Where the station is, seen from the area: by its claimed place, how far it may be from there, and
/// how far its arithmetic may differ.
pub(crate) fn position_in(claims: &Claims, area: &Area) -> AreaPosition
    ensures { result ≡ position_in claims.now area.now }
{
    let Some(place) = claims.place else {
        return AreaPosition::Unsure;
    };
    let around = box_around(place, claims.accuracy);
    if !is_plain(area.centre(), place, around) {
        return AreaPosition::Unsure;
    }
    position_of(area, offsets_of(area, around, claims.tolerance))
}

/// Where a box of places is, seen from the area, by its offsets from the centre.
fn position_of(area: &Area, offsets: Offsets) -> AreaPosition
    requires north { IsUpTo (2 ^ 37) offsets.north }
    requires east { IsUpTo (2 ^ 37) offsets.east }
    ensures { result
        ≡ area_position (is_box_inside area.now offsets) (is_box_outside area.now offsets) }
{
    let angle = area.angle() as u64;
    let x = along_axis(offsets, angle);
    let y = across_axis(offsets, angle);
    if holds_all(area, offsets, x, y) {
        return AreaPosition::Inside;
    }
    if holds_none(area, offsets, x, y) {
        return AreaPosition::Outside;
    }
    AreaPosition::Unsure
}

/// All places that are at most so many metres north or south, and east or west, of this one.
fn box_around(place: Place, metres: u16) -> PlaceBox
    ensures value { result ≡ box_around metres place }
    ensures north { IsUpTo 905900000 result.latitudes }
    ensures east { IsUpTo (2 ^ 41) result.longitudes }
    ensures order { result.longitudes.low ≤ℤ result.longitudes.high }
{
    let latitude = place.lat() as i64;
    let longitude = place.lon() as i64;
    let latitudes = Interval {
        low: latitude,
        high: latitude,
    };
    let longitudes = Interval {
        low: longitude,
        high: longitude,
    };
    let scale = longitude_scale(place.lat());
    PlaceBox {
        latitudes: latitudes.widened(metres_north(metres)),
        longitudes: longitudes.widened(metres_east(scale, metres)),
    }
}

/// So many metres to the north, in tenths of a microdegree, rounded up.
fn metres_north(metres: u16) -> u64
    ensures value { result ≡ metres_north metres }
    ensures bound { result ≤ 5900000 }
{
    (metres as u64 * 1_000_000 + 11132 - 1) / 11132
}

/// So many metres to the east, at a latitude whose degrees of longitude are so long. 0 at a pole.
fn metres_east(scale: u64, metres: u16) -> u64
    requires { scale ≤ 10000 }
    ensures value { result ≡ metres_east scale metres }
    ensures bound { result ≤ 2 ^ 40 }
{
    if scale == 0 {
        return 0;
    }
    let degree = 11132 * scale;
    (metres as u64 * 10_000_000_000 + degree - 1) / degree
}

/// Whether the box round a place is not at a pole, and reaches neither across the meridian of 180
/// degrees nor across that opposite to the centre.
fn is_plain(centre: Place, place: Place, around: PlaceBox) -> bool
    requires near { IsUpTo (2 ^ 41) around.longitudes }
    requires order { around.longitudes.low ≤ℤ around.longitudes.high }
    ensures value { result ≡ is_plain centre place around }
    ensures bound { result ≡ true → IsUpTo 1800000000 around.longitudes }
{
    if longitude_scale(place.lat()) == 0 {
        return false;
    }
    is_plain_box(centre, around)
}

/// Whether the box reaches across neither of these two meridians.
fn is_plain_box(centre: Place, around: PlaceBox) -> bool
    requires near { IsUpTo (2 ^ 41) around.longitudes }
    requires order { around.longitudes.low ≤ℤ around.longitudes.high }
    ensures value { result ≡ is_plain_box centre around }
    ensures bound { result ≡ true → IsUpTo 1800000000 around.longitudes }
{
    if !ends_before_180(around) {
        return false;
    }
    is_on_one_side(centre, around.longitudes)
}

/// Whether the box ends before the meridian of 180 degrees.
fn ends_before_180(around: PlaceBox) -> bool
    ensures { result ≡ ends_before_180 around }
{
    -1_800_000_001 < around.longitudes.low && around.longitudes.high < 1_800_000_001
}

/// Whether no longitude of the interval is across the meridian opposite to the centre from another.
fn is_on_one_side(centre: Place, longitudes: Interval) -> bool
    requires { IsUpTo (2 ^ 41) longitudes }
    ensures { result ≡ is_on_one_side centre longitudes }
{
    let low = longitude_from(centre, longitudes.low);
    let high = longitude_from(centre, longitudes.high);
    reaches(low, high, width(longitudes))
}

/// Whether the high end is as far from the low one as the width.
fn reaches(low: i64, high: i64, width: i64) -> bool
    requires low { unsigned_abs low ≤ 2 ^ 43 }
    requires width { unsigned_abs width ≤ 2 ^ 43 }
    ensures { result ≡ not (int_lt high (low +ℤ width)) }
{
    !(high < low + width)
}

/// How wide an interval is.
fn width(of: Interval) -> i64
    requires { IsUpTo (2 ^ 41) of }
    ensures value { result ≡ of.high -ℤ of.low }
    ensures bound { unsigned_abs result ≤ 2 ^ 43 }
{
    of.high - of.low
}

/// How far a longitude is to the east of the centre, the short way round.
fn longitude_from(centre: Place, longitude: i64) -> i64
    requires { unsigned_abs longitude ≤ 2 ^ 41 }
    ensures value { result ≡ wrap_longitude (longitude -ℤ centre.longitude) }
    ensures bound { unsigned_abs result ≤ 2 ^ 43 }
    ensures short { unsigned_abs longitude ≤ 1800000000 → unsigned_abs result ≤ 1800000000 }
{
    short_way(difference(longitude, centre.lon()))
}

/// How far one end of a box is from the centre, as latitude or longitude.
fn difference(end: i64, centre: i32) -> i64
    requires end { unsigned_abs end ≤ 2 ^ 41 }
    requires centre { unsigned_abs centre ≤ 2 ^ 31 }
    ensures value { result ≡ end -ℤ centre }
    ensures bound { unsigned_abs result ≤ unsigned_abs end + unsigned_abs centre }
{
    end - centre as i64
}

/// A difference of longitude the short way round.
fn short_way(difference: i64) -> i64
    requires { unsigned_abs difference ≤ 2 ^ 42 }
    ensures value { result ≡ wrap_longitude difference }
    ensures bound { unsigned_abs result ≤ 2 ^ 43 }
    ensures short { unsigned_abs difference ≤ 3600000000 → unsigned_abs result ≤ 1800000000 }
{
    if difference < -1_800_000_000 {
        difference + 3_600_000_000
    } else if difference > 1_800_000_000 {
        difference - 3_600_000_000
    } else {
        difference
    }
}

/// The offsets of the box from the centre of the area, with a tolerance per mille.
fn offsets_of(area: &Area, around: PlaceBox, mille: u16) -> Offsets
    requires north { IsUpTo 905900000 around.latitudes }
    requires east { IsUpTo 1800000000 around.longitudes }
    ensures value { result ≡ offsets_of mille area.now around }
    ensures north { IsUpTo (2 ^ 37) result.north }
    ensures east { IsUpTo (2 ^ 37) result.east }
{
    let centre = area.centre();
    Offsets {
        north: north_of(centre, around.latitudes).tolerated(mille),
        east: east_of(centre, around.longitudes).tolerated(mille),
    }
}

/// The offsets to the north of the centre, in centimetres.
fn north_of(centre: Place, latitudes: Interval) -> Interval
    requires { IsUpTo 905900000 latitudes }
    ensures value { result ≡ north_of centre latitudes }
    ensures bound { IsUpTo 2010400000 result }
{
    Interval {
        low: centimetres_north(difference(latitudes.low, centre.lat())),
        high: centimetres_north(difference(latitudes.high, centre.lat())),
    }
}

/// The offsets to the east of the centre, in centimetres.
fn east_of(centre: Place, longitudes: Interval) -> Interval
    requires { IsUpTo 1800000000 longitudes }
    ensures value { result ≡ east_of centre longitudes }
    ensures bound { IsUpTo 2010400000 result }
{
    Interval {
        low: eastward(centre, longitudes.low),
        high: eastward(centre, longitudes.high),
    }
}

/// How far a longitude is to the east of the centre, in centimetres.
fn eastward(centre: Place, longitude: i64) -> i64
    requires { unsigned_abs longitude ≤ 1800000000 }
    ensures value { result
        ≡ eastward centre (record { latitude = pos 0; longitude = longitude }) }
    ensures bound { unsigned_abs result ≤ 2010400000 }
{
    centimetres_east(
        longitude_from(centre, longitude),
        longitude_scale(centre.lat()),
    )
}

/// A difference of latitudes in centimetres.
fn centimetres_north(difference: i64) -> i64
    requires { unsigned_abs difference ≤ 1805900000 }
    ensures value { result ≡ int_div (difference *ℤ pos 11132) (pos 10000) }
    ensures bound { unsigned_abs result ≤ 2010400000 }
{
    difference * 11132 / 10000
}

/// A difference of longitudes in centimetres.
fn centimetres_east(difference: i64, scale: u64) -> i64
    requires difference { unsigned_abs difference ≤ 1800000000 }
    requires scale { scale ≤ 10000 }
    ensures value { result ≡ int_div (difference *ℤ pos 11132 *ℤ pos scale) (pos 100000000) }
    ensures bound { unsigned_abs result ≤ 2010400000 }
{
    difference * 11132 * scale as i64 / 100_000_000
}

/// The offsets along the axis of an area that is turned by this angle.
fn along_axis(offsets: Offsets, angle: u64) -> Interval
    requires north { IsUpTo (2 ^ 37) offsets.north }
    requires east { IsUpTo (2 ^ 37) offsets.east }
    requires angle { angle < 360 }
    ensures value { result ≡ along_axis offsets.north offsets.east angle }
    ensures bound { IsUpTo (2 ^ 38) result }
{
    let north = offsets.north.times(cosine(angle));
    let east = offsets.east.times(sine(angle));
    north.plus(east).ten_thousandths()
}

/// The offsets across it.
fn across_axis(offsets: Offsets, angle: u64) -> Interval
    requires north { IsUpTo (2 ^ 37) offsets.north }
    requires east { IsUpTo (2 ^ 37) offsets.east }
    requires angle { angle < 360 }
    ensures value { result ≡ across_axis offsets.north offsets.east angle }
    ensures bound { IsUpTo (2 ^ 38) result }
{
    let north = offsets.north.times(sine(angle));
    let east = offsets.east.times(cosine(angle));
    east.minus(north).ten_thousandths()
}

/// Whether the shape of the area holds all these offsets: to the north and east, along the axis and
/// across it.
fn holds_all(area: &Area, offsets: Offsets, along: Interval, across: Interval) -> bool
    requires north { IsUpTo (2 ^ 37) offsets.north }
    requires east { IsUpTo (2 ^ 37) offsets.east }
    requires along { IsUpTo (2 ^ 38) along }
    requires across { IsUpTo (2 ^ 38) across }
    ensures { result
        ≡ holds_all area.now.shape offsets.north offsets.east along across area.now.a area.now.b }
{
    let (a, b) = (area.a(), area.b());
    match area.shape() {
        Shape::Circle => {
            circle_sum(offsets.north.farthest(), offsets.east.farthest()) <= squared(half(a))
        }
        Shape::Rectangle => along.farthest() <= half(a) && across.farthest() <= half(b),
        Shape::Ellipse => {
            ellipse_sum(along.farthest(), across.farthest(), a, b)
                <= squared(half(a)) * squared(half(b))
        }
    }
}

/// Whether the shape of the area holds none of these offsets.
fn holds_none(area: &Area, offsets: Offsets, along: Interval, across: Interval) -> bool
    requires north { IsUpTo (2 ^ 37) offsets.north }
    requires east { IsUpTo (2 ^ 37) offsets.east }
    requires along { IsUpTo (2 ^ 38) along }
    requires across { IsUpTo (2 ^ 38) across }
    ensures { result
        ≡ holds_none area.now.shape offsets.north offsets.east along across area.now.a area.now.b }
{
    let (a, b) = (area.a(), area.b());
    match area.shape() {
        Shape::Circle => {
            squared(half(a)) < circle_sum(offsets.north.nearest(), offsets.east.nearest())
        }
        Shape::Rectangle => half(a) < along.nearest() || half(b) < across.nearest(),
        Shape::Ellipse => {
            squared(half(a)) * squared(half(b))
                < ellipse_sum(along.nearest(), across.nearest(), a, b)
        }
    }
}

/// A half length of metres in centimetres.
fn half(metres: u16) -> u64
    ensures value { result ≡ 100 * metres }
    ensures bound { result ≤ 2 ^ 23 }
{
    100 * metres as u64
}

/// The sum of the squares of two lengths.
fn circle_sum(north: u64, east: u64) -> u128
    requires north { north ≤ 2 ^ 38 }
    requires east { east ≤ 2 ^ 38 }
    ensures { result ≡ square north + square east }
{
    squared(north) + squared(east)
}

/// The left side of the inequality of an ellipse.
fn ellipse_sum(along: u64, across: u64, a: u16, b: u16) -> u128
    requires along { along ≤ 2 ^ 38 }
    requires across { across ≤ 2 ^ 38 }
    ensures { result ≡ square along * square (100 * b) + square across * square (100 * a) }
{
    product(along, half(b)) + product(across, half(a))
}

/// The square of an offset times the square of a half axis.
fn product(offset: u64, half: u64) -> u128
    requires offset { offset ≤ 2 ^ 38 }
    requires half { half ≤ 2 ^ 23 }
    ensures value { result ≡ square offset * square half }
    ensures bound { result ≤ 2 ^ 122 }
{
    squared(offset) * squared(half)
}

fn squared(length: u64) -> u128
    requires { length ≤ 2 ^ 38 }
    ensures value { result ≡ square length }
    ensures bound { result ≤ 2 ^ 76 }
{
    length as u128 * length as u128
}
