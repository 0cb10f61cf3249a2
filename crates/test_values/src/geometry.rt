//! Areas: borders, turned axes, distances and the nearest place.

use crate::equality::{same, same_at};
use its_geometry::{Area, AreaFault, Shape, contains, distance2, nearest};
use its_gnvalue::Place;
use std::test::Fail;

/// A latitude and a longitude, in tenths of a microdegree.
type Point = (i32, i32);

/// An area: its shape, its centre, its distances in metres and its angle in degrees.
type Form = (Shape, Point, u16, u16, u16);

const ORIGIN: Point = (0, 0);

fn place_of(point: Point) -> Option<Place> {
    Place::new(point.0, point.1).ok()
}

fn area_of(form: Form) -> Option<Result<Area, AreaFault>> {
    let (shape, centre, a, b, angle) = form;
    let centre = place_of(centre)?;
    Some(match shape {
        Shape::Circle => Area::circle(centre, a),
        Shape::Rectangle => Area::rectangle(centre, a, b, angle),
        Shape::Ellipse => Area::ellipse(centre, a, b, angle),
    })
}

/// Whether a place is inside an area.
fn is_inside(form: Form, point: Point) -> Option<bool> {
    let area = area_of(form)?.ok()?;
    Some(contains(&area, place_of(point)?))
}

const TEN_METRES: Form = (Shape::Circle, ORIGIN, 10, 0, 0);

/// The long axis is turned to the east.
const TURNED: Form = (Shape::Rectangle, ORIGIN, 100, 10, 90);

const OVAL: Form = (Shape::Ellipse, ORIGIN, 100, 50, 0);

/// The longitude where east and west meet.
const ANTIMERIDIAN: Form = (Shape::Circle, (0, 1_800_000_000), 1, 0, 0);

const POLE: Form = (Shape::Ellipse, (900_000_000, 0), 2, 1, 0);

/// At 60 degrees north, 1 m west of the antimeridian, turned by 30 degrees.
const NORTHERN: Point = (600_000_000, 1_799_999_000);

const NORTHERN_RECTANGLE: Form = (Shape::Rectangle, NORTHERN, 100, 50, 30);

const NORTHERN_ELLIPSE: Form = (Shape::Ellipse, NORTHERN, 100, 50, 30);

/// Areas, and places that are inside or not.
static BORDERS: [(Form, Point, bool); 29] = [
    (TEN_METRES, (0, 0), true),
    (TEN_METRES, (899, 0), true),
    (TEN_METRES, (900, 0), false),
    (TEN_METRES, (-899, 0), true),
    (TEN_METRES, (-900, 0), false),
    (TEN_METRES, (0, 899), true),
    (TEN_METRES, (0, -900), false),
    (TURNED, (0, 4492), true),
    (TURNED, (4492, 0), false),
    (OVAL, (5390, 3594), true),
    (OVAL, (5390, 3595), false),
    (ANTIMERIDIAN, (0, -1_800_000_000), true),
    (POLE, (900_000_000, 1_234_567), true),
    // On a ray into each quadrant the last place inside and the next, past the antimeridian in the
    // east.
    (NORTHERN_RECTANGLE, (600_009_064, -1_799_996_468), true),
    (NORTHERN_RECTANGLE, (600_009_066, -1_799_996_467), false),
    (NORTHERN_RECTANGLE, (599_993_730, -1_799_997_865), true),
    (NORTHERN_RECTANGLE, (599_993_728, -1_799_997_864), false),
    (NORTHERN_RECTANGLE, (599_990_936, 1_799_994_468), true),
    (NORTHERN_RECTANGLE, (599_990_934, 1_799_994_467), false),
    (NORTHERN_RECTANGLE, (600_006_270, 1_799_995_865), true),
    (NORTHERN_RECTANGLE, (600_006_272, 1_799_995_864), false),
    (NORTHERN_ELLIPSE, (600_007_868, -1_799_997_066), true),
    (NORTHERN_ELLIPSE, (600_007_870, -1_799_997_065), false),
    (NORTHERN_ELLIPSE, (599_994_432, -1_799_998_216), true),
    (NORTHERN_ELLIPSE, (599_994_430, -1_799_998_215), false),
    (NORTHERN_ELLIPSE, (599_992_132, 1_799_995_066), true),
    (NORTHERN_ELLIPSE, (599_992_130, 1_799_995_065), false),
    (NORTHERN_ELLIPSE, (600_005_568, 1_799_996_216), true),
    (NORTHERN_ELLIPSE, (600_005_570, 1_799_996_215), false),
];

#[test]
fn the_borders_of_areas(rt: HostRuntime) {
    for (row, &(form, point, inside)) in BORDERS.iter().enumerate() {
        assert!(rt; is_inside(form, point) == Some(inside), "row {row}");
    }
}

/// Angles that turn the axis of 100 m into each quadrant in turn, and places on it, 90 m from the
/// centre.
static AXES: [(u16, Point); 4] = [
    (30, (7002, 4042)),
    (120, (-4042, 7002)),
    (210, (-7002, -4042)),
    (300, (4042, -7002)),
];

/// A place on the axis is inside, and not where it would be on one turned the other way round.
#[test]
fn the_axis_in_each_quadrant(rt: HostRuntime) {
    for &(angle, on) in &AXES {
        let off = (on.0, on.1.saturating_neg());
        for shape in [Shape::Rectangle, Shape::Ellipse] {
            let form = (shape, ORIGIN, 100, 10, angle);
            let found = (is_inside(form, on), is_inside(form, off));
            assert!(rt; found == (Some(true), Some(false)), "{angle}");
        }
    }
}

fn squared(from: Point, to: Point) -> Option<u64> {
    Some(distance2(place_of(from)?, place_of(to)?))
}

/// Two places, and the square of their distance in centimetres.
static DISTANCES: [(Point, Point, u64); 15] = [
    ((0, 100_000), (50, 50_000), 3_098_038_625),
    ((0, 100_000), (0, 0), 12_392_142_400),
    // cut toward zero on both sides
    ((0, 0), (1, 0), 1),
    ((0, 0), (-1, 0), 1),
    ((0, 0), (0, -1), 1),
    ((0, 0), (-9, -9), 200),
    // half the way round
    ((0, 0), (0, 1_800_000_000), 4_015_054_137_600_000_000),
    (
        (0, 0),
        (900_000_000, 1_800_000_000),
        5_018_817_672_000_000_000,
    ),
    (
        (100_000_000, 0),
        (-900_000_000, 1_800_000_000),
        5_133_138_369_924_911_104,
    ),
    // across the antimeridian
    ((0, 1_799_999_000), (0, -1_799_999_000), 4_955_076),
    ((0, -1_799_999_000), (0, 1_799_999_000), 4_955_076),
    ((0, 1_799_999_999), (0, -1_799_999_999), 4),
    (
        (600_000_000, 1_799_999_000),
        (600_000_000, -1_799_999_000),
        1_238_769,
    ),
    // at the poles
    ((-900_000_000, -1_800_000_000), (-900_000_000, 0), 0),
    (
        (-900_000_000, -1_800_000_000),
        (900_000_000, 0),
        4_015_054_137_600_000_000,
    ),
];

#[test]
fn distances(rt: HostRuntime) {
    for (row, &(from, to, distance)) in DISTANCES.iter().enumerate() {
        assert!(rt; squared(from, to) == Some(distance), "row {row}");
    }
}

/// Latitudes, and how long a degree of longitude is there, in centimetres.
static DEGREES: [(i32, u64); 9] = [
    (0, 11_132_000),
    (10_000_000, 11_129_773),
    (123_456_789, 10_873_737),
    (450_000_000, 7_871_437),
    (455_000_000, 7_802_418),
    (-450_000_000, 7_871_437),
    (890_000_000, 194_810),
    (900_000_000, 0),
    (-900_000_000, 0),
];

/// To the east and back.
#[test]
fn degrees_of_longitude(rt: HostRuntime) {
    for &(latitude, degree) in &DEGREES {
        let east = squared((latitude, 0), (latitude, 10_000_000));
        let west = squared((latitude, 0), (latitude, -10_000_000));
        assert!(rt;
            east.is_some() && east == degree.checked_mul(degree),
            "{latitude}"
        );
        assert!(rt; west == east, "{latitude}");
    }
}

/// What is wrong with areas, if anything is.
static FAULTS: [(Form, Option<AreaFault>); 5] = [
    (
        (Shape::Circle, ORIGIN, 0, 0, 0),
        Some(AreaFault::ZeroDistance),
    ),
    (
        (Shape::Rectangle, ORIGIN, 1, 0, 400),
        Some(AreaFault::ZeroDistance),
    ),
    (
        (Shape::Rectangle, ORIGIN, 0, 1, 0),
        Some(AreaFault::ZeroDistance),
    ),
    (
        (Shape::Ellipse, ORIGIN, 1, 1, 360),
        Some(AreaFault::AngleRange),
    ),
    ((Shape::Ellipse, ORIGIN, 65_535, 65_535, 359), None),
];

fn fault_of(form: Form) -> Option<Option<AreaFault>> {
    Some(area_of(form)?.err())
}

#[test]
fn faults_of_areas(rt: HostRuntime) {
    for (row, &(form, fault)) in FAULTS.iter().enumerate() {
        assert!(rt; fault_of(form) == Some(fault), "row {row}");
    }
}

#[test]
fn faults_of_areas_in_words(rt: HostRuntime) -> Result<(), Fail> {
    for (fault, said) in [
        (AreaFault::ZeroDistance, "A1: a distance of 0 m"),
        (AreaFault::AngleRange, "A2: an angle over 359 degrees"),
    ] {
        let told = format!(in rt.alloc(); "{}: {fault}", fault.code())?;
        assert!(rt; told.as_str() == said, "{said}");
    }
    Ok(())
}

#[test]
fn the_parts_of_an_area(rt: HostRuntime) -> Result<(), Fail> {
    let centre = Place::new(1, 2)?;
    let circle = Area::circle(centre, 3)?;
    same(&rt, circle.shape(), Shape::Circle);
    same(&rt, (circle.a(), circle.b(), circle.angle()), (3, 0, 0));
    let ellipse = Area::ellipse(centre, 4, 5, 6)?;
    same(&rt, ellipse.shape(), Shape::Ellipse);
    same(&rt, ellipse.centre(), centre);
    same(&rt, (ellipse.a(), ellipse.b(), ellipse.angle()), (4, 5, 6));
    Ok(())
}

#[test]
fn the_first_of_the_nearest(rt: HostRuntime) -> Result<(), Fail> {
    let centre = Place::new(0, 0)?;
    let near = [Place::new(0, 10)?, Place::new(10, 0)?, Place::new(-10, 0)?];
    same(&rt, nearest(centre, &near), Some(0));
    same(&rt, nearest(Place::new(-5, 0)?, &near), Some(2));
    Ok(())
}

#[test]
fn the_first_of_equal_places(rt: HostRuntime) -> Result<(), Fail> {
    let centre = Place::new(0, 0)?;
    let equal = [Place::new(7, 7)?; 33];
    same(&rt, nearest(centre, &equal[..0]), None);
    for n in [1, 7, 8, 9, 33] {
        same_at(&rt, nearest(centre, &equal[..n]), Some(0), &n);
    }
    Ok(())
}

#[test]
fn the_first_of_two_far_apart(rt: HostRuntime) -> Result<(), Fail> {
    let centre = Place::new(0, 0)?;
    let mut two = [Place::new(7, 7)?; 33];
    two[8] = Place::new(3, -3)?;
    two[32] = Place::new(-3, 3)?;
    same(&rt, nearest(centre, &two), Some(8));
    two[8] = Place::new(7, 7)?;
    same(&rt, nearest(centre, &two), Some(32));
    Ok(())
}

// Each place in turn is nearer than all before it, then farther.
#[test]
fn the_nearest_last_and_first(rt: HostRuntime) -> Result<(), Fail> {
    let mut places = [Place::new(0, 0)?; 40];
    for i in 0..40 {
        places[i] = Place::new(100 * (50 - i as i32), 0)?;
    }
    same(&rt, nearest(Place::new(0, 0)?, &places), Some(39));
    same(&rt, nearest(Place::new(6000, 0)?, &places), Some(0));
    same(&rt, nearest(Place::new(2949, 0)?, &places), Some(21));
    same(&rt, nearest(Place::new(900_000_000, 0)?, &places), Some(0));
    Ok(())
}
