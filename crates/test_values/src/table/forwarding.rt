//! To whom a packet goes, over either table.

use crate::table::fixtures::{accept, choice, heard, store_of};
use its_forwarding::Choice;
use its_geometry::Area;
use its_gnvalue::{GnAddress, Mac, Place};
use its_loctable::{LocationStore, OrderedTable, SortedTable, Verdict};
use std::alloc::Global;
use std::test::Fail;
use test_support::{FIRST, SECOND, THIRD};

/// An address with the MID of the first.
const BELOW_FIRST: u64 = 0x0000_0200_0000_0001;

/// A latitude and a longitude, in tenths of a microdegree.
type Point = (i32, i32);

/// A circle: its centre, and its radius in metres.
type Circle = (Point, u16);

/// Where a packet goes.
#[derive(Clone, Copy)]
enum To {
    All,
    Nobody,
    /// To the station of this address.
    One(u64),
}

/// What is done with a table, or asked of it.
#[derive(Clone, Copy)]
enum Row {
    /// A packet of a station is accepted that tells its place and whether this is accurate: a GBC
    /// where there is a number, else a BEACON.
    Hears(u32, u64, Point, bool, Option<u16>),
    /// At 1000, beacons from one place of so many stations, the addresses of which descend from
    /// this one.
    HearsMany(u64, u64, Point),
    /// To whom a packet for a circle goes from a place, which comes from the station of an address,
    /// or from this one itself.
    Goes(u32, Point, Circle, Option<u64>, To),
}

fn place_of(point: Point) -> Option<Place> {
    Place::new(point.0, point.1).ok()
}

fn mid_of(address: u64) -> Option<Mac> {
    Some(GnAddress::from_u64(address).ok()?.mid())
}

fn hears<S: LocationStore>(
    store: &mut S,
    now: u32,
    address: u64,
    point: Point,
    accurate: bool,
    number: Option<u16>,
) -> Option<bool> {
    let address = GnAddress::from_u64(address).ok()?;
    let heard = heard(address, place_of(point)?, accurate, number)?;
    Some(accept(store, u64::from(now), &heard) == Ok(Verdict::Accepted))
}

fn hears_many<S: LocationStore>(store: &mut S, address: u64, count: u64, point: Point) -> bool {
    for below in 0..count {
        let address = address.saturating_sub(below);
        if hears(store, 1000, address, point, false, None) != Some(true) {
            return false;
        }
    }
    true
}

fn goes<S: LocationStore>(
    store: &S,
    now: u32,
    own: Point,
    circle: Circle,
    sender: Option<u64>,
) -> Option<Choice> {
    let area = Area::circle(place_of(circle.0)?, circle.1).ok()?;
    let sender = match sender {
        None => None,
        Some(address) => Some(mid_of(address)?),
    };
    Some(choice(store, u64::from(now), place_of(own)?, &area, sender))
}

fn choice_of(to: To) -> Option<Choice> {
    Some(match to {
        To::All => Choice::Broadcast,
        To::Nobody => Choice::Drop,
        To::One(address) => Choice::To(mid_of(address)?),
    })
}

fn holds<S: LocationStore>(store: &mut S, row: Row) -> bool {
    match row {
        Row::Hears(now, address, point, accurate, number) => {
            hears(store, now, address, point, accurate, number) == Some(true)
        }
        Row::HearsMany(address, count, point) => hears_many(store, address, count, point),
        Row::Goes(now, own, circle, sender, to) => match goes(store, now, own, circle, sender) {
            None => false,
            found => found == choice_of(to),
        },
    }
}

/// The number, from 0, of the first row that comes out otherwise over a new table, which remembers
/// eight numbers of each source; `None` where all come out so. An error says that there is no such
/// table.
fn first_other<S: LocationStore>(
    alloc: Global,
    capacity: u16,
    rows: &[Row],
) -> Result<Option<usize>, &'static str> {
    let mut store = store_of::<S>(alloc, capacity, 8).ok_or("no such table")?;
    for (number, row) in rows.iter().enumerate() {
        if !holds(&mut store, *row) {
            return Ok(Some(number));
        }
    }
    Ok(None)
}

const ORIGIN: Point = (0, 0);

/// A circle east of the origin.
const EAST: Circle = ((0, 100_000), 10);

/// A circle round the origin, and a place at its border and one outside of it.
const ROUND: Circle = (ORIGIN, 10);

const BORDER: Point = (899, 0);

const FAR: Point = (100_000, 0);

/// A greater circle round the origin.
const WIDE: Circle = (ORIGIN, 100);

/// Two neighbours that are equally near and nearer than the station: the one of least address,
/// until both have expired.
const TWO_NEIGHBOURS: &[Row] = &[
    Row::Hears(100, THIRD, (-50, 50_000), false, None),
    Row::Hears(100, SECOND, (50, 50_000), false, None),
    Row::Goes(20_099, ORIGIN, EAST, None, To::One(SECOND)),
    Row::Goes(20_100, ORIGIN, EAST, None, To::All),
];

/// Inside the area, at its border too, the packet goes to all; a neighbour that is as near as the
/// station is no progress.
const INSIDE_AND_NO_PROGRESS: &[Row] = &[
    Row::Hears(1000, FIRST, (-100_000, 0), true, None),
    Row::Goes(1000, BORDER, ROUND, None, To::All),
    Row::Goes(1000, FAR, ROUND, None, To::All),
    Row::Hears(1000, SECOND, (-99_999, 0), true, None),
    Row::Goes(1000, FAR, ROUND, None, To::One(SECOND)),
    Row::Goes(1000, BORDER, ROUND, None, To::All),
];

// So many neighbours at one place, heard with descending addresses. One more, which is nearer, is
// taken wherever its address stands; a nearer station that is no neighbour isn't.
const EQUAL: Point = (100, 60_000);

const NEARER: Point = (99, 60_000);

const OWN: Point = (50, 50_000);

const ONE_EQUAL: &[Row] = &[
    Row::HearsMany(FIRST + 1000, 1, EQUAL),
    Row::Goes(1000, OWN, EAST, None, To::One(FIRST + 1000)),
    Row::Hears(2000, FIRST + 2000, NEARER, false, None),
    Row::Hears(2000, FIRST + 3000, (0, 100_000), false, Some(0)),
    Row::Goes(2000, OWN, EAST, None, To::One(FIRST + 2000)),
];

const A_PIECE_EQUAL: &[Row] = &[
    Row::HearsMany(FIRST + 1000, 32, EQUAL),
    Row::Goes(1000, OWN, EAST, None, To::One(FIRST + 969)),
    Row::Hears(2000, FIRST + 2000, NEARER, false, None),
    Row::Hears(2000, FIRST + 3000, (0, 100_000), false, Some(0)),
    Row::Goes(2000, OWN, EAST, None, To::One(FIRST + 2000)),
];

const ONE_MORE_EQUAL: &[Row] = &[
    Row::HearsMany(FIRST + 1000, 33, EQUAL),
    Row::Goes(1000, OWN, EAST, None, To::One(FIRST + 968)),
    Row::Hears(2000, FIRST + 2000, NEARER, false, None),
    Row::Hears(2000, FIRST + 3000, (0, 100_000), false, Some(0)),
    Row::Goes(2000, OWN, EAST, None, To::One(FIRST + 2000)),
];

const TWO_PIECES_EQUAL: &[Row] = &[
    Row::HearsMany(FIRST + 1000, 65, EQUAL),
    Row::Goes(1000, OWN, EAST, None, To::One(FIRST + 936)),
    Row::Hears(2000, FIRST + 2000, NEARER, false, None),
    Row::Hears(2000, FIRST + 3000, (0, 100_000), false, Some(0)),
    Row::Goes(2000, OWN, EAST, None, To::One(FIRST + 2000)),
];

// A packet of the first station, from inside the area, whose place is accurate or isn't.
const FROM_INSIDE: &[Row] = &[
    Row::Hears(1000, FIRST, ORIGIN, true, Some(0)),
    Row::Goes(1000, FAR, WIDE, Some(FIRST), To::Nobody),
];

const FROM_NEARBY: &[Row] = &[
    Row::Hears(1000, FIRST, ORIGIN, false, Some(0)),
    Row::Goes(1000, FAR, WIDE, Some(FIRST), To::All),
];

// Two stations have the sender's link address: the one of least address is asked.
const LEAST_IS_NOT_ACCURATE: &[Row] = &[
    Row::Hears(1000, BELOW_FIRST, ORIGIN, false, Some(0)),
    Row::Hears(1000, FIRST, ORIGIN, true, Some(0)),
    Row::Goes(1000, FAR, WIDE, Some(FIRST), To::All),
];

const LEAST_IS_ACCURATE: &[Row] = &[
    Row::Hears(1000, BELOW_FIRST, ORIGIN, true, Some(0)),
    Row::Hears(1000, FIRST, ORIGIN, false, Some(0)),
    Row::Goes(1000, FAR, WIDE, Some(FIRST), To::Nobody),
];

/// Capacities, and rows.
static WORKED: [(u16, &[Row]); 10] = [
    (64, TWO_NEIGHBOURS),
    (64, INSIDE_AND_NO_PROGRESS),
    (100, ONE_EQUAL),
    (100, A_PIECE_EQUAL),
    (100, ONE_MORE_EQUAL),
    (100, TWO_PIECES_EQUAL),
    (64, FROM_INSIDE),
    (64, FROM_NEARBY),
    (64, LEAST_IS_NOT_ACCURATE),
    (64, LEAST_IS_ACCURATE),
];

#[test]
fn choices_over_both_tables(rt: HostRuntime) -> Result<(), Fail> {
    for (number, &(capacity, rows)) in WORKED.iter().enumerate() {
        let ordered = first_other::<OrderedTable>(rt.alloc(), capacity, rows)?;
        let sorted = first_other::<SortedTable>(rt.alloc(), capacity, rows)?;
        assert!(rt;
            (ordered, sorted) == (None, None),
            "{number}: {ordered:?} {sorted:?}"
        );
    }
    Ok(())
}
