//! The nearest neighbour to a place: what a table finds, and how often a choice walks over the
//! neighbours of a table by pieces.

ghost use Rattle.std.specs.Prelude.{◌≤◌, ◌^◌};

use crate::table::fixtures::{accept, store_of};
use its_forwarding::{Choice, choose, choose_outside};
use its_geometry::{Area, contains};
use its_gnvalue::{GnAddress, LongPv, Mac, NoMemory, Place};
use its_loctable::{
    Heard, Known, LocationStore, NearestSearch, OrderedTable, Piece, SortedTable, StoreRefused,
    Verdict,
};
use std::alloc::Global;
use std::cell::Cell;
use std::test::Fail;
use test_support::{FIRST, SECOND, THIRD};

/// A table, and how many pieces of its neighbours were asked for.
#[derive(Drop)]
struct Counted<S> {
    table: S,
    pieces: Cell<u32>,
}

impl<S: LocationStore> LocationStore for Counted<S> {
    ghost content = { λ counted. S.content counted.table };

    ghost limit = { λ counted. S.limit counted.table };

    ghost remember = { λ counted. S.remember counted.table };

    fn empty(alloc: Global, capacity: u16, remembered: u8) -> Result<Self, NoMemory> {
        let table = S::empty(alloc, capacity, remembered)?;
        Ok(Counted {
            table,
            pieces: Cell::new(0),
        })
    }

    fn clear(&mut self) {
        self.table.clear();
    }

    fn capacity(&self) -> u16 {
        self.table.capacity()
    }

    fn lookup(&self, now: u64, a: GnAddress) -> Option<Known> {
        self.table.lookup(now, a)
    }

    fn remembers(&self, now: u64, a: GnAddress, number: u16) -> bool {
        self.table.remembers(now, a, number)
    }

    fn has_room(&self, now: u64, a: GnAddress) -> bool {
        self.table.has_room(now, a)
    }

    fn accept(&mut self, now: u64, h: &Heard) -> Result<Verdict, StoreRefused> {
        self.table.accept(now, h)
    }

    fn next_neighbour(&self, now: u64, after: Option<GnAddress>) -> Option<LongPv> {
        self.table.next_neighbour(now, after)
    }

    fn next_neighbours(&self, now: u64, after: Option<GnAddress>, piece: &mut Piece) {
        self.pieces.set(self.pieces.get().wrapping_add(1));
        self.table.next_neighbours(now, after, piece);
    }

    fn keep_nearest(&mut self, now: u64, centre: Place) -> NearestSearch {
        self.table.keep_nearest(now, centre)
    }

    fn nearest(&self, now: u64, centre: Place) -> NearestSearch {
        self.table.nearest(now, centre)
    }

    fn by_mid(&self, now: u64, mid: Mac) -> Option<Known> {
        self.table.by_mid(now, mid)
    }
}

/// What a table finds.
#[derive(Clone, Copy, PartialEq, Eq)]
enum Finds {
    Unknown,
    NoNeighbour,
    /// The neighbour with this address.
    One(u64),
}

/// What is done with a table, or asked of it.
#[derive(Clone, Copy)]
enum Row {
    /// A packet of a station at a latitude is accepted: a GBC if there is a number, otherwise a
    /// BEACON.
    Hears(u32, u64, i32, Option<u16>),
    /// What is the nearest neighbour to a latitude?
    Asks(u32, i32, Finds),
}

fn place_at(latitude: i32) -> Option<Place> {
    Place::new(latitude, 0).ok()
}

fn hears<S: LocationStore>(
    store: &mut S,
    now: u32,
    address: u64,
    latitude: i32,
    number: Option<u16>,
) -> Option<bool> {
    let address = GnAddress::from_u64(address).ok()?;
    let vector = LongPv::new(address, now, place_at(latitude)?, false, 0, 0).ok()?;
    let heard = Heard::new(vector, number);
    Some(accept(store, u64::from(now), &heard) == Ok(Verdict::Accepted))
}

/// What a table finds by itself, then what it keeps, and then what it finds by what it has kept.
fn searches<S: LocationStore>(store: &mut S, now: u64, centre: Place) -> [NearestSearch; 3]
    requires { now ≤ 2 ^ 62 }
{
    [
        store.nearest(now, centre),
        store.keep_nearest(now, centre),
        store.nearest(now, centre),
    ]
}

fn what_is_found(search: NearestSearch) -> Finds {
    match search {
        NearestSearch::Unknown => Finds::Unknown,
        NearestSearch::NoNeighbour => Finds::NoNeighbour,
        NearestSearch::Found(neighbour) => Finds::One(neighbour.address.as_u64()),
    }
}

fn holds<S: LocationStore>(store: &mut S, row: Row) -> Option<bool> {
    match row {
        Row::Hears(now, address, latitude, number) => hears(store, now, address, latitude, number),
        Row::Asks(now, latitude, wanted) => {
            let [first, kept, again] = searches(store, u64::from(now), place_at(latitude)?);
            Some(
                what_is_found(first) == wanted
                    && what_is_found(kept) == wanted
                    && what_is_found(again) == wanted,
            )
        }
    }
}

/// The number, from 0, of the first row that comes out otherwise over a new table.
fn first_other<S: LocationStore>(
    alloc: Global,
    rows: &[Row],
) -> Result<Option<usize>, &'static str> {
    let mut store = store_of::<S>(alloc, 8, 8).ok_or("no such table")?;
    for (number, row) in rows.iter().enumerate() {
        if holds(&mut store, *row) != Some(true) {
            return Ok(Some(number));
        }
    }
    Ok(None)
}

/// The first neighbour arrives after the table kept that it has no neighbour. Later neighbours move
/// away, or expire with no packet after them.
const SORTED: &[Row] = &[
    Row::Asks(0, 0, Finds::NoNeighbour),
    Row::Hears(1000, FIRST, 500, Some(1)),
    Row::Asks(1000, 0, Finds::NoNeighbour),
    Row::Hears(1000, SECOND, 900, None),
    Row::Asks(1000, 0, Finds::One(SECOND)),
    Row::Hears(1001, THIRD, 800, None),
    Row::Asks(1001, 0, Finds::One(THIRD)),
    Row::Asks(1001, 1000, Finds::One(SECOND)),
    Row::Asks(1001, 0, Finds::One(THIRD)),
    Row::Hears(2000, THIRD, 990, None),
    Row::Asks(2000, 0, Finds::One(SECOND)),
    Row::Asks(20_999, 0, Finds::One(SECOND)),
    Row::Asks(21_000, 0, Finds::One(THIRD)),
    Row::Asks(22_000, 0, Finds::NoNeighbour),
    Row::Asks(21_999, 0, Finds::One(THIRD)),
    Row::Asks(22_000, 0, Finds::NoNeighbour),
    Row::Hears(30_000, FIRST, 400, None),
    Row::Asks(30_000, 0, Finds::One(FIRST)),
];

/// A table that keeps no neighbour.
const ORDERED: &[Row] = &[
    Row::Asks(0, 0, Finds::Unknown),
    Row::Hears(1000, FIRST, 500, None),
    Row::Asks(1000, 0, Finds::Unknown),
];

#[test]
fn a_table_knows_the_nearest_neighbour_or_that_there_is_none(rt: HostRuntime) -> Result<(), Fail> {
    assert_eq!(rt; first_other::<SortedTable>(rt.alloc(), SORTED)?, None);
    assert_eq!(rt; first_other::<OrderedTable>(rt.alloc(), ORDERED)?, None);
    Ok(())
}

/// To whom a packet for an area goes from the origin.
fn choice<S: LocationStore>(store: &S, now: u64, area: &Area) -> Option<Choice>
    requires { now ≤ 2 ^ 62 }
{
    Some(choose(store, now, place_at(0)?, area, None))
}

/// To whom a packet for an area goes from the origin, which the area doesn't hold. The table keeps the
/// nearest neighbour.
fn kept_choice<S: LocationStore>(store: &mut S, now: u64, area: &Area) -> Option<Choice>
    requires { now ≤ 2 ^ 62 }
{
    let own = place_at(0)?;
    if contains(area, own) {
        return None;
    }
    Some(choose_outside(store, now, own, area, None))
}

/// How many pieces of neighbours two choices for an area elsewhere asked for: over a table with no
/// neighbour, with one, and after this has expired. A walk over so few takes one piece.
fn pieces<S: LocationStore>(alloc: Global) -> Option<[u32; 3]> {
    let area = Area::circle(place_at(100_000)?, 10).ok()?;
    let mut store = store_of::<Counted<S>>(alloc, 8, 8)?;
    let none = Some(Choice::Broadcast);
    if kept_choice(&mut store, 0, &area) != none || choice(&store, 0, &area) != none {
        return None;
    }
    let without = store.pieces.replace(0);
    if hears(&mut store, 1000, FIRST, 50_000, None) != Some(true) {
        return None;
    }
    let one = Some(Choice::To(GnAddress::from_u64(FIRST).ok()?.mid()));
    if kept_choice(&mut store, 1000, &area) != one || choice(&store, 1000, &area) != one {
        return None;
    }
    let with = store.pieces.replace(0);
    if kept_choice(&mut store, 21_000, &area) != none || choice(&store, 21_000, &area) != none {
        return None;
    }
    Some([without, with, store.pieces.get()])
}

#[test]
fn a_choice_walks_by_pieces_only_if_the_table_does_not_know(rt: HostRuntime) {
    assert_eq!(rt; pieces::<SortedTable>(rt.alloc()), Some([0, 0, 0]));
    assert_eq!(rt; pieces::<OrderedTable>(rt.alloc()), Some([2, 2, 2]));
}
