//! Walks over neighbours by pieces, and choices over them, where a piece is just not full, full and
//! more than full: over either table.

ghost use Rattle.std.specs.Prelude.{◌≤◌, ◌^◌};

use crate::table::fixtures::{accept, choice, heard, store_of};
use its_forwarding::Choice;
use its_geometry::{Area, Centre, Nearer};
use its_gnvalue::{GnAddress, Place};
use its_loctable::{LocationStore, OrderedTable, Piece, SortedTable};
use std::alloc::Global;
use std::test::Fail;
use test_support::FIRST;

/// The moment at which most neighbours are heard.
const NOW: u64 = 1000;

/// The last moment at which these are live.
const LATE: u64 = 20_999;

/// An index that no neighbour has.
const NONE: u16 = 9999;

/// The address of a neighbour. Above each stands one of no neighbour.
fn address_of(index: u16) -> Option<GnAddress> {
    GnAddress::from_u64(FIRST + 2 * u64::from(index)).ok()
}

/// The address above that of a neighbour.
fn address_above(index: u16) -> Option<GnAddress> {
    GnAddress::from_u64(FIRST + 2 * u64::from(index) + 1).ok()
}

/// The place of a neighbour, each another.
fn place_of(index: u16) -> Option<Place> {
    Place::new(10 * i32::from(index), 0).ok()
}

/// Whether a station is heard, a neighbour by a beacon, another by a geobroadcast.
fn hears<S: LocationStore>(
    store: &mut S,
    now: u64,
    address: GnAddress,
    place: Place,
    number: Option<u16>,
) -> bool
    requires { now ≤ 2 ^ 62 }
{
    match heard(address, place, false, number) {
        Some(heard) => accept(store, now, &heard).is_ok(),
        None => false,
    }
}

/// Fills a piece, with nothing promised, as the fixtures.
fn fill<S: LocationStore>(store: &S, now: u64, after: Option<GnAddress>, piece: &mut Piece)
    requires { now ≤ 2 ^ 62 }
{
    store.next_neighbours(now, after, piece);
}

/// Whether a neighbour and a source above it are heard.
fn hears_both<S: LocationStore>(store: &mut S, now: u64, index: u16) -> Option<bool>
    requires { now ≤ 2 ^ 62 }
{
    let place = place_of(index)?;
    Some(
        hears(store, now, address_of(index)?, place, None)
            && hears(store, NOW, address_above(index)?, place, Some(0)),
    )
}

/// A table of so many neighbours, heard by descending address, with as many other sources between
/// them. The neighbour of one index is heard a moment earlier.
fn table_of<S: LocationStore>(alloc: Global, count: u16, earlier: u16) -> Option<S> {
    let mut store = store_of(alloc, 200, 1)?;
    for index in (0..count).rev() {
        let now = if index == earlier { NOW - 1 } else { NOW };
        if hears_both(&mut store, now, index) != Some(true) {
            return None;
        }
    }
    Some(store)
}

/// Whether the address and the place of a neighbour of a piece, counted from 0, are those of an
/// index.
fn is_at(piece: &Piece, place: usize, index: u16) -> bool {
    let (address, stands) = (piece.addresses().get(place), piece.places().get(place));
    address.copied() == address_of(index) && stands.copied() == place_of(index)
}

/// Whether the piece holds the neighbours of the indices from one up to another, without one, and
/// names the last one where it is full.
fn holds(piece: &Piece, from: u16, until: u16, without: u16) -> bool {
    let mut count = 0usize;
    let mut last = None;
    for index in from..until {
        if index != without {
            if !is_at(piece, count, index) {
                return false;
            }
            count = count.saturating_add(1);
            last = address_of(index);
        }
    }
    let last = if count == 32 { last } else { None };
    let sizes = (piece.addresses().len(), piece.places().len());
    sizes == (count, count) && piece.last() == last
}

/// Whether the pieces of a walk over so many neighbours, in one piece that is filled again and
/// again, hold them: none of an earlier filling is left.
fn is_walked<S: LocationStore>(alloc: Global, count: u16) -> Option<bool> {
    let store = table_of::<S>(alloc, count, NONE)?;
    let mut piece = Piece::empty();
    let mut after = None;
    for k in 0..4u16 {
        let (from, until) = (count.min(32 * k), count.min(32 * k + 32));
        fill(&store, LATE, after, &mut piece);
        if !holds(&piece, from, until, NONE) {
            return Some(false);
        }
        after = piece.last();
        if after.is_none() {
            return Some(until == count && until < 32 * k + 32);
        }
    }
    Some(false)
}

/// A time, the address above which a piece is filled, and the indices that the piece then holds:
/// from the first up to the second, without the third.
type Filling = (u64, Option<GnAddress>, (u16, u16, u16));

/// Whether an expired neighbour is skipped, and the next one fills the piece. Above an address are
/// the neighbours that follow it, whether or not it is that of a neighbour.
fn is_passed_over<S: LocationStore>(alloc: Global) -> Option<bool> {
    let store = table_of::<S>(alloc, 40, 5)?;
    let fillings: [Filling; 4] = [
        (LATE, None, (0, 33, 5)),
        (LATE - 1, Some(address_of(3)?), (4, 36, NONE)),
        (LATE, Some(address_above(8)?), (9, 40, NONE)),
        (LATE + 1, None, (0, 0, NONE)),
    ];
    let mut piece = Piece::empty();
    for (now, after, (from, until, without)) in fillings {
        if now > LATE + 1 {
            return None;
        }
        fill(&store, now, after, &mut piece);
        if !holds(&piece, from, until, without) {
            return Some(false);
        }
    }
    Some(true)
}

#[test]
fn walks_by_pieces_over_both_tables(rt: HostRuntime) {
    for count in [0, 1, 31, 32, 33, 64, 65] {
        let ordered = is_walked::<OrderedTable>(rt.alloc(), count);
        let sorted = is_walked::<SortedTable>(rt.alloc(), count);
        assert_eq!(rt; (ordered, sorted), (Some(true), Some(true)), "{count}");
    }
    let ordered = is_passed_over::<OrderedTable>(rt.alloc());
    let sorted = is_passed_over::<SortedTable>(rt.alloc());
    assert_eq!(rt; (ordered, sorted), (Some(true), Some(true)));
}

/// A table of `count` neighbours at one position, except for two, which are nearer.
fn near_two<S: LocationStore>(alloc: Global, count: u16, first: u16, second: u16) -> Option<S> {
    let mut store = store_of(alloc, 100, 1)?;
    for index in 0..count {
        let east = if index == first || index == second {
            70_000
        } else {
            60_000
        };
        let place = Place::new(0, east).ok()?;
        if !hears(&mut store, NOW, address_of(index)?, place, None) {
            return None;
        }
    }
    Some(store)
}

/// Whether the first of two nearer neighbours, which are equally near, is chosen among `count`, in
/// whichever pieces they are.
fn is_nearer<S: LocationStore>(alloc: Global, count: u16, first: u16, second: u16) -> Option<bool> {
    let store = near_two::<S>(alloc, count, first, second)?;
    let area = Area::circle(Place::new(0, 100_000).ok()?, 10).ok()?;
    let found = choice(&store, NOW, Place::new(0, 0).ok()?, &area, None);
    Some(found == Choice::To(address_of(first)?.mid()))
}

/// How many neighbours there are, and which two are nearer.
static NEARER_TWO: [(u16, u16, u16); 10] = [
    (31, 0, 30),
    (31, 30, NONE),
    (32, 0, 31),
    (32, 31, NONE),
    (33, 0, 32),
    (33, 31, 32),
    (33, 32, NONE),
    (65, 31, 64),
    (65, 32, 64),
    (65, 64, NONE),
];

#[test]
fn choices_by_pieces_over_both_tables(rt: HostRuntime) {
    for &(count, first, second) in &NEARER_TWO {
        let ordered = is_nearer::<OrderedTable>(rt.alloc(), count, first, second);
        let sorted = is_nearer::<SortedTable>(rt.alloc(), count, first, second);
        assert_eq!(rt;
            (ordered, sorted),
            (Some(true), Some(true)),
            "{first} of {count}"
        );
    }
}

/// The first of the nearest positions counts. Later positions count only if they are nearer.
fn nearest() -> Option<[Option<usize>; 4]> {
    let (far, near) = (Place::new(0, 3000).ok()?, Place::new(0, 2000).ok()?);
    let (as_near, nearest) = (Place::new(0, -2000).ok()?, Place::new(0, 1000).ok()?);
    let mut nearer = Nearer::than(Centre::new(Place::new(0, 0).ok()?), u64::MAX);
    Some([
        nearer.take_nearest(&[]),
        nearer.take_nearest(&[far, near, as_near, far]),
        nearer.take_nearest(&[as_near, far]),
        nearer.take_nearest(&[near, far, nearest]),
    ])
}

#[test]
fn nearest_of_places_that_come_in_pieces(rt: HostRuntime) {
    assert_eq!(rt; nearest(), Some([None, Some(1), None, Some(2)]));
}

/// A piece that is filled by hand.
#[test]
fn piece_by_hand(rt: HostRuntime) -> Result<(), Fail> {
    let (address, place) = (address_of(3).ok_or("address")?, place_of(3).ok_or("place")?);
    let mut piece = Piece::empty();
    assert!(rt; holds(&piece, 0, 0, NONE));
    piece.push(address, place);
    assert!(rt; holds(&piece, 3, 4, NONE));
    piece.clear();
    assert!(rt; holds(&piece, 0, 0, NONE));
    Ok(())
}
