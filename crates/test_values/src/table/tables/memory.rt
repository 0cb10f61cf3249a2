//! Allocations that fail: each in turn, and what the table knows then.

ghost use Rattle.std.specs.Prelude.{◌≤◌};

use super::rows::Row::{Packet, Unknown};
use super::rows::{ACCEPTED, DUPLICATE, FULL, Row, first_other};
use super::{FIRST, LookUps, Request, heard_at, look_up_all};
use crate::table::fixtures::{accept, store_of};
use its_duplicates::Recent;
use its_gnvalue::GnAddress;
use its_loctable::{Heard, LocationStore, OrderedTable, SortedTable, StoreRefused, Verdict};
use std::alloc::Global;
use test_support::{STEP, Shortage};

/// The first source that isn't among those that were taken in.
const OTHER: u64 = FIRST + 1000;

/// More budgets than any call here needs.
const MANY: usize = 1000;

/// More budgets than a list of eight numbers needs, and fewer than the allocation of a map.
const A_GROWTH: usize = 8;

/// What a source with one number takes: its slot, its address beside it, its number, and its row
/// where that is free.
const A_SOURCE: usize = 48 + 8 + 2 + 2;

/// What an allocation costs at most beside its octets.
const AN_ALLOCATION: usize = 32;

/// What is looked up of a source.
fn request_of(address: u64) -> Option<Request> {
    Some(Request {
        address: GnAddress::from_u64(address).ok()?,
        number: 9,
        after: None,
    })
}

/// What is known at 2000 of the first source and of the other.
fn known<S: LocationStore>(store: &S) -> Option<[LookUps; 2]> {
    let (first, other) = (request_of(FIRST)?, request_of(OTHER)?);
    Some([
        look_up_all(store, 2000, &first),
        look_up_all(store, 2000, &other),
    ])
}

/// Packets of the first source and of the other.
#[derive(Clone, Copy)]
struct Packets {
    first: Heard,
    other: Heard,
}

fn packets_of_both() -> Option<Packets> {
    Some(Packets {
        first: heard_at(FIRST, Some(7))?,
        other: heard_at(OTHER, Some(9))?,
    })
}

/// How many budgets of 0, 16, 32, .. octets are too small for the other source. Under each, a
/// duplicate of a live first source is still found, and all look-ups are as before. `None` for any
/// other result.
fn refused_budgets<S: LocationStore>(
    shortage: &mut Shortage,
    store: &mut S,
    packets: &Packets,
) -> Option<usize> {
    let before = known(store)?;
    for step in 0..MANY {
        if !shortage.leave(STEP * step) {
            return None;
        }
        if before[0].known.is_some() && accept(store, 2000, &packets.first) != DUPLICATE {
            return None;
        }
        match accept(store, 2000, &packets.other) {
            Ok(Verdict::Accepted) => return Some(step),
            Err(StoreRefused::NoMemory) if known(store)? == before => {}
            _ => return None,
        }
    }
    Some(MANY)
}

/// Takes in as many sources, each with a number and then as a neighbour. Whether all are.
fn take_in<S: LocationStore>(store: &mut S, sources: u16) -> bool {
    for source in 0..sources {
        let rows = [
            Packet(1000, source, Some(7), ACCEPTED),
            Packet(1000, source, None, ACCEPTED),
        ];
        if first_other(store, &rows).is_some() {
            return false;
        }
    }
    true
}

/// How many budgets are too small for one more source, after as many were taken in.
fn refused_after(alloc: Global, sources: u16) -> Option<usize> {
    let mut store = store_of::<OrderedTable>(alloc, 100, 8)?;
    if !take_in(&mut store, sources) {
        return None;
    }
    let packets = packets_of_both()?;
    let mut shortage = Shortage::new(alloc).ok()?;
    refused_budgets(&mut shortage, &mut store, &packets)
}

/// Whether more budgets than one number and fewer than another are too small.
fn is_between(least: usize, budgets: Option<usize>, most: usize) -> bool {
    match budgets {
        Some(budgets) => least < budgets && budgets < most,
        None => false,
    }
}

/// Whether the map grew for the source: with the list of its numbers alone fewer budgets are too
/// small.
fn is_of_a_growth(budgets: Option<usize>) -> bool {
    is_between(A_GROWTH, budgets, MANY)
}

/// An empty map takes memory for its first nine sources, and then doubles.
#[test]
fn the_first_source_is_refused_at_each_allocation(rt: HostRuntime) {
    assert!(rt; is_of_a_growth(refused_after(rt.alloc(), 0)));
}

/// Where the map has room, only the source's list of numbers takes memory.
#[test]
fn the_second_source_is_refused_at_its_allocation(rt: HostRuntime) {
    assert!(rt; is_between(0, refused_after(rt.alloc(), 1), A_GROWTH));
}

/// With nine sources the map is full.
#[test]
fn the_tenth_source_is_refused_at_each_allocation(rt: HostRuntime) {
    assert!(rt; is_of_a_growth(refused_after(rt.alloc(), 9)));
}

#[test]
fn the_nineteenth_source_is_refused_at_each_allocation(rt: HostRuntime) {
    assert!(rt; is_of_a_growth(refused_after(rt.alloc(), 18)));
}

#[test]
fn the_thirty_seventh_source_is_refused_at_each_allocation(rt: HostRuntime) {
    assert!(rt; is_of_a_growth(refused_after(rt.alloc(), 36)));
}

#[test]
fn the_seventy_third_source_is_refused_at_each_allocation(rt: HostRuntime) {
    assert!(rt; is_of_a_growth(refused_after(rt.alloc(), 72)));
}

/// Four sources, of which the first and the third have expired at 21000.
static FOUR: [Row; 4] = [
    Packet(1000, 0, Some(7), ACCEPTED),
    Packet(1000, 2, None, ACCEPTED),
    Packet(15_000, 1, Some(7), ACCEPTED),
    Packet(15_000, 3, None, ACCEPTED),
];

/// What a table of these four answers from 21000 on: two expired sources make room for a new one
/// and for one of their own, and then there is no room.
static ANSWERS: [Row; 7] = [
    Packet(21_000, 1, Some(7), DUPLICATE),
    Packet(21_000, 1000, Some(9), ACCEPTED),
    Packet(21_000, 0, Some(7), ACCEPTED),
    Packet(21_001, 2, None, FULL),
    Packet(21_001, 1000, None, ACCEPTED),
    Packet(34_999, 3, Some(1), ACCEPTED),
    Packet(35_000, 1, Some(7), ACCEPTED),
];

/// Whether two tables know the same of a source at 35000.
fn know_the_same(one: &SortedTable, other: &OrderedTable, address: u64) -> bool {
    let Some(request) = request_of(address) else {
        return false;
    };
    look_up_all(one, 35_000, &request) == look_up_all(other, 35_000, &request)
}

/// With no memory left a table refreshes, refuses, sweeps and inserts as one with ample memory.
/// Whether it knows the same as that of all sources, and is cleared without memory.
fn takes_no_memory(alloc: Global) -> Option<bool> {
    let mut store = store_of::<SortedTable>(alloc, 4, 8)?;
    let mut ample = store_of::<OrderedTable>(alloc, 4, 8)?;
    let is_begun = first_other(&mut store, &FOUR).is_none();
    let is_ample = first_other(&mut ample, &FOUR)
        .or(first_other(&mut ample, &ANSWERS))
        .is_none();
    let mut shortage = Shortage::new(alloc).ok()?;
    let is_left = shortage.leave(0);
    let is_answered = first_other(&mut store, &ANSWERS).is_none();
    let mut is_known = true;
    for address in [FIRST, FIRST + 1, FIRST + 2, FIRST + 3, OTHER] {
        is_known = is_known && know_the_same(&store, &ample, address);
    }
    let again = [Row::Clear, Packet(40_000, 0, Some(7), ACCEPTED)];
    let is_cleared = first_other(&mut store, &again).is_none();
    Some(is_begun && is_ample && is_left && is_answered && is_known && is_cleared)
}

#[test]
fn the_sorted_table_takes_no_memory(rt: HostRuntime) {
    assert_eq!(rt; takes_no_memory(rt.alloc()), Some(true));
}

/// How many budgets of 0, 16, 32, .. octets are too small for a table in order of addresses, which
/// takes all its memory when it is made: for its slots, for all numbers and for the rows that are
/// free. `None` where a budget could not be left.
fn refused_tables(alloc: Global) -> Option<usize> {
    let mut shortage = Shortage::new(alloc).ok()?;
    for step in 0..MANY {
        if !shortage.leave(STEP * step) {
            return None;
        }
        if store_of::<SortedTable>(alloc, 4, 8).is_some() {
            return Some(step);
        }
    }
    Some(MANY)
}

#[test]
fn a_sorted_table_is_refused_at_each_allocation(rt: HostRuntime) {
    assert!(rt; is_of_a_growth(refused_tables(rt.alloc())));
}

/// The capacity of a table that is made with a budget of so many octets, and with room for 1000
/// sources.
fn capacity_of_large(alloc: Global, octets: usize) -> Option<u16> {
    let mut shortage = Shortage::new(alloc).ok()?;
    if !shortage.leave(octets) {
        return None;
    }
    Some(store_of::<SortedTable>(alloc, 1000, 1)?.capacity())
}

/// As many allocations do for any capacity: what the slots, rows and numbers of 1000 sources take,
/// and what six allocations cost beside it, is budget enough.
#[test]
fn a_sorted_table_is_made_by_at_most_six_allocations(rt: HostRuntime) {
    let octets = 1000 * A_SOURCE + 6 * AN_ALLOCATION;
    assert_eq!(rt; capacity_of_large(rt.alloc(), octets), Some(1000));
}

/// The first row of a table in a map that comes out otherwise where there is no memory left; its
/// number, from 0, is one behind the last where none does.
fn first_other_without_memory(alloc: Global, rows: &[Row]) -> Option<usize> {
    let mut shortage = Shortage::new(alloc).ok()?;
    if !shortage.leave(0) {
        return None;
    }
    let mut store = store_of::<OrderedTable>(alloc, 4, 8)?;
    Some(first_other(&mut store, rows).unwrap_or(rows.len()))
}

/// What a table in a map without memory answers.
static WITHOUT_MEMORY: [Row; 4] = [
    Packet(0, 0, None, Err(StoreRefused::NoMemory)),
    Row::Clear,
    Row::Capacity(4),
    Unknown(0, (0, 1)),
];

/// A table in a map takes none: it is made with no memory left.
#[test]
fn a_map_is_made_without_memory(rt: HostRuntime) {
    assert_eq!(rt;
        first_other_without_memory(rt.alloc(), &WITHOUT_MEMORY),
        Some(4)
    );
}

/// How many budgets are too small for a list, which takes memory when it is made, and none for a
/// number; `None` where a budget could not be left, or the list doesn't hold its number.
fn refused_lists(alloc: Global) -> Option<usize> {
    let mut shortage = Shortage::new(alloc).ok()?;
    for step in 0..MANY {
        if !shortage.leave(STEP * step) {
            return None;
        }
        if let Ok(mut recent) = Recent::new(alloc, 64) {
            recent.note(7);
            return if recent.holds(7) { Some(step) } else { None };
        }
    }
    Some(MANY)
}

#[test]
fn a_list_is_refused_at_its_allocation(rt: HostRuntime) {
    assert!(rt; is_between(0, refused_lists(rt.alloc()), MANY));
}
