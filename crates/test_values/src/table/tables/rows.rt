//! Packets and look-ups of a table as rows, each with its expected result. A test made of such rows
//! holds no table, so its own proof is short.

use super::{FIRST, LookUps, Request, has_room, heard_at, look_up_all, lookup, remembers};
use crate::table::fixtures::{accept, store_of};
use its_gnvalue::GnAddress;
use its_loctable::{Heard, LocationStore, StoreRefused, Verdict};
use std::alloc::Global;

/// The outcome of a packet.
type Answer = Result<Verdict, StoreRefused>;

pub(super) const ACCEPTED: Answer = Ok(Verdict::Accepted);

pub(super) const DUPLICATE: Answer = Ok(Verdict::Duplicate);

pub(super) const FULL: Answer = Err(StoreRefused::Full);

/// Numbers from the first up to the second, without that.
pub(super) type Range = (u16, u16);

/// A row: a time, sources, counted from the first, and the expected result of their packets or
/// look-ups.
#[derive(Clone, Copy)]
pub(super) enum Row {
    /// A packet of a source: a GBC if there is a number, and a BEACON otherwise.
    Packet(u32, u16, Option<u16>, Answer),
    /// A packet of each of these sources, in order.
    Sources(u32, Range, Option<u16>, Answer),
    /// A packet with each of these numbers of a source.
    Numbers(u32, u16, Range, Answer),
    /// For each of these numbers, a packet of one source with it, and a packet of the next source
    /// with it plus 1000. All are accepted.
    SideBySide(u32, u16, Range),
    /// Whether a source would find room.
    HasRoom(u32, u16, bool),
    /// None of these sources is live.
    Unknown(u32, Range),
    /// Whether each of these numbers of a source is remembered.
    Remembers(u32, u16, Range, bool),
    /// Whether this number of each of these sources is remembered.
    AllRemember(u32, Range, u16, bool),
    /// A source isn't known, nor anyone else.
    Nobody(u32, u16),
    /// The table has this capacity.
    Capacity(u16),
    /// The table is cleared.
    Clear,
}

fn heard(source: u16, number: Option<u16>) -> Option<Heard> {
    heard_at(FIRST + u64::from(source), number)
}

fn address_of(source: u16) -> Option<GnAddress> {
    GnAddress::from_u64(FIRST + u64::from(source)).ok()
}

/// Whether a packet has this outcome.
fn is_answered<S: LocationStore>(
    store: &mut S,
    now: u32,
    source: u16,
    number: Option<u16>,
    want: Answer,
) -> bool {
    match heard(source, number) {
        Some(heard) => accept(store, u64::from(now), &heard) == want,
        None => false,
    }
}

fn are_sources<S: LocationStore>(
    store: &mut S,
    now: u32,
    sources: Range,
    number: Option<u16>,
    want: Answer,
) -> bool {
    for source in sources.0..sources.1 {
        if !is_answered(store, now, source, number, want) {
            return false;
        }
    }
    true
}

fn are_numbers<S: LocationStore>(
    store: &mut S,
    now: u32,
    source: u16,
    numbers: Range,
    want: Answer,
) -> bool {
    for number in numbers.0..numbers.1 {
        if !is_answered(store, now, source, Some(number), want) {
            return false;
        }
    }
    true
}

fn are_side_by_side<S: LocationStore>(
    store: &mut S,
    now: u32,
    source: u16,
    numbers: Range,
) -> bool {
    for number in numbers.0..numbers.1 {
        let (next, greater) = (source.saturating_add(1), number.saturating_add(1000));
        if !is_answered(store, now, source, Some(number), ACCEPTED)
            || !is_answered(store, now, next, Some(greater), ACCEPTED)
        {
            return false;
        }
    }
    true
}

fn are_unknown<S: LocationStore>(store: &S, now: u32, sources: Range) -> bool {
    for source in sources.0..sources.1 {
        match address_of(source) {
            Some(address) if lookup(store, u64::from(now), address).is_none() => {}
            _ => return false,
        }
    }
    true
}

/// Whether a number of a source is remembered.
fn is_remembered<S: LocationStore>(store: &S, now: u32, source: u16, number: u16) -> Option<bool> {
    Some(remembers(store, u64::from(now), address_of(source)?, number))
}

fn do_remember<S: LocationStore>(
    store: &S,
    now: u32,
    sources: Range,
    numbers: Range,
    want: bool,
) -> bool {
    for source in sources.0..sources.1 {
        for number in numbers.0..numbers.1 {
            if is_remembered(store, now, source, number) != Some(want) {
                return false;
            }
        }
    }
    true
}

fn is_nobody<S: LocationStore>(store: &S, now: u32, source: u16) -> bool {
    let Some(address) = address_of(source) else {
        return false;
    };
    let request = Request {
        address,
        number: 0,
        after: None,
    };
    let nobody = LookUps {
        known: None,
        is_remembered: false,
        has_room: true,
        next: None,
        by_mid: None,
    };
    look_up_all(store, u64::from(now), &request) == nobody
}

fn holds<S: LocationStore>(store: &mut S, row: Row) -> bool {
    match row {
        Row::Packet(now, source, number, want) => is_answered(store, now, source, number, want),
        Row::Sources(now, sources, number, want) => are_sources(store, now, sources, number, want),
        Row::Numbers(now, source, numbers, want) => are_numbers(store, now, source, numbers, want),
        Row::SideBySide(now, source, numbers) => are_side_by_side(store, now, source, numbers),
        Row::HasRoom(now, source, want) => match address_of(source) {
            Some(address) => has_room(store, u64::from(now), address) == want,
            None => false,
        },
        Row::Unknown(now, sources) => are_unknown(store, now, sources),
        Row::Remembers(now, source, numbers, want) => {
            do_remember(
                store,
                now,
                (source, source.saturating_add(1)),
                numbers,
                want,
            )
        }
        Row::AllRemember(now, sources, number, want) => {
            do_remember(
                store,
                now,
                sources,
                (number, number.saturating_add(1)),
                want,
            )
        }
        Row::Nobody(now, source) => is_nobody(store, now, source),
        Row::Capacity(want) => store.capacity() == want,
        Row::Clear => {
            store.clear();
            true
        }
    }
}

/// The number, from 0, of the first row that comes out otherwise; `None` where all come out so.
pub(super) fn first_other<S: LocationStore>(store: &mut S, rows: &[Row]) -> Option<usize> {
    for (number, row) in rows.iter().enumerate() {
        if !holds(store, *row) {
            return Some(number);
        }
    }
    None
}

/// The same over a new table of this capacity, which remembers so many numbers. An error says that
/// there is no such table.
pub(super) fn first_other_of<S: LocationStore>(
    alloc: Global,
    capacity: u16,
    remember: u8,
    rows: &[Row],
) -> Result<Option<usize>, &'static str> {
    let mut store = store_of::<S>(alloc, capacity, remember).ok_or("no such table")?;
    Ok(first_other(&mut store, rows))
}
