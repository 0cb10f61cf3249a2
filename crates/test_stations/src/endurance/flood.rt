//! Beacons of far more sources than a table has room for.

use crate::fates::{Fate, fate_of};
use crate::stations::receiver;
use its_loctable::{LocationStore, OrderedTable, SortedTable};
use its_station::{Refused, Station};
use std::test::Fail;
use test_support::beacon_of_many;

const SOURCES: u16 = 10_000;

const FULL: Fate = Fate::Refused(Refused::TableFull);

/// The outcome of a beacon from one of the sources.
fn fate_of_source<S: LocationStore>(near: &mut Station<S>, now: u64, source: u16) -> Fate {
    fate_of(near, now, &beacon_of_many(source))
}

/// Whether the first 64 are accepted and the others are not, all at one time.
fn are_64_taken<S: LocationStore>(near: &mut Station<S>) -> bool {
    for source in 0..SOURCES {
        let want = if source < 64 { Fate::Kept } else { FULL };
        if fate_of_source(near, 1000, source) != want {
            return false;
        }
    }
    true
}

/// Whether these keep their places, and others have room once they expired.
fn keep_their_places<S: LocationStore>(near: &mut Station<S>) -> bool {
    fate_of_source(near, 1001, 63) == Fate::Kept
        && fate_of_source(near, 20_999, 64) == FULL
        && fate_of_source(near, 21_000, 64) == Fate::Kept
}

fn withstands<S: LocationStore>(mut near: Station<S>) -> bool {
    are_64_taken(&mut near) && keep_their_places(&mut near)
}

#[test]
fn floods_over_both_tables(rt: HostRuntime) -> Result<(), Fail> {
    assert!(rt; withstands(receiver::<OrderedTable>(rt.alloc())?));
    assert!(rt; withstands(receiver::<SortedTable>(rt.alloc())?));
    Ok(())
}
