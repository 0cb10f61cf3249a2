//! Worked rows: their results are expected of a table in the order of addresses and of one in a
//! map.

use super::rows::Row::{
    AllRemember, Capacity, Clear, HasRoom, Nobody, Numbers, Packet, Remembers, SideBySide, Sources,
    Unknown,
};
use super::rows::{ACCEPTED, DUPLICATE, FULL, Row, first_other_of};
use its_loctable::{OrderedTable, SortedTable};
use std::test::Fail;

/// A capacity, the length of the duplicate packet list, and the rows.
type Worked = (u16, u8, &'static [Row]);

/// In a table with one entry, the first source keeps it until it expires.
const ONE_PLACE: &[Row] = &[
    Packet(1000, 0, Some(0), ACCEPTED),
    HasRoom(2000, 2, false),
    Packet(2000, 2, None, FULL),
    Packet(2001, 0, Some(0), DUPLICATE),
    Packet(20_999, 0, Some(0), DUPLICATE),
    Packet(21_000, 2, None, ACCEPTED),
    Unknown(21_000, (0, 1)),
];

// The first number is a duplicate while no more came than are remembered, and is accepted once one
// more did.
const ONE_NUMBER: &[Row] = &[
    Numbers(1010, 0, (0, 1), ACCEPTED),
    Packet(1011, 0, Some(0), DUPLICATE),
];

const ONE_NUMBER_MORE: &[Row] = &[
    Numbers(1010, 0, (0, 2), ACCEPTED),
    Packet(1011, 0, Some(0), ACCEPTED),
];

const TWO_NUMBERS: &[Row] = &[
    Numbers(1010, 0, (0, 2), ACCEPTED),
    Packet(1011, 0, Some(0), DUPLICATE),
];

const TWO_NUMBERS_MORE: &[Row] = &[
    Numbers(1010, 0, (0, 3), ACCEPTED),
    Packet(1011, 0, Some(0), ACCEPTED),
];

const EIGHT_NUMBERS: &[Row] = &[
    Numbers(1010, 0, (0, 8), ACCEPTED),
    Packet(1011, 0, Some(0), DUPLICATE),
];

const EIGHT_NUMBERS_MORE: &[Row] = &[
    Numbers(1010, 0, (0, 9), ACCEPTED),
    Packet(1011, 0, Some(0), ACCEPTED),
];

const MANY_NUMBERS: &[Row] = &[
    Numbers(1010, 0, (0, 64), ACCEPTED),
    Packet(1011, 0, Some(0), DUPLICATE),
];

const MANY_NUMBERS_MORE: &[Row] = &[
    Numbers(1010, 0, (0, 65), ACCEPTED),
    Packet(1011, 0, Some(0), ACCEPTED),
];

// A duplicate refreshes nothing, and a beacon does.
const COPIES: &[Row] = &[
    Packet(1000, 0, Some(0), ACCEPTED),
    Packet(20_999, 0, Some(0), DUPLICATE),
    Packet(21_000, 0, Some(0), ACCEPTED),
];

const COPIES_AND_BEACON: &[Row] = &[
    Packet(1000, 0, Some(0), ACCEPTED),
    Packet(11_000, 0, None, ACCEPTED),
    Packet(20_999, 0, Some(0), DUPLICATE),
    Packet(21_000, 0, Some(0), DUPLICATE),
];

/// A cleared table knows nobody, has its capacity as before, and takes in again what it had.
const CLEARED: &[Row] = &[
    Packet(1010, 0, Some(0), ACCEPTED),
    Packet(1010, 1, None, ACCEPTED),
    Packet(1010, 2, None, FULL),
    Clear,
    Capacity(2),
    Nobody(1011, 0),
    Packet(1013, 0, Some(0), ACCEPTED),
    Packet(1013, 0, Some(0), DUPLICATE),
    Packet(1013, 2, None, ACCEPTED),
    Packet(1013, 1, None, FULL),
];

/// A source whose numbers begin again: a number that is remembered is a duplicate, and another one
/// is accepted.
const RESTARTED: &[Row] = &[
    Packet(1010, 0, Some(0), ACCEPTED),
    Packet(1040, 0, Some(0), DUPLICATE),
    Packet(1040, 0, Some(7), ACCEPTED),
];

/// Beacons of 10000 sources at one moment: the first 64 have their places until they expire.
const FLOOD: &[Row] = &[
    Sources(1000, (0, 64), None, ACCEPTED),
    Sources(1000, (64, 10_000), None, FULL),
    Packet(1001, 63, None, ACCEPTED),
    Packet(1001, 64, None, FULL),
    Packet(21_000, 64, None, ACCEPTED),
];

/// The largest table: each of 4096 sources with its first number, and one more source; then the
/// first and the last with 63 more numbers, the first of which is still remembered, and one that
/// lets it go.
const LARGEST: &[Row] = &[
    Sources(1000, (0, 4096), Some(0), ACCEPTED),
    Packet(1000, 4096, Some(0), FULL),
    Numbers(1001, 0, (1, 64), ACCEPTED),
    Packet(1002, 0, Some(0), DUPLICATE),
    Packet(1002, 0, Some(64), ACCEPTED),
    Packet(1002, 0, Some(1), DUPLICATE),
    Packet(1002, 0, Some(0), ACCEPTED),
    Numbers(1001, 4095, (1, 64), ACCEPTED),
    Packet(1002, 4095, Some(0), DUPLICATE),
    Packet(1002, 4095, Some(64), ACCEPTED),
    Packet(1002, 4095, Some(1), DUPLICATE),
    Packet(1002, 4095, Some(0), ACCEPTED),
];

/// All sources of a full table expire, and as many others take their room: nothing of the earlier
/// ones is remembered.
const REPLACED: &[Row] = &[
    Sources(0, (0, 4096), Some(7), ACCEPTED),
    Packet(19_999, 5000, Some(7), FULL),
    Sources(20_000, (5000, 9096), Some(8), ACCEPTED),
    Unknown(20_001, (0, 4096)),
    AllRemember(20_001, (5000, 9096), 7, false),
    AllRemember(20_001, (5000, 9096), 8, true),
    Packet(20_002, 0, Some(7), FULL),
];

/// A source goes, and its neighbour by address comes and goes: each begins with no number.
const BY_TURNS: &[Row] = &[
    Numbers(0, 0, (1, 3), ACCEPTED),
    Numbers(0, 0, (1, 3), DUPLICATE),
    Numbers(20_000, 1, (1, 3), ACCEPTED),
    Numbers(20_000, 1, (1, 3), DUPLICATE),
    Numbers(40_000, 2, (1, 3), ACCEPTED),
    Numbers(40_000, 2, (1, 3), DUPLICATE),
    Numbers(60_000, 0, (1, 3), ACCEPTED),
    Numbers(60_000, 0, (1, 3), DUPLICATE),
    Numbers(80_000, 1, (1, 3), ACCEPTED),
    Numbers(80_000, 1, (1, 3), DUPLICATE),
    Numbers(100_000, 2, (1, 3), ACCEPTED),
    Numbers(100_000, 2, (1, 3), DUPLICATE),
    Clear,
    Packet(200_000, 0, Some(1), ACCEPTED),
];

// So many numbers of two sources side by side, twice as many as are remembered: at the end those
// that are remembered are the last ones.
const WRAPS_ROUND: &[Row] = &[
    SideBySide(1, 0, (0, 2)),
    Remembers(2, 0, (0, 1), false),
    Remembers(2, 0, (1, 2), true),
    Remembers(2, 1, (1000, 1001), false),
    Remembers(2, 1, (1001, 1002), true),
    Remembers(2, 0, (1000, 1002), false),
];

const WRAPS_ROUND_LATER: &[Row] = &[
    SideBySide(1, 0, (0, 128)),
    Remembers(2, 0, (0, 64), false),
    Remembers(2, 0, (64, 128), true),
    Remembers(2, 1, (1000, 1064), false),
    Remembers(2, 1, (1064, 1128), true),
    Remembers(2, 0, (1000, 1128), false),
];

static WORKED: [Worked; 19] = [
    (1, 8, ONE_PLACE),
    (64, 1, ONE_NUMBER),
    (64, 1, ONE_NUMBER_MORE),
    (64, 2, TWO_NUMBERS),
    (64, 2, TWO_NUMBERS_MORE),
    (64, 8, EIGHT_NUMBERS),
    (64, 8, EIGHT_NUMBERS_MORE),
    (64, 64, MANY_NUMBERS),
    (64, 64, MANY_NUMBERS_MORE),
    (64, 8, COPIES),
    (64, 8, COPIES_AND_BEACON),
    (2, 8, CLEARED),
    (64, 8, RESTARTED),
    (64, 8, FLOOD),
    (4096, 64, LARGEST),
    (4096, 8, REPLACED),
    (1, 2, BY_TURNS),
    (2, 1, WRAPS_ROUND),
    (2, 64, WRAPS_ROUND_LATER),
];

#[test]
fn worked_rows(rt: HostRuntime) -> Result<(), Fail> {
    for (number, &(capacity, remember, rows)) in WORKED.iter().enumerate() {
        let ordered = first_other_of::<OrderedTable>(rt.alloc(), capacity, remember, rows)?;
        let sorted = first_other_of::<SortedTable>(rt.alloc(), capacity, remember, rows)?;
        assert!(rt;
            (ordered, sorted) == (None, None),
            "{number}: {ordered:?} {sorted:?}"
        );
    }
    Ok(())
}
