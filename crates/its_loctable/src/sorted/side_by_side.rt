//! Searches in the columns of several tables, side by side. A step of a search mostly waits for
//! memory. The same step of several searches waits for all of it at once.

ghost use Rattle.std.specs.Prelude.{◌≡◌, ◌+◌, ℕ, if◌then◌else◌, nat_le, Some, None, slice_get};

use its_gnvalue::GnAddress;
use std::hint::select_unpredictable;

/// How many columns are searched side by side.
pub const SIDE_BY_SIDE: usize = 16;

/// By how many addresses the steps of a search go on, in order: they find the last address that is
/// not above the wanted one, among as many as a location table can have.
pub const HALVINGS: [usize; 12] = [2048, 1024, 512, 256, 128, 64, 32, 16, 8, 4, 2, 1];

/// One step of a search in a column of ascending addresses, as `LocationStore::column` returns it:
/// the index that is higher by `half`, if the address there is not above the wanted one, and
/// otherwise `last`. A search begins at 0, and takes a step by each of `HALVINGS`. Which addresses
/// there are makes no branch.
#[inline(always)]
pub fn narrow(column: &[GnAddress], last: usize, half: usize, address: GnAddress) -> usize
    ensures none { slice_get column.now (last + half) ≡ None → result ≡ last }
    ensures some { (found : ℕ) → slice_get column.now (last + half) ≡ Some found →
        result ≡ (if nat_le found address then last + half else last) }
{
    let Some(middle) = last.checked_add(half) else {
        return last;
    };
    match column.get(middle) {
        Some(found) => select_unpredictable(*found <= address, middle, last),
        None => last,
    }
}
