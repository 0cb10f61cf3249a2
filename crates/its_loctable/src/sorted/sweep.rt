//! Removing slots. Their rows are free for slots to come.

ghost use Rattle.std.specs.Prelude.{◌≡◌, ◌≤◌, ◌+◌, ℕ, [], All, filter, nat_lt};
ghost use Rattle.std.specs.Prelude.{vec_len, vec_capacity};
ghost use Rattle.its_loctable.specs.Rows.{HasRow, IsRow, AreOwned};
ghost use Rattle.its_loctable.specs.Sorted.{addresses_of};

use super::slot::SortedSlot;
use its_gnvalue::GnAddress;

/// Removes the slots that have expired, and their addresses from the column of these. Returns a
/// moment before which none of the other slots expires.
pub fn sweep(
    slots: &mut Vec<SortedSlot>,
    addresses: &mut Vec<GnAddress>,
    free: &mut Vec<u16>,
    now: u64,
) -> u64
    requires room { vec_len slots.old + vec_len free.old ≤ vec_capacity free.old }
    requires column { addresses.old.items ≡ addresses_of slots.old.items }
    ensures items { slots.new.items ≡ filter (λ s. nat_lt now s.until) slots.old.items }
    ensures column { addresses.new.items ≡ addresses_of slots.new.items }
    ensures ends { All (λ s. result ≤ s.until) slots.new.items }
    ensures total { vec_len slots.new + vec_len free.new ≡ vec_len slots.old + vec_len free.old }
    ensures capacity { vec_capacity slots.new ≡ vec_capacity slots.old }
    ensures column_capacity { vec_capacity addresses.new ≡ vec_capacity addresses.old }
    ensures free_capacity { vec_capacity free.new ≡ vec_capacity free.old }
    ensures rows { (n len : ℕ) → All (HasRow n len) slots.old.items →
        All (IsRow n len) free.old.items →
        All (IsRow n len) free.new.items }
    ensures owned { AreOwned slots.old.items free.old.items →
        AreOwned slots.new.items free.new.items }
{
    let mut kept = 0;
    let mut end = u64::MAX;
    for i in 0..slots.len() {
        let slot = slots[i];
        let until = slot.until;
        let row = slot.row;
        if now < until {
            // A slot that stands in its place already is not copied.
            if kept < i {
                slots[kept] = slot;
                addresses[kept] = addresses[i];
            }
            kept += 1;
            end = end.min(until);
        } else {
            free.push_reserved(row);
        }
    }
    slots.truncate(kept);
    addresses.truncate(kept);
    end
}

/// Removes all slots.
pub fn remove_all(slots: &mut Vec<SortedSlot>, free: &mut Vec<u16>)
    requires room { vec_len slots.old + vec_len free.old ≤ vec_capacity free.old }
    ensures items { slots.new.items ≡ [] }
    ensures total { vec_len slots.new + vec_len free.new ≡ vec_len slots.old + vec_len free.old }
    ensures capacity { vec_capacity slots.new ≡ vec_capacity slots.old }
    ensures free_capacity { vec_capacity free.new ≡ vec_capacity free.old }
    ensures rows { (n len : ℕ) → All (HasRow n len) slots.old.items →
        All (IsRow n len) free.old.items →
        All (IsRow n len) free.new.items }
    ensures owned { AreOwned slots.old.items free.old.items →
        AreOwned slots.new.items free.new.items }
{
    while slots.len() > 0 {
        if let Some(slot) = slots.pop() {
            free.push_reserved(slot.row);
        }
    }
}
