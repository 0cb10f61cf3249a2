//! What a packet changes in its source's entry, in every store.

ghost use Rattle.std.specs.Prelude.{◌≡◌, ◌+◌, ◌^◌, ◌≤◌, Some, length, take, reverse};
ghost use Rattle.its_model.specs.History.{entry_life, fresher, with_number};

use its_duplicates::Recent;
use its_gnvalue::{LongPv, newer};

/// How long an entry is live after a packet of its source, in milliseconds (profile).
const ENTRY_LIFE: u64 = 20_000;

/// The end of an entry that a packet renews.
pub fn end_after(now: u64) -> u64
    requires { now ≤ 2 ^ 62 }
    ensures { result ≡ now + entry_life }
{
    now + ENTRY_LIFE
}

/// Puts the new vector in the place of the old one if its timestamp is newer.
#[inline(always)]
pub fn refresh(vector: &mut LongPv, new: LongPv)
    ensures { vector.new ≡ fresher new (Some vector.old) }
{
    if newer(new.tst(), vector.tst()) {
        *vector = new;
    }
}

/// Notes the number of a packet, if it has one.
pub fn note(recent: &mut Recent, number: Option<u16>)
    requires { length recent.old.numbers ≤ recent.old.limit }
    ensures noted { reverse recent.new.numbers
        ≡ take recent.old.limit (with_number number (reverse recent.old.numbers)) }
    ensures limit { recent.new.limit ≡ recent.old.limit }
    ensures few { length recent.new.numbers ≤ recent.new.limit }
{
    if let Some(number) = number {
        recent.note(number);
    }
}
