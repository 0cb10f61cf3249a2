//! Binary search, among addresses in ascending order.

ghost use Rattle.std.specs.Prelude.{◌<◌, ◌≤◌, ◌+◌, ◌*◌, length, IfOk, IfErr};
ghost use Rattle.its_loctable.specs.Sorted.{AreRising, IsFoundAt, IsGapFor, IsUpTo, AreAbove};

use its_gnvalue::GnAddress;
use std::hint::select_unpredictable;

/// How many addresses a search with no loop is made for: the greatest capacity of a table.
const MOST_ADDRESSES: usize = 4096;

/// Where an address stands, or else where it would go. It is no part of its callers, which stay
/// short where they find an address without it.
#[inline(never)]
pub fn search(addresses: &[GnAddress], address: GnAddress) -> Result<usize, usize>
    requires { AreRising addresses.now }
    ensures found { IfOk result (λ i.
        IsFoundAt addresses.now address i × (i < length addresses.now)) }
    ensures absent { IfErr result (λ i.
        IsGapFor addresses.now address i × (i ≤ length addresses.now)) }
{
    if addresses.len() > MOST_ADDRESSES {
        return addresses.binary_search(&address);
    }
    let last = last_up_to(addresses, address);
    let Some(found) = addresses.get(last) else {
        return Err(last);
    };
    if *found == address {
        Ok(last)
    } else if *found < address {
        Err(last + 1)
    } else {
        Err(last)
    }
}

/// The place of the last one that doesn't come after an address; 0 where all do. Halvings with no
/// loop become conditional moves, where those of a loop are branches that are predicted half of the
/// time.
fn last_up_to(addresses: &[GnAddress], address: GnAddress) -> usize
    requires rising { AreRising addresses.now }
    requires few { length addresses.now ≤ 4096 }
    ensures up_to { IsUpTo addresses.now address result }
    ensures above { AreAbove addresses.now address (result + 1) }
    ensures small { result + 1 ≤ 4096 }
{
    let last = sixty_four(addresses, address);
    let last = halve(addresses, last, 32, address);
    let last = halve(addresses, last, 16, address);
    let last = halve(addresses, last, 8, address);
    let last = halve(addresses, last, 4, address);
    let last = halve(addresses, last, 2, address);
    halve(addresses, last, 1, address)
}

/// Where those sixty-four begin among which the last is that doesn't come after an address: a small
/// table has no more.
fn sixty_four(addresses: &[GnAddress], address: GnAddress) -> usize
    requires rising { AreRising addresses.now }
    requires few { length addresses.now ≤ 4096 }
    ensures up_to { IsUpTo addresses.now address result }
    ensures above { AreAbove addresses.now address (result + 64) }
    ensures small { result + 64 ≤ 4096 }
{
    if addresses.len() <= 64 {
        return 0;
    }
    let last = halve(addresses, 0, 2048, address);
    let last = halve(addresses, last, 1024, address);
    let last = halve(addresses, last, 512, address);
    let last = halve(addresses, last, 256, address);
    let last = halve(addresses, last, 128, address);
    halve(addresses, last, 64, address)
}

/// One halving: the later of two places that are so far apart, where what stands there doesn't come
/// after the address.
fn halve(addresses: &[GnAddress], last: usize, half: usize, address: GnAddress) -> usize
    requires rising { AreRising addresses.now }
    requires up_to { IsUpTo addresses.now address last }
    requires above { AreAbove addresses.now address (last + 2 * half) }
    requires small { last + 2 * half ≤ 4096 }
    ensures up_to { IsUpTo addresses.now address result }
    ensures above { AreAbove addresses.now address (result + half) }
    ensures small { result + half ≤ 4096 }
{
    let middle = last + half;
    let Some(found) = addresses.get(middle) else {
        return last;
    };
    select_unpredictable(*found <= address, middle, last)
}
