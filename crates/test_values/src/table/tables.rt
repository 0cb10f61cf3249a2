//! The location table and its lists of recent numbers. What holds of both tables is tested over
//! both.

ghost use Rattle.std.specs.Prelude.{◌^◌, ◌≤◌};

use crate::table::fixtures::heard;
use its_gnvalue::{GnAddress, LongPv, Place};
use its_loctable::{Heard, Known, LocationStore};

mod memory;
mod recent;
mod refusals;
mod rows;
mod worked;

const FIRST: u64 = 0x1400_0200_0000_0001;

/// A packet of a station at (0, 0): a GBC where there is a number, else a BEACON.
fn heard_at(address: u64, number: Option<u16>) -> Option<Heard> {
    let address = GnAddress::from_u64(address).ok()?;
    heard(address, Place::new(0, 0).ok()?, false, number)
}

/// What is looked up.
#[derive(Clone, Copy)]
struct Request {
    address: GnAddress,
    number: u16,
    after: Option<GnAddress>,
}

/// What all look-ups answer.
#[derive(Clone, Copy, PartialEq)]
struct LookUps {
    known: Option<Known>,
    is_remembered: bool,
    has_room: bool,
    next: Option<LongPv>,
    by_mid: Option<Known>,
}

// The look-ups, with nothing promised, as the fixtures.

fn lookup<S: LocationStore>(store: &S, now: u64, address: GnAddress) -> Option<Known>
    requires { now ≤ 2 ^ 62 }
{
    store.lookup(now, address)
}

fn remembers<S: LocationStore>(store: &S, now: u64, address: GnAddress, number: u16) -> bool
    requires { now ≤ 2 ^ 62 }
{
    store.remembers(now, address, number)
}

fn has_room<S: LocationStore>(store: &S, now: u64, address: GnAddress) -> bool
    requires { now ≤ 2 ^ 62 }
{
    store.has_room(now, address)
}

fn look_up_all<S: LocationStore>(store: &S, now: u64, request: &Request) -> LookUps
    requires { now ≤ 2 ^ 62 }
{
    LookUps {
        known: lookup(store, now, request.address),
        is_remembered: remembers(store, now, request.address, request.number),
        has_room: has_room(store, now, request.address),
        next: store.next_neighbour(now, request.after),
        by_mid: store.by_mid(now, request.address.mid()),
    }
}
