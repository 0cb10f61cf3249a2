//! Tables, and packets that they hear. No call of a table promises anything here: all that its
//! contract says would else be carried along in the proof of each test.

ghost use Rattle.std.specs.Prelude.{◌≤◌, ◌^◌};

use its_forwarding::{Choice, choose};
use its_geometry::Area;
use its_gnvalue::{GnAddress, LongPv, Mac, Place};
use its_loctable::{Heard, LocationStore, StoreRefused, Verdict};
use std::alloc::Global;

/// A table, where the numbers are in their ranges and there is memory for it.
pub(crate) fn store_of<S: LocationStore>(alloc: Global, capacity: u16, remember: u8) -> Option<S> {
    if !(1..=4096).contains(&capacity) || !(1..=64).contains(&remember) {
        return None;
    }
    S::empty(alloc, capacity, remember).ok()
}

/// A packet of a station, which tells its place and whether this is accurate: a GBC where there is
/// a number, else a BEACON.
pub(crate) fn heard(
    address: GnAddress,
    place: Place,
    accurate: bool,
    number: Option<u16>,
) -> Option<Heard> {
    let vector = LongPv::new(address, 0, place, accurate, 0, 0).ok()?;
    Some(Heard::new(vector, number))
}

/// The outcome of a packet.
pub(crate) fn accept<S: LocationStore>(
    store: &mut S,
    now: u64,
    heard: &Heard,
) -> Result<Verdict, StoreRefused>
    requires { now ≤ 2 ^ 62 }
{
    store.accept(now, heard)
}

/// To whom a packet goes.
pub(crate) fn choice<S: LocationStore>(
    store: &S,
    now: u64,
    own: Place,
    area: &Area,
    sender: Option<Mac>,
) -> Choice
    requires { now ≤ 2 ^ 62 }
{
    choose(store, now, own, area, sender)
}
