//! The call that releases held frames.

ghost use Rattle.std.specs.Prelude.{◌≡◌, ◌≢◌, pos};
ghost use Rattle.its_c.specs.Held.{IsSame, station_in};
ghost use Rattle.its_c.specs.Life.{CallStep};
ghost use Rattle.its_c.specs.Life.HandleCall.{Release};

use crate::handle::Geostation;
use crate::status::NO_ROOM;
use crate::told::told_release;
use its_linkframe::LONGEST_FRAME;
use std::alloc::Global;

/// Writes a held frame that is due at `now`, if one is: of several the one with the least time.
/// Otherwise the length is 0. Frames that were due more than 1000 ms before are dropped, and so are those
/// for which the limits have no room. The station isn't changed. Refused by `NO_ROOM` for a buffer under
/// 1468 octets or under the length of a held frame, and for its moment (S1, S2).
#[unsafe(no_mangle)]
pub extern "C" fn geostation_release(
    alloc: Global,
    s: &mut Geostation,
    now: u64,
    frame: &mut [u8],
    written: &mut usize,
) -> i32
    ensures step { CallStep (Release now frame.old result written.new frame.new) s.old s.new }
    ensures station { station_in s.new ≡ station_in s.old }
    ensures unchanged { result ≢ pos 0 → IsSame s.old s.new }
    ensures nothing { result ≢ pos 0 → written.new ≡ 0 }
    ensures memory { result ≢ pos 5 }
{
    *written = 0;
    let mut unit = s.held.take(alloc);
    if frame.len() < unit.longest_waiting().max(LONGEST_FRAME) {
        s.held.put(unit);
        return NO_ROOM;
    }
    let said = unit.release(now);
    s.held.put(unit);
    told_release(said, frame, written)
}
