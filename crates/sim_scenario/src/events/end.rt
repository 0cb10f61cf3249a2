//! When a run with a radio model ends.

ghost use Rattle.std.specs.Prelude.{◌≡◌, ◌<◌, ◌^◌, ◌+◌, All};
ghost use Rattle.sim_scenario.specs.Airs.{end_of, greatest_moment, moment_of};

use crate::events::event::FileEvent;
use sim_settings::Air;

/// How long a run with a radio model goes on after the last event or row, in milliseconds.
pub const AFTER_EVENTS: u64 = 10_000;

/// Returns the last time of a run with this radio model over these events and leaves, in
/// milliseconds: the given one (default: ten seconds after the last of them).
pub fn end_of(air: &Air, file: &[FileEvent]) -> u64
    requires { All (λ waiting. moment_of waiting < 2 ^ 63) file.now }
    ensures end { result ≡ end_of air.now.until file.now }
    ensures bound { result < 2 ^ 63 + 10000 }
{
    match air.until {
        Some(until) => until,
        None => greatest(file) + AFTER_EVENTS,
    }
}

/// Returns the time of the last event or leave. 0 if the list is empty.
fn greatest(file: &[FileEvent]) -> u64
    requires { All (λ waiting. moment_of waiting < 2 ^ 63) file.now }
    ensures last { result ≡ greatest_moment file.now }
    ensures bound { result < 2 ^ 63 }
{
    let mut last = 0;
    for waiting in file {
        last = last.max(waiting.moment());
    }
    last
}
