//! A run over the events of a file, while it is under way.

ghost use Rattle.std.specs.Prelude.{◌≤◌, ◌+◌, ◌^◌, All};
ghost use Rattle.std.specs.List.Sorted.{IsNonDecreasingBy};
ghost use Rattle.sim_scenario.specs.Airs.{moment_of};

use crate::frames::FrameCount;
use crate::run::Run;
use sim_scenario::events::FileEvent;

/// A run over the events of a file, while it is under way.
#[derive(Drop)]
pub(crate) struct FiledRun<'a> {
    pub(crate) run: Run<'a>,
    pub(crate) count: FrameCount,
    /// The events and departures of the file up to the last time, in the order in which they are
    /// done.
    pub(crate) due: Vec<&'a FileEvent>,
    /// How many of these were done.
    pub(crate) taken: usize,
    /// The last time that is run.
    pub(crate) end: u64,
    /// No event of the file delivers a frame of a lower number.
    pub(crate) lowest: usize,
    ghost within: { All (λ e. moment_of e.now ≤ end) due.items },
    ghost sorted: { IsNonDecreasingBy (λ e. moment_of e.now) due.items },
    ghost last: { end ≤ 2 ^ 63 + 10000 },
}
