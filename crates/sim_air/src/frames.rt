//! Which frames a run keeps: those that may be delivered yet.

ghost use Rattle.std.specs.Prelude.{ℕ, List, None, ◌≡◌, ◌≤◌, ◌+◌, ◌^◌, length};
ghost use Rattle.std.specs.List.{AllByRecursion};
ghost use Rattle.its_model.specs.World.{WorldModel};
ghost use Rattle.its_world.specs.State.{RepresentsWorld};
ghost use Rattle.sim_air.specs.Moving.{Awaits};
ghost use Rattle.sim_air_model.specs.Timetable.{Pending, at};

use crate::contentions::lowest_kept;
use crate::run::Run;

/// How far the frames of a run were delivered.
#[derive(Clone, Copy, Debug)]
pub(crate) struct FrameCount {
    /// How many frames had been sent when they were last counted.
    pub(crate) before: usize,
    /// The time of the last delivery of one of these, at the latest.
    pub(crate) delivered_by: u64,
}

/// Releases frames whose deliveries are done, but none from the `lowest` on. `moment` is the time
/// of what the radio model does next.
///
/// Each delivery comes the delay after its frame was sent, and what waits is taken by its time. So
/// those that had been sent when they were last counted have all been delivered once the delay
/// after that is over, to whichever stations receive them. Then they are counted again.
pub(crate) fn release_delivered(
    run: &mut Run<'_>,
    count: &mut FrameCount,
    lowest: usize,
    moment: u64,
)
    requires moment { moment ≤ 2 ^ 63 + 10000 }
    ensures stands { (w : WorldModel) → RepresentsWorld run.old.world w →
        RepresentsWorld run.new.world w }
    ensures stations { run.new.world.stations ≡ run.old.world.stations }
    ensures standings { run.new.standings ≡ run.old.standings }
    ensures air { run.new.air ≡ run.old.air }
    ensures every { run.new.every ≡ run.old.every }
    ensures queue { run.new.queue ≡ run.old.queue }
    ensures draws { run.new.draws ≡ run.old.draws }
    ensures present { run.new.present ≡ run.old.present }
    ensures none { run.old.contentions ≡ None → run.new.contentions ≡ None }
    ensures kept { run.old.world.released ≤ lowest → run.new.world.released ≤ lowest }
    ensures counted { (total : ℕ) → count.old.before ≤ total →
        total ≡ run.old.world.released + length run.old.world.frames →
        count.new.before ≤ total }
    ensures frames { (waiting : List Pending) →
        AllByRecursion (λ p. moment ≤ at p) waiting →
        AllByRecursion (Awaits run.old.world.released count.old.before
        count.old.delivered_by (moment + run.old.air.delay)) waiting →
        AllByRecursion (Awaits run.new.world.released count.new.before
        count.new.delivered_by (moment + run.old.air.delay)) waiting }
{
    if moment > count.delivered_by {
        let kept = lowest_kept(&mut run.contentions, moment);
        run.world.release(count.before.min(lowest).min(kept));
        count.before = run.world.frames();
        count.delivered_by = moment + run.delay();
    }
}
