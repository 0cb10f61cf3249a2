//! The laws of frames that wait, and of runs in which stations contend. Each is the contract of a
//! function that does nothing.
//!
//! Laws of runs are about the model's world (`specs/Contended.antt` of `its_model`), with any test
//! of copies, any stations, of which any contend, and any list of events and releases.

ghost use Rattle.std.specs.Prelude.{◌≡◌, List, Option};
ghost use Rattle.its_model.specs.Contention.{ContentionRule as Rule};
ghost use Rattle.its_model.specs.World.{Config, world_run};
ghost use Rattle.its_model.specs.EverySchedule.{HoldsOfSchedules};
ghost use Rattle.its_model.specs.Contended.{CopyTest, ContendedWorld, Happening};
ghost use Rattle.its_model.specs.Contended.{contended_run, erased, opening_with};
ghost use Rattle.its_model.specs.Overheard.{CancelledByTheSameFrame, SomebodySends};
ghost use Rattle.its_model.specs.Overheard.{ReachesByContention};
ghost use Rattle.its_contention.specs.Buffer.{empty};
ghost use Rattle.its_contention.specs.Counted.{AreCounted, BufferCall, after_calls};
ghost use Rattle.its_contention.specs.Waiting.{Waiting};

/// No frame is lost: in every list of calls from a new buffer, each frame that began to wait was
/// released, cancelled or dropped, or still waits, and is counted so. This holds while fewer than
/// 2^64 - 1 frames began to wait.
pub fn frames_are_counted()
    ensures { (rule : Rule) (calls : List (BufferCall Waiting)) →
        AreCounted (after_calls (empty rule) calls) }
{}

/// Contention is a schedule: a frame that waits comes late, and one that is cancelled or dropped
/// comes to nobody.
///
/// - `world`: a run in which stations contend leaves the world that its events alone leave.
/// - `laws`: what holds after every schedule holds of it.
pub fn contention_is_a_schedule()
    ensures world { (test : CopyTest) (cw : ContendedWorld) (happenings : List Happening) →
        (contended_run test cw happenings).world ≡ world_run cw.world (erased happenings) }
    ensures laws { (test : CopyTest) (configs : List Config) (rules : List (Option Rule))
        (happenings : List Happening) →
        HoldsOfSchedules configs
        (contended_run test (opening_with configs rules) happenings).world }
{}

/// A frame is cancelled only by copies of it, as many as the rule of its station says, each from
/// another link sender, if what the test takes for a copy is one. If each link carries only what was
/// sent, each of the copies was sent.
pub fn cancelled_by_the_same_frame()
    ensures { (test : CopyTest) (configs : List Config) (rules : List (Option Rule))
        (happenings : List Happening) → CancelledByTheSameFrame test configs rules happenings }
{}

/// Stations don't all silence each other: of each frame that waits the same frame is sent by some
/// station, link sender and lifetime aside. This holds if what the test takes for a copy is one, each
/// link carries only what was sent, each frame that waits leaves in time, and none is dropped.
pub fn somebody_sends()
    ensures { (test : CopyTest) (configs : List Config) (rules : List (Option Rule))
        (happenings : List Happening) → SomebodySends test configs rules happenings }
{}

/// A geobroadcast reaches every station of each path from its sender on which what a station sends
/// the next one receives, and so does what cancels a station's frame: one that is n links away, n
/// times the greatest wait, the lateness and the delay after the send at the latest (`AreOverheard`
/// has the premises of a link).
pub fn reaches_by_contention()
    ensures { (test : CopyTest) (configs : List Config) (rules : List (Option Rule))
        (happenings : List Happening) → ReachesByContention test configs rules happenings }
{}
