//! The radio model of a scenario.

ghost use Rattle.std.specs.Prelude.{◌≤◌, ◌<◌, ◌^◌, IfSome};
ghost use Rattle.std.proofs.Props.{props};

use its_contention::ContentionRule;

/// How frames go from station to station by themselves.
#[derive(Clone, Copy, Debug, PartialEq, Eq)]
pub struct Air {
    /// The range in which a frame is received: 1 to 65535 m.
    pub range: u16,
    /// The milliseconds from the send of a frame to its deliveries.
    pub delay: u16,
    /// The percentage of deliveries that are lost: 0 to 100.
    pub loss: u8,
    /// The seed of the random numbers: 0 to 2^63 - 1.
    pub seed: u64,
    /// Whether each station sends beacons by itself.
    pub beacons: bool,
    /// The last time that is run, in milliseconds: 0 to 2^62. Without it, the events set the end.
    pub until: Option<u64>,
    /// Whether stations without a value of their own contend.
    pub contends: bool,
    /// The rule of the stations that contend.
    pub rule: ContentionRule,
    ghost heard: { 1 ≤ range },
    ghost percent: { loss ≤ 100 },
    ghost signed: { seed < 2 ^ 63 },
    ghost last: { IfSome until (λ moment. moment ≤ 2 ^ 62) } by { Prim.hlevel props },
}
