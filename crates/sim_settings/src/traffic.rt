//! The periodic traffic of a scenario's stations.

ghost use Rattle.std.specs.Prelude.{◌≤◌};

use its_gnvalue::TrafficClass;

/// What each station sends periodically: a single-hop broadcast of zeros.
#[derive(Clone, Copy, Debug, PartialEq, Eq)]
pub struct Traffic {
    /// The milliseconds from one send of a station to its next: 1 to 4294967295.
    pub period: u32,
    /// The destination port (BTP-B).
    pub port: u16,
    /// The destination port info.
    pub info: u16,
    /// The traffic class.
    pub class: TrafficClass,
    /// How many octets are sent to the port, all of them 0: 0 to 1394.
    pub octets: u16,
    ghost often: { 1 ≤ period },
    ghost fits: { octets ≤ 1394 },
}
