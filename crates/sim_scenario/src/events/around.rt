//! Requests for an area around the station that sends them.

ghost use Rattle.its_geometry.specs.Area.{HasMeasures};
ghost use Rattle.sim_scenario.specs.Measures.{HasMeasures-prop};

use its_geometry::Shape;
use its_gnvalue::{Lifetime, TrafficClass};

/// A request to send a payload to an area around the station that sends it, wherever that is then.
#[derive(Debug, Drop, PartialEq, Eq)]
pub struct AroundRequest {
    /// The destination port (BTP-B).
    pub port: u16,
    /// The destination port info.
    pub info: u16,
    /// The traffic class.
    pub class: TrafficClass,
    /// How long the packet lives.
    pub lifetime: Lifetime,
    /// How many hops the packet may take.
    pub max_hops: u8,
    /// The shape of the area.
    pub shape: Shape,
    /// The radius, half length or half axis in metres, by the shape.
    pub a: u16,
    /// The other half length or half axis in metres. A circle has 0.
    pub b: u16,
    /// The angle of `a` in degrees clockwise from north, 0 to 359. A circle has 0.
    pub angle: u16,
    /// What is sent to the port.
    pub payload: Vec<u8>,
    ghost measures: { HasMeasures shape a b angle } by { HasMeasures-prop shape a b angle },
}
