//! What holds after every schedule of calls and deliveries: frames lost, repeated, late, in any
//! order. Each law is of geobroadcasts, and of geoanycasts in the same words, but for the one on
//! geoanycasts alone.

ghost use Rattle.std.specs.Prelude.{List};
ghost use Rattle.its_model.specs.World.{Config, Event, opening, world_run};
ghost use Rattle.its_model.specs.Schedules.{HandedAsSent, RelaysAreFaithful, AtMostOnce};
ghost use Rattle.its_model.specs.Schedules.{FloodingIsBounded, AcceptedAgainByDefault};
ghost use Rattle.its_model.specs.Schedules.{AnycastStopsInside, FramesNameTheirSource};
ghost use Rattle.its_model.specs.EverySchedule.{HoldsOfSchedules};

use crate::laws::reach::{what_comes_is_accepted, what_is_delivered_reaches};

/// What is delivered to a port of a packet for an area was sent earlier, to that port, for an area
/// that holds the receiver where it stands then.
pub fn handed_as_sent()
    ensures { (configs : List Config) (events : List Event) →
        HandedAsSent configs (world_run (opening configs) events) }
{}

/// A relayed frame is the frame that was delivered, with one hop fewer, from the relayer's own link
/// address. That frame had two hops left or more.
pub fn relays_are_faithful()
    ensures { (configs : List Config) (events : List Event) →
        RelaysAreFaithful configs (world_run (opening configs) events) }
{}

/// No station accepts a packet for an area twice, unless it forgot it between; and what it ignores
/// as a duplicate it accepted before, and didn't forget.
///
/// - field `again`: no station accepts (so: delivers) one packet for an area twice unless it
///   restarted, its source's session broke there, or as many others were accepted between as it
///   remembers.
/// - field `duplicate`: what is ignored as a duplicate was accepted there, with the same source and
///   number, and not forgotten since.
pub fn at_most_once()
    ensures { (configs : List Config) (events : List Event) →
        AtMostOnce configs (world_run (opening configs) events) }
{}

/// The same said shorter for the default: where a station remembers eight numbers of a source and
/// didn't restart between two acceptances, the source's session broke there or eight others came.
pub fn at_most_once_by_default()
    ensures { (configs : List Config) (events : List Event) →
        AcceptedAgainByDefault configs (world_run (opening configs) events) }
{}

/// A send for an area makes few frames.
///
/// - field `few`: it makes at most one frame more than it is accepted.
/// - field `one_a_station`: a packet that no station forgot between two acceptances makes at most
///   as many frames as there are stations.
/// - field `number_and_hops`: each frame has the packet's number, area and message. Its hops left
///   and its relays so far make its greatest hops.
pub fn flooding_is_bounded()
    ensures { (configs : List Config) (events : List Event) →
        FloodingIsBounded configs (world_run (opening configs) events) }
{}

/// A geoanycast that a station accepted inside its area goes no further.
///
/// - field `inside`: a station that accepts it inside its area gives no frame, whether its port is
///   open or not.
/// - field `handed`: a station that delivers it gives no frame.
pub fn anycast_stops_inside()
    ensures { (configs : List Config) (events : List Event) →
        AnycastStopsInside configs (world_run (opening configs) events) }
{}

/// A frame's source address is that of the station that first sent its packet, as it was
/// configured.
pub fn frames_name_their_source()
    ensures { (configs : List Config) (events : List Event) →
        FramesNameTheirSource configs (world_run (opening configs) events) }
{}

/// All of these, for the crate that runs a world.
pub fn every_schedule()
    ensures { (configs : List Config) (events : List Event) →
        HoldsOfSchedules configs (world_run (opening configs) events) }
{
    // Laws, for the proof alone.
    handed_as_sent();
    relays_are_faithful();
    at_most_once();
    flooding_is_bounded();
    anycast_stops_inside();
    frames_name_their_source();
    what_comes_is_accepted();
    what_is_delivered_reaches();
}
