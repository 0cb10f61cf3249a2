//! What an event of a scenario with a radio model does.

ghost use Rattle.std.specs.Prelude.{◌≡◌, ◌<◌, ◌^◌, IfOk};
ghost use Rattle.its_gnvalue.specs.Values.{IsSpeed, Position};
ghost use Rattle.its_station.specs.Requests.{owned_gbc, owned_shb};
ghost use Rattle.its_station.specs.Runs.{own_of};
ghost use Rattle.its_world.specs.Events.{what_of};
ghost use Rattle.sim_scenario.specs.Actions.{IsDoneAt, request_at, what_at};
ghost use Rattle.sim_scenario.specs.Events.{FitsAction, FitsWhat, frame_at, frame_in, frame_of};
ghost use Rattle.its_words.specs.Calls.{own_speed};
ghost use Rattle.sim_scenario.specs.Events.{speed_in};
ghost use Rattle.sim_scenario.specs.Verbs.{action_verb};

use crate::events::around::AroundRequest;
use crate::events::event::FileEvent;
use crate::events::verb::verb_of;
use its_geometry::Area;
use its_gnvalue::Place;
use its_station::{OwnCall, OwnedGbcRequest, OwnedShbRequest};
use its_words::keys::Verb;
use its_world::{Event, What};
use std::alloc::{AllocError, Global};

/// What an event of a scenario with a radio model does.
#[derive(Debug, Drop, PartialEq, Eq)]
pub enum Action {
    /// A call of the station, or the delivery of a frame to it.
    Happens(What),
    /// The station sends a geobroadcast for an area around itself.
    GeobroadcastAround(AroundRequest),
    /// The station sends a geoanycast for an area around itself.
    GeoanycastAround(AroundRequest),
    /// The station departs: it is absent from then on. This is not an event of the world.
    Leaves,
}

impl Action {
    /// Returns the keyword of the action.
    pub fn verb(&self) -> Verb
        ensures { result ≡ action_verb self.now }
    {
        match self {
            Action::Happens(what) => verb_of(what),
            Action::GeobroadcastAround(_) => Verb::Gbc,
            Action::GeoanycastAround(_) => Verb::Gac,
            Action::Leaves => Verb::Leave,
        }
    }

    /// Returns a copy, with a payload of its own. Fails if an allocation failed.
    pub(crate) fn copy(&self, alloc: Global) -> Result<Action, AllocError>
        requires fits { FitsAction self.now }
        ensures same { IfOk result (λ copy. (place : Position) →
            what_at copy place ≡ what_at self.now place) }
        ensures fits { IfOk result FitsAction }
        ensures frame { IfOk result (λ copy. frame_at copy ≡ frame_at self.now) }
    {
        Ok(match self {
            Action::Happens(what) => Action::Happens(copy_of(alloc, what)?),
            Action::GeobroadcastAround(request) => {
                Action::GeobroadcastAround(request.copy(alloc)?)
            }
            Action::GeoanycastAround(request) => Action::GeoanycastAround(request.copy(alloc)?),
            Action::Leaves => Action::Leaves,
        })
    }

    /// Returns the action as an event or leave of this station at this time, while the station is
    /// at this position.
    pub(crate) fn done_at(self, station: usize, moment: u64, place: Place) -> FileEvent
        requires fits { FitsAction self }
        ensures done { IsDoneAt self station moment place result }
        ensures speed { IsSpeed (speed_in result) }
        ensures frame { frame_in result ≡ frame_at self }
    {
        let what = match self {
            Action::Happens(what) => what,
            Action::GeobroadcastAround(request) => {
                What::Call(OwnCall::SendGeobroadcast(request.at(place)))
            }
            Action::GeoanycastAround(request) => {
                What::Call(OwnCall::SendGeoanycast(request.at(place)))
            }
            Action::Leaves => return FileEvent::Leaves { station, moment },
        };
        FileEvent::Happens(Event {
            station,
            moment,
            what,
        })
    }
}

impl AroundRequest {
    /// Returns the request of a station at this position.
    pub(crate) fn at(self, place: Place) -> OwnedGbcRequest
        ensures { owned_gbc result ≡ request_at self place }
    {
        OwnedGbcRequest {
            port: self.port,
            info: self.info,
            class: self.class,
            lifetime: self.lifetime,
            max_hops: self.max_hops,
            area: Area::within(self.shape, place, self.a, self.b, self.angle),
            payload: self.payload,
        }
    }

    /// Returns a copy, with a payload of its own. Fails if an allocation failed.
    pub(crate) fn copy(&self, alloc: Global) -> Result<AroundRequest, AllocError>
        ensures { IfOk result (λ copy. (place : Position) →
            request_at copy place ≡ request_at self.now place) }
    {
        Ok(AroundRequest {
            port: self.port,
            info: self.info,
            class: self.class,
            lifetime: self.lifetime,
            max_hops: self.max_hops,
            shape: self.shape,
            a: self.a,
            b: self.b,
            angle: self.angle,
            payload: Vec::from_slice(alloc, self.payload.as_slice())?,
        })
    }
}

/// Returns a copy, with a payload of its own.
fn copy_of(alloc: Global, what: &What) -> Result<What, AllocError>
    requires fits { FitsWhat what.now }
    ensures what { IfOk result (λ copy. what_of copy ≡ what_of what.now) }
    ensures fits { IfOk result FitsWhat }
    ensures frame { IfOk result (λ copy. frame_of copy ≡ frame_of what.now) }
{
    Ok(match what {
        What::Call(call) => What::Call(copy_of_call(alloc, call)?),
        What::Deliver(frame) => What::Deliver(*frame),
    })
}

/// Returns a copy, with a payload of its own.
fn copy_of_call(alloc: Global, call: &OwnCall) -> Result<OwnCall, AllocError>
    requires fits { IsSpeed (own_speed call.now) }
    ensures call { IfOk result (λ copy. own_of copy ≡ own_of call.now) }
    ensures fits { IfOk result (λ copy. IsSpeed (own_speed copy)) }
{
    Ok(match call {
        OwnCall::MoveTo {
            place,
            pai,
            speed,
            heading,
        } => OwnCall::MoveTo {
            place: *place,
            pai: *pai,
            speed: *speed,
            heading: *heading,
        },
        OwnCall::Open(port) => OwnCall::Open(*port),
        OwnCall::Close(port) => OwnCall::Close(*port),
        OwnCall::Tick(jitter) => OwnCall::Tick(*jitter),
        OwnCall::SendShb(request) => OwnCall::SendShb(copy_of_single_hop(alloc, request)?),
        OwnCall::SendGeobroadcast(request) => {
            OwnCall::SendGeobroadcast(copy_of_geocast(alloc, request)?)
        }
        OwnCall::SendGeoanycast(request) => {
            OwnCall::SendGeoanycast(copy_of_geocast(alloc, request)?)
        }
        OwnCall::Restart(number) => OwnCall::Restart(*number),
    })
}

/// Returns a copy, with a payload of its own.
fn copy_of_single_hop(
    alloc: Global,
    request: &OwnedShbRequest,
) -> Result<OwnedShbRequest, AllocError>
    ensures { IfOk result (λ copy. owned_shb copy ≡ owned_shb request.now) }
{
    Ok(OwnedShbRequest {
        port: request.port,
        info: request.info,
        class: request.class,
        payload: Vec::from_slice(alloc, request.payload.as_slice())?,
    })
}

/// Returns a copy, with a payload of its own.
fn copy_of_geocast(alloc: Global, request: &OwnedGbcRequest) -> Result<OwnedGbcRequest, AllocError>
    ensures { IfOk result (λ copy. owned_gbc copy ≡ owned_gbc request.now) }
{
    Ok(OwnedGbcRequest {
        port: request.port,
        info: request.info,
        class: request.class,
        lifetime: request.lifetime,
        max_hops: request.max_hops,
        area: request.area,
        payload: Vec::from_slice(alloc, request.payload.as_slice())?,
    })
}
