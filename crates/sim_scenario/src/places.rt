//! Where stations are when the events of a file are done.

use crate::events::{Action, StationEvent};
use its_gnvalue::Place;
use its_station::OwnCall;
use its_world::{Config, What};
use std::alloc::{AllocError, Global};

/// When an event of a file is done. Events of one time are in the order of the file.
#[derive(Clone, Copy, Debug, PartialEq, Eq, PartialOrd, Ord)]
struct Turn {
    moment: u64,
    /// The number of the event in the file.
    number: usize,
}

/// The positions of stations when the events of a file are done.
#[derive(Drop)]
pub(crate) struct Places {
    /// The position of the station of each event. `None` if there is no such station.
    places: Vec<Option<Place>>,
}

impl Places {
    /// Returns the positions at these events: a station is where the last move of the file before
    /// the event put it, or where it begins. Fails if an allocation failed.
    pub(crate) fn of(
        alloc: Global,
        stations: &[Config],
        events: &[StationEvent],
    ) -> Result<Places, AllocError> {
        let mut current = starting_places(alloc, stations)?;
        let mut places = Vec::from_elem(alloc, None, events.len())?;
        for turn in in_order(alloc, events)? {
            if turn.number < places.len() {
                places[turn.number] = place_after(current.as_mut_slice(), events.get(turn.number));
            }
        }
        Ok(Places { places })
    }

    /// Returns the position at the event with this number. For a station that doesn't exist it is
    /// 0, 0, since its events are refused anyway.
    pub(crate) fn at(&self, number: usize) -> Place {
        match self.places.get(number) {
            Some(Some(place)) => *place,
            _ => Place::within(0, 0),
        }
    }
}

/// Returns where these stations begin.
fn starting_places(alloc: Global, stations: &[Config]) -> Result<Vec<Place>, AllocError> {
    let mut places = Vec::with_capacity(alloc, stations.len())?;
    for config in stations {
        places.push(config.place)?;
    }
    Ok(places)
}

/// Returns the events of a file in the order in which they are done.
fn in_order(alloc: Global, events: &[StationEvent]) -> Result<Vec<Turn>, AllocError> {
    let mut turns = Vec::with_capacity(alloc, events.len())?;
    for (number, event) in events.iter().enumerate() {
        let moment = event.moment;
        turns.push(Turn { moment, number })?;
    }
    turns.sort_unstable();
    Ok(turns)
}

/// Returns where the station of an event is. If the event is a move, the station is at its new
/// position from then on. `None` if there is no such station.
fn place_after(places: &mut [Place], event: Option<&StationEvent>) -> Option<Place> {
    let event = event?;
    let place = places.get_mut(event.station)?;
    if let Action::Happens(What::Call(OwnCall::MoveTo { place: target, .. })) = &event.action {
        *place = *target;
    }
    Some(*place)
}
