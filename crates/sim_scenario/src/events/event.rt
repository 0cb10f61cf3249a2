//! The events and leaves of a scenario, one by one.

ghost use Rattle.std.specs.Prelude.{◌≡◌, ◌<◌, ◌^◌, IfOk, IfSome, MatchOption, string_bytes};
ghost use Rattle.its_words.specs.Fields.{IsMissing, IsNumber, IsText};
ghost use Rattle.its_words.specs.Verbs.{verb_word};
ghost use Rattle.its_words.specs.declared.keys.key.Key.TheVariants as keys;
ghost use Rattle.its_gnvalue.specs.Values.{IsSpeed};
ghost use Rattle.its_words.specs.Ids.{IsId};
ghost use Rattle.sim_scenario.specs.Actions.{IsDoneAt};
ghost use Rattle.sim_scenario.specs.Airs.{moment_of};
ghost use Rattle.sim_scenario.specs.Events.{FitsAction, FitsAddressed, FitsEvent, HasId};
ghost use Rattle.sim_scenario.specs.Events.{FitsStationEvent, FitsWhat, frame_at, frame_in};
ghost use Rattle.sim_scenario.specs.Events.{number_of, speed_in, station_in};
ghost use Rattle.its_words.specs.Reading.{SaysWhat};
ghost use Rattle.sim_scenario.specs.Saying.{SaysAction, SaysAddressed, SaysAddressee, SaysEvent};
ghost use Rattle.sim_scenario.specs.Saying.{SaysStationEvent};
ghost use Rattle.its_world.specs.Events.{what_of};

use crate::events::action::Action;
use crate::events::around_keys::{lacks_centre, read_around};
use crate::events::what::read_what;
use its_gnvalue::Place;
use its_words::ids::is_id;
use its_words::keys::{Fields, Key, KeyFault, Verb, Verbs, Wrong, number, text, whole};
use its_world::{Event, What};
use std::alloc::{AllocError, Global};

/// An event or a leave of a scenario with a radio model.
#[derive(Debug, Drop, PartialEq, Eq)]
pub enum FileEvent {
    /// An event of the world.
    Happens(Event),
    /// A station departs: it is absent from then on. This is not an event of the world.
    Leaves {
        /// The number of the station: 0 to 65535. The station need not exist.
        station: usize,
        /// The time in milliseconds: 0 to 2^63 - 1.
        moment: u64,
    },
}

impl FileEvent {
    /// Returns the time in milliseconds.
    pub fn moment(&self) -> u64
        ensures { result ≡ moment_of self.now }
    {
        match self {
            FileEvent::Happens(event) => event.moment,
            FileEvent::Leaves { moment, .. } => *moment,
        }
    }

    /// Returns the number of the station.
    pub fn station(&self) -> usize
        ensures { result ≡ station_in self.now }
    {
        match self {
            FileEvent::Happens(event) => event.station,
            FileEvent::Leaves { station, .. } => *station,
        }
    }

    /// Returns the event of the world, if it is one.
    pub fn event(&self) -> Option<&Event> {
        match self {
            FileEvent::Happens(event) => Some(event),
            FileEvent::Leaves { .. } => None,
        }
    }
}

/// The station of an event of a scenario with moves.
#[derive(Debug, Drop, PartialEq, Eq)]
pub enum Addressee {
    /// A station of the scenario, by its number.
    Station(usize),
    /// A station that a row of the file of moves makes, by its id: 1 to 64 octets of UTF-8, without
    /// control characters. There may be no row with this id.
    Vehicle(String),
}

/// An event or a leave of a scenario with moves.
#[derive(Debug, Drop, PartialEq, Eq)]
pub struct AddressedEvent {
    /// Its number among the events of the document, from 0.
    pub number: usize,
    /// Its station.
    pub addressee: Addressee,
    /// The time in milliseconds: 0 to 2^63 - 1.
    pub moment: u64,
    /// What it does. It delivers no frame.
    pub action: Action,
}

impl AddressedEvent {
    /// Returns the number of its station, if the event names it by its number.
    pub fn station(&self) -> Option<usize> {
        match self.addressee {
            Addressee::Station(station) => Some(station),
            Addressee::Vehicle(_) => None,
        }
    }

    /// Returns the event or leave as the station with this number does it at this position. Fails
    /// if an allocation failed.
    ///
    /// - `done` (`IsDoneAt`): the event or leave is of that station, at the event's time. An area
    ///   around the station has that position as its centre, with its own shape and measures.
    ///   Everything else is as the event says.
    /// - `speed`, `frame`: the speed is in its range, and the frame is that of the event.
    pub fn at(&self, alloc: Global, station: usize, place: Place) -> Result<FileEvent, AllocError>
        requires fits { FitsAddressed self.now }
        ensures done { IfOk result (IsDoneAt self.now.action station self.now.moment place) }
        ensures speed { IfOk result (λ filed. IsSpeed (speed_in filed)) }
        ensures frame { IfOk result (λ filed. frame_in filed ≡ frame_at self.now.action) }
    {
        Ok(
            self.action
                .copy(alloc)?
                .done_at(station, self.moment, place),
        )
    }
}

/// An event or a leave of a scenario with a radio model, as it is read.
#[derive(Debug, Drop)]
pub(crate) struct StationEvent {
    /// Its station, by its number: 0 to 65535. There may be no such station.
    pub(crate) station: usize,
    /// The time in milliseconds: 0 to 2^63 - 1.
    pub(crate) moment: u64,
    /// What it does.
    pub(crate) action: Action,
}

/// Reads an event or a leave of a scenario with a radio model: `station`, `at` and what is done,
/// checked in this order.
pub(crate) fn read_station_event<F: Fields>(
    alloc: Global,
    fields: &F,
) -> Result<StationEvent, KeyFault>
    ensures says { IfOk result (SaysStationEvent (F.values fields.now)) }
    ensures fits { IfOk result FitsStationEvent }
{
    Ok(StationEvent {
        station: number(fields, Key::Station)? as usize,
        moment: read_moment(fields)?,
        action: read_action(alloc, fields, Verbs::InAir)?,
    })
}

/// Reads what is done, by one of these keywords. A leave, `do = "leave"`, has no further keys. If
/// the centre of an area is left out, the area is around the station.
fn read_action<F: Fields>(alloc: Global, fields: &F, verbs: Verbs) -> Result<Action, KeyFault>
    ensures says { IfOk result (SaysAction (F.values fields.now)) }
    ensures fits { IfOk result FitsAction }
{
    match verb_under(fields) {
        Some(Verb::Leave) => Ok(Action::Leaves),
        Some(Verb::Gbc) if lacks_centre(fields) => {
            Ok(Action::GeobroadcastAround(read_around(alloc, fields)?))
        }
        Some(Verb::Gac) if lacks_centre(fields) => {
            Ok(Action::GeoanycastAround(read_around(alloc, fields)?))
        }
        _ => Ok(Action::Happens(read_one_of(alloc, fields, verbs)?)),
    }
}

/// Reads an event of a scenario without a radio model: `station`, `at`, in milliseconds below 2^63,
/// and then what is done there, checked in this order. The station need not exist, nor the frame of
/// `deliver`.
pub fn read_event<F: Fields>(alloc: Global, fields: &F) -> Result<Event, KeyFault>
    ensures says { IfOk result (SaysEvent (F.values fields.now)) }
    ensures fits { IfOk result FitsEvent }
{
    let station = number(fields, Key::Station)?;
    let moment = read_moment(fields)?;
    Ok(Event {
        station: station as usize,
        moment,
        what: read_one_of(alloc, fields, Verbs::Alone)?,
    })
}

/// Reads an event or a leave of a scenario that is run with moves: `id`, or `station` without it,
/// then `at`, then what is done, checked in this order. `station` has to be below `stations`.
/// `deliver` is refused. `number` is that of the event in the document.
pub fn read_addressed<F: Fields>(
    alloc: Global,
    fields: &F,
    number: usize,
    stations: usize,
) -> Result<AddressedEvent, KeyFault>
    ensures says { IfOk result (SaysAddressed (F.values fields.now)) }
    ensures range { IfOk result FitsAddressed }
    ensures id { IfOk result (λ event. HasId event.addressee) }
{
    let addressee = read_addressee(alloc, fields, stations)?;
    let moment = read_moment(fields)?;
    if matches!(verb_under(fields), Some(Verb::Deliver)) {
        return Err(KeyFault::Refused(Key::Do, Wrong::Unlisted(Verbs::WithMoves)));
    }
    Ok(AddressedEvent {
        number,
        addressee,
        moment,
        action: read_action(alloc, fields, Verbs::WithMoves)?,
    })
}

/// Reads `id`, if it is there. Otherwise reads `station`, which has to be below this count.
fn read_addressee<F: Fields>(
    alloc: Global,
    fields: &F,
    stations: usize,
) -> Result<Addressee, KeyFault>
    ensures says { IfOk result (SaysAddressee (F.values fields.now)) }
    ensures range { IfOk result (λ addressee. number_of addressee < 2 ^ 16) }
    ensures id { IfOk result HasId }
{
    match read_id(alloc, fields)? {
        Some(id) => Ok(Addressee::Vehicle(id)),
        None => Ok(Addressee::Station(read_own_station(fields, stations)?)),
    }
}

/// Reads the time of an event or a leave, in milliseconds.
fn read_moment<F: Fields>(fields: &F) -> Result<u64, KeyFault>
    ensures says { IfOk result (IsNumber (F.values fields.now) keys.At) }
    ensures range { IfOk result (λ moment. moment < 2 ^ 63) }
{
    Ok(whole(fields, Key::At)? as u64)
}

/// Reads the id of a station, if there is one.
fn read_id<F: Fields>(alloc: Global, fields: &F) -> Result<Option<String>, KeyFault>
    ensures says { IfOk result (λ id. MatchOption id (IsMissing (F.values fields.now) keys.Id)
        (λ id. IsText (F.values fields.now) keys.Id (string_bytes id))) }
    ensures id { IfOk result (λ id. IfSome id (λ id. IsId (string_bytes id))) }
{
    if !fields.has(Key::Id.word()) {
        return Ok(None);
    }
    let id = text(fields, Key::Id)?;
    if !is_id(id.as_bytes()) {
        return Err(KeyFault::Refused(Key::Id, Wrong::Value));
    }
    match String::from_str(alloc, id) {
        Ok(id) => Ok(Some(id)),
        Err(_) => Err(KeyFault::OutOfMemory),
    }
}

/// Reads the number of a station, which has to be below `stations`.
fn read_own_station<F: Fields>(fields: &F, stations: usize) -> Result<usize, KeyFault>
    ensures says { IfOk result (IsNumber (F.values fields.now) keys.Station) }
    ensures range { IfOk result (λ station. station < 2 ^ 16) }
    ensures own { IfOk result (λ station. station < stations) }
{
    let station = number(fields, Key::Station)? as usize;
    if station < stations {
        Ok(station)
    } else {
        let missing = Wrong::NoStation(station as u16);
        Err(KeyFault::Refused(Key::Station, missing))
    }
}

/// Returns the keyword under `do`, if it is a known one.
fn verb_under<F: Fields>(fields: &F) -> Option<Verb>
    ensures { IfSome result (λ verb. IsText (F.values fields.now) keys.Do (verb_word verb)) }
{
    Verb::named(fields.text(Key::Do.word())?)
}

/// Reads what a station does, as `read_what` does. If the keyword is unknown, the fault names the
/// one of these that may be meant.
fn read_one_of<F: Fields>(alloc: Global, fields: &F, verbs: Verbs) -> Result<What, KeyFault>
    ensures says { IfOk result (λ what. SaysWhat (F.values fields.now) (what_of what)) }
    ensures fits { IfOk result FitsWhat }
{
    match read_what(alloc, fields) {
        Ok(what) => Ok(what),
        Err(KeyFault::Refused(Key::Do, Wrong::Value)) => Err(unknown_verb(alloc, fields, verbs)),
        Err(fault) => Err(fault),
    }
}

/// Returns the fault of an unknown keyword: with the one of these that may be meant, if there is
/// one.
fn unknown_verb<F: Fields>(alloc: Global, fields: &F, verbs: Verbs) -> KeyFault {
    let word = fields.text(Key::Do.word()).unwrap_or("");
    match verbs.meant_by(alloc, word) {
        Ok(Some(meant)) => KeyFault::Refused(Key::Do, Wrong::Near(meant)),
        Ok(None) => KeyFault::Refused(Key::Do, Wrong::Unlisted(verbs)),
        Err(_) => KeyFault::OutOfMemory,
    }
}
