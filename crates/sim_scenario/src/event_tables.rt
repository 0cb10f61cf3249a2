//! Reading the events of a scenario.

ghost use Rattle.std.specs.Prelude.{◌≡◌, All, IfOk, length, vec_len};
ghost use Rattle.sim_scenario.specs.Events.{FitsFileEvent};
ghost use Rattle.sim_scenario.specs.Saying.{SaysFileEvent};
ghost use Rattle.sim_settings.specs.Tables.{table_values};
ghost use Rattle.sim_settings.specs.Items.{SayItems};
ghost use Rattle.toml.specs.View.{items_view, table_view};

use crate::events::{
    AddressedEvent, FileEvent, StationEvent, read_addressed, read_event, read_station_event,
};
use crate::fault::DocumentFault;
use crate::part::Part;
use crate::places::Places;
use its_words::keys::{Key, KeyFault};
use its_world::{Config, Event};
use sim_settings::TomlFields;
use std::alloc::Global;
use toml::{Table, Value};

/// An event of a document, which a table of it describes.
pub(crate) trait TableEvent: Sized + Drop {
    ghost use Rattle.its_words.specs.Fields.{FieldValues};

    /// The keys of its table say this event.
    ghost Says: { FieldValues → Self → Type 0 };

    /// Its numbers are in their ranges.
    ghost Fits: { Self → Type 0 };

    /// Reads the event of this number from its table, for a scenario with this number of stations.
    fn read(alloc: Global, table: &Table, number: usize, stations: usize) -> Result<Self, KeyFault>
        ensures says { IfOk result (Says (table_values (table_view table.now))) }
        ensures ranges { IfOk result Fits };
}

/// An event of a scenario without a radio model.
impl TableEvent for Event {
    ghost use Rattle.sim_scenario.specs.Events.{FitsEvent};
    ghost use Rattle.sim_scenario.specs.Saying.{SaysEvent};

    ghost Says = { SaysEvent };

    ghost Fits = { FitsEvent };

    fn read(alloc: Global, table: &Table, _: usize, _: usize) -> Result<Event, KeyFault> {
        read_event(alloc, &TomlFields(table))
    }
}

/// An event or a leave of a scenario with a radio model.
impl TableEvent for StationEvent {
    ghost use Rattle.sim_scenario.specs.Events.{FitsStationEvent};
    ghost use Rattle.sim_scenario.specs.Saying.{SaysStationEvent};

    ghost Says = { SaysStationEvent };

    ghost Fits = { FitsStationEvent };

    fn read(alloc: Global, table: &Table, _: usize, _: usize) -> Result<StationEvent, KeyFault> {
        read_station_event(alloc, &TomlFields(table))
    }
}

/// An event or a leave of a scenario with moves.
impl TableEvent for AddressedEvent {
    ghost use Rattle.sim_scenario.specs.Events.{FitsAddressed};
    ghost use Rattle.sim_scenario.specs.Saying.{SaysAddressed};

    ghost Says = { SaysAddressed };

    ghost Fits = { FitsAddressed };

    fn read(
        alloc: Global,
        table: &Table,
        number: usize,
        stations: usize,
    ) -> Result<AddressedEvent, KeyFault> {
        read_addressed(alloc, &TomlFields(table), number, stations)
    }
}

/// Reads the events of a scenario with this number of stations.
pub(crate) fn read_events<E: TableEvent>(
    alloc: Global,
    items: &[Value],
    stations: usize,
) -> Result<Vec<E>, DocumentFault>
    ensures all { IfOk result (λ events. vec_len events ≡ length items.now) }
    ensures says { IfOk result (λ events. SayItems E.Says (items_view items.now) events.items) }
    ensures ranges { IfOk result (λ events. All E.Fits events.items) }
{
    let mut events = Vec::with_capacity(alloc, items.len())?;
    for (number, item) in items.iter().enumerate() {
        // `array_of_tables` has seen that each item is one.
        let Some(table) = item.as_table() else {
            return Err(DocumentFault::Kind(Key::Event, None));
        };
        events.push(read_numbered_event(alloc, table, number, stations)?)?;
    }
    Ok(events)
}

/// Reads the event of this number.
fn read_numbered_event<E: TableEvent>(
    alloc: Global,
    table: &Table,
    number: usize,
    stations: usize,
) -> Result<E, DocumentFault>
    ensures says { IfOk result (E.Says (table_values (table_view table.now))) }
    ensures ranges { IfOk result E.Fits }
{
    E::read(alloc, table, number, stations).map_err(|fault| {
        DocumentFault::of_key(alloc, fault, Part::Event(number), table)
    })
}

/// Reads what waits in a radio model of these stations. An area whose centre is left out is around
/// the position where its station is then.
pub(crate) fn read_file(
    alloc: Global,
    items: &[Value],
    stations: &[Config],
) -> Result<Vec<FileEvent>, DocumentFault>
    ensures says { IfOk result (λ file.
        SayItems SaysFileEvent (items_view items.now) file.items) }
    ensures ranges { IfOk result (λ file. All FitsFileEvent file.items) }
{
    let events: Vec<StationEvent> = read_events(alloc, items, stations.len())?;
    let places = Places::of(alloc, stations, events.as_slice())?;
    let mut file = Vec::with_capacity(alloc, events.len())?;
    for event in events {
        let place = places.at(file.len());
        file.push(event.action.done_at(event.station, event.moment, place))?;
    }
    Ok(file)
}
