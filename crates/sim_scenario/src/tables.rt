//! The tables of a document, and the scenario in them.

ghost use Rattle.std.specs.Prelude.{◌≡◌, ◌≤◌, IfOk, vec_len};
ghost use Rattle.its_words.specs.Keys.{word_of};
ghost use Rattle.sim_settings.specs.Tables.{items_of_found};
ghost use Rattle.its_words.specs.declared.keys.key.Key.TheVariants as keys;
ghost use Rattle.sim_scenario.specs.Scenarios.{ArePartsOf, SayScenario, SayTimeline, air_if};
ghost use Rattle.sim_scenario.specs.Scenarios.{air_in, members_in, parts_in, reads_air};
ghost use Rattle.sim_settings.specs.Items.{items_if, members_if};
ghost use Rattle.sim_settings.specs.Moves.{SaysMoves};
ghost use Rattle.toml.specs.Data.{get_member};
ghost use Rattle.toml.specs.View.{items_view, table_view};

use crate::contention::contending;
use crate::event_tables::{read_events, read_file};
use crate::fault::DocumentFault;
use crate::reading::{AirTable, Reading};
use crate::scenario::Scenario;
use crate::settings::{read_every, read_expectations, read_known_air, read_known_moves};
use crate::stations::{ReadStations, read_stations};
use crate::timeline::{AirTimeline, MovesTimeline, PlainTimeline, Timeline};
use crate::unknown::{refuse_all_unknown, unknown_keys};
use its_words::keys::Key;
use its_world::{Config, refuse_shared};
use sim_settings::{Moves, SetAir, items_of, value_of};
use std::alloc::Global;
use toml::{Table, Value};

/// The tables of a document that are read.
#[derive(Clone, Copy)]
pub(crate) struct Tables<'a> {
    document: &'a Table,
    stations: &'a [Value],
    events: &'a [Value],
    /// Whether it is run with the moves of a file.
    has_moves: bool,
    air: Option<SetAir<'a>>,
    every: &'a [Value],
    moves: Option<&'a Table>,
    expectations: &'a [Value],
}

impl<'a> Tables<'a> {
    /// Finds the tables of a document.
    pub(crate) fn of(
        alloc: Global,
        document: &'a Table,
        reading: &'a Reading,
    ) -> Result<Tables<'a>, DocumentFault>
        ensures parts { IfOk result (λ tables.
            ArePartsOf reading.now (table_view document.now) (parts_in tables)) }
    {
        let stations = array_of_tables(alloc, document, Key::Station)?;
        let events = array_of_tables(alloc, document, Key::Event)?;
        let air = air_of(alloc, document, reading)?;
        let every = array_if(alloc, document, Key::Every, air.is_some())?;
        let moves = moves_of(alloc, document, air.is_some())?;
        let expectations = array_if(alloc, document, Key::Expect, reading.air.is_read())?;
        Ok(Tables {
            document,
            stations,
            events,
            has_moves: reading.moves,
            air,
            every,
            moves,
            expectations,
        })
    }

    /// Reads the scenario in these tables.
    pub(crate) fn read(self, alloc: Global, most_stations: usize) -> Result<Scenario, DocumentFault>
        ensures few { IfOk result (λ scenario. vec_len scenario.stations ≤ most_stations) }
        ensures says { IfOk result (SayScenario (parts_in self.entry)) }
    {
        if self.stations.len() > most_stations {
            return Err(DocumentFault::TooManyStations);
        }
        let ReadStations {
            stations,
            present,
            contend,
        } = read_stations(alloc, self.stations, self.air.is_some())?;
        let timeline = self.read_timeline(alloc, stations.as_slice())?;
        let contend = contending(alloc, timeline.usual_contention(), contend.as_slice())?;
        let expectations = read_expectations(alloc, self.expectations)?;
        refuse_shared(alloc, stations.as_slice())?;
        let unknown = unknown_keys(alloc, self.document, self.stations, self.events)?;
        Ok(Scenario {
            stations,
            present,
            contend,
            timeline,
            expectations,
            unknown,
        })
    }

    /// Reads the events of a scenario with these stations, and how they are run.
    fn read_timeline(self, alloc: Global, stations: &[Config]) -> Result<Timeline, DocumentFault>
        ensures says { IfOk result (SayTimeline (parts_in self.entry)) }
    {
        let Some(fields) = self.air else {
            let events = read_events(alloc, self.events, stations.len())?;
            return Ok(Timeline::Plain(PlainTimeline { events }));
        };
        let air = read_known_air(alloc, fields)?;
        let every = read_every(alloc, self.every)?;
        let moves = self.read_moves(alloc, air.contends)?;
        if self.has_moves {
            let addressed = read_events(alloc, self.events, stations.len())?;
            return Ok(Timeline::Moves(MovesTimeline {
                air,
                every,
                moves,
                events: addressed,
            }));
        }
        let events = read_file(alloc, self.events, stations)?;
        Ok(Timeline::Air(AirTimeline { air, every, events }))
    }

    /// Reads how moves are read. `contends` is the value of the air.
    fn read_moves(self, alloc: Global, contends: bool) -> Result<Moves, DocumentFault>
        ensures says { IfOk result (SaysMoves contends (members_in self.entry.moves)) }
    {
        match self.moves {
            Some(table) => read_known_moves(alloc, table, contends),
            None => Ok(Moves::usual(alloc, contends)),
        }
    }

    /// Refuses each unknown key, if the reading is strict.
    pub(crate) fn refuse_unknown(
        self,
        alloc: Global,
        document: &Table,
        strict: bool,
    ) -> Result<(), DocumentFault> {
        if strict {
            refuse_all_unknown(alloc, document, self.stations, self.events)
        } else {
            Ok(())
        }
    }
}

/// Returns the table of the air with the values that replace its own, if it is read and there is
/// one. `Kind` if it is not a table. `NoAir` or `Misspelled` if it is missing and the reading
/// requires it.
fn air_of<'a>(
    alloc: Global,
    document: &'a Table,
    reading: &'a Reading,
) -> Result<Option<SetAir<'a>>, DocumentFault>
    ensures says { IfOk result (λ air. air_if (reads_air reading.now.air) reading.now.settings
        (table_view document.now) ≡ Some (air_in air)) }
{
    if !reading.air.is_read() {
        return Ok(None);
    }
    let settings = &reading.settings;
    match value_of(document, "air") {
        None if matches!(reading.air, AirTable::Required) => {
            Err(DocumentFault::of_missing(alloc, Key::Air, None, document))
        }
        None => Ok(None),
        Some(value) => match value.as_table() {
            Some(table) => Ok(Some(SetAir { table, settings })),
            None => Err(DocumentFault::of_kind(alloc, Key::Air, document)),
        },
    }
}

/// Returns the tables of the array under a key, if it is read. Otherwise the key is ignored, and
/// the result is empty.
fn array_if<'a>(
    alloc: Global,
    document: &'a Table,
    key: Key,
    is_read: bool,
) -> Result<&'a [Value], DocumentFault>
    ensures says { IfOk result (λ items.
        items_if is_read key (table_view document.now) ≡ Some (items_view items.now)) }
{
    if !is_read {
        return Ok(&[]);
    }
    array_of_tables(alloc, document, key)
}

/// Returns the table of how moves are read, if there is one. Without an air the key is ignored.
fn moves_of(alloc: Global, document: &Table, has_air: bool) -> Result<Option<&Table>, DocumentFault>
    ensures says { IfOk result (λ table.
        members_if has_air keys.Moves (table_view document.now) ≡ Some (members_in table)) }
{
    if !has_air {
        return Ok(None);
    }
    match value_of(document, "moves") {
        None => Ok(None),
        Some(value) => match value.as_table() {
            Some(table) => Ok(Some(table)),
            None => Err(DocumentFault::of_kind(alloc, Key::Moves, document)),
        },
    }
}

/// Returns the tables of the array under a key: none if the key is missing. `Kind` if its value is
/// not an array of tables.
fn array_of_tables<'a>(
    alloc: Global,
    document: &'a Table,
    key: Key,
) -> Result<&'a [Value], DocumentFault>
    ensures says { IfOk result (λ items.
        items_of_found (get_member (word_of key) (table_view document.now))
        ≡ Some (items_view items.now)) }
{
    match items_of(document, key.word()) {
        Some(items) if are_tables(items) => Ok(items),
        _ => Err(DocumentFault::of_kind(alloc, key, document)),
    }
}

/// Whether each of these values is a table.
fn are_tables(items: &[Value]) -> bool {
    items.iter().all(|item| matches!(item, Value::Table(_)))
}
