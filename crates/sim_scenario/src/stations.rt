//! Reading the stations of a scenario.

ghost use Rattle.std.specs.Prelude.{◌≡◌, All, IfOk, length, vec_len};
ghost use Rattle.sim_scenario.specs.Saying.{SaysStation};
ghost use Rattle.sim_settings.specs.Tables.{table_values};
ghost use Rattle.sim_scenario.specs.Scenarios.{SaysOwnContention, SaysPresence};
ghost use Rattle.sim_settings.specs.Items.{SayItems};
ghost use Rattle.its_world.specs.Events.{IsConfig};
ghost use Rattle.toml.specs.View.{items_view, table_view};

use crate::events::{read_own_contention, read_present, read_station};
use crate::fault::DocumentFault;
use crate::part::Part;
use its_words::keys::Key;
use its_world::Config;
use sim_settings::TomlFields;
use std::alloc::Global;
use toml::{Table, Value};

/// The stations of a document, as they are read.
#[derive(Drop)]
pub(crate) struct ReadStations {
    pub(crate) stations: Vec<Config>,
    /// Whether each is present at the start.
    pub(crate) present: Vec<bool>,
    /// The key `contention` of each, if it has one.
    pub(crate) contend: Vec<Option<bool>>,
}

/// Reads stations and, with a radio model, whether each is present at the start and whether it
/// contends. Without a radio model all are present and none contends, and `absent` and `contention`
/// are ignored.
pub(crate) fn read_stations(
    alloc: Global,
    items: &[Value],
    has_air: bool,
) -> Result<ReadStations, DocumentFault>
    ensures all { IfOk result (λ read. vec_len read.stations ≡ length items.now) }
    ensures present { IfOk result (λ read. vec_len read.present ≡ length items.now) }
    ensures says { IfOk result (λ read.
        SayItems SaysStation (items_view items.now) read.stations.items) }
    ensures presence { IfOk result (λ read.
        SayItems (SaysPresence has_air) (items_view items.now) read.present.items) }
    ensures contention { IfOk result (λ read.
        SayItems (SaysOwnContention has_air) (items_view items.now) read.contend.items) }
    ensures configs { IfOk result (λ read. All IsConfig read.stations.items) }
{
    let mut stations = Vec::with_capacity(alloc, items.len())?;
    let mut present = Vec::with_capacity(alloc, items.len())?;
    let mut contend = Vec::with_capacity(alloc, items.len())?;
    for (number, item) in items.iter().enumerate() {
        // `array_of_tables` has seen that each item is one.
        let Some(table) = item.as_table() else {
            return Err(DocumentFault::Kind(Key::Station, None));
        };
        stations.push(read_numbered_station(alloc, table, number)?)?;
        present.push(read_presence(alloc, table, number, has_air)?)?;
        contend.push(read_contention(alloc, table, number, has_air)?)?;
    }
    Ok(ReadStations {
        stations,
        present,
        contend,
    })
}

/// Reads the station with this number.
fn read_numbered_station(
    alloc: Global,
    table: &Table,
    number: usize,
) -> Result<Config, DocumentFault>
    ensures says { IfOk result (SaysStation (table_values (table_view table.now))) }
    ensures ranges { IfOk result IsConfig }
{
    read_station(&TomlFields(table)).map_err(|fault| {
        DocumentFault::of_key(alloc, fault, Part::Station(number), table)
    })
}

/// Reads whether the station with this number is present at the start.
fn read_presence(
    alloc: Global,
    table: &Table,
    number: usize,
    has_air: bool,
) -> Result<bool, DocumentFault>
    ensures says { IfOk result (SaysPresence has_air (table_values (table_view table.now))) }
{
    if !has_air {
        return Ok(true);
    }
    read_present(&TomlFields(table)).map_err(|fault| {
        DocumentFault::of_key(alloc, fault, Part::Station(number), table)
    })
}

/// Reads whether the station with this number contends, if it has the key.
fn read_contention(
    alloc: Global,
    table: &Table,
    number: usize,
    has_air: bool,
) -> Result<Option<bool>, DocumentFault>
    ensures says { IfOk result (SaysOwnContention has_air (table_values (table_view table.now))) }
{
    if !has_air {
        return Ok(None);
    }
    read_own_contention(&TomlFields(table)).map_err(|fault| {
        DocumentFault::of_key(alloc, fault, Part::Station(number), table)
    })
}
