//! Reads how a scenario is run: its air, traffic, moves and expectations. An unknown key in one of
//! these is refused.

ghost use Rattle.std.specs.Prelude.{IfOk};
ghost use Rattle.sim_settings.specs.Tables.{table_values};
ghost use Rattle.sim_scenario.specs.Scenarios.{set_air_values};
ghost use Rattle.sim_settings.specs.Items.{SayItems};
ghost use Rattle.sim_settings.specs.Moves.{SaysMoves};
ghost use Rattle.sim_settings.specs.Saying.{SaysAir, SaysExpectation, SaysTraffic};
ghost use Rattle.toml.specs.View.{items_view, table_view};

use crate::fault::DocumentFault;
use crate::part::Part;
use crate::unknown::refuse_unknown;
use its_words::keys::Key;
use sim_settings::{
    Air, Expectation, Moves, SetAir, TomlFields, Traffic, read_air, read_expectation, read_moves,
    read_traffic,
};
use std::alloc::Global;
use toml::{Table, Value};

/// Reads an air. An unknown key is refused.
pub(crate) fn read_known_air(alloc: Global, fields: SetAir<'_>) -> Result<Air, DocumentFault>
    ensures says { IfOk result (SaysAir (set_air_values fields.entry)) }
{
    let table = fields.table;
    let part = Part::Air;
    let air = read_air(&fields).map_err(|fault| {
        DocumentFault::of_key(alloc, fault, part, table)
    })?;
    refuse_unknown(alloc, table, part)?;
    Ok(air)
}

/// Reads the traffic of each of these tables, in order.
pub(crate) fn read_every(alloc: Global, items: &[Value]) -> Result<Vec<Traffic>, DocumentFault>
    ensures says { IfOk result (λ every.
        SayItems SaysTraffic (items_view items.now) every.items) }
{
    let mut every = Vec::with_capacity(alloc, items.len())?;
    for (number, item) in items.iter().enumerate() {
        // Each item was seen to be a table.
        let Some(table) = item.as_table() else {
            return Err(DocumentFault::Kind(Key::Every, None));
        };
        every.push(read_known_traffic(alloc, table, number)?)?;
    }
    Ok(every)
}

/// Reads the traffic with this number. An unknown key is refused.
fn read_known_traffic(alloc: Global, table: &Table, number: usize) -> Result<Traffic, DocumentFault>
    ensures says { IfOk result (SaysTraffic (table_values (table_view table.now))) }
{
    let part = Part::Every(number);
    let traffic = read_traffic(&TomlFields(table)).map_err(|fault| {
        DocumentFault::of_key(alloc, fault, part, table)
    })?;
    refuse_unknown(alloc, table, part)?;
    Ok(traffic)
}

/// Reads how moves are read. An unknown key is refused. `contends` is the value of the air.
pub(crate) fn read_known_moves(
    alloc: Global,
    table: &Table,
    contends: bool,
) -> Result<Moves, DocumentFault>
    ensures says { IfOk result (SaysMoves contends (table_view table.now)) }
{
    let part = Part::Moves;
    let moves = read_moves(alloc, table, contends).map_err(|fault| {
        DocumentFault::of_key(alloc, fault, part, table)
    })?;
    refuse_unknown(alloc, table, part)?;
    Ok(moves)
}

/// Reads the expectations, in order.
pub(crate) fn read_expectations(
    alloc: Global,
    items: &[Value],
) -> Result<Vec<Expectation>, DocumentFault>
    ensures says { IfOk result (λ expectations.
        SayItems SaysExpectation (items_view items.now) expectations.items) }
{
    let mut expectations = Vec::with_capacity(alloc, items.len())?;
    for (number, item) in items.iter().enumerate() {
        // Each item was seen to be a table.
        let Some(table) = item.as_table() else {
            return Err(DocumentFault::Kind(Key::Expect, None));
        };
        expectations.push(read_known_expectation(alloc, table, number)?)?;
    }
    Ok(expectations)
}

/// Reads the expectation with this number. An unknown key is refused.
fn read_known_expectation(
    alloc: Global,
    table: &Table,
    number: usize,
) -> Result<Expectation, DocumentFault>
    ensures says { IfOk result (SaysExpectation (table_values (table_view table.now))) }
{
    let part = Part::Expectation(number);
    let expectation = read_expectation(&TomlFields(table)).map_err(|fault| {
        DocumentFault::of_key(alloc, fault, part, table)
    })?;
    refuse_unknown(alloc, table, part)?;
    Ok(expectation)
}
