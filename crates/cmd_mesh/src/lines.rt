//! The lines of a mesh, as text or as objects in JSON.

use cmd_reporting::OutputFormat;
use its_world::{Config, Entry};
use sim_simulation::{EntryText, JsonLines, SimulationFault};
use std::alloc::Global;
use std::io::Write;

/// Writes what comes before the lines of calls: in JSON the line of the stations, in text nothing.
/// `OutOfMemory` if an allocation failed, `Output` if a write did.
pub(crate) fn print_stations<W: Write>(
    alloc: Global,
    format: OutputFormat,
    configs: &[Config],
    out: &mut W,
) -> Result<(), SimulationFault> {
    if format.json {
        JsonLines::new(alloc, out)?.stations(configs)
    } else {
        Ok(())
    }
}

/// Writes the line of a call with this keyword, for example `1000 0 sent 0` or
/// `{"moment":1000,"station":0,"do":"gbc","result":"sent","sent":0}`. `OutOfMemory` if an
/// allocation failed, `Output` if a write did.
pub(crate) fn print_call<W: Write>(
    alloc: Global,
    format: OutputFormat,
    moment: u64,
    station: usize,
    word: &'static str,
    entry: &Entry,
    out: &mut W,
) -> Result<(), SimulationFault> {
    if format.json {
        return JsonLines::new(alloc, out)?.call(moment, station, word, entry);
    }
    let explain = format.explain;
    let text = EntryText { entry, explain };
    writeln!(out, "{moment} {station} {text}")?;
    Ok(())
}
