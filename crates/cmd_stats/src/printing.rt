//! Prints the counts as tables and as an object in JSON.

use crate::counting::Counts;
use crate::kinds::Kinds;
use crate::ports::{PortRow, port_table};
use crate::psids::{PsidRow, psid_table};
use crate::seconds::{SecondRow, second_table};
use crate::sources::{SourceColumns, SourceRow, source_table};
use cap_records::{RefusedCapture, Walked};
use cmd_reporting::Fault;
use cmd_table::RowArray;
use its_words::json_lines::JsonLine;
use serde::Serialize;
use std::alloc::Global;
use std::io::Write;

/// The counts to print.
#[derive(Clone, Copy)]
pub(crate) struct Counted<'c> {
    pub(crate) counts: &'c Counts,
    /// The result of reading the file.
    pub(crate) walked: &'c Walked,
    /// How many sources are printed at most.
    pub(crate) top: Option<u64>,
    /// Whether PSIDs are printed.
    pub(crate) signed: bool,
    /// Which additional columns the rows of sources have.
    pub(crate) columns: SourceColumns,
}

/// Prints the four tables, and that of PSIDs if it is wanted, with empty lines between them. Then
/// prints why the file was refused, with a sentence if `explain` is set.
pub(crate) fn print_tables<'f, W: Write>(
    alloc: Global,
    counted: Counted<'_>,
    explain: bool,
    out: &mut W,
) -> Result<(), Fault<'f>> {
    let (counts, walked) = (counted.counts, counted.walked);
    let sources = counts.sources.rows(counted.top, counted.columns)?;
    let ports = counts.ports.rows()?;
    counts.kinds.table(alloc, explain)?.write(out)?;
    writeln!(out)?;
    source_table(alloc, sources.as_slice(), counted.columns)?.write(out)?;
    writeln!(out)?;
    port_table(alloc, ports.as_slice())?.write(out)?;
    writeln!(out)?;
    second_table(alloc, counts.seconds.busiest())?.write(out)?;
    if counted.signed {
        writeln!(out)?;
        psid_table(alloc, counts.psids.rows()?.as_slice())?.write(out)?;
    }
    if let Some(fault) = walked.fault {
        let refused = RefusedCapture::new(walked.read, fault, explain);
        writeln!(out, "{refused}")?;
    }
    Ok(())
}

/// All counts: the keys of the object, in this order.
#[derive(Clone, Copy, Serialize)]
struct Everything<'a> {
    records: Kinds,
    sources: RowArray<'a, SourceRow>,
    ports: RowArray<'a, PortRow>,
    load: Option<SecondRow>,
    #[serde(skip_serializing_if = "Option::is_none")]
    psids: Option<RowArray<'a, PsidRow>>,
    #[serde(flatten)]
    fault: Option<RefusedCapture>,
}

/// Prints the counts as one object.
pub(crate) fn print_object<'f, W: Write>(
    alloc: Global,
    counted: Counted<'_>,
    out: &mut W,
) -> Result<(), Fault<'f>> {
    let (counts, walked) = (counted.counts, counted.walked);
    let sources = counts.sources.rows(counted.top, counted.columns)?;
    let ports = counts.ports.rows()?;
    let psids = counts.psids.rows()?;
    let fault = walked
        .fault
        .map(|fault| RefusedCapture::new(walked.read, fault, false));
    let everything = Everything {
        records: counts.kinds,
        sources: RowArray(sources.as_slice()),
        ports: RowArray(ports.as_slice()),
        load: counts.seconds.busiest(),
        psids: counted.signed.then_some(RowArray(psids.as_slice())),
        fault,
    };
    let mut line = JsonLine::new(alloc)?;
    out.write_all(line.of(&everything)?)?;
    Ok(())
}
