//! A summary as tables, as CSV and as an object in JSON.

use crate::cell::Cell;
use crate::delays::HistogramRow;
use crate::heads::write_heads;
use crate::row::FollowForm;
use crate::summary::{Pair, Summary};
use crate::tap::TapCounts;
use cmd_quoting::OneLine;
use cmd_reporting::Fault;
use cmd_table::{Hyphened, RowArray, Table};
use its_words::json_lines::JsonLine;
use serde::Serialize;
use std::alloc::{AllocError, Global};
use std::fmt;
use std::io::Write;

/// A row per tap: its keys in this order.
#[derive(Clone, Copy, Drop, Serialize)]
struct TapRow<'a> {
    tap: &'a str,
    records: u64,
    rejected: u64,
    packets: u64,
    missing: u64,
}

/// A row per pair of taps: its keys in this order.
#[derive(Clone, Copy, Drop, Serialize)]
struct PairRow<'a> {
    from: &'a str,
    to: &'a str,
    packets: u64,
    received: u64,
    #[serde(skip)]
    ratio: Percentage,
    delays: u64,
    #[serde(skip_serializing_if = "Option::is_none")]
    least: Option<u64>,
    #[serde(skip_serializing_if = "Option::is_none")]
    p50: Option<u64>,
    #[serde(skip_serializing_if = "Option::is_none")]
    p95: Option<u64>,
    #[serde(skip_serializing_if = "Option::is_none")]
    p99: Option<u64>,
    #[serde(skip_serializing_if = "Option::is_none")]
    greatest: Option<u64>,
}

/// The columns of pairs.
const PAIR_COLUMNS: [&str; 11] = [
    "from", "to", "packets", "received", "ratio", "delays", "least", "p50", "p95", "p99",
    "greatest",
];

/// A part of a whole. It prints as a percentage with one decimal, rounded down, and as nothing if
/// the whole is 0.
#[derive(Clone, Copy)]
struct Percentage {
    part: u64,
    all: u64,
}

impl fmt::Display for Percentage {
    fn fmt<W: fmt::Write>(&self, f: &mut fmt::Formatter<W>) -> fmt::Result {
        match self.part.saturating_mul(1000).checked_div(self.all) {
            Some(tenths) => write!(f, "{}.{}", tenths / 10, tenths % 10),
            None => Ok(()),
        }
    }
}

/// A number, or `None`, which prints as nothing.
#[derive(Clone, Copy)]
struct Maybe(Option<u64>);

impl fmt::Display for Maybe {
    fn fmt<W: fmt::Write>(&self, f: &mut fmt::Formatter<W>) -> fmt::Result {
        match self.0 {
            Some(number) => write!(f, "{number}"),
            None => Ok(()),
        }
    }
}

impl<'a> PairRow<'a> {
    /// Returns the row of a pair of taps with these names.
    fn of(pair: &Pair, names: &[&'a str]) -> PairRow<'a> {
        let ends = pair.delays.ends();
        PairRow {
            from: name_of(names, pair.from),
            to: name_of(names, pair.to),
            packets: pair.packets,
            received: pair.received,
            ratio: Percentage {
                part: pair.received,
                all: pair.packets,
            },
            delays: pair.delays.count(),
            least: ends.map(|ends| ends.0),
            p50: pair.delays.quantile(50),
            p95: pair.delays.quantile(95),
            p99: pair.delays.quantile(99),
            greatest: ends.map(|ends| ends.1),
        }
    }

    /// Returns its delays, in microseconds.
    fn micros(&self) -> [Option<u64>; 5] {
        [self.least, self.p50, self.p95, self.p99, self.greatest]
    }

    /// Adds the row to the table of pairs.
    fn add_to(&self, table: &mut Table) -> Result<(), AllocError> {
        table.add(&OneLine(self.from))?;
        table.add(&OneLine(self.to))?;
        table.add(&self.packets)?;
        table.add(&self.received)?;
        table.add(&Hyphened((self.packets > 0).then_some(self.ratio)))?;
        table.add(&self.delays)?;
        for micros in self.micros() {
            table.add(&Hyphened(micros))?;
        }
        Ok(())
    }
}

/// The row as cells of CSV.
impl fmt::Display for PairRow<'_> {
    fn fmt<W: fmt::Write>(&self, f: &mut fmt::Formatter<W>) -> fmt::Result {
        let (packets, received, ratio) = (self.packets, self.received, self.ratio);
        write!(f, "{},{},", Cell(self.from), Cell(self.to))?;
        write!(f, "{packets},{received},{ratio},{}", self.delays)?;
        for micros in self.micros() {
            write!(f, ",{}", Maybe(micros))?;
        }
        Ok(())
    }
}

/// Returns the name of a tap.
fn name_of<'a>(names: &[&'a str], tap: usize) -> &'a str {
    names.get(tap).copied().unwrap_or("")
}

/// What there is to print.
#[derive(Clone, Copy)]
pub(crate) struct Summed<'s, 'a> {
    pub(crate) summary: &'s Summary,
    /// The names of the taps.
    pub(crate) names: &'s [&'a str],
    /// Their counts.
    pub(crate) counts: &'s [TapCounts],
}

impl<'a> Summed<'_, 'a> {
    /// Returns the rows of the taps.
    fn taps(&self, alloc: Global) -> Result<Vec<TapRow<'a>>, AllocError> {
        let mut rows = Vec::new(alloc);
        for (tap, counts) in self.summary.taps.iter().zip(self.counts) {
            rows.push(TapRow {
                tap: name_of(self.names, tap.tap),
                records: counts.records,
                rejected: counts.rejected,
                packets: tap.seen,
                missing: tap.missing,
            })?;
        }
        Ok(rows)
    }

    /// Returns the rows of the pairs.
    fn pairs(&self, alloc: Global) -> Result<Vec<PairRow<'a>>, AllocError> {
        let mut rows = Vec::new(alloc);
        for pair in self.summary.pairs.iter() {
            rows.push(PairRow::of(pair, self.names))?;
        }
        Ok(rows)
    }

    /// Prints the summary. As CSV it is only the table of pairs.
    pub(crate) fn print<'f, W: Write>(
        &self,
        alloc: Global,
        form: FollowForm,
        out: &mut W,
    ) -> Result<(), Fault<'f>> {
        match form {
            FollowForm::Words => self.print_tables(alloc, out),
            FollowForm::Csv => self.print_rows(alloc, out),
            FollowForm::Json => self.print_object(alloc, out),
        }
    }

    /// Prints three tables, with empty lines between them.
    fn print_tables<'f, W: Write>(&self, alloc: Global, out: &mut W) -> Result<(), Fault<'f>> {
        let heads = ["tap", "records", "rejected", "packets", "missing"];
        let mut table = Table::new(alloc, &heads)?;
        for row in self.taps(alloc)?.iter() {
            table.add(&OneLine(row.tap))?;
            for count in [row.records, row.rejected, row.packets, row.missing] {
                table.add(&count)?;
            }
        }
        table.write(out)?;
        writeln!(out)?;
        let mut table = Table::new(alloc, &PAIR_COLUMNS)?;
        for row in self.pairs(alloc)?.iter() {
            row.add_to(&mut table)?;
        }
        table.write(out)?;
        writeln!(out)?;
        let mut table = Table::new(alloc, &["ms", "forwarded"])?;
        for row in self.summary.forwarding.rows()?.iter() {
            table.add(&row.millis)?;
            table.add(&row.frames)?;
        }
        table.write(out)?;
        Ok(())
    }

    /// Prints the pairs as CSV.
    fn print_rows<'f, W: Write>(&self, alloc: Global, out: &mut W) -> Result<(), Fault<'f>> {
        write_heads(&PAIR_COLUMNS, ",", out)?;
        for row in self.pairs(alloc)?.iter() {
            writeln!(out, "{row}")?;
        }
        Ok(())
    }

    /// Prints the summary as an object.
    fn print_object<'f, W: Write>(&self, alloc: Global, out: &mut W) -> Result<(), Fault<'f>> {
        let taps = self.taps(alloc)?;
        let pairs = self.pairs(alloc)?;
        let forwarding = self.summary.forwarding.rows()?;
        let object = SummaryObject {
            packets: self.summary.packets,
            taps: RowArray(taps.as_slice()),
            pairs: RowArray(pairs.as_slice()),
            forwarding: RowArray(forwarding.as_slice()),
        };
        let mut line = JsonLine::new(alloc)?;
        out.write_all(line.of(&object)?)?;
        Ok(())
    }
}

/// A summary: its keys in this order.
#[derive(Clone, Copy, Serialize)]
struct SummaryObject<'s, 'a> {
    packets: u64,
    taps: RowArray<'s, TapRow<'a>>,
    pairs: RowArray<'s, PairRow<'a>>,
    forwarding: RowArray<'s, HistogramRow>,
}
