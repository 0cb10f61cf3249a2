//! The rows of a packet, one per tap.

use crate::cell::Cell;
use crate::heads::write_heads;
use crate::packet::FollowedPacket;
use crate::sighting::{NANOS, Sighting};
use cmd_quoting::OneLine;
use cmd_reporting::Fault;
use cmd_times::{Clock, Instant, Moment, Time};
use its_words::json_lines::{Digits, JsonLine};
use serde::{Described, Serialize, Serializer};
use std::alloc::{AllocError, Global};
use std::fmt;
use std::io::Write;

/// The format of the output.
#[derive(Clone, Copy, Debug, PartialEq, Eq)]
pub enum FollowForm {
    /// As text, for a person.
    Words,
    /// As CSV (RFC 4180).
    Csv,
    /// As objects in JSON.
    Json,
}

/// The columns of a row.
const COLUMNS: [&str; 11] = [
    "packet", "kind", "address", "number", "tst", "tap", "frames", "record", "moment", "delay",
    "path",
];

/// Prints the rows of packets.
#[derive(Drop)]
pub(crate) struct RowPrinter<'a> {
    form: FollowForm,
    line: JsonLine,
    clock: Clock,
    /// The names of the taps.
    names: &'a [&'a str],
}

impl<'a> RowPrinter<'a> {
    /// Returns a printer for taps with these names. `AllocError` if an allocation failed.
    pub(crate) fn new(
        alloc: Global,
        form: FollowForm,
        time: Time,
        names: &'a [&'a str],
    ) -> Result<RowPrinter<'a>, AllocError> {
        Ok(RowPrinter {
            form,
            line: JsonLine::new(alloc)?,
            clock: Clock::new(time),
            names,
        })
    }

    /// Prints the names of the columns. JSON has none.
    pub(crate) fn begin<'f, W: Write>(&self, out: &mut W) -> Result<(), Fault<'f>> {
        let separator = match self.form {
            FollowForm::Words => " ",
            FollowForm::Csv => ",",
            FollowForm::Json => return Ok(()),
        };
        write_heads(&COLUMNS, separator, out)?;
        Ok(())
    }

    /// Prints the row of a packet at each tap.
    pub(crate) fn put<'f, W: Write>(
        &mut self,
        packet: &FollowedPacket,
        out: &mut W,
    ) -> Result<(), Fault<'f>> {
        for (tap, name) in self.names.iter().enumerate() {
            let row = Row {
                packet,
                tap,
                name,
                clock: self.clock,
            };
            match self.form {
                FollowForm::Words => writeln!(out, "{}", RowWords(row))?,
                FollowForm::Csv => writeln!(out, "{}", RowCells(row))?,
                FollowForm::Json => out.write_all(self.line.of(&row.object())?)?,
            }
        }
        Ok(())
    }
}

/// A packet at a tap.
#[derive(Clone, Copy)]
struct Row<'p> {
    packet: &'p FollowedPacket,
    /// The number of the tap.
    tap: usize,
    /// Its name.
    name: &'p str,
    clock: Clock,
}

impl<'p> Row<'p> {
    /// How many frames the tap has of the packet.
    fn frames(&self) -> usize {
        let tap = self.tap;
        self.packet
            .sightings()
            .iter()
            .filter(|sighting| sighting.tap == tap)
            .count()
    }

    /// Returns how long after the packet's first frame at any tap this frame was captured, in
    /// microseconds.
    fn delay(&self, sighting: &Sighting) -> u64 {
        sighting.stamp.saturating_sub(self.packet.first_stamp()) / 1000
    }

    /// The time of a frame, as it is printed.
    fn moment(&self, sighting: &Sighting) -> Moment {
        moment_of(self.clock, sighting)
    }

    /// Returns the row as an object.
    fn object(self) -> RowObject<'p> {
        let fields = self.packet.fields;
        let first = self.packet.first_at(self.tap);
        RowObject {
            packet: self.packet.number,
            kind: fields.kind.word(),
            address: Digits(fields.address.to_be_bytes()),
            number: fields.number,
            tst: fields.tst,
            tap: self.name,
            delay: first.map(|sighting| self.delay(sighting)),
            frames: FrameObjects(self),
        }
    }
}

/// The time of a frame, as it is printed.
fn moment_of(clock: Clock, sighting: &Sighting) -> Moment {
    let mut clock = clock;
    clock.at(Instant::of_nanos(0), Instant::of_nanos(sighting.stamp))
}

/// The row as text.
#[derive(Clone, Copy)]
struct RowWords<'p>(Row<'p>);

impl fmt::Display for RowWords<'_> {
    fn fmt<W: fmt::Write>(&self, f: &mut fmt::Formatter<W>) -> fmt::Result {
        let row = &self.0;
        let fields = row.packet.fields;
        let (packet, kind, address) = (row.packet.number, fields.kind, fields.address);
        write!(f, "{packet} {kind} {address:016x} ")?;
        match fields.number {
            Some(number) => write!(f, "{number} ")?,
            None => f.write_str("- ")?,
        }
        write!(f, "{} {} ", fields.tst, OneLine(row.name))?;
        let Some(first) = row.packet.first_at(row.tap) else {
            return f.write_str("missing");
        };
        write_frames(row, first, ' ', f)
    }
}

/// The row as cells of CSV.
#[derive(Clone, Copy)]
struct RowCells<'p>(Row<'p>);

impl fmt::Display for RowCells<'_> {
    fn fmt<W: fmt::Write>(&self, f: &mut fmt::Formatter<W>) -> fmt::Result {
        let row = &self.0;
        let fields = row.packet.fields;
        let (packet, kind, address) = (row.packet.number, fields.kind, fields.address);
        write!(f, "{packet},{kind},{address:016x},")?;
        if let Some(number) = fields.number {
            write!(f, "{number}")?;
        }
        write!(f, ",{},{},", fields.tst, Cell(row.name))?;
        let Some(first) = row.packet.first_at(row.tap) else {
            return f.write_str("0,,,,");
        };
        write_frames(row, first, ',', f)
    }
}

/// Writes what is printed of the frames of a row. This is the first one.
fn write_frames<W: fmt::Write>(
    row: &Row<'_>,
    first: &Sighting,
    separator: char,
    f: &mut fmt::Formatter<W>,
) -> fmt::Result {
    let (record, moment, delay) = (first.record, row.moment(first), row.delay(first));
    write!(f, "{}{separator}{record}{separator}", row.frames())?;
    write!(f, "{moment}{separator}{delay}{separator}")?;
    write_path(row, f)
}

/// Writes the path of a row: for each of its frames the link address of its sender, the remaining
/// hop limit, and its delay.
fn write_path<W: fmt::Write>(row: &Row<'_>, f: &mut fmt::Formatter<W>) -> fmt::Result {
    let mut is_first = true;
    for sighting in row.packet.sightings() {
        if sighting.tap == row.tap {
            let separator = if is_first { "" } else { " " };
            let (from, hops, delay) = (sighting.from, sighting.hops, row.delay(sighting));
            write!(f, "{separator}{from}:{hops}+{delay}")?;
            is_first = false;
        }
    }
    Ok(())
}

/// The row as an object: its keys in this order.
#[derive(Clone, Copy, Serialize)]
struct RowObject<'p> {
    packet: u64,
    kind: &'static str,
    address: Digits<8>,
    #[serde(skip_serializing_if = "Option::is_none")]
    number: Option<u16>,
    tst: u32,
    tap: &'p str,
    #[serde(skip_serializing_if = "Option::is_none")]
    delay: Option<u64>,
    frames: FrameObjects<'p>,
}

/// The frames of a row, as an array.
#[derive(Clone, Copy)]
struct FrameObjects<'p>(Row<'p>);

/// A frame of a row: its keys in this order.
#[derive(Clone, Copy, Serialize)]
struct FrameObject {
    record: u64,
    moment: Moment,
    delay: u64,
    from: Digits<6>,
    to: Digits<6>,
    hops: u8,
}

impl Described for FrameObjects<'_> {}

impl Serialize for FrameObjects<'_> {
    fn serialize<S: Serializer>(&self, out: &mut S) -> Result<(), S::Error> {
        let row = &self.0;
        out.begin_seq(Some(row.frames()))?;
        for sighting in row.packet.sightings() {
            if sighting.tap == row.tap {
                let frame = FrameObject {
                    record: sighting.record,
                    moment: row.moment(sighting),
                    delay: row.delay(sighting),
                    from: Digits(sighting.from.octets()),
                    to: Digits(sighting.to.octets()),
                    hops: sighting.hops,
                };
                frame.serialize(out)?;
            }
        }
        out.end_seq()
    }
}
