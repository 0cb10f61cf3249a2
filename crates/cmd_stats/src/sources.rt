//! The traffic of each source.

use crate::numbers::Numbers;
use crate::own::{OWN_HEADS, OwnFrames, OwnKeys, Sending};
use cap_records::{OutsideFrame, RecordPlace};
use cmd_table::Table;
use its_linkframe::FrameView;
use its_outside::ExtendedFields;
use its_words::json_lines::Digits;
use serde::Serialize;
use std::alloc::{AllocError, Global};
use std::collections::BTreeMap;
use std::fmt;

/// What is counted about one frame.
#[derive(Clone, Copy)]
pub(crate) struct SourceFrame {
    address: u64,
    moment: u64,
    octets: u64,
    /// The remaining hop limit.
    hops: u8,
    sending: Sending,
    /// The sequence number, if the packet has one.
    number: Option<u16>,
    /// Whether the frame is outside the profile.
    is_outside: bool,
}

impl SourceFrame {
    /// Returns what is counted about a frame of the profile with this many octets.
    pub(crate) fn of(place: &RecordPlace, octets: u32, frame: &FrameView<'_>) -> SourceFrame {
        let packet = &frame.packet;
        let hops = packet.hops();
        SourceFrame {
            address: packet.vector().address().as_u64(),
            moment: place.moment,
            octets: u64::from(octets),
            hops: hops.left(),
            sending: Sending::of(hops.left(), hops.max(), place.link.retry),
            number: packet.number(),
            is_outside: false,
        }
    }

    /// Returns what is counted about a frame outside the profile with this many octets.
    pub(crate) fn of_outside(
        place: &RecordPlace,
        octets: u32,
        frame: &OutsideFrame<'_>,
    ) -> SourceFrame {
        let fields = &frame.fields;
        SourceFrame {
            address: fields.source.address,
            moment: place.moment,
            octets: u64::from(octets),
            hops: fields.basic.left,
            sending: Sending::of(fields.basic.left, fields.common.max_hops, place.link.retry),
            number: number_of(&fields.extended),
            is_outside: true,
        }
    }
}

/// Returns the sequence number of a packet outside the profile, if it has one.
fn number_of(fields: &ExtendedFields) -> Option<u16> {
    match fields {
        ExtendedFields::Beacon | ExtendedFields::Shb(_) => None,
        ExtendedFields::Guc(sequence, _)
        | ExtendedFields::Gac(sequence, _)
        | ExtendedFields::Gbc(sequence, _)
        | ExtendedFields::Tsb(sequence)
        | ExtendedFields::LsRequest(sequence, _)
        | ExtendedFields::LsReply(sequence, _) => Some(sequence.number),
    }
}

/// The counts of the frames of a source.
#[derive(Drop)]
struct Source {
    frames: u64,
    /// How many of them are outside the profile.
    outside: u64,
    octets: u64,
    /// The least and the greatest time.
    first: u64,
    last: u64,
    /// The time of the last frame in the file.
    previous: u64,
    /// The greatest difference of a frame's time and that of the frame before.
    greatest: u64,
    numbers: Numbers,
    /// The frames that it sent itself.
    own: OwnFrames,
    /// The least and the greatest remaining hop limit.
    fewest: u8,
    most: u8,
}

impl Source {
    /// Returns the counts before the first frame, which has this time and this remaining hop limit.
    fn new(alloc: Global, moment: u64, hops: u8) -> Source {
        Source {
            frames: 0,
            outside: 0,
            octets: 0,
            first: moment,
            last: moment,
            previous: moment,
            greatest: 0,
            numbers: Numbers::new(alloc),
            own: OwnFrames::none(),
            fewest: hops,
            most: hops,
        }
    }

    /// Counts a frame.
    fn add(&mut self, frame: SourceFrame) -> Result<(), AllocError> {
        let moment = frame.moment;
        self.frames = self.frames.saturating_add(1);
        self.outside = self.outside.saturating_add(u64::from(frame.is_outside));
        self.octets = self.octets.saturating_add(frame.octets);
        self.first = self.first.min(moment);
        self.last = self.last.max(moment);
        self.greatest = self.greatest.max(moment.saturating_sub(self.previous));
        self.previous = moment;
        self.own.add(moment, frame.sending);
        self.fewest = self.fewest.min(frame.hops);
        self.most = self.most.max(frame.hops);
        match frame.number {
            Some(number) => self.numbers.add(number),
            None => Ok(()),
        }
    }

    /// Returns its row in the table.
    fn row(&self, address: u64, columns: SourceColumns) -> SourceRow {
        let between = self.last.saturating_sub(self.first);
        SourceRow {
            address: Digits(address.to_be_bytes()),
            frames: self.frames,
            octets: self.octets,
            first: self.first,
            last: self.last,
            mean: between
                .checked_div(self.frames.saturating_sub(1))
                .unwrap_or(0),
            greatest: self.greatest,
            missing: self.numbers.missing(),
            repeated: self.numbers.repeated(),
            hops: [self.fewest, self.most],
            outside: columns.outside.then_some(self.outside),
            own: columns.own.then_some(self.own.keys()),
        }
    }
}

/// The row of a source: its keys in this order.
#[derive(Clone, Copy, Drop, Serialize)]
pub(crate) struct SourceRow {
    address: Digits<8>,
    frames: u64,
    octets: u64,
    first: u64,
    last: u64,
    mean: u64,
    greatest: u64,
    missing: u64,
    repeated: u64,
    hops: [u8; 2],
    /// How many frames are outside the profile, if all kinds are selected.
    #[serde(skip_serializing_if = "Option::is_none")]
    outside: Option<u64>,
    #[serde(flatten)]
    own: Option<OwnKeys>,
}

/// Which additional columns the rows of sources have.
#[derive(Clone, Copy)]
pub(crate) struct SourceColumns {
    /// How many frames are outside the profile.
    pub(crate) outside: bool,
    /// What the source sent itself.
    pub(crate) own: bool,
}

/// A range of remaining hop limits, as a table shows it.
#[derive(Clone, Copy)]
struct Hops([u8; 2]);

impl fmt::Display for Hops {
    fn fmt<W: fmt::Write>(&self, f: &mut fmt::Formatter<W>) -> fmt::Result {
        let [fewest, most] = self.0;
        write!(f, "{fewest}-{most}")
    }
}

impl SourceRow {
    /// Adds its row to the table of sources.
    fn add_to(&self, table: &mut Table) -> Result<(), AllocError> {
        table.add_digits(&self.address.0)?;
        table.add(&self.frames)?;
        table.add(&self.octets)?;
        table.add(&self.first)?;
        table.add(&self.last)?;
        table.add(&self.mean)?;
        table.add(&self.greatest)?;
        table.add(&self.missing)?;
        table.add(&self.repeated)?;
        table.add(&Hops(self.hops))?;
        if let Some(outside) = self.outside {
            table.add(&outside)?;
        }
        match &self.own {
            Some(own) => own.add_to(table),
            None => Ok(()),
        }
    }
}

/// The sources of frames, by address.
#[derive(Drop)]
pub(crate) struct Sources {
    alloc: Global,
    sources: BTreeMap<u64, Source>,
}

impl Sources {
    /// Returns the counts before the first frame.
    pub(crate) fn new(alloc: Global) -> Sources {
        Sources {
            alloc,
            sources: BTreeMap::new(alloc),
        }
    }

    /// Counts a frame.
    pub(crate) fn add(&mut self, frame: SourceFrame) -> Result<(), AllocError> {
        let source = self
            .sources
            .entry(frame.address)?
            .or_insert(Source::new(self.alloc, frame.moment, frame.hops));
        source.add(frame)
    }

    /// Returns at most `top` rows. Sources with more frames come first, and of equal ones that with
    /// the lower address.
    pub(crate) fn rows(
        &self,
        top: Option<u64>,
        columns: SourceColumns,
    ) -> Result<Vec<SourceRow>, AllocError> {
        let mut rows = Vec::new(self.alloc);
        for (address, source) in self.sources.iter() {
            rows.push(source.row(*address, columns))?;
        }
        rows.sort_by_key(|row| u64::MAX - row.frames)?;
        if let Some(top) = top {
            rows.truncate(usize::try_from(top).unwrap_or(usize::MAX));
        }
        Ok(rows)
    }
}

/// The heads of the columns that all rows of sources have.
const SOURCE_HEADS: [&str; 10] = [
    "address", "frames", "octets", "first", "last", "mean", "greatest", "missing", "repeated",
    "hops",
];

/// Returns the table of these rows, which have these additional columns.
pub(crate) fn source_table(
    alloc: Global,
    rows: &[SourceRow],
    columns: SourceColumns,
) -> Result<Table, AllocError> {
    let mut heads = Vec::from_slice(alloc, &SOURCE_HEADS)?;
    if columns.outside {
        heads.push("outside")?;
    }
    if columns.own {
        heads.extend_from_slice(&OWN_HEADS)?;
    }
    let mut table = Table::new(alloc, heads.as_slice())?;
    for row in rows {
        row.add_to(&mut table)?;
    }
    Ok(table)
}
