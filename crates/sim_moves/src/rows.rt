//! The rows of a file, one after the other.

ghost use Rattle.std.specs.Prelude.{◌≡◌, ◌≤◌, IfOk, IfSome, string_bytes};
ghost use Rattle.sim_moves.specs.Fields.{cut};
ghost use Rattle.its_words.specs.Ids.{IsId};
ghost use Rattle.sim_moves.specs.Rows.{IsRow, IsRowBetween, ReachesBetween, ReachesRow, field_at};

use crate::columns::{Column, Columns, Notation, Occurrence, columns_of, find, names_none};
use crate::fault::{HeaderFault, MovesFault, MovesLineFault, MovesReadFault, Word};
use crate::fields::{Bound, find_bounds, join, split};
use crate::row::{Row, field, numbers_of};
use cmd_text::lines::GZIP;
use std::alloc::Global;
use std::io::{BufRead, Take};
use std::{io, str};

/// The most octets of a line before its line feed.
pub const LONGEST_LINE: usize = 4096;

/// The byte order mark in UTF-8.
const BYTE_ORDER_MARK: &[u8] = b"\xef\xbb\xbf";

/// The rows of a file of moves. At most one line of it is in memory.
#[derive(Drop)]
pub struct Rows<R: BufRead> {
    alloc: Global,
    reader: Take<R>,
    separator: u8,
    columns: Columns,
    begin: u64,
    line: Vec<u8>,
    /// The fields of a line with quotation marks, one after the other without the marks.
    text: Vec<u8>,
    /// The bounds of the fields, in the line or in that text.
    bounds: Vec<Bound>,
    number: u64,
    before: u64,
    state: State,
}

/// The state of the reader.
#[derive(Clone, Copy, Debug)]
enum State {
    /// The next line is read.
    Reading,
    /// The end was reached.
    Ended,
    /// This fault ended the reading.
    Failed(MovesFault),
}

/// What was read from a line.
#[derive(Drop)]
enum LineContent {
    /// A row.
    Row(Row),
    /// A line without a row: it is skipped.
    Passed,
    /// The end of the file.
    End,
}

impl<R: BufRead + Drop> Rows<R> {
    /// Reads the first line, which names the columns. The time of a row is its `at` minus `begin`.
    /// Earlier rows are checked and skipped. Returns a fault for a first line of more than 4096
    /// octets (`length`), for one that names a column twice, lacks one or mixes the notations
    /// (`header`), as that of an empty file does, if the reader failed, and if an allocation
    /// failed.
    pub fn open(alloc: Global, begin: u64, reader: R) -> Result<Rows<R>, MovesFault> {
        let mut reader = reader.take(0);
        let mut line = line_room(alloc)?;
        read_line(&mut reader, &mut line)?;
        match header_of(alloc, &line) {
            Ok((separator, columns)) => Ok(Rows {
                alloc,
                reader,
                separator,
                columns,
                begin,
                line,
                text: Vec::new(alloc),
                bounds: Vec::new(alloc),
                number: 1,
                before: 0,
                state: State::Reading,
            }),
            Err(fault) => Err(fault.at_line(1)),
        }
    }

    /// Returns the next row, whose time is not before that of the row before. `None` at the end,
    /// and from then on. Empty lines, and SUMO's rows without an id, are skipped. After a fault
    /// each call returns the same fault.
    ///
    /// - `row` (`IsRow`): each number of a row is in its range.
    /// - `order`, `begin`: no row is earlier than one that was returned, by the clock of the file.
    ///   The begin stays.
    pub fn next(&mut self) -> Result<Option<Row>, MovesFault>
        ensures begin { self.new.begin ≡ self.old.begin }
        ensures row { IfOk result (λ row. IfSome row IsRow) }
        ensures order { IfOk result (λ row.
            IfSome row (IsRowBetween self.old.begin self.old.before self.new.before)) }
    {
        match self.state {
            State::Reading => {}
            State::Ended => return Ok(None),
            State::Failed(fault) => return Err(fault),
        }
        let reached = self.read_row();
        self.state = match &reached {
            Ok(Some(_)) => State::Reading,
            Ok(None) => State::Ended,
            Err(fault) => State::Failed(*fault),
        };
        reached
    }

    /// Returns the number of the last line, from 1. It is that of the row that `next` returned.
    pub fn line(&self) -> u64
        ensures { result ≡ self.now.number }
    {
        self.number
    }

    /// Returns the time of the file in the last row, also of one before `begin`. 0 before the first
    /// row.
    pub fn clock(&self) -> u64
        ensures { result ≡ self.now.before }
    {
        self.before
    }

    /// Returns the field of the last line that is refused with this keyword, without its quotation
    /// marks. `None` for a keyword that is about no field.
    pub fn refused(&self, word: Word) -> Option<&[u8]> {
        let place = self.columns.place_of(word)?;
        let octets = if self.line.contains(&b'"') {
            &self.text
        } else {
            &self.line
        };
        Some(field(octets, &self.bounds, place))
    }

    /// Reads lines up to the next one with a row.
    fn read_row(&mut self) -> Result<Option<Row>, MovesFault>
        ensures begin { self.new.begin ≡ self.old.begin }
        ensures row { IfOk result (λ row. IfSome row IsRow) }
        ensures order { IfOk result (λ row.
            IfSome row (IsRowBetween self.old.begin self.old.before self.new.before)) }
    {
        for _ in 0..u64::MAX {
            match self.read_one()? {
                LineContent::Row(row) => return Ok(Some(row)),
                LineContent::Passed => {}
                LineContent::End => return Ok(None),
            }
        }
        Ok(None)
    }

    /// Reads a line.
    fn read_one(&mut self) -> Result<LineContent, MovesFault>
        ensures begin { self.new.begin ≡ self.old.begin }
        ensures row { IfOk result ReachesRow }
        ensures before { self.old.before ≤ self.new.before }
        ensures order { IfOk result
            (ReachesBetween self.old.begin self.old.before self.new.before) }
    {
        if !read_line(&mut self.reader, &mut self.line)? {
            return Ok(LineContent::End);
        }
        self.number = self.number.saturating_add(1);
        match self.row_of_line() {
            Ok(reached) => Ok(reached),
            Err(fault) => Err(fault.at_line(self.number)),
        }
    }

    /// Returns the row of the line that was read.
    fn row_of_line(&mut self) -> Result<LineContent, MovesLineFault>
        ensures begin { self.new.begin ≡ self.old.begin }
        ensures row { IfOk result ReachesRow }
        ensures before { self.old.before ≤ self.new.before }
        ensures order { IfOk result
            (ReachesBetween self.old.begin self.old.before self.new.before) }
    {
        let octets = trimmed(&self.line)?;
        if octets.is_empty() {
            return Ok(LineContent::Passed);
        }
        if find_bounds(self.separator, octets, &mut self.bounds)? {
            return row_of(
                self.alloc,
                &self.columns,
                self.begin,
                &mut self.before,
                octets,
                &self.bounds,
            );
        }
        let fields = split(self.alloc, self.separator, octets)?;
        join(&fields, &mut self.text, &mut self.bounds)?;
        row_of(
            self.alloc,
            &self.columns,
            self.begin,
            &mut self.before,
            &self.text,
            &self.bounds,
        )
    }
}

/// Returns the row of the fields within these bounds, for a file with this begin and with this time
/// in the row before.
fn row_of(
    alloc: Global,
    columns: &Columns,
    begin: u64,
    before: &mut u64,
    octets: &[u8],
    bounds: &[Bound],
) -> Result<LineContent, MovesLineFault>
    ensures row { IfOk result ReachesRow }
    ensures before { before.old ≤ before.new }
    ensures order { IfOk result (ReachesBetween begin before.old before.new) }
{
    if is_passed_over(columns, octets, bounds) {
        return Ok(LineContent::Passed);
    }
    let numbers = match numbers_of(columns, octets, bounds, *before) {
        Ok(numbers) => numbers,
        Err(word) => return Err(MovesLineFault::Refused(word)),
    };
    *before = numbers.at;
    if numbers.at < begin {
        return Ok(LineContent::Passed);
    }
    Ok(LineContent::Row(Row {
        moment: numbers.at - begin,
        id: id_of(alloc, columns, octets, bounds)?,
        place: numbers.place,
        speed: numbers.speed,
        heading: numbers.heading,
    }))
}

/// Returns the id of a row with these fields.
fn id_of(
    alloc: Global,
    columns: &Columns,
    octets: &[u8],
    bounds: &[Bound],
) -> Result<String, MovesLineFault>
    requires { IsId (field_at (cut octets.now bounds.now) columns.now.id) }
    ensures { IfOk result (λ id.
        string_bytes id ≡ field_at (cut octets.now bounds.now) columns.now.id) }
{
    match str::from_utf8(field(octets, bounds, columns.id)) {
        Ok(id) => Ok(String::from_str(alloc, id)?),
        Err(_) => unreachable!(),
    }
}

/// Whether a row with these fields is skipped. SUMO writes one without an id if there is no
/// vehicle.
fn is_passed_over(columns: &Columns, octets: &[u8], bounds: &[Bound]) -> bool {
    columns.notation == Notation::Sumo
        && bounds.len() == columns.count
        && field(octets, bounds, columns.id).is_empty()
}

/// Allocates the buffer for a line.
fn line_room(alloc: Global) -> Result<Vec<u8>, MovesFault> {
    match Vec::with_capacity(alloc, LONGEST_LINE + 1) {
        Ok(line) => Ok(line),
        Err(_) => Err(MovesFault::NoMemory),
    }
}

/// Reads the next line, with its line feed and at most 4097 octets, which replaces this one.
/// `false` at the end of the file.
fn read_line<R: BufRead>(reader: &mut Take<R>, line: &mut Vec<u8>) -> Result<bool, MovesFault> {
    line.clear();
    reader.set_limit(LONGEST_LINE as u64 + 1);
    match reader.read_until(b'\n', line) {
        Ok(count) => Ok(count > 0),
        Err(error) if error.kind() == io::ErrorKind::OutOfMemory => Err(MovesFault::NoMemory),
        Err(error) => Err(MovesFault::Read(MovesReadFault::of(&error))),
    }
}

/// Returns a line without its line feed and the carriage return before that.
fn trimmed(line: &[u8]) -> Result<&[u8], MovesLineFault> {
    let octets = line.strip_suffix(b"\n").unwrap_or(line);
    if octets.len() > LONGEST_LINE {
        return Err(MovesLineFault::Refused(Word::Length));
    }
    Ok(octets.strip_suffix(b"\r").unwrap_or(octets))
}

/// Returns the separator and the columns of a first line.
fn header_of(alloc: Global, line: &[u8]) -> Result<(u8, Columns), MovesLineFault> {
    let octets = trimmed(line)?;
    let octets = octets.strip_prefix(BYTE_ORDER_MARK).unwrap_or(octets);
    let separator = if octets.contains(&b';') { b';' } else { b',' };
    let names = split(alloc, separator, octets)?;
    match columns_of(&names) {
        Some(columns) => Ok((separator, columns)),
        None => Err(MovesLineFault::Refused(Word::Header(header_fault(octets, &names)))),
    }
}

/// Returns what is wrong with a first line that has these fields and names the columns of no
/// notation.
fn header_fault(octets: &[u8], names: &[Vec<u8>]) -> HeaderFault {
    if octets.starts_with(&GZIP) {
        return HeaderFault::Gzip;
    }
    match (
        names_none(names, Notation::Own),
        names_none(names, Notation::Sumo),
    ) {
        (true, true) => HeaderFault::NoColumn,
        (false, false) => HeaderFault::BothNotations,
        (false, true) => fault_in(names, Notation::Own),
        (true, false) => fault_in(names, Notation::Sumo),
    }
}

/// Returns what is wrong with the names of a notation: the first column that is missing, and
/// otherwise one that occurs twice.
fn fault_in(names: &[Vec<u8>], notation: Notation) -> HeaderFault {
    let needed = [Column::At, Column::Id, Column::Lat, Column::Lon];
    let missing = needed.iter().find(|column| {
        matches!(find(names, column.word(notation)), Occurrence::Nowhere)
    });
    match missing {
        Some(column) => HeaderFault::Missing(notation, *column),
        None => HeaderFault::Twice(notation, twice_in(names, notation)),
    }
}

/// Returns a column of a notation that occurs twice among these names. The heading, if no other
/// does.
fn twice_in(names: &[Vec<u8>], notation: Notation) -> Column {
    let others = [
        Column::At,
        Column::Id,
        Column::Lat,
        Column::Lon,
        Column::Speed,
    ];
    let twice = others.iter().find(|column| {
        matches!(find(names, column.word(notation)), Occurrence::Twice)
    });
    match twice {
        Some(column) => *column,
        None => Column::Heading,
    }
}
