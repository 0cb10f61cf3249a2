//! The moves of a replay: the rows of a file of moves.

ghost use Rattle.its_gnvalue.specs.Values.{IsSpeed};

use crate::replay::moves_fault::{MoveRowsFault, MoveWord};
use its_gnvalue::Place;
use sim_moves::{Row, Rows};
use std::alloc::Global;
use std::io::BufRead;

/// A move of the unit: where it is from a time on.
#[derive(Clone, Copy, Debug, PartialEq, Eq)]
pub struct Move {
    /// The time in milliseconds.
    pub moment: u64,
    /// Where to.
    pub place: Place,
    /// How fast, in 0.01 m/s: -16384 to 16383.
    pub speed: i16,
    /// In what direction, in 0.1 degree clockwise from north.
    pub heading: u16,
    ghost small: { IsSpeed speed },
}

/// Reads all rows of a file of moves, which are of one id. `file` is its name.
///
/// The fault is that of the first line that is bad or has another id, or that a read failed or memory
/// ran out.
pub(crate) fn read_moves<'a, R: BufRead + Drop>(
    alloc: Global,
    file: &'a str,
    reader: R,
) -> Result<Vec<Move>, MoveRowsFault<'a>> {
    let mut rows = match Rows::open(alloc, 0, reader) {
        Ok(rows) => rows,
        Err(fault) => return Err(MoveRowsFault::of(fault, file)),
    };
    let mut moves = Vec::new(alloc);
    let mut first: Option<String> = None;
    for _ in 0..u64::MAX {
        let row = match rows.next() {
            Ok(Some(row)) => row,
            Ok(None) => break,
            Err(fault) => return Err(MoveRowsFault::of(fault, file)),
        };
        if is_other(&first, &row) {
            let (line, word) = (rows.line(), MoveWord::OtherId);
            return Err(MoveRowsFault::Row { file, line, word });
        }
        moves.push(Move {
            moment: row.moment,
            place: row.place,
            speed: row.speed,
            heading: row.heading,
        })?;
        first = Some(row.id);
    }
    Ok(moves)
}

/// Whether a row has another id than the first one, if there was one.
fn is_other(first: &Option<String>, row: &Row) -> bool {
    match first {
        Some(id) => id.as_str() != row.id.as_str(),
        None => false,
    }
}
