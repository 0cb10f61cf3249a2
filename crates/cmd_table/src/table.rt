//! Tables of texts, whose columns are as wide as their widest cell.

use std::alloc::{AllocError, Global};
use std::fmt::{Display, Write as _};
use std::io;
use std::io::Write;

/// A table: a line of heads, and rows.
#[derive(Drop)]
pub struct Table {
    /// The width of each column.
    widths: Vec<usize>,
    /// The cells, row by row, one after the other.
    text: String,
    /// The end of each cell.
    ends: Vec<usize>,
    /// The column of the next cell.
    column: usize,
}

impl Table {
    /// Returns a table with these heads, and no row. `AllocError` if an allocation failed.
    pub fn new(alloc: Global, heads: &[&str]) -> Result<Table, AllocError> {
        let mut table = Table {
            widths: Vec::new(alloc),
            text: String::new(alloc),
            ends: Vec::new(alloc),
            column: 0,
        };
        table.widths.resize(heads.len(), 0)?;
        for head in heads {
            table.add(head)?;
        }
        Ok(table)
    }

    /// Adds the next cell, in the next column. `AllocError` if an allocation failed.
    pub fn add<T: Display>(&mut self, word: &T) -> Result<(), AllocError> {
        let start = self.text.len();
        write!(self.text, "{word}").map_err(|_| AllocError)?;
        self.end(start)
    }

    /// Adds octets as the next cell, as hexadecimal digits in lower case.
    pub fn add_digits(&mut self, octets: &[u8]) -> Result<(), AllocError> {
        let start = self.text.len();
        for octet in octets {
            write!(self.text, "{octet:02x}").map_err(|_| AllocError)?;
        }
        self.end(start)
    }

    /// Ends the cell that began at this octet.
    fn end(&mut self, start: usize) -> Result<(), AllocError> {
        let end = self.text.len();
        if let Some(width) = self.widths.get_mut(self.column) {
            *width = (*width).max(end.saturating_sub(start));
        }
        self.column = match self.column.checked_add(1) {
            Some(next) if next < self.widths.len() => next,
            _ => 0,
        };
        self.ends.push(end)?;
        Ok(())
    }

    /// Writes the table. The first column is aligned to the left, the others to the right, with two
    /// spaces between columns.
    pub fn write<W: Write>(&self, out: &mut W) -> io::Result<()> {
        let mut start = 0;
        let mut column = 0;
        for end in self.ends.iter() {
            let word = self.text.get(start..*end).unwrap_or("");
            start = *end;
            column = self.write_word(word, column, out)?;
        }
        Ok(())
    }

    /// Writes a cell of a column, and returns the next one.
    fn write_word<W: Write>(&self, word: &str, column: usize, out: &mut W) -> io::Result<usize> {
        let width = self.widths.get(column).copied().unwrap_or(0);
        if column == 0 {
            write!(out, "{word:width$}")?;
        } else {
            write!(out, "  {word:>width$}")?;
        }
        let next = column.saturating_add(1);
        if next < self.widths.len() {
            return Ok(next);
        }
        writeln!(out)?;
        Ok(0)
    }
}
