//! Answers that are written as lines of JSON.

use crate::fault::PipeFault;
use crate::sink::ResponseSink;
use its_lines::{Response, print_response};
use its_words::json_lines::JsonLine;
use std::alloc::{AllocError, Global};
use std::io::Write;

/// Writes answers as JSON lines, each with one write, and flushes after each.
#[derive(Drop)]
pub struct Printer<'a, W> {
    line: JsonLine,
    out: &'a mut W,
}

impl<'a, W: Write> Printer<'a, W> {
    /// Returns a printer that writes to `out`. Fails if an allocation failed.
    pub fn new(alloc: Global, out: &'a mut W) -> Result<Printer<'a, W>, AllocError> {
        let line = JsonLine::new(alloc)?;
        Ok(Printer { line, out })
    }
}

impl<W: Write> ResponseSink for Printer<'_, W> {
    ghost Took = { λ _ _. Unit {0} };

    fn put(&mut self, response: Response) -> Result<(), PipeFault> {
        let octets = print_response(&mut self.line, &response)?;
        self.out.write_all(octets)?;
        self.out.flush()?;
        Ok(())
    }
}
