//! Standard input as one of several files.

use cmd_reporting::{Fault, is_standard};
use std::io;
use std::io::Read;

/// Standard input, which at most one file takes.
#[derive(Drop)]
pub(crate) struct StandardInput<I>(Option<I>);

impl<I: Drop> StandardInput<I> {
    /// Takes standard input, if the file with this name is standard input. `CannotRead` if it was
    /// taken before.
    pub(crate) fn of<'f>(
        file: &'f str,
        input: &mut Option<I>,
    ) -> Result<StandardInput<I>, Fault<'f>> {
        if !is_standard(file) {
            return Ok(StandardInput(None));
        }
        match input.take() {
            Some(input) => Ok(StandardInput(Some(input))),
            None => Err(Fault::CannotRead(file)),
        }
    }
}

impl<I: Read> Read for StandardInput<I> {
    fn read(&mut self, octets: &mut [u8]) -> io::Result<usize> {
        match &mut self.0 {
            Some(input) => input.read(octets),
            None => Ok(0),
        }
    }
}
