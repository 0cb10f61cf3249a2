//! Standard input, which is at most one of the files that a command reads.

use cmd_reporting::is_standard;
use std::io;
use std::io::Read;

/// The reader for a file whose name is that of standard input.
#[derive(Drop)]
pub enum Input<I> {
    /// Standard input.
    Standard(I),
    /// Nothing: the other file reads standard input.
    Nothing,
}

impl<I: Drop> Input<I> {
    /// Returns the readers of the scenario and of the moves with this name, if there are any. One
    /// of them is standard input.
    pub(crate) fn split(input: I, moves: Option<&str>) -> (Input<I>, Input<I>) {
        match moves {
            Some(name) if is_standard(name) => (Input::Nothing, Input::Standard(input)),
            _ => (Input::Standard(input), Input::Nothing),
        }
    }
}

impl<I: Read> Read for Input<I> {
    fn read(&mut self, buf: &mut [u8]) -> io::Result<usize> {
        match self {
            Input::Standard(input) => input.read(buf),
            Input::Nothing => Ok(0),
        }
    }
}
