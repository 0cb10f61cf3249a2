//! Standard input, which is the capture or the file of moves.

use cmd_reporting::is_standard;
use std::io;
use std::io::Read;

/// Standard input, if it is one of the files that a command reads.
#[derive(Drop)]
pub(crate) struct MaybeInput<I>(Option<I>);

impl<I: Drop> MaybeInput<I> {
    /// Returns the reader of the capture and that of the moves with this name, if there are any.
    /// One of them is standard input.
    pub(crate) fn split(input: I, moves: Option<&str>) -> (MaybeInput<I>, MaybeInput<I>) {
        match moves {
            Some(name) if is_standard(name) => (MaybeInput(None), MaybeInput(Some(input))),
            _ => (MaybeInput(Some(input)), MaybeInput(None)),
        }
    }
}

impl<I: Read> Read for MaybeInput<I> {
    fn read(&mut self, buf: &mut [u8]) -> io::Result<usize> {
        match &mut self.0 {
            Some(input) => input.read(buf),
            None => Ok(0),
        }
    }
}
