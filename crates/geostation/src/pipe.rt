//! Standard output, which its reader may close.

use std::io;
use std::io::{ErrorKind, Write};

/// The exit status if the reader of standard output has closed it, as of a program that SIGPIPE
/// ends.
pub(crate) const CLOSED_STATUS: u8 = 141;

/// A writer, and whether its reader has closed it.
#[derive(Drop)]
pub(crate) struct Pipe<W: Write> {
    out: W,
    is_closed: bool,
}

impl<W: Write> Pipe<W> {
    /// A writer that is open as far as is known.
    pub(crate) fn new(out: W) -> Pipe<W> {
        Pipe {
            out,
            is_closed: false,
        }
    }

    /// Whether a write or a flush failed because its reader has closed it.
    pub(crate) fn is_closed(&self) -> bool {
        self.is_closed
    }

    /// Notes it if this outcome says that the reader has closed it.
    fn note<T>(&mut self, outcome: &io::Result<T>) {
        if let Err(error) = outcome
            && error.kind() == ErrorKind::BrokenPipe
        {
            self.is_closed = true;
        }
    }
}

impl<W: Write> Write for Pipe<W> {
    fn write(&mut self, buf: &[u8]) -> io::Result<usize> {
        let written = self.out.write(buf);
        self.note(&written);
        written
    }

    fn flush(&mut self) -> io::Result<()> {
        let flushed = self.out.flush();
        self.note(&flushed);
        flushed
    }
}
