//! Output that is flushed as fast as its input arrives.

use std::io;
use std::io::Write;

/// A writer that flushes after each write, if its reader waits for it.
#[derive(Drop)]
pub(crate) struct Prompt<W: Write + Drop> {
    out: W,
    is_awaited: bool,
}

impl<W: Write + Drop> Prompt<W> {
    /// Returns a writer that passes on to this one.
    pub(crate) fn new(out: W, is_awaited: bool) -> Prompt<W> {
        Prompt { out, is_awaited }
    }
}

impl<W: Write + Drop> Write for Prompt<W> {
    ghost contents = { λ p. W.contents p.out };

    fn write(&mut self, octets: &[u8]) -> io::Result<usize> {
        let written = self.out.write(octets)?;
        if self.is_awaited {
            // What fails here fails again at the end, where it is reported.
            let _ = self.out.flush();
        }
        Ok(written)
    }

    fn flush(&mut self) -> io::Result<()> {
        self.out.flush()
    }
}
