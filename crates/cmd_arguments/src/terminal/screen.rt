//! A terminal, as a writer of lines.

ghost use Rattle.std.specs.Prelude.{◌≡◌, [], None};

use crate::terminal::painting::{Painter, RESET, paint};
use std::alloc::Global;
use std::io;
use std::io::Write;

/// A writer of lines. If asked to, it writes column heads before the first line, and colours the
/// lines. Otherwise it passes on what is written to it.
#[derive(Drop)]
pub struct Screen<'a, W> {
    out: &'a mut W,
    /// The column heads, until they are written.
    heads: Option<&'static str>,
    painter: Option<Painter>,
    /// The beginning of a line that is to be coloured.
    line: Vec<u8>,
}

impl<'a, W: Write> Screen<'a, W> {
    /// Returns a screen that passes on what is written to it.
    pub fn plain(alloc: Global, out: &'a mut W) -> Screen<'a, W>
        ensures heads { result.heads ≡ None }
        ensures painter { result.painter ≡ None }
        ensures line { result.line.items ≡ [] }
    {
        Screen {
            out,
            heads: None,
            painter: None,
            line: Vec::new(alloc),
        }
    }

    /// Returns this screen with column heads, if there are any.
    pub fn headed(self, heads: Option<&'static str>) -> Screen<'a, W>
        ensures { result ≡ record self.entry { heads = heads.entry } }
    {
        Screen { heads, ..self }
    }

    /// Returns this screen with coloured lines, if there is a painter.
    pub fn painted(self, painter: Option<Painter>) -> Screen<'a, W>
        ensures { result ≡ record self.entry { painter = painter } }
    {
        Screen { painter, ..self }
    }

    /// Writes the line that is complete, and begins the next.
    fn write_line(&mut self, painter: Painter) -> io::Result<()> {
        let painted = paint(self.line.as_slice(), painter);
        self.out.write_all(painted.before)?;
        if painted.color.is_empty() {
            self.out.write_all(painted.middle)?;
        } else {
            self.out.write_all(painted.color.as_bytes())?;
            self.out.write_all(painted.middle)?;
            self.out.write_all(RESET.as_bytes())?;
        }
        self.out.write_all(painted.after)?;
        self.out.write_all(b"\n")?;
        self.line.clear();
        Ok(())
    }
}

impl<W: Write> Write for Screen<'_, W> {
    fn write(&mut self, octets: &[u8]) -> io::Result<usize> {
        if octets.is_empty() {
            return Ok(0);
        }
        if let Some(heads) = self.heads {
            self.heads = None;
            writeln!(self.out, "{heads}")?;
        }
        let Some(painter) = self.painter else {
            return self.out.write(octets);
        };
        match octets.iter().position(|octet| *octet == b'\n') {
            Some(end) => {
                self.line.extend_from_slice(&octets[..end])?;
                self.write_line(painter)?;
                Ok(end + 1)
            }
            None => {
                self.line.extend_from_slice(octets)?;
                Ok(octets.len())
            }
        }
    }

    fn flush(&mut self) -> io::Result<()> {
        self.out.write_all(self.line.as_slice())?;
        self.line.clear();
        self.out.flush()
    }
}
