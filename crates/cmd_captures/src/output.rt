//! The lines of a command, as text or as objects in JSON.

use crate::frame_line::FrameLine;
use crate::outside_line::OutsideLine;
use crate::refused_lines::RefusedAt;
use crate::text::Text;
use cap_records::{RefusedCapture, Walked};
use cmd_reporting::{Fault, OutputFormat};
use cmd_times::Moment;
use its_words::json_lines::JsonLine;
use serde::Serialize;
use std::alloc::{AllocError, Global};
use std::fmt::Display;
use std::io;
use std::io::Write;

/// The line that is being made, in a buffer that is used again for the next line.
#[derive(Drop)]
enum Buffer {
    Words(Text),
    Object(JsonLine),
}

/// Makes the lines of a command over a capture.
#[derive(Drop)]
pub(crate) struct Output {
    buffer: Buffer,
    /// Whether a refusal is followed by its sentence.
    pub(crate) explain: bool,
}

impl Output {
    /// Returns an output before the first line. It allocates a buffer for one line.
    pub(crate) fn new(alloc: Global, lines: OutputFormat) -> Result<Output, AllocError> {
        let buffer = if lines.json {
            Buffer::Object(JsonLine::new(alloc)?)
        } else {
            Buffer::Words(Text::new(alloc)?)
        };
        Ok(Output {
            buffer,
            explain: lines.explain,
        })
    }

    /// Writes the line of a value. `NoOutput` if the write failed, `OutOfMemory` if an allocation
    /// failed.
    pub(crate) fn line<'f, T: Display + Serialize, W: Write>(
        &mut self,
        value: &T,
        out: &mut W,
    ) -> Result<(), Fault<'f>> {
        match &mut self.buffer {
            Buffer::Words(_) => writeln!(out, "{value}")?,
            Buffer::Object(line) => out.write_all(line.of(value)?)?,
        }
        Ok(())
    }

    /// Writes the line of a record that is rejected. The errors are those of `line`.
    pub(crate) fn refused<'f, W: Write>(
        &mut self,
        refused: &RefusedAt,
        out: &mut W,
    ) -> Result<(), Fault<'f>> {
        match &mut self.buffer {
            Buffer::Words(_) => writeln!(out, "{refused}")?,
            Buffer::Object(line) => write_object(line.of(refused)?, refused.moment(), out)?,
        }
        Ok(())
    }

    /// Writes the line of a frame. It is made in the buffer, which takes a third of the time of
    /// `write!`.
    pub(crate) fn frame<'f, W: Write>(
        &mut self,
        frame: &FrameLine<'_>,
        out: &mut W,
    ) -> Result<(), Fault<'f>> {
        match &mut self.buffer {
            Buffer::Words(text) => {
                text.clear();
                frame.add_to(text)?;
                out.write_all(text.as_bytes())?;
            }
            Buffer::Object(line) => write_object(line.of(frame)?, frame.moment(), out)?,
        }
        Ok(())
    }

    /// Writes the line of a packet outside the profile, in the same way.
    pub(crate) fn outside<'f, W: Write>(
        &mut self,
        packet: &OutsideLine<'_>,
        out: &mut W,
    ) -> Result<(), Fault<'f>> {
        match &mut self.buffer {
            Buffer::Words(text) => {
                text.clear();
                packet.add_to(self.explain, text)?;
                out.write_all(text.as_bytes())?;
            }
            Buffer::Object(line) => write_object(line.of(packet)?, packet.moment(), out)?,
        }
        Ok(())
    }

    /// Writes the line of a file that was refused after the records that were read, if it was.
    pub(crate) fn end<'f, W: Write>(
        &mut self,
        walked: &Walked,
        out: &mut W,
    ) -> Result<(), Fault<'f>> {
        match walked.fault {
            Some(fault) => {
                let explain = self.explain;
                self.line(&RefusedCapture::new(walked.read, fault, explain), out)
            }
            None => Ok(()),
        }
    }
}

/// Writes an object that begins with a time. A time with a fraction isn't among its keys. Its
/// digits are written before them, as a number that keeps its zeros.
fn write_object<W: Write>(line: &[u8], moment: Moment, out: &mut W) -> io::Result<()> {
    if !moment.is_fraction() {
        return out.write_all(line);
    }
    write!(out, "{{\"moment\":{moment},")?;
    out.write_all(line.get(1..).unwrap_or(&[]))
}
