//! From where the page is read, and to where it is written.

use crate::limit::{Content, TooLarge};
use cmd_reporting::{Fault, OutputFormat, is_standard};
use std::io;
use std::io::{BufRead, ErrorKind, Write};

/// From where the page and its run are read, and to where they are written.
#[derive(Clone, Copy)]
pub(crate) struct Way<'a> {
    /// The folder of the page.
    pub(crate) folder: &'a str,
    /// The path of the file of the page that names the others.
    pub(crate) index: &'a str,
    /// The name of the run, or of the scenario.
    pub(crate) file: &'a str,
    /// The name of the moves with which the scenario is run, if there are any.
    pub(crate) moves: Option<&'a str>,
    /// The name of the street net, if there is one.
    pub(crate) net: Option<&'a str>,
    /// The file that is written. `-` is standard output.
    pub(crate) target: &'a str,
    /// How lines on standard error are printed: only `explain` counts.
    pub(crate) format: OutputFormat,
}

impl<'a> Way<'a> {
    /// Returns the fault of a file with more content than a page holds. The file can be dropped on
    /// the page that is written, or on the empty page if that is standard output.
    pub(crate) fn too_large(self, content: Content, file: &'a str) -> TooLarge<'a> {
        let page = if is_standard(self.target) {
            self.index
        } else {
            self.target
        };
        TooLarge {
            content,
            file,
            page,
        }
    }

    /// Returns what a write returned, or its fault. Standard output has a fault without a line.
    pub(crate) fn or_fault<T: Drop>(self, written: io::Result<T>) -> Result<T, Fault<'a>> {
        written.map_err(|error| fault_of(&error, self.target))
    }
}

/// Returns the fault of a failed write to the file with this name. For standard output there is no
/// line.
pub(crate) fn fault_of<'a>(error: &io::Error, target: &'a str) -> Fault<'a> {
    if is_standard(target) {
        Fault::of_target(target)
    } else {
        Fault::of_write(error, target)
    }
}

/// A call that failed while one file was copied to another.
#[derive(Drop)]
pub(crate) enum CopyError {
    /// A read.
    Read(io::Error),
    /// A write.
    Write(io::Error),
}

/// Writes all octets of the reader.
pub(crate) fn copy<R: BufRead, W: Write>(reader: &mut R, out: &mut W) -> Result<(), CopyError> {
    // The range is there so that the copying ends on any reader.
    for _ in 0..u64::MAX {
        let ready = match reader.fill_buf() {
            Ok(ready) => ready,
            Err(error) if error.kind() == ErrorKind::Interrupted => continue,
            Err(error) => return Err(CopyError::Read(error)),
        };
        let size = ready.len();
        if size == 0 {
            return Ok(());
        }
        if let Err(error) = out.write_all(ready) {
            return Err(CopyError::Write(error));
        }
        reader.consume(size);
    }
    Ok(())
}
