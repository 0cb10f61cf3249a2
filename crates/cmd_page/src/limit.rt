//! How large a file in a page may be.

use cmd_quoting::OneLine;
use cmd_reporting::is_standard;
use std::io::Write;
use std::{fmt, io};

/// The most octets of a run in a page. Browsers hold a text of 512 MiB at most.
const LARGEST_RUN: u64 = 400_000_000;

/// The most octets of a street net in a page.
const LARGEST_NET: u64 = 100_000_000;

/// What a page holds.
#[derive(Clone, Copy, Debug, PartialEq, Eq)]
pub(crate) enum Content {
    /// The lines of a run.
    Lines,
    /// The run of a scenario.
    Scenario,
    /// A street net.
    Net,
}

impl Content {
    /// The keyword by which the page knows it.
    pub(crate) fn word(self) -> &'static str {
        match self {
            Content::Lines => "lines",
            Content::Scenario => "scenario",
            Content::Net => "net",
        }
    }

    /// The most octets of it that a page holds.
    pub(crate) fn most(self) -> u64 {
        match self {
            Content::Lines | Content::Scenario => LARGEST_RUN,
            Content::Net => LARGEST_NET,
        }
    }
}

/// A file with more than a page holds. It prints as a sentence that says on which page to drop the
/// file.
#[derive(Clone, Copy, Debug, PartialEq, Eq)]
pub(crate) struct TooLarge<'a> {
    pub(crate) content: Content,
    /// The name of the file.
    pub(crate) file: &'a str,
    /// The page that reads a file of any size if it is dropped there.
    pub(crate) page: &'a str,
}

impl fmt::Display for TooLarge<'_> {
    fn fmt<W: fmt::Write>(&self, f: &mut fmt::Formatter<W>) -> fmt::Result {
        let (content, file, page) = (self.content, OneLine(self.file), OneLine(self.page));
        let most = content.most() / 1_000_000;
        match content {
            Content::Lines if is_standard(self.file) => write!(
                f,
                "standard input is over {most} MB, too large for a page: save it to a file, open \
                 {page} and drop the file there"
            ),
            Content::Lines => write!(
                f,
                "{file} is over {most} MB, too large for a page: open {page} and drop the file \
                 there"
            ),
            Content::Scenario => write!(
                f,
                "the run of {file} is over {most} MB, too large for a page: save it by \
                 'geostation sim --json', open {page} and drop the file there"
            ),
            Content::Net => write!(
                f,
                "{file} is over {most} MB, too large for a page: leave out --net, open {page} and \
                 drop the file there"
            ),
        }
    }
}

/// A writer that passes on a limited number of octets, and fails at the next one.
#[derive(Drop)]
pub(crate) struct Limited<'a, W> {
    out: &'a mut W,
    left: u64,
    is_over: bool,
}

impl<'a, W: Write> Limited<'a, W> {
    /// Returns a writer that passes on to this one as much of this content as a page holds.
    pub(crate) fn new(out: &'a mut W, content: Content) -> Limited<'a, W> {
        Limited {
            out,
            left: content.most(),
            is_over: false,
        }
    }

    /// Whether more octets were written than it passes on.
    pub(crate) fn is_over(&self) -> bool {
        self.is_over
    }
}

impl<W: Write> Write for Limited<'_, W> {
    fn write(&mut self, octets: &[u8]) -> io::Result<usize> {
        if octets.len() as u64 > self.left {
            self.is_over = true;
            return Err(io::Error::from(io::ErrorKind::Other));
        }
        let written = self.out.write(octets)?;
        self.left = self.left.saturating_sub(written as u64);
        Ok(written)
    }

    fn flush(&mut self) -> io::Result<()> {
        self.out.flush()
    }
}
