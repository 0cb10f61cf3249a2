//! Writes the page, with its styles and scripts in it.

use crate::fault::PageFault;
use crate::folder::path_in;
use crate::part::{PagePart, part_of};
use crate::way::{CopyError, Way, copy, fault_of};
use cmd_reporting::{Fault, Opened, open};
use cmd_text::lines::Line;
use std::io;
use std::io::{BufReader, Read, Write};
use std::rt::Files;

/// The most octets of a line of the page.
const LONGEST_LINE: usize = 4096;

/// The page that is being read.
#[derive(Drop)]
pub(crate) struct Page<F: Drop> {
    reader: PageReader<F>,
    line: Line,
}

/// The reader of a file of the page's folder.
type PageReader<F> = BufReader<Opened<F, io::Empty>>;

/// Opens the page. Returns that it can't be read, or that memory ran out.
pub(crate) fn open_page<'a, R: Files + AllocGlobal>(
    rt: &R,
    way: Way<'a>,
) -> Result<Page<R::File>, Fault<'a>>
where
    R::File: Read + Drop,
{
    let line = Line::new(rt.alloc(), LONGEST_LINE)?;
    let reader = open(rt, way.index, io::empty())?;
    Ok(Page { reader, line })
}

/// Writes the lines of the page up to the one that the run replaces, or to the last. Lines that
/// name styles and scripts are replaced by these. Returns whether there is a line for the run.
pub(crate) fn write_up_to_run<'a, R: Files + AllocGlobal, W: Write>(
    rt: &R,
    way: Way<'a>,
    page: &mut Page<R::File>,
    out: &mut W,
) -> Result<bool, PageFault<'a>>
where
    R::File: Read + Drop,
{
    // The range is there so that the walk ends on any reader.
    for _ in 0..u64::MAX {
        match page.line.read(&mut page.reader) {
            Ok(true) => {}
            Ok(false) => return Ok(false),
            Err(error) => return Err(PageFault::from(Fault::of_read(&error, way.index))),
        }
        match part_of(page.line.start()) {
            PagePart::Run => return Ok(true),
            PagePart::Text => way.or_fault(write_line(page.line.start(), out))?,
            PagePart::Style(name) => write_element(rt, way, "style", name, out)?,
            PagePart::Script(name) => write_element(rt, way, "script", name, out)?,
        }
    }
    Ok(false)
}

/// Writes a line, with a line feed.
fn write_line<W: Write>(line: &[u8], out: &mut W) -> io::Result<()> {
    out.write_all(line)?;
    out.write_all(b"\n")
}

/// Writes the content of a file in the page's folder, as an element with this name.
fn write_element<'a, R: Files + AllocGlobal, W: Write>(
    rt: &R,
    way: Way<'a>,
    element: &str,
    name: &str,
    out: &mut W,
) -> Result<(), PageFault<'a>>
where
    R::File: Read + Drop,
{
    let path = path_in(rt, way.folder, name)?;
    let mut reader = match open(rt, path.as_str(), io::empty()) {
        Ok(reader) => reader,
        Err(Fault::OutOfMemory(error)) => return Err(PageFault::from(error)),
        Err(Fault::NotRead(_, cause)) => return Err(PageFault::PartNotRead(path, Some(cause))),
        Err(_) => return Err(PageFault::PartNotRead(path, None)),
    };
    way.or_fault(writeln!(out, "<{element}>"))?;
    match copy(&mut reader, out) {
        Ok(()) => Ok(way.or_fault(writeln!(out, "</{element}>"))?),
        Err(CopyError::Read(error)) => Err(PageFault::of_part(&error, path)),
        Err(CopyError::Write(error)) => Err(PageFault::from(fault_of(&error, way.target))),
    }
}
