//! The street net beneath the run.

use crate::fault::PageFault;
use crate::inside::Inside;
use crate::limit::{Content, Limited};
use crate::name::ShownName;
use crate::way::{CopyError, Way, copy, fault_of};
use cmd_reporting::{Fault, Opened, open};
use std::io;
use std::io::{BufReader, Read, Write};
use std::rt::Files;

/// The file of a street net, open.
#[derive(Drop)]
pub(crate) struct Net<'a, F: Drop> {
    name: &'a str,
    reader: BufReader<Opened<F, io::Empty>>,
}

/// Opens the street net, if one is given. Returns that it can't be read, or that memory ran out.
pub(crate) fn open_net<'a, R: Files + AllocGlobal>(
    rt: &R,
    way: Way<'a>,
) -> Result<Option<Net<'a, R::File>>, Fault<'a>>
where
    R::File: Read + Drop,
{
    let Some(name) = way.net else {
        return Ok(None);
    };
    let reader = open(rt, name, io::empty())?;
    Ok(Some(Net { name, reader }))
}

/// Writes the element of the page that has the street net. `TooLarge` if the page can't hold it.
pub(crate) fn write_net<'a, F: Read + Drop, W: Write>(
    way: Way<'a>,
    net: Net<'a, F>,
    out: &mut W,
) -> Result<(), PageFault<'a>> {
    let Net { name, mut reader } = net;
    let shown = ShownName(name);
    let begun = writeln!(
        out,
        "<script type=\"text/plain\" id=\"net\" data-name=\"{shown}\">"
    );
    way.or_fault(begun)?;
    let mut limited = Limited::new(out, Content::Net);
    let copied = copy(&mut reader, &mut Inside::new(&mut limited));
    if limited.is_over() {
        return Err(PageFault::from(way.too_large(Content::Net, name)));
    }
    match copied {
        Ok(()) => Ok(way.or_fault(writeln!(out, "</script>"))?),
        Err(CopyError::Read(error)) => Err(PageFault::from(Fault::of_read(&error, name))),
        Err(CopyError::Write(error)) => Err(PageFault::from(fault_of(&error, way.target))),
    }
}
