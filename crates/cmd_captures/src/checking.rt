//! The command `check`.

use crate::output::Output;
use crate::refused_lines::{Count, RefusedRecord};
use cap_records::{
    RecordFault, RecordPlace, RecordVisitor, SeenFrame, Selection, each_record, open_records,
};
use cmd_reporting::{Fault, Io, Status, open};
use std::io::{Read, Write};
use std::rt::Files;

/// Prints a line for each rejected record.
#[derive(Drop)]
struct RefusedRecords {
    output: Output,
}

impl RecordVisitor for RefusedRecords {
    fn visit<'f, W: Write>(
        &mut self,
        place: RecordPlace,
        frame: Result<SeenFrame<'_>, RecordFault>,
        out: &mut W,
    ) -> Result<(), Fault<'f>> {
        let Err(fault) = frame else {
            return Ok(());
        };
        let explain = self.output.explain;
        self.output
            .line(&RefusedRecord::new(place.number, fault, explain), out)
    }
}

/// Prints one line per selected record of the file that is rejected. Then prints how many records
/// were selected, how many of them were rejected and, if all kinds are selected, how many are
/// outside the profile. `input` is standard input.
///
/// `Refused` if a selected record or the file was rejected. `Failed` if the file could not be read,
/// standard output could not be written, or memory ran out.
pub fn check_file<R: Files + AllocGlobal, I: Read + Drop, W: Write, E: Write>(
    rt: &R,
    file: &str,
    input: I,
    selection: &Selection,
    io: &mut Io<W, E>,
) -> Status
where
    R::File: Read + Drop,
{
    let ended = check_records(rt, file, input, selection, io);
    io.status_of(ended)
}

/// Checks the records of the file. Returns the fault that ends the command before it is done.
fn check_records<'a, R: Files + AllocGlobal, I: Read + Drop, W: Write, E>(
    rt: &R,
    file: &'a str,
    input: I,
    selection: &Selection,
    io: &mut Io<W, E>,
) -> Result<Status, Fault<'a>>
where
    R::File: Read + Drop,
{
    let alloc = rt.alloc();
    let reader = open(rt, file, input)?;
    let mut visitor = RefusedRecords {
        output: Output::new(alloc, io.format)?,
    };
    let out = &mut io.out;
    let records = open_records(alloc, file, selection.format, reader)?;
    let walked = each_record(alloc, file, selection, records, &mut visitor, out)?;
    visitor.output.end(&walked, out)?;
    let outside = selection.choice.all_kinds.then_some(walked.outside);
    let count = Count::new(walked.records, walked.refused, outside);
    visitor.output.line(&count, out)?;
    Ok(walked.status())
}
