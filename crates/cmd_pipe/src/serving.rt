//! The lines of the input, each answered before the next is read.

ghost use Rattle.std.specs.Prelude.{◌≡◌, ◌++◌, ◌∷◌, [], List, IfOk, OnOk};
ghost use Rattle.its_lines.specs.declared.response.Response.{Response as ToldLine};
ghost use Rattle.cmd_pipe.specs.Lines.{text_of};
ghost use Rattle.cmd_pipe.specs.Serving.{CountedUnit, IsCounted, IsServed, IsServedLine};
ghost use Rattle.cmd_pipe.specs.Serving.{ended_of, then_ended};

use crate::fault::PipeFault;
use crate::sink::ResponseSink;
use cmd_reporting::Status;
use cmd_text::lines::Line;
use its_lines::{LONGEST_LINE, Response, answer_input_line};
use its_loctable::SortedTable;
use its_unit::Unit;
use std::alloc::Global;
use std::io::BufRead;

/// Reads all lines of the reader. Does what each line asks for, and passes the answer to the sink
/// before it reads the next line. A line of more than 65536 octets can't be read.
///
/// Returns `Refused` if a line could not be read. Fails if a read or the sink failed, or if memory
/// ran out: then no further line is read.
///
/// - its clause (`IsServed`): if the octets of the reader are known, the lines that are answered
///   are exactly its lines, in order, each once, numbered from 1. A longer line than 65536 octets
///   counts with its first 65536 (`AreLines`). A line that asks for a call is one step of the unit
///   without limits, at the time and with the frame or the keys in it (`SaysCall`). The answer is
///   that step's, and is counted. The same holds for a release. A query is answered by the
///   station's state (`TellsQuery`). A query and any other line change nothing. The unit is always
///   one of the model.
pub fn serve<R: BufRead, S: ResponseSink>(
    alloc: Global,
    unit: &mut Unit<SortedTable>,
    reader: &mut R,
    sink: &mut S,
) -> Result<Status, PipeFault>
    ensures { (s : CountedUnit) → IsCounted unit.old s → S.Took sink.old [] →
        IfOk result (λ ended. IsServed s unit.new ended (S.Took sink.new) (R.remaining reader.old)) }
{
    let mut line = Line::new(alloc, LONGEST_LINE)?;
    let mut ended = Status::Done;
    // The range is there so that the walk ends on any reader.
    for number in 1..u64::MAX {
        if !line
            .read(reader)
            .map_err(|error| PipeFault::of_read(&error))?
        {
            return Ok(ended);
        }
        let next = serve_line(alloc, unit, number, &line, sink, ended)?;
        ended = next;
    }
    Err(PipeFault::CannotRead)
}

/// Answers the line of this number, and passes the answer to the sink. `ended` is how the station
/// would have ended before this line. Returns how it would end now.
fn serve_line<S: ResponseSink>(
    alloc: Global,
    unit: &mut Unit<SortedTable>,
    number: u64,
    line: &Line,
    sink: &mut S,
    ended: Status,
) -> Result<Status, PipeFault>
    ensures { (s : CountedUnit) (log : List ToldLine) → IsCounted unit.old s
        → S.Took sink.old log → ended ≡ ended_of log → IfOk result (λ next.
        IsServedLine s number (text_of line.now) log unit.new next (S.Took sink.new)) }
{
    match answer_input_line(alloc, unit, number, line.start(), line.passed().any)? {
        Some(response) => hand_on(response, sink, ended),
        None => Ok(ended),
    }
}

/// Passes the answer to a line to the sink.
fn hand_on<S: ResponseSink>(
    response: Response,
    sink: &mut S,
    ended: Status,
) -> Result<Status, PipeFault>
    ensures took { (log : List ToldLine) → S.Took sink.old log
        → OnOk result (S.Took sink.new (log ++ response ∷ [])) }
    ensures ended { IfOk result (λ next. next ≡ then_ended ended response) }
{
    let next = ended_after(ended, &response);
    sink.put(response)?;
    Ok(next)
}

/// Returns how a station ends after the answer to one more line.
fn ended_after(ended: Status, response: &Response) -> Status
    ensures { result ≡ then_ended ended response.now }
{
    match response {
        Response::Reply { .. }
        | Response::Released { .. }
        | Response::Repeated { .. }
        | Response::OverRate { .. }
        | Response::NotAllowed { .. }
        | Response::Known { .. } => ended,
        Response::Fault { .. } => Status::Refused,
    }
}
