//! One line, and its answer.

ghost use Rattle.std.specs.Prelude.{◌≡◌, ◌<◌, Some, None, IfOk, OnErr, Err, IsErr};
ghost use Rattle.its_station.specs.Runs.{IsInRange};
ghost use Rattle.its_lines.specs.Lines.{whole_line};
ghost use Rattle.its_lines.specs.Requests.{AsksSecured, IsAskedIn, line_of};
ghost use Rattle.its_lines.specs.Within.{AnswersIn, AnswersLine, TellsLine, barred};
ghost use Rattle.its_unit.specs.Steps.{AreKept, IsSameUnit};
ghost use Rattle.its_unit.specs.Unit.{RepresentsUnit, UnitModel};

use crate::asked::{Asked, Rights};
use crate::knowing::answer_query;
use crate::lines::LONGEST_LINE;
use crate::making::{make_own, make_receive, make_receive_verified, make_shb};
use crate::reading::read_request;
use crate::request::{LineFault, LineRequest, Request};
use crate::response::Response;
use its_gnvalue::NoMemory;
use its_linkframe::LONGEST_SECURED_FRAME;
use its_loctable::SortedTable;
use its_station::Call;
use its_unit::{Limiting, Unit};
use its_words::keys::{Key, Wrong};
use std::alloc::{AllocError, Global};

/// Does what one line of an input asks for, at the time under its key `at`, and returns the answer.
///
/// The line has no line feed. `octets` are its first octets, and `longer` says whether it has more:
/// such a line can't be read. `number` is its number among the lines, from 1. A blank line has no
/// answer. `NoMemory` if an allocation failed: nothing changed then but the counts. The limits don't
/// apply to what a line asks for.
///
/// - `tells` (`TellsLine`): a call is the step of the unit of the model past its limits, whose answer is
///   returned and counted; and so is a release. A query is answered as the station knows it. A query and
///   any other line change nothing.
pub fn answer_input_line(
    alloc: Global,
    unit: &mut Unit<SortedTable>,
    number: u64,
    octets: &[u8],
    longer: bool,
) -> Result<Option<Response>, NoMemory>
    ensures tells { (u : UnitModel) → RepresentsUnit unit.old u → IfOk result (λ told.
        TellsLine None u number (line_of octets.now longer) unit.old told unit.new) }
    ensures represents { (u : UnitModel) → RepresentsUnit unit.old u → IfOk result (λ told.
        (next : UnitModel) × RepresentsUnit unit.new next) }
    ensures limits { unit.new.governor ≡ unit.old.governor }
    ensures unchanged { OnErr result (IsSameUnit unit.old unit.new) }
{
    let asked = read_request(alloc, octets, longer, None)?;
    Ok(respond(alloc, unit, Limiting::Past, number, asked)?)
}

/// Does what one line asks for, at the time `now`, and returns the answer. What is under `at` is
/// ignored.
///
/// The line has no line feed. A line of more than 65536 octets can't be read. `number` is its
/// number among the lines, from 1. A blank line has no answer. `room` is the buffer size for a
/// frame. If it is under 2310, `NoRoom` is returned for a line whose answer may have a secured
/// frame (`seal`, `release`, and `receive` with a key `plain`): nothing is done. `NoMemory` if an
/// allocation failed: nothing changed then but the counts.
pub fn answer_line(
    alloc: Global,
    unit: &mut Unit<SortedTable>,
    now: u64,
    number: u64,
    line: &[u8],
    room: usize,
) -> Result<Option<Response>, Unanswered>
    ensures tells { (u : UnitModel) → RepresentsUnit unit.old u → IfOk result (λ told.
        TellsLine (Some now) u number (whole_line line.now) unit.old told unit.new) }
    ensures represents { (u : UnitModel) → RepresentsUnit unit.old u → IfOk result (λ told.
        (next : UnitModel) × RepresentsUnit unit.new next) }
    ensures room { room < 2310 → AsksSecured (whole_line line.now) → IsErr result }
    ensures no_room { result ≡ Err Unanswered.NoRoom → (room < 2310)
        × AsksSecured (whole_line line.now) × (unit.new.counts ≡ unit.old.counts) }
    ensures limits { unit.new.governor ≡ unit.old.governor }
    ensures unchanged { OnErr result (IsSameUnit unit.old unit.new) }
{
    let longer = line.len() > LONGEST_LINE;
    let asked = read_request(alloc, line, longer, Some(now))?;
    if asked.secured && room < LONGEST_SECURED_FRAME {
        return Err(Unanswered::NoRoom);
    }
    Ok(respond(alloc, unit, Limiting::Past, number, asked)?)
}

/// What a line asked for, and the answer to it.
#[derive(Debug, Drop)]
pub struct LineAnswer {
    /// What it asked for, in short.
    pub asked: Asked,
    /// The answer. `None` to a blank line.
    pub response: Option<Response>,
}

/// Does what one line asks for, as `answer_line` does, within the limits of the unit, and if these
/// rights allow it. If they don't, the answer is `NotAllowed`, and nothing changes. `release` is an
/// unknown word here: the caller releases frames itself.
///
/// - `tells` (`AnswersLine`): a call that is allowed is the step of the unit of the model. Its answer
///   is returned, and it is counted. A query is answered as the station knows it, and changes
///   nothing. `asked` is what was asked, in short.
/// - `unchanged`: if an allocation failed, the station and the limits are as before.
pub fn answer_line_within(
    alloc: Global,
    unit: &mut Unit<SortedTable>,
    now: u64,
    number: u64,
    line: &[u8],
    room: usize,
    rights: Rights,
) -> Result<LineAnswer, Unanswered>
    ensures tells { (u : UnitModel) → RepresentsUnit unit.old u → IfOk result (λ told.
        AnswersLine now rights u number (whole_line line.now) unit.old told unit.new) }
    ensures represents { (u : UnitModel) → RepresentsUnit unit.old u → IfOk result (λ told.
        (next : UnitModel) × RepresentsUnit unit.new next) }
    ensures room { room < 2310 → AsksSecured (whole_line line.now) → IsErr result }
    ensures no_room { result ≡ Err Unanswered.NoRoom → (room < 2310)
        × AsksSecured (whole_line line.now) × (unit.new ≡ unit.old) }
    ensures unchanged { OnErr result (IsSameUnit unit.old unit.new) }
{
    let longer = line.len() > LONGEST_LINE;
    let line = read_request(alloc, line, longer, Some(now))?;
    if line.secured && room < LONGEST_SECURED_FRAME {
        return Err(Unanswered::NoRoom);
    }
    let line = LineRequest {
        id: line.id,
        request: barred(line.request),
        secured: line.secured,
    };
    let asked = Asked::of(&line.request);
    if !rights.allow(&line.request) {
        let response = Some(Response::NotAllowed {
            id: line.id,
            at: now,
        });
        return Ok(LineAnswer { asked, response });
    }
    let response = respond(alloc, unit, Limiting::Within, number, line)?;
    Ok(LineAnswer { asked, response })
}

/// Returns what a line within the limits asks for: its caller sends the frames that are released, so
/// `release` is an unknown word there.
fn barred(request: Request) -> Request
    ensures request { result ≡ barred request }
    ensures range { IsAskedIn IsInRange request → IsAskedIn IsInRange result }
{
    match request {
        Request::Release(_) => Request::Bad(LineFault::Key(Key::Do, Wrong::Value)),
        request => request,
    }
}

/// Does what the line of this number asks for, within the limits or past them, and returns the answer.
/// A blank line has none. `NoMemory` if an allocation failed: nothing changed then but the counts.
fn respond(
    alloc: Global,
    unit: &mut Unit<SortedTable>,
    limiting: Limiting,
    number: u64,
    line: LineRequest,
) -> Result<Option<Response>, NoMemory>
    requires { IsAskedIn IsInRange line.request }
    ensures tells { (u : UnitModel) → RepresentsUnit unit.old u → IfOk result (λ told.
        AnswersIn limiting u number line.id line.request unit.old told unit.new) }
    ensures represents { (u : UnitModel) → RepresentsUnit unit.old u → IfOk result (λ told.
        (next : UnitModel) × RepresentsUnit unit.new next) }
    ensures limits { AreKept limiting unit.old.governor unit.new.governor }
    ensures unchanged { OnErr result (IsSameUnit unit.old unit.new) }
{
    let id = line.id;
    match line.request {
        Request::Nothing => Ok(None),
        Request::Call(at, Call::Own(call)) => {
            let made = make_own(unit, limiting, at, &call)?;
            Ok(Some(Response::of_made(id, at, made)))
        }
        Request::Call(at, Call::Receive(frame)) => {
            let made = make_receive(alloc, unit, limiting, at, frame.as_slice())?;
            Ok(Some(Response::of_frame(id, at, made)))
        }
        Request::Verified(at, octets) => {
            let made = make_receive_verified(alloc, unit, limiting, at, &octets)?;
            Ok(Some(Response::of_frame(id, at, made)))
        }
        Request::Shb(at, shb) => {
            let made = make_shb(unit, limiting, at, &shb)?;
            Ok(Some(Response::of_made(id, at, made)))
        }
        Request::Release(at) => {
            let said = unit.release_by(limiting, at);
            Ok(Some(Response::of_release(id, at, said)))
        }
        Request::Query(at, query) => {
            let known = answer_query(alloc, unit, at, query)?;
            Ok(Some(Response::Known { id, at, known }))
        }
        Request::Bad(fault) => Ok(Some(Response::Fault {
            id,
            line: number,
            fault,
        })),
    }
}

/// Why a line is not answered. The station is as before.
#[derive(Clone, Copy, Debug, PartialEq, Eq)]
pub enum Unanswered {
    /// A secured frame might not fit: nothing was done.
    NoRoom,
    /// An allocation failed.
    NoMemory,
}

impl From<AllocError> for Unanswered {
    ghost use Rattle.its_lines.specs.declared.serving.Unanswered.{Unanswered};

    ghost from_gives = { λ error unanswered. unanswered ≡ Unanswered.NoMemory };

    fn from(_: AllocError) -> Unanswered {
        Unanswered::NoMemory
    }
}

impl From<NoMemory> for Unanswered {
    ghost use Rattle.its_lines.specs.declared.serving.Unanswered.{Unanswered};

    ghost from_gives = { λ error unanswered. unanswered ≡ Unanswered.NoMemory };

    fn from(_: NoMemory) -> Unanswered {
        Unanswered::NoMemory
    }
}
