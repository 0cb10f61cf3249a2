//! The call that does what a line of JSON asks for within the limits, and says so in a struct too.

ghost use Rattle.std.specs.Prelude.{◌≡◌, ◌≢◌, ◌<◌, ◌⊎◌, pos, length};
ghost use Rattle.its_lines.specs.Lines.{whole_line};
ghost use Rattle.its_lines.specs.Requests.{AsksSecured};
ghost use Rattle.its_unit.specs.Unit.{UnitModel};
ghost use Rattle.its_c.specs.Held.{IsSame, counts_in};
ghost use Rattle.its_c.specs.Lines.{IsServedWithin, command_of, is_sent, is_to_area, no_line};
ghost use Rattle.its_c.specs.Lines.{number_used, or_zero, outcome_of, outcome_of_fault};
ghost use Rattle.its_c.specs.Lines.{outcome_of_known, outcome_of_reply, status_of_known};
ghost use Rattle.its_c.specs.Lines.{status_of_reply, status_told};
ghost use Rattle.its_c.specs.Open.{HoldsUnit};

use crate::handle::Geostation;
use crate::layout::LineResult;
use crate::queries::shown_vector;
use crate::serving::{LONGEST_ANSWER, write_answer, write_frame};
use crate::status::{BAD_ARGUMENT, BAD_FRAME, NO_MEMORY, NO_ROOM, OK, OVER_RATE, status_of};
use its_lines::{
    Known, LineAnswer, LineFault, LineWord, Response, Rights, Unanswered, answer_line_within,
    id_length,
};
use its_linkframe::LONGEST_FRAME;
use its_station::{Answer, StationAnswer};
use its_words::json_lines::JsonLine;
use its_words::keys::{Key, Verb};
use std::alloc::Global;

/// Does what a line of JSON asks for at the moment `now`, as `geostation_handle_json` does, but
/// within the limits of the unit, and only if `rights` has the bit of the right that it needs. A line
/// without that right changes nothing. `release` is an unknown command here. Writes the answer, the frame that is to be sent, and a struct
/// with what was asked and the outcome.
///
/// - `room`, `secured_room`: `NO_ROOM` for buffers that are too small, as there.
/// - `served` (`IsServedWithin`): the answer, the unit afterwards, and each member of the struct.
/// - `unchanged`: if the status isn't 0, the station and the limits are as before.
#[unsafe(no_mangle)]
pub extern "C" fn geostation_handle_line(
    alloc: Global,
    s: &mut Geostation,
    now: u64,
    number: u64,
    line: &[u8],
    rights: u32,
    answer: &mut [u8],
    frame: &mut [u8],
    told: &mut LineResult,
) -> i32
    ensures room { (length answer.old < 16384) ⊎ (length frame.old < 1468) →
        (result ≡ pos 21) × (s.new ≡ s.old) }
    ensures secured_room { length frame.old < 2310 → AsksSecured (whole_line line.now) →
        result ≢ pos 0 }
    ensures no_room { result ≡ pos 21 → counts_in s.new ≡ counts_in s.old }
    ensures served { (u : UnitModel) → HoldsUnit s.old.held.unit u → result ≡ pos 0 →
        IsServedWithin now number line.now rights u s.old s.new answer.new frame.new told.new }
    ensures unchanged { result ≢ pos 0 → IsSame s.old s.new }
    ensures nothing { result ≢ pos 0 → told.new ≡ no_line }
    ensures only { (result ≡ pos 0) ⊎ (result ≡ pos 5) ⊎ (result ≡ pos 21) }
{
    *told = LineResult::NOTHING;
    if answer.len() < LONGEST_ANSWER || frame.len() < LONGEST_FRAME {
        return NO_ROOM;
    }
    // The room is taken before the call is made: what is done is told.
    let Ok(mut text) = JsonLine::with_room(alloc, LONGEST_ANSWER) else {
        return NO_MEMORY;
    };
    let mut unit = s.held.take(alloc);
    let next_number = unit.station().next_number();
    let room = frame.len();
    let rights = Rights { bits: rights };
    let said = answer_line_within(alloc, &mut unit, now, number, line, room, rights);
    let vector = unit.station().vector();
    s.held.put(unit);
    let done = match said {
        Ok(done) => done,
        Err(Unanswered::NoRoom) => return NO_ROOM,
        Err(Unanswered::NoMemory) => return NO_MEMORY,
    };
    *told = LineResult {
        command: command_of(done.asked.word),
        outcome: outcome_of(&done.response),
        status: status_told(&done.response),
        port: or_zero(done.asked.port),
        number: number_used(next_number, &done),
        payload_length: done.asked.payload_length,
        answer_length: write_answer(&mut text, &done.response, answer),
        id_length: length_of_id(&mut text, &done.response),
        frame_length: write_frame(&done.response, frame),
        vector: shown_vector(vector),
    };
    OK
}

/// Returns the length of the value of the `id` in an answer.
fn length_of_id(text: &mut JsonLine, response: &Option<Response>) -> usize {
    match response {
        Some(response) => id_length(text, response),
        None => 0,
    }
}

/// Returns the number of a command.
fn command_of(word: Option<LineWord>) -> u32
    ensures { result ≡ command_of word }
{
    match word {
        None => 0,
        Some(LineWord::Own(Verb::Move)) => 1,
        Some(LineWord::Own(Verb::Open)) => 2,
        Some(LineWord::Own(Verb::Close)) => 3,
        Some(LineWord::Own(Verb::Tick)) => 4,
        Some(LineWord::Own(Verb::Shb)) => 5,
        Some(LineWord::Own(Verb::Gbc)) => 6,
        Some(LineWord::Own(Verb::Gac)) => 7,
        Some(LineWord::Own(Verb::Restart)) => 8,
        Some(LineWord::Own(Verb::Deliver | Verb::Leave)) => 0,
        Some(LineWord::Receive) => 9,
        Some(LineWord::NextBeacon) => 10,
        Some(LineWord::Neighbours) => 11,
        Some(LineWord::LookUp) => 12,
        Some(LineWord::ReadFrame) => 13,
        Some(LineWord::Counts) => 14,
        Some(LineWord::Seal) => 15,
        Some(LineWord::Release) => 16,
        Some(LineWord::NextDue) => 17,
    }
}

/// Returns the number of the outcome of a line.
fn outcome_of(response: &Option<Response>) -> u32
    ensures { result ≡ outcome_of response.now }
{
    match response {
        None => 0,
        Some(Response::Reply { reply, .. }) => outcome_of_reply(reply),
        Some(Response::Repeated { .. } | Response::Released { .. }) => 1,
        Some(Response::NotAllowed { .. }) => 2,
        Some(Response::OverRate { .. }) => 3,
        Some(Response::Known { known, .. }) => outcome_of_known(known),
        Some(Response::Fault { fault, .. }) => outcome_of_fault(*fault),
    }
}

fn outcome_of_reply(reply: &StationAnswer) -> u32
    ensures { result ≡ outcome_of_reply reply.now }
{
    match reply {
        Answer::Refused(_) => 3,
        _ => 1,
    }
}

fn outcome_of_known(known: &Known) -> u32
    ensures { result ≡ outcome_of_known known.now }
{
    match known {
        Known::Refused(_) | Known::NoFrame(_) | Known::NotSealed(_) => 3,
        _ => 1,
    }
}

fn outcome_of_fault(fault: LineFault) -> u32
    ensures { result ≡ outcome_of_fault fault }
{
    match fault {
        LineFault::Key(Key::Do, _) | LineFault::Word(_) => 4,
        _ => 5,
    }
}

/// Returns why a line was refused, as the status of the call of C that it asks for.
fn status_told(response: &Option<Response>) -> i32
    ensures { result ≡ status_told response.now }
{
    match response {
        Some(Response::Reply { reply, .. }) => status_of_reply(reply),
        Some(Response::OverRate { .. }) => OVER_RATE,
        Some(Response::Known { known, .. }) => status_of_known(known),
        _ => OK,
    }
}

fn status_of_reply(reply: &StationAnswer) -> i32
    ensures { result ≡ status_of_reply reply.now }
{
    match reply {
        Answer::Refused(refused) => status_of(*refused),
        _ => OK,
    }
}

fn status_of_known(known: &Known) -> i32
    ensures { result ≡ status_of_known known.now }
{
    match known {
        Known::Refused(refused) => status_of(*refused),
        Known::NoFrame(_) => BAD_FRAME,
        Known::NotSealed(_) => BAD_ARGUMENT,
        _ => OK,
    }
}

/// Returns the port, or 0.
fn or_zero(port: Option<u16>) -> u16
    ensures { result ≡ or_zero port }
{
    match port {
        Some(port) => port,
        None => 0,
    }
}

/// Returns the sequence number of the packet that is sent. 0 if none with a number is.
fn number_used(next_number: u16, said: &LineAnswer) -> u16
    ensures { result ≡ number_used next_number said.now }
{
    if is_to_area(said.asked.word) && is_sent(&said.response) {
        next_number
    } else {
        0
    }
}

fn is_to_area(word: Option<LineWord>) -> bool
    ensures { result ≡ is_to_area word }
{
    match word {
        Some(LineWord::Own(Verb::Gbc | Verb::Gac)) => true,
        _ => false,
    }
}

fn is_sent(response: &Option<Response>) -> bool
    ensures { result ≡ is_sent response.now }
{
    match response {
        Some(
            Response::Reply {
                reply: Answer::Sent(_),
                ..
            },
        ) => true,
        _ => false,
    }
}
