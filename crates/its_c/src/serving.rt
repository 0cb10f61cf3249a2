//! The call that takes a line of JSON, as the command `station` does, and answers it.

ghost use Rattle.std.specs.Prelude.{◌≡◌, ◌≢◌, ◌≤◌, ◌<◌, ◌⊎◌, pos, length, Option};
ghost use Rattle.its_lines.specs.declared.response.Response.{Response as ToldLine};
ghost use Rattle.its_lines.specs.Lines.{whole_line};
ghost use Rattle.its_lines.specs.Requests.{AsksSecured};
ghost use Rattle.its_unit.specs.Unit.{UnitModel};
ghost use Rattle.its_c.specs.Held.{IsSame, counts_in, limits_in};
ghost use Rattle.its_c.specs.Open.{HoldsUnit};
ghost use Rattle.its_c.specs.Served.{IsServedLine, ShowsAnswer, ShowsFitting, ShowsLine, frame_in};
ghost use Rattle.its_c.specs.Told.{Holds};

use crate::handle::Geostation;
use crate::status::{NO_MEMORY, NO_ROOM, OK};
use crate::told::hand_out;
use its_lines::{Known, Response, Unanswered, answer_line, print_response};
use its_linkframe::LONGEST_FRAME;
use its_station::Answer;
use its_words::json_lines::JsonLine;
use std::alloc::Global;

/// How many octets an answer may have: a call that writes one wants room for it.
pub(crate) const LONGEST_ANSWER: usize = 16384;

/// Does what a line of JSON asks for at the moment `now`: a call of the station, or what it knows,
/// as the command `station` does. What stands under `at` isn't looked at. Writes the answer, one
/// JSON object without a line feed, or nothing to a blank line, and the frame that is to be sent, if
/// any. `number` is the line's among all, for the answer to one that can't be read. Refused by
/// `NO_ROOM` for an `answer` under 16384 octets, a `frame` under 1468, or under 2310 of a line
/// whose answer may have a secured frame (`seal`, `release`, and `receive` with a key `plain`), and for
/// memory (S5); a refusal of the station's is in the answer. The limits don't apply to what a line asks
/// for.
#[unsafe(no_mangle)]
pub extern "C" fn geostation_handle_json(
    alloc: Global,
    s: &mut Geostation,
    now: u64,
    number: u64,
    line: &[u8],
    answer: &mut [u8],
    answer_length: &mut usize,
    frame: &mut [u8],
    frame_length: &mut usize,
) -> i32
    ensures room { (length answer.old < 16384) ⊎ (length frame.old < 1468) →
        (result ≡ pos 21) × (s.new ≡ s.old) }
    ensures secured_room { length frame.old < 2310 → AsksSecured (whole_line line.now) →
        result ≢ pos 0 }
    ensures no_room { result ≡ pos 21 → counts_in s.new ≡ counts_in s.old }
    ensures served { (u : UnitModel) → HoldsUnit s.old.held.unit u → result ≡ pos 0 →
        (told : Option ToldLine) × IsServedLine now number line.now u s.old s.new told
        × ShowsAnswer answer_length.new answer.new told
        × ShowsFitting frame_length.new frame.new (frame_in told) }
    ensures limits { limits_in s.new ≡ limits_in s.old }
    ensures unchanged { result ≢ pos 0 → IsSame s.old s.new }
    ensures nothing { result ≢ pos 0 → (answer_length.new ≡ 0) × (frame_length.new ≡ 0) }
    ensures only { (result ≡ pos 0) ⊎ (result ≡ pos 5) ⊎ (result ≡ pos 21) }
{
    *answer_length = 0;
    *frame_length = 0;
    if answer.len() < LONGEST_ANSWER || frame.len() < LONGEST_FRAME {
        return NO_ROOM;
    }
    // The room is taken before the call is made: what is done is told.
    let Ok(mut text) = JsonLine::with_room(alloc, LONGEST_ANSWER) else {
        return NO_MEMORY;
    };
    let mut unit = s.held.take(alloc);
    let room = frame.len();
    let said = answer_line(alloc, &mut unit, now, number, line, room);
    s.held.put(unit);
    let told = match said {
        Ok(told) => told,
        Err(Unanswered::NoRoom) => return NO_ROOM,
        Err(Unanswered::NoMemory) => return NO_MEMORY,
    };
    *frame_length = write_frame(&told, frame);
    *answer_length = write_answer(&mut text, &told, answer);
    OK
}

/// Writes the frame that is to be sent after what was answered, if one is, to the beginning of a
/// buffer, and returns its length.
pub(crate) fn write_frame(told: &Option<Response>, room: &mut [u8]) -> usize
    ensures { ShowsFitting result room.new (frame_in told.now) }
{
    match told {
        Some(Response::Reply { reply, .. }) => match reply {
            Answer::Sent(frame) => write_fitting(frame.as_slice(), room),
            Answer::Accepted {
                sent: Some(frame),
                ..
            } => write_fitting(frame.as_slice(), room),
            _ => 0,
        },
        Some(Response::Released { frame, .. }) => write_fitting(frame.as_slice(), room),
        Some(
            Response::Known {
                known: Known::Sealed(frame),
                ..
            },
        ) => write_fitting(frame.as_slice(), room),
        _ => 0,
    }
}

/// Writes octets to the beginning of a buffer, and returns how many; none where they don't fit.
fn write_fitting(octets: &[u8], room: &mut [u8]) -> usize
    ensures length { length room.new ≡ length room.old }
    ensures written { length octets.now ≤ length room.old → Holds result room.new octets.now }
    ensures left { length room.old < length octets.now → result ≡ 0 }
{
    if octets.len() > room.len() {
        return 0;
    }
    hand_out(octets, room)
}

/// Writes what was answered to the beginning of a buffer, and returns its length.
pub(crate) fn write_answer(text: &mut JsonLine, told: &Option<Response>, room: &mut [u8]) -> usize
    ensures { ShowsAnswer result room.new told.now }
{
    match told {
        Some(response) => write_response(text, response, room),
        None => 0,
    }
}

/// Writes the JSON of what was answered, without its line feed.
fn write_response(text: &mut JsonLine, response: &Response, room: &mut [u8]) -> usize
    ensures { ShowsLine result room.new }
{
    let Ok(line) = print_response(text, response) else {
        return 0;
    };
    write_fitting(&line[..line.len() - 1], room)
}
