//! The answer to an event.

ghost use Rattle.std.specs.Prelude.{◌≡◌, ℕ, Option, not, IsSome, MatchResult};
ghost use Rattle.its_model.specs.Packet.{Transmission};
ghost use Rattle.its_model.specs.Calls.{Answer as ModelAnswer};
ghost use Rattle.its_model.specs.World.{entry_of, frame_of, numbered};
ghost use Rattle.its_station.specs.Answers.{TellsAnswer};
ghost use Rattle.its_station.specs.Receiving.{IsRelay};
ghost use Rattle.its_station.specs.Runs.{is_refusal, reply_of};
ghost use Rattle.its_station.specs.Steps.{refusal_of};
ghost use Rattle.its_world.specs.Entries.{TellsEntry, was_done};

use its_gnvalue::NoMemory;
use its_station::{Answer, Refused, StationAnswer};
use std::error::Error;
use std::fmt;

/// Why an event failed. It changed nothing.
#[derive(Clone, Copy, Debug, PartialEq, Eq)]
pub enum EntryFault {
    /// The station refused the call. The reason is never memory.
    Station(Refused),
    /// M3: there is no frame of this number.
    NoSuchFrame,
    /// M4: there is no such station. M4 comes before M3.
    NoSuchStation,
}

impl EntryFault {
    /// The code that logs and the program's lines show, for example `S8 B2` or `M3`.
    pub fn code(&self) -> EntryCode
        ensures { result ≡ record { 0 = self.now } }
    {
        EntryCode(*self)
    }
}

impl fmt::Display for EntryFault {
    fn fmt<W: fmt::Write>(&self, f: &mut fmt::Formatter<W>) -> fmt::Result {
        match self {
            EntryFault::Station(fault) => write!(f, "{fault}"),
            EntryFault::NoSuchFrame => write!(f, "there is no such frame"),
            EntryFault::NoSuchStation => write!(f, "there is no such station"),
        }
    }
}

impl Error for EntryFault {}

/// A fault that prints as its code, for example `S8 B2` or `M3`.
#[derive(Clone, Copy, Debug, PartialEq, Eq)]
pub struct EntryCode(pub EntryFault);

impl fmt::Display for EntryCode {
    fn fmt<W: fmt::Write>(&self, f: &mut fmt::Formatter<W>) -> fmt::Result {
        match self.0 {
            EntryFault::Station(fault) => write!(f, "{}", fault.code()),
            EntryFault::NoSuchFrame => write!(f, "M3"),
            EntryFault::NoSuchStation => write!(f, "M4"),
        }
    }
}

/// The answer to an event. A frame is named by its number.
pub type Entry = Answer<usize, EntryFault>;

/// Returns the entry of a station's answer, with this number for the frame that it sends. Also returns
/// that frame, if there is one.
#[inline(always)]
pub fn entry_of(answer: StationAnswer, number: usize) -> (Entry, Option<Vec<u8>>)
    ensures entry { (told : ModelAnswer Transmission) → TellsAnswer answer told →
        TellsEntry result.0 (entry_of number told) }
    ensures frame { (told : ModelAnswer Transmission) → TellsAnswer answer told →
        IsRelay result.1 (frame_of told) }
    ensures refused { was_done result.0 ≡ not (is_refusal (reply_of answer)) }
{
    match answer {
        Answer::Moved => (Answer::Moved, None),
        Answer::Opened => (Answer::Opened, None),
        Answer::Closed => (Answer::Closed, None),
        Answer::Restarted => (Answer::Restarted, None),
        Answer::Quiet => (Answer::Quiet, None),
        Answer::Sent(frame) => (Answer::Sent(number), Some(frame)),
        Answer::Ignored(why) => (Answer::Ignored(why), None),
        Answer::Accepted { handed, sent } => {
            let relayed = number_of(&sent, number);
            let entry = Answer::Accepted {
                handed,
                sent: relayed,
            };
            (entry, sent)
        }
        Answer::Refused(fault) => (Answer::Refused(EntryFault::Station(fault)), None),
    }
}

/// Returns the entry of a refused call. `NoMemory` if an allocation failed.
pub(crate) fn refusal(refused: Refused) -> Result<Entry, NoMemory>
    ensures { MatchResult result
        (λ entry. (entry ≡ Answer.Refused (EntryFault.Station refused))
        × IsSome (refusal_of refused))
        (λ _. refused ≡ Refused.NoMemory) }
{
    Ok(Answer::Refused(EntryFault::Station(refused.except_memory()?)))
}

/// Returns the number for the frame, if there is a frame.
#[inline(always)]
pub(crate) fn number_of(frame: &Option<Vec<u8>>, number: usize) -> Option<usize>
    ensures { (relayed : Option Transmission) → IsRelay frame.now relayed →
        result ≡ numbered number relayed }
{
    match frame {
        Some(_) => Some(number),
        None => None,
    }
}

/// Returns the number of the frame that was sent, if one was.
pub fn frame_of(entry: &Entry) -> Option<usize>
    ensures { (answer : ModelAnswer ℕ) → TellsEntry entry.now answer → result ≡ frame_of answer }
{
    match entry {
        Answer::Sent(frame) => Some(*frame),
        Answer::Accepted { sent, .. } => *sent,
        Answer::Moved
        | Answer::Opened
        | Answer::Closed
        | Answer::Restarted
        | Answer::Quiet
        | Answer::Ignored(_)
        | Answer::Refused(_) => None,
    }
}
