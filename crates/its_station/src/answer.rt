//! The answer of a station to a call, with octets of its own.

ghost use Rattle.std.specs.Prelude.{◌≡◌, ◌≤◌, Option, [], Err, IfOk, OnErr, OnOk, IsSome};
ghost use Rattle.std.specs.Prelude.{MatchResult, length};
ghost use Rattle.std.specs.Prelude.{vec_len, vec_capacity};
ghost use Rattle.std.specs.Option.{option_map};
ghost use Rattle.its_model.specs.Packet.{Transmission};
ghost use Rattle.its_model.specs.Calls.{Answer as ModelAnswer};
ghost use Rattle.its_model.specs.Station.{Step};
ghost use Rattle.its_station.specs.State.{StationState};
ghost use Rattle.its_station.specs.Steps.{IsStepOf, Says, refusal_of};
ghost use Rattle.its_station.specs.Requests.{TellsSent, TellsTick};
ghost use Rattle.its_station.specs.Receiving.{Tells, said_by};
ghost use Rattle.its_station.specs.Answers.{Fits, HandingFits, IsAnswerOf, IsAnswerTo, Owns};
ghost use Rattle.its_station.specs.Answers.{TellsAnswer, delivered};

use crate::outcome::{Handed, Outcome, Why};
use crate::refused::Refused;
use its_gnvalue::NoMemory;
use std::alloc::Global;
use std::mem;

/// The answer to a call or to an event. `F` stands for the frame that is to be sent: its octets, or
/// its number. `R` is the reason of a failure.
#[derive(Debug, Drop, PartialEq, Eq)]
pub enum Answer<F, R> {
    /// The station moved.
    Moved,
    /// It opened a port.
    Opened,
    /// It closed a port.
    Closed,
    /// It restarted.
    Restarted,
    /// No beacon was due.
    Quiet,
    /// It sends this frame.
    Sent(F),
    /// It ignored a frame.
    Ignored(Why),
    /// It accepted the packet of a frame.
    Accepted {
        /// What was delivered to a port, if anything was.
        handed: Option<Delivery>,
        /// The frame in which the packet is forwarded, if it is.
        sent: Option<F>,
    },
    /// It failed, and changed nothing.
    Refused(R),
}

/// The answer of a station, with the octets of the frame to send. The reason of a failure is never
/// memory.
pub type StationAnswer = Answer<Vec<u8>, Refused>;

/// What was delivered to a port, with a payload of its own.
#[derive(Debug, Drop, PartialEq, Eq)]
pub struct Delivery {
    /// The destination port (BTP-B).
    pub port: u16,
    /// The destination port info.
    pub info: u16,
    /// The payload.
    pub payload: Vec<u8>,
}

/// Returns the answer to `move_to`, `open`, `close` or `restart`: `done` if the call succeeded.
/// `NoMemory` if an allocation failed.
pub(crate) fn answer_of_done(
    outcome: Result<(), Refused>,
    done: StationAnswer,
) -> Result<StationAnswer, NoMemory>
    ensures answer { (this : ModelAnswer Transmission) (new : StationState) (step : Step) →
        TellsAnswer done this → IsStepOf (Says this) outcome new step →
        IfOk result (λ answer. IsAnswerTo answer new step) }
    ensures memory { OnErr result (outcome ≡ Err Refused.NoMemory) }
{
    match outcome {
        Ok(()) => Ok(done),
        Err(refused) => refusal(refused),
    }
}

/// Returns the answer to `tick`. `NoMemory` if an allocation failed.
pub(crate) fn answer_of_tick(
    outcome: Result<Option<Vec<u8>>, Refused>,
) -> Result<StationAnswer, NoMemory>
    ensures answer { (new : StationState) (step : Step) → IsStepOf TellsTick outcome new step →
        IfOk result (λ answer. IsAnswerTo answer new step) }
    ensures memory { OnErr result (outcome ≡ Err Refused.NoMemory) }
{
    match outcome {
        Ok(Some(frame)) => Ok(Answer::Sent(frame)),
        Ok(None) => Ok(Answer::Quiet),
        Err(refused) => refusal(refused),
    }
}

/// Returns the answer to a call that sends. `NoMemory` if an allocation failed.
pub(crate) fn answer_of_send(outcome: Result<Vec<u8>, Refused>) -> Result<StationAnswer, NoMemory>
    ensures answer { (new : StationState) (step : Step) → IsStepOf TellsSent outcome new step →
        IfOk result (λ answer. IsAnswerTo answer new step) }
    ensures memory { OnErr result (outcome ≡ Err Refused.NoMemory) }
{
    match outcome {
        Ok(frame) => Ok(Answer::Sent(frame)),
        Err(refused) => refusal(refused),
    }
}

impl StationAnswer {
    /// Returns the answer to a frame that was received. A payload that is delivered takes `room`,
    /// an empty buffer in which it fits. `NoMemory` if an allocation failed.
    #[inline(always)]
    pub fn of_received(
        alloc: Global,
        outcome: Result<Outcome<'_>, Refused>,
        room: &mut Vec<u8>,
    ) -> Result<StationAnswer, NoMemory>
        requires empty { room.old.items ≡ [] }
        requires size { vec_len room.old ≡ 0 }
        requires room { IfOk outcome (Fits (vec_capacity room.old)) }
        ensures same { IfOk result (λ answer. IsAnswerOf answer outcome.entry) }
        ensures answer { (new : StationState) (step : Step) →
            IsStepOf Tells outcome.entry new step →
            IfOk result (λ answer. IsAnswerTo answer new step) }
        ensures memory { OnErr result (outcome.entry ≡ Err Refused.NoMemory) }
    {
        match outcome {
            Ok(outcome) => Ok(answer_of(alloc, outcome, room)),
            Err(refused) => refusal(refused),
        }
    }
}

/// Returns the outcome as an answer, which takes the payload into the buffer that was made for it.
#[inline(always)]
fn answer_of(alloc: Global, outcome: Outcome<'_>, room: &mut Vec<u8>) -> StationAnswer
    requires empty { room.old.items ≡ [] }
    requires size { vec_len room.old ≡ 0 }
    requires room { Fits (vec_capacity room.old) outcome }
    ensures same { Owns result outcome.entry }
{
    match outcome {
        Outcome::Ignored(why) => Answer::Ignored(why),
        Outcome::Accepted { handed, sent } => Answer::Accepted {
            handed: Delivery::in_room(alloc, handed, room),
            sent,
        },
    }
}

/// Empties a buffer, and gives it the size of a frame: what is delivered of that frame then fits in
/// it. `NoMemory` if an allocation failed.
#[inline(always)]
pub fn make_room(room: &mut Vec<u8>, frame: &[u8]) -> Result<(), NoMemory>
    ensures empty { room.new.items ≡ [] }
    ensures size { vec_len room.new ≡ 0 }
    ensures room { OnOk result (length frame.now ≤ vec_capacity room.new) }
{
    room.clear();
    room.reserve(frame.len())?;
    Ok(())
}

impl Delivery {
    /// What was delivered, with a payload of its own. It is in `room`, an empty buffer that is
    /// large enough (`make_room`), and another empty buffer takes its place. If nothing was
    /// delivered, `room` stays.
    #[inline(always)]
    pub fn in_room(
        alloc: Global,
        handed: Option<Handed<'_>>,
        room: &mut Vec<u8>,
    ) -> Option<Delivery>
        requires empty { room.old.items ≡ [] }
        requires size { vec_len room.old ≡ 0 }
        requires room { HandingFits (vec_capacity room.old) handed }
        ensures { option_map delivered result ≡ option_map said_by handed.entry }
    {
        match handed {
            Some(handed) => {
                let Ok(()) = room.extend_from_slice(handed.payload) else {
                    unreachable!()
                };
                Some(Delivery {
                    port: handed.port,
                    info: handed.info,
                    payload: mem::replace(room, Vec::new(alloc)),
                })
            }
            None => None,
        }
    }
}

/// Returns a refusal as an answer. `NoMemory` if an allocation failed.
fn refusal(refused: Refused) -> Result<StationAnswer, NoMemory>
    ensures { MatchResult result
        (λ answer. (answer ≡ Answer.Refused refused) × IsSome (refusal_of refused))
        (λ _. refused ≡ Refused.NoMemory) }
{
    Ok(Answer::Refused(refused.except_memory()?))
}
