//! What a unit returns for a frame, with its own copy of the octets.

ghost use Rattle.std.specs.Prelude.{◌≡◌, [], IfOk, vec_capacity, vec_len};
ghost use Rattle.its_station.specs.Answers.{Fits};
ghost use Rattle.its_unit.specs.Steps.{WherePassed};
ghost use Rattle.cmd_stats.specs.Replies.{OwnsOutcome, OwnsReaction};

use its_gnvalue::NoMemory;
use its_station::{Refused, StationAnswer};
use its_unit::{Reaction, UnitOutcome};
use std::alloc::Global;

/// What a unit returns for a frame.
#[derive(Debug, Drop, PartialEq, Eq)]
pub enum UnitReply {
    /// The answer of its station, without what its limits withhold.
    Passed(StationAnswer),
    /// The unit delivered the packet before, and neither delivers nor forwards it again.
    Repeated,
}

impl UnitReply {
    /// The reply to a frame. A payload that is delivered takes `room`, an empty buffer in which it
    /// fits. `NoMemory` if an allocation failed.
    pub(crate) fn of(
        alloc: Global,
        said: Result<Reaction<'_>, Refused>,
        room: &mut Vec<u8>,
    ) -> Result<UnitReply, NoMemory>
        requires empty { room.old.items ≡ [] }
        requires size { vec_len room.old ≡ 0 }
        requires room { IfOk said (λ r. WherePassed (Fits (vec_capacity room.old)) r.outcome) }
        ensures { IfOk result (λ reply. OwnsReaction reply said.entry) }
    {
        match said {
            Ok(reaction) => UnitReply::of_outcome(alloc, reaction.outcome, room),
            Err(refused) => {
                let answer = StationAnswer::of_received(alloc, Err(refused), room)?;
                Ok(UnitReply::Passed(answer))
            }
        }
    }

    /// The reply to a frame that isn't refused.
    fn of_outcome(
        alloc: Global,
        outcome: UnitOutcome<'_>,
        room: &mut Vec<u8>,
    ) -> Result<UnitReply, NoMemory>
        requires empty { room.old.items ≡ [] }
        requires size { vec_len room.old ≡ 0 }
        requires room { WherePassed (Fits (vec_capacity room.old)) outcome }
        ensures { IfOk result (λ reply. OwnsOutcome reply outcome.entry) }
    {
        match outcome {
            UnitOutcome::Repeated => Ok(UnitReply::Repeated),
            UnitOutcome::Passed(outcome) => Ok(UnitReply::Passed(StationAnswer::of_received(
                alloc,
                Ok(outcome),
                room,
            )?)),
        }
    }
}
