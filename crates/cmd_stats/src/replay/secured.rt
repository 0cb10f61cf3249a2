//! Secured frames that a unit receives by their plain part. No signature is verified.

ghost use Rattle.std.specs.Prelude.{◌≡◌, IfOk};
ghost use Rattle.its_station.specs.Receiving.{DeliversEndOf, IsVerifiedCall, TellsBy, VerifiedCall};
ghost use Rattle.its_station.specs.Receiving.{sealed_by};
ghost use Rattle.its_unit.specs.Steps.{IsReactionOf, WherePassed};
ghost use Rattle.its_unit.specs.Unit.{RepresentsUnit, UnitModel, step_by};
ghost use Rattle.its_unit.specs.Unit.UnitCall.{ReceiveVerified};
ghost use Rattle.cmd_stats.specs.OnAir.{AreInnerTraits, HasPlainPart};
ghost use Rattle.cmd_stats.specs.Replays.{TellsSecured};

use crate::replay::heard::Heard;
use crate::replay::reply::UnitReply;
use crate::replay::secured_octets::SecuredOctets;
use cap_records::{RecordFault, Traits, find_plain, traits_inside};
use its_gnvalue::NoMemory;
use its_linkframe::VerifiedFrame;
use its_loctable::SortedTable;
use its_station::{Refused, make_room};
use its_unit::{Limiting, Reaction, Unit};
use std::alloc::Global;

impl SecuredOctets {
    /// Finds the plain part of these octets.
    pub(crate) fn of(frame: Vec<u8>) -> SecuredOctets
        ensures frame { result.frame.items ≡ frame.items }
        ensures plain { HasPlainPart frame.items result.plain }
    {
        let plain = find_plain(frame.as_slice());
        SecuredOctets { frame, plain }
    }

    /// Returns what it is selected by: the packet inside, if there is one.
    pub(crate) fn traits(&self) -> Option<Traits>
        ensures { AreInnerTraits self.now result }
    {
        let frame = self.frame.as_slice();
        let Ok(plain) = self.plain else {
            return None;
        };
        match VerifiedFrame::read(frame, plain.octets(frame)) {
            Ok(verified) => Some(traits_inside(&verified)),
            Err(_) => None,
        }
    }

    /// Passes it to the unit at a time, with or without its limits. The unit refuses a frame that
    /// is not secured. A frame whose message can't be read doesn't reach the unit. `NoMemory` if an
    /// allocation failed.
    pub(crate) fn receive(
        self,
        alloc: Global,
        unit: &mut Unit<SortedTable>,
        limiting: Limiting,
        moment: u64,
    ) -> Result<Heard, NoMemory>
        ensures { (u : UnitModel) → RepresentsUnit unit.old u →
            IfOk result (λ heard. TellsSecured limiting self moment u heard unit.new) }
    {
        let frame = self.frame;
        let plain = match self.plain {
            Ok(plain) => plain.octets(frame.as_slice()),
            Err(RecordFault::Signed(_)) => &[],
            Err(fault) => return Ok(Heard::Nothing { moment, fault }),
        };
        let mut room = Vec::new(alloc);
        make_room(&mut room, plain)?;
        let said = receive_verified(unit, limiting, moment, frame.as_slice(), plain);
        let reply = UnitReply::of(alloc, said, &mut room)?;
        Ok(Heard::Received {
            moment,
            frame,
            reply,
        })
    }
}

/// Receives a secured frame with its plain part as `Unit::receive_verified` does, with or without
/// the limits.
fn receive_verified<'a>(
    unit: &mut Unit<SortedTable>,
    limiting: Limiting,
    moment: u64,
    frame: &[u8],
    plain: &'a [u8],
) -> Result<Reaction<'a>, Refused>
    ensures step { (call : VerifiedCall) × IsVerifiedCall frame.now plain.now call
        × ((u : UnitModel) → RepresentsUnit unit.old u →
        IsReactionOf (TellsBy (sealed_by call)) result unit.new
        (step_by limiting u moment (ReceiveVerified call))) }
    ensures payload { IfOk result (λ r. WherePassed (DeliversEndOf plain.now) r.outcome) }
{
    match VerifiedFrame::read(frame, plain) {
        Ok(verified) => unit.receive_frame(limiting, moment, frame, &verified),
        Err(fault) => Err(unit.refuse_secured(moment, fault)),
    }
}
