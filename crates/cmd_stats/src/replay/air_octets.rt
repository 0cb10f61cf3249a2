//! Octets that a unit receives. They are read once.

ghost use Rattle.std.specs.Prelude.{◌≡◌, IfOk, IfSome, IfNone};
ghost use Rattle.its_faults.specs.declared.frame.FrameFault.{FrameFault as Fault};
ghost use Rattle.its_model.specs.Calls.{Call};
ghost use Rattle.its_linkframe.specs.FrameFaults.{IsFrameFault};
ghost use Rattle.its_linkframe.specs.Frames.{EncodesFrame, transmission_of};
ghost use Rattle.its_station.specs.Receiving.{DeliversEndOf, IsFrameCall, Tells};
ghost use Rattle.its_unit.specs.Steps.{IsReactionOf, WherePassed};
ghost use Rattle.its_unit.specs.Unit.{RepresentsUnit, UnitModel, step_by};
ghost use Rattle.its_unit.specs.Unit.UnitCall.{Receive};
ghost use Rattle.cmd_stats.specs.Readings.{IsReading};
ghost use Rattle.cmd_stats.specs.Replies.{IsReplyBy};

use crate::replay::reply::UnitReply;
use its_gnvalue::NoMemory;
use its_linkframe::{FrameFault, FrameView};
use its_loctable::SortedTable;
use its_station::{Refused, make_room};
use its_unit::{Limiting, Reaction, Unit};
use std::alloc::Global;
use std::marker::Model;

/// Octets that a unit receives, and whether they are a frame. They were read before, so a frame
/// is not checked again.
#[derive(Drop)]
pub(crate) struct AirOctets {
    octets: Vec<u8>,
    /// Why they aren't a frame. A frame has no fault.
    fault: Option<FrameFault>,
}

impl Model for AirOctets {
    ghost use Rattle.std.specs.Prelude.{ℕ, Vec};
    ghost use Rattle.std.specs.declared.alloc.Global.{Global};
    ghost use Rattle.cmd_stats.specs.Readings.{IsReading};

    ghost Value = { Vec ℕ Global };

    ghost view = { λ air. air.octets };

    ghost invariant = { λ air. IsReading air.octets.items air.fault };
}

impl AirOctets {
    /// Returns these octets, with the fault of reading them as a frame, if there was one.
    pub(crate) fn new(octets: Vec<u8>, fault: Option<FrameFault>) -> AirOctets
        requires { IsReading octets.items fault }
        ensures { result ≡ octets }
    {
        AirOctets { octets, fault }
    }

    /// Returns the frame, if the octets are one.
    pub(crate) fn frame(&self) -> Option<FrameView<'_>>
        ensures found { IfSome result (λ v. EncodesFrame (transmission_of v) self.now.items) }
        ensures none { IfNone result ((fault : Fault) × IsFrameFault self.now.items fault) }
    {
        match self.fault {
            None => Some(FrameView::of_frame(self.octets.as_slice())),
            Some(_) => None,
        }
    }

    /// Has a unit receive the octets at a time, with or without its limits. Returns the reply.
    /// `NoMemory` if an allocation failed. Only the unit's counts may have changed then.
    pub(crate) fn receive(
        &self,
        alloc: Global,
        unit: &mut Unit<SortedTable>,
        limiting: Limiting,
        moment: u64,
    ) -> Result<UnitReply, NoMemory>
        ensures { IfOk result (λ reply. (c : Call) × IsFrameCall self.now.items c
            × ((u : UnitModel) → RepresentsUnit unit.old u →
            IsReplyBy reply unit.new (step_by limiting u moment (Receive c)))) }
    {
        let mut room = Vec::new(alloc);
        make_room(&mut room, self.octets.as_slice())?;
        UnitReply::of(alloc, self.lend_to(unit, limiting, moment), &mut room)
    }

    /// Returns the reaction of a unit that receives the octets at a time, as `Unit::receive` has it
    /// within the limits.
    fn lend_to(
        &self,
        unit: &mut Unit<SortedTable>,
        limiting: Limiting,
        moment: u64,
    ) -> Result<Reaction<'_>, Refused>
        ensures step { (c : Call) × IsFrameCall self.now.items c
            × ((u : UnitModel) → RepresentsUnit unit.old u →
            IsReactionOf Tells result unit.new (step_by limiting u moment (Receive c))) }
        ensures payload { IfOk result (λ r.
            WherePassed (DeliversEndOf self.now.items) r.outcome) }
    {
        let octets = self.octets.as_slice();
        match self.fault {
            None => unit.receive_frame(limiting, moment, octets, &FrameView::of_frame(octets)),
            Some(fault) => Err(unit.refuse_frame(moment, fault)),
        }
    }

    /// Returns the octets, as a slice.
    pub(crate) fn as_slice(&self) -> &[u8]
        ensures { result.now ≡ self.now.items }
    {
        self.octets.as_slice()
    }

    /// The octets.
    pub(crate) fn into_octets(self) -> Vec<u8>
        ensures { result ≡ self }
    {
        self.octets
    }
}
