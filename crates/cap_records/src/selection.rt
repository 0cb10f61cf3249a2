//! Which records of a file a command is over.

ghost use Rattle.std.specs.Prelude.{◌≡◌, Bool, Option, IfOk, IsTrue, None, Some, false, true, take};
ghost use Rattle.its_model.specs.Packet.{Transmission};
ghost use Rattle.cap_linklayers.specs.declared.link.TheConstants.{LONGEST_RECORD};
ghost use Rattle.cap_records.specs.Choosing.{selects};
ghost use Rattle.cap_records.specs.FoundFrames.{IsChosenBy, IsFoundOf, IsPlaced};
ghost use Rattle.cap_records.specs.FoundFrames.{IsFoundChosen, IsPlacedOutside, IsProfileFound};
ghost use Rattle.cap_records.specs.FoundFrames.{IsThere};
ghost use Rattle.cap_records.specs.OutsideFrames.{StandardFrame, outside_traits};
ghost use Rattle.cap_records.specs.RecordFrames.{traits_in};
ghost use Rattle.cap_records.specs.Selections.{Chooses};
ghost use Rattle.cap_records.specs.declared.choosing.Traits.{Traits};

use crate::any_kind::find_any;
use crate::choosing::Choice;
use crate::found::{Found, FoundFrame, FoundOutside, FramePlace};
use crate::frame::frame_of;
use crate::outside::traits_of_outside;
use crate::refusal::RecordFault;
use crate::signed::signed_frame_of;
use cap_pcap::{Format, LONGEST_RECORD, RecordHeader};
use its_linkframe::laws::one_frame;
use std::alloc::AllocError;

/// Which records of a file a command is over.
#[derive(Clone, Copy, Debug, PartialEq, Eq)]
pub struct Selection {
    /// The format of the file. If it is `None`, the first four octets of the file say it.
    pub format: Option<Format>,
    /// Which records are selected. The others are skipped, but they count in the numbers of
    /// records.
    pub choice: Choice,
    /// How many records are selected at most. After the last one nothing more is read.
    pub count: Option<u64>,
    /// Whether records that were cut are read up to the cut.
    pub partial: bool,
    /// Whether secured frames are read by their plain part, which isn't verified.
    pub signed: bool,
}

impl Selection {
    /// Returns the selection of all records of a file.
    pub fn all() -> Selection
        ensures { (result.format ≡ None) × (result.count ≡ None) }
    {
        Selection {
            format: None,
            choice: Choice::all(),
            count: None,
            partial: false,
            signed: false,
        }
    }

    /// Finds the frame of a record, which is put together among its octets.
    pub(crate) fn find(
        &self,
        head: &RecordHeader,
        octets: &mut Vec<u8>,
    ) -> Result<Found, RecordFault>
        ensures { IsFoundOf self.now.choice.all_kinds self.now.signed head.now octets.old.items
            octets.new.items result }
    {
        if self.choice.all_kinds {
            return find_any(head, self.signed, octets);
        }
        match self.find_of_profile(head, octets) {
            Ok(found) => Ok(Found::Profile(found)),
            Err(fault) => Err(fault),
        }
    }

    /// Finds the frame of a record, if it is one of the profile.
    fn find_of_profile(
        &self,
        head: &RecordHeader,
        octets: &mut Vec<u8>,
    ) -> Result<FoundFrame, RecordFault>
        ensures { IsProfileFound self.now.signed head.now octets.old.items octets.new.items
            result }
    {
        if self.signed {
            signed_frame_of(head, octets)
        } else {
            frame_of(head, octets)
        }
    }

    /// Whether a record with these octets is selected. If the answer needs its frame, that is read
    /// in the other buffer, and the octets stay. Returns `AllocError` if that buffer can't be
    /// allocated.
    pub fn has_record(
        &self,
        head: &RecordHeader,
        octets: &[u8],
        room: &mut Vec<u8>,
    ) -> Result<bool, AllocError>
        ensures { IfOk result
            (Chooses self.now.choice self.now.signed head.now (take LONGEST_RECORD octets.now)) }
    {
        if self.has_any(head.moment) {
            return Ok(true);
        }
        room.clear();
        room.extend_from_slice(&octets[..octets.len().min(LONGEST_RECORD)])?;
        let found = self.find(head, room);
        Ok(self.has(head.moment, &found, room.as_slice()))
    }

    /// Whether a record of this time is selected, whatever its frame is.
    fn has_any(&self, moment: u64) -> bool
        ensures { IsTrue result
            → (traits : Option Traits) → (other : Bool)
            → selects self.now.choice moment traits other ≡ true }
    {
        let choice = &self.choice;
        choice.kinds.is_none()
            && choice.source.is_none()
            && choice.from.is_none()
            && choice.port.is_none()
            && choice.has_no_conditions()
            && !choice.refused
            && !choice.skips_others
            && choice.since <= moment
            && moment <= choice.until
    }

    /// Whether a record of this time is selected, if this was found among its octets.
    pub(crate) fn has(&self, moment: u64, found: &Result<Found, RecordFault>, octets: &[u8]) -> bool
        requires { IfOk found.now (IsThere octets.now) }
        ensures { IsChosenBy self.now.choice moment octets.now found.now result }
    {
        if self.has_any(moment) {
            return true;
        }
        match found {
            Ok(found) => self.has_found(moment, found, octets),
            Err(fault) => self.choice.selects(moment, None, fault.is_other()),
        }
    }

    /// Whether a record of this time is selected, whose frame was found among these octets.
    fn has_found(&self, moment: u64, found: &Found, octets: &[u8]) -> bool
        requires { IsThere octets.now found.now }
        ensures { IsFoundChosen self.now.choice moment octets.now found.now result }
    {
        match found {
            Found::Profile(found) => self.has_frame(moment, found.place, octets),
            Found::Outside(found) => self.has_outside(moment, found, octets),
        }
    }

    /// Whether a record of this time is selected, whose frame is at this position among these
    /// octets.
    fn has_frame(&self, moment: u64, place: FramePlace, octets: &[u8]) -> bool
        requires { (t : Transmission) × IsPlaced octets.now t place }
        ensures { (t : Transmission) → IsPlaced octets.now t place
            → result ≡ selects self.now.choice moment (Some (traits_in t)) false }
    {
        one_frame();
        self.choice.selects_frame(moment, &place.view(octets))
    }

    /// Whether a record of this time is selected, whose frame outside the profile is among these
    /// octets.
    fn has_outside(&self, moment: u64, found: &FoundOutside, octets: &[u8]) -> bool
        requires { (s : StandardFrame) × IsPlacedOutside octets.now s found.now.place }
        ensures { (s : StandardFrame) → IsPlacedOutside octets.now s found.now.place
            → result ≡ selects self.now.choice moment (Some (outside_traits s)) false }
    {
        let traits = traits_of_outside(found.place.octets(octets), found.fault);
        self.choice.selects(moment, Some(traits), false)
    }
}
