//! Where a frame is among the octets of a record.

ghost use Rattle.std.specs.Prelude.{◌≡◌, ◌≤◌, ◌-◌, length, take, drop};
ghost use Rattle.cap_records.specs.FoundFrames.{IsPlacedOutside, IsThere};
ghost use Rattle.cap_records.specs.OutsideFrames.{IsOutsideFrame, StandardFrame, standard_of};
ghost use Rattle.its_linkframe.specs.Frames.{EncodesFrame, transmission_of};
ghost use Rattle.its_model.specs.Packet.{Transmission};
ghost use Rattle.cap_records.specs.FoundFrames.{IsPlaced, octets_at};

use crate::outside::OutsideFrame;
use crate::refusal::RecordFault;
use crate::signed::SecuredFacts;
use its_linkframe::FrameView;

/// Where a frame is among the octets of a record.
#[derive(Clone, Copy, Debug, PartialEq, Eq)]
pub struct FramePlace {
    /// Where it begins.
    pub start: usize,
    /// Where it ends.
    pub end: usize,
}

impl FramePlace {
    /// Returns the octets of the frame.
    pub fn octets(self, octets: &[u8]) -> &[u8]
        requires order { self.start ≤ self.end }
        requires inside { self.end ≤ length octets.now }
        ensures { result.now ≡ take (self.end - self.start) (drop self.start octets.now) }
    {
        &octets[self.start..self.end]
    }

    /// Returns the frame at this position. It was read before, and is not checked again.
    pub fn view(self, octets: &[u8]) -> FrameView<'_>
        requires { (t : Transmission) × IsPlaced octets.now t self }
        ensures { EncodesFrame (transmission_of result) (octets_at self octets.now) }
    {
        FrameView::of_frame(self.octets(octets))
    }
}

/// The frame of a record, as it was found among the octets of a buffer.
#[derive(Clone, Copy, Debug, PartialEq, Eq)]
pub struct FoundFrame {
    /// Where it is in the buffer.
    pub place: FramePlace,
    /// What is known about the secured frame, if it is the inner frame of one.
    pub secured: Option<SecuredFacts>,
}

/// A frame outside the profile, as it was found among the octets of a buffer.
#[derive(Clone, Copy, Debug, PartialEq, Eq)]
pub struct FoundOutside {
    /// Where it is in the buffer.
    pub place: FramePlace,
    /// Why a station refuses it.
    pub fault: RecordFault,
    /// What is known about the secured frame, if it is the inner frame of one.
    pub secured: Option<SecuredFacts>,
}

impl FoundOutside {
    /// The frame that was found among these octets.
    pub fn view(self, octets: &[u8]) -> OutsideFrame<'_>
        requires { (s : StandardFrame) × IsPlacedOutside octets.now s self.place }
        ensures frame { IsOutsideFrame (octets_at self.place octets.now) (standard_of result) }
        ensures length { result.length ≡ self.place.end - self.place.start }
        ensures octets { result.octets.now ≡ octets_at self.place octets.now }
        ensures fault { result.fault ≡ self.fault }
    {
        OutsideFrame::of_frame(self.place.octets(octets), self.fault)
    }
}

/// The frame of a record, as it was found among the octets of a buffer.
#[derive(Clone, Copy, Debug, PartialEq, Eq)]
pub enum Found {
    /// A frame of the profile.
    Profile(FoundFrame),
    /// A frame outside the profile. Only a choice of all kinds has one.
    Outside(FoundOutside),
}

impl Found {
    /// What is known about the secured frame, if it is the inner frame of one.
    pub fn secured(&self) -> Option<SecuredFacts> {
        match self {
            Found::Profile(found) => found.secured,
            Found::Outside(found) => found.secured,
        }
    }

    /// The frame that was found among these octets.
    pub fn view(self, octets: &[u8]) -> SeenFrame<'_>
        requires { IsThere octets.now self }
    {
        match self {
            Found::Profile(found) => SeenFrame::Profile(found.place.view(octets)),
            Found::Outside(found) => SeenFrame::Outside(found.view(octets)),
        }
    }
}

/// The frame of a record.
#[derive(Debug, Drop)]
pub enum SeenFrame<'a> {
    /// A frame of the profile.
    Profile(FrameView<'a>),
    /// A frame outside the profile. Only a choice of all kinds has one.
    Outside(OutsideFrame<'a>),
}
