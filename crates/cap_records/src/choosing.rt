//! Selects records of a capture by their frames and times.

ghost use Rattle.std.specs.Prelude.{◌≡◌, ◌<◌, ◌^◌, ℕ, IsTrue, Option, Some, false, true};
ghost use Rattle.its_linkframe.specs.Frames.{transmission_of};
ghost use Rattle.cap_records.specs.declared.choosing.Traits.{Traits};
ghost use Rattle.cap_records.specs.Choosing.{allows, allows_any, allows_port, has_kind_of, holds as all_holds};
ghost use Rattle.cap_records.specs.Choosing.{is_chosen as chosen, meets_lists, no_kinds, selects, standard_kind};
ghost use Rattle.cap_records.specs.Conditions.{has_kind};
ghost use Rattle.cap_records.specs.RecordFrames.{port_in, traits_in};

use crate::condition::Conditions;
use crate::frame::{port_of, traits_of};
use its_geometry::Area;
use its_gnvalue::{GnAddress, Mac};
use its_headers::Kind;
use its_linkframe::FrameView;
use its_outside::StandardKind;

/// The kinds of packet that are selected.
#[derive(Clone, Copy, Debug, PartialEq, Eq)]
pub struct Kinds {
    /// Beacons.
    pub beacon: bool,
    /// Single-hop broadcasts.
    pub shb: bool,
    /// Geobroadcasts.
    pub gbc: bool,
    /// Geoanycasts.
    pub gac: bool,
    /// Geounicasts, which are outside the profile, as are those that follow.
    pub guc: bool,
    /// Topologically-scoped broadcasts over several hops.
    pub tsb: bool,
    /// Requests of the location service.
    pub ls_request: bool,
    /// Replies of the location service.
    pub ls_reply: bool,
}

impl Kinds {
    /// Returns a set without any kind.
    pub fn none() -> Kinds
        ensures { result ≡ no_kinds }
    {
        Kinds {
            beacon: false,
            shb: false,
            gbc: false,
            gac: false,
            guc: false,
            tsb: false,
            ls_request: false,
            ls_reply: false,
        }
    }

    /// Whether the set has this kind.
    pub fn has(self, kind: StandardKind) -> bool
        ensures { result ≡ has_kind self kind }
    {
        match kind {
            StandardKind::Beacon => self.beacon,
            StandardKind::Guc => self.guc,
            StandardKind::Gac => self.gac,
            StandardKind::Gbc => self.gbc,
            StandardKind::Shb => self.shb,
            StandardKind::Tsb => self.tsb,
            StandardKind::LsRequest => self.ls_request,
            StandardKind::LsReply => self.ls_reply,
        }
    }
}

/// Returns the kind of the standard for a kind of the profile.
pub fn kind_of_standard(kind: Kind) -> StandardKind
    ensures { result ≡ standard_kind kind }
{
    match kind {
        Kind::Beacon => StandardKind::Beacon,
        Kind::Shb => StandardKind::Shb,
        Kind::Gbc => StandardKind::Gbc,
        Kind::Gac => StandardKind::Gac,
    }
}

/// What a frame is selected by.
#[derive(Clone, Copy, Debug, PartialEq, Eq)]
pub struct Traits {
    /// The kind of its packet.
    pub kind: StandardKind,
    /// The address of the packet's source. Outside the profile it may have the MID of a group.
    pub source: u64,
    /// The link address of its sender.
    pub from: Mac,
    /// The link address that it is sent to.
    pub to: Mac,
    /// The destination port, if the packet has one.
    pub port: Option<u16>,
    /// The remaining hop limit (RHL).
    pub left: u8,
    /// The traffic class (TC).
    pub class: u8,
    /// The sequence number, if the packet has one.
    pub number: Option<u16>,
    /// The destination area, if the packet has one whose values are in range.
    pub area: Option<Area>,
}

/// Which records are selected: those that meet all that is given.
#[derive(Clone, Copy, Debug, PartialEq, Eq)]
pub struct Choice {
    /// Frames whose packets are of these kinds.
    pub kinds: Option<Kinds>,
    /// Frames whose packets have this source.
    pub source: Option<GnAddress>,
    /// Frames from this link address.
    pub from: Option<Mac>,
    /// Frames to this port.
    pub port: Option<u16>,
    /// Records that meet all these conditions.
    pub all: Conditions,
    /// Records that meet at least one of these conditions, if there are any.
    pub any: Conditions,
    /// Records that meet none of these conditions.
    pub leaves_out: Conditions,
    /// Records of this time in milliseconds and later.
    pub since: u64,
    /// Records of this time in milliseconds and earlier.
    pub until: u64,
    /// Only rejected records.
    pub refused: bool,
    /// Only records of GeoNetworking: those of another protocol or of a link layer that is not read
    /// are skipped.
    pub skips_others: bool,
    /// Whether a frame that the standard defines outside the profile is treated as other frames
    /// are. Otherwise its record is rejected.
    pub all_kinds: bool,
}

impl Choice {
    /// Returns the choice of all records.
    pub fn all() -> Choice
        ensures { (moment : ℕ) → (frame : Option Traits) → moment < 2 ^ 64
            → chosen result moment frame ≡ true }
    {
        Choice {
            kinds: None,
            source: None,
            from: None,
            port: None,
            all: Conditions::none(),
            any: Conditions::none(),
            leaves_out: Conditions::none(),
            since: 0,
            until: u64::MAX,
            refused: false,
            skips_others: false,
            all_kinds: false,
        }
    }

    /// Whether a record of this time is selected. A rejected record has no frame, so it has no
    /// kind, source, link address or port.
    pub fn is_chosen(&self, moment: u64, frame: Option<Traits>) -> bool
        ensures { result ≡ chosen self.now moment frame }
    {
        let is_chosen = match &frame {
            Some(traits) => !self.refused && self.holds(traits),
            None => {
                self.kinds.is_none()
                    && self.source.is_none()
                    && self.from.is_none()
                    && self.port.is_none()
            }
        };
        is_chosen && self.meets_lists(&frame) && self.since <= moment && moment <= self.until
    }

    /// Whether the lists of conditions let a record with this frame be selected, or one without.
    fn meets_lists(&self, frame: &Option<Traits>) -> bool
        ensures { result ≡ meets_lists self.now frame.now }
    {
        self.all.has_all(frame)
            && (self.any.is_empty() || self.any.has_one(frame))
            && !self.leaves_out.has_one(frame)
    }

    /// Whether no list has a condition.
    pub(crate) fn has_no_conditions(&self) -> bool
        ensures { IsTrue result → (frame : Option Traits) → meets_lists self.now frame ≡ true }
    {
        self.all.is_empty() && self.any.is_empty() && self.leaves_out.is_empty()
    }

    /// Whether a record of this time with this frame is selected. `is_other` says that it is of
    /// another protocol than GeoNetworking, or of a link layer that is not read.
    pub fn selects(&self, moment: u64, frame: Option<Traits>, is_other: bool) -> bool
        ensures { result ≡ selects self.now moment frame is_other }
    {
        !(self.skips_others && is_other) && self.is_chosen(moment, frame)
    }

    /// Whether a record of this time with this frame is selected. Only the fields that are asked
    /// for are read from the frame.
    pub(crate) fn selects_frame(&self, moment: u64, frame: &FrameView<'_>) -> bool
        ensures { result
            ≡ selects self.now moment (Some (traits_in (transmission_of frame.now))) false }
    {
        !self.refused
            && self.holds_of(frame)
            && self.meets_lists_by(frame)
            && self.since <= moment
            && moment <= self.until
    }

    /// Whether the lists of conditions let a record with this frame be selected.
    fn meets_lists_by(&self, frame: &FrameView<'_>) -> bool
        ensures { result
            ≡ meets_lists self.now (Some (traits_in (transmission_of frame.now))) }
    {
        self.has_no_conditions() || self.meets_lists(&Some(traits_of(frame)))
    }

    /// Whether this frame meets all that is asked of frames.
    fn holds_of(&self, frame: &FrameView<'_>) -> bool
        ensures { result ≡ all_holds self.now (traits_in (transmission_of frame.now)) }
    {
        self.has_kind(kind_of_standard(frame.packet.kind()))
            && self.allows_source_of(frame)
            && self.allows_mac(frame.from)
            && self.allows_port_of(frame)
    }

    fn allows_source_of(&self, frame: &FrameView<'_>) -> bool
        ensures { result ≡ allows self.now.source (transmission_of frame.now).pdu.vector.address }
    {
        match self.source {
            Some(only) => only == frame.packet.vector().address(),
            None => true,
        }
    }

    fn allows_port_of(&self, frame: &FrameView<'_>) -> bool
        ensures { result
            ≡ allows_port self.now.port (port_in (transmission_of frame.now).pdu.body) }
    {
        match self.port {
            Some(_) => self.allows_port(port_of(frame)),
            None => true,
        }
    }

    /// Whether a frame with these traits meets all that is asked of frames.
    fn holds(&self, frame: &Traits) -> bool
        ensures { result ≡ all_holds self.now frame.now }
    {
        self.has_kind(frame.kind)
            && self.allows_source(frame.source)
            && self.allows_mac(frame.from)
            && self.allows_port(frame.port)
    }

    fn has_kind(&self, kind: StandardKind) -> bool
        ensures { result ≡ has_kind_of self.now.kinds kind }
    {
        match self.kinds {
            Some(kinds) => kinds.has(kind),
            None => true,
        }
    }

    fn allows_source(&self, source: u64) -> bool
        ensures { result ≡ allows self.now.source source }
    {
        match self.source {
            Some(only) => only.as_u64() == source,
            None => true,
        }
    }

    fn allows_mac(&self, from: Mac) -> bool
        ensures { result ≡ allows self.now.from from }
    {
        match self.from {
            Some(only) => only == from,
            None => true,
        }
    }

    fn allows_port(&self, port: Option<u16>) -> bool
        ensures { result ≡ allows_port self.now.port port }
    {
        match (self.port, port) {
            (Some(only), Some(port)) => only == port,
            (Some(_), None) => false,
            (None, _) => true,
        }
    }
}
