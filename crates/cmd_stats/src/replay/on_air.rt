//! The octets of a record that were on the air, which a station receives.

ghost use Rattle.std.specs.Prelude.{◌≡◌, IfErr, IfOk};
ghost use Rattle.its_linkframe.specs.FrameFaults.{IsFrameFault};
ghost use Rattle.its_linkframe.specs.Frames.{EncodesFrame, transmission_of};
ghost use Rattle.cmd_stats.specs.OnAir.{AnswersChoice, AreTraitsOf, IsOf, IsOnAir};
ghost use Rattle.cmd_stats.specs.OnAir.{IsSource, is_from, is_sent};
ghost use Rattle.cmd_stats.specs.Replays.{TellsSent};

use crate::replay::air_octets::AirOctets;
use crate::replay::heard::Heard;
use crate::replay::secured_octets::SecuredOctets;
use cap_pcap::{RecordHeader, frame_start};
use cap_records::{Choice, RecordFault, Traits, read_from, reads_secured, traits_of};
use its_gnvalue::Mac;
use its_linkframe::Unpadded;
use std::alloc::{AllocError, Global};

/// Where the link source and the type of a frame are.
const SOURCE: usize = 6;

const TYPE: usize = 12;

/// What a station receives of a record.
#[derive(Drop)]
pub(crate) enum OnAir {
    /// These octets, whether they are a frame or not.
    Octets(AirOctets),
    /// A secured frame, which is received by its plain part.
    Secured(SecuredOctets),
    /// Nothing: its link layer has no frame.
    Nothing(RecordFault),
}

impl OnAir {
    /// Returns what a station receives of a record with this header and these octets, without
    /// Ethernet's padding of a short frame. With `signed`, secured frames are read by their plain
    /// part. The content of the buffer afterwards is not specified.
    pub(crate) fn of(
        alloc: Global,
        head: &RecordHeader,
        octets: &mut Vec<u8>,
        signed: bool,
    ) -> Result<OnAir, AllocError>
        ensures { IfOk result (IsOnAir signed head.now octets.old.items) }
    {
        let layer = match head.whole_layer() {
            Ok(layer) => layer,
            Err(fault) => return Ok(OnAir::Nothing(RecordFault::Record(fault))),
        };
        match frame_start(layer, octets) {
            Ok(start) => {
                let read = read_from(layer, &octets.as_slice()[start..]);
                OnAir::heard(alloc, read, signed)
            }
            Err(fault) => Ok(OnAir::Nothing(RecordFault::Link(fault))),
        }
    }

    /// Returns octets that were read, as a station receives them.
    fn heard(alloc: Global, read: Unpadded<'_>, signed: bool) -> Result<OnAir, AllocError>
        requires found { IfOk read.frame (λ v. EncodesFrame (transmission_of v) read.octets.now) }
        requires fault { IfErr read.frame (IsFrameFault read.octets.now) }
        ensures { IfOk result (IsOf signed read.entry.octets.now) }
    {
        let Unpadded { octets, frame } = read;
        let heard = copied(alloc, octets)?;
        if reads_secured(signed, octets) {
            return Ok(OnAir::Secured(SecuredOctets::of(heard)));
        }
        Ok(OnAir::Octets(AirOctets::new(heard, frame.err())))
    }

    /// Whether the record is selected. A record whose octets are not a frame has nothing by which
    /// frames are selected.
    pub(crate) fn is_chosen(&self, choice: &Choice, moment: u64) -> bool
        ensures { AnswersChoice self.now choice.now moment result }
    {
        choice.is_chosen(moment, self.traits())
    }

    /// Returns what the record is selected by: its frame, if it has one.
    fn traits(&self) -> Option<Traits>
        ensures { AreTraitsOf self.now result }
    {
        match self {
            OnAir::Octets(octets) => match octets.frame() {
                Some(frame) => Some(traits_of(&frame)),
                None => None,
            },
            OnAir::Secured(secured) => secured.traits(),
            OnAir::Nothing(_) => None,
        }
    }

    /// Whether the station under test sent it, if this is its link address.
    pub(crate) fn is_sent(&self, against: &Option<Mac>) -> bool
        ensures { result ≡ is_sent against.now self.now }
    {
        match self {
            OnAir::Octets(octets) => is_from(against, octets.as_slice()),
            OnAir::Secured(secured) => is_from(against, secured.frame.as_slice()),
            OnAir::Nothing(_) => false,
        }
    }

    /// Returns the source of its packet, if it is a frame that is read.
    fn source(&self) -> Option<u64>
        ensures { IsSource self.now result }
    {
        match self.traits() {
            Some(traits) => Some(traits.source),
            None => None,
        }
    }

    /// Returns it as what the station under test sent at a time.
    pub(crate) fn into_sent(self, moment: u64) -> Heard
        ensures { TellsSent self moment result }
    {
        let source = self.source();
        match self {
            OnAir::Octets(octets) => Heard::Sent {
                moment,
                frame: octets.into_octets(),
                source,
            },
            OnAir::Secured(secured) => Heard::Sent {
                moment,
                frame: secured.frame,
                source,
            },
            OnAir::Nothing(fault) => Heard::Nothing { moment, fault },
        }
    }
}

/// Whether these octets are a frame from this link address, if one is given.
fn is_from(against: &Option<Mac>, octets: &[u8]) -> bool
    ensures { result ≡ is_from against.now octets.now }
{
    let Some(mac) = against else {
        return false;
    };
    if octets.len() < TYPE {
        return false;
    }
    let sender = mac.octets();
    octets[SOURCE..TYPE] == sender[..]
}

/// Returns a copy of the octets.
fn copied(alloc: Global, octets: &[u8]) -> Result<Vec<u8>, AllocError>
    ensures { IfOk result (λ copy. copy.items ≡ octets.now) }
{
    let mut copy = Vec::with_capacity(alloc, octets.len())?;
    copy.extend_from_slice(octets)?;
    Ok(copy)
}
