//! Whether a file that is written can hold a record.

ghost use Rattle.std.specs.Prelude.{◌≡◌, ◌+◌, ◌↔◌, ◌≤◌, IsTrue, MatchResult, Some, length};
ghost use Rattle.its_linkframe.specs.Captures.{IsFrameLength};
ghost use Rattle.cap_pcap.specs.PcapWritten.{IsLate};
ghost use Rattle.cap_pcap.specs.Places.{IsLayerFor, refusal_of, allows_layer};
ghost use Rattle.cap_pcap.specs.RecordFiles.{HasPlace, RefusesFrame};

use crate::format::Format;
use crate::pcap::LONGEST_CAPTURED;
use crate::put_fault::PutFault;
use crate::record::{RecordFault, RecordHeader};
use crate::stamp::Stamp;
use cap_linklayers::LinkLayer;
use its_linkframe::LONGEST_FRAME;

/// Returns the link layer of a record that is written to a file of link layer `only`, or of any
/// link layer if `only` is `None`.
///
/// Returns `LinkType` for a record of another link layer, or of one that isn't read. Otherwise
/// returns `CutFrame` for a cut record.
pub fn layer_for(head: &RecordHeader, only: Option<LinkLayer>) -> Result<LinkLayer, RecordFault>
    ensures { MatchResult result (IsLayerFor head.now only)
        (λ f. refusal_of head.now only ≡ Some f) }
{
    let Some(own) = head.layer else {
        return Err(RecordFault::LinkType);
    };
    if !allows(only, own) {
        return Err(RecordFault::LinkType);
    }
    match head.fault() {
        Some(fault) => Err(fault),
        None => Ok(own),
    }
}

/// Whether a file of link layer `only`, or of any if `only` is `None`, can hold records of link
/// layer `own`.
fn allows(only: Option<LinkLayer>, own: LinkLayer) -> bool
    ensures { result ≡ allows_layer only own }
{
    match only {
        Some(only) => only.number() == own.number(),
        None => true,
    }
}

/// Checks that a file of this format can hold such a record of this interface. The interface
/// matters only if the format has interfaces.
///
/// Returns `Length` for more than 262144 octets, and in a capture for 0 or more than 1468.
/// Otherwise returns `Moment`: in classic pcap if the second is 2^32 or more, and in pcapng if a
/// record without ticks is not of the first interface.
pub fn has_place(
    format: Format,
    interface: u32,
    stamp: Stamp,
    octets: &[u8],
) -> Result<(), PutFault>
    ensures { MatchResult result (λ _. HasPlace format (interface + 1) interface stamp octets.now)
        (RefusesFrame format (interface + 1) interface stamp octets.now) }
{
    let fits = match format {
        Format::Capture => is_frame_length(octets),
        Format::Pcap | Format::Pcapng => octets.len() <= LONGEST_CAPTURED as usize,
    };
    if !fits {
        return Err(PutFault::Length);
    }
    let has_moment = match format {
        Format::Capture => true,
        Format::Pcap => !is_late(stamp.moment),
        Format::Pcapng => interface == 0 || stamp.ticks.is_some(),
    };
    if !has_moment {
        return Err(PutFault::Moment);
    }
    Ok(())
}

/// Whether a capture may have a frame of this many octets.
fn is_frame_length(octets: &[u8]) -> bool
    ensures { IsTrue result ↔ IsFrameLength (length octets.now) }
{
    !octets.is_empty() && octets.len() <= LONGEST_FRAME
}

/// Whether the second of a time needs more than 32 bits.
fn is_late(moment: u64) -> bool
    ensures { IsTrue result ↔ IsLate moment }
{
    moment / 1000 > u64::from(u32::MAX)
}
