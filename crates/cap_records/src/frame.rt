//! The frame of a record, or why it has none, and what it is selected by.

ghost use Rattle.std.specs.Prelude.{◌≡◌, ◌≤◌, ℕ, List, IfOk, IfErr, None, length, drop};
ghost use Rattle.its_linkframe.specs.Frames.{EncodesFrame, transmission_of};
ghost use Rattle.its_linkframe.specs.FrameFaults.{IsFrameFault};
ghost use Rattle.its_model.specs.Packet.{Transmission};
ghost use Rattle.cap_records.specs.FoundFrames.{IsPlaced};
ghost use Rattle.cap_records.specs.RecordFrames.{HasFrame, IsRecordFault, port_in, traits_in};
ghost use Rattle.cap_records.specs.RecordFrames.{IsReadAs, IsNoFrame};

use crate::choosing::{Traits, kind_of_standard};
use crate::found::{FoundFrame, FramePlace};
use crate::refusal::RecordFault;
use cap_pcap::{LinkLayer, RecordHeader, frame_start};
use its_btp::split;
use its_linkframe::{FrameView, Unpadded, read_frame, read_unpadded};

/// Finds the frame of a record, or returns why the record is rejected. The octets are the first
/// ones of the record, at most `LONGEST_RECORD`. A frame that is found is put together among them:
/// the header of its link layer is read first, and Ethernet's padding of a short frame is left out.
///
/// - `frame`: the frame of a record (`HasFrame`), and where it is (`IsPlaced`): its link layer is
///   read, it wasn't cut, and its octets are that frame: in pcap and pcapng what their link layer
///   carries, without Ethernet's padding.
/// - `fault`: otherwise its first fault (`IsRecordFault`), in this order: its link layer or its
///   being cut, its link layer's header, its octets.
pub fn frame_of(head: &RecordHeader, octets: &mut Vec<u8>) -> Result<FoundFrame, RecordFault>
    ensures frame { IfOk result (λ f. (t : Transmission) × HasFrame head.now octets.old.items t
        × (f.secured ≡ None) × IsPlaced octets.new.items t f.place) }
    ensures fault { IfErr result (IsRecordFault head.now octets.old.items) }
{
    let layer = head.whole_layer()?;
    let start = frame_start(layer, octets)?;
    find_on(layer, octets.as_slice(), start)
}

/// Returns the frame in octets from this link layer, and only the octets of that frame: Ethernet
/// pads short frames. The octets are read once.
pub fn read_from(layer: LinkLayer, octets: &[u8]) -> Unpadded<'_>
    ensures octets { IsReadAs layer octets.now result.octets.now }
    ensures found { IfOk result.frame (λ v.
        EncodesFrame (transmission_of v) result.octets.now) }
    ensures fault { IfErr result.frame (IsFrameFault result.octets.now) }
{
    match layer {
        LinkLayer::Ethernet => read_unpadded(octets),
        LinkLayer::Sll => read_unpadded(octets),
        LinkLayer::Sll2 => read_unpadded(octets),
        LinkLayer::Bare | LinkLayer::Ieee80211 | LinkLayer::Radiotap => Unpadded {
            octets,
            frame: read_frame(octets),
        },
    }
}

/// Finds the frame in what this link layer carried, which begins at octet `start`, or returns why
/// it isn't a frame.
pub(crate) fn find_on(
    layer: LinkLayer,
    octets: &[u8],
    start: usize,
) -> Result<FoundFrame, RecordFault>
    requires { start ≤ length octets.now }
    ensures frame { IfOk result (λ f. (t : Transmission) × (text : List ℕ)
        × IsReadAs layer (drop start octets.now) text × EncodesFrame t text
        × (f.secured ≡ None) × IsPlaced octets.now t f.place) }
    ensures fault { IfErr result (λ f. (text : List ℕ)
        × IsReadAs layer (drop start octets.now) text × IsNoFrame text f) }
{
    let Unpadded {
        octets: text,
        frame,
    } = read_from(layer, &octets[start..]);
    match frame {
        Ok(_) => Ok(FoundFrame {
            place: FramePlace {
                start,
                end: start + text.len(),
            },
            secured: None,
        }),
        Err(fault) => Err(RecordFault::of(fault, text)),
    }
}

/// Returns what a frame is selected by.
pub fn traits_of(frame: &FrameView<'_>) -> Traits
    ensures { result ≡ traits_in (transmission_of frame.now) }
{
    Traits {
        kind: kind_of_standard(frame.packet.kind()),
        source: frame.packet.vector().address().as_u64(),
        from: frame.from,
        to: frame.to,
        port: port_of(frame),
        left: frame.packet.left(),
        class: frame.packet.class().octet(),
        number: frame.packet.number(),
        area: frame.packet.area(),
    }
}

/// Returns the destination port of a frame. A beacon has none.
pub(crate) fn port_of(frame: &FrameView<'_>) -> Option<u16>
    ensures { result ≡ port_in (transmission_of frame.now).pdu.body }
{
    match split(frame.packet.payload()) {
        Ok((port, _, _)) => Some(port),
        Err(_) => None,
    }
}
