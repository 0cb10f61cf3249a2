//! Frames that were read once for all their receivers.

ghost use Rattle.std.specs.Prelude.{◌≡◌, IfOk, IfErr};
ghost use Rattle.its_linkframe.specs.Frames.{EncodesFrame, transmission_of};
ghost use Rattle.its_linkframe.specs.FrameFaults.{IsFrameFault};
ghost use Rattle.its_station.specs.Known.{AreContentsOf};

use crate::received::ReceivedFrame;
use its_faults::FrameFault;
use its_geometry::Area;
use its_gnvalue::{Lifetime, LongPv, Mac, NoMemory};
use its_headers::Kind;
use its_linkframe::laws::one_frame;
use its_linkframe::{FrameView, read_frame, relay_frame, retarget};
use std::alloc::Global;
use std::marker::Model;

/// What each receiver of a frame asks of it. It is read from the octets once, and holds no
/// reference to them.
#[derive(Clone, Copy, Debug)]
pub struct FrameContents {
    /// The link address that the frame goes to.
    pub target: Mac,
    /// The link address that it comes from.
    pub sender: Mac,
    /// The kind of its packet.
    pub kind: Kind,
    /// The hops that its packet has left (RHL).
    pub hops_left: u8,
    /// The position vector of its packet's source.
    pub vector: LongPv,
    /// The sequence number of its packet, if that has one.
    pub number: Option<u16>,
    /// The area of its packet, if that has one.
    pub area: Option<Area>,
    /// The octet of the frame at which the payload begins. The payload ends with the frame.
    pub payload: usize,
}

impl FrameContents {
    /// Reads the octets of a frame. Fails with their first fault, as `read_frame` does, if they are
    /// not a valid frame.
    ///
    /// - `contents`, `fault`: each field is that of the frame that the octets are (`HasContents`);
    ///   otherwise their first fault.
    #[inline(always)]
    pub fn read(octets: &[u8]) -> Result<FrameContents, FrameFault>
        ensures contents { IfOk result (AreContentsOf octets.now) }
        ensures fault { IfErr result (IsFrameFault octets.now) }
    {
        let frame = read_frame(octets)?;
        Ok(FrameContents::of(octets, &frame))
    }

    /// Returns the contents of a frame that was read from these octets.
    #[inline(always)]
    pub fn of(octets: &[u8], frame: &FrameView<'_>) -> FrameContents
        requires { EncodesFrame (transmission_of frame.now) octets.now }
        ensures { AreContentsOf octets.now result }
    {
        FrameContents {
            target: frame.to,
            sender: frame.from,
            kind: frame.packet.kind(),
            hops_left: frame.packet.hops().left(),
            vector: frame.packet.vector(),
            number: frame.packet.number(),
            area: frame.packet.area(),
            payload: octets.len() - frame.packet.payload().len(),
        }
    }
}

/// A frame together with its contents, which were read before. Contracts see the packet on the air.
#[derive(Debug, Drop)]
pub struct KnownFrame<'a, 'c> {
    octets: &'a [u8],
    contents: &'c FrameContents,
}

impl<'a, 'c> Model for KnownFrame<'a, 'c> {
    ghost use Rattle.its_model.specs.Packet.{Transmission};
    ghost use Rattle.its_station.specs.Known.{AreContentsOf, frame_with};

    ghost Value = { Transmission };

    ghost view = { λ k. frame_with k.octets.now k.contents.now };

    ghost invariant = { λ k. AreContentsOf k.octets.now k.contents.now };
}

impl<'a, 'c> KnownFrame<'a, 'c> {
    /// Returns the frame in these octets. The contents have to be those of the octets. They are not
    /// compared with the octets again.
    #[inline(always)]
    pub fn new(octets: &'a [u8], contents: &'c FrameContents) -> KnownFrame<'a, 'c>
        requires { AreContentsOf octets.now contents.now }
        ensures { EncodesFrame result octets.now }
    {
        KnownFrame { octets, contents }
    }

    /// Reads the octets of the frame again, for what its contents don't have.
    #[inline(always)]
    fn view(&self) -> FrameView<'a>
        ensures { transmission_of result ≡ self.now }
    {
        // A law, for the proof alone.
        one_frame();
        FrameView::of_frame(self.octets)
    }
}

impl<'a, 'c> ReceivedFrame<'a> for KnownFrame<'a, 'c> {
    ghost use Rattle.its_linkframe.specs.Frames.{EncodesFrame};

    ghost frame = { λ t. t };

    ghost Encodes = { λ _. EncodesFrame };

    ghost most = { λ _. 1468 };

    #[inline(always)]
    fn target(&self) -> Mac {
        self.contents.target
    }

    #[inline(always)]
    fn sender(&self) -> Mac {
        self.contents.sender
    }

    #[inline(always)]
    fn kind(&self) -> Kind {
        self.contents.kind
    }

    #[inline(always)]
    fn hops_left(&self) -> u8 {
        self.contents.hops_left
    }

    #[inline(always)]
    fn lifetime(&self) -> Lifetime {
        self.view().packet.lifetime()
    }

    #[inline(always)]
    fn vector(&self) -> LongPv {
        self.contents.vector
    }

    #[inline(always)]
    fn number(&self) -> Option<u16> {
        self.contents.number
    }

    #[inline(always)]
    fn area(&self) -> Option<Area> {
        self.contents.area
    }

    #[inline(always)]
    fn payload(&self) -> &'a [u8] {
        &self.octets[self.contents.payload..]
    }

    fn relay(&self, alloc: Global, from: Mac) -> Result<Vec<u8>, NoMemory> {
        relay_frame(alloc, Mac::BROADCAST, from, &self.view())
    }

    fn redirect(&self, octets: Vec<u8>, to: Mac) -> Vec<u8> {
        let mut octets = octets;
        retarget(octets.as_mut_slice(), to);
        octets
    }
}
