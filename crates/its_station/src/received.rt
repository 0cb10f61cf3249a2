//! What a station needs of a frame that it receives: its packet, and the frames in which that goes
//! on.

ghost use Rattle.std.specs.Prelude.{◌≡◌, ◌≤◌, ℕ, List, length, IfOk};
ghost use Rattle.its_gnvalue.specs.Values.{broadcast};
ghost use Rattle.its_model.specs.Packet.{Transmission, number_in, relay};
ghost use Rattle.its_headers.specs.Encoding.{payload_of};
ghost use Rattle.its_headers.specs.Fields.{kind_of_body, area_in, SaysMessage, IsLength};
ghost use Rattle.its_station.specs.Receiving.{IsSentFrame};

use its_geometry::Area;
use its_gnvalue::{Lifetime, LongPv, Mac, NoMemory};
use its_headers::Kind;
use its_linkframe::{
    FrameView, VerifiedFrame, relay_frame, relay_verified, retarget, retarget_secured,
};
use std::alloc::Global;

/// A frame that was read. What is delivered of it lives as long as its payload.
pub trait ReceivedFrame<'a> {
    /// The packet on the air.
    ghost frame: { Self → Transmission };

    /// How the octets of a frame say a packet that goes on.
    ghost Encodes: { Self → Transmission → List ℕ → Type 0 };

    /// The most octets of such a frame.
    ghost most: { Self → ℕ };

    /// The link address that it goes to.
    fn target(&self) -> Mac
        ensures { result ≡ (frame self.now).link_target };

    /// The link address that it comes from.
    fn sender(&self) -> Mac
        ensures { result ≡ (frame self.now).link_source };

    /// The kind of its packet.
    fn kind(&self) -> Kind
        ensures { result ≡ kind_of_body (frame self.now).pdu.body };

    /// The hops that its packet has left.
    fn hops_left(&self) -> u8
        ensures { result ≡ (frame self.now).hops_left };

    /// How long its packet lives (LT).
    fn lifetime(&self) -> Lifetime
        ensures { result ≡ (frame self.now).pdu.lifetime };

    /// The position vector of its packet's source.
    fn vector(&self) -> LongPv
        ensures { result ≡ (frame self.now).pdu.vector };

    /// The sequence number of its packet, if that has one.
    fn number(&self) -> Option<u16>
        ensures { result ≡ number_in (frame self.now).pdu.body };

    /// The area of its packet, if that has one.
    fn area(&self) -> Option<Area>
        ensures { result ≡ area_in (frame self.now).pdu.body };

    /// The payload of its packet: a BTP-B header and what is sent to the port.
    fn payload(&self) -> &'a [u8]
        ensures octets { result.now ≡ payload_of (frame self.now).pdu.body }
        ensures message { SaysMessage (frame self.now).pdu.body result.now }
        ensures size { IsLength (kind_of_body (frame self.now).pdu.body) (length result.now) };

    /// The frame in which its packet goes on to all. It has to have two hops left at least.
    fn relay(&self, alloc: Global, from: Mac) -> Result<Vec<u8>, NoMemory>
        requires { 2 ≤ (frame self.now).hops_left }
        ensures frame { IfOk result (λ w.
            Encodes self.now (relay (frame self.now) from broadcast) w.items) }
        ensures short { IfOk result (λ w. length w.items ≤ most self.now) };

    /// Gives a frame in which its packet goes on another target.
    fn redirect(&self, octets: Vec<u8>, to: Mac) -> Vec<u8>
        requires { IsSentFrame (Encodes self.now) octets.items }
        ensures target { (t : Transmission) → Encodes self.now t octets.items →
            Encodes self.now (record t { link_target = to }) result.items }
        ensures short { length result.items ≤ most self.now };
}

impl<'a> ReceivedFrame<'a> for FrameView<'a> {
    ghost use Rattle.its_linkframe.specs.Frames.{EncodesFrame, transmission_of};

    ghost frame = { λ v. transmission_of v };

    ghost Encodes = { λ _. EncodesFrame };

    ghost most = { λ _. 1468 };

    #[inline(always)]
    fn target(&self) -> Mac {
        self.to
    }

    #[inline(always)]
    fn sender(&self) -> Mac {
        self.from
    }

    #[inline(always)]
    fn kind(&self) -> Kind {
        self.packet.kind()
    }

    #[inline(always)]
    fn hops_left(&self) -> u8 {
        self.packet.hops().left()
    }

    #[inline(always)]
    fn lifetime(&self) -> Lifetime {
        self.packet.lifetime()
    }

    #[inline(always)]
    fn vector(&self) -> LongPv {
        self.packet.vector()
    }

    #[inline(always)]
    fn number(&self) -> Option<u16> {
        self.packet.number()
    }

    #[inline(always)]
    fn area(&self) -> Option<Area> {
        self.packet.area()
    }

    #[inline(always)]
    fn payload(&self) -> &'a [u8] {
        self.packet.payload()
    }

    fn relay(&self, alloc: Global, from: Mac) -> Result<Vec<u8>, NoMemory> {
        relay_frame(alloc, Mac::BROADCAST, from, self)
    }

    fn redirect(&self, octets: Vec<u8>, to: Mac) -> Vec<u8> {
        let mut octets = octets;
        retarget(octets.as_mut_slice(), to);
        octets
    }
}

impl<'f, 'a> ReceivedFrame<'a> for VerifiedFrame<'f, 'a> {
    ghost use Rattle.its_station.specs.Receiving.{EncodesSealed};

    ghost frame = { λ v. v.frame };

    ghost Encodes = { λ v. EncodesSealed v.message };

    ghost most = { λ _. 2310 };

    fn target(&self) -> Mac {
        self.secured().to()
    }

    fn sender(&self) -> Mac {
        self.secured().from()
    }

    fn kind(&self) -> Kind {
        self.packet().kind()
    }

    fn hops_left(&self) -> u8 {
        self.packet().left()
    }

    fn lifetime(&self) -> Lifetime {
        self.secured().lifetime()
    }

    fn vector(&self) -> LongPv {
        self.packet().vector()
    }

    fn number(&self) -> Option<u16> {
        self.packet().number()
    }

    fn area(&self) -> Option<Area> {
        self.packet().area()
    }

    fn payload(&self) -> &'a [u8] {
        self.packet().payload()
    }

    fn relay(&self, alloc: Global, from: Mac) -> Result<Vec<u8>, NoMemory> {
        relay_verified(alloc, Mac::BROADCAST, from, self)
    }

    fn redirect(&self, octets: Vec<u8>, to: Mac) -> Vec<u8> {
        let mut octets = octets;
        retarget_secured(octets.as_mut_slice(), to);
        octets
    }
}
