//! Secured frames read in place (profile).

ghost use Rattle.std.specs.Prelude.{◌≡◌, ◌<◌, ◌≤◌, ◌+◌, length, IfOk, IfErr, IsOkAnd};
ghost use Rattle.its_linkframe.specs.Secured.{Secured, EncodesSecured, IsSecuredFault};

use crate::fields::{ETHER_TYPE, MESSAGE, PACKET, SOURCE, TARGET};
use crate::frame::{TYPE_HIGH, TYPE_LOW, mac_at};
use its_faults::SecuredFault;
use its_gnvalue::{Lifetime, Mac};
use its_headers::BasicHeader;
use std::marker::Model;

/// The longest secured frame, in octets: the longest unit of IEEE 802.11 (2304) without the 8
/// octets of LLC and SNAP, and 14 octets of addresses and type (profile).
pub const LONGEST_SECURED_FRAME: usize = 2310;

/// A secured frame in the octets that it was read from. Contracts see what it says.
#[derive(Debug, Drop)]
pub struct SecuredFrameView<'a> {
    to: Mac,
    from: Mac,
    basic: BasicHeader,
    message: &'a [u8],
}

impl<'a> Model for SecuredFrameView<'a> {
    ghost use Rattle.its_linkframe.specs.Secured.{Secured, IsSecured};

    ghost Value = { Secured };

    ghost view = { λ v. record {
      link_target = v.to;
      link_source = v.from;
      basic = v.basic;
      message = v.message.now;
    } };

    ghost invariant = { λ v. IsSecured (record {
      link_target = v.to;
      link_source = v.from;
      basic = v.basic;
      message = v.message.now;
    }) };
}

impl<'a> SecuredFrameView<'a> {
    /// The link address that it goes to.
    pub fn to(&self) -> Mac
        ensures { result ≡ self.now.link_target }
    {
        self.to
    }

    /// The link address that it comes from.
    pub fn from(&self) -> Mac
        ensures { result ≡ self.now.link_source }
    {
        self.from
    }

    /// What its Basic Header says: lifetime and hops left.
    pub fn basic(&self) -> BasicHeader
        ensures { result ≡ self.now.basic }
    {
        self.basic
    }

    /// How long its packet lives (LT).
    pub fn lifetime(&self) -> Lifetime
        ensures { result ≡ self.now.basic.lifetime }
    {
        self.basic.lifetime()
    }

    /// The hops that its packet has left (RHL), from 1.
    pub fn left(&self) -> u8
        ensures { result ≡ self.now.basic.left }
    {
        self.basic.left()
    }

    /// The message, for a security entity to verify: a slice of the octets that were read.
    pub fn message(&self) -> &'a [u8]
        ensures value { result.now ≡ self.now.message }
        ensures some { 0 < length result.now }
        ensures short { 18 + length result.now ≤ 2310 }
    {
        self.message
    }
}

/// The secured frame that the octets are, or their first fault, in this order: L1 under 14 octets,
/// L2 another type than 0x8947, L3 over 2310 octets, L5 no secured packet after the type: G1, G2,
/// G3 where the next header isn't 2, G4 or G5 of its Basic Header, G1 where no message follows.
/// The message isn't looked at.
pub fn read_secured_frame(octets: &[u8]) -> Result<SecuredFrameView<'_>, SecuredFault>
    ensures found { IfOk result (λ v. EncodesSecured v octets.now) }
    ensures only { (s : Secured) → EncodesSecured s octets.now → IsOkAnd result (λ v. v ≡ s) }
    ensures fault { IfErr result (IsSecuredFault octets.now) }
{
    if octets.len() < PACKET {
        return Err(SecuredFault::Short);
    }
    if octets[ETHER_TYPE] != TYPE_HIGH || octets[ETHER_TYPE + 1] != TYPE_LOW {
        return Err(SecuredFault::EtherType);
    }
    if octets.len() > LONGEST_SECURED_FRAME {
        return Err(SecuredFault::TooLong);
    }
    match BasicHeader::read_secured(&octets[PACKET..]) {
        Ok(basic) => Ok(SecuredFrameView {
            to: mac_at(octets, TARGET),
            from: mac_at(octets, SOURCE),
            basic,
            message: &octets[MESSAGE..],
        }),
        Err(fault) => Err(SecuredFault::Packet(fault)),
    }
}
