//! The Basic Header (EN 302 636-4-1 clause 9): version, next header, lifetime, hops left.

ghost use Rattle.std.specs.Prelude.{◌≡◌, ◌≤◌, ◌<◌, ◌∷◌, ◌++◌, [], ℕ, List, length, drop, Err};
ghost use Rattle.std.specs.Prelude.{IfOk, IfErr, IsOkAnd};
ghost use Rattle.its_formats.specs.Format.{Gives};
ghost use Rattle.its_headers.specs.Format.{walk};
ghost use Rattle.its_headers.specs.Inner.{Basic, IsBasic, basic_in, secured_header};
ghost use Rattle.its_headers.specs.Layout.{basic_format_of, secured_format};
ghost use Rattle.its_headers.specs.Puts.{Puts};

use crate::packet::Header;
use crate::wire::fields::{
    BASIC_END, BASIC_RESERVED, HOPS_LEFT, LIFETIME, VERSION, fault, octet_at, pass_number,
    write_octets,
};
use crate::wire::octets::{InOnePiece, Octets};
use its_faults::{Fault, FaultKind};
use its_gnvalue::Lifetime;
use std::marker::Model;

/// The version of GeoNetworking.
const VERSION_1: u8 = 1;

/// The next header: the Common Header, with no security.
pub(crate) const NEXT_COMMON: u8 = 1;

/// The next header: a secured packet.
const NEXT_SECURED: u8 = 2;

/// What a Basic Header says, but for what follows it: the lifetime (LT) and the hops left (RHL,
/// from 1).
#[derive(Clone, Copy, Debug, PartialEq, Eq)]
pub struct BasicHeader {
    lifetime: u8,
    left: u8,
}

impl Model for BasicHeader {
    ghost use Rattle.std.specs.Prelude.{◌<◌};
    ghost use Rattle.its_headers.specs.Inner.{Basic};

    ghost Value = { Basic };

    ghost view = { λ b. record { lifetime = b.lifetime; left = b.left } };

    ghost invariant = { λ b. (b.lifetime < 256) × (0 < b.left) × (b.left < 256) };

    ghost inverse = { λ b. record { lifetime = b.lifetime; left = b.left } };
}

impl BasicHeader {
    /// A header of this lifetime and so many hops left, of which there has to be one.
    pub fn within(lifetime: Lifetime, left: u8) -> BasicHeader
        requires { 0 < left }
        ensures { result ≡ record { lifetime = lifetime; left = left } }
    {
        BasicHeader {
            lifetime: lifetime.octet(),
            left,
        }
    }

    /// The Basic Header of the secured packet that the octets are, or their first fault: G1 where
    /// they end before the message's first octet, G2, G3 where the next header isn't 2, G4, G5.
    pub fn read_secured(octets: &[u8]) -> Result<BasicHeader, Fault>
        ensures found { IfOk result (λ b. octets.now ≡ secured_header b ++ drop 4 octets.now) }
        ensures long { IfOk result (λ _. 5 ≤ length octets.now) }
        ensures range { IfOk result IsBasic }

        // Each is read, whatever the message is.
        ensures only { (b : Basic) (message : List ℕ) → IsBasic b → 0 < length message →
            octets.now ≡ secured_header b ++ message → IsOkAnd result (λ r. r ≡ b) }
        ensures fault { IfErr result (λ f. walk secured_format 0 octets.now ≡ Err f) }
    {
        check_secured(octets)
    }

    /// The four octets of this header in front of a message.
    pub fn secured_octets(self) -> [u8; 4]
        ensures { result ≡ secured_header self }
    {
        [16 * VERSION_1 + NEXT_SECURED, 0, self.lifetime, self.left]
    }

    /// How long the packet lives (LT).
    pub fn lifetime(self) -> Lifetime
        ensures { result ≡ self.lifetime }
    {
        Lifetime::from_octet(self.lifetime)
    }

    /// The hops that are left (RHL), from 1.
    pub fn left(self) -> u8
        ensures value { result ≡ self.left }
        ensures range { (self.lifetime < 256) × (0 < self.left) × (self.left < 256) }
    {
        self.left
    }
}

/// Checks the Basic Header, which has to name this next header.
#[tactic(auto, unfolding(crate::specs::Layout::basic_format_of))]
#[inline(always)]
pub(crate) fn check_basic(octets: &Octets<'_, InOnePiece>, next: u8) -> Result<BasicHeader, Fault>
    ensures { Gives (λ b. ((b.lifetime, b.left), 4)) result
        (walk (basic_format_of next) 0 octets.now) }
{
    let first = octet_at(octets, VERSION)?;
    if first / 16 != VERSION_1 {
        return Err(fault(VERSION, FaultKind::Version));
    }
    if first % 16 != next {
        return Err(fault(VERSION, FaultKind::BasicNext));
    }
    if octet_at(octets, BASIC_RESERVED)? != 0 {
        return Err(fault(BASIC_RESERVED, FaultKind::Reserved));
    }
    let lifetime = octet_at(octets, LIFETIME)?;
    let left = octet_at(octets, HOPS_LEFT)?;
    if left == 0 {
        return Err(fault(HOPS_LEFT, FaultKind::HopZero));
    }
    Ok(BasicHeader { lifetime, left })
}

/// What the Basic Header of these octets says, which was checked.
#[inline(always)]
pub(crate) fn basic_in(octets: &[u8]) -> BasicHeader
    requires here { 4 ≤ length octets.now }
    requires range { IsBasic (basic_in octets.now) }
    ensures { result ≡ basic_in octets.now }
{
    BasicHeader::within(Lifetime::from_octet(octets[LIFETIME]), octets[HOPS_LEFT])
}

/// Checks the Basic Header of a secured packet, and that a message follows.
#[tactic(auto, using(its_formats::proofs::Walks::walk_after))]
fn check_secured(octets: &[u8]) -> Result<BasicHeader, Fault>
    ensures { Gives (λ b. ((b.lifetime, b.left), 5)) result (walk secured_format 0 octets.now) }
{
    let octets = Octets {
        head: InOnePiece,
        rest: octets,
    };
    let basic = check_basic(&octets, NEXT_SECURED)?;
    pass_number(&octets, BASIC_END, 1)?;
    Ok(basic)
}

/// Writes the Basic Header, four octets.
pub(crate) fn write_basic(out: &mut [u8], header: &Header)
    requires { 4 ≤ length out.old }
    ensures puts { Puts out.old out.new 0
        (17 ∷ 0 ∷ header.now.lifetime ∷ header.now.hops.left ∷ []) }
    ensures lifetime { header.now.lifetime < 256 }
    ensures some_left { 0 < header.now.hops.left }
{
    let octets = [
        16 * VERSION_1 + NEXT_COMMON,
        0,
        header.lifetime.octet(),
        header.hops.left(),
    ];
    write_octets(out, VERSION, &octets);
}
