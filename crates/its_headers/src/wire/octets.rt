//! The octets of a packet, in one piece or behind a Basic Header that is elsewhere.

ghost use Rattle.std.specs.Prelude.{◌≡◌, ◌≤◌, ◌++◌, ℕ, List, length, drop};
ghost use Rattle.its_headers.specs.Inner.{IsBasic, basic_in};

use crate::wire::basic::{BasicHeader, basic_in};
use crate::wire::fields::BASIC_END;
use std::marker::Model;

/// The octets of a packet that come before the slice with all others.
pub trait Head {
    /// How many they are, 0 or 4.
    const SIZE: usize;

    /// How many they are.
    ghost SIZE: { ℕ };

    /// The octets themselves.
    ghost octets: { Self → List ℕ };

    /// Returns what the Basic Header of the packet says. `rest` is the slice.
    fn basic(&self, rest: &[u8]) -> BasicHeader
        requires here { 4 ≤ length (octets self.now ++ rest.now) }
        requires range { IsBasic (basic_in (octets self.now ++ rest.now)) }
        ensures { result ≡ basic_in (octets self.now ++ rest.now) };

    /// There are `SIZE` of them.
    ghost size: { (head : Self) → length (octets head) ≡ SIZE };

    /// At most the four octets of a Basic Header are elsewhere.
    ghost most: { SIZE ≤ 4 };
}

/// Nothing comes before the slice: it has the whole packet.
#[derive(Clone, Copy, Debug)]
pub struct InOnePiece;

impl Head for InOnePiece {
    ghost use Rattle.std.specs.Prelude.{[]};
    ghost use Rattle.std.proofs.Common.{rules};

    const SIZE: usize = 0;

    ghost SIZE = { 0 };

    ghost octets = { λ _. [] };

    ghost size = { Prim.search rules };

    ghost most = { Prim.search rules };

    #[inline(always)]
    fn basic(&self, rest: &[u8]) -> BasicHeader {
        basic_in(rest)
    }
}

impl Head for BasicHeader {
    ghost use Rattle.std.specs.Prelude.{[]};
    ghost use Rattle.std.proofs.Common.{rules};
    ghost use Rattle.its_headers.specs.Inner.{inner_octets};

    const SIZE: usize = BASIC_END;

    ghost SIZE = { 4 };

    ghost octets = { λ basic. inner_octets basic [] };

    ghost size = { Prim.search rules };

    ghost most = { Prim.search rules };

    #[inline(always)]
    fn basic(&self, _rest: &[u8]) -> BasicHeader {
        *self
    }
}

/// The octets of a packet. Contracts see all of them.
#[derive(Debug, Drop)]
pub(crate) struct Octets<'a, H: Head> {
    pub(crate) head: H,
    pub(crate) rest: &'a [u8],
}

impl<'a, H: Head> Model for Octets<'a, H> {
    ghost use Rattle.std.specs.Prelude.{ℕ, List, ◌++◌};

    ghost Value = { List ℕ };

    ghost view = { λ o. H.octets o.head ++ o.rest.now };
}

impl<'a> Octets<'a, InOnePiece> {
    /// All of them.
    #[inline(always)]
    pub(crate) fn whole(&self) -> &'a [u8]
        ensures { result.now ≡ self.now }
    {
        self.rest
    }
}

impl<'a, H: Head> Octets<'a, H> {
    /// What their Basic Header says.
    #[inline(always)]
    pub(crate) fn basic(&self) -> BasicHeader
        requires here { 4 ≤ length self.now }
        requires range { IsBasic (basic_in self.now) }
        ensures { result ≡ basic_in self.now }
    {
        self.head.basic(self.rest)
    }

    /// How many there are.
    #[inline(always)]
    pub(crate) fn count(&self) -> usize
        ensures { result ≡ length self.now }
    {
        H::SIZE + self.rest.len()
    }

    /// Those from a place on.
    #[inline(always)]
    pub(crate) fn behind(&self, at: usize) -> &'a [u8]
        requires start { H.SIZE ≤ at }
        requires end { at ≤ length self.now }
        ensures { result.now ≡ drop at self.now }
    {
        &self.rest[at - H::SIZE..]
    }
}
