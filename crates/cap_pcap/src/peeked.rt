//! A source whose first octets were read ahead.

ghost use Rattle.std.specs.Prelude.{◌≡◌, ◌-◌, ◌^◌, ◌<◌, ◌≤◌, IfSome, drop, take, length, ◌++◌};
ghost use Rattle.std.specs.Io.KnownBytes.{Keeps};
ghost use Rattle.cap_pcap.specs.Peeked.{left_of};

use its_linkframe::{Source, fill};
use std::io;
use std::io::Read;
use std::marker::Model;

/// How many octets identify a format.
const MARK: usize = 4;

/// A source whose first octets were read ahead. It returns these first, and then the others.
#[derive(Drop)]
pub struct Peeked<S: Source> {
    /// The octets to return again are at its end.
    first: [u8; MARK],
    /// The first of them.
    at: usize,
    source: S,
    ghost inside: { at ≤ 4 },
}

impl<S: Source> Peeked<S> {
    /// Returns a source from which nothing was read ahead.
    pub fn new(source: S) -> Peeked<S>
        ensures rest { Keeps (S.remaining source)
            (left_of result.at result.first (S.remaining result.source)) }
        ensures failures { S.failed result.source ≡ S.failed source }
    {
        Peeked {
            first: [0; MARK],
            at: MARK,
            source,
        }
    }

    /// Reads the first four octets ahead, or all if there are fewer. They are returned again by the
    /// next reads. `None` if a call failed.
    pub fn peek(mut source: S) -> Option<Peeked<S>>
    where
        S: Drop,
        requires { S.failed source < 2 ^ 64 - 1 }
        ensures rest { IfSome result
            (λ b. Keeps (S.remaining source) (left_of b.at b.first (S.remaining b.source))) }
        ensures failures { IfSome result (λ b. S.failed b.source ≡ S.failed source) }
        ensures first { IfSome result (λ b. IfSome (S.remaining source)
            (λ w. drop b.at b.first ≡ take 4 w)) }
    {
        let mut octets = [0; MARK];
        let n = fill(&mut source, &mut octets)?;
        let at = MARK - n;
        let mut first = [0; MARK];
        first[at..].copy_from_slice(&octets[..n]);
        Some(Peeked { first, at, source })
    }

    /// Returns the octets that were read ahead and not yet returned again.
    pub fn peeked(&self) -> &[u8]
        ensures { result.now ≡ drop self.now.at self.now.first }
    {
        &self.first[self.at..]
    }

    /// Copies octets that were read ahead into the buffer, and returns how many.
    fn take_peeked(&mut self, buf: &mut [u8]) -> usize
        requires { self.old.at < 4 }
        ensures bound { result ≤ length buf.new }
        ensures some { 0 < length buf.new → 0 < result }
        ensures octets { drop self.old.at self.old.first
            ≡ take result buf.new ++ drop self.new.at self.old.first }
        ensures first { self.new.first ≡ self.old.first }
        ensures source { self.new.source ≡ self.old.source }
    {
        let rest = self.peeked();
        let n = buf.len().min(rest.len());
        buf[..n].copy_from_slice(&rest[..n]);
        self.at += n;
        n
    }
}

impl<S: Source> Read for Peeked<S> {
    ghost remaining = { λ b. left_of b.at b.first (S.remaining b.source) };

    fn read(&mut self, buf: &mut [u8]) -> io::Result<usize> {
        if self.at < MARK {
            return Ok(self.take_peeked(buf));
        }
        self.source.read(buf)
    }
}

impl<S: Source> Source for Peeked<S> {
    ghost failed = { λ b. S.failed b.source };

    fn failures(&self) -> u64 {
        self.source.failures()
    }

    fn pull(&mut self, buf: &mut [u8]) -> Option<usize> {
        if self.at < MARK {
            return Some(self.take_peeked(buf));
        }
        self.source.pull(buf)
    }
}
