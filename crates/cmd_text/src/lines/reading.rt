//! Reads a line from a reader.

ghost use Rattle.std.specs.Prelude.{◌≡◌, ◌≤◌, ◌<◌, ◌==◌, ◌++◌, ◌↔◌, ◌⊎◌, ℕ, List, []};
ghost use Rattle.std.specs.Prelude.{IfOk, IfSome, IsTrue, length, position, take, vec_len};
ghost use Rattle.cmd_text.specs.Lines.{IsKept, IsLineRead, TakesPiece};

use crate::lines::line::Line;
use crate::lines::passed::Passed;
use std::alloc::{AllocError, Global};
use std::io;
use std::io::BufRead;

impl Line {
    /// Returns an empty line, with a buffer for the octets that are kept: at most this many.
    pub fn new(alloc: Global, most: usize) -> Result<Line, AllocError>
        ensures { IfOk result (λ line. line.most ≡ most) }
    {
        let start = Vec::with_capacity(alloc, most)?;
        Ok(Line {
            start,
            most,
            passed: Passed::none(),
        })
    }

    /// Returns its first octets, which are kept.
    pub fn start(&self) -> &[u8]
        ensures octets { result.now ≡ self.now.start.items }
        ensures bounded { length result.now ≤ self.now.most }
    {
        self.start.as_slice()
    }

    /// Returns what is known about the further octets.
    pub fn passed(&self) -> Passed
        ensures { result ≡ self.now.passed }
    {
        self.passed
    }

    /// Whether none of its octets is kept.
    pub fn is_empty(&self) -> bool
        ensures { IsTrue result ↔ (vec_len self.now.start ≡ 0) }
    {
        self.start.is_empty()
    }

    /// Reads the next line of the reader, without its line feed, which replaces this one. `false`
    /// if there is no further line. It is empty then.
    ///
    /// If the reader's octets are known, it is their first line, and the octets after the line feed
    /// are left in the reader.
    ///
    /// - `line` (`IsLineRead`): if the octets of the reader are known and the read succeeds, the
    ///   result is `false` if and only if none is left. Otherwise the beginning of their first line
    ///   is kept, what is known about its other octets is true, and what follows the line feed is
    ///   left in the reader.
    pub fn read<R: BufRead>(&mut self, reader: &mut R) -> io::Result<bool>
        ensures kept { self.new.most ≡ self.old.most }
        ensures none { IfOk result (λ is_there. ¬ IsTrue is_there → vec_len self.new.start ≡ 0) }
        ensures line { IfSome (R.remaining reader.old) (λ octets. IfOk result (λ is_there.
            IsLineRead octets (R.remaining reader.new) self.new is_there)) }
    {
        self.clear();
        // The range is there so that the walk ends on any reader.
        for _ in 0..u64::MAX {
            match self.read_ready(reader)? {
                Reached::Within => {}
                Reached::EndOfLine => return Ok(true),
                Reached::EndOfText => return Ok(self.has_octets()),
            }
        }
        Err(io::Error::from(io::ErrorKind::Other))
    }

    /// Whether it has octets, kept or not.
    fn has_octets(&self) -> bool
        ensures { IsTrue result ↔ ((0 < length self.now.start.items)
            ⊎ IsTrue self.now.passed.any) }
    {
        !self.is_empty() || self.passed.any
    }

    /// Forgets its octets.
    fn clear(&mut self)
        ensures most { self.new.most ≡ self.old.most }
        ensures kept { IsKept self.new [] }
    {
        self.start.clear();
        self.passed = Passed::none();
    }

    /// Adds the octets of this line that the reader has ready, and takes them from the reader, with
    /// the line feed.
    fn read_ready<R: BufRead>(&mut self, reader: &mut R) -> io::Result<Reached>
        ensures most { self.new.most ≡ self.old.most }
        ensures piece { IfOk result (TakesPiece (R.remaining reader.old)
            (R.remaining reader.new) self.old self.new) }
    {
        let ready = match reader.fill_buf() {
            Ok(ready) => ready,
            Err(error) if error.kind() == io::ErrorKind::Interrupted => return Ok(Reached::Within),
            Err(error) => return Err(error),
        };
        if ready.is_empty() {
            return Ok(Reached::EndOfText);
        }
        match line_feed(ready) {
            Some(end) => {
                self.add(&ready[..end]);
                reader.consume(end + 1);
                Ok(Reached::EndOfLine)
            }
            None => {
                let size = ready.len();
                self.add(ready);
                reader.consume(size);
                Ok(Reached::Within)
            }
        }
    }

    #[tactic(auto, using(crate::proofs::Kept::kept_take))]
    /// Adds octets, and keeps those that fit the buffer. It allocates no memory.
    fn add(&mut self, octets: &[u8])
        ensures kept { self.new.start.items
            ≡ take self.old.most (self.old.start.items ++ octets.now) }
        ensures most { self.new.most ≡ self.old.most }
        ensures adds { (taken : List ℕ) → IsKept self.old taken
            → IsKept self.new (taken ++ octets.now) }
    {
        let room = self.most - self.start.len();
        let (kept, passed) = octets.split_at(room.min(octets.len()));
        if self.start.extend_from_slice(kept).is_err() {
            unreachable!();
        }
        self.passed.add(passed);
    }
}

/// Returns where the first line feed is.
fn line_feed(octets: &[u8]) -> Option<usize>
    ensures { result ≡ position (λ octet. octet == 10) octets.now }
{
    octets.iter().position(|octet| *octet == b'\n')
}

/// The state of reading a line.
enum Reached {
    /// The line may have further octets.
    Within,
    EndOfLine,
    EndOfText,
}
