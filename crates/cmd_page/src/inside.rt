//! The lines of a run, spelled as in an element of the page.

ghost use Rattle.std.specs.Prelude.{◌≡◌, ◌≢◌, ◌≤◌, ◌<◌, All, false, length, take};
ghost use Rattle.cmd_page.specs.Inside.{spelled};

use std::io;
use std::io::Write;

/// How the sign `<` is spelled in a text of JSON.
const LESS_THAN: &[u8] = b"\\u003c";

/// The spelling of the first octets of a text.
#[derive(Clone, Copy, Debug, PartialEq, Eq)]
pub struct Replacement<'a> {
    /// What is written.
    pub octets: &'a [u8],
    /// For how many octets.
    pub taken: usize,
}

/// Returns the spelling of the first octets of these, so that no text of a run ends its element of
/// the page. It is the octets themselves up to the first sign `<`, or for that sign `\u003c`, its
/// spelling in a JSON string. In lines of JSON the sign occurs only in strings, so the meaning
/// stays the same.
///
/// - `spelled`: what is written for the octets that it replaces is their spelling: the sign `<` as
///   `\u003c`, any other octet as it is.
/// - `signs`: no sign `<` is written.
pub fn first_piece(octets: &[u8]) -> Replacement<'_>
    ensures spelled { result.octets.now ≡ spelled (take result.taken octets.now) }
    ensures signs { All (λ octet. octet ≢ 60) result.octets.now }
    ensures within { result.taken ≤ length octets.now }
    ensures moves { 0 < length octets.now → 0 < result.taken }
{
    match octets.iter().position(|octet| *octet == b'<') {
        Some(0) => Replacement {
            octets: LESS_THAN,
            taken: 1,
        },
        Some(count) => Replacement {
            octets: &octets[..count],
            taken: count,
        },
        None => Replacement {
            octets,
            taken: octets.len(),
        },
    }
}

/// A writer that passes on what is written to it, piece by piece, spelled as in an element of a
/// page.
#[derive(Drop)]
pub struct Inside<'a, W> {
    out: &'a mut W,
    has_failed: bool,
}

impl<'a, W: Write> Inside<'a, W> {
    /// Returns a writer that passes on to this one, which hasn't failed.
    pub fn new(out: &'a mut W) -> Inside<'a, W>
        ensures { result.has_failed ≡ false }
    {
        Inside {
            out,
            has_failed: false,
        }
    }

    /// Whether the other writer failed.
    pub fn has_failed(&self) -> bool
        ensures { result ≡ self.now.has_failed }
    {
        self.has_failed
    }
}

impl<W: Write> Write for Inside<'_, W> {
    fn write(&mut self, octets: &[u8]) -> io::Result<usize> {
        let piece = first_piece(octets);
        match self.out.write_all(piece.octets) {
            Ok(()) => Ok(piece.taken),
            Err(error) => {
                self.has_failed = true;
                Err(error)
            }
        }
    }

    fn flush(&mut self) -> io::Result<()> {
        self.out.flush()
    }
}
