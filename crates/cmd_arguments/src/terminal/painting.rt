//! Colours for the lines of `show` and `sim`: those of packet kinds, and of refusals.

ghost use Rattle.std.specs.Prelude.{◌≡◌, ◌≤◌, ◌++◌, IfSome, length};

use its_headers::Kind;
use std::str;

/// What a line is about.
#[derive(Clone, Copy, Debug, PartialEq, Eq)]
pub enum Painter {
    /// A record of a capture. The kind is its fourth word, and a refusal is its second. If the
    /// capture is refused, the whole line is the refusal.
    Records,
    /// An event of a run. What is done is its fourth word. A refusal is the fourth or fifth word,
    /// or the sixth after the number of a delivered frame.
    Events,
}

/// A line in three parts, of which the middle one is coloured.
#[derive(Clone, Copy, Debug, PartialEq, Eq)]
pub struct Painted<'a> {
    /// The part before the coloured one.
    pub before: &'a [u8],
    /// The code that begins the colour, which `RESET` ends. Empty if nothing is coloured.
    pub color: &'static str,
    /// The coloured part.
    pub middle: &'a [u8],
    /// The part after the coloured one.
    pub after: &'a [u8],
}

/// The code that ends a colour.
pub(crate) const RESET: &str = "\x1b[0m";

const RED: &str = "\x1b[31m";

/// The word of a refusal.
const REFUSED: &[u8] = b"refused";

/// The beginning of the line of a refused capture.
const CAPTURE: &[u8] = b"capture: ";

/// Splits a line without its line feed around the part to colour: from a refusal to the end of the
/// line, or without one the kind of its packet. All octets of the line stay, in order.
pub fn paint<'a>(line: &'a [u8], painter: Painter) -> Painted<'a>
    ensures { result.before.now ++ result.middle.now ++ result.after.now ≡ line.now }
{
    if let Some(start) = refusal_of(line, painter) {
        return parts(line, start, line.len(), RED);
    }
    let (start, end) = word_at(line, 3);
    match color_of(&line[start..end]) {
        Some(color) => parts(line, start, end, color),
        None => parts(line, line.len(), line.len(), ""),
    }
}

/// Returns where the refusal of a line begins, if there is one.
fn refusal_of(line: &[u8], painter: Painter) -> Option<usize>
    ensures { IfSome result (λ start. start ≤ length line.now) }
{
    let (first, last) = match painter {
        Painter::Records if line.starts_with(CAPTURE) => return Some(0),
        Painter::Records => (1, 1),
        Painter::Events => (3, 5),
    };
    for number in first..=last {
        let (start, end) = word_at(line, number);
        if &line[start..end] == REFUSED {
            return Some(start);
        }
    }
    None
}

/// Returns the colour of a packet kind, if the word is one.
fn color_of(word: &[u8]) -> Option<&'static str> {
    Some(match Kind::named(str::from_utf8(word).ok()?)? {
        Kind::Beacon => "\x1b[36m",
        Kind::Shb => "\x1b[32m",
        Kind::Gbc => "\x1b[33m",
        Kind::Gac => "\x1b[35m",
    })
}

/// Splits a line into three parts at these two positions.
fn parts<'a>(line: &'a [u8], start: usize, end: usize, color: &'static str) -> Painted<'a>
    requires order { start ≤ end }
    requires within { end ≤ length line.now }
    ensures { result.before.now ++ result.middle.now ++ result.after.now ≡ line.now }
{
    let (before, rest) = line.split_at(start);
    let (middle, after) = rest.split_at(end - start);
    Painted {
        before,
        color,
        middle,
        after,
    }
}

/// Returns where the word with this number, from 0, begins and ends. Both are the end of the line
/// if there are fewer words. Single spaces separate words.
fn word_at(line: &[u8], number: usize) -> (usize, usize)
    ensures order { result.0 ≤ result.1 }
    ensures within { result.1 ≤ length line.now }
{
    let start = start_of(line, number);
    let rest = &line[start..];
    match rest.iter().position(|octet| *octet == b' ') {
        Some(size) => (start, start + size),
        None => (start, line.len()),
    }
}

/// Returns where the word with this number begins. The end of the line if there are fewer words.
fn start_of(line: &[u8], number: usize) -> usize
    ensures { result ≤ length line.now }
{
    let mut start = 0;
    for _ in 0..number {
        let rest = &line[start..];
        match rest.iter().position(|octet| *octet == b' ') {
            Some(size) => start += size + 1,
            None => return line.len(),
        }
    }
    start
}
