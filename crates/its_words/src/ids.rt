//! The ids that files of moves use.

ghost use Rattle.std.specs.Prelude.{◌↔◌, ◌<◌, ℕ, IsTrue, length};
ghost use Rattle.its_words.specs.Ids.{IsControlAt, IsId};

use std::str;

/// The greatest length of an id, in octets.
const MOST_ID_OCTETS: usize = 64;

/// Returns whether octets are an id: 1 to 64 octets of UTF-8 without control characters (Unicode's
/// Cc).
pub fn is_id(octets: &[u8]) -> bool
    ensures { IsTrue result ↔ IsId octets.now }
{
    if octets.is_empty() || octets.len() > MOST_ID_OCTETS {
        return false;
    }
    str::from_utf8(octets).is_ok() && has_no_controls(octets)
}

/// Returns whether there is no control character (Unicode's Cc) in UTF-8.
fn has_no_controls(octets: &[u8]) -> bool
    ensures { IsTrue result ↔ ((place : ℕ) → place < length octets.now
        → ¬ IsControlAt octets.now place) }
{
    for place in 0..octets.len() {
        if is_control(octets, place) {
            return false;
        }
    }
    true
}

/// Returns whether a control character begins here: an octet below 20, 7F, or C2 before one below
/// A0.
fn is_control(octets: &[u8], place: usize) -> bool
    requires { place < length octets.now }
    ensures { IsTrue result ↔ IsControlAt octets.now place }
{
    let octet = octets[place];
    if octet != 0xc2 {
        return octet < 0x20 || octet == 0x7f;
    }
    match octets.get(place + 1) {
        Some(next) => *next < 0xa0,
        None => true,
    }
}
