//! The header of BTP-B (EN 302 636-5-1): the destination port and its info.

ghost use Rattle.std.specs.Prelude.{◌≡◌, ◌+◌, ◌<◌, ◌≤◌, ◌++◌};
ghost use Rattle.std.specs.Prelude.{length, drop, codes, IfOk, OnOk, OnErr, MatchResult};
ghost use Rattle.byteorder.specs.Endian.{big_number};
ghost use Rattle.its_btp.specs.Header.{joined};

use byteorder::{BigEndian, ByteOrder};
use its_gnvalue::NoRoom;
use std::error::Error;
use std::fmt;

/// How many octets the header has.
pub const HEADER_LENGTH: usize = 4;

/// B1: the octets are under four, too few for a header.
#[derive(Clone, Copy, Debug, PartialEq, Eq)]
pub struct Short;

impl Short {
    /// The code that logs show.
    pub fn code(self) -> &'static str
        ensures { result.now ≡ codes "B1" }
    {
        "B1"
    }
}

impl fmt::Display for Short {
    fn fmt<W: fmt::Write>(&self, f: &mut fmt::Formatter<W>) -> fmt::Result {
        write!(f, "too short for a BTP-B header")
    }
}

impl Error for Short {}

/// The destination port, its info, and what is sent to the port. `Short` (B1) exactly under four
/// octets.
pub fn split(octets: &[u8]) -> Result<(u16, u16, &[u8]), Short>
    ensures port { IfOk result (λ parts. parts.0 ≡ big_number 2 octets.now) }
    ensures info { IfOk result (λ parts. parts.1 ≡ big_number 2 (drop 2 octets.now)) }
    ensures payload { IfOk result (λ parts. parts.2.now ≡ drop 4 octets.now) }
    ensures short { MatchResult result (λ _. 4 ≤ length octets.now) (λ _. length octets.now < 4) }
{
    if octets.len() < HEADER_LENGTH {
        return Err(Short);
    }
    let port = BigEndian::read_u16(octets);
    let info = BigEndian::read_u16(&octets[2..]);
    Ok((port, info, &octets[HEADER_LENGTH..]))
}

/// Writes the header and the payload to the beginning of a slice, and returns how many octets that
/// took. `NoRoom` exactly where the slice is shorter than that; the slice is unchanged then, and on
/// success behind what was written.
pub fn join_into(port: u16, info: u16, payload: &[u8], out: &mut [u8]) -> Result<usize, NoRoom>
    ensures length { IfOk result (λ n. n ≡ 4 + length payload.now) }
    ensures joined { OnOk result
        (out.new ≡ joined port info payload.now ++ drop (4 + length payload.now) out.old) }
    ensures room { MatchResult result (λ _. 4 + length payload.now ≤ length out.old)
        (λ _. length out.old < 4 + length payload.now) }
    ensures unchanged { OnErr result (out.new ≡ out.old) }
{
    let length = HEADER_LENGTH + payload.len();
    if out.len() < length {
        return Err(NoRoom);
    }
    BigEndian::write_u16(out, port);
    BigEndian::write_u16(&mut out[2..], info);
    out[HEADER_LENGTH..length].copy_from_slice(payload);
    Ok(length)
}
