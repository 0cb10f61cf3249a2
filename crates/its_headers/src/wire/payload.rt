//! The payload of a packet in its octets: a BTP-B header and what is sent to the port (EN 302
//! 636-5-1).

ghost use Rattle.std.specs.Prelude.{◌≡◌, ◌≤◌, ◌+◌, length, take, drop};
ghost use Rattle.its_headers.specs.Encoding.{IsBytes};
ghost use Rattle.its_formats.specs.Format.{Gives};
ghost use Rattle.its_headers.specs.Format.{octets_at};
ghost use Rattle.its_headers.specs.Puts.{Puts};

use crate::payload::Payload;
use crate::wire::fields::{check_octets, write_octets};
use crate::wire::octets::{Head, Octets};
use its_faults::Fault;

/// Checks that a payload of this length is there.
pub(crate) fn check_payload<H: Head>(
    octets: &Octets<'_, H>,
    at: usize,
    size: u16,
) -> Result<(), Fault>
    requires { at ≤ 56 }
    ensures { Gives (λ _. take size (drop at octets.now)) result
        (octets_at size at octets.now) }
{
    check_octets(octets, at, size as usize)
}

/// Writes the payload, and gives where it ends.
pub(crate) fn write_payload(out: &mut [u8], at: usize, payload: &Payload) -> usize
    requires { at + length payload.now ≤ length out.old }
    ensures puts { Puts out.old out.new at payload.now }
    ensures low { 4 ≤ length payload.now }
    ensures high { length payload.now ≤ 1398 }
    ensures bytes { IsBytes payload.now }
    ensures end { result ≡ at + length payload.now }
{
    let octets = payload.octets();
    write_octets(out, at, octets);
    at + octets.len()
}
