//! Reading a number of a packet. Numbers of several octets go highest octet first.

ghost use Rattle.std.specs.Prelude.{◌≡◌, ◌<◌, ◌+◌, ◌^◌, length, take, drop};
ghost use Rattle.its_formats.specs.Format.{Gives};
ghost use Rattle.its_headers.specs.Format.{number_at, octets_at};

use byteorder::{BigEndian, ByteOrder};
use its_faults::{Fault, FaultKind};

/// A fault of the field that begins at this octet.
pub(crate) fn fault(at: usize, kind: FaultKind) -> Fault
    ensures { result ≡ record { at = at; kind = kind } }
{
    Fault { at, kind }
}

/// G1: the octets end before or in a field.
fn truncated(octets: &[u8]) -> Fault
    ensures { result ≡ record { at = length octets.now; kind = FaultKind.Truncated } }
{
    fault(octets.len(), FaultKind::Truncated)
}

/// The octet at a place, or G1.
#[tactic(auto, unfolding(its_formats::specs::Format::number_at))]
pub(crate) fn octet_at(octets: &[u8], at: usize) -> Result<u8, Fault>
    requires { at < 2 ^ 32 }
    ensures { Gives (λ x. x) result (number_at 1 at octets.now) }
{
    if octets.len() < at + 1 {
        return Err(truncated(octets));
    }
    Ok(octets[at..][0])
}

/// The number of two octets at a place, or G1.
#[tactic(auto, unfolding(its_formats::specs::Format::number_at))]
pub(crate) fn u16_at(octets: &[u8], at: usize) -> Result<u16, Fault>
    requires { at < 2 ^ 32 }
    ensures { Gives (λ x. x) result (number_at 2 at octets.now) }
{
    if octets.len() < at + 2 {
        return Err(truncated(octets));
    }
    Ok(BigEndian::read_u16(&octets[at..]))
}

/// The number of four octets at a place, or G1.
#[tactic(auto, unfolding(its_formats::specs::Format::number_at))]
pub(crate) fn u32_at(octets: &[u8], at: usize) -> Result<u32, Fault>
    requires { at < 2 ^ 32 }
    ensures { Gives (λ x. x) result (number_at 4 at octets.now) }
{
    if octets.len() < at + 4 {
        return Err(truncated(octets));
    }
    Ok(BigEndian::read_u32(&octets[at..]))
}

/// The number of eight octets at a place, or G1.
#[tactic(auto, unfolding(its_formats::specs::Format::number_at))]
pub(crate) fn u64_at(octets: &[u8], at: usize) -> Result<u64, Fault>
    requires { at < 2 ^ 32 }
    ensures { Gives (λ x. x) result (number_at 8 at octets.now) }
{
    if octets.len() < at + 8 {
        return Err(truncated(octets));
    }
    Ok(BigEndian::read_u64(&octets[at..]))
}

/// So many octets at a place, or G1.
#[tactic(auto, unfolding(its_formats::specs::Format::octets_at))]
pub(crate) fn octets_at(octets: &[u8], at: usize, count: usize) -> Result<&[u8], Fault>
    requires { at + count < 2 ^ 32 }
    ensures { Gives (λ x. x.now) result (octets_at count at octets.now) }
{
    if octets.len() < at + count {
        return Err(truncated(octets));
    }
    Ok(&octets[at..][..count])
}
