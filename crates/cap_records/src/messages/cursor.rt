//! The parts of a message: octets, numbers and lengths at their positions.

ghost use Rattle.std.specs.Prelude.{◌≡◌, ◌≤◌, ◌+◌, ◌<◌, ◌^◌, ◌==◌, IfOk, length, nat_lt, take, drop};
ghost use Rattle.its_formats.specs.Format.{Gives};
ghost use Rattle.cap_records.specs.declared.messages.fault.MessageFault.TheVariants.{Octet, Short};
ghost use Rattle.cap_records.specs.Messages.{data_format, length_format, octet_that, walk};
ghost use Rattle.cap_records.specs.Messages.{number_at as number_read, octets_at as octets_read};

use crate::messages::fault::MessageFault;
use byteorder::{BigEndian, ByteOrder};

/// Where the message begins in a packet: after its Basic Header.
const MESSAGE: usize = 4;

/// The first octets of a length of one octet, and of two.
const ONE_OCTET: u8 = 0x81;

const TWO_OCTETS: u8 = 0x82;

/// Returns E2: the packet ends too early.
pub(crate) fn short(message: &[u8]) -> MessageFault
    ensures { result ≡ Short (length message.now + 4) }
{
    MessageFault::Short(MESSAGE + message.len())
}

/// Returns E1 at an octet of the message.
pub(crate) fn unread(at: usize) -> MessageFault
    requires { at < 2 ^ 63 }
    ensures { result ≡ Octet (at + 4) }
{
    MessageFault::Octet(MESSAGE + at)
}

/// Reads the number of `count` octets at a position. E2 if the packet ends before.
#[tactic(auto, unfolding(its_formats::specs::Format::number_at))]
pub(crate) fn number_at(message: &[u8], at: usize, count: usize) -> Result<u64, MessageFault>
    requires some { 1 ≤ count }
    requires few { count ≤ 8 }
    ensures reading { result ≡ number_read count at message.now }
    ensures here { IfOk result (λ _. at + count ≤ length message.now) }
{
    if message.len().saturating_sub(at) < count {
        return Err(short(message));
    }
    Ok(BigEndian::read_uint(&message[at..], count))
}

/// Checks the octet at a position, which has to be this one. E1 if it is another octet, E2 if the
/// packet ends before.
#[tactic(auto, unfolding(crate::specs::Messages::octet_that))]
pub(crate) fn check_octet(message: &[u8], at: usize, wanted: u8) -> Result<(), MessageFault>
    ensures reading { Gives (λ _. (tt, at + 1)) result
        (walk (octet_that λ octet. octet == wanted) at message.now) }
    ensures here { IfOk result (λ _. at + 1 ≤ length message.now) }
{
    let octet = number_at(message, at, 1)?;
    if octet != u64::from(wanted) {
        return Err(unread(at));
    }
    Ok(())
}

/// Checks the octet at a position, which has to be below a limit. E1 if it is not, E2 if the packet
/// ends before.
#[tactic(auto, unfolding(crate::specs::Messages::octet_that))]
pub(crate) fn check_below(message: &[u8], at: usize, limit: u8) -> Result<(), MessageFault>
    ensures reading { Gives (λ _. (tt, at + 1)) result
        (walk (octet_that λ octet. nat_lt octet limit) at message.now) }
    ensures here { IfOk result (λ _. at + 1 ≤ length message.now) }
{
    let octet = number_at(message, at, 1)?;
    if octet >= u64::from(limit) {
        return Err(unread(at));
    }
    Ok(())
}

/// Reads a length at a position, and returns how many octets it takes with its value. E1 if its
/// first octet begins no length, E2 if the packet ends before.
#[tactic(auto, unfolding(crate::specs::Messages::length_format))]
fn length_at(message: &[u8], at: usize) -> Result<(usize, usize), MessageFault>
    ensures reading { Gives (λ found. (found, at + found.0)) result
        (walk length_format at message.now) }
    ensures some { IfOk result (λ found. 1 ≤ found.0) }
    ensures here { IfOk result (λ found. at + found.0 ≤ length message.now) }
{
    let first = number_at(message, at, 1)?;
    if first < 128 {
        Ok((1, first as usize))
    } else if first == u64::from(ONE_OCTET) {
        let count = number_at(message, at + 1, 1)?;
        Ok((2, count as usize))
    } else if first == u64::from(TWO_OCTETS) {
        let count = number_at(message, at + 1, 2)?;
        Ok((3, count as usize))
    } else {
        Err(unread(at))
    }
}

/// Returns the `count` octets at a position. E2 if the packet ends before.
#[tactic(auto, unfolding(its_formats::specs::Format::octets_at))]
fn octets_at(message: &[u8], at: usize, count: usize) -> Result<&[u8], MessageFault>
    requires { at ≤ length message.now }
    ensures reading { Gives (λ octets. octets.now) result (octets_read count at message.now) }
    ensures octets { IfOk result (λ octets. octets.now ≡ take count (drop at message.now)) }
    ensures count { IfOk result (λ octets. length octets.now ≡ count) }
    ensures here { IfOk result (λ _. at + count ≤ length message.now) }
{
    if message.len() - at < count {
        return Err(short(message));
    }
    Ok(&message[at..at + count])
}

/// Reads a length at a position and the octets after it, and returns how many octets the length
/// takes with these. The faults are those of `length_at` and `octets_at`.
#[tactic(auto, unfolding(crate::specs::Messages::data_format), using(its_formats::proofs::Walks::walk_after))]
pub(crate) fn data_at(message: &[u8], at: usize) -> Result<(usize, &[u8]), MessageFault>
    ensures reading { Gives (λ found. ((found.0, found.1.now), at + found.0 + length found.1.now))
        result (walk data_format at message.now) }
    ensures octets { IfOk result (λ found.
        found.1.now ≡ take (length found.1.now) (drop (at + found.0) message.now)) }
    ensures some { IfOk result (λ found. 1 ≤ found.0) }
    ensures here { IfOk result (λ found. at + found.0 + length found.1.now ≤ length message.now) }
{
    let (size, count) = length_at(message, at)?;
    let octets = octets_at(message, at + size, count)?;
    Ok((size, octets))
}
