//! Fields of a file that is read. Each is checked before any octet after it is read.

ghost use Rattle.std.specs.Prelude.{◌≡◌, ◌≢◌, ◌-◌, ◌+◌, ◌*◌, ◌^◌, ◌<◌, ◌≤◌, ◌↔◌, IsTrue, IfOk};
ghost use Rattle.std.specs.Prelude.{if◌then◌else◌, Err};
ghost use Rattle.cap_pcap.specs.Blocks.{IsBlockLength, block_length, closing};
ghost use Rattle.cap_pcap.specs.Layouts.{IsAnswerOf, number};
ghost use Rattle.cap_pcap.specs.Reading.{is_io};
ghost use Rattle.its_linkframe.specs.declared.record.CaptureFault.TheVariants as captures;
ghost use Rattle.cap_pcap.specs.declared.fault.SourceFault.TheVariants as faults;

use crate::fault::SourceFault;
use crate::octets::{Endianness, u16_at, u32_at};
use crate::transfer::{read_exact, skip};
use its_linkframe::Source;

/// The most octets of a block.
pub(crate) const LONGEST_BLOCK: u32 = 327_680;

/// The next number of 32 bits.
pub(crate) fn read_u32<S: Source>(source: &mut S, order: Endianness) -> Result<u32, SourceFault>
    requires { S.failed source.old < 2 ^ 64 - 1 }
    ensures answer { IsAnswerOf (number order 4) (S.remaining source.old) (S.remaining source.new)
        result }
    ensures counts { S.failed source.new ≡ S.failed source.old + (if is_io result then 1 else 0) }
    ensures memory { result ≢ Err (faults.Capture captures.NoMemory) }
{
    let mut octets = [0; 4];
    read_exact(source, &mut octets)?;
    Ok(u32_at(order, &octets, 0))
}

/// The next number of 16 bits.
pub(crate) fn read_u16<S: Source>(source: &mut S, order: Endianness) -> Result<u16, SourceFault>
    requires { S.failed source.old < 2 ^ 64 - 1 }
    ensures answer { IsAnswerOf (number order 2) (S.remaining source.old) (S.remaining source.new)
        result }
    ensures counts { S.failed source.new ≡ S.failed source.old + (if is_io result then 1 else 0) }
    ensures memory { result ≢ Err (faults.Capture captures.NoMemory) }
{
    let mut octets = [0; 2];
    read_exact(source, &mut octets)?;
    Ok(u16_at(order, &octets, 0))
}

/// Whether a block may have this length, if blocks of its type have at least `least` octets.
pub(crate) fn is_block_length(length: u32, least: u32) -> bool
    ensures { IsTrue result ↔ IsBlockLength least length }
{
    length % 4 == 0 && length <= LONGEST_BLOCK && length >= least
}

/// Reads the length of a block, whose type has at least `least` octets. P2 if it can't be one.
pub(crate) fn block_length<S: Source>(
    source: &mut S,
    order: Endianness,
    least: u32,
) -> Result<u32, SourceFault>
    requires { S.failed source.old < 2 ^ 64 - 1 }
    ensures answer { IsAnswerOf (block_length order least) (S.remaining source.old)
        (S.remaining source.new) result }
    ensures fits { IfOk result (λ n. (least ≤ n) × (n ≤ LONGEST_BLOCK)) }
    ensures counts { S.failed source.new ≡ S.failed source.old + (if is_io result then 1 else 0) }
    ensures memory { result ≢ Err (faults.Capture captures.NoMemory) }
{
    let length = read_u32(source, order)?;
    if !is_block_length(length, least) {
        return Err(SourceFault::Malformed);
    }
    Ok(length)
}

/// Skips the rest of a block, and reads its length, which is repeated at its end. P2 if the two
/// lengths differ.
pub(crate) fn end_block<S: Source>(
    source: &mut S,
    order: Endianness,
    rest: usize,
    length: u32,
) -> Result<(), SourceFault>
    requires { S.failed source.old < 2 ^ 64 - 1 }
    ensures answer { IsAnswerOf (closing order rest length) (S.remaining source.old)
        (S.remaining source.new) result }
    ensures counts { S.failed source.new ≡ S.failed source.old + (if is_io result then 1 else 0) }
    ensures memory { result ≢ Err (faults.Capture captures.NoMemory) }
{
    skip(source, rest)?;
    let last = read_u32(source, order)?;
    if last != length {
        return Err(SourceFault::Malformed);
    }
    Ok(())
}
