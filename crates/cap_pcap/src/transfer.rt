//! Reads whole buffers, and skips counts of octets. The file may end inside them, and a call of its
//! device may fail.

ghost use Rattle.std.specs.Prelude.{◌≡◌, ◌-◌, ◌+◌, ◌^◌, ◌<◌, ◌≤◌, ◌++◌, length, take};
ghost use Rattle.std.specs.Prelude.{MatchOption, OnOk, IfErr};
ghost use Rattle.std.specs.Prelude.{IfSome, IfNone, Err, min, vec_capacity, ◌≢◌, if◌then◌else◌};
ghost use Rattle.std.specs.Io.KnownBytes.{Consumes, Appends, IsAtEnd};
ghost use Rattle.its_linkframe.specs.Devices.{counted, ConsumesPrefix, AppendsPrefix};
ghost use Rattle.its_linkframe.specs.declared.record.CaptureFault.TheVariants as captures;
ghost use Rattle.cap_pcap.specs.declared.fault.SourceFault.TheVariants as faults;
ghost use Rattle.cap_pcap.specs.Reading.{is_io, IsCutShort, Passes, IsFrameFault, GivesFrame};

use crate::fault::SourceFault;
use its_linkframe::{CaptureFault, Source, fill};

/// How many octets one read skips at most.
const PIECE: usize = 512;

/// Reads octets until the buffer is full. P1 if the input ends before, C3 if a call fails.
pub(crate) fn read_exact<S: Source>(source: &mut S, buf: &mut [u8]) -> Result<(), SourceFault>
    requires { S.failed source.old < 2 ^ 64 - 1 }
    ensures octets { OnOk result
        (Consumes (S.remaining source.old) (S.remaining source.new) buf.new) }
    ensures fault { IfErr result
        (IsCutShort (length buf.old) (S.remaining source.old) (S.remaining source.new)) }
    ensures counts { S.failed source.new ≡ S.failed source.old + (if is_io result then 1 else 0) }
    ensures memory { result ≢ Err (faults.Capture captures.NoMemory) }
{
    match fill(source, buf) {
        None => Err(SourceFault::Capture(CaptureFault::Io)),
        Some(n) if n < buf.len() => Err(SourceFault::CutFile),
        Some(_) => Ok(()),
    }
}

/// Skips `count` octets. P1 if the input ends before, C3 if a call fails.
pub(crate) fn skip<S: Source>(source: &mut S, count: usize) -> Result<(), SourceFault>
    requires { S.failed source.old < 2 ^ 64 - 1 }
    ensures octets { OnOk result
        (Passes count (S.remaining source.old) (S.remaining source.new)) }
    ensures fault { IfErr result
        (IsCutShort count (S.remaining source.old) (S.remaining source.new)) }
    ensures counts { S.failed source.new ≡ S.failed source.old + (if is_io result then 1 else 0) }
    ensures memory { result ≢ Err (faults.Capture captures.NoMemory) }
{
    if count == 0 {
        return Ok(());
    }
    skip_pieces(source, count)
}

/// Skips at least one octet, in pieces. It is a function of its own because its buffer is cleared
/// at each call, which `skip` spares if there is nothing to skip.
fn skip_pieces<S: Source>(source: &mut S, count: usize) -> Result<(), SourceFault>
    requires { S.failed source.old < 2 ^ 64 - 1 }
    ensures octets { OnOk result
        (Passes count (S.remaining source.old) (S.remaining source.new)) }
    ensures fault { IfErr result
        (IsCutShort count (S.remaining source.old) (S.remaining source.new)) }
    ensures counts { S.failed source.new ≡ S.failed source.old + (if is_io result then 1 else 0) }
    ensures memory { result ≢ Err (faults.Capture captures.NoMemory) }
{
    let mut piece = [0; PIECE];
    let mut left = count;
    while left > 0 {
        let size = left.min(PIECE);
        read_exact(source, &mut piece[..size])?;
        left -= size;
    }
    Ok(())
}

/// Reads the frame of a record, which has `captured` octets. At most the first `keep` octets
/// replace the content of the buffer, and the others are skipped. It allocates once if the buffer
/// is too small.
pub(crate) fn read_record_octets<S: Source>(
    source: &mut S,
    captured: usize,
    keep: usize,
    frame: &mut Vec<u8>,
) -> Result<(), SourceFault>
    requires { S.failed source.old < 2 ^ 64 - 1 }
    ensures frame { OnOk result (GivesFrame captured keep frame.new.items
        (S.remaining source.old) (S.remaining source.new)) }
    ensures fault { IfErr result
        (IsFrameFault captured (S.remaining source.old) (S.remaining source.new)) }
    ensures counts { S.failed source.new ≡ S.failed source.old + (if is_io result then 1 else 0) }
    ensures memory { keep ≤ vec_capacity frame.old
        → result ≢ Err (faults.Capture captures.NoMemory) }
{
    let kept = captured.min(keep);
    if frame.resize(kept, 0).is_err() {
        return Err(SourceFault::Capture(CaptureFault::NoMemory));
    }
    read_exact(source, frame.as_mut_slice())?;
    skip(source, captured - kept)
}
