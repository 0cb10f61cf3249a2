//! Reading a capture.

ghost use Rattle.std.specs.Prelude.{◌≡◌, ◌≢◌, ◌-◌, ◌+◌, ◌^◌, ◌<◌, ◌↔◌, ◌||◌, List, ℕ, length};
ghost use Rattle.std.specs.Prelude.{false};
ghost use Rattle.std.specs.Prelude.{◌≤◌, IfOk, IfErr, IfSome, IfNone, OnOk, IsTrue, is_err};
ghost use Rattle.std.specs.Prelude.{if◌then◌else◌, vec_capacity};
ghost use Rattle.std.specs.Io.KnownBytes.{Consumes};
ghost use Rattle.its_linkframe.specs.Captures.{Captured, IsCaptured, IsFrameLength, EncodesCapture};
ghost use Rattle.its_linkframe.specs.Captures.{head_octets, record_octets, captured, captured_at};
ghost use Rattle.its_linkframe.specs.Reading.{is_failed, is_ended, is_io, MeetsEnd, IsReadFault};
ghost use Rattle.its_linkframe.specs.Reading.{IsCutShort, ReadsFirst, ReadsFirstInto};

use crate::fields::{FRAME, LENGTH};
use crate::record::{CaptureFault, LONGEST_FRAME, Record};
use crate::source::Source;
use crate::transfer::fill;
use byteorder::{BigEndian, ByteOrder};
use std::alloc::Global;
use std::marker::Model;

/// How far a reader is.
#[derive(Clone, Copy, Debug, PartialEq, Eq)]
enum Stage {
    Reading,
    /// It met the end, and answers it again.
    Ended,
    /// It met a fault, and answers C5.
    Failed,
}

/// Reads the records of a capture, in order, from a source that gives its octets in pieces of any
/// size.
#[derive(Drop)]
pub struct CaptureReader<R: Source> {
    alloc: Global,
    source: R,
    stage: Stage,
}

impl<R: Source> Model for CaptureReader<R> {
    ghost use Rattle.std.specs.Prelude.{◌≡◌, ◌-◌, ◌^◌, ◌<◌, false, true};
    ghost use Rattle.std.specs.Io.KnownBytes.{IsAtEnd};
    ghost use Rattle.its_linkframe.specs.Reading.{Reading, is_failed, is_ended};

    ghost Value = { Reading };

    ghost view = { λ r. record {
      failed = is_failed r.stage;
      ended = is_ended r.stage;
      rest = R.remaining r.source;
      failures = R.failed r.source;
    } };

    ghost invariant = { λ r. (is_failed r.stage ≡ false → R.failed r.source < 2 ^ 64 - 1)
        × (is_ended r.stage ≡ true → IsAtEnd (R.remaining r.source)) };
}

impl<R: Source> CaptureReader<R> {
    /// A reader at the start of a capture, which takes memory for frames from `alloc`.
    pub fn new(alloc: Global, source: R) -> CaptureReader<R>
        requires { R.failed source < 2 ^ 64 - 1 }
        ensures { result ≡ record {
          failed = false;
          ended = false;
          rest = R.remaining source;
          failures = R.failed source;
        } }
    {
        CaptureReader {
            alloc,
            source,
            stage: Stage::Reading,
        }
    }

    /// The next record, or `None` at the end of the capture and from then on.
    ///
    /// A length is checked before any octet of its frame is read. After a fault each call answers
    /// C5.
    pub fn next(&mut self) -> Result<Option<Record>, CaptureFault>
        ensures record { IfOk result (λ found. IfSome found
            (λ r. IsCaptured (captured r)
            × Consumes self.old.rest self.new.rest (record_octets (captured r)))) }
        ensures end { IfOk result (λ found. IfNone found (MeetsEnd self.old.rest self.new.rest)) }
        ensures fault { IfErr result (IsReadFault self.old.rest self.new.rest) }
        ensures counts { self.new.failures ≡ self.old.failures + (if is_io result then 1 else 0) }

        // C5 comes exactly after a fault, and the end again after an end.
        ensures failed { (result ≡ Err CaptureFault.Failed) ↔ IsTrue self.old.failed }
        ensures breaks { self.new.failed ≡ is_err result }
        ensures ended { IsTrue self.old.ended → result ≡ Ok None }
        ensures ends { (result ≡ Ok None) ↔ IsTrue self.new.ended }
        ensures idle { IsTrue (self.old.failed || self.old.ended) → self.new ≡ self.old }

        // What was written as a capture is read again, however the source cuts it.
        ensures capture { (records : List Captured) (w : List ℕ) → self.old.failed ≡ false
            → self.old.rest ≡ Some w → EncodesCapture records w
            → ReadsFirst records self.new.rest result }
    {
        let mut frame = Vec::new(self.alloc);
        match self.next_into(&mut frame) {
            Ok(Some(moment)) => Ok(Some(Record { moment, frame })),
            Ok(None) => Ok(None),
            Err(fault) => Err(fault),
        }
    }

    /// Reads the next record as `next` does, and puts its frame into a buffer of the caller's in
    /// place of what is there; the moment is returned. Memory is taken only where the buffer has
    /// too little room: one with room for 1468 octets is enough for each frame. Where no record is
    /// returned the buffer holds some octets of no meaning.
    pub fn next_into(&mut self, frame: &mut Vec<u8>) -> Result<Option<u64>, CaptureFault>
        ensures record { IfOk result (λ found. IfSome found
            (λ moment. IsCaptured (captured_at moment frame.new.items)
            × Consumes self.old.rest self.new.rest
            (record_octets (captured_at moment frame.new.items)))) }
        ensures end { IfOk result (λ found. IfNone found (MeetsEnd self.old.rest self.new.rest)) }
        ensures fault { IfErr result (IsReadFault self.old.rest self.new.rest) }
        ensures counts { self.new.failures ≡ self.old.failures + (if is_io result then 1 else 0) }

        // C5 comes exactly after a fault, and the end again after an end.
        ensures failed { (result ≡ Err CaptureFault.Failed) ↔ IsTrue self.old.failed }
        ensures breaks { self.new.failed ≡ is_err result }
        ensures ended { IsTrue self.old.ended → result ≡ Ok None }
        ensures ends { (result ≡ Ok None) ↔ IsTrue self.new.ended }
        ensures idle { IsTrue (self.old.failed || self.old.ended) → self.new ≡ self.old }

        // A buffer with room for the longest frame is enough.
        ensures memory { LONGEST_FRAME ≤ vec_capacity frame.old
            → result ≢ Err CaptureFault.NoMemory }

        // What was written as a capture is read again, however the source cuts it.
        ensures capture { (records : List Captured) (w : List ℕ) → self.old.failed ≡ false
            → self.old.rest ≡ Some w → EncodesCapture records w
            → ReadsFirstInto records self.new.rest frame.new.items result }
    {
        match self.stage {
            Stage::Failed => return Err(CaptureFault::Failed),
            Stage::Ended => return Ok(None),
            Stage::Reading => {}
        }
        let result = read_record(&mut self.source, frame);
        self.stage = stage_after(&result);
        result
    }

    /// The source, with what it has left.
    pub fn into_inner(self) -> R
        ensures rest { R.remaining result ≡ self.rest }
        ensures failures { R.failed result ≡ self.failures }
    {
        self.source
    }
}

fn stage_after(answer: &Result<Option<u64>, CaptureFault>) -> Stage
    ensures failed { is_failed result ≡ is_err answer.now }
    ensures ended { IsTrue (is_ended result) ↔ (answer.now ≡ Ok None) }
{
    match answer {
        Ok(Some(_)) => Stage::Reading,
        Ok(None) => Stage::Ended,
        Err(_) => Stage::Failed,
    }
}

/// A record, of which the frame goes into the buffer, or nothing at the end.
fn read_record<S: Source>(source: &mut S, frame: &mut Vec<u8>) -> Result<Option<u64>, CaptureFault>
    requires { S.failed source.old < 2 ^ 64 - 1 }
    ensures record { IfOk result
        (λ found. IfSome found (λ moment. IsCaptured (captured_at moment frame.new.items)
        × Consumes (S.remaining source.old) (S.remaining source.new)
        (record_octets (captured_at moment frame.new.items)))) }
    ensures end { IfOk result (λ found. IfNone found
        (MeetsEnd (S.remaining source.old) (S.remaining source.new))) }
    ensures fault { IfErr result (IsReadFault (S.remaining source.old) (S.remaining source.new)) }
    ensures counts { S.failed source.new ≡ S.failed source.old + (if is_io result then 1 else 0) }
    ensures first { result ≢ Err CaptureFault.Failed }
    ensures memory { LONGEST_FRAME ≤ vec_capacity frame.old → result ≢ Err CaptureFault.NoMemory }
{
    let Some((moment, size)) = read_head(source)? else {
        return Ok(None);
    };
    read_octets(source, size, frame)?;
    Ok(Some(moment))
}

/// The moment and the length of a record, or nothing at the end.
fn read_head<S: Source>(source: &mut S) -> Result<Option<(u64, usize)>, CaptureFault>
    requires { S.failed source.old < 2 ^ 64 - 1 }
    ensures head { IfOk result (λ found. IfSome found
        (λ head. (head.0 < 2 ^ 64) × IsFrameLength head.1
        × Consumes (S.remaining source.old) (S.remaining source.new) (head_octets head.0 head.1))) }
    ensures end { IfOk result (λ found. IfNone found
        (MeetsEnd (S.remaining source.old) (S.remaining source.new))) }
    ensures fault { IfErr result (IsReadFault (S.remaining source.old) (S.remaining source.new)) }
    ensures counts { S.failed source.new ≡ S.failed source.old + (if is_io result then 1 else 0) }
    ensures first { result ≢ Err CaptureFault.Failed }
    ensures memory { result ≢ Err CaptureFault.NoMemory }
{
    let mut head = [0; FRAME];
    let Some(n) = fill(source, &mut head) else {
        return Err(CaptureFault::Io);
    };
    if n == 0 {
        return Ok(None);
    }
    if n < head.len() {
        return Err(CaptureFault::CutRecord);
    }
    let (moment, size) = head_of(&head);
    let size = size as usize;
    if size == 0 || size > LONGEST_FRAME {
        return Err(CaptureFault::Length);
    }
    Ok(Some((moment, size)))
}

fn head_of(head: &[u8; FRAME]) -> (u64, u16)
    ensures { head.now ≡ head_octets result.0 result.1 }
{
    (
        BigEndian::read_u64(head),
        BigEndian::read_u16(&head[LENGTH..]),
    )
}

/// That many octets, in place of what the buffer had; one allocation where it has too little room.
fn read_octets<S: Source>(
    source: &mut S,
    size: usize,
    octets: &mut Vec<u8>,
) -> Result<(), CaptureFault>
    requires { S.failed source.old < 2 ^ 64 - 1 }
    ensures octets { OnOk result ((length octets.new.items ≡ size)
        × Consumes (S.remaining source.old) (S.remaining source.new) octets.new.items) }
    ensures fault { IfErr result
        (IsCutShort size (S.remaining source.old) (S.remaining source.new)) }
    ensures counts { S.failed source.new ≡ S.failed source.old + (if is_io result then 1 else 0) }
    ensures memory { size ≤ vec_capacity octets.old → result ≢ Err CaptureFault.NoMemory }
{
    if octets.resize(size, 0).is_err() {
        return Err(CaptureFault::NoMemory);
    }
    match fill(source, octets.as_mut_slice()) {
        None => Err(CaptureFault::Io),
        Some(n) if n < size => Err(CaptureFault::CutRecord),
        Some(_) => Ok(()),
    }
}
