//! Writing a capture.

ghost use Rattle.std.specs.Prelude.{◌≡◌, ◌-◌, ◌+◌, ◌^◌, ◌<◌, ◌↔◌, ◌||◌, List, ℕ, length, false};
ghost use Rattle.std.specs.Prelude.{MatchOption, OnOk, IfErr, IsTrue, if◌then◌else◌};
ghost use Rattle.std.specs.Io.KnownBytes.{Appends};
ghost use Rattle.its_linkframe.specs.Captures.{Captured, IsFrameLength, captured_at, head_octets};
ghost use Rattle.its_linkframe.specs.Captures.{record_octets};
ghost use Rattle.its_linkframe.specs.Devices.{counted, AppendsPrefix};
ghost use Rattle.its_linkframe.specs.Reading.{is_io};
ghost use Rattle.its_linkframe.specs.Writing.{IsWriteFault, HoldsCapture, HoldsAfter};

use crate::fields::{FRAME, LENGTH};
use crate::record::{CaptureFault, LONGEST_FRAME};
use crate::sink::Sink;
use crate::transfer::store;
use byteorder::{BigEndian, ByteOrder};
use std::marker::Model;

/// Writes the records of a capture, one after the other. It takes no memory.
#[derive(Drop)]
pub struct CaptureWriter<W: Sink> {
    sink: W,
    failed: bool,
}

impl<W: Sink> Model for CaptureWriter<W> {
    ghost use Rattle.std.specs.Prelude.{◌≡◌, ◌-◌, ◌^◌, ◌<◌, false};
    ghost use Rattle.its_linkframe.specs.Writing.{Writing};

    ghost Value = { Writing };

    ghost view = { λ w. record {
      failed = w.failed;
      contents = W.contents w.sink;
      failures = W.failed w.sink;
    } };

    ghost invariant = { λ w. w.failed ≡ false → W.failed w.sink < 2 ^ 64 - 1 };
}

impl<W: Sink> CaptureWriter<W> {
    /// A writer of a capture behind what the sink has.
    pub fn new(sink: W) -> CaptureWriter<W>
        requires { W.failed sink < 2 ^ 64 - 1 }
        ensures { result ≡ record {
          failed = false;
          contents = W.contents sink;
          failures = W.failed sink;
        } }
    {
        CaptureWriter {
            sink,
            failed: false,
        }
    }

    /// Writes a record: the moment is in milliseconds, the frame's content is not checked.
    ///
    /// C2 where the frame has no octet or over 1468: nothing is written, and the writer stays good.
    /// C3 where a call of the device failed: the sink has a prefix of the record, and each later
    /// call answers C5.
    pub fn put(&mut self, moment: u64, frame: &[u8]) -> Result<(), CaptureFault>
        ensures stored { OnOk result (IsFrameLength (length frame.now)
            × Appends self.old.contents self.new.contents
            (record_octets (captured_at moment frame.now))) }
        ensures fault { IfErr result
            (IsWriteFault (captured_at moment frame.now) self.old self.new) }
        ensures counts { self.new.failures ≡ self.old.failures + (if is_io result then 1 else 0) }

        // C5 comes exactly after C3.
        ensures failed { (result ≡ Err CaptureFault.Failed) ↔ IsTrue self.old.failed }
        ensures breaks { self.new.failed ≡ (self.old.failed || is_io result) }

        // What the sink has is always a prefix of the capture of all records that were put.
        ensures capture { (before : List ℕ) (records : List Captured)
            → HoldsCapture before records self.old.contents
            → HoldsAfter before records (captured_at moment frame.now) self.new.contents result }
    {
        if self.failed {
            return Err(CaptureFault::Failed);
        }
        if frame.is_empty() || frame.len() > LONGEST_FRAME {
            return Err(CaptureFault::Length);
        }
        match store_record(&mut self.sink, moment, frame) {
            Some(()) => Ok(()),
            None => {
                self.failed = true;
                Err(CaptureFault::Io)
            }
        }
    }

    /// The sink, with what it has.
    pub fn into_inner(self) -> W
        ensures contents { W.contents result ≡ self.contents }
        ensures failures { W.failed result ≡ self.failures }
    {
        self.sink
    }
}

/// Writes a whole record, or a prefix of it where a call fails.
fn store_record<S: Sink>(sink: &mut S, moment: u64, frame: &[u8]) -> Option<()>
    requires ready { S.failed sink.old < 2 ^ 64 - 1 }
    requires fits { length frame.now < 2 ^ 16 }
    ensures counts { S.failed sink.new ≡ counted (S.failed sink.old) result }
    ensures octets { MatchOption result
        (AppendsPrefix (S.contents sink.old) (S.contents sink.new)
        (record_octets (captured_at moment frame.now)))
        (λ _. Appends (S.contents sink.old) (S.contents sink.new)
        (record_octets (captured_at moment frame.now))) }
{
    store(sink, &head_for(moment, frame.len() as u16))?;
    store(sink, frame)
}

fn head_for(moment: u64, size: u16) -> [u8; FRAME]
    ensures { result ≡ head_octets moment size }
{
    let mut head = [0; FRAME];
    BigEndian::write_u64(&mut head, moment);
    BigEndian::write_u16(&mut head[LENGTH..], size);
    head
}
