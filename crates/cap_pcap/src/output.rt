//! Writes octets to a sink, up to its first call that fails.

ghost use Rattle.std.specs.Prelude.{◌≡◌, ◌-◌, ◌+◌, ◌^◌, ◌<◌, ◌↔◌, ◌||◌};
ghost use Rattle.std.specs.Prelude.{MatchOption, MatchResult, OnOk, IfErr, Err, IsTrue};
ghost use Rattle.std.specs.Prelude.{false, true, if◌then◌else◌};
ghost use Rattle.std.specs.Io.KnownBytes.{Appends};
ghost use Rattle.its_linkframe.specs.Devices.{counted, AppendsPrefix};
ghost use Rattle.cap_pcap.specs.Writing.{joined, is_io_failure, IsStartFault};
ghost use Rattle.cap_pcap.specs.declared.put_fault.PutFault.TheVariants as put_faults;

use crate::put_fault::PutFault;
use its_linkframe::{Sink, store};
use std::marker::Model;

/// A sink to which nothing more is written after one of its calls has failed.
#[derive(Drop)]
pub(crate) struct Output<W: Sink> {
    sink: W,
    failed: bool,
}

impl<W: Sink> Model for Output<W> {
    ghost use Rattle.std.specs.Prelude.{◌≡◌, ◌-◌, ◌^◌, ◌<◌, false};
    ghost use Rattle.cap_pcap.specs.Writing.{Writing};

    ghost Value = { Writing };

    ghost view = { λ w. record {
      failed = w.failed;
      contents = W.contents w.sink;
      failures = W.failed w.sink;
    } };

    ghost invariant = { λ w. w.failed ≡ false → W.failed w.sink < 2 ^ 64 - 1 };
}

impl<W: Sink> Output<W> {
    /// Nothing is written yet.
    pub(crate) fn new(sink: W) -> Output<W>
        requires { W.failed sink < 2 ^ 64 - 1 }
        ensures { result ≡ record {
          failed = false;
          contents = W.contents sink;
          failures = W.failed sink;
        } }
    {
        Output {
            sink,
            failed: false,
        }
    }

    /// Returns `Failed` if a call of the sink failed before.
    pub(crate) fn check(&self) -> Result<(), PutFault>
        ensures { MatchResult result (λ _. self.now.failed ≡ false)
            (λ f. (f ≡ put_faults.Failed) × (self.now.failed ≡ true)) }
    {
        if self.failed {
            return Err(PutFault::Failed);
        }
        Ok(())
    }

    /// Writes the parts, one after the other, or a prefix of them if a call of the sink fails.
    pub(crate) fn write(&mut self, parts: &[&[u8]]) -> Result<(), PutFault>
        ensures stored { OnOk result
            (Appends self.old.contents self.new.contents (joined parts.now)) }
        ensures fault { IfErr result (IsStartFault (joined parts.now) self.old self.new) }
        ensures counts { self.new.failures
            ≡ self.old.failures + (if is_io_failure result then 1 else 0) }
        ensures failed { (result ≡ Err put_faults.Failed) ↔ IsTrue self.old.failed }
        ensures breaks { self.new.failed ≡ (self.old.failed || is_io_failure result) }
    {
        if self.failed {
            return Err(PutFault::Failed);
        }
        if store_all(&mut self.sink, parts).is_none() {
            self.failed = true;
            return Err(PutFault::Io);
        }
        Ok(())
    }

    /// Returns the sink, with what was written.
    pub(crate) fn into_inner(self) -> W
        ensures contents { W.contents result ≡ self.contents }
        ensures failures { W.failed result ≡ self.failures }
    {
        self.sink
    }
}

/// Writes the parts, one after the other, or a prefix of them if a call fails.
fn store_all<S: Sink>(sink: &mut S, parts: &[&[u8]]) -> Option<()>
    requires { S.failed sink.old < 2 ^ 64 - 1 }
    ensures counts { S.failed sink.new ≡ counted (S.failed sink.old) result }
    ensures bytes { MatchOption result
        (AppendsPrefix (S.contents sink.old) (S.contents sink.new) (joined parts.now))
        (λ _. Appends (S.contents sink.old) (S.contents sink.new) (joined parts.now)) }
{
    for part in parts {
        store(sink, part)?;
    }
    Some(())
}
