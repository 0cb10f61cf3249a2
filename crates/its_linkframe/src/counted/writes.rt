//! Counting the failed calls of a writer.

ghost use Rattle.std.specs.Prelude.{◌≡◌, length, is_err};
ghost use Rattle.std.specs.Io.{WritesAtMost};
ghost use Rattle.std.specs.Io.KnownBytes.{Keeps, WriteAppends};
ghost use Rattle.its_linkframe.specs.Devices.{counted_at_most, is_failed_write};

use crate::counted::Counted;
use crate::sink::Sink;
use std::io;
use std::io::Write;

impl<T: Write> Write for Counted<T> {
    ghost contents = { λ c. T.contents c.device };

    fn write(&mut self, buf: &[u8]) -> io::Result<usize>
        ensures bound { WritesAtMost result buf.now }
        ensures bytes { WriteAppends (T.contents self.old.device)
            (T.contents self.new.device) result buf.now }
        ensures counts { self.new.failures
            ≡ counted_at_most self.old.failures (is_failed_write result (length buf.now)) }
    {
        let result = self.device.write(buf);
        let failed = match &result {
            Ok(n) => *n == 0 && !buf.is_empty(),
            Err(_) => true,
        };
        if failed {
            self.failures = self.failures.saturating_add(1);
        }
        result
    }

    fn flush(&mut self) -> io::Result<()>
        ensures bytes { Keeps (T.contents self.old.device) (T.contents self.new.device) }
        ensures counts { self.new.failures ≡ counted_at_most self.old.failures (is_err result) }
    {
        let result = self.device.flush();
        if result.is_err() {
            self.failures = self.failures.saturating_add(1);
        }
        result
    }
}

impl<T: Write> Sink for Counted<T> {
    ghost failed = { λ c. c.failures };

    fn failures(&self) -> u64 {
        self.failures
    }

    fn push(&mut self, buf: &[u8]) -> Option<usize> {
        match self.write(buf) {
            Ok(0) if !buf.is_empty() => None,
            answer => answer.ok(),
        }
    }
}
