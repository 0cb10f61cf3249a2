//! Counting the failed calls of a reader.

ghost use Rattle.std.specs.Prelude.{◌≡◌, is_err};
ghost use Rattle.std.specs.Io.{ReadsAtMost};
ghost use Rattle.std.specs.Io.KnownBytes.{ReadConsumes};
ghost use Rattle.its_linkframe.specs.Devices.{counted_at_most};

use crate::counted::Counted;
use crate::source::Source;
use std::io;
use std::io::Read;

impl<T: Read> Read for Counted<T> {
    ghost remaining = { λ c. T.remaining c.device };

    fn read(&mut self, buf: &mut [u8]) -> io::Result<usize>
        ensures bound { ReadsAtMost result buf.new }
        ensures bytes { ReadConsumes (T.remaining self.old.device)
            (T.remaining self.new.device) result buf.new }
        ensures counts { self.new.failures ≡ counted_at_most self.old.failures (is_err result) }
    {
        let result = self.device.read(buf);
        if result.is_err() {
            self.failures = self.failures.saturating_add(1);
        }
        result
    }
}

impl<T: Read> Source for Counted<T> {
    ghost failed = { λ c. c.failures };

    fn failures(&self) -> u64 {
        self.failures
    }

    fn pull(&mut self, buf: &mut [u8]) -> Option<usize> {
        self.read(buf).ok()
    }
}
