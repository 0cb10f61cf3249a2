//! Writers whose failed calls are counted.

ghost use Rattle.std.specs.Prelude.{◌≡◌, ℕ, ◌-◌, ◌^◌, ◌<◌, ◌≤◌, length, IfSome};
ghost use Rattle.its_linkframe.specs.Devices.{Pushes, counted};

use std::io::Write;

/// A writer that knows how many calls of its device failed.
pub trait Sink: Write {
    /// How many calls of the device failed so far.
    ghost failed: { Self → ℕ };

    /// How many calls of the device failed so far.
    fn failures(&self) -> u64
        ensures { result ≡ failed self.now };

    /// One write, and how many octets it took: one at least, unless it was given none. `None` is a
    /// failed call, which adds one to the count and is not tried again. The count has to be below
    /// 2^64 - 1.
    fn push(&mut self, buf: &[u8]) -> Option<usize>
        requires { failed self.old < 2 ^ 64 - 1 }
        ensures bound { IfSome result (λ n. n ≤ length buf.now) }
        ensures takes { IfSome result (λ n. 0 < length buf.now → 0 < n) }
        ensures counts { failed self.new ≡ counted (failed self.old) result }
        ensures bytes { Pushes (Self.contents self.old) (Self.contents self.new) result buf.now };
}
