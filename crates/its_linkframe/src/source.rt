//! Readers whose failed calls are counted.

ghost use Rattle.std.specs.Prelude.{◌≡◌, ℕ, ◌-◌, ◌^◌, ◌<◌, ◌≤◌, length, IfSome};
ghost use Rattle.its_linkframe.specs.Devices.{Pulls, counted};

use std::io::Read;

/// A reader that knows how many calls of its device failed.
pub trait Source: Read {
    /// How many calls of the device failed so far.
    ghost failed: { Self → ℕ };

    /// How many calls of the device failed so far.
    fn failures(&self) -> u64
        ensures { result ≡ failed self.now };

    /// One read, and how many octets it gave: 0 at the end, or where there is no room for one.
    /// `None` is a failed call, which adds one to the count and is not tried again. The count
    /// has to be below 2^64 - 1.
    fn pull(&mut self, buf: &mut [u8]) -> Option<usize>
        requires { failed self.old < 2 ^ 64 - 1 }
        ensures bound { IfSome result (λ n. n ≤ length buf.new) }
        ensures counts { failed self.new ≡ counted (failed self.old) result }
        ensures bytes { Pulls (Self.remaining self.old) (Self.remaining self.new) result buf.new };
}
