//! Readers and writers of any kind, as sources and sinks.

ghost use Rattle.std.specs.Prelude.{◌≡◌};

mod reads;
mod writes;

use std::marker::Model;

/// A reader or a writer with a count of its failed calls: each error, and each write of octets that
/// took none.
#[derive(Drop)]
pub struct Counted<T> {
    device: T,
    failures: u64,
}

impl<T> Model for Counted<T> {
    ghost use Rattle.its_linkframe.specs.Devices.{CountedDevice};

    ghost Value = { CountedDevice T };

    ghost view = { λ c. record { device = c.device; failures = c.failures } };
}

impl<T> Counted<T> {
    /// No call has failed yet.
    pub fn new(device: T) -> Counted<T>
        ensures { result ≡ record { device = device; failures = 0 } }
    {
        Counted {
            device,
            failures: 0,
        }
    }

    /// The reader or writer itself.
    pub fn into_inner(self) -> T
        ensures { result ≡ self.device }
    {
        self.device
    }
}
