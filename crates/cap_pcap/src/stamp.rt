//! The time of a record as a file has it.

ghost use Rattle.std.specs.Prelude.{◌≡◌};
ghost use Rattle.cap_pcap.specs.Stamps.{stamp_of, stamp_in};

use crate::pcap::Unit;
use crate::record::RecordHeader;

/// The time of a record as each format has it.
#[derive(Clone, Copy, Debug, PartialEq, Eq)]
pub struct Stamp {
    /// In milliseconds: the time in a capture, and the whole seconds in classic pcap.
    pub moment: u64,
    /// What classic pcap has below the second, in the unit of the file.
    pub fraction: u32,
    /// What pcapng has, in ticks of the record's interface. `None` for a packet without a time
    /// stamp, whose time is 0.
    pub ticks: Option<u64>,
}

impl Stamp {
    /// Returns the stamp of a time in milliseconds, for a file in microseconds and an interface
    /// whose ticks are milliseconds.
    pub fn of_millis(moment: u64) -> Stamp
        ensures { result ≡ stamp_of moment }
    {
        Stamp {
            moment,
            fraction: (moment % 1000) as u32 * 1000,
            ticks: Some(moment),
        }
    }
}

impl RecordHeader {
    /// Returns the stamp of the record for a classic pcap file in this unit, or for an interface
    /// whose ticks are those of the record's own. What is finer than the unit is cut.
    pub fn stamp(&self, unit: Unit) -> Stamp
        ensures { result ≡ stamp_in unit self.now }
    {
        let millis = (self.moment % 1000) as u32;
        let nanos = self.fine.nanos % 1_000_000;
        let fraction = match unit {
            Unit::Micro => millis * 1000 + nanos / 1000,
            Unit::Nano => millis * 1_000_000 + nanos,
        };
        Stamp {
            moment: self.moment,
            fraction,
            ticks: self.fine.ticks,
        }
    }
}
