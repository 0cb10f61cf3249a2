//! What is lost because the format of the written file can't hold it.

use cap_pcap::{FineTime, Format, Unit};
use std::io::Write;

/// How many times were cut, to what, and how many interfaces were joined.
#[derive(Clone, Copy, Debug, PartialEq, Eq)]
pub(crate) struct Losses {
    times: u64,
    /// The unit of the file's times.
    step: &'static str,
    interfaces: u64,
}

impl Losses {
    /// Returns the counts before the first record.
    pub(crate) fn begin() -> Losses {
        Losses {
            times: 0,
            step: "",
            interfaces: 0,
        }
    }

    /// Counts an interface of the file that is read, if the format has none.
    pub(crate) fn add_interface(&mut self, format: Format) {
        if format != Format::Pcapng {
            self.interfaces = self.interfaces.saturating_add(1);
        }
    }

    /// Counts a time that is written, if a part of it is lost.
    pub(crate) fn add_time(&mut self, format: Format, unit: Unit, fine: &FineTime) {
        if is_cut(format, unit, fine) {
            self.times = self.times.saturating_add(1);
            self.step = step_of(format, unit);
        }
    }

    /// Reports to standard error what was lost.
    pub(crate) fn report<E: Write>(self, err: &mut E) {
        if self.times > 0 {
            let (times, step) = (self.times, self.step);
            let noun = if times == 1 { "time" } else { "times" };
            let _ = writeln!(err, "geostation: {times} {noun} cut to {step}");
        }
        if self.interfaces > 1 {
            let _ = writeln!(err, "geostation: {} interfaces joined", self.interfaces);
        }
    }
}

/// Whether a part of this time is lost in a file of this format and unit. pcapng keeps ticks.
fn is_cut(format: Format, unit: Unit, fine: &FineTime) -> bool {
    match (format, unit) {
        (Format::Capture, _) => fine.finer || fine.nanos > 0,
        (Format::Pcap, Unit::Micro) => fine.finer || fine.nanos % 1000 > 0,
        (Format::Pcap, Unit::Nano) => fine.finer,
        (Format::Pcapng, _) => false,
    }
}

/// Returns the unit of a file's times.
fn step_of(format: Format, unit: Unit) -> &'static str {
    match (format, unit) {
        (Format::Pcap, Unit::Micro) => "microseconds",
        (Format::Pcap, Unit::Nano) => "nanoseconds",
        _ => "milliseconds",
    }
}
