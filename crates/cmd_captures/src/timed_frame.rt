//! A frame with its time, from a line of `import`, and the time as a file has it.

ghost use Rattle.std.specs.Prelude.{◌≡◌, IfSome};
ghost use Rattle.its_linkframe.specs.Captures.{IsFrameLength};
ghost use Rattle.cmd_captures.specs.Lines.{per_milli};

use cap_pcap::{Format, InterfaceHead, Stamp, Unit, has_place};

/// The nanoseconds of a millisecond.
const NANOS_OF_MILLI: u32 = 1_000_000;

/// A frame with its time.
#[derive(Debug, Drop)]
pub struct TimedFrame {
    /// The number of its line, from 1.
    pub line: u64,
    /// Its time in milliseconds.
    pub moment: u64,
    /// The nanoseconds below the millisecond.
    pub nanos: u32,
    /// Its octets, 1 to 1468 of them.
    pub frame: Vec<u8>,
}

/// The unit of a file's times.
#[derive(Clone, Copy, Debug, PartialEq, Eq)]
pub(crate) enum Step {
    /// Milliseconds.
    Milli,
    /// Microseconds.
    Micro,
    /// Nanoseconds.
    Nano,
}

impl Step {
    /// Returns the coarsest step that cuts none of these times.
    pub(crate) fn of(frames: &[TimedFrame]) -> Step {
        if frames.iter().all(|timed| timed.nanos == 0) {
            Step::Milli
        } else if frames.iter().all(|timed| timed.nanos % 1000 == 0) {
            Step::Micro
        } else {
            Step::Nano
        }
    }

    /// Returns how many steps a millisecond has.
    fn per_milli(self) -> u32
        ensures { result ≡ per_milli self }
    {
        match self {
            Step::Milli => 1,
            Step::Micro => 1000,
            Step::Nano => NANOS_OF_MILLI,
        }
    }

    /// Returns the unit of classic pcap, which has no milliseconds.
    pub(crate) fn unit(self) -> Unit {
        match self {
            Step::Milli | Step::Micro => Unit::Micro,
            Step::Nano => Unit::Nano,
        }
    }

    /// Returns the head of an Ethernet interface whose ticks are these steps.
    pub(crate) fn head(self) -> InterfaceHead {
        InterfaceHead {
            resolution: match self {
                Step::Milli => 3,
                Step::Micro => 6,
                Step::Nano => 9,
            },
            ..InterfaceHead::of_millis()
        }
    }
}

impl TimedFrame {
    /// Returns the time as a file of this format has it, in these steps. `None` if the file can't
    /// hold it: a fraction in geostation's own format, a second of 2^32 or more in classic pcap,
    /// 2^64 steps or more in pcapng.
    pub(crate) fn stamp(&self, format: Format, step: Step) -> Option<Stamp> {
        if format == Format::Capture && self.nanos > 0 {
            return None;
        }
        let stamp = Stamp {
            moment: self.moment,
            fraction: self.fraction(step.unit()),
            ticks: Some(self.ticks(step)?),
        };
        has_place(format, 0, stamp, self.frame.as_slice()).ok()?;
        Some(stamp)
    }

    /// Returns the time in these steps. `None` if that is 2^64 or more.
    fn ticks(&self, step: Step) -> Option<u64> {
        let per_milli = step.per_milli();
        let below = self.nanos / (NANOS_OF_MILLI / per_milli);
        let whole = self.moment.checked_mul(u64::from(per_milli))?;
        whole.checked_add(u64::from(below))
    }

    /// Returns the part below a second, in this unit of classic pcap.
    fn fraction(&self, unit: Unit) -> u32 {
        let millis = (self.moment % 1000) as u32;
        let nanos = self.nanos % NANOS_OF_MILLI;
        match unit {
            Unit::Micro => millis * 1000 + nanos / 1000,
            Unit::Nano => millis * NANOS_OF_MILLI + nanos,
        }
    }
}
