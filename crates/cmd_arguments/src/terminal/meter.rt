//! The line on standard error that shows the progress of a run, with its pace.

ghost use Rattle.std.specs.Prelude.{◌≡◌, None, true};

use crate::terminal::pace::Pace;
use cmd_reporting::{ProgressWriter, RunProgress};
use std::io::Write;
use std::rt::Clock;
use std::time::Duration;
use std::{fmt, io};

/// The code that clears a terminal's line from the cursor on.
const CLEAR: &[u8] = b"\x1b[K";

/// A writer of messages to standard error. On a terminal, a line shows the progress of a run, with
/// its events per second and the seconds that are left. Each message replaces that line. Otherwise
/// it only writes the messages.
#[derive(Drop)]
pub struct Meter<'a, R, E> {
    rt: &'a R,
    err: &'a mut E,
    is_shown: bool,
    /// When progress was first shown.
    started: Option<Duration>,
    /// Whether the next octet of a message begins a line.
    at_start: bool,
}

impl<'a, R: Clock, E: Write> Meter<'a, R, E> {
    /// Returns a meter before the first line. `is_shown` says whether progress is shown.
    pub fn new(rt: &'a R, err: &'a mut E, is_shown: bool) -> Meter<'a, R, E>
        ensures shown { result.is_shown ≡ is_shown }
        ensures start { result.started ≡ None }
        ensures line { result.at_start ≡ true }
    {
        Meter {
            rt,
            err,
            is_shown,
            started: None,
            at_start: true,
        }
    }

    /// Returns the milliseconds since progress was first shown. 0 at that time, and if there is no
    /// clock.
    fn elapsed(&mut self) -> u64 {
        let Ok(now) = self.rt.monotonic() else {
            return 0;
        };
        let started = self.started.unwrap_or(now);
        self.started = Some(started);
        millis(now.saturating_sub(started))
    }

    /// Writes the line with the progress of the run.
    fn write_progress(&mut self, progress: &RunProgress) -> io::Result<()> {
        let elapsed = self.elapsed();
        write!(self.err, "{progress}")?;
        if let Some(pace) = pace_of(progress, elapsed) {
            write!(self.err, "{pace}")?;
        }
        self.err.write_all(CLEAR)?;
        self.err.write_all(b"\r")
    }
}

impl<R: Clock, E: Write> ProgressWriter for Meter<'_, R, E> {
    fn show_progress(&mut self, progress: &RunProgress) {
        if self.is_shown {
            let _ = self.write_progress(progress);
        }
    }

    fn clear_progress(&mut self) {
        if self.is_shown {
            let _ = self.err.write_all(CLEAR);
        }
    }
}

impl<R: Clock, E: Write> Write for Meter<'_, R, E> {
    fn write(&mut self, octets: &[u8]) -> io::Result<usize> {
        if !self.is_shown || octets.is_empty() {
            return self.err.write(octets);
        }
        if self.at_start {
            self.err.write_all(CLEAR)?;
            self.at_start = false;
        }
        match octets.iter().position(|octet| *octet == b'\n') {
            Some(place) => {
                self.err.write_all(&octets[..place + 1])?;
                self.at_start = true;
                Ok(place + 1)
            }
            None => self.err.write(octets),
        }
    }

    fn flush(&mut self) -> io::Result<()> {
        self.err.flush()
    }
}

/// Returns the milliseconds of a duration, limited to 64 bits.
pub(crate) fn millis(time: Duration) -> u64 {
    u64::try_from(time.as_millis()).unwrap_or(u64::MAX)
}

/// The pace of a run: its events per second, and the seconds that are left.
#[derive(Clone, Copy)]
struct RunPace {
    rate: u64,
    left: u64,
}

impl fmt::Display for RunPace {
    fn fmt<W: fmt::Write>(&self, f: &mut fmt::Formatter<W>) -> fmt::Result {
        write!(f, ", {} events/s, {} s left", self.rate, self.left)
    }
}

/// Returns the pace of a run with this progress after this number of milliseconds. `None` while it
/// isn't known.
fn pace_of(progress: &RunProgress, elapsed: u64) -> Option<RunPace> {
    let moments = Pace {
        done: progress.moment,
        all: progress.end?,
        elapsed,
    };
    let events = Pace {
        done: progress.events,
        all: progress.events,
        elapsed,
    };
    Some(RunPace {
        rate: events.rate()?,
        left: moments.left()? / 1000,
    })
}
