//! How far a run is, and the writer that shows it.

use std::fmt;
use std::io::Write;

/// How far a run is. It prints as `0 of 5000 ms: events 1 deliveries 0`.
#[derive(Clone, Copy, Debug, PartialEq, Eq)]
pub struct RunProgress {
    /// The time of the last event, in milliseconds.
    pub moment: u64,
    /// The time at which the run ends, in milliseconds, if it is known.
    pub end: Option<u64>,
    /// The number of events so far.
    pub events: u64,
    /// How many of these events were deliveries.
    pub deliveries: u64,
}

impl fmt::Display for RunProgress {
    fn fmt<W: fmt::Write>(&self, f: &mut fmt::Formatter<W>) -> fmt::Result {
        write!(f, "{}", self.moment)?;
        if let Some(end) = self.end {
            write!(f, " of {end}")?;
        }
        write!(
            f,
            " ms: events {} deliveries {}",
            self.events, self.deliveries
        )
    }
}

/// A writer of messages that can also show how far a run is.
pub trait ProgressWriter: Write {
    /// Shows how far the run is, in place of what it showed before. A failed write is ignored.
    fn show_progress(&mut self, progress: &RunProgress);

    /// Removes what it shows. A failed write is ignored.
    fn clear_progress(&mut self);
}

impl<E: ProgressWriter> ProgressWriter for &mut E {
    fn show_progress(&mut self, progress: &RunProgress) {
        (**self).show_progress(progress);
    }

    fn clear_progress(&mut self) {
        (**self).clear_progress();
    }
}
