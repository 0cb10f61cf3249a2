//! The progress of a run.

use crate::course::Course;
use cmd_reporting::{ProgressWriter, RunProgress};
use its_world::What;
use sim_simulation::EventRecord;
use std::io::BufRead;

/// How many events are done between two updates of the progress.
const EVENTS: usize = 65536;

/// The counts of a run that are shown as its progress on standard error.
#[derive(Clone, Copy)]
pub(crate) struct Progress {
    /// Whether the progress is shown.
    is_shown: bool,
    /// The time at which the run ends, if that is known.
    end: Option<u64>,
    /// How many of the events so far were deliveries.
    deliveries: u64,
}

impl Progress {
    /// Returns the progress before the first event of a run. It is shown on a terminal.
    pub(crate) fn of<M: BufRead + Drop>(course: &Course<'_, '_, M>) -> Progress {
        Progress {
            is_shown: course.options.progress,
            end: course.end(),
            deliveries: 0,
        }
    }

    /// Counts an event that was done. Shows the progress after the first event, and then after
    /// every 65536 events.
    #[inline(always)]
    pub(crate) fn note<E: ProgressWriter>(&mut self, done: &EventRecord<'_>, err: &mut E) {
        if !self.is_shown {
            return;
        }
        if matches!(done.what, What::Deliver(_)) {
            self.deliveries = self.deliveries.saturating_add(1);
        }
        if done.number % EVENTS == 0 {
            err.show_progress(&RunProgress {
                moment: done.moment,
                end: self.end,
                events: (done.number as u64).saturating_add(1),
                deliveries: self.deliveries,
            });
        }
    }

    /// Removes what is shown, at the end of the run.
    pub(crate) fn end<E: ProgressWriter>(&self, err: &mut E) {
        if self.is_shown {
            err.clear_progress();
        }
    }
}
