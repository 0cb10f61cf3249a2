//! The options of a run besides the scenario.

use sim_scenario::{AirTable, Reading};
use sim_settings::AirSettings;

/// How a scenario is run.
#[derive(Clone, Copy, Debug, Default, PartialEq, Eq)]
pub struct RunOptions {
    /// Whether a summary is printed instead of the lines of events: the outcome of each packet for
    /// an area, and the counts of all events.
    pub summary: bool,
    /// Whether a line of column heads comes before the lines of events, as on a terminal.
    pub heads: bool,
    /// Whether progress is shown on standard error.
    pub progress: bool,
    /// Whether notices are left out: progress, and how to open a page. Faults are reported in any
    /// case.
    pub quiet: bool,
    /// Whether an event that is refused changes the status from `Done` to `Refused`. Unknown keys
    /// of the scenario are then refused too.
    pub strict: bool,
    /// Whether notes are printed among the lines of events. A scenario without a radio model is
    /// then refused.
    pub notes: bool,
    /// Values that replace those of the scenario's radio model.
    pub settings: AirSettings,
}

impl RunOptions {
    /// Returns how the scenario is read. `has_results` says whether result files are written, and
    /// `moves` whether it is run with the moves of a file.
    pub(crate) fn reading(&self, has_results: bool, moves: bool) -> Reading {
        let needs_air = has_results || moves || self.notes || !self.settings.is_empty();
        Reading {
            strict: self.strict,
            air: if needs_air {
                AirTable::Required
            } else {
                AirTable::Optional
            },
            moves,
            settings: self.settings,
        }
    }

    /// Whether the line of each packet for an area in a summary names the stations that it didn't
    /// reach: only if codes are explained.
    pub(crate) fn tells_missed(&self, explain: bool) -> bool {
        self.summary && explain
    }
}
