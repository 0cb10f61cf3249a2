//! Receptions that met a full location table.

ghost use Rattle.std.specs.Prelude.{◌≡◌, None, Some, if◌then◌else◌, nat_lt};
ghost use Rattle.its_station.specs.Counting.{one_more};
ghost use Rattle.sim_results.specs.FullTables.{met_full_table};

use its_station::Refused;
use its_world::{Entry, EntryFault};
use sim_scenario::{Scenario, Timeline};
use sim_simulation::EventRecord;
use std::io::Write;

/// The size of a station's location table: one of the scenario's own stations, or one that a row of
/// moves made. `None` if there is no such station.
fn capacity_of(scenario: &Scenario, station: usize) -> Option<u16> {
    match (
        scenario.stations.as_slice().get(station),
        &scenario.timeline,
    ) {
        (Some(config), _) => Some(config.capacity),
        (None, Timeline::Moves(timeline)) => Some(timeline.moves.capacity),
        (None, _) => None,
    }
}

/// How many receptions were refused by a full location table, and the least size of such a table.
#[derive(Clone, Copy, Debug)]
pub struct FullTables {
    receptions: usize,
    /// The least table size of a station that refused one.
    least: u16,
}

impl FullTables {
    /// Returns the counts before the first reception.
    pub fn new() -> FullTables
        ensures { result.receptions ≡ 0 }
    {
        FullTables {
            receptions: 0,
            least: u16::MAX,
        }
    }

    /// Returns how many receptions there were. `None` if there was none.
    pub fn receptions(&self) -> Option<usize>
        ensures { result ≡ (if nat_lt 0 self.now.receptions
            then Some self.now.receptions else None) }
    {
        (self.receptions > 0).then_some(self.receptions)
    }

    /// Takes an event that was done in a run of the scenario, and counts it if it is a reception
    /// that met a full location table.
    #[inline(always)]
    pub fn take(&mut self, scenario: &Scenario, done: &EventRecord<'_>)
        ensures { self.new.receptions ≡ (if met_full_table done.now.entry.now
            then one_more self.old.receptions else self.old.receptions) }
    {
        if !matches!(
            done.entry,
            Entry::Refused(EntryFault::Station(Refused::TableFull))
        ) {
            return;
        }
        self.receptions = self.receptions.saturating_add(1);
        if let Some(capacity) = capacity_of(scenario, done.station) {
            self.least = self.least.min(capacity);
        }
    }

    /// Prints a line on standard error, if there were any: how many, and the least size of a table
    /// that was full. A write that fails is ignored.
    pub fn report<E: Write>(&self, err: &mut E)
        ensures none { self.now.receptions ≡ 0 → err.new ≡ err.old }
    {
        let (receptions, least) = (self.receptions, self.least);
        if receptions == 0 {
            return;
        }
        let _ = writeln!(
            err,
            "geostation: {receptions} receptions met a full location table: \
            raise capacity (least {least})"
        );
    }
}
