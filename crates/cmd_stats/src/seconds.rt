//! The load of each second.

use cap_linklayers::airtime::air_time;
use cmd_table::Table;
use serde::Serialize;
use std::alloc::{AllocError, Global};
use std::collections::BTreeMap;

/// The counts of the frames of a second.
#[derive(Clone, Copy, Drop)]
struct Load {
    frames: u64,
    octets: u64,
    /// Their air time, in microseconds.
    busy: u64,
}

/// The row of a second: its keys in this order.
#[derive(Clone, Copy, Drop, Serialize)]
pub(crate) struct SecondRow {
    second: u64,
    frames: u64,
    octets: u64,
    busy: u64,
}

/// The seconds in which frames were captured.
#[derive(Drop)]
pub(crate) struct Seconds {
    seconds: BTreeMap<u64, Load>,
}

impl Seconds {
    /// Returns the counts before the first frame.
    pub(crate) fn new(alloc: Global) -> Seconds {
        Seconds {
            seconds: BTreeMap::new(alloc),
        }
    }

    /// Counts a frame of this many octets at a time.
    pub(crate) fn add(&mut self, moment: u64, octets: u32) -> Result<(), AllocError> {
        let none = Load {
            frames: 0,
            octets: 0,
            busy: 0,
        };
        let load = self.seconds.entry(moment / 1000)?.or_insert(none);
        load.frames = load.frames.saturating_add(1);
        load.octets = load.octets.saturating_add(u64::from(octets));
        load.busy = load.busy.saturating_add(air_time(octets));
        Ok(())
    }

    /// Returns the first of the seconds with the most air time, if there are any.
    pub(crate) fn busiest(&self) -> Option<SecondRow> {
        let mut busiest: Option<SecondRow> = None;
        for (second, load) in self.seconds.iter() {
            if busiest.is_none_or(|most| most.busy < load.busy) {
                busiest = Some(SecondRow {
                    second: *second,
                    frames: load.frames,
                    octets: load.octets,
                    busy: load.busy,
                });
            }
        }
        busiest
    }
}

/// Returns the table of that second.
pub(crate) fn second_table(alloc: Global, row: Option<SecondRow>) -> Result<Table, AllocError> {
    let mut table = Table::new(alloc, &["second", "frames", "octets", "busy"])?;
    if let Some(row) = row {
        table.add(&row.second)?;
        table.add(&row.frames)?;
        table.add(&row.octets)?;
        table.add(&row.busy)?;
    }
    Ok(table)
}
