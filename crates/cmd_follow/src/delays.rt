//! Counts of delays.

ghost use Rattle.std.specs.Prelude.{◌≤◌, ◌-◌, ◌*◌};

use serde::Serialize;
use std::alloc::{AllocError, Global};
use std::collections::BTreeMap;

/// A delay in microseconds, rounded down to three digits: by less than 1 %. Delays over 100 s are
/// rounded down to 0.1 s.
pub(crate) fn rounded(micros: u64) -> u64
    ensures least { result ≤ micros }
    ensures near { 100 * (micros - result) ≤ micros }
{
    if micros < 1000 {
        micros
    } else if micros < 10_000 {
        micros / 10 * 10
    } else if micros < 100_000 {
        micros / 100 * 100
    } else if micros < 1_000_000 {
        micros / 1000 * 1000
    } else if micros < 10_000_000 {
        micros / 10_000 * 10_000
    } else {
        micros / 100_000 * 100_000
    }
}

/// How many delays there are of each length, in fixed steps.
#[derive(Drop)]
pub(crate) struct Delays {
    counts: BTreeMap<u64, u64>,
    /// How many there are.
    count: u64,
    /// The least and the greatest one.
    ends: Option<(u64, u64)>,
}

impl Delays {
    /// No delay yet.
    pub(crate) fn new(alloc: Global) -> Delays {
        Delays {
            counts: BTreeMap::new(alloc),
            count: 0,
            ends: None,
        }
    }

    /// How many there are.
    pub(crate) fn count(&self) -> u64 {
        self.count
    }

    /// The least and the greatest one, as they are.
    pub(crate) fn ends(&self) -> Option<(u64, u64)> {
        self.ends
    }

    /// Counts a delay in microseconds. `AllocError` if an allocation failed.
    pub(crate) fn add(&mut self, micros: u64) -> Result<(), AllocError> {
        let (least, greatest) = self.ends.unwrap_or((micros, micros));
        self.ends = Some((least.min(micros), greatest.max(micros)));
        self.count = self.count.saturating_add(1);
        let count = self.counts.entry(rounded(micros))?.or_insert(0);
        *count = count.saturating_add(1);
        Ok(())
    }

    /// Returns the delay that this percentage of the delays don't exceed, rounded down to three
    /// digits, but not below the least delay. `None` if there is no delay.
    pub(crate) fn quantile(&self, percent: u64) -> Option<u64> {
        let (least, _) = self.ends?;
        let rank = self.count.saturating_mul(percent).div_ceil(100);
        let mut before: u64 = 0;
        for (micros, count) in self.counts.iter() {
            before = before.saturating_add(*count);
            if rank <= before {
                return Some(least.max(*micros));
            }
        }
        None
    }
}

/// How many delays have each number of whole milliseconds.
#[derive(Drop)]
pub(crate) struct Histogram {
    alloc: Global,
    counts: BTreeMap<u64, u64>,
}

/// A row of a histogram: its keys in this order.
#[derive(Clone, Copy, Drop, Serialize)]
pub(crate) struct HistogramRow {
    #[serde(rename = "ms")]
    pub(crate) millis: u64,
    #[serde(rename = "forwarded")]
    pub(crate) frames: u64,
}

impl Histogram {
    /// No delay yet.
    pub(crate) fn new(alloc: Global) -> Histogram {
        Histogram {
            alloc,
            counts: BTreeMap::new(alloc),
        }
    }

    /// Counts a delay of this many milliseconds. `AllocError` if an allocation failed.
    pub(crate) fn add(&mut self, millis: u64) -> Result<(), AllocError> {
        let count = self.counts.entry(millis)?.or_insert(0);
        *count = count.saturating_add(1);
        Ok(())
    }

    /// Returns its rows, the least delay first. `AllocError` if an allocation failed.
    pub(crate) fn rows(&self) -> Result<Vec<HistogramRow>, AllocError> {
        let mut rows = Vec::new(self.alloc);
        for (millis, frames) in self.counts.iter() {
            rows.push(HistogramRow {
                millis: *millis,
                frames: *frames,
            })?;
        }
        Ok(rows)
    }
}
