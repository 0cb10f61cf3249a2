//! The traffic of each PSID.

use crate::traffic::Traffic;
use cmd_table::Table;
use serde::Serialize;
use std::alloc::{AllocError, Global};
use std::collections::BTreeMap;

/// The row of a PSID: its keys in this order.
#[derive(Clone, Copy, Drop, Serialize)]
pub(crate) struct PsidRow {
    psid: u64,
    frames: u64,
    octets: u64,
}

/// The PSIDs of signed frames.
#[derive(Drop)]
pub(crate) struct Psids {
    alloc: Global,
    psids: BTreeMap<u64, Traffic>,
}

impl Psids {
    /// Returns the counts before the first frame.
    pub(crate) fn new(alloc: Global) -> Psids {
        Psids {
            alloc,
            psids: BTreeMap::new(alloc),
        }
    }

    /// Counts a frame of this many octets with a PSID.
    pub(crate) fn add(&mut self, psid: u64, octets: u64) -> Result<(), AllocError> {
        let traffic = self.psids.entry(psid)?.or_insert(Traffic::none());
        traffic.add(octets);
        Ok(())
    }

    /// Returns the rows, lowest PSID first.
    pub(crate) fn rows(&self) -> Result<Vec<PsidRow>, AllocError> {
        let mut rows = Vec::new(self.alloc);
        for (psid, traffic) in self.psids.iter() {
            rows.push(PsidRow {
                psid: *psid,
                frames: traffic.frames,
                octets: traffic.octets,
            })?;
        }
        Ok(rows)
    }
}

/// Returns the table of these rows.
pub(crate) fn psid_table(alloc: Global, rows: &[PsidRow]) -> Result<Table, AllocError> {
    let mut table = Table::new(alloc, &["PSID", "frames", "octets"])?;
    for row in rows {
        table.add(&row.psid)?;
        table.add(&row.frames)?;
        table.add(&row.octets)?;
    }
    Ok(table)
}
