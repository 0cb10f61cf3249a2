//! The traffic to each port.

use crate::traffic::Traffic;
use cmd_table::Table;
use serde::Serialize;
use std::alloc::{AllocError, Global};
use std::collections::BTreeMap;

/// The row of a port: its keys in this order.
#[derive(Clone, Copy, Drop, Serialize)]
pub(crate) struct PortRow {
    port: u16,
    frames: u64,
    octets: u64,
}

/// The destination ports of frames.
#[derive(Drop)]
pub(crate) struct Ports {
    alloc: Global,
    ports: BTreeMap<u16, Traffic>,
}

impl Ports {
    /// Returns the counts before the first frame.
    pub(crate) fn new(alloc: Global) -> Ports {
        Ports {
            alloc,
            ports: BTreeMap::new(alloc),
        }
    }

    /// Counts a frame of this many octets to a port.
    pub(crate) fn add(&mut self, port: u16, octets: u64) -> Result<(), AllocError> {
        let traffic = self.ports.entry(port)?.or_insert(Traffic::none());
        traffic.add(octets);
        Ok(())
    }

    /// Returns the rows, in the order of ports.
    pub(crate) fn rows(&self) -> Result<Vec<PortRow>, AllocError> {
        let mut rows = Vec::new(self.alloc);
        for (port, traffic) in self.ports.iter() {
            rows.push(PortRow {
                port: *port,
                frames: traffic.frames,
                octets: traffic.octets,
            })?;
        }
        Ok(rows)
    }
}

/// Returns the table of these rows.
pub(crate) fn port_table(alloc: Global, rows: &[PortRow]) -> Result<Table, AllocError> {
    let mut table = Table::new(alloc, &["port", "frames", "octets"])?;
    for row in rows {
        table.add(&row.port)?;
        table.add(&row.frames)?;
        table.add(&row.octets)?;
    }
    Ok(table)
}
