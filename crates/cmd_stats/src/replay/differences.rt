//! How frames differ, and how many do.

use cmd_table::Table;
use its_gnvalue::Mac;
use serde::Serialize;
use std::alloc::{AllocError, Global};
use std::fmt;

/// The positions of the link source, the packet and its remaining hop limit in a frame.
const LINK_SOURCE: usize = 6;

const PACKET: usize = 14;

const HOPS: usize = 17;

/// How a frame that was sent differs from the one that the written rules send.
#[derive(Clone, Copy)]
pub(crate) struct Difference {
    /// The remaining hop limit that was sent, and that of the rules.
    pub(crate) hops: Option<(u8, u8)>,
    /// The link target that was sent, and that of the rules.
    pub(crate) target: Option<(Mac, Mac)>,
    /// The first other octet that differs, counted from the begin of the packet.
    pub(crate) octet: Option<u64>,
}

impl Difference {
    /// Returns no difference.
    pub(crate) fn none() -> Difference {
        Difference {
            hops: None,
            target: None,
            octet: None,
        }
    }

    /// Returns how what was sent differs from what the rules send.
    pub(crate) fn of(owed: &[u8], sent: &[u8]) -> Difference {
        Difference {
            hops: other_hops(owed, sent),
            target: other_target(owed, sent),
            octet: other_octet(owed, sent),
        }
    }
}

/// Returns the remaining hop limits of what was sent and of what the rules send, if they differ.
fn other_hops(owed: &[u8], sent: &[u8]) -> Option<(u8, u8)> {
    let (owed, sent) = (*owed.get(HOPS)?, *sent.get(HOPS)?);
    (owed != sent).then_some((sent, owed))
}

/// Returns the link targets of what was sent and of what the rules send, if they differ.
fn other_target(owed: &[u8], sent: &[u8]) -> Option<(Mac, Mac)> {
    let (owed, sent) = (target_of(owed)?, target_of(sent)?);
    (owed != sent).then_some((sent, owed))
}

/// The link target of a frame.
fn target_of(frame: &[u8]) -> Option<Mac> {
    let mut octets = [0; 6];
    octets.copy_from_slice(frame.get(..LINK_SOURCE)?);
    Some(Mac::from_octets(octets))
}

/// Returns the position of the first octet of a packet that differs, except that of its hop limit.
/// If one packet is the front of the other, it is the length of the shorter.
fn other_octet(owed: &[u8], sent: &[u8]) -> Option<u64> {
    for (place, (first, second)) in owed.iter().zip(sent).enumerate() {
        if first != second && PACKET <= place && place != HOPS {
            return Some(place.saturating_sub(PACKET) as u64);
        }
    }
    let shorter = owed.len().min(sent.len());
    (owed.len() != sent.len()).then_some(shorter.saturating_sub(PACKET) as u64)
}

/// How many frames there are of each kind. One that differs may be of several.
#[derive(Clone, Copy, Default, Serialize)]
pub(crate) struct DifferenceCounts {
    pub(crate) same: u64,
    pub(crate) hops: u64,
    pub(crate) target: u64,
    pub(crate) octets: u64,
    pub(crate) missing: u64,
    pub(crate) extra: u64,
    pub(crate) own: u64,
    pub(crate) unread: u64,
    pub(crate) unknown: u64,
    /// Frames that were sent instead of another one.
    #[serde(skip)]
    pub(crate) others: u64,
}

impl DifferenceCounts {
    /// Counts a frame that was sent instead of another one.
    pub(crate) fn add(&mut self, difference: &Difference) {
        self.others = self.others.saturating_add(1);
        if difference.hops.is_some() {
            self.hops = self.hops.saturating_add(1);
        }
        if difference.target.is_some() {
            self.target = self.target.saturating_add(1);
        }
        if difference.octet.is_some() {
            self.octets = self.octets.saturating_add(1);
        }
    }

    /// How many frames differ: other ones, missing ones and extra ones.
    pub(crate) fn differing(&self) -> u64 {
        self.others
            .saturating_add(self.missing)
            .saturating_add(self.extra)
    }

    /// How many frames were compared.
    pub(crate) fn compared(&self) -> u64 {
        self.differing().saturating_add(self.same)
    }

    /// The table of the kinds.
    pub(crate) fn table(&self, alloc: Global) -> Result<Table, AllocError> {
        let mut table = Table::new(alloc, &["kind", "frames"])?;
        for (name, count) in [
            ("same", self.same),
            ("hops", self.hops),
            ("target", self.target),
            ("octets", self.octets),
            ("missing", self.missing),
            ("extra", self.extra),
            ("own", self.own),
            ("unread", self.unread),
            ("unknown", self.unknown),
        ] {
            table.add(&name)?;
            table.add(&count)?;
        }
        Ok(table)
    }
}

/// How many frames there are of each kind, and how many differ: an object in JSON, the last line in
/// text.
#[derive(Clone, Copy, Serialize)]
pub(crate) struct DifferenceTotal {
    total: DifferenceCounts,
    differing: u64,
    compared: u64,
}

impl DifferenceTotal {
    /// The total of these counts.
    pub(crate) fn of(counts: DifferenceCounts) -> DifferenceTotal {
        DifferenceTotal {
            total: counts,
            differing: counts.differing(),
            compared: counts.compared(),
        }
    }
}

impl fmt::Display for DifferenceTotal {
    fn fmt<W: fmt::Write>(&self, f: &mut fmt::Formatter<W>) -> fmt::Result {
        write!(f, "{} of {} frames differ", self.differing, self.compared)
    }
}
