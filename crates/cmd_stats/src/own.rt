//! The frames that a source sent itself, and the times between them.

use cmd_table::{Hyphened, Table};
use serde::Serialize;
use std::alloc::AllocError;

/// Which station sent a frame, and why.
#[derive(Clone, Copy, Debug, PartialEq, Eq)]
pub(crate) enum Sending {
    /// Its source sent it: no hop is used up.
    Own,
    /// Its source sent it again, since it was not acknowledged: it has the retry bit of IEEE
    /// 802.11.
    Retry,
    /// Another station forwarded it: hops are used up.
    Forwarded,
}

impl Sending {
    /// Finds how a frame was sent, by its remaining hop limit (`left`), its maximum hop limit
    /// (`most`) and its retry bit.
    pub(crate) fn of(left: u8, most: u8, retry: bool) -> Sending {
        if left < most {
            Sending::Forwarded
        } else if retry {
            Sending::Retry
        } else {
            Sending::Own
        }
    }
}

/// The counts of the frames that a source sent itself.
#[derive(Clone, Copy, Drop)]
pub(crate) struct OwnFrames {
    frames: u64,
    retries: u64,
    forwarded: u64,
    /// The least and the greatest time of its own frames.
    first: u64,
    last: u64,
    /// The time of the last own frame in the file.
    previous: u64,
    /// The least and the greatest time between two that follow each other in the file.
    intervals: Option<(u64, u64)>,
}

impl OwnFrames {
    /// Returns the counts before the first frame.
    pub(crate) fn none() -> OwnFrames {
        OwnFrames {
            frames: 0,
            retries: 0,
            forwarded: 0,
            first: u64::MAX,
            last: 0,
            previous: 0,
            intervals: None,
        }
    }

    /// Counts a frame at this time.
    pub(crate) fn add(&mut self, moment: u64, sending: Sending) {
        match sending {
            Sending::Own => self.add_own(moment),
            Sending::Retry => self.retries = self.retries.saturating_add(1),
            Sending::Forwarded => self.forwarded = self.forwarded.saturating_add(1),
        }
    }

    fn add_own(&mut self, moment: u64) {
        if self.frames > 0 {
            let interval = moment.saturating_sub(self.previous);
            let (least, greatest) = self.intervals.unwrap_or((interval, interval));
            self.intervals = Some((least.min(interval), greatest.max(interval)));
        }
        self.frames = self.frames.saturating_add(1);
        self.first = self.first.min(moment);
        self.last = self.last.max(moment);
        self.previous = moment;
    }

    /// Returns its keys.
    pub(crate) fn keys(&self) -> OwnKeys {
        let between = self.last.saturating_sub(self.first);
        OwnKeys {
            own: self.frames,
            forwarded: self.forwarded,
            retries: self.retries,
            own_least: self.intervals.map(|(least, _)| least),
            own_mean: between.checked_div(self.frames.saturating_sub(1)),
            own_greatest: self.intervals.map(|(_, greatest)| greatest),
        }
    }
}

/// The keys of a source's own frames, in this order. Times are in milliseconds, and missing if there
/// are fewer than two own frames.
#[derive(Clone, Copy, Drop, Serialize)]
pub(crate) struct OwnKeys {
    /// Frames that the source sent itself, without retries.
    own: u64,
    /// Frames that others forwarded.
    forwarded: u64,
    /// Retries of IEEE 802.11 of the source itself.
    retries: u64,
    #[serde(skip_serializing_if = "Option::is_none")]
    own_least: Option<u64>,
    #[serde(skip_serializing_if = "Option::is_none")]
    own_mean: Option<u64>,
    #[serde(skip_serializing_if = "Option::is_none")]
    own_greatest: Option<u64>,
}

/// The heads of the columns of these keys.
pub(crate) const OWN_HEADS: [&str; 6] = [
    "own",
    "forwarded",
    "retries",
    "own_least",
    "own_mean",
    "own_greatest",
];

impl OwnKeys {
    /// Adds the keys to a row of a table.
    pub(crate) fn add_to(&self, table: &mut Table) -> Result<(), AllocError> {
        table.add(&self.own)?;
        table.add(&self.forwarded)?;
        table.add(&self.retries)?;
        table.add(&Hyphened(self.own_least))?;
        table.add(&Hyphened(self.own_mean))?;
        table.add(&Hyphened(self.own_greatest))
    }
}
