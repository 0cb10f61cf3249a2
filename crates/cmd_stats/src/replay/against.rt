//! Compares a replay with what the station under test sent.

use crate::replay::awaited::Awaited;
use crate::replay::compared_line::{ComparedLine, Word};
use crate::replay::comparison::{Compared, Comparison};
use crate::replay::differences::{Difference, DifferenceCounts};
use its_gnvalue::{GnAddress, Mac, NoMemory};
use std::alloc::Global;

/// With what a replay is compared.
#[derive(Clone, Copy, Debug, PartialEq, Eq)]
pub struct Against {
    /// The link address of the station under test. Frames with this link source are its own.
    pub mac: Mac,
    /// How many milliseconds it may take to forward a frame.
    pub within: u64,
    /// Whether a difference is an error.
    pub strict: bool,
}

/// The comparison up to now: the frames that wait, and the counts.
#[derive(Drop)]
pub(crate) struct AgainstFrames {
    comparison: Comparison,
    /// The address of the station under test.
    address: GnAddress,
    against: Against,
    /// Whether keywords are explained.
    explain: bool,
    pub(crate) counts: DifferenceCounts,
}

impl AgainstFrames {
    /// Returns a comparison before the first frame. The station under test has this address. With
    /// `explain`, keywords are explained.
    pub(crate) fn new(
        alloc: Global,
        address: GnAddress,
        against: Against,
        explain: bool,
    ) -> AgainstFrames {
        AgainstFrames {
            comparison: Comparison::new(alloc),
            address,
            against,
            explain,
            counts: DifferenceCounts::default(),
        }
    }

    /// Adds the frame with this number, which the written rules send at a time. If too many frames
    /// wait, returns the line of the one that waits no longer.
    pub(crate) fn expect(
        &mut self,
        number: u64,
        moment: u64,
        octets: Vec<u8>,
    ) -> Result<Option<ComparedLine>, NoMemory> {
        let due = moment.saturating_add(self.against.within);
        let gone = self.comparison.expect(Awaited {
            number,
            due,
            octets,
        })?;
        match gone {
            Some(frame) => Ok(Some(self.leave(frame))),
            None => Ok(None),
        }
    }

    /// Returns the line of a frame whose time ended before `now` without being sent, if there is
    /// another one.
    pub(crate) fn next_missed(&mut self, now: u64) -> Option<ComparedLine> {
        let frame = self.comparison.next_missed(now)?;
        self.counts.missing = self.counts.missing.saturating_add(1);
        let number = Some(frame.number);
        Some(ComparedLine::new(
            frame.due,
            Word::Missing,
            number,
            Difference::none(),
            self.explain,
        ))
    }

    /// Returns the line of a frame that still waits at the end of the capture, if there is another.
    pub(crate) fn next_left(&mut self) -> Option<ComparedLine> {
        let frame = self.comparison.next_missed(u64::MAX)?;
        Some(self.leave(frame))
    }

    /// Counts a frame for which it isn't known whether it is sent in time, and returns its line.
    fn leave(&mut self, frame: Awaited) -> ComparedLine {
        self.counts.unknown = self.counts.unknown.saturating_add(1);
        let number = Some(frame.number);
        ComparedLine::new(
            frame.due,
            Word::Unknown,
            number,
            Difference::none(),
            self.explain,
        )
    }

    /// Compares what the station under test sent at a time: these octets, with the source of their
    /// packet, if they are read. Returns its line.
    pub(crate) fn compare(
        &mut self,
        moment: u64,
        sent: &[u8],
        source: Option<u64>,
    ) -> ComparedLine {
        let explain = self.explain;
        match self.comparison.compare(self.address, sent, source) {
            Compared::Same(frame) => {
                self.counts.same = self.counts.same.saturating_add(1);
                let number = Some(frame.number);
                ComparedLine::new(moment, Word::Same, number, Difference::none(), explain)
            }
            Compared::Other(frame) => {
                let difference = Difference::of(frame.octets.as_slice(), sent);
                self.counts.add(&difference);
                ComparedLine::new(
                    moment,
                    Word::Differs,
                    Some(frame.number),
                    difference,
                    explain,
                )
            }
            unasked => self.leave_out(moment, &unasked),
        }
    }

    /// Counts what the station under test sent without being asked for it, and returns its line.
    fn leave_out(&mut self, moment: u64, unasked: &Compared) -> ComparedLine {
        let counts = &mut self.counts;
        let word = match unasked {
            Compared::Own => {
                counts.own = counts.own.saturating_add(1);
                Word::Own
            }
            Compared::Unread => {
                counts.unread = counts.unread.saturating_add(1);
                Word::Unread
            }
            _ => {
                counts.extra = counts.extra.saturating_add(1);
                Word::Extra
            }
        };
        ComparedLine::new(moment, word, None, Difference::none(), self.explain)
    }

    /// Whether the comparison found an error.
    pub(crate) fn has_error(&self) -> bool {
        self.against.strict && self.counts.differing() > 0
    }
}
