//! Since when the station may know each source, and by which numbers.

use crate::lost::Lost;
use crate::seen_record::NANOS;
use its_gnvalue::GnAddress;
use std::alloc::{AllocError, Global};
use std::collections::{BTreeMap, BTreeSet};

/// How many sources are kept at most.
const MOST: usize = 4096;

/// How many of their numbers are kept at most.
const MOST_NUMBERS: usize = 1 << 18;

/// After how much time sources are looked for that can be forgotten.
const PAUSE: u64 = 1000 * NANOS;

/// The records of a source that were heard, each less than a reach after one before it.
#[derive(Drop)]
struct SourceRun {
    /// No record of the run was sent before this stamp: the oldest one was met with it, or a little
    /// later.
    oldest: u64,
    /// The last sending of any.
    last: u64,
    numbers: BTreeSet<u16>,
    /// A record or a number of it may be missing.
    broken: bool,
}

/// What was known of a packet's source when the packet was heard.
#[derive(Clone, Copy)]
pub(crate) struct KnownSince {
    /// No record of the run was sent before this stamp, and none of its source less than a reach
    /// before it. `None` if it isn't known.
    pub(crate) oldest: Option<u64>,
    /// No record of the run has its number.
    pub(crate) is_new: bool,
}

/// The runs of all sources.
#[derive(Drop)]
pub(crate) struct SourceRuns {
    alloc: Global,
    runs: BTreeMap<u64, SourceRun>,
    /// How many numbers there are.
    numbers: usize,
    /// When runs were forgotten last.
    forgotten: Option<u64>,
    /// The records that are not kept, by their last sendings.
    lost: Lost,
}

impl SourceRuns {
    /// No runs yet.
    pub(crate) fn new(alloc: Global) -> SourceRuns {
        SourceRuns {
            alloc,
            runs: BTreeMap::new(alloc),
            numbers: 0,
            forgotten: None,
            lost: Lost::nothing(),
        }
    }

    /// Adds a record of a source, with the number of its packet. `sent`: a stamp before which no later
    /// record was sent, and its last sending. Returns what was known before it.
    pub(crate) fn add(
        &mut self,
        source: GnAddress,
        number: Option<u16>,
        sent: (u64, u64),
        reach: u64,
    ) -> Result<KnownSince, AllocError> {
        let (source, (first, last)) = (source.as_u64(), sent);
        if MOST <= self.runs.len() || MOST_NUMBERS <= self.numbers {
            self.forget(first, reach);
        }
        if MOST <= self.runs.len() && !self.runs.contains_key(&source) {
            self.lost.lose(last);
            return Ok(KnownSince {
                oldest: None,
                is_new: false,
            });
        }
        let broken = self.lost.may_lack(first.saturating_sub(reach));
        let has_room = self.numbers < MOST_NUMBERS;
        let fresh = SourceRun {
            oldest: first,
            last,
            numbers: BTreeSet::new(self.alloc),
            broken,
        };
        let run = self.runs.entry(source)?.or_insert(fresh);
        let before = run.numbers.len();
        if run.last.saturating_add(reach) < first {
            run.numbers.clear();
            run.oldest = first;
            run.broken = broken;
        }
        let known = run.meet(number, (first, last), has_room)?;
        let after = run.numbers.len();
        self.numbers = self.numbers.saturating_add(after).saturating_sub(before);
        Ok(known)
    }

    /// Adds another sending of a record of a source.
    pub(crate) fn repeat(&mut self, source: GnAddress, stamp: u64) {
        match self.runs.get_mut(&source.as_u64()) {
            Some(run) => run.last = run.last.max(stamp),
            None => self.lost.lose(stamp),
        }
    }

    /// Forgets the runs that are over at this stamp, unless that was done just before.
    fn forget(&mut self, stamp: u64, reach: u64) {
        if let Some(forgotten) = self.forgotten
            && stamp < forgotten.saturating_add(PAUSE)
        {
            return;
        }
        self.forgotten = Some(stamp);
        self.runs
            .retain(|_, run| stamp <= run.last.saturating_add(reach));
        let mut count: usize = 0;
        for run in self.runs.values() {
            count = count.saturating_add(run.numbers.len());
        }
        self.numbers = count;
    }
}

impl SourceRun {
    /// Adds a record. Returns what was known before it.
    fn meet(
        &mut self,
        number: Option<u16>,
        sent: (u64, u64),
        has_room: bool,
    ) -> Result<KnownSince, AllocError> {
        let (first, last) = sent;
        self.broken = self.broken || first < self.oldest;
        let is_new = match number {
            Some(number) => !self.numbers.contains(&number),
            None => true,
        };
        let known = KnownSince {
            oldest: if self.broken { None } else { Some(self.oldest) },
            is_new,
        };
        self.last = self.last.max(last);
        match number {
            Some(number) if has_room => {
                self.numbers.insert(number)?;
            }
            Some(_) => self.broken = true,
            None => {}
        }
        Ok(known)
    }
}
