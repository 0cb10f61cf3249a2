//! How many sources the station may have heard.

use crate::lost::Lost;
use crate::seen_record::NANOS;
use crate::stretch::Stretch;
use its_gnvalue::GnAddress;
use std::alloc::{AllocError, Global};
use std::collections::{BTreeMap, VecDeque};

/// The room of a table that is as large as a claim can make it.
pub const LARGEST_TABLE: u32 = 4096;

/// How many sources are kept at most: more than any table has room for.
const MOST: usize = 8192;

/// How many stamps of theirs are kept at most.
const MOST_STAMPS: usize = 65536;

/// After how much time sources are looked for that can be forgotten.
const PAUSE: u64 = 1000 * NANOS;

/// The sources that were heard, each with the stamps at which it was: the last one up to the first
/// stamp to which a stretch may still go, and all later ones.
#[derive(Drop)]
pub(crate) struct HeardSources {
    alloc: Global,
    sources: BTreeMap<u64, VecDeque<u64>>,
    /// How many stamps there are.
    stamps: usize,
    /// When sources were forgotten last.
    forgotten: Option<u64>,
    /// What is not kept.
    lost: Lost,
}

impl HeardSources {
    /// No sources yet.
    pub(crate) fn new(alloc: Global) -> HeardSources {
        HeardSources {
            alloc,
            sources: BTreeMap::new(alloc),
            stamps: 0,
            forgotten: None,
            lost: Lost::nothing(),
        }
    }

    /// Whether one may be missing that was heard at this time or later.
    pub(crate) fn may_lack(&self, from: u64) -> bool {
        self.lost.may_lack(from)
    }

    /// Adds a source that was heard. The stretches that are asked for from now on go to `settled` at
    /// least, and begin at `oldest` or later.
    pub(crate) fn add(
        &mut self,
        source: GnAddress,
        stamp: u64,
        settled: u64,
        oldest: u64,
    ) -> Result<(), AllocError> {
        let source = source.as_u64();
        if self.is_full() {
            self.forget(stamp, oldest);
        }
        if self.has_no_room(source) {
            self.lost.lose(stamp);
            return Ok(());
        }
        let stamps = self
            .sources
            .entry(source)?
            .or_insert(VecDeque::new(self.alloc));
        let before = stamps.len();
        settle(stamps, settled);
        if stamps.back() != Some(&stamp) {
            stamps.push_back(stamp)?;
        }
        let after = stamps.len();
        self.stamps = self.stamps.saturating_add(after).saturating_sub(before);
        Ok(())
    }

    /// Whether no stamp of a source can be kept.
    fn has_no_room(&self, source: u64) -> bool {
        if self.is_full() {
            return MOST_STAMPS <= self.stamps || !self.sources.contains_key(&source);
        }
        false
    }

    /// Whether no more sources or stamps are kept.
    fn is_full(&self) -> bool {
        MOST <= self.sources.len() || MOST_STAMPS <= self.stamps
    }

    /// Forgets the sources that were not heard since `oldest`, unless that was done just before.
    fn forget(&mut self, stamp: u64, oldest: u64) {
        if let Some(forgotten) = self.forgotten
            && stamp < forgotten.saturating_add(PAUSE)
        {
            return;
        }
        self.forgotten = Some(stamp);
        self.sources.retain(|_, stamps| stamps.back().is_some_and(|last| oldest <= *last));
        let mut count: usize = 0;
        for stamps in self.sources.values() {
            count = count.saturating_add(stamps.len());
        }
        self.stamps = count;
    }

    /// How many of them were heard in a stretch.
    pub(crate) fn count(&self, stretch: Stretch) -> u32 {
        let mut count: u32 = 0;
        for stamps in self.sources.values() {
            if was_heard(stamps, stretch) {
                count = count.saturating_add(1);
            }
        }
        count
    }

    /// At least as many as were heard in a stretch, and at most `limit` if those are. So they need no
    /// count if all that are kept are not more.
    pub(crate) fn at_most(&self, stretch: Stretch, limit: u32) -> u32 {
        let all = u32::try_from(self.sources.len()).unwrap_or(u32::MAX);
        if all <= limit {
            return all;
        }
        let mut count: u32 = 0;
        for stamps in self.sources.values() {
            if was_heard(stamps, stretch) {
                if limit <= count {
                    return u32::MAX;
                }
                count = count.saturating_add(1);
            }
        }
        count
    }
}

/// Whether a source with these stamps was heard in a stretch.
fn was_heard(stamps: &VecDeque<u64>, stretch: Stretch) -> bool {
    for stamp in stamps.iter() {
        if stretch.has(*stamp) {
            return true;
        }
    }
    false
}

/// Leaves only the last of the first stamps up to `settled`: no stretch ends before it.
fn settle(stamps: &mut VecDeque<u64>, settled: u64) {
    for _ in 1..stamps.len() {
        let (Some(first), Some(second)) = (stamps.front().copied(), stamps.get(1).copied()) else {
            return;
        };
        if settled < first || settled < second {
            return;
        }
        stamps.pop_front();
        if let Some(front) = stamps.front_mut() {
            *front = first.max(second);
        }
    }
}
