//! Token buckets of sources.

ghost use Rattle.std.specs.Prelude.{◌≡◌, ◌++◌, [], IfOk, ℕ, Option};
ghost use Rattle.its_governor.specs.Sources.{bucket_of, with_draw, latest};

use crate::bucket::Bucket;
use crate::rate::Rate;
use circular_buffer::HeapCircularBuffer;
use its_gnvalue::{GnAddress, NoMemory};
use std::alloc::Global;
use std::marker::Model;

/// How many of the frames that were forwarded last are kept.
const DRAWS: usize = 256;

/// A frame that was forwarded: its source, what the bucket of the source held after it, in
/// thousandths of a frame, and when it passed.
#[derive(Clone, Copy, Debug, PartialEq, Eq)]
pub struct SourceDraw {
    pub(crate) source: GnAddress,
    pub(crate) parts: u64,
    pub(crate) since: u64,
}

/// A token bucket per source of forwarded frames, all of one rate, in bounded memory: of the last
/// 256 frames that were forwarded it keeps their source and the bucket of that. A source of none of
/// them has a full bucket. Contracts see the rate, those frames, the newest first, and how many are
/// kept.
#[derive(Drop)]
pub struct SourceBuckets {
    rate: Rate,
    draws: HeapCircularBuffer<SourceDraw>,
}

impl Model for SourceBuckets {
    ghost use Rattle.its_governor.specs.Sources.{SourceState};

    ghost Value = { SourceState };

    ghost view = { λ s. record {
      rate = s.rate;
      draws = s.draws.items;
      limit = s.draws.capacity;
    } };
}

impl SourceBuckets {
    /// A full bucket for each source, and memory for all that will be kept.
    pub fn new(alloc: Global, rate: Rate) -> Result<SourceBuckets, NoMemory>
        ensures { IfOk result (λ s. s ≡ record { rate = rate; draws = []; limit = 256 }) }
    {
        let draws = HeapCircularBuffer::with_capacity(alloc, DRAWS)?;
        Ok(SourceBuckets { rate, draws })
    }

    /// The bucket of a source.
    pub fn bucket_of(&self, source: GnAddress) -> Bucket
        ensures { result ≡ bucket_of self.now.rate source self.now.draws }
    {
        let (newer, older) = self.draws.as_slices();
        match latest(self.rate, newer, source) {
            Some(bucket) => bucket,
            None => match latest(self.rate, older, source) {
                Some(bucket) => bucket,
                None => Bucket::new(self.rate),
            },
        }
    }

    /// Takes a frame of a source out of its bucket. Where 256 frames were kept the oldest goes. It
    /// takes no memory.
    pub fn draw(&mut self, source: GnAddress, now: u64)
        ensures { self.new ≡ with_draw source now self.old }
    {
        let mut bucket = self.bucket_of(source);
        bucket.draw(now);
        self.draws.push_front(SourceDraw {
            source,
            parts: bucket.parts,
            since: bucket.since,
        });
    }
}

/// The bucket of a source after its newest frame among these, if there is one.
fn latest(rate: Rate, draws: &[SourceDraw], source: GnAddress) -> Option<Bucket>
    ensures { result ≡ latest rate source draws.now }
{
    for draw in draws {
        if draw.source == source {
            return Some(Bucket {
                rate,
                parts: draw.parts,
                since: draw.since,
            });
        }
    }
    None
}
