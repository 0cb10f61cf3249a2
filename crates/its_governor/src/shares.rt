//! The frames that were forwarded last, and the shares of their sources.

ghost use Rattle.std.specs.Prelude.{◌≡◌, ◌-◌, ◌*◌, ◌≤◌, [], max, nat_lt, IfOk};
ghost use Rattle.its_governor.specs.Shares.{sharers, has_sharer, is_recent, is_within_share};
ghost use Rattle.its_governor.specs.Shares.{with_frame, counted_with, counted_without};
ghost use Rattle.std.specs.List.{list_any};

use crate::rate::Rate;
use circular_buffer::HeapCircularBuffer;
use its_gnvalue::{GnAddress, NoMemory};
use std::alloc::Global;
use std::marker::Model;

/// How many of the frames that were forwarded last are kept.
const FRAMES: usize = 256;

/// A frame that was forwarded: its source, when it was, in milliseconds, and whether the bucket of
/// all forwarded frames was under pressure then.
#[derive(Clone, Copy, Debug, PartialEq, Eq)]
pub struct SharedFrame {
    pub(crate) source: GnAddress,
    pub(crate) time: u64,
    pub(crate) pressed: bool,
}

/// The last 256 frames that were forwarded, and how many different sources had one of them under
/// pressure: these share the rate of all forwarded frames. Contracts see the frames, the newest
/// first, and how many are kept.
#[derive(Drop)]
pub struct Shares {
    frames: HeapCircularBuffer<SharedFrame>,
    count: u16,
}

impl Model for Shares {
    ghost use Rattle.its_governor.specs.Shares.{ShareState, IsTally};

    ghost Value = { ShareState };

    ghost view = { λ s. record { frames = s.frames.items; limit = s.frames.capacity } };

    ghost invariant = { λ s. IsTally s.frames.items s.frames.capacity s.count };
}

impl Shares {
    /// No frame yet, and memory for all that will be kept.
    pub fn new(alloc: Global) -> Result<Shares, NoMemory>
        ensures { IfOk result (λ s. s ≡ record { frames = []; limit = 256 }) }
    {
        let frames = HeapCircularBuffer::with_capacity(alloc, FRAMES)?;
        Ok(Shares { frames, count: 0 })
    }

    /// Whether a source is within its share of this rate: with N sources that share it, no frame of
    /// the source was forwarded in the time in which N frames are added to the bucket.
    pub fn is_within_share(&self, rate: Rate, source: GnAddress, now: u64) -> bool
        ensures { result ≡ is_within_share rate self.now.frames source now }
    {
        let (newer, older) = self.frames.as_slices();
        !has_recent(newer, rate, self.count, source, now)
            && !has_recent(older, rate, self.count, source, now)
    }

    /// Keeps a frame that was forwarded. If 256 frames were kept, the oldest goes. It takes no
    /// memory.
    pub fn note(&mut self, frame: SharedFrame)
        ensures { self.new ≡ with_frame frame self.old }
    {
        let count = count_with(self.count, &self.frames, &frame);
        let oldest = self.frames.push_front(frame);
        self.count = count_without(count, &self.frames, oldest);
    }
}

/// The count of the sources that share, with one more frame before these.
fn count_with(count: u16, frames: &HeapCircularBuffer<SharedFrame>, frame: &SharedFrame) -> u16
    requires { count ≤ 256 }
    ensures { result ≡ counted_with count frames.now.items frame.now }
{
    if frame.pressed && !is_sharer(frames, frame.source) {
        count + 1
    } else {
        count
    }
}

/// The count of the sources that share, without the oldest frame, if it goes.
fn count_without(
    count: u16,
    frames: &HeapCircularBuffer<SharedFrame>,
    oldest: Option<SharedFrame>,
) -> u16
    ensures { result ≡ counted_without count oldest frames.now.items }
{
    match oldest {
        Some(oldest) if oldest.pressed && !is_sharer(frames, oldest.source) => {
            count.saturating_sub(1)
        }
        _ => count,
    }
}

/// Whether a source has a frame among these that was forwarded under pressure.
fn is_sharer(frames: &HeapCircularBuffer<SharedFrame>, source: GnAddress) -> bool
    ensures { result ≡ has_sharer source frames.now.items }
{
    let (newer, older) = frames.as_slices();
    shared_by(newer, source) || shared_by(older, source)
}

/// Whether a source has a frame among these that was forwarded under pressure.
fn shared_by(frames: &[SharedFrame], source: GnAddress) -> bool
    ensures { result ≡ has_sharer source frames.now }
{
    frames.iter().any(|f| f.pressed && f.source == source)
}

/// Whether a frame of a source among these was forwarded less than a share ago.
fn has_recent(frames: &[SharedFrame], rate: Rate, count: u16, source: GnAddress, now: u64) -> bool
    ensures { result ≡ list_any (is_recent rate count source now) frames.now }
{
    frames.iter().any(|f| f.source == source
        && is_short(rate.per_second, now.saturating_sub(f.time), count))
}

/// Whether fewer frames are added to a bucket in this time, in milliseconds, than these sources are.
fn is_short(per_second: u32, elapsed: u64, count: u16) -> bool
    ensures { result ≡ nat_lt (per_second * elapsed) (1000 * max 1 count) }
{
    let added = u64::from(per_second).saturating_mul(elapsed);
    added < 1000 * u64::from(count.max(1))
}
