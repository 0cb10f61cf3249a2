//! A token bucket.

ghost use Rattle.std.specs.Prelude.{◌≡◌, ◌*◌, ◌<◌, nat_lt};
ghost use Rattle.its_governor.specs.Bucket.{full, parts_at, has_room, is_low, drawn};
ghost use Rattle.its_governor.specs.Pressure.{turns_of};

use crate::rate::Rate;

/// The thousandths of a frame that a frame takes.
const FRAME: u64 = 1000;

/// A token bucket over whole milliseconds: it holds thousandths of a frame, so that each
/// millisecond adds as many of them as the rate has frames per second. It begins full.
#[derive(Clone, Copy, Debug, PartialEq, Eq)]
pub struct Bucket {
    pub(crate) rate: Rate,
    pub(crate) parts: u64,
    pub(crate) since: u64,
}

impl Bucket {
    /// A full bucket.
    pub fn new(rate: Rate) -> Bucket
        ensures { result ≡ full rate }
    {
        Bucket {
            rate,
            parts: capacity_of(rate),
            since: 0,
        }
    }

    /// The rate of the bucket.
    pub fn rate(&self) -> Rate
        ensures { result ≡ self.now.rate }
    {
        self.rate
    }

    /// Whether a frame may pass at this time, in milliseconds. None may at a time before that of
    /// the last frame that passed.
    pub fn has_room(&self, now: u64) -> bool
        ensures { result ≡ has_room self.now now }
    {
        self.since <= now && self.parts_at(now) >= FRAME
    }

    /// Whether the bucket holds less than four fifths of its burst.
    pub fn is_low(&self, now: u64) -> bool
        ensures { result ≡ is_low self.now now }
    {
        self.parts_at(now) < u64::from(self.rate.burst) * (FRAME / 5 * 4)
    }

    /// Whether the bucket holds more frames than this.
    pub(crate) fn holds_more_than(&self, frames: u32, now: u64) -> bool
        ensures { result ≡ nat_lt (1000 * frames) (parts_at self.now now) }
    {
        FRAME * u64::from(frames) < self.parts_at(now)
    }

    /// Takes a frame out of the bucket, which has room for it.
    pub fn draw(&mut self, now: u64)
        ensures { self.new ≡ drawn self.old now }
    {
        self.parts = self.parts_at(now).saturating_sub(FRAME);
        self.since = now;
    }

    /// The thousandths of a frame in the bucket.
    fn parts_at(&self, now: u64) -> u64
        ensures { result ≡ parts_at self.now now }
    {
        let elapsed = now.saturating_sub(self.since);
        let added = u64::from(self.rate.per_second).saturating_mul(elapsed);
        self.parts.saturating_add(added).min(capacity_of(self.rate))
    }
}

/// How many turns there are under pressure: the whole frames of four fifths of a burst, and at least
/// one.
pub(crate) fn turns_of(rate: Rate) -> u32
    ensures turns { result ≡ turns_of rate }
    ensures some { 0 < result }
{
    ((u64::from(rate.burst) * 4 / 5) as u32).max(1)
}

/// The size of a bucket, in thousandths of a frame.
fn capacity_of(rate: Rate) -> u64
    ensures { result ≡ 1000 * rate.burst }
{
    u64::from(rate.burst) * FRAME
}
