//! Intervals of whole numbers, with both ends.

ghost use Rattle.std.specs.Prelude.{◌≡◌, ◌≤◌, ◌*◌, ◌^◌, ◌*ℤ◌, unsigned_abs};
ghost use Rattle.its_duties.specs.Places.{IsUpTo, widened, times, plus, minus, ten_thousandths};
ghost use Rattle.its_duties.specs.Places.{farthest, nearest, tolerated, quotient_up, int_least};
ghost use Rattle.its_duties.specs.Places.{int_greatest, nat_greatest};

/// An interval of whole numbers: the lowest and the highest.
#[derive(Clone, Copy)]
pub(crate) struct Interval {
    pub(crate) low: i64,
    pub(crate) high: i64,
}

impl Interval {
    /// The interval, wider by so much on both sides.
    pub(crate) fn widened(self, by: u64) -> Interval
        requires own { IsUpTo (2 ^ 40) self }
        requires by { by ≤ 2 ^ 40 }
        ensures { result ≡ widened by self }
    {
        let by = by as i64;
        Interval {
            low: self.low - by,
            high: self.high + by,
        }
    }

    /// Its numbers, each times the same: a sine or a cosine.
    pub(crate) fn times(self, factor: i64) -> Interval
        requires own { IsUpTo (2 ^ 37) self }
        requires factor { unsigned_abs factor ≤ 10000 }
        ensures value { result ≡ times self factor }
        ensures bound { IsUpTo 1374389534720000 result }
    {
        let first = product(self.low, factor);
        let second = product(self.high, factor);
        Interval {
            low: least(first, second),
            high: greatest(first, second),
        }
    }

    /// The sums of its numbers and those of another.
    pub(crate) fn plus(self, other: Interval) -> Interval
        requires own { IsUpTo 1374389534720000 self }
        requires other { IsUpTo 1374389534720000 other }
        ensures value { result ≡ plus self other }
        ensures bound { IsUpTo 2748779069440000 result }
    {
        Interval {
            low: self.low + other.low,
            high: self.high + other.high,
        }
    }

    /// The differences of its numbers and those of another.
    pub(crate) fn minus(self, other: Interval) -> Interval
        requires own { IsUpTo 1374389534720000 self }
        requires other { IsUpTo 1374389534720000 other }
        ensures value { result ≡ minus self other }
        ensures bound { IsUpTo 2748779069440000 result }
    {
        Interval {
            low: self.low - other.high,
            high: self.high - other.low,
        }
    }

    /// The quotients of its numbers by 10000.
    pub(crate) fn ten_thousandths(self) -> Interval
        requires own { IsUpTo 2748779069440000 self }
        ensures value { result ≡ ten_thousandths self }
        ensures bound { IsUpTo (2 ^ 38) result }
    {
        Interval {
            low: self.low / 10000,
            high: self.high / 10000,
        }
    }

    /// The interval, wider by so much per mille of itself on both sides.
    pub(crate) fn tolerated(self, mille: u16) -> Interval
        requires own { IsUpTo 2010400000 self }
        ensures value { result ≡ tolerated mille self }
        ensures bound { IsUpTo (2 ^ 37) result }
    {
        let low = per_mille(self.low.unsigned_abs(), mille) as i64;
        let high = per_mille(self.high.unsigned_abs(), mille) as i64;
        Interval {
            low: self.low - low,
            high: self.high + high,
        }
    }

    /// The greatest magnitude of its numbers.
    pub(crate) fn farthest(self) -> u64
        requires own { IsUpTo (2 ^ 38) self }
        ensures value { result ≡ farthest self }
        ensures bound { result ≤ 2 ^ 38 }
    {
        let low = self.low.unsigned_abs();
        let high = self.high.unsigned_abs();
        if low < high { high } else { low }
    }

    /// The least magnitude of its numbers.
    pub(crate) fn nearest(self) -> u64
        requires own { IsUpTo (2 ^ 38) self }
        ensures value { result ≡ nearest self }
        ensures bound { result ≤ 2 ^ 38 }
    {
        if 0 < self.low {
            return self.low.unsigned_abs();
        }
        if self.high < 0 {
            return self.high.unsigned_abs();
        }
        0
    }
}

/// An end of an interval times a sine or a cosine.
fn product(end: i64, factor: i64) -> i64
    requires end { unsigned_abs end ≤ 2 ^ 37 }
    requires factor { unsigned_abs factor ≤ 10000 }
    ensures value { result ≡ end *ℤ factor }
    ensures bound { unsigned_abs result ≤ 1374389534720000 }
{
    end * factor
}

/// So much per mille of a length, rounded up.
fn per_mille(length: u64, mille: u16) -> u64
    requires { length ≤ 2010400000 }
    ensures value { result ≡ quotient_up (length * mille) 1000 }
    ensures bound { result ≤ 131751564001 }
{
    (length * mille as u64 + 1000 - 1) / 1000
}

/// The lesser of two.
fn least(a: i64, b: i64) -> i64
    requires a { unsigned_abs a ≤ 1374389534720000 }
    requires b { unsigned_abs b ≤ 1374389534720000 }
    ensures value { result ≡ int_least a b }
    ensures bound { unsigned_abs result ≤ 1374389534720000 }
{
    if b < a { b } else { a }
}

/// The greater of two.
fn greatest(a: i64, b: i64) -> i64
    requires a { unsigned_abs a ≤ 1374389534720000 }
    requires b { unsigned_abs b ≤ 1374389534720000 }
    ensures value { result ≡ int_greatest a b }
    ensures bound { unsigned_abs result ≤ 1374389534720000 }
{
    if a < b { b } else { a }
}
