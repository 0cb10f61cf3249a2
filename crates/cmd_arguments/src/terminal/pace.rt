//! How fast something is done, and how long the rest takes.

ghost use Rattle.std.specs.Prelude.{◌≡◌, ◌*◌, ◌/◌, ◌-◌, ◌^◌, ◌<◌, ◌≤◌, ◌⊎◌, IfNone, IfSome};

/// The progress of something.
#[derive(Clone, Copy, Debug, PartialEq, Eq)]
pub struct Pace {
    /// How much of it is done.
    pub done: u64,
    /// How much it is in all.
    pub all: u64,
    /// How many milliseconds it has taken up to now.
    pub elapsed: u64,
}

impl Pace {
    /// Returns how much is done per second. `None` before the first millisecond is over, and if the
    /// computation needs more than 64 bits.
    pub fn rate(self) -> Option<u64>
        ensures rate { IfSome result (λ rate. rate ≡ self.done * 1000 / self.elapsed) }
        ensures none { IfNone result ((self.elapsed ≡ 0) ⊎ (2 ^ 64 ≤ self.done * 1000)) }
    {
        product_over(self.done, 1000, self.elapsed)
    }

    /// Returns how many milliseconds are left at this rate. `None` if nothing is done, if more than
    /// all is done, and if the computation needs more than 64 bits.
    pub fn left(self) -> Option<u64>
        ensures left { IfSome result
            (λ left. left ≡ self.elapsed * (self.all - self.done) / self.done) }
        ensures none { IfNone result ((self.done ≡ 0) ⊎ (self.all < self.done)
            ⊎ (2 ^ 64 ≤ self.elapsed * (self.all - self.done))) }
    {
        let rest = self.all.checked_sub(self.done)?;
        product_over(self.elapsed, rest, self.done)
    }
}

/// Returns a product divided by a divisor. `None` if the divisor is 0, or the product needs more
/// than 64 bits.
fn product_over(one: u64, other: u64, divisor: u64) -> Option<u64>
    ensures quotient { IfSome result (λ quotient. quotient ≡ one * other / divisor) }
    ensures none { IfNone result ((divisor ≡ 0) ⊎ (2 ^ 64 ≤ one * other)) }
{
    one.checked_mul(other)?.checked_div(divisor)
}
