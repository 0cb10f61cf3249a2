//! The hops of a packet: how many are left, of how many (EN 302 636-4-1, RHL and MHL).

ghost use Rattle.std.specs.Prelude.{◌≡◌, ◌≤◌, ◌<◌, ◌^◌, ◌⊎◌, MatchOption};

use std::marker::Model;

/// How many hops a packet has left (RHL) and how many it had at most (MHL): 1 <= left <= max <=
/// 255.
#[derive(Clone, Copy, Debug, PartialEq, Eq)]
pub struct Hops {
    left: u8,
    max: u8,
}

impl Model for Hops {
    ghost use Rattle.std.specs.Prelude.{◌<◌, ◌≤◌};
    ghost use Rattle.its_gnvalue.specs.Values.{HopPair};

    ghost Value = { HopPair };

    ghost view = { λ h. record { left = h.left; max = h.max } };

    ghost invariant = { λ h. (0 < h.left) × (h.left ≤ h.max) };

    ghost inverse = { λ h. record { left = h.left; max = h.max } };
}

impl Hops {
    /// The pair, or nothing exactly where `left` is 0 or over `max`.
    pub fn new(left: u8, max: u8) -> Option<Hops>
        ensures { MatchOption result
            ((left ≡ 0) ⊎ (max < left))
            (λ h. (h ≡ record { left = left; max = max }) × (0 < left) × (left ≤ max)) }
    {
        if left == 0 || left > max {
            return None;
        }
        Some(Hops::within(left, max))
    }

    /// The pair, of which `left` has to be neither 0 nor over `max`.
    pub fn within(left: u8, max: u8) -> Hops
        requires some { 0 < left }
        requires below { left ≤ max }
        ensures { result ≡ record { left = left; max = max } }
    {
        Hops { left, max }
    }

    /// How many hops are left, this one included.
    pub fn left(self) -> u8
        ensures value { result ≡ self.left }
        ensures range { (0 < self.left) × (self.left ≤ self.max) × (self.max < 256) }
    {
        self.left
    }

    /// How many hops there were at most.
    pub fn max(self) -> u8
        ensures value { result ≡ self.max }
        ensures range { (0 < self.left) × (self.left ≤ self.max) × (self.max < 256) }
    {
        self.max
    }
}
