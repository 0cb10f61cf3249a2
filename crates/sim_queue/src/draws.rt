//! The random numbers of a radio model: losses, jitters of beacons, and the start of traffic.

ghost use Rattle.std.specs.Prelude.{◌≡◌, ◌≤◌, ◌<◌, ◌%◌, ℕ, List, IsTrue, ◌↔◌};
ghost use Rattle.rand_core.specs.Stream.{next_u64};
ghost use Rattle.sim_air_model.specs.Draws.{draws_at, draws_of};

use rand_core::{Rng, SeedableRng};
use rand_xoshiro::Xoshiro256PlusPlus;
use std::marker::Model;

/// How many jitters there are: 0 to 750 ms.
const JITTERS: u64 = 751;

/// A generator of random numbers. Contracts see its state as words, which fix all later numbers.
#[derive(Debug, Drop)]
pub struct Draws(Xoshiro256PlusPlus);

impl Model for Draws {
    ghost Value = { List ℕ };

    ghost view = { λ d. d.0 };
}

impl Draws {
    /// Returns the random numbers of a seed: `next_u64` of `Xoshiro256PlusPlus::seed_from_u64`.
    pub fn of_seed(seed: u64) -> Draws
        ensures { draws_at result ≡ draws_of seed }
    {
        Draws(Xoshiro256PlusPlus::seed_from_u64(seed))
    }

    /// Whether a delivery is lost, with this probability in percent. Uses one random number.
    #[inline(always)]
    pub fn is_lost(&mut self, loss: u8) -> bool
        ensures lost { IsTrue result ↔ ((next_u64 (draws_at self.old)).0 % 100 < loss) }
        ensures rest { draws_at self.new ≡ (next_u64 (draws_at self.old)).1 }
    {
        self.0.next_u64() % 100 < u64::from(loss)
    }

    /// Returns a jitter in milliseconds, 0 to 750. Uses one random number.
    pub fn jitter(&mut self) -> u16
        ensures value { result ≡ (next_u64 (draws_at self.old)).0 % 751 }
        ensures rest { draws_at self.new ≡ (next_u64 (draws_at self.old)).1 }
    {
        (self.0.next_u64() % JITTERS) as u16
    }

    /// Returns a random time in milliseconds below a period. Uses one random number.
    pub fn within(&mut self, period: u32) -> u64
        requires { 1 ≤ period }
        ensures value { result ≡ (next_u64 (draws_at self.old)).0 % period }
        ensures rest { draws_at self.new ≡ (next_u64 (draws_at self.old)).1 }
    {
        self.0.next_u64() % u64::from(period)
    }
}
