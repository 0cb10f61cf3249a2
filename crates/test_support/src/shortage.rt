//! Out of memory: a process with no memory except the budget that a test leaves it.
//!
//! `Shortage::new` takes all memory that the process can get, and `leave` gives a budget of it
//! back. From then on each allocation that goes past the budget fails: in the code under test, in
//! std and in the libraries below. If `leave` returns false, more memory is left, and the test
//! shows nothing.
//!
//! **What a budget stands for.** Code that stops at the first allocation that fails is tried with
//! budgets of 0, 16, 32, .. octets until it returns what it does with ample memory. Each of its
//! allocations is then, under some of these budgets, the first that fails: the budgets stand for
//! 'the Nth allocation fails', for N = 1, 2, .. . A call that succeeds under the budget 0 allocates
//! no memory. If the lowest budget at which a call succeeds is that of a single piece as large as
//! its result, it has one allocation and no second.
//!
//! - A piece costs more than its octets (on glibc 8 more, rounded up to 16), so compare budgets,
//!   and do not take them for lengths.
//! - Make all that a test needs before `Shortage::new`, and release the result of a call before the
//!   next `leave`.
//! - Let the budgets of a test rise. For a lower one, released memory is in pieces that the heap
//!   keeps apart, and `leave` may return false. 0 may come last.
//! - One `Shortage` in a test. Each test runs in a process of its own, so no other sees it.
//! - It acts on the heap of a built test. The allocator of an unproved run, which watches for
//!   errors, has memory elsewhere.

use std::alloc::{AllocError, Global};

/// The largest budget of most tests, in octets.
pub const MOST: usize = 100_000;

/// From one budget to the next, in octets: the least by which the heap tells sizes apart.
pub const STEP: usize = 16;

/// The largest piece of a budget: the heap has much larger ones apart, in pages of their own.
const LARGEST_PLUG: usize = 100_000;

/// The most pieces that are held.
const PIECES: usize = 200_000;

/// The largest piece that is asked for: as much as a process can address.
const LARGEST: usize = 1 << 46;

/// The largest small piece. From here down, each size that the heap keeps apart is asked for.
const LARGEST_SMALL: usize = 2048;

/// The smallest piece that is asked for.
const SMALLEST: usize = 8;

/// All memory of the process but for a budget.
#[derive(Drop)]
pub struct Shortage {
    alloc: Global,
    most: usize,
    held: Vec<Vec<u8>>,
    plugs: Vec<Vec<u8>>,
}

impl Shortage {
    /// Takes all memory that is left, with the `MOST` octets out of which `leave` makes its
    /// budgets. An error says that there was no room to note all that is held.
    pub fn new(alloc: Global) -> Result<Shortage, AllocError> {
        Shortage::with_most(alloc, MOST)
    }

    /// The same, with another largest budget.
    pub fn with_most(alloc: Global, most: usize) -> Result<Shortage, AllocError> {
        let held = Vec::with_capacity(alloc, PIECES)?;
        let plugs = Vec::with_capacity(alloc, most / LARGEST_PLUG + 1)?;
        let mut shortage = Shortage {
            alloc,
            most,
            held,
            plugs,
        };
        shortage.plug(most)?;
        let mut size = LARGEST;
        while size > LARGEST_SMALL {
            shortage.take(size)?;
            size /= 2;
        }
        shortage.take_small()?;
        Ok(shortage)
    }

    /// Leaves a budget of about that many octets, the largest at most, in one piece; no octet at 0.
    /// Answers whether it holds: false where the rest cannot be taken back, or a far larger piece
    /// is left.
    #[must_use]
    pub fn leave(&mut self, octets: usize) -> bool {
        self.plugs.clear();
        let is_plugged = self.plug(self.most.saturating_sub(octets)).is_ok();
        if octets == 0 {
            return self.take_small().is_ok();
        }
        // A smaller piece might stay apart in the heap once it is let go, and part the next budget.
        let far_larger = octets.saturating_add(LARGEST_SMALL);
        let left = Vec::<u8>::with_capacity(self.alloc, far_larger);
        is_plugged && left.is_err()
    }

    /// Takes so many octets, the largest budget at most.
    fn plug(&mut self, octets: usize) -> Result<(), AllocError> {
        let mut rest = octets;
        for _ in 0..self.plugs.capacity() {
            let size = rest.min(LARGEST_PLUG);
            self.plugs.push(Vec::with_capacity(self.alloc, size)?)?;
            rest -= size;
        }
        Ok(())
    }

    /// Takes pieces of that many octets until no more are left. Returns an error if there was no
    /// memory to note one more.
    fn take(&mut self, size: usize) -> Result<(), AllocError> {
        for _ in self.held.len()..self.held.capacity() {
            match Vec::with_capacity(self.alloc, size) {
                Ok(piece) => self.held.push(piece)?,
                Err(_) => return Ok(()),
            }
        }
        Err(AllocError)
    }

    /// Takes what is left in small pieces, of each size that the heap keeps apart.
    fn take_small(&mut self) -> Result<(), AllocError> {
        let mut size = LARGEST_SMALL;
        while size >= STEP {
            self.take(size)?;
            size -= STEP;
        }
        self.take(SMALLEST)
    }
}
