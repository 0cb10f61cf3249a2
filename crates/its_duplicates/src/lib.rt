//! The sequence numbers that came last from one source, to tell a duplicate packet by.
//!
//! # What is proved
//!
//! `Recent` is the list of the sequence numbers that are remembered of a source, as many as its
//! limit, which is 1 to 64. `holds` is true exactly where a number is kept; after `note` the number
//! stands last, and the last numbers are kept, as many as the limit, which stays. `new` is an empty
//! list, or out of memory; no other call takes memory. Its tests are those of the table
//! (`its_loctable`).
#![tactic(auto)]

ghost use Rattle.std.specs.Prelude.{◌≡◌, ◌≤◌, ◌==◌, [], ◌∷◌, ◌++◌, length, IfOk};
ghost use Rattle.std.specs.List.{list_any};
ghost use Rattle.its_duplicates.specs.Numbers.{keep_last};

use circular_buffer::HeapCircularBuffer;
use its_gnvalue::NoMemory;
use std::alloc::Global;
use std::marker::Model;

/// The numbers that were noted last, as many as its limit at most. Contracts see them as a list,
/// the last noted last, and see the limit beside it.
#[derive(Drop)]
pub struct Recent {
    ring: HeapCircularBuffer<u16>,
}

impl Model for Recent {
    ghost use Rattle.std.specs.Prelude.{◌≤◌, length};
    ghost use Rattle.its_duplicates.specs.Numbers.{LastNumbers};

    ghost Value = { LastNumbers };

    ghost view = { λ r. record { numbers = r.ring.items; limit = r.ring.capacity } };

    ghost invariant = { λ r. length r.ring.items ≤ r.ring.capacity };
}

impl Recent {
    /// No number yet, and memory for all that will be kept: `limit` of them, 1 to 64.
    pub fn new(alloc: Global, limit: u8) -> Result<Recent, NoMemory>
        requires { (1 ≤ limit) × (limit ≤ 64) }
        ensures { IfOk result (λ recent. recent ≡ record { numbers = []; limit = limit }) }
    {
        let ring = HeapCircularBuffer::with_capacity(alloc, limit as usize)?;
        Ok(Recent { ring })
    }

    /// Whether the number is among those that are kept.
    pub fn holds(&self, number: u16) -> bool
        ensures found { result ≡ list_any (λ kept. kept == number) self.now.numbers }
        ensures few { length self.now.numbers ≤ self.now.limit }
    {
        // Two slices are walked faster than the ring's own iterator.
        let (older, newer) = self.ring.as_slices();
        is_among(older, number) || is_among(newer, number)
    }

    /// Puts a number last; where as many as are kept were there, the first goes. Takes no memory.
    pub fn note(&mut self, number: u16)
        ensures numbers { self.new.numbers
            ≡ keep_last self.old.limit (self.old.numbers ++ number ∷ []) }
        ensures limit { self.new.limit ≡ self.old.limit }
        ensures few { length self.new.numbers ≤ self.new.limit }
    {
        self.ring.push_back(number);
    }

    /// Forgets all numbers. Takes no memory.
    pub fn clear(&mut self)
        ensures { self.new ≡ record self.old { numbers = [] } }
    {
        self.ring.clear();
    }
}

/// Whether a number is among these.
fn is_among(numbers: &[u16], number: u16) -> bool
    ensures { result ≡ list_any (λ kept. kept == number) numbers.now }
{
    numbers.iter().any(|kept| *kept == number)
}
