//! The frames of a world, by their numbers. Those that are kept have their octets.

ghost use Rattle.std.specs.Prelude.{◌≡◌, ◌<◌, ◌≤◌, ◌+◌, ◌-◌, ◌^◌, [], Some, OnOk};
ghost use Rattle.std.specs.Prelude.{length, drop, min, max};
ghost use Rattle.std.specs.Option.{option_map};
ghost use Rattle.std.specs.VecDeque.{deque_len, deque_capacity};
ghost use Rattle.its_model.specs.World.{with_one_more};
ghost use Rattle.its_world.specs.Frames.{frame_in};

use its_gnvalue::NoMemory;
use std::alloc::Global;
use std::collections::VecDeque;

/// Frames, numbered from 0 in the order in which they were sent. The first ones may have been
/// released. They have no octets then, and the others keep their numbers.
#[derive(Drop)]
pub(crate) struct Air {
    /// The octets of those that are kept, in order.
    kept: VecDeque<Vec<u8>>,
    /// How many were released.
    released: usize,
    ghost numbered: { released + deque_len kept < 2 ^ 64 },
}

impl Air {
    /// No frames.
    pub(crate) fn new(alloc: Global) -> Air
        ensures kept { result.kept.items ≡ [] }
        ensures released { result.released ≡ 0 }
    {
        Air {
            kept: VecDeque::new(alloc),
            released: 0,
        }
    }

    /// Returns how many were released. The frames of these numbers have no octets.
    pub(crate) fn released(&self) -> usize
        ensures { result ≡ self.now.released }
    {
        self.released
    }

    /// Returns how many were sent, which is the number of the next one.
    #[inline(always)]
    pub(crate) fn count(&self) -> usize
        ensures { result ≡ self.now.released + length self.now.kept.items }
    {
        self.released + self.kept.len()
    }

    /// Returns the octets of the frame of a number. `None` if it was released or doesn't exist.
    #[inline(always)]
    pub(crate) fn get(&self, number: usize) -> Option<&[u8]>
        ensures { option_map (λ octets. octets.now) result ≡ option_map (λ w. w.items)
            (frame_in self.now.released self.now.kept.items number) }
    {
        if number < self.released {
            return None;
        }
        match self.kept.get(number - self.released) {
            Some(frame) => Some(frame.as_slice()),
            None => None,
        }
    }

    /// Returns the octets of the frame of a number, which has to be kept.
    pub(crate) fn frame(&self, number: usize) -> &[u8]
        requires kept { self.now.released ≤ number }
        requires given { number < self.now.released + length self.now.kept.items }
        ensures { option_map (λ w. w.items)
            (frame_in self.now.released self.now.kept.items number) ≡ Some result.now }
    {
        self.kept[number - self.released].as_slice()
    }

    /// Reserves memory for one more. `NoMemory` if an allocation failed or no number is left.
    #[inline(always)]
    pub(crate) fn make_room(&mut self) -> Result<(), NoMemory>
        ensures kept { self.new.kept.items ≡ self.old.kept.items }
        ensures released { self.new.released ≡ self.old.released }
        ensures room { OnOk result (deque_len self.new.kept < deque_capacity self.new.kept) }
        ensures number { OnOk result
            (self.new.released + deque_len self.new.kept < 2 ^ 64 - 1) }
    {
        if self.count() == usize::MAX {
            return Err(NoMemory);
        }
        self.kept.reserve(1)?;
        Ok(())
    }

    /// Adds the frame that a station sent, if it sent one, with the next number. Memory for it has
    /// to be reserved.
    #[inline(always)]
    pub(crate) fn number(&mut self, given: Option<Vec<u8>>)
        requires room { deque_len self.old.kept < deque_capacity self.old.kept }
        requires number { self.old.released + deque_len self.old.kept < 2 ^ 64 - 1 }
        ensures released { self.new.released ≡ self.old.released }
        ensures given { self.new.kept.items ≡ with_one_more self.old.kept.items given }
    {
        if let Some(frame) = given {
            self.kept.push_back_reserved(frame);
        }
    }

    /// Releases the frames before this number that exist and are kept.
    pub(crate) fn release(&mut self, before: usize)
        ensures released { self.new.released ≡ max self.old.released
            (min before (self.old.released + length self.old.kept.items)) }
        ensures kept { self.new.kept.items
            ≡ drop (self.new.released - self.old.released) self.old.kept.items }
    {
        let end = before.min(self.count());
        for _gone in 0..end.saturating_sub(self.released) {
            let Some(_) = self.kept.pop_front() else {
                unreachable!()
            };
            self.released += 1;
        }
    }
}
