//! What the sorted table keeps of a source. Its sequence numbers stand in a row of the table's
//! vector of numbers, so a slot owns no memory and is moved by copying it.

ghost use Rattle.std.specs.Prelude.{◌≡◌, ◌+◌, ◌^◌, ◌≤◌, Some, None, take, vec_len};
ghost use Rattle.its_model.specs.History.{entry_life, renewed, with_number};
ghost use Rattle.its_loctable.specs.Heard.{reception, shown, has_number, is_noted};
ghost use Rattle.its_loctable.specs.Rows.{numbers_at, IsRow, HasRow, AreOthersKept};
ghost use Rattle.its_loctable.specs.Sorted.{known_by, live_part_by, bare_known};

use super::rows::{insert_first, start_of};
use crate::heard::{Heard, Known};
use crate::renewal::{end_after, refresh};
use its_gnvalue::{GnAddress, LongPv};

/// What is kept of a source.
#[derive(Clone, Copy)]
pub struct SortedSlot {
    /// The position vector of the newest packet by its time stamp.
    pub vector: LongPv,
    /// The first moment at which the source isn't live.
    pub until: u64,
    /// Which row of the table's numbers is the source's.
    pub row: u16,
    /// How many numbers of it stand there.
    pub count: u8,
    /// Whether a BEACON or a single-hop broadcast of it came: it is a neighbour.
    pub neighbour: bool,
}

impl SortedSlot {
    /// The slot of a source that wasn't live, by a packet of it. It is handed a row that no other
    /// slot has.
    pub fn first(
        row: u16,
        numbers: &mut Vec<u16>,
        remembered: u8,
        now: u64,
        heard: &Heard,
    ) -> SortedSlot
        requires moment { now ≤ 2 ^ 62 }
        requires some { 1 ≤ remembered }
        requires row { IsRow remembered (vec_len numbers.old) row }
        ensures known { known_by (numbers_at remembered numbers.new.items) result
            ≡ renewed remembered None (reception now heard.now) }
        ensures address { result.vector.address ≡ heard.now.vector.address }
        ensures until { result.until ≡ now + entry_life }
        ensures row { result.row ≡ row }
        ensures few { result.count ≤ remembered }
        ensures others { AreOthersKept remembered row numbers.old.items numbers.new.items }
        ensures len { vec_len numbers.new ≡ vec_len numbers.old }
    {
        let mut slot = SortedSlot {
            vector: heard.vector(),
            until: end_after(now),
            row,
            count: 0,
            neighbour: heard.neighbour(),
        };
        slot.note(numbers, remembered, heard.number());
        slot
    }

    /// Puts the number of a packet, if it has one, before the source's others. Where the row is
    /// full, the oldest goes.
    #[inline(always)]
    fn note(&mut self, numbers: &mut Vec<u16>, remembered: u8, number: Option<u16>)
        requires some { 1 ≤ remembered }
        requires row { HasRow remembered (vec_len numbers.old) self.old }
        ensures noted { numbers_at remembered numbers.new.items self.new
            ≡ take remembered
            (with_number number (numbers_at remembered numbers.old.items self.old)) }
        ensures slot { self.new ≡ record self.old { count = self.new.count } }
        ensures few { self.new.count ≤ remembered }
        ensures others { AreOthersKept remembered self.old.row numbers.old.items
            numbers.new.items }
        ensures len { vec_len numbers.new ≡ vec_len numbers.old }
    {
        if let Some(number) = number {
            let kept = self.count.min(remembered - 1);
            let start = start_of(self.row, remembered);
            insert_first(numbers, start, kept as usize, number);
            self.count = kept + 1;
        }
    }

    /// One more packet of a live source.
    #[inline(always)]
    fn hear(&mut self, numbers: &mut Vec<u16>, remembered: u8, now: u64, heard: &Heard)
        requires moment { now ≤ 2 ^ 62 }
        requires some { 1 ≤ remembered }
        requires row { HasRow remembered (vec_len numbers.old) self.old }
        ensures known { known_by (numbers_at remembered numbers.new.items) self.new
            ≡ renewed remembered
            (Some (known_by (numbers_at remembered numbers.old.items) self.old))
            (reception now heard.now) }
        ensures address { self.old.vector.address ≡ heard.now.vector.address →
            self.new.vector.address ≡ heard.now.vector.address }
        ensures until { self.new.until ≡ now + entry_life }
        ensures row { self.new.row ≡ self.old.row }
        ensures few { self.new.count ≤ remembered }
        ensures others { AreOthersKept remembered self.old.row numbers.old.items
            numbers.new.items }
        ensures len { vec_len numbers.new ≡ vec_len numbers.old }
    {
        refresh(&mut self.vector, heard.vector());
        self.neighbour = heard.neighbour() || self.neighbour;
        self.until = end_after(now);
        self.note(numbers, remembered, heard.number());
    }

    /// One more packet of the source, whether it is live or not. Where it isn't, nothing of what
    /// was known remains.
    #[inline(always)]
    pub fn renew(&mut self, numbers: &mut Vec<u16>, remembered: u8, now: u64, heard: &Heard)
        requires moment { now ≤ 2 ^ 62 }
        requires some { 1 ≤ remembered }
        requires row { HasRow remembered (vec_len numbers.old) self.old }
        requires same { self.old.vector.address ≡ heard.now.vector.address }
        ensures known { known_by (numbers_at remembered numbers.new.items) self.new
            ≡ renewed remembered
            (live_part_by (numbers_at remembered numbers.old.items) now self.old)
            (reception now heard.now) }
        ensures address { self.new.vector.address ≡ heard.now.vector.address }
        ensures until { self.new.until ≡ now + entry_life }
        ensures row { self.new.row ≡ self.old.row }
        ensures few { self.new.count ≤ remembered }
        ensures others { AreOthersKept remembered self.old.row numbers.old.items
            numbers.new.items }
        ensures len { vec_len numbers.new ≡ vec_len numbers.old }
    {
        if now < self.until {
            self.hear(numbers, remembered, now, heard);
        } else {
            *self = SortedSlot::first(self.row, numbers, remembered, now, heard);
        }
    }

    /// The address of the source.
    pub fn address(&self) -> GnAddress
        ensures { result ≡ self.now.vector.address }
    {
        self.vector.address()
    }

    /// What is shown of the source.
    pub fn known(&self) -> Known
        ensures { result ≡ shown (bare_known self.now) }
    {
        Known {
            vector: self.vector,
            neighbour: self.neighbour,
        }
    }

    /// Whether a number is kept of the source.
    #[inline(always)]
    pub fn remembers(&self, numbers: &Vec<u16>, remembered: u8, number: u16) -> bool
        requires { HasRow remembered (vec_len numbers.now) self.now }
        ensures { result
            ≡ has_number (Some (known_by (numbers_at remembered numbers.now.items) self.now))
            number }
    {
        let start = start_of(self.row, remembered);
        numbers[start..start + self.count as usize]
            .iter()
            .any(|kept| *kept == number)
    }

    /// Whether the source is live, and a packet's number is kept of it.
    #[inline(always)]
    pub fn repeats(&self, numbers: &Vec<u16>, remembered: u8, now: u64, heard: &Heard) -> bool
        requires { HasRow remembered (vec_len numbers.now) self.now }
        ensures { result
            ≡ is_noted (live_part_by (numbers_at remembered numbers.now.items) now self.now)
            heard.now.number }
    {
        match heard.number() {
            Some(number) => now < self.until && self.remembers(numbers, remembered, number),
            None => false,
        }
    }
}
