//! What a store keeps of a source.

ghost use Rattle.std.specs.Prelude.{◌≡◌, ◌+◌, ◌^◌, ◌≤◌, [], length, Some, None};
ghost use Rattle.its_model.specs.History.{entry_life, renewed};
ghost use Rattle.its_loctable.specs.Heard.{reception, shown, has_number};

use crate::heard::{Heard, Known};
use crate::renewal::{end_after, note, refresh};
use its_duplicates::Recent;
use its_gnvalue::LongPv;

/// What is kept of a source.
#[derive(Drop)]
pub struct Slot {
    /// The position vector of the newest packet by its time stamp.
    pub vector: LongPv,
    /// Whether a BEACON or a single-hop broadcast of it came: it is a neighbour.
    pub neighbour: bool,
    /// The first moment at which the source isn't live.
    pub until: u64,
    /// The sequence numbers that are remembered.
    pub recent: Recent,
    ghost few: { length recent.numbers ≤ recent.limit },
}

impl Slot {
    ghost use Rattle.its_loctable.specs.Slots.{slot_known};

    /// The slot of a source that wasn't live, by a packet of it. It is handed an empty list for its
    /// numbers.
    pub fn first(recent: Recent, now: u64, heard: &Heard) -> Slot
        requires moment { now ≤ 2 ^ 62 }
        requires empty { recent.numbers ≡ [] }
        ensures known { slot_known result ≡ renewed recent.limit None (reception now heard.now) }
        ensures address { result.vector.address ≡ heard.now.vector.address }
        ensures until { result.until ≡ now + entry_life }
        ensures limit { result.recent.limit ≡ recent.limit }
    {
        let mut recent = recent;
        note(&mut recent, heard.number());
        Slot {
            vector: heard.vector(),
            neighbour: heard.neighbour(),
            until: end_after(now),
            recent,
        }
    }

    /// One more packet of a live source.
    pub fn hear(&mut self, now: u64, heard: &Heard)
        requires { now ≤ 2 ^ 62 }
        ensures known { slot_known self.new
            ≡ renewed self.old.recent.limit (Some (slot_known self.old)) (reception now heard.now) }
        ensures address { self.old.vector.address ≡ heard.now.vector.address →
            self.new.vector.address ≡ heard.now.vector.address }
        ensures until { self.new.until ≡ now + entry_life }
        ensures limit { self.new.recent.limit ≡ self.old.recent.limit }
    {
        refresh(&mut self.vector, heard.vector());
        self.neighbour = heard.neighbour() || self.neighbour;
        note(&mut self.recent, heard.number());
        self.until = end_after(now);
    }

    /// What is shown of the source.
    pub fn known(&self) -> Known
        ensures { result ≡ shown (slot_known self.now) }
    {
        Known {
            vector: self.vector,
            neighbour: self.neighbour,
        }
    }

    /// Whether a number is kept of the source.
    pub fn remembers(&self, number: u16) -> bool
        ensures { result ≡ has_number (Some (slot_known self.now)) number }
    {
        self.recent.holds(number)
    }
}
