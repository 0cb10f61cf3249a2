//! The table in a map. Expired slots lie until their room is needed.

ghost use Rattle.std.specs.Prelude.{◌≡◌, ◌^◌, ◌<◌, ◌≤◌};
ghost use Rattle.std.specs.Prelude.{ℕ, None, nat_eq, nat_le, nat_lt, count_by, fold, is_some};
ghost use Rattle.std.specs.Prelude.{IsTrue, IfSome, IfNone, OnOk, OnErr};
ghost use Rattle.std.specs.List.{list_any};
ghost use Rattle.std.specs.Option.{option_map};
ghost use Rattle.indexmap.specs.IndexMap.{get, IsUnique, index_map_len, spare};
ghost use Rattle.its_loctable.specs.Heard.{reception, shown, is_noted};
ghost use Rattle.its_loctable.specs.Content.{entry_at, Hears};
ghost use Rattle.its_loctable.specs.Slots.{slot_known};
ghost use Rattle.its_loctable.specs.Ordered.{HaveLimit};

mod wanted;

use crate::heard::{Heard, Known};
use crate::refused::StoreRefused;
use crate::slot::Slot;
use crate::store::{LocationStore, Verdict};
use indexmap::IndexMap;
use its_duplicates::Recent;
use its_gnvalue::{GnAddress, LongPv, Mac, NoMemory};
use std::alloc::Global;
use wanted::Wanted;

/// A location table in a map. New sources stand in the order in which they came, until one takes
/// the room of an expired slot: then the last slot takes that one's place. Making a table takes no
/// memory; each new source takes some.
#[derive(Drop)]
pub struct OrderedTable {
    alloc: Global,
    capacity: u16,
    remembered: u8,
    slots: IndexMap<GnAddress, Slot>,
    ghost within: { index_map_len slots ≤ capacity },
    ghost lengths: { (1 ≤ remembered) × (remembered ≤ 64) },
    ghost limits: { HaveLimit remembered slots.entries },
}

impl OrderedTable {
    ghost use Rattle.its_loctable.specs.Ordered.{contained, IsExpired};
    ghost use Rattle.its_loctable.specs.Wanted.{is_wanted, better};

    /// Whether fewer slots are live than the capacity.
    fn has_place(&self, now: u64) -> bool
        ensures place { result
            ≡ nat_lt (count_by (λ e. nat_lt now e.1.until) self.now.slots.entries)
            self.now.capacity }
        ensures unique { IsUnique nat_eq self.now.slots }
    {
        self.slots.len() < self.capacity as usize || self.has_expired(now)
    }

    /// Whether a slot has expired.
    fn has_expired(&self, now: u64) -> bool
        ensures { result ≡ list_any (λ e. nat_le e.1.until now) self.now.slots.entries }
    {
        self.slots.iter().any(|(_, slot)| slot.until <= now)
    }

    /// The slot of a live source.
    fn live_slot(&self, now: u64, address: GnAddress) -> Option<&Slot>
        ensures { option_map (λ slot. slot_known slot.now) result
            ≡ entry_at (contained self.now.slots.entries) address now }
    {
        match self.slots.get(&address) {
            Some(slot) => if now < slot.until { Some(slot) } else { None },
            None => None,
        }
    }

    /// Whether a source is live.
    fn is_live(&self, now: u64, address: GnAddress) -> bool
        ensures { result ≡ is_some (entry_at (contained self.now.slots.entries) address now) }
    {
        self.live_slot(now, address).is_some()
    }

    /// What is shown of the live source of least address that is wanted.
    fn least(&self, now: u64, wanted: Wanted) -> Option<Known>
        ensures least { result ≡ option_map shown
            (fold (better (is_wanted wanted) now) None (contained self.now.slots.entries)) }
        ensures unique { IsUnique nat_eq self.now.slots }
    {
        let mut best: Option<Known> = None;
        for i in 0..self.slots.len() {
            if let Some((_, slot)) = self.slots.get_index(i) {
                best = wanted.improve(best, now, slot);
            }
        }
        best
    }

    /// Whether the packet's number is remembered of its source.
    fn is_repeated(&self, now: u64, heard: &Heard) -> bool
        ensures { result
            ≡ is_noted (entry_at (contained self.now.slots.entries) heard.now.vector.address now)
            heard.now.number }
    {
        match (heard.number(), self.live_slot(now, heard.address())) {
            (Some(number), Some(slot)) => slot.remembers(number),
            _ => false,
        }
    }

    /// Takes the packet into the slot of its source, which is live.
    fn refresh(&mut self, now: u64, heard: &Heard)
        requires moment { now ≤ 2 ^ 62 }
        requires live { IsTrue
            (is_some (entry_at (contained self.old.slots.entries) heard.now.vector.address now)) }
        ensures hears { Hears self.old.remembered (contained self.old.slots.entries)
            (contained self.new.slots.entries) (reception now heard.now) }
        ensures capacity { self.new.capacity ≡ self.old.capacity }
        ensures remembered { self.new.remembered ≡ self.old.remembered }
    {
        if let Some(slot) = self.slots.get_mut(&heard.address()) {
            slot.hear(now, heard);
        }
    }

    /// The address of an expired slot.
    fn first_expired(&self, now: u64) -> Option<GnAddress>
        ensures expired { IfSome result (λ address. IsExpired self.now.slots.entries address now) }
        ensures none { IfNone result
            (count_by (λ e. nat_lt now e.1.until) self.now.slots.entries
            ≡ index_map_len self.now.slots) }
    {
        for i in 0..self.slots.len() {
            if let Some((address, slot)) = self.slots.get_index(i) {
                if slot.until <= now {
                    return Some(*address);
                }
            }
        }
        None
    }

    /// Removes an expired slot of a table that has no room for another.
    fn evict(&mut self, now: u64)
        requires live { count_by (λ e. nat_lt now e.1.until) self.old.slots.entries
            < self.old.capacity }
        requires full { self.old.capacity ≤ index_map_len self.old.slots }
        ensures same { (t source : ℕ) → now ≤ t →
            entry_at (contained self.new.slots.entries) source t
            ≡ entry_at (contained self.old.slots.entries) source t }
        ensures room { index_map_len self.new.slots < self.new.capacity }
        ensures spare { spare self.old.slots ≤ spare self.new.slots }
        ensures capacity { self.new.capacity ≡ self.old.capacity }
        ensures remembered { self.new.remembered ≡ self.old.remembered }
    {
        if let Some(address) = self.first_expired(now) {
            let _ = self.slots.swap_remove(&address);
        }
    }

    /// Sees that there is room for a slot of the address.
    fn make_room(&mut self, now: u64, address: GnAddress)
        requires { count_by (λ e. nat_lt now e.1.until) self.old.slots.entries < self.old.capacity }
        ensures same { (t source : ℕ) → now ≤ t →
            entry_at (contained self.new.slots.entries) source t
            ≡ entry_at (contained self.old.slots.entries) source t }
        ensures room { get nat_eq self.new.slots address ≡ None →
            index_map_len self.new.slots < self.new.capacity }
        ensures spare { spare self.old.slots ≤ spare self.new.slots }
        ensures capacity { self.new.capacity ≡ self.old.capacity }
        ensures remembered { self.new.remembered ≡ self.old.remembered }
    {
        if !self.slots.contains_key(&address) && self.slots.len() >= self.capacity as usize {
            self.evict(now);
        }
    }

    /// Makes a slot for a source that isn't live. All memory is taken before the first change.
    fn enter(&mut self, now: u64, heard: &Heard) -> Result<(), NoMemory>
        requires moment { now ≤ 2 ^ 62 }
        requires live { count_by (λ e. nat_lt now e.1.until) self.old.slots.entries
            < self.old.capacity }
        requires absent { entry_at (contained self.old.slots.entries) heard.now.vector.address now
            ≡ None }
        ensures hears { OnOk result (Hears self.old.remembered (contained self.old.slots.entries)
            (contained self.new.slots.entries) (reception now heard.now)) }
        ensures same { OnErr result
            (contained self.new.slots.entries ≡ contained self.old.slots.entries) }
        ensures capacity { self.new.capacity ≡ self.old.capacity }
        ensures remembered { self.new.remembered ≡ self.old.remembered }
    {
        let recent = Recent::new(self.alloc, self.remembered)?;
        self.slots.reserve(1)?;
        let slot = Slot::first(recent, now, heard);
        let address = heard.address();
        self.make_room(now, address);
        match self.slots.insert(address, slot) {
            Ok(_) => Ok(()),
            Err(_) => Err(NoMemory),
        }
    }
}

impl LocationStore for OrderedTable {
    ghost use Rattle.its_loctable.specs.Ordered.{contained};

    ghost content = { λ table. contained table.slots.entries };

    ghost limit = { λ table. table.capacity };

    ghost remember = { λ table. table.remembered };

    fn empty(alloc: Global, capacity: u16, remembered: u8) -> Result<Self, NoMemory> {
        Ok(OrderedTable {
            alloc,
            capacity,
            remembered,
            slots: IndexMap::new(alloc),
        })
    }

    fn clear(&mut self) {
        self.slots.clear();
    }

    fn capacity(&self) -> u16 {
        // For the proof alone.
        let _len = self.slots.len();
        self.capacity
    }

    fn lookup(&self, now: u64, a: GnAddress) -> Option<Known> {
        self.live_slot(now, a).map(Slot::known)
    }

    fn remembers(&self, now: u64, a: GnAddress, number: u16) -> bool {
        self.live_slot(now, a)
            .is_some_and(|slot| slot.remembers(number))
    }

    fn has_room(&self, now: u64, a: GnAddress) -> bool {
        self.is_live(now, a) || self.has_place(now)
    }

    fn accept(&mut self, now: u64, h: &Heard) -> Result<Verdict, StoreRefused> {
        if self.is_repeated(now, h) {
            return Ok(Verdict::Duplicate);
        }
        if self.is_live(now, h.address()) {
            self.refresh(now, h);
            return Ok(Verdict::Accepted);
        }
        if !self.has_place(now) {
            return Err(StoreRefused::Full);
        }
        self.enter(now, h)?;
        Ok(Verdict::Accepted)
    }

    fn next_neighbour(&self, now: u64, after: Option<GnAddress>) -> Option<LongPv> {
        self.least(now, Wanted::NeighbourAbove(after))
            .map(|known| known.vector)
    }

    fn by_mid(&self, now: u64, mid: Mac) -> Option<Known> {
        self.least(now, Wanted::HasMid(mid))
    }
}
