//! Counts the frames that stations hold in a run, in addition to its tally.

use crate::tally::tally::Tally;
use crate::{EventRecord, Note};
use its_gnvalue::NoMemory;
use its_world::frame_of;
use std::alloc::Global;

/// Counts of the frames that stations held in a run, and of those that were not sent, in all and
/// for each packet for an area. It takes each event and note after the tally of the run.
#[derive(Drop)]
pub struct HeldTally {
    held: usize,
    cancelled: usize,
    /// Frames that were held and not sent, or not yet.
    unsent: usize,
    /// The same count for each packet for an area, by its number. Packets without an entry have 0.
    unsent_of: Vec<usize>,
}

impl HeldTally {
    /// Returns the counts before any frame was held.
    pub fn new(alloc: Global) -> HeldTally {
        HeldTally {
            held: 0,
            cancelled: 0,
            unsent: 0,
            unsent_of: Vec::new(alloc),
        }
    }

    /// Returns how many frames stations began to hold.
    pub fn held(&self) -> usize {
        self.held
    }

    /// Returns how many held frames were cancelled, since other stations had sent them.
    pub fn cancelled(&self) -> usize {
        self.cancelled
    }

    /// Returns how many held frames were not sent.
    pub fn unsent(&self) -> usize {
        self.unsent
    }

    /// Returns how many held frames of the packet for an area with this number were not sent.
    pub fn unsent_of(&self, send: usize) -> usize {
        self.unsent_of.get(send).copied().unwrap_or(0)
    }

    /// Takes an event that was done, which the tally took before.
    pub fn take(&mut self, tally: &Tally, done: &EventRecord<'_>) -> Result<(), NoMemory> {
        self.cancelled = self.cancelled.saturating_add(done.cancelled());
        if let (true, Some(frame)) = (done.is_held(), frame_of(done.entry)) {
            self.held = self.held.saturating_add(1);
            self.unsent = self.unsent.saturating_add(1);
            if let Some(unsent) = self.of_frame(tally, frame)? {
                *unsent = unsent.saturating_add(1);
            }
        }
        Ok(())
    }

    /// Takes a note of the run.
    pub fn take_note(&mut self, tally: &Tally, note: &Note<'_>) -> Result<(), NoMemory> {
        if let Note::Released { frame, .. } = *note {
            self.unsent = self.unsent.saturating_sub(1);
            if let Some(unsent) = self.of_frame(tally, frame)? {
                *unsent = unsent.saturating_sub(1);
            }
        }
        Ok(())
    }

    /// Returns the count of frames that were not sent, for the packet for an area that a frame
    /// carries, if it carries one.
    fn of_frame(&mut self, tally: &Tally, frame: usize) -> Result<Option<&mut usize>, NoMemory> {
        let Some(carried) = tally.packet_in(frame) else {
            return Ok(None);
        };
        if self.unsent_of.len() <= carried.send {
            self.unsent_of.resize(tally.sends().len(), 0)?;
        }
        Ok(self.unsent_of.get_mut(carried.send))
    }
}
