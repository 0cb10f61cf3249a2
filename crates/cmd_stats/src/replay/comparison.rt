//! What the station under test sent, compared with what the written rules send.

ghost use Rattle.std.specs.Prelude.{◌≡◌, ◌<◌, ◌++◌, ◌∷◌, [], List, vec_len, IfOk, None};
ghost use Rattle.cmd_stats.specs.Comparing.{IsCompared, IsTaken, IsTakenAt, IsUnasked};
ghost use Rattle.cmd_stats.specs.Comparing.{crowded_place, missed_place, same_place};

use crate::replay::awaited::{Awaited, place_of_missed, place_of_packet, place_of_same};
use its_gnvalue::{GnAddress, NoMemory};
use std::alloc::Global;

/// How many frames wait at most.
pub(crate) const MOST_AWAITED: usize = 1024;

/// The result for a frame that the station under test sent.
#[derive(Debug, Drop)]
pub enum Compared {
    /// It equals this frame.
    Same(Awaited),
    /// It is another frame than this one, of the same packet.
    Other(Awaited),
    /// It has a packet of the station itself, so no rule of forwarding asks for it.
    Own,
    /// It has a packet of another station, and no rule asks for it.
    Extra,
    /// It is not a frame that is read.
    Unread,
}

/// The frames that the written rules send, and that the station under test may still send.
#[derive(Drop)]
pub struct Comparison {
    awaited: Vec<Awaited>,
}

impl Comparison {
    /// Returns a comparison in which no frame waits.
    pub fn new(alloc: Global) -> Comparison
        ensures { result.awaited.items ≡ [] }
    {
        Comparison {
            awaited: Vec::new(alloc),
        }
    }

    /// Adds a frame that the written rules send. If 1024 wait, the first one waits no longer, and
    /// is returned. `NoMemory` if an allocation failed.
    pub fn expect(&mut self, frame: Awaited) -> Result<Option<Awaited>, NoMemory>
        ensures { IfOk result (λ gone. (rest : List Awaited)
            × IsTakenAt self.old.awaited.items (crowded_place self.old.awaited.items) gone rest
            × (self.new.awaited.items ≡ rest ++ frame ∷ [])) }
    {
        let gone = self.make_way();
        if self.awaited.push(frame).is_err() {
            return Err(NoMemory);
        }
        Ok(gone)
    }

    /// Removes the first frame, if as many wait as may.
    fn make_way(&mut self) -> Option<Awaited>
        ensures { IsTakenAt self.old.awaited.items (crowded_place self.old.awaited.items)
            result self.new.awaited.items }
    {
        if self.awaited.len() < MOST_AWAITED {
            return None;
        }
        Some(self.take(0))
    }

    /// Removes the first frame whose time was over before `now`. The station under test did not
    /// send it.
    pub fn next_missed(&mut self, now: u64) -> Option<Awaited>
        ensures { IsTakenAt self.old.awaited.items (missed_place now self.old.awaited.items)
            result self.new.awaited.items }
    {
        let place = place_of_missed(self.awaited.as_slice(), now)?;
        Some(self.take(place))
    }

    /// Compares what the station under test, of this address, sent: these octets, with the source of
    /// their packet, if they are read. They answer the first waiting frame that is equal except for
    /// the link source, and otherwise the first with the same packet. That frame waits no longer.
    pub fn compare(&mut self, address: GnAddress, sent: &[u8], source: Option<u64>) -> Compared
        ensures { IsCompared address self.old.awaited.items sent.now source result
            self.new.awaited.items }
    {
        match place_of_same(self.awaited.as_slice(), sent) {
            Some(place) => Compared::Same(self.take(place)),
            None => self.compare_packet(address, sent, source),
        }
    }

    /// Compares what the station under test sent with waiting frames of the same packet, since it
    /// equals none.
    fn compare_packet(&mut self, address: GnAddress, sent: &[u8], source: Option<u64>) -> Compared
        requires { same_place sent.now self.old.awaited.items ≡ None }
        ensures { IsCompared address self.old.awaited.items sent.now source result
            self.new.awaited.items }
    {
        match place_of_packet(self.awaited.as_slice(), sent) {
            Some(place) => Compared::Other(self.take(place)),
            None => say_unasked(address, source),
        }
    }

    /// Removes the frame at this index.
    fn take(&mut self, place: usize) -> Awaited
        requires { place < vec_len self.old.awaited }
        ensures { IsTaken self.old.awaited.items place result self.new.awaited.items }
    {
        self.awaited.remove(place)
    }
}

/// Says what the station under test, of this address, sent, which answers no frame that waits.
fn say_unasked(address: GnAddress, source: Option<u64>) -> Compared
    ensures { IsUnasked address source result }
{
    match source {
        Some(source) if source == address.as_u64() => Compared::Own,
        Some(_) => Compared::Extra,
        None => Compared::Unread,
    }
}
