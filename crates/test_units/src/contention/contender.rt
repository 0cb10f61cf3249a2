//! A station that contends: the station, and the frames that it holds.

use its_contention::{Contention, ContentionRule, RelayFate, WaitingFrame};
use its_gnvalue::{GnAddress, Place};
use its_linkframe::{FrameView, read_frame};
use its_loctable::SortedTable;
use its_station::{LAST_MOMENT, Outcome, Refused, Station, Why};
use std::alloc::Global;
use test_support::{PORT, SECOND};

/// Waits of 1 to 100 ms, 1000 m, one copy.
pub(crate) fn one_copy() -> Option<ContentionRule> {
    ContentionRule::new(1, 100, 1000, 1)
}

/// What a contender answers to a frame.
#[derive(Drop)]
pub(crate) enum Reaction {
    /// It is ignored, and cancels this many frames.
    Ignored(Why, usize),
    /// It is accepted.
    Accepted(Reply),
    /// It is refused.
    Refused(Refused),
}

/// What is done with a packet that is accepted.
#[derive(Drop)]
pub(crate) struct Reply {
    /// Whether its payload is delivered.
    pub(crate) delivered: bool,
    /// The frame that goes at once.
    pub(crate) sent: Option<Vec<u8>>,
    /// When the frame is due that waits.
    pub(crate) due: Option<u64>,
}

impl Reaction {
    /// Whether the frame is a duplicate that cancels so many frames.
    pub(crate) fn cancels(&self, count: usize) -> bool {
        matches!(self, Reaction::Ignored(Why::Duplicate, cancelled) if *cancelled == count)
    }

    /// Whether the packet is accepted, and its frame waits until then.
    pub(crate) fn waits_until(&self, due: u64) -> bool {
        match self {
            Reaction::Accepted(reply) => reply.due == Some(due) && reply.sent.is_none(),
            _ => false,
        }
    }

    /// Whether the payload is delivered.
    pub(crate) fn delivers(&self) -> bool {
        matches!(self, Reaction::Accepted(reply) if reply.delivered)
    }

    /// Whether nothing waits and no frame goes out.
    pub(crate) fn is_silent(&self) -> bool {
        match self {
            Reaction::Accepted(reply) => reply.due.is_none() && reply.sent.is_none(),
            Reaction::Ignored(_, cancelled) => *cancelled == 0,
            Reaction::Refused(_) => true,
        }
    }

    /// The frame that goes at once.
    pub(crate) fn sent(&self) -> Option<&[u8]> {
        match self {
            Reaction::Accepted(reply) => match &reply.sent {
                Some(frame) => Some(frame.as_slice()),
                None => None,
            },
            _ => None,
        }
    }
}

/// A station and the frames that it holds.
#[derive(Drop)]
pub(crate) struct Contender {
    pub(crate) station: Station<SortedTable>,
    pub(crate) held: Contention,
}

impl Contender {
    /// The second station at this latitude, with its port open since time 0. It remembers 1 to 64
    /// numbers of a source.
    pub(crate) fn new(
        alloc: Global,
        latitude: i32,
        remember: u8,
        rule: Option<ContentionRule>,
    ) -> Option<Contender> {
        if remember < 1 || 64 < remember {
            return None;
        }
        let place = Place::new(latitude, 0).ok()?;
        let address = GnAddress::from_u64(SECOND).ok()?;
        let mut station = Station::new(alloc, address, place, 64, remember).ok()?;
        station.open(0, PORT).ok()?;
        let held = Contention::new(alloc, rule?).ok()?;
        Some(Contender { station, held })
    }

    /// Receives a frame: the station first, then the frames that wait.
    pub(crate) fn receive(&mut self, now: u64, octets: &[u8]) -> Reaction {
        match self.station.receive(now, octets) {
            Ok(Outcome::Accepted { handed, sent }) => {
                let delivered = handed.is_some();
                Reaction::Accepted(self.contend(now, octets, delivered, sent))
            }
            Ok(Outcome::Ignored(Why::Duplicate)) => {
                Reaction::Ignored(Why::Duplicate, self.hear(octets))
            }
            Ok(Outcome::Ignored(why)) => Reaction::Ignored(why, 0),
            Err(refused) => Reaction::Refused(refused),
        }
    }

    /// Counts a frame at those of which it is a copy. Returns how many it cancels.
    fn hear(&mut self, octets: &[u8]) -> usize {
        match read_frame(octets) {
            Ok(view) => self
                .held
                .hear(octets, view.from, self.station.address().mid()),
            Err(_) => 0,
        }
    }

    /// Holds the frame that is sent, if it is one that waits.
    fn contend(
        &mut self,
        now: u64,
        octets: &[u8],
        delivered: bool,
        sent: Option<Vec<u8>>,
    ) -> Reply {
        let mut reply = Reply {
            delivered,
            sent: None,
            due: None,
        };
        if let (Some(frame), Ok(view)) = (sent, read_frame(octets)) {
            let frame = waiting(frame, &view);
            match self.held.contend(now, &self.station, &view, frame) {
                RelayFate::Goes(frame) => reply.sent = Some(frame.into_octets()),
                RelayFate::Waits(due) => reply.due = Some(due),
            }
        }
        reply
    }

    /// The frame that is due first at this time. Late ones are dropped.
    pub(crate) fn release(&mut self, now: u64) -> Result<Option<WaitingFrame>, Refused> {
        if now < self.station.clock() {
            return Err(Refused::MomentEarlier);
        }
        if now > LAST_MOMENT {
            return Err(Refused::MomentTooLate);
        }
        self.held.drop_late(now);
        Ok(self.held.take_due(now))
    }

    /// Whether this very frame is released at this time.
    pub(crate) fn releases(&mut self, now: u64, octets: &[u8]) -> bool {
        match self.release(now) {
            Ok(Some(frame)) => frame.octets() == octets,
            _ => false,
        }
    }

    /// Whether no frame is due at this time.
    pub(crate) fn is_quiet(&mut self, now: u64) -> bool {
        matches!(self.release(now), Ok(None))
    }

    /// Restarts the station with this sequence number, and drops what waits.
    pub(crate) fn restart(&mut self, now: u64, number: u16) -> bool {
        let done = self.station.restart(now, number).is_ok();
        if done {
            self.held.clear();
        }
        done
    }

    /// Moves the station to this latitude.
    pub(crate) fn move_to(&mut self, now: u64, latitude: i32) -> bool {
        match Place::new(latitude, 0) {
            Ok(place) => self.station.move_to(now, place, true, 0, 0).is_ok(),
            Err(_) => false,
        }
    }
}

/// A frame that may wait, of a packet that came in this one.
fn waiting(frame: Vec<u8>, view: &FrameView<'_>) -> WaitingFrame {
    let packet = &view.packet;
    WaitingFrame::new(frame, packet.vector().address(), packet.number(), true)
}
