//! The frames of packets for an area that still have deliveries to come.

use its_gnvalue::NoMemory;
use its_world::{Event, What, frame_of};
use sim_scenario::events::FileEvent;
use sim_scenario::{Scenario, Timeline};
use sim_simulation::EventRecord;
use sim_simulation::tally::CarriedPacket;
use std::alloc::Global;
use std::collections::HashMap;

/// A frame with deliveries still to come, or one that was just sent.
#[derive(Clone, Copy)]
struct WaitingFrame {
    carried: CarriedPacket,
    /// How many deliveries of it are still to come.
    waiting: usize,
}

/// The frames of packets for an area that still have deliveries to come, by their numbers. A frame
/// is forgotten once its last delivery is done.
#[derive(Drop)]
pub(crate) struct WaitingFrames {
    frames: HashMap<usize, WaitingFrame>,
    /// The scenario's own deliveries of frames that aren't sent yet, or carry no such packet.
    own: HashMap<usize, usize>,
    /// The frames that the last event sent and delivered. They may have no deliveries to come.
    given: Option<usize>,
    delivered: Option<usize>,
    /// The frame that was released last. It may have no deliveries to come either.
    released: Option<usize>,
}

impl WaitingFrames {
    /// Returns the frames of a run that has not begun: only the scenario's own deliveries are
    /// expected.
    pub(crate) fn new(alloc: Global, scenario: &Scenario) -> Result<WaitingFrames, NoMemory> {
        let mut waiting = WaitingFrames {
            frames: HashMap::new(alloc),
            own: HashMap::new(alloc),
            given: None,
            delivered: None,
            released: None,
        };
        match &scenario.timeline {
            Timeline::Plain(timeline) => waiting.expect_events(timeline.events.as_slice())?,
            Timeline::Air(timeline) => waiting.expect_file(timeline.events.as_slice())?,
            // No event of such a scenario delivers a frame.
            Timeline::Moves(_) => {}
        }
        Ok(waiting)
    }

    /// Expects events of the scenario that are still to be done.
    fn expect_events(&mut self, events: &[Event]) -> Result<(), NoMemory> {
        for event in events {
            self.expect(event)?;
        }
        Ok(())
    }

    /// Expects the events of a file that are still to be done.
    fn expect_file(&mut self, file: &[FileEvent]) -> Result<(), NoMemory> {
        for filed in file {
            if let Some(event) = filed.event() {
                self.expect(event)?;
            }
        }
        Ok(())
    }

    /// Expects an event of the scenario that is still to be done.
    fn expect(&mut self, event: &Event) -> Result<(), NoMemory> {
        if let What::Deliver(frame) = &event.what {
            let before = self.own.get(frame).copied().unwrap_or(0);
            self.own.insert(*frame, before.saturating_add(1))?;
        }
        Ok(())
    }

    /// Returns what the frame with this number carries, if that is a packet for an area and the
    /// frame has deliveries to come or was just sent.
    pub(crate) fn get(&self, frame: usize) -> Option<CarriedPacket> {
        match self.frames.get(&frame) {
            Some(frame) => Some(frame.carried),
            None => None,
        }
    }

    /// Takes an event that was done, with what the frame that it sent carries, if that is a packet
    /// for an area.
    pub(crate) fn take(
        &mut self,
        done: &EventRecord<'_>,
        carried: Option<CarriedPacket>,
    ) -> Result<(), NoMemory> {
        if let (Some(frame), Some(carried)) = (frame_of(done.entry), carried) {
            self.note_given(frame, carried)?;
            if done.is_held() {
                self.hold(frame);
            }
        }
        for frame in done.cancelled_frames().unwrap_or(&[]) {
            self.let_go(*frame);
        }
        Ok(())
    }

    /// Takes a frame that was sent, with what it carries. Returns how many of the scenario's own
    /// deliveries of it are still to come.
    pub(crate) fn note_given(
        &mut self,
        frame: usize,
        carried: CarriedPacket,
    ) -> Result<usize, NoMemory> {
        let waiting = self.own.remove(&frame).unwrap_or(0);
        self.frames
            .insert(frame, WaitingFrame { carried, waiting })?;
        self.given = Some(frame);
        Ok(waiting)
    }

    /// Notes that one more delivery of a frame is to come.
    pub(crate) fn wait(&mut self, frame: usize) {
        if let Some(found) = self.frames.get_mut(&frame) {
            found.waiting = found.waiting.saturating_add(1);
        }
    }

    /// Notes that a station holds a frame that was just sent. It waits like a frame with a delivery
    /// to come.
    pub(crate) fn hold(&mut self, frame: usize) {
        self.wait(frame);
    }

    /// Notes that a frame which a station held is sent. It may have deliveries to come. Returns
    /// what it carries.
    pub(crate) fn release(&mut self, frame: usize) -> Option<CarriedPacket> {
        if let Some(before) = self.released.take() {
            self.forget(before);
        }
        let found = self.frames.get_mut(&frame)?;
        found.waiting = found.waiting.saturating_sub(1);
        self.released = Some(frame);
        Some(found.carried)
    }

    /// Notes that a frame which a station held is not sent. Returns what it carries.
    pub(crate) fn let_go(&mut self, frame: usize) -> Option<CarriedPacket> {
        let found = self.frames.get_mut(&frame)?;
        found.waiting = found.waiting.saturating_sub(1);
        let carried = found.carried;
        self.forget(frame);
        Some(carried)
    }

    /// Notes the delivery of a frame. Returns what it carries.
    pub(crate) fn deliver(&mut self, frame: usize) -> Option<CarriedPacket> {
        let Some(found) = self.frames.get_mut(&frame) else {
            self.skip(frame);
            return None;
        };
        found.waiting = found.waiting.saturating_sub(1);
        self.delivered = Some(frame);
        Some(found.carried)
    }

    /// Notes that a delivery of the scenario comes too early, or that its frame carries no such
    /// packet.
    fn skip(&mut self, frame: usize) {
        if let Some(waiting) = self.own.get_mut(&frame) {
            *waiting = waiting.saturating_sub(1);
        }
    }

    /// Forgets the frames of the last event that have no more deliveries to come.
    pub(crate) fn forget_finished(&mut self) {
        for frame in [
            self.given.take(),
            self.delivered.take(),
            self.released.take(),
        ] {
            if let Some(frame) = frame {
                self.forget(frame);
            }
        }
    }

    /// Forgets a frame, unless a delivery of it is still to come.
    fn forget(&mut self, frame: usize) {
        let is_done = match self.frames.get(&frame) {
            Some(found) => found.waiting == 0,
            None => false,
        };
        if is_done {
            self.frames.remove(&frame);
        }
    }
}
