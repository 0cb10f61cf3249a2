//! The warnings of a run, which are its packets for an area, and what is doubtful about them.

use crate::doubts::bounds::Bounds;
use crate::doubts::doubt::{Doubt, WarningDoubt};
use its_geometry::{Area, contains};
use its_gnvalue::{GnAddress, Lifetime, NoMemory, Place};
use its_linkframe::read_frame;
use its_station::OwnedGbcRequest;
use its_world::World;
use sim_simulation::EventRecord;
use std::alloc::Global;

/// A shorter lifetime, in milliseconds, is doubtful.
const SHORTEST_LIFETIME: u64 = 1000;

/// From this many kilometres on, a station is far away from an area.
const FAR: u64 = 100;

/// A packet for an area: its source, and its sequence number.
#[derive(Clone, Copy, PartialEq, Eq)]
struct PacketName {
    source: GnAddress,
    number: u16,
}

impl PacketName {
    /// Returns the name of the packet in a frame, if it is one for an area.
    fn of(octets: &[u8]) -> Option<PacketName> {
        let packet = match read_frame(octets) {
            Ok(frame) => frame.packet,
            Err(_) => return None,
        };
        Some(PacketName {
            source: packet.vector().address(),
            number: packet.number()?,
        })
    }
}

/// A warning that was sent.
#[derive(Clone, Copy)]
struct Warning {
    /// The number of its event in the scenario.
    event: usize,
    packet: Option<PacketName>,
    area: Area,
    port: u16,
    lifetime: Lifetime,
    /// Whether it may take more than one hop.
    is_relayed: bool,
    /// How many stations were in its area when it was sent.
    inside: usize,
    /// Whether one of them was not the sender.
    has_others: bool,
    /// Whether one of them had its port open.
    is_open: bool,
    /// Whether a station was in its area after that.
    was_entered: bool,
    /// How many of its deliveries come after the end of the run.
    cut: usize,
}

impl Warning {
    /// Whether it is sent in this packet.
    fn is_of(&self, packet: &PacketName) -> bool {
        match &self.packet {
            Some(own) => own == packet,
            None => false,
        }
    }
}

/// The warnings of a run.
#[derive(Drop)]
pub(crate) struct WarningWatch {
    warnings: Vec<Warning>,
    /// The indices of the warnings whose area no station has entered yet.
    empty: Vec<usize>,
    /// The end of the run, and the first time at which a frame is sent whose deliveries come after
    /// it.
    end: u64,
    late_from: u64,
    /// The warning whose frame the last event sent, if its deliveries come after the end.
    late: Option<usize>,
}

impl WarningWatch {
    /// Returns the watch of a run that has not begun. The run ends at this time, if it is known,
    /// and its frames are delivered after this many milliseconds.
    pub(crate) fn new(alloc: Global, end: Option<u64>, delay: u16) -> WarningWatch {
        let end = end.unwrap_or(u64::MAX);
        WarningWatch {
            warnings: Vec::new(alloc),
            empty: Vec::new(alloc),
            end,
            late_from: match end.checked_add(1) {
                Some(after) => after.saturating_sub(u64::from(delay)),
                None => u64::MAX,
            },
            late: None,
        }
    }

    /// Whether deliveries of the frame that was just sent come after the end of the run.
    #[inline(always)]
    pub(crate) fn is_late(&self) -> bool {
        self.late.is_some()
    }

    /// Takes an event that sends no warning.
    #[inline(always)]
    pub(crate) fn take_other(&mut self, done: &EventRecord<'_>) {
        self.late = None;
        if done.moment >= self.late_from {
            self.take_late(done.sent_octets());
        }
    }

    /// Takes a frame that a station held and sends at this time.
    pub(crate) fn take_release(&mut self, octets: Option<&[u8]>, moment: u64) {
        self.late = None;
        if moment >= self.late_from {
            self.take_late(octets);
        }
    }

    /// Takes a frame that is sent near the end of the run. It may be a warning that is forwarded.
    fn take_late(&mut self, octets: Option<&[u8]>) {
        if let Some(packet) = octets.and_then(PacketName::of) {
            self.late = self.last_of(&packet);
        }
    }

    /// Returns the last warning in this packet. A station that restarts may use a number again.
    fn last_of(&self, packet: &PacketName) -> Option<usize> {
        let mut last = None;
        for (place, warning) in self.warnings.iter().enumerate() {
            if warning.is_of(packet) {
                last = Some(place);
            }
        }
        last
    }

    /// Notes that a delivery of the frame that was just sent is planned.
    pub(crate) fn take_delivery(&mut self) {
        let Some(late) = self.late else {
            return;
        };
        if let Some(warning) = self.warnings.get_mut(late) {
            warning.cut = warning.cut.saturating_add(1);
        }
    }

    /// Notes that a station moved to this position, or arrived. It may enter areas.
    #[inline(always)]
    pub(crate) fn take_place(&mut self, place: Place) {
        if !self.empty.is_empty() {
            self.enter(place);
        }
    }

    /// Notes that a station is at this position. The areas with this position are no longer empty.
    fn enter(&mut self, place: Place) {
        for empty in &self.empty {
            if let Some(warning) = self.warnings.get_mut(*empty) {
                warning.was_entered |= contains(&warning.area, place);
            }
        }
        let warnings = self.warnings.as_slice();
        self.empty.retain(|empty| match warnings.get(*empty) {
            Some(warning) => !warning.was_entered,
            None => false,
        });
    }

    /// Takes a warning that the event with this number in the scenario sent, while these stations
    /// are present.
    pub(crate) fn take_send(
        &mut self,
        world: &World,
        present: &[bool],
        done: &EventRecord<'_>,
        request: &OwnedGbcRequest,
        event: usize,
    ) -> Result<(), NoMemory> {
        let mut warning = Warning {
            event,
            packet: done.octets.and_then(PacketName::of),
            area: request.area,
            port: request.port,
            lifetime: request.lifetime,
            is_relayed: request.max_hops > 1,
            inside: 0,
            has_others: false,
            is_open: false,
            was_entered: false,
            cut: 0,
        };
        warning.look_around(world, present, done.station);
        let place = self.warnings.len();
        self.late = (done.moment >= self.late_from).then_some(place);
        if !warning.was_entered {
            self.empty.push(place)?;
        }
        Ok(self.warnings.push(warning)?)
    }

    /// Whether deliveries of a warning come after the end of the run, by its number among the sent
    /// warnings.
    pub(crate) fn is_cut(&self, send: usize) -> bool {
        match self.warnings.get(send) {
            Some(warning) => warning.cut > 0,
            None => false,
        }
    }

    /// Whether a warning may take more than one hop.
    pub(crate) fn has_relayed(&self) -> bool {
        self.warnings.iter().any(|warning| warning.is_relayed)
    }

    /// Adds what is doubtful about each warning, for a run whose stations were within these bounds.
    pub(crate) fn find(&self, bounds: Bounds, found: &mut Vec<Doubt>) -> Result<(), NoMemory> {
        for warning in &self.warnings {
            let doubts = [
                warning.lifetime_doubt(),
                warning.area_doubt(bounds),
                warning.port_doubt(),
                warning.end_doubt(self.end),
            ];
            let event = warning.event;
            for why in doubts {
                if let Some(why) = why {
                    found.push(Doubt::Warning { event, why })?;
                }
            }
        }
        Ok(())
    }
}

impl Warning {
    /// Finds which stations are in its area when a station sends it.
    fn look_around(&mut self, world: &World, present: &[bool], sender: usize) {
        for (number, station) in world.stations().iter().enumerate() {
            let is_present = present.get(number).copied().unwrap_or(false);
            if !is_present || !contains(&self.area, station.vector().place()) {
                continue;
            }
            self.was_entered = true;
            self.inside = self.inside.saturating_add(1);
            self.has_others |= number != sender;
            self.is_open |= station.is_open(self.port);
        }
    }

    /// Returns the doubt that its lifetime is very short, if there is one.
    fn lifetime_doubt(&self) -> Option<WarningDoubt> {
        let (octet, millis) = (self.lifetime.octet(), self.lifetime.millis());
        (millis < SHORTEST_LIFETIME).then_some(WarningDoubt::ShortLifetime { octet, millis })
    }

    /// Returns the doubt that no station was ever in its area, if there is one.
    fn area_doubt(&self, bounds: Bounds) -> Option<WarningDoubt> {
        if self.was_entered {
            return None;
        }
        let away = match bounds.kilometres_to(self.area.centre()) {
            Some(away) if away >= FAR => Some(away),
            _ => None,
        };
        Some(WarningDoubt::EmptyArea { away })
    }

    /// Returns the doubt that its port was open nowhere, if there is one.
    fn port_doubt(&self) -> Option<WarningDoubt> {
        let (port, stations) = (self.port, self.inside);
        let is_doubtful = self.has_others && !self.is_open;
        is_doubtful.then_some(WarningDoubt::ClosedPort { port, stations })
    }

    /// Returns the doubt that the run ended before its deliveries, if there is one.
    fn end_doubt(&self, end: u64) -> Option<WarningDoubt> {
        let deliveries = self.cut;
        (deliveries > 0).then_some(WarningDoubt::CutOff { deliveries, end })
    }
}
