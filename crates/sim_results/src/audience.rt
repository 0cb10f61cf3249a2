//! The stations that packets for an area are for, and how far the packets came there.

ghost use Rattle.std.specs.Prelude.{◌≡◌, ◌+◌, ◌<◌, ◌↔◌, IfOk, OnOk, IsSome, true, false};
ghost use Rattle.std.specs.Prelude.{count_by, vec_len};
ghost use Rattle.sim_results.specs.Audiences.{is_for_area, is_sent, missed_of, was_reached};

use crate::reach::Reach;
use crate::waiting_frames::WaitingFrames;
use its_geometry::{Area, contains};
use its_gnvalue::NoMemory;
use its_station::{OwnCall, OwnedGbcRequest};
use its_world::{Entry, What, World};
use sim_scenario::Scenario;
use sim_simulation::tally::{CarriedPacket, Presence};
use sim_simulation::{EventRecord, Note};
use std::alloc::Global;

/// A station that a packet is for.
#[derive(Clone, Copy)]
struct IntendedStation {
    station: usize,
    reach: Reach,
    /// The milliseconds from the send to the first delivery, if there was one.
    after: u64,
}

impl IntendedStation {
    /// Whether the packet was delivered to its port. If a limit is given, at most that many
    /// milliseconds after it was sent.
    fn was_reached(&self, limit: Option<u64>) -> bool
        ensures { result ≡ was_reached limit self.now }
    {
        match limit {
            Some(limit) => self.reach.is_delivered() && self.after <= limit,
            None => self.reach.is_delivered(),
        }
    }
}

/// The stations that a packet for an area is for, in the order of their numbers, and how far it
/// came at each. These are the stations inside its area when it is sent whose port for it is open.
#[derive(Drop)]
pub struct Audience {
    moment: u64,
    area: Area,
    targets: Vec<IntendedStation>,
}

impl Audience {
    /// Returns the audience of a packet that an event sends.
    pub(crate) fn new(
        alloc: Global,
        world: &World,
        presence: &Presence,
        done: &EventRecord<'_>,
        request: &OwnedGbcRequest,
    ) -> Result<Audience, NoMemory> {
        Ok(Audience {
            moment: done.moment,
            area: request.area,
            targets: targets_of(alloc, world, presence, done.station, request)?,
        })
    }

    /// Notes the delivery of a frame of the packet, with its outcome.
    pub(crate) fn take(&mut self, world: &World, done: &EventRecord<'_>) {
        let is_inside = stands_in(world, done.station, &self.area);
        self.note(done.station, done.moment, Reach::of(done.entry, is_inside));
    }

    /// How many stations the packet is for.
    pub fn size(&self) -> usize
        ensures { result ≡ vec_len self.now.targets }
    {
        self.targets.len()
    }

    /// Returns at how many of these stations the packet was delivered to its port. If `within` is
    /// given, at most that many milliseconds after it was sent.
    ///
    /// - its clause: at how many of these stations it was delivered to its port, and in time if a
    ///   limit is given (`was_reached`).
    pub fn reached(&self, within: Option<u64>) -> usize
        ensures { result ≡ count_by (was_reached within) self.now.targets.items }
    {
        let targets = self.targets.iter();
        targets.filter(|target| target.was_reached(within)).count()
    }

    /// Returns the numbers of the stations at which the packet wasn't delivered to its port, in
    /// order, each with how far it came there. `NoMemory` if an allocation failed.
    ///
    /// - its clause: exactly the stations at which it wasn't delivered, in order, each with how far
    ///   the packet came there (`missed_of`).
    pub fn missed(&self, alloc: Global) -> Result<Vec<(usize, Reach)>, NoMemory>
        ensures { IfOk result (λ missed. missed.items ≡ missed_of self.now.targets.items) }
    {
        let targets = self.targets.iter();
        let missed = targets.filter(|target| !target.was_reached(None));
        Ok(
            missed
                .map(|target| (target.station, target.reach))
                .collect(alloc)?,
        )
    }

    /// Returns the entry of the station with this number, if the packet is for it.
    fn target(&mut self, station: usize) -> Option<&mut IntendedStation> {
        let place = self
            .targets
            .as_slice()
            .partition_point(|target| target.station < station);
        match self.targets.as_mut_slice().get_mut(place) {
            Some(target) if target.station == station => Some(target),
            _ => None,
        }
    }

    /// Notes how far the packet came at a station. Only the furthest is kept.
    fn note(&mut self, station: usize, moment: u64, reach: Reach) {
        let after = moment.saturating_sub(self.moment);
        let Some(target) = self.target(station) else {
            return;
        };
        if reach.rank() > target.reach.rank() {
            target.reach = reach;
            target.after = after;
        }
    }
}

/// The audiences of a run's packets for an area. It keeps those of their frames that still have
/// deliveries to come.
#[derive(Drop)]
pub struct Audiences {
    alloc: Global,
    /// Whether they are wanted. Otherwise none is kept.
    are_wanted: bool,
    sends: Vec<Audience>,
    frames: WaitingFrames,
    presence: Presence,
}

impl Audiences {
    /// Returns the audiences of a run that has not begun: none. If they aren't wanted, none will be
    /// kept. `NoMemory` if an allocation failed.
    pub fn new(alloc: Global, scenario: &Scenario, are_wanted: bool) -> Result<Audiences, NoMemory>
        ensures none { IfOk result (λ audiences. vec_len audiences.sends ≡ 0) }
        ensures wanted { IfOk result (λ audiences. audiences.are_wanted ≡ are_wanted) }
    {
        Ok(Audiences {
            alloc,
            are_wanted,
            sends: Vec::new(alloc),
            frames: WaitingFrames::new(alloc, scenario)?,
            presence: Presence::at_start(alloc, scenario.present.as_slice())?,
        })
    }

    /// Whether audiences are wanted.
    #[inline(always)]
    pub fn are_wanted(&self) -> bool
        ensures { result ≡ self.now.are_wanted }
    {
        self.are_wanted
    }

    /// Returns the audience of a packet, by its number among the sent packets for an area, from 0.
    /// `None` if fewer were sent, or audiences aren't wanted.
    pub fn get(&self, send: usize) -> Option<&Audience>
        ensures { IsSome result ↔ send < vec_len self.now.sends }
    {
        self.sends.as_slice().get(send)
    }

    /// Takes an event that was done, with the world after it. `NoMemory` if an allocation failed.
    pub fn take(&mut self, world: &World, done: &EventRecord<'_>) -> Result<(), NoMemory>
        ensures unwanted { self.old.are_wanted ≡ false → self.new ≡ self.old }
        ensures wanted { self.new.are_wanted ≡ self.old.are_wanted }
        ensures sent { self.old.are_wanted ≡ true →
            is_for_area done.now.what.now done.now.entry.now ≡ true →
            OnOk result (vec_len self.new.sends ≡ vec_len self.old.sends + 1) }
        ensures other { is_for_area done.now.what.now done.now.entry.now ≡ false →
            vec_len self.new.sends ≡ vec_len self.old.sends }
    {
        if !self.are_wanted {
            return Ok(());
        }
        self.frames.forget_finished();
        let carried = match done.what {
            What::Call(OwnCall::SendGeobroadcast(request) | OwnCall::SendGeoanycast(request)) => {
                self.take_send(world, done, request)?
            }
            What::Deliver(frame) => self.take_delivery(world, done, *frame),
            What::Call(_) => None,
        };
        self.frames.take(done, carried)
    }

    /// Takes a note of the run at this time in milliseconds: a station arrives or departs, or a
    /// frame is received by a station or lost on the way to it. `NoMemory` if an allocation failed.
    pub fn take_note(&mut self, moment: u64, note: &Note<'_>) -> Result<(), NoMemory>
        ensures unwanted { self.old.are_wanted ≡ false → self.new ≡ self.old }
        ensures wanted { self.new.are_wanted ≡ self.old.are_wanted }
        ensures sends { vec_len self.new.sends ≡ vec_len self.old.sends }
    {
        if !self.are_wanted {
            return Ok(());
        }
        match *note {
            Note::Heard { frame, .. } => self.frames.wait(frame),
            Note::Lost { station, frame } => self.note_lost(station, moment, frame),
            Note::Released { frame, .. } => {
                self.frames.release(frame);
            }
            Note::Dropped { frame, .. } => {
                self.frames.let_go(frame);
            }
            _ => {}
        }
        self.presence.take(note)
    }

    /// Takes the send of a packet for an area. Returns what its frame carries, if the packet was
    /// sent.
    fn take_send(
        &mut self,
        world: &World,
        done: &EventRecord<'_>,
        request: &OwnedGbcRequest,
    ) -> Result<Option<CarriedPacket>, NoMemory>
        ensures wanted { self.new.are_wanted ≡ self.old.are_wanted }
        ensures sent { is_sent done.now.entry.now ≡ true →
            OnOk result (vec_len self.new.sends ≡ vec_len self.old.sends + 1) }
        ensures other { is_sent done.now.entry.now ≡ false →
            vec_len self.new.sends ≡ vec_len self.old.sends }
    {
        if !matches!(done.entry, Entry::Sent(_)) {
            return Ok(None);
        }
        let send = self.sends.len();
        self.sends.push(Audience::new(self.alloc, world, &self.presence, done, request)?)?;
        Ok(Some(CarriedPacket { send, depth: 0 }))
    }

    /// Takes the outcome of a frame's delivery. Returns what a forwarded copy of the frame carries.
    fn take_delivery(
        &mut self,
        world: &World,
        done: &EventRecord<'_>,
        frame: usize,
    ) -> Option<CarriedPacket>
        ensures wanted { self.new.are_wanted ≡ self.old.are_wanted }
        ensures sends { vec_len self.new.sends ≡ vec_len self.old.sends }
    {
        let carried = self.frames.deliver(frame)?;
        if let Some(audience) = self.sends.as_mut_slice().get_mut(carried.send) {
            audience.take(world, done);
        }
        Some(carried.relayed())
    }

    /// Notes that the frame which was just sent is lost on the way to this station.
    fn note_lost(&mut self, station: usize, moment: u64, frame: usize)
        ensures wanted { self.new.are_wanted ≡ self.old.are_wanted }
        ensures sends { vec_len self.new.sends ≡ vec_len self.old.sends }
    {
        let Some(carried) = self.frames.get(frame) else {
            return;
        };
        if let Some(audience) = self.sends.as_mut_slice().get_mut(carried.send) {
            audience.note(station, moment, Reach::Lost);
        }
    }
}

/// Whether a station is inside an area.
fn stands_in(world: &World, number: usize, area: &Area) -> bool {
    match world.station(number) {
        Some(station) => contains(area, station.vector().place()),
        None => false,
    }
}

/// Returns the stations that a packet from this sender is for.
fn targets_of(
    alloc: Global,
    world: &World,
    presence: &Presence,
    sender: usize,
    request: &OwnedGbcRequest,
) -> Result<Vec<IntendedStation>, NoMemory> {
    let mut targets = Vec::new(alloc);
    for (number, station) in world.stations().iter().enumerate() {
        if presence.is_for(request, sender, number, station) {
            targets.push(IntendedStation {
                station: number,
                reach: Reach::Unheard,
                after: 0,
            })?;
        }
    }
    Ok(targets)
}
