//! Counts the outcomes of the packets for an area of a run.

ghost use Rattle.std.specs.Prelude.{◌≡◌, ℕ, List, ◌<◌, ◌+◌, ◌-◌, ◌^◌, ◌&&◌, [], ◌∷◌, ◌++◌, Some};
ghost use Rattle.std.specs.Prelude.{true, false, cond, length, drop, min, max, IfOk, OnOk};
ghost use Rattle.std.specs.Prelude.{if◌then◌else◌};
ghost use Rattle.sim_simulation.specs.Records.{happening_in};
ghost use Rattle.its_model.specs.World.{with_one_more};
ghost use Rattle.its_world.specs.Events.{what_of};
ghost use Rattle.sim_simulation.specs.Packets as told;
ghost use Rattle.sim_simulation.specs.Packets.{HasCounted, Packet, Frames, AreKept, IsSummary, IsOneOf};
ghost use Rattle.sim_simulation.specs.Packets.{delivered_by, deeper, with_relay, with_delivery, own_of};
ghost use Rattle.sim_simulation.specs.Packets.{packets_after, carried_after, deliveries_after, sent_by};
ghost use Rattle.sim_simulation.specs.Packets.{is_released, lines_of, with_frame_of};
ghost use Rattle.sim_simulation.specs.Totals.{AreTotals, capped, with_entry, with_frame, with_handed};
ghost use Rattle.sim_simulation.specs.Totals.{with_accepted, packets_sent, is_area_send, was_sent};

use crate::tally::presence::Presence;
use crate::tally::summary::{SendSummary, Totals};
use crate::{EventRecord, EventSink, Note, SimulationFault};
use its_gnvalue::NoMemory;
use its_headers::Kind;
use its_station::{OwnCall, OwnedGbcRequest, Why};
use its_words::json_lines::Printed;
use its_world::{Entry, What, World};
use std::alloc::Global;
use std::collections::{HashSet, VecDeque};

/// The packet for an area that a frame carries.
#[derive(Clone, Copy, Debug, PartialEq, Eq)]
pub struct CarriedPacket {
    /// The number of the packet among all that were sent.
    pub send: usize,
    /// How often the packet was forwarded before this frame.
    pub depth: usize,
}

impl CarriedPacket {
    /// Returns how many hops a delivery of the frame takes: 1 for the packet's own frame.
    fn hops(self) -> usize
        ensures { result ≡ capped (self.depth + 1) }
    {
        self.depth.saturating_add(1)
    }

    /// Returns what a forwarded copy of the frame carries.
    pub fn relayed(self) -> CarriedPacket
        ensures send { result.send ≡ self.send }
        ensures depth { result.depth ≡ capped (self.depth + 1) }
    {
        CarriedPacket {
            send: self.send,
            depth: self.depth.saturating_add(1),
        }
    }
}

/// A sink that counts the outcomes of each packet for an area, and the totals. It keeps a few
/// octets for each frame that the world keeps, and for each station at which a packet was
/// delivered.
///
/// - `Took`: its totals are the counts of the events that it took, and of their entries: all
///   events, sent frames, delivered payloads, frames ignored as duplicates and otherwise, refusals
///   (`AreTotals`). It has one send per packet for an area (`packets_sent`). Its counts of each
///   packet are what the events and entries say (`HasCounted`), unless a released frame was
///   delivered (`late`), which no world does.
#[derive(Drop)]
pub struct Tally {
    sends: Vec<SendSummary>,
    /// What each frame carries that the world hasn't released, in the order of their numbers.
    carried: VecDeque<Option<CarriedPacket>>,
    /// How many frames were released before these.
    released: usize,
    /// Whether an event delivered a released frame. No world does such an event.
    late: bool,
    /// The sends and the stations at which they were delivered.
    delivered: HashSet<(usize, usize)>,
    presence: Presence,
    totals: Totals,
}

impl Tally {
    /// Returns the tally of a run that has not begun. `present` says of each station, by its
    /// number, whether it is present at the start.
    pub fn new(alloc: Global, present: &[bool]) -> Result<Tally, NoMemory>
        ensures totals { IfOk result (λ tally. AreTotals tally.totals [] []) }
        ensures sends { IfOk result (λ tally. tally.sends.items ≡ []) }
        ensures late { IfOk result (λ tally. tally.late ≡ false) }
        ensures counts { IfOk result (λ tally. HasCounted tally [] [] []) }
    {
        Ok(Tally {
            sends: Vec::new(alloc),
            carried: VecDeque::new(alloc),
            released: 0,
            late: false,
            delivered: HashSet::new(alloc),
            presence: Presence::at_start(alloc, present)?,
            totals: Totals::default(),
        })
    }

    /// Returns the outcome of each packet for an area, in the order in which they were sent.
    pub fn sends(&self) -> &[SendSummary]
        ensures { result.now ≡ self.now.sends.items }
    {
        self.sends.as_slice()
    }

    /// Returns the counts of all events.
    pub fn totals(&self) -> Totals
        ensures { result ≡ self.now.totals }
    {
        self.totals
    }

    /// Returns the packet for an area that a frame carries, if the world keeps the frame and it
    /// carries one.
    pub(crate) fn packet_in(&self, frame: usize) -> Option<CarriedPacket> {
        match self.carried.get(frame.checked_sub(self.released)?) {
            Some(carried) => *carried,
            None => None,
        }
    }

    /// Forgets what the frames carried that the world has released. None of them is delivered
    /// again.
    #[inline(always)]
    fn forget_released(&mut self, world: &World)
        ensures totals { self.new.totals ≡ self.old.totals }
        ensures sends { self.new.sends ≡ self.old.sends }
        ensures delivered { self.new.delivered ≡ self.old.delivered }
        ensures late { self.new.late ≡ self.old.late }
        ensures released { self.new.released ≡ max self.old.released
            (min world.now.released (self.old.released + length self.old.carried.items)) }
        ensures carried { self.new.carried.items
            ≡ drop (self.new.released - self.old.released) self.old.carried.items }
    {
        if world.released() <= self.released {
            return;
        }
        let given = self.released.saturating_add(self.carried.len());
        let end = world.released().min(given);
        for _gone in 0..end.saturating_sub(self.released) {
            let Some(_) = self.carried.pop_front() else {
                unreachable!()
            };
            self.released += 1;
        }
    }

    /// Counts an event.
    #[inline(always)]
    fn count(&mut self, world: &World, done: &EventRecord<'_>) -> Result<(), NoMemory>
        ensures totals { OnOk result
            (self.new.totals ≡ with_entry self.old.totals done.now.entry.now) }
        ensures sends { OnOk result (length self.new.sends.items ≡ length self.old.sends.items
            + cond (is_area_send (what_of done.now.what.now) && was_sent done.now.entry.now) 1 0) }
        ensures released { self.new.released ≡ self.old.released }
        ensures late { self.new.late ≡ false → self.old.late ≡ false }
        ensures early { self.old.released ≡ 0 → self.new.late ≡ self.old.late }
        ensures counts { (n : ℕ) (ps : List Packet) (frames : Frames) (ds : List told.Delivery)
            → self.old.totals.events ≡ capped n → HasCounted self.old ps frames ds
            → OnOk result (self.new.late ≡ false → HasCounted self.new
            (packets_after done.now.entry.now n (happening_in done.now) ps)
            (carried_after done.now.entry.now (length ps) (happening_in done.now) frames)
            (deliveries_after done.now.entry.now (happening_in done.now) frames ds)) }
    {
        let number = self.totals.events;
        count_one(&mut self.totals.events);
        match done.entry {
            Entry::Sent(_) => self.count_send(world, number, done),
            Entry::Accepted { handed, sent } => {
                self.count_accepted(done, handed.is_some(), sent.is_some())
            }
            Entry::Ignored(Why::Duplicate) => {
                count_one(&mut self.totals.duplicates);
                Ok(())
            }
            Entry::Ignored(_) => {
                count_one(&mut self.totals.ignored);
                Ok(())
            }
            Entry::Refused(_) => {
                count_one(&mut self.totals.refused);
                Ok(())
            }
            Entry::Moved | Entry::Opened | Entry::Closed | Entry::Restarted | Entry::Quiet => {
                Ok(())
            }
        }
    }

    /// Counts a frame of a station's own, and its packet if that is for an area. The event has this
    /// number.
    fn count_send(
        &mut self,
        world: &World,
        number: usize,
        done: &EventRecord<'_>,
    ) -> Result<(), NoMemory>
        ensures totals { OnOk result (self.new.totals ≡ with_frame true self.old.totals) }
        ensures sends { OnOk result (length self.new.sends.items ≡ length self.old.sends.items
            + cond (is_area_send (what_of done.now.what.now)) 1 0) }
        ensures released { self.new.released ≡ self.old.released }
        ensures late { self.new.late ≡ self.old.late }
        ensures counts { (n : ℕ) (ps : List Packet) (frames : Frames) (ds : List told.Delivery)
            → number ≡ capped n → HasCounted self.old ps frames ds
            → OnOk result (HasCounted self.new
            (with_one_more ps (sent_by n (happening_in done.now) (what_of done.now.what.now)))
            (frames ++ own_of (length ps) (is_area_send (what_of done.now.what.now)) ∷ []) ds) }
    {
        let What::Call(call) = done.what else {
            return self.count_frame(None);
        };
        let (kind, request) = match call {
            OwnCall::SendGeobroadcast(request) => (Kind::Gbc, request),
            OwnCall::SendGeoanycast(request) => (Kind::Gac, request),
            _ => return self.count_frame(None),
        };
        let inside = self.count_inside(world, done.station, request);
        self.count_packet(SendSummary {
            send: number,
            moment: done.moment,
            station: done.station,
            kind: Printed(kind),
            port: request.port,
            inside,
            delivered: 0,
            frames: 1,
            hops: 0,
            last: 0,
        })
    }

    /// Returns how many stations except the sender are present and inside the area of a request,
    /// with its port open.
    fn count_inside(&self, world: &World, sender: usize, request: &OwnedGbcRequest) -> usize {
        let mut inside = 0;
        for (number, station) in world.stations().iter().enumerate() {
            if self.presence.is_for(request, sender, number, station) {
                count_one(&mut inside);
            }
        }
        inside
    }

    /// Counts a packet for an area, with its own frame.
    fn count_packet(&mut self, summary: SendSummary) -> Result<(), NoMemory>
        ensures totals { OnOk result (self.new.totals ≡ with_frame true self.old.totals) }
        ensures sends { OnOk result
            (length self.new.sends.items ≡ length self.old.sends.items + 1) }
        ensures released { self.new.released ≡ self.old.released }
        ensures late { self.new.late ≡ self.old.late }
        ensures counts { (p : Packet) (ps : List Packet) (frames : Frames) (ds : List told.Delivery)
            → IsSummary (length ps) summary p (own_of (length ps) true ∷ []) []
            → HasCounted self.old ps frames ds → OnOk result (HasCounted self.new (ps ++ p ∷ [])
            (frames ++ own_of (length ps) true ∷ []) ds) }
    {
        let send = self.sends.len();
        self.sends.push(summary)?;
        self.count_frame(Some(CarriedPacket { send, depth: 0 }))
    }

    /// Counts a frame and what it carries.
    fn count_frame(&mut self, carried: Option<CarriedPacket>) -> Result<(), NoMemory>
        ensures totals { OnOk result (self.new.totals ≡ with_frame true self.old.totals) }
        ensures sends { self.new.sends ≡ self.old.sends }
        ensures delivered { self.new.delivered ≡ self.old.delivered }
        ensures released { self.new.released ≡ self.old.released }
        ensures late { self.new.late ≡ self.old.late }
        ensures carried { OnOk result
            (self.new.carried.items ≡ self.old.carried.items ++ carried ∷ []) }
    {
        self.carried.push_back(carried)?;
        count_one(&mut self.totals.frames);
        Ok(())
    }

    /// Counts a frame that was accepted, and its delivery and forwarding, if any.
    #[inline(always)]
    fn count_accepted(
        &mut self,
        done: &EventRecord<'_>,
        handed: bool,
        relayed: bool,
    ) -> Result<(), NoMemory>
        ensures totals { OnOk result
            (self.new.totals ≡ with_accepted handed relayed self.old.totals) }
        ensures sends { length self.new.sends.items ≡ length self.old.sends.items }
        ensures released { self.new.released ≡ self.old.released }
        ensures late { self.new.late ≡ false → self.old.late ≡ false }
        ensures early { self.old.released ≡ 0 → self.new.late ≡ self.old.late }
        ensures only { self.new.late ≡ (if is_released self.old.released
            (what_of done.now.what.now) then true else self.old.late) }
        ensures counts { (ps : List Packet) (frames : Frames) (ds : List told.Delivery)
            → HasCounted self.old ps frames ds → OnOk result (self.new.late ≡ false
            → let what = what_of done.now.what.now in HasCounted self.new ps
            (with_relay relayed (delivered_by what frames) frames)
            (with_delivery handed (happening_in done.now) (delivered_by what frames) ds)) }
    {
        let carried = self.carried_by(done.what);
        self.count_handed(done, carried, handed)?;
        self.count_relay(carried, relayed)
    }

    /// Returns what the frame carries that an action delivers. If the frame was released, that is
    /// noted.
    #[inline(always)]
    fn carried_by(&mut self, action: &What) -> Option<CarriedPacket>
        ensures others { self.new ≡ record self.old { late = self.new.late } }
        ensures late { self.new.late ≡ false → self.old.late ≡ false }
        ensures early { self.old.released ≡ 0 → self.new.late ≡ self.old.late }
        ensures only { self.new.late ≡ (if is_released self.old.released (what_of action.now)
            then true else self.old.late) }
        ensures carried { self.new.late ≡ false → (frames : Frames)
            → AreKept self.old.carried.items self.old.released frames
            → result ≡ delivered_by (what_of action.now) frames }
    {
        let What::Deliver(frame) = action else {
            return None;
        };
        let Some(place) = frame.checked_sub(self.released) else {
            self.late = true;
            return None;
        };
        match self.carried.get(place) {
            Some(carried) => *carried,
            None => None,
        }
    }

    /// Counts a delivery to a port of a frame that carries this, if it was delivered.
    #[inline(always)]
    fn count_handed(
        &mut self,
        done: &EventRecord<'_>,
        carried: Option<CarriedPacket>,
        handed: bool,
    ) -> Result<(), NoMemory>
        ensures totals { OnOk result (self.new.totals ≡ with_handed handed self.old.totals) }
        ensures sends { length self.new.sends.items ≡ length self.old.sends.items }
        ensures released { self.new.released ≡ self.old.released }
        ensures late { self.new.late ≡ self.old.late }
        ensures counts { (ps : List Packet) (frames : Frames) (ds : List told.Delivery)
            → IsOneOf (length ps) carried → HasCounted self.old ps frames ds
            → OnOk result (HasCounted self.new ps frames
            (with_delivery handed (happening_in done.now) carried ds)) }
    {
        if !handed {
            return Ok(());
        }
        count_one(&mut self.totals.deliveries);
        match carried {
            Some(carried) => self.count_delivery(done, carried),
            None => Ok(()),
        }
    }

    /// Counts a delivery of a packet for an area to a port.
    fn count_delivery(
        &mut self,
        done: &EventRecord<'_>,
        carried: CarriedPacket,
    ) -> Result<(), NoMemory>
        ensures totals { self.new.totals ≡ self.old.totals }
        ensures sends { length self.new.sends.items ≡ length self.old.sends.items }
        ensures released { self.new.released ≡ self.old.released }
        ensures late { self.new.late ≡ self.old.late }
        ensures counts { (ps : List Packet) (frames : Frames) (ds : List told.Delivery)
            → carried.send < length ps → HasCounted self.old ps frames ds
            → OnOk result (HasCounted self.new ps frames
            (told.delivery_of (happening_in done.now) carried ∷ ds)) }
    {
        let first = self.delivered.insert((carried.send, done.station))?;
        if carried.send < self.sends.len() {
            let summary = self.sends[carried.send];
            self.sends[carried.send] = summary.with_delivery(carried.hops(), first, done.moment);
        }
        Ok(())
    }

    /// Counts a forwarded copy of a frame that carries this, if it was forwarded.
    #[inline(always)]
    fn count_relay(&mut self, carried: Option<CarriedPacket>, relayed: bool) -> Result<(), NoMemory>
        ensures totals { OnOk result (self.new.totals ≡ with_frame relayed self.old.totals) }
        ensures sends { length self.new.sends.items ≡ length self.old.sends.items }
        ensures released { self.new.released ≡ self.old.released }
        ensures late { self.new.late ≡ self.old.late }
        ensures counts { (ps : List Packet) (frames : Frames) (ds : List told.Delivery)
            → IsOneOf (length ps) carried → HasCounted self.old ps frames ds
            → OnOk result (HasCounted self.new ps (with_relay relayed carried frames) ds) }
    {
        if !relayed {
            return Ok(());
        }
        let further = self.relayed(carried);
        self.count_frame(further)
    }

    /// Returns what a forwarded copy of this carries, and counts it as a frame of the send.
    fn relayed(&mut self, carried: Option<CarriedPacket>) -> Option<CarriedPacket>
        ensures totals { self.new.totals ≡ self.old.totals }
        ensures delivered { self.new.delivered ≡ self.old.delivered }
        ensures carried { self.new.carried ≡ self.old.carried }
        ensures released { self.new.released ≡ self.old.released }
        ensures late { self.new.late ≡ self.old.late }
        ensures further { result ≡ deeper carried }
        ensures sends { self.new.sends.items ≡ with_frame_of carried self.old.sends.items }
    {
        let carried = carried?;
        if carried.send < self.sends.len() {
            let summary = self.sends[carried.send];
            self.sends[carried.send] = summary.with_frame();
        }
        Some(carried.relayed())
    }
}

impl EventSink for Tally {
    // The totals, how many packets for areas were sent, and what is counted of each of them; but
    // where a delivery was told of a frame that had been let go, nothing is said of that.
    ghost Took = { λ tally events log. AreTotals tally.totals events log
        × (length tally.sends.items ≡ packets_sent events log)
        × (tally.late ≡ false → let lines = lines_of events log in
        HasCounted tally (told.packets lines) (told.carried lines) (told.deliveries lines))
        × (tally.released ≡ 0 → tally.late ≡ false) };

    #[inline(always)]
    fn put(&mut self, world: &World, done: &EventRecord<'_>) -> Result<(), SimulationFault> {
        self.forget_released(world);
        Ok(self.count(world, done)?)
    }

    fn note(
        &mut self,
        _world: &World,
        _moment: u64,
        note: &Note<'_>,
    ) -> Result<(), SimulationFault> {
        Ok(self.presence.take(note)?)
    }
}

/// Adds 1 to a count.
#[inline(always)]
fn count_one(count: &mut usize)
    ensures { count.new ≡ capped (count.old + 1) }
{
    *count = count.saturating_add(1);
}
