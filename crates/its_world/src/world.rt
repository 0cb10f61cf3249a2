//! A world, and one event in it.

ghost use Rattle.std.specs.Prelude.{◌≡◌, ◌<◌, ◌≤◌, ◌+◌, ◌-◌, ◌++◌, ◌∷◌, [], ℕ, List, All, map, length};
ghost use Rattle.std.specs.Prelude.{IfOk, IfErr, OnOk, OnErr, Some, slice_get, drop, min, max};
ghost use Rattle.std.specs.Prelude.{IfSome, IsTrue};
ghost use Rattle.std.specs.Option.{option_map};
ghost use Rattle.its_model.specs.Calls.{Answer as ModelAnswer, Call};
ghost use Rattle.its_model.specs.Station.{StationModel, station_step};
ghost use Rattle.its_model.specs.World.{WorldModel, opening, world_step, entries};
ghost use Rattle.its_model.specs.World.What.{Calls, Deliver};
ghost use Rattle.its_model.specs.Reach.{HasOwnAddress};
ghost use Rattle.its_headers.specs.Encoding.{IsBytes};
ghost use Rattle.its_station.specs.Known.{AreContentsOf};
ghost use Rattle.its_station.specs.Receiving.{DeliversEndOf, IsFrameCall, Tells};
ghost use Rattle.its_station.specs.Runs.{IsOwnInRange, own_of};
ghost use Rattle.its_station.specs.State.{StationState, RepresentsStation};
ghost use Rattle.its_station.specs.Steps.{IsStepOf};
ghost use Rattle.its_world.specs.Frames.{frame_in};
ghost use Rattle.its_world.specs.State.{RepresentsWorld};
ghost use Rattle.its_world.specs.Events.{IsConfig, IsInRange, config_of, event_of, what_of};
ghost use Rattle.its_world.specs.Entries.{TellsEntry};
ghost use Rattle.its_world.specs.Mids.{AreApart, IsMidFault};
ghost use Rattle.its_world.specs.Steps.{AreSameBut, IsDoneBy, IsGone, IsKept};
ghost use Rattle.its_world.specs.Late.{with_station};

use crate::air::Air;
use crate::config::{Config, WorldFault};
use crate::entry::{Entry, EntryFault, entry_of, number_of, refusal};
use crate::event::{Event, What};
use crate::mids::refuse_shared;
use crate::stations::{begin_station, stations_of};
use its_gnvalue::{GnAddress, NoMemory};
use its_linkframe::laws::{one_frame, one_frame_fault};
use its_loctable::{HALVINGS, SIDE_BY_SIDE, SortedTable, narrow};
use its_model::laws::addresses_are_own;
use its_station::{
    Answer, Delivery, FrameContents, KnownFrame, Outcome, OwnCall, Refused, Station, make_room,
};
use std::alloc::Global;
use std::array;
use std::marker::Model;

/// Stations, and all frames that they sent, numbered from 0 in the order in which they were sent. A
/// frame that is not delivered is lost. A frame may be delivered often, late, and to any station.
/// The first frames may be released (`release`). Those after them keep their numbers.
#[derive(Drop)]
pub struct World {
    pub(crate) alloc: Global,
    stations: Vec<Station<SortedTable>>,
    air: Air,
    /// Room for the payload of the next delivery: that of the last one, where nothing was delivered.
    room: Vec<u8>,
    /// The frame that was read last, if it may still be delivered: the last one that was expected.
    read: Option<ReadFrame>,
}

impl Model for World {
    ghost use Rattle.std.specs.Prelude.{IfSome};
    ghost use Rattle.its_world.specs.Read.{IsReadFrom};
    ghost use Rattle.its_world.specs.State.{WorldState};

    ghost Value = { WorldState };

    ghost view = { λ w. record {
      stations = w.stations.items;
      released = w.air.released;
      frames = w.air.kept.items;
    } };

    ghost invariant = { λ w. IfSome w.read (IsReadFrom w.air.released w.air.kept.items) };
}

impl World {
    /// Makes the world of these configs, at most 65535, before its first event. The capacity of
    /// each is 1 to 4096, and `remember` is 1 to 64. Fails with `SameMid` (M1) if and only if two
    /// stations share a MID. Otherwise fails with `NoMemory` (M2) if an allocation failed. So each
    /// station has an address of its own, which the law on reaching requires of a sender.
    ///
    /// - `opens`, `apart`, `own`: the model's world of these configs, in which nothing happened
    ///   yet; no two stations share a MID; each has an address of its own, as the law on reaching
    ///   asks of a sender.
    pub fn new(alloc: Global, configs: &[Config]) -> Result<World, WorldFault>
        requires ranges { All IsConfig configs.now }
        requires count { length configs.now ≤ 65535 }
        ensures opens { IfOk result (λ w. RepresentsWorld w (opening (map config_of configs.now))) }
        ensures apart { OnOk result (AreApart configs.now) }
        ensures own { OnOk result ((station : ℕ) →
            HasOwnAddress (map config_of configs.now) station) }
        ensures refused { IfErr result (λ fault. IsMidFault fault configs.now) }
        ensures kept { IfOk result (λ w. w.released ≡ 0) }
    {
        // A law, for the proof alone.
        addresses_are_own();
        refuse_shared(alloc, configs)?;
        World::of_apart(alloc, configs).map_err(|_| WorldFault::NoMemory)
    }

    /// Makes the world of configs that have no MID in common, for example after `refuse_shared`.
    /// Their MIDs aren't compared again.
    pub fn of_apart(alloc: Global, configs: &[Config]) -> Result<World, NoMemory>
        requires ranges { All IsConfig configs.now }
        requires count { length configs.now ≤ 65535 }
        requires apart { AreApart configs.now }
        ensures opens { IfOk result (λ w. RepresentsWorld w (opening (map config_of configs.now))) }
        ensures kept { IfOk result (λ w. w.released ≡ 0) }
    {
        Ok(World {
            alloc,
            stations: stations_of(alloc, configs)?,
            air: Air::new(alloc),
            room: Vec::new(alloc),
            read: None,
        })
    }

    /// Adds a station of this config, with the next number, before its first event. It is in the
    /// state that it would have if it had been there from the beginning
    /// (`late_stations_were_there`). Its capacity is 1 to 4096, and `remember` is 1 to 64. Its MID
    /// is not compared with those of others. If an allocation failed, nothing changed.
    pub fn add_station(&mut self, config: &Config) -> Result<(), NoMemory>
        requires { IsConfig config.now }
        ensures added { OnOk result ((w : WorldModel) → RepresentsWorld self.old w →
            RepresentsWorld self.new (with_station w (config_of config.now))) }
        ensures count { OnOk result (length self.new.stations ≡ length self.old.stations + 1) }
        ensures others { (number : ℕ) → number < length self.old.stations →
            slice_get self.new.stations number ≡ slice_get self.old.stations number }
        ensures frames { self.new.frames ≡ self.old.frames }
        ensures released { self.new.released ≡ self.old.released }
        ensures unchanged { OnErr result (self.new ≡ self.old) }
    {
        let station = begin_station(self.alloc, config)?;
        self.stations.push(station)?;
        Ok(())
    }

    /// Returns the station of a number, after the events that were done. `None` if it doesn't
    /// exist.
    pub fn station(&self, number: usize) -> Option<&Station<SortedTable>>
        ensures { option_map (λ station. station.now) result ≡ slice_get self.now.stations number }
    {
        self.stations.get(number)
    }

    /// Returns the stations, in the order of the configs, after the events that were done.
    pub fn stations(&self) -> &[Station<SortedTable>]
        ensures { result.now ≡ self.now.stations }
    {
        self.stations.as_slice()
    }

    /// Returns how many frames were sent, with those that were released. This is the number of the
    /// next one.
    pub fn frames(&self) -> usize
        ensures { result ≡ self.now.released + length self.now.frames }
    {
        self.air.count()
    }

    /// Returns how many frames were released: those of lower numbers. It is 0 before `release` is
    /// called.
    pub fn released(&self) -> usize
        ensures { result ≡ self.now.released }
    {
        self.air.released()
    }

    /// Releases the frames before this number, so that their memory is free for others. Their
    /// octets are gone, and they can't be delivered. The others keep their numbers. Nothing else
    /// changes: the world is at the end of the same run. Frames that were released before stay so,
    /// and the number may be above that of all frames.
    ///
    /// - `stands`, `stations`, `released`, `frames`, `count`: the frames before a number are
    ///   released: the world represents what it did, and the others keep their numbers and octets.
    pub fn release(&mut self, before: usize)
        ensures stands { (w : WorldModel) → RepresentsWorld self.old w → RepresentsWorld self.new w }
        ensures stations { self.new.stations ≡ self.old.stations }
        ensures released { self.new.released
            ≡ max self.old.released (min before (self.old.released + length self.old.frames)) }
        ensures frames { self.new.frames
            ≡ drop (self.new.released - self.old.released) self.old.frames }
        ensures count { self.new.released + length self.new.frames
            ≡ self.old.released + length self.old.frames }
    {
        self.read = None;
        self.air.release(before);
    }

    /// Returns the octets of a frame, by its number. The number has to be below `frames()`, and at
    /// least `released()`.
    pub fn frame(&self, number: usize) -> &[u8]
        requires kept { self.now.released ≤ number }
        requires given { number < self.now.released + length self.now.frames }
        ensures { option_map (λ w. w.items) (frame_in self.now.released self.now.frames number)
            ≡ Some result.now }
    {
        self.air.frame(number)
    }

    /// Returns the octets of a frame, by its number. `None` if it was released or doesn't exist.
    pub fn kept_frame(&self, number: usize) -> Option<&[u8]>
        ensures { option_map (λ octets. octets.now) result ≡ option_map (λ w. w.items)
            (frame_in self.now.released self.now.frames number) }
    {
        self.air.get(number)
    }

    /// Does one event. The speed of a `MoveTo` has to be in its range. The world makes one step of
    /// the model, and the entry is what the model logs of it. No other station changes. If an
    /// allocation failed, nothing changed, and the event may be done again. `run` does many events,
    /// and its contract has the laws.
    ///
    /// The model knows nothing of released frames. The delivery of one fails with `NoSuchFrame`,
    /// and changes nothing.
    #[inline(always)]
    pub fn step(&mut self, event: &Event) -> Result<Entry, NoMemory>
        requires { IsInRange event.now.what }
        ensures step { IfOk result (λ entry. (w : WorldModel) → RepresentsWorld self.old w →
            IsKept self.old.released (what_of event.now.what) →
            RepresentsWorld self.new (world_step w (event_of event.now))
            × (answer : ModelAnswer ℕ) × TellsEntry entry answer
            × (entries (world_step w (event_of event.now)).log ≡ entries w.log ++ answer ∷ [])) }
        ensures gone { IsGone self.old.released (what_of event.now.what) →
            event.now.station < length self.old.stations → IfOk result (λ entry.
            (entry ≡ Answer.Refused EntryFault.NoSuchFrame) × (self.new ≡ self.old)) }
        ensures others { AreSameBut event.now.station self.old.stations self.new.stations }
        ensures released { self.new.released ≡ self.old.released }
        ensures unchanged { OnErr result (self.new ≡ self.old) }
    {
        if event.station >= self.stations.len() {
            return Ok(Answer::Refused(EntryFault::NoSuchStation));
        }
        match &event.what {
            What::Call(call) => self.call(event.station, event.moment, call),
            What::Deliver(number) => self.deliver(event.station, event.moment, *number),
        }
    }

    /// Delivers the frame of this number to a station that is there.
    #[inline(always)]
    fn deliver(&mut self, station: usize, moment: u64, number: usize) -> Result<Entry, NoMemory>
        requires there { station < length self.old.stations }
        ensures step { IfOk result (IsDoneBy self.old self.new (record {
          station = station;
          moment = moment;
          what = Deliver number;
        })) }
        ensures gone { number < self.old.released → IfOk result (λ entry.
            (entry ≡ Answer.Refused EntryFault.NoSuchFrame) × (self.new ≡ self.old)) }
        ensures others { AreSameBut station self.old.stations self.new.stations }
        ensures released { self.new.released ≡ self.old.released }
        ensures unchanged { OnErr result (self.new ≡ self.old) }
    {
        self.air.make_room()?;
        let Some(frame) = self.air.get(number) else {
            return Ok(Answer::Refused(EntryFault::NoSuchFrame));
        };
        // Laws, for the proof alone.
        one_frame();
        one_frame_fault();
        make_room(&mut self.room, frame)?;
        let contents = contents_of(number, &self.read);
        let answer = receive(&mut self.stations[station], moment, frame, contents);
        match answer {
            Ok(Outcome::Ignored(why)) => Ok(Answer::Ignored(why)),
            Ok(Outcome::Accepted { handed, sent }) => {
                let handed = Delivery::in_room(self.alloc, handed, &mut self.room);
                let number = number_of(&sent, self.air.count());
                self.air.number(sent);
                Ok(Answer::Accepted {
                    handed,
                    sent: number,
                })
            }
            Err(refused) => refusal(refused),
        }
    }

    /// Has a station that is there make a call of its applications.
    #[inline(never)]
    fn call(&mut self, station: usize, moment: u64, call: &OwnCall) -> Result<Entry, NoMemory>
        requires there { station < length self.old.stations }
        requires range { IsOwnInRange call.now }
        ensures step { IfOk result (IsDoneBy self.old self.new (record {
          station = station;
          moment = moment;
          what = Calls (own_of call.now);
        })) }
        ensures others { AreSameBut station self.old.stations self.new.stations }
        ensures released { self.new.released ≡ self.old.released }
        ensures unchanged { OnErr result (self.new ≡ self.old) }
    {
        self.air.make_room()?;
        // Laws, for the proof alone.
        one_frame();
        one_frame_fault();
        let answer = self.stations[station].answer_own(moment, call)?;
        let (entry, frame) = entry_of(answer, self.air.count());
        self.air.number(frame);
        Ok(entry)
    }
}

impl World {
    /// Says that this frame will be delivered to these stations next, so that they look its source up
    /// side by side: a look-up mostly waits for memory, and so all wait at once. The world stays as it
    /// was, and each delivery is answered as it would be without this call.
    pub fn expect(&mut self, now: u64, frame: usize, stations: &[usize])
        ensures { self.new ≡ self.old }
    {
        let Some(source) = self.read_frame(frame) else {
            return;
        };
        for part in stations.chunks(SIDE_BY_SIDE) {
            let found = self.search_all(part, source);
            for (index, number) in found.iter().zip(part) {
                self.expect_at(*number, now, *index);
            }
        }
    }

    /// Says to a station, if it is there, where its next look-up will find its source.
    fn expect_at(&mut self, number: usize, now: u64, index: usize)
        ensures { self.new ≡ self.old }
    {
        if let Some(station) = self.stations.get_mut(number) {
            station.expect(now, index);
        }
    }

    /// Reads a frame once, for all its deliveries. Returns the source of its packet. `None` if the
    /// frame isn't kept.
    fn read_frame(&mut self, number: usize) -> Option<GnAddress>
        ensures { self.new ≡ self.old }
    {
        let octets = self.air.get(number)?;
        let contents = contents_in(octets)?;
        let source = contents.vector.address();
        self.read = Some(ReadFrame { number, contents });
        Some(source)
    }

    /// Where the location tables of the first `SIDE_BY_SIDE` of these stations have an address, if
    /// they have it.
    fn search_all(&self, stations: &[usize], address: GnAddress) -> [usize; SIDE_BY_SIDE] {
        let columns = self.columns_of(stations);
        let longest = columns.iter().map(|column| column.len()).max().unwrap_or(0);
        let mut found = [0; SIDE_BY_SIDE];
        for half in HALVINGS {
            if half < longest {
                for (last, column) in found.iter_mut().zip(&columns) {
                    *last = narrow(column, *last, half, address);
                }
            }
        }
        found
    }

    /// The columns of the location tables of the first `SIDE_BY_SIDE` of these stations.
    fn columns_of(&self, stations: &[usize]) -> [&[GnAddress]; SIDE_BY_SIDE] {
        array::from_fn(|index| self.column_of(stations.get(index)))
    }

    /// The column of the location table of a station, nothing if there is no station.
    fn column_of(&self, number: Option<&usize>) -> &[GnAddress] {
        match number {
            Some(number) => match self.stations.get(*number) {
                Some(station) => station.column(),
                None => &[],
            },
            None => &[],
        }
    }
}

impl World {
    /// Keeps the buffer of a payload that was delivered for the next delivery. The world stays as it
    /// was.
    #[inline(always)]
    pub fn reuse(&mut self, entry: Entry)
        ensures { self.new ≡ self.old }
    {
        if let Answer::Accepted {
            handed: Some(handed),
            ..
        } = entry
        {
            self.room = handed.payload;
        }
    }
}

/// A frame that was read: its number and its contents.
#[derive(Clone, Copy, Debug)]
struct ReadFrame {
    number: usize,
    contents: FrameContents,
}

/// Returns the contents of a frame, `None` if its octets have a fault.
fn contents_in(octets: &[u8]) -> Option<FrameContents>
    ensures { IfSome result (AreContentsOf octets.now) }
{
    match FrameContents::read(octets) {
        Ok(contents) => Some(contents),
        Err(_) => None,
    }
}

/// Returns the contents of the frame of a number, if it is the frame that was read.
#[inline(always)]
fn contents_of(number: usize, read: &Option<ReadFrame>) -> Option<&FrameContents>
    ensures { IfSome result (λ contents.
        read.now ≡ Some (record { number = number; contents = contents.now })) }
{
    match read {
        Some(read) if read.number == number => Some(&read.contents),
        Some(_) | None => None,
    }
}

/// Has a station receive a frame. If its contents are known, they are not read again.
#[inline(always)]
fn receive<'a>(
    station: &mut Station<SortedTable>,
    moment: u64,
    frame: &'a [u8],
    contents: Option<&FrameContents>,
) -> Result<Outcome<'a>, Refused>
    requires contents { IfSome contents (λ contents. AreContentsOf frame.now contents.now) }
    ensures step { (call : Call) × IsFrameCall frame.now call
        × ((s : StationModel) → RepresentsStation station.old s →
        IsStepOf Tells result station.new (station_step s moment call)) }
    ensures unchanged { OnErr result (station.new ≡ station.old) }
    ensures payload { IfOk result (DeliversEndOf frame.now) }
    ensures bytes { IsBytes frame.now }
{
    match contents {
        Some(contents) => station.receive_frame(moment, &KnownFrame::new(frame, contents)),
        None => {
            // In a place of its own, so that an answer of the other arm stays in registers.
            let answer = station.receive(moment, frame);
            answer
        }
    }
}
