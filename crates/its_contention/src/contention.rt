//! The frames of a station that contends, and what it does with each reception.

ghost use Rattle.std.specs.Prelude.{◌≡◌, ◌≤◌, ◌^◌, ℕ, Some, IfOk, length};
ghost use Rattle.std.specs.Option.{option_copied};
ghost use Rattle.its_gnvalue.specs.Values.{mid_of};
ghost use Rattle.its_model.specs.Packet.{Transmission};
ghost use Rattle.its_model.specs.Station.{StationModel};
ghost use Rattle.its_model.specs.Contention.{next_due, first_due, after_fate, fate};
ghost use Rattle.its_model.specs.Contention.{contends_for, due_of};
ghost use Rattle.its_station.specs.State.{RepresentsStation};
ghost use Rattle.its_contention.specs.Buffer.{empty, after_late, after_release, after_drop};
ghost use Rattle.its_contention.specs.Buffer.{cleared};
ghost use Rattle.its_contention.specs.Contending.{after_acceptance, after_duplicate, told_fate};
ghost use Rattle.its_contention.specs.Contending.{GoesAsItIs};
ghost use Rattle.its_contention.specs.Waiting.{longest};

use crate::buffer::HeldFrames;
use crate::counts::ContentionCounts;
use crate::fate::RelayFate;
use crate::key::KeyedOctets;
use crate::longest::longest;
use crate::place::sender_place;
use crate::rule::ContentionRule;
use crate::waiting::WaitingFrame;
use its_geometry::contains;
use its_gnvalue::{Mac, NoMemory};
use its_headers::Kind;
use its_loctable::LocationStore;
use its_station::{LAST_MOMENT, ReceivedFrame, Station};
use std::alloc::Global;
use std::marker::Model;

/// The part of a station that contends: its rule, the frames that wait, and counts. The caller
/// passes each frame that its station accepted and would send (`contend`), each duplicate (`hear`)
/// and each restart (`clear`). Contracts see it as its `Buffer`.
#[derive(Drop)]
pub struct Contention {
    held: HeldFrames<WaitingFrame>,
}

impl Model for Contention {
    ghost use Rattle.its_contention.specs.Buffer.{Buffer};
    ghost use Rattle.its_contention.specs.Waiting.{Waiting};

    ghost Value = { Buffer Waiting };

    ghost view = { λ c. c.held };
}

impl Contention {
    /// No frame waits. All memory is taken here, for 64 frames. `NoMemory` says that an allocation
    /// failed.
    pub fn new(alloc: Global, rule: ContentionRule) -> Result<Contention, NoMemory>
        ensures { IfOk result (λ b. b ≡ empty rule) }
    {
        let held = HeldFrames::new(alloc, rule)?;
        Ok(Contention { held })
    }

    /// The rule.
    pub fn rule(&self) -> ContentionRule
        ensures { result ≡ self.now.rule }
    {
        self.held.rule()
    }

    /// How often each thing happened since this was made.
    pub fn counts(&self) -> ContentionCounts
        ensures { result ≡ self.now.counts }
    {
        self.held.counts()
    }

    /// How many frames wait, due and late ones too: at most 64.
    pub fn len(&self) -> usize
        ensures value { result ≡ length self.now.held }
        ensures bound { result ≤ 64 }
    {
        self.held.len()
    }

    /// The length of the longest frame that waits, due and late ones too, in octets: 0 if none waits.
    pub fn longest(&self) -> usize
        ensures { result ≡ longest self.now.held }
    {
        longest(self.held.waiting())
    }

    /// The least time at which a frame is due, in milliseconds.
    pub fn next_due(&self) -> Option<u64>
        ensures { result ≡ next_due self.now.held }
    {
        self.held.next_due()
    }

    /// Decides what is done with the frame in which a packet goes on that the station accepted at
    /// this time: it goes at once, or it waits. The frame of a GBC whose area holds the
    /// station waits, if fewer than 64 frames do. It takes no memory.
    ///
    /// - `state`, `given`: a frame waits or goes by its fate, and one that finds no place is
    ///   counted.
    /// - `held`: the frames that wait are those of the model.
    /// - `same`: a frame that goes at once is the one that was passed.
    pub fn contend<'a, S: LocationStore, F: ReceivedFrame<'a>>(
        &mut self,
        now: u64,
        station: &Station<S>,
        packet: &F,
        frame: WaitingFrame,
    ) -> RelayFate
        ensures state { (s : StationModel) (relay : Transmission) →
            RepresentsStation station.now s → s.clock ≤ now → now ≤ 2 ^ 62 →
            self.new ≡ after_acceptance self.old s now (F.frame packet.now) relay frame }
        ensures given { (s : StationModel) (relay : Transmission) →
            RepresentsStation station.now s → s.clock ≤ now → now ≤ 2 ^ 62 →
            result ≡ told_fate frame (fate self.old.rule s now self.old.held
            (F.frame packet.now) (Some relay)) }
        ensures held { (s : StationModel) (relay : Transmission) →
            RepresentsStation station.now s → s.clock ≤ now → now ≤ 2 ^ 62 →
            self.new.held ≡ after_fate (λ sent. frame) self.old.held (Some relay)
            (fate self.old.rule s now self.old.held (F.frame packet.now) (Some relay)) }
        ensures same { GoesAsItIs frame result }
    {
        if !contends_for(station, packet) {
            return RelayFate::Goes(frame);
        }
        if !self.held.has_room() {
            self.held.note_full();
            return RelayFate::Goes(frame);
        }
        let due = due_of(self.held.rule(), now, station, packet);
        self.held.hold(frame, due);
        RelayFate::Waits(due)
    }

    /// Counts a duplicate with these octets, from this link sender, at each frame that waits of
    /// which it is a copy, and returns how many frames that cancels. `own` is the station's link
    /// address. It takes no memory.
    pub fn hear(&mut self, octets: &[u8], sender: Mac, own: Mac) -> usize
        ensures state { self.new ≡ after_duplicate self.old own octets.now sender }
        ensures count { result ≡ length self.new.left }
    {
        // No key is made of the octets if no frame waits.
        if self.held.len() == 0 {
            return self.held.hear(sender, |_| false);
        }
        let came = KeyedOctets::new(octets);
        self.held.hear(sender, |held| held.is_copied(&came, own))
    }

    /// Drops all frames, since the station restarted, and returns how many.
    pub fn clear(&mut self) -> usize
        ensures state { self.new ≡ cleared self.old }
        ensures count { result ≡ length self.new.left }
    {
        self.held.clear()
    }

    /// Drops the frames that were due more than 1000 ms before.
    pub fn drop_late(&mut self, now: u64)
        ensures { self.new ≡ after_late self.old now }
    {
        self.held.drop_late(now);
    }

    /// The frame that is released at this time: of those that are due the one with the least time,
    /// of several the one that was put first.
    pub fn first_due(&self, now: u64) -> Option<&WaitingFrame>
        ensures { option_copied result ≡ first_due now self.now.held }
    {
        self.held.first_due(now)
    }

    /// Takes the frame of `first_due` out, in order to send it: it counts as released.
    pub fn take_due(&mut self, now: u64) -> Option<WaitingFrame>
        ensures frame { result ≡ first_due now self.old.held }
        ensures state { self.new ≡ after_release self.old now }
    {
        self.held.take_due(now)
    }

    /// Takes the frame of `first_due` out, since a limit withholds it: it counts as dropped.
    pub fn drop_due(&mut self, now: u64) -> Option<WaitingFrame>
        ensures frame { result ≡ first_due now self.old.held }
        ensures state { self.new ≡ after_drop self.old now }
    {
        self.held.drop_due(now)
    }
}

/// Whether the frame in which a packet goes on contends that the station accepted: a GBC's whose area
/// holds the station.
pub fn contends_for<'a, S: LocationStore, F: ReceivedFrame<'a>>(
    station: &Station<S>,
    packet: &F,
) -> bool
    ensures { (s : StationModel) → RepresentsStation station.now s →
        result ≡ contends_for s (F.frame packet.now).pdu.body }
{
    match (packet.kind(), packet.area()) {
        (Kind::Gbc, Some(area)) => contains(&area, station.vector().place()),
        _ => false,
    }
}

/// When the frame of a packet is due that a station accepted at this time, in milliseconds: once it
/// has waited by the rule (`ContentionRule::wait`). The clause is of times up to 2^62 ms.
pub fn due_of<'a, S: LocationStore, F: ReceivedFrame<'a>>(
    rule: ContentionRule,
    now: u64,
    station: &Station<S>,
    packet: &F,
) -> u64
    ensures { (s : StationModel) → RepresentsStation station.now s → s.clock ≤ now →
        now ≤ 2 ^ 62 → result ≡ due_of rule s now (F.frame packet.now) }
{
    let own = station.vector().place();
    let sender = sender_place(station, now.min(LAST_MOMENT), packet.sender());
    let number = packet.number().unwrap_or(0);
    let wait = rule.wait(own, sender, station.address().mid(), number);
    now.saturating_add(u64::from(wait))
}
