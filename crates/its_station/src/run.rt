//! Many calls, one after the other.

ghost use Rattle.std.specs.Prelude.{◌≡◌, ◌≤◌, ◌<◌, ℕ, List, All, length, take};
ghost use Rattle.std.specs.Prelude.{IfOk, OnErr, IsTrue, IsFalse};
ghost use Rattle.its_model.specs.Calls.{Call as ModelCall};
ghost use Rattle.its_model.specs.Calls.Call.{Own};
ghost use Rattle.its_model.specs.Station.{StationModel, station_step};
ghost use Rattle.its_linkframe.specs.Frames.{IsFrame};
ghost use Rattle.its_station.specs.State.{RepresentsStation};
ghost use Rattle.its_station.specs.Receiving.{IsFrameCall};
ghost use Rattle.its_station.specs.Answers.{IsAnswerTo};
ghost use Rattle.its_station.specs.Runs.{IsCall, IsInRange, IsOwnInRange, own_of};
ghost use Rattle.its_station.specs.Runs.{IsRunOf, IsIsolatedRunOf};

use crate::answer::{
    Answer, Delivery, StationAnswer, answer_of_done, answer_of_send, answer_of_tick, make_room,
};
use crate::call::{Call, OwnCall};
use crate::outcome::Why;
use crate::refused::Refused;
use crate::station::Station;
use its_gnvalue::NoMemory;
use its_loctable::LocationStore;
use its_model::laws::{calls_go_on, sources_are_isolated};
use std::alloc::Global;

/// The answer to a call that was one of many.
#[derive(Debug, Drop, PartialEq, Eq)]
pub enum Reply {
    /// The station moved, opened or closed a port, or restarted.
    Done,
    /// No beacon was due.
    Quiet,
    /// This frame is to be sent.
    Sent(Vec<u8>),
    /// A frame was ignored.
    Ignored(Why),
    /// A frame's packet was accepted.
    Accepted {
        /// What was delivered to a port, if anything was.
        handed: Option<Delivery>,
        /// The frame in which the packet is forwarded, if it is.
        sent: Option<Vec<u8>>,
    },
    /// The call was refused, and changed nothing. It is never refused for memory here.
    Refused(Refused),
}

impl From<StationAnswer> for Reply {
    ghost use Rattle.its_station.specs.Runs.{reply_of};

    ghost from_gives = { λ answer reply. reply ≡ reply_of answer };

    fn from(answer: StationAnswer) -> Reply {
        match answer {
            Answer::Moved | Answer::Opened | Answer::Closed | Answer::Restarted => Reply::Done,
            Answer::Quiet => Reply::Quiet,
            Answer::Sent(frame) => Reply::Sent(frame),
            Answer::Ignored(why) => Reply::Ignored(why),
            Answer::Accepted { handed, sent } => Reply::Accepted { handed, sent },
            Answer::Refused(refused) => Reply::Refused(refused),
        }
    }
}

/// The outcome of the calls: a reply for each that was made.
#[derive(Debug, Drop, PartialEq, Eq)]
pub struct Ran {
    /// The replies, in order.
    pub replies: Vec<Reply>,
    /// Whether memory ran out, so that the calls after these weren't made.
    pub out_of_memory: bool,
}

impl<S: LocationStore> Station<S> {
    /// Makes the calls in order, each at its moment, until memory runs out: then neither the call
    /// that met it nor any after it is made, and the station stands as after those before it. The
    /// speed of each `MoveTo` has to be in its range. Sources are isolated: where moments don't
    /// fall and no answer is that the table is full (S4), in these calls and all before, what the
    /// station's own applications and one source see of the answers to the calls done doesn't
    /// depend on the frames of other sources. The link target of an own packet for an area may, and
    /// which frames go on.
    ///
    /// - `run`: the calls that were made are the model's calls from where the station stood, one
    ///   for one; if it had begun with `new` and any past calls, what its applications and one
    ///   source see of the answers doesn't depend on the frames of other sources
    ///   (`IsIsolatedRunOf`), on the premises that the moments of past and calls never fall and
    ///   that no answer was that the table is full. To see an answer leaves out relays and the link
    ///   target of an own packet for an area.
    /// - `done`, `all`, `some`: all calls are made, unless memory ran out: then those before the
    ///   one that met it.
    pub fn run(&mut self, calls: &[(u64, Call)]) -> Ran
        requires { All (λ call. IsInRange call.1) calls.now }
        ensures done { length result.replies.items ≤ length calls.now }
        ensures all { IsFalse result.out_of_memory →
            length result.replies.items ≡ length calls.now }
        ensures some { IsTrue result.out_of_memory →
            length result.replies.items < length calls.now }
        ensures run { (s : StationModel) → RepresentsStation self.old s →
            IsIsolatedRunOf s (take (length result.replies.items) calls.now)
            result.replies.items self.new }
    {
        // Laws, for the proof alone.
        sources_are_isolated();
        self.run_all(calls)
    }

    /// The loop of `run`.
    fn run_all(&mut self, calls: &[(u64, Call)]) -> Ran
        requires { All (λ call. IsInRange call.1) calls.now }
        ensures done { length result.replies.items ≤ length calls.now }
        ensures all { IsFalse result.out_of_memory →
            length result.replies.items ≡ length calls.now }
        ensures some { IsTrue result.out_of_memory →
            length result.replies.items < length calls.now }
        ensures run { (s : StationModel) → RepresentsStation self.old s →
            IsRunOf s (take (length result.replies.items) calls.now)
            result.replies.items self.new }
    {
        // Laws, for the proof alone.
        calls_go_on();
        let mut replies = Vec::new(self.alloc());
        for call in calls {
            if replies.reserve(1).is_err() {
                return Ran {
                    replies,
                    out_of_memory: true,
                };
            }
            let Ok(answer) = self.answer(call.0, &call.1) else {
                return Ran {
                    replies,
                    out_of_memory: true,
                };
            };
            let Ok(()) = replies.push(Reply::from(answer)) else {
                unreachable!()
            };
        }
        Ran {
            replies,
            out_of_memory: false,
        }
    }

    fn alloc(&self) -> Global {
        self.alloc
    }

    /// Makes one call at its time, and returns what the call of that name answers, with octets of
    /// its own. The speed of a `MoveTo` has to be in its range. `NoMemory` if an allocation failed:
    /// nothing changed then.
    pub fn answer(&mut self, moment: u64, call: &Call) -> Result<StationAnswer, NoMemory>
        requires { IsInRange call.now }
        ensures step { IfOk result (λ answer. (c : ModelCall) × IsCall call.now c
            × ((s : StationModel) → RepresentsStation self.old s →
            IsAnswerTo answer self.new (station_step s moment c))) }
        ensures unchanged { OnErr result (self.new ≡ self.old) }
    {
        match call {
            Call::Own(own) => self.answer_own(moment, own),
            Call::Receive(frame) => self.receive_owned(moment, frame),
        }
    }

    /// Makes one call of the applications at its time, as `answer` does.
    pub fn answer_own(&mut self, moment: u64, call: &OwnCall) -> Result<StationAnswer, NoMemory>
        requires { IsOwnInRange call.now }
        ensures step { IfOk result (λ answer.
            (s : StationModel) → RepresentsStation self.old s →
            IsAnswerTo answer self.new (station_step s moment (Own (own_of call.now)))) }
        ensures unchanged { OnErr result (self.new ≡ self.old) }
    {
        match call {
            OwnCall::MoveTo {
                place,
                pai,
                speed,
                heading,
            } => answer_of_done(
                self.move_to(moment, *place, *pai, *speed, *heading),
                Answer::Moved,
            ),
            OwnCall::Open(port) => answer_of_done(self.open(moment, *port), Answer::Opened),
            OwnCall::Close(port) => answer_of_done(self.close(moment, *port), Answer::Closed),
            OwnCall::Restart(number) => {
                answer_of_done(self.restart(moment, *number), Answer::Restarted)
            }
            OwnCall::Tick(jitter) => answer_of_tick(self.tick(moment, *jitter)),
            OwnCall::SendShb(r) => answer_of_send(self.send_shb(moment, &r.lend())),
            OwnCall::SendGeobroadcast(r) => {
                answer_of_send(self.send_geobroadcast(moment, &r.lend()))
            }
            OwnCall::SendGeoanycast(r) => answer_of_send(self.send_geoanycast(moment, &r.lend())),
        }
    }

    /// Receives a frame, and returns an answer with a payload of its own.
    fn receive_owned(&mut self, moment: u64, frame: &[u8]) -> Result<StationAnswer, NoMemory>
        ensures step { IfOk result (λ answer. (c : ModelCall) × IsFrameCall frame.now c
            × ((s : StationModel) → RepresentsStation self.old s →
            IsAnswerTo answer self.new (station_step s moment c))) }
        ensures unchanged { OnErr result (self.new ≡ self.old) }
    {
        let alloc = self.alloc();
        let mut room = Vec::new(alloc);
        make_room(&mut room, frame)?;
        StationAnswer::of_received(alloc, self.receive(moment, frame), &mut room)
    }
}
