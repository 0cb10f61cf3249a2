//! What a unit does past its limits: for what a line of JSON asks for.

ghost use Rattle.std.specs.Prelude.{◌≡◌, Err, IfOk, OnErr};
ghost use Rattle.its_headers.specs.declared.kind.Kind.TheVariants as kinds;
ghost use Rattle.its_station.specs.Answers.{TellsAnswer};
ghost use Rattle.its_station.specs.Counting.{counted_answer, own_kind};
ghost use Rattle.its_station.specs.Requests.{shb_request};
ghost use Rattle.its_station.specs.Runs.{IsOwnInRange, own_of};
ghost use Rattle.its_unit.specs.Steps.{AreKept, IsSameUnit, IsSendOf, SaysPassed};
ghost use Rattle.its_unit.specs.Steps.{after_line, counted_received, counted_request};
ghost use Rattle.its_unit.specs.Unit.{RepresentsUnit, UnitModel, step_by, unlimited_step};
ghost use Rattle.its_unit.specs.Unit.UnitCall.{Own, SendShbFor};

use crate::limiting::Limiting;
use crate::unit::Unit;
use crate::unsent::Unsent;
use its_gnvalue::NoMemory;
use its_headers::Kind;
use its_loctable::LocationStore;
use its_station::{
    Answer, Counts, Outcome, OwnCall, Refused, ShbOptions, ShbRequest, StationAnswer,
};

impl<S: LocationStore> Unit<S> {
    /// Makes a call of the applications as `Station::answer_own` does, and counts it. No limit applies
    /// to it, and it takes nothing from one. A restart drops the frames that wait. `NoMemory` if an
    /// allocation failed: nothing changed then but the counts.
    pub fn answer_unlimited(&mut self, now: u64, call: &OwnCall) -> Result<StationAnswer, NoMemory>
        requires { IsOwnInRange call.now }
        ensures step { (u : UnitModel) → RepresentsUnit self.old u → IfOk result (λ answer.
            SaysPassed TellsAnswer answer (unlimited_step u now (Own (own_of call.now))).answer
            × RepresentsUnit self.new (unlimited_step u now (Own (own_of call.now))).unit) }
        ensures counts { self.new.counts
            ≡ counted_answer (own_kind call.now) result self.old.counts }
        ensures limits { self.new.governor ≡ self.old.governor }
        ensures contention { self.new.contention ≡ after_line result self.old.contention }
        ensures unchanged { OnErr result (IsSameUnit self.old self.new) }
    {
        let answer = self.station.answer_own(now, call);
        note_own(&mut self.counts, call, &answer);
        if let (Ok(Answer::Restarted), Some(contention)) = (&answer, &mut self.contention) {
            contention.clear();
        }
        answer
    }

    /// The frame of a single-hop broadcast with a lifetime and media-dependent data of its own, within
    /// the limits (`send_shb_for`) or past them: then none applies to it, and it takes nothing from one.
    pub fn send_shb_by(
        &mut self,
        limiting: Limiting,
        now: u64,
        r: &ShbRequest<'_>,
        options: ShbOptions,
    ) -> Result<Vec<u8>, Unsent>
        ensures step { (u : UnitModel) → RepresentsUnit self.old u →
            IsSendOf result self.new
            (step_by limiting u now (SendShbFor options (shb_request r.now))) }
        ensures counts { self.new.counts
            ≡ counted_request kinds.Shb result self.old.counts }
        ensures limits { AreKept limiting self.old.governor self.new.governor }
        ensures contention { self.new.contention ≡ self.old.contention }
        ensures unchanged { (e : Refused) → result ≡ Err (Unsent.Refused e) →
            IsSameUnit self.old self.new }
    {
        match limiting {
            Limiting::Within => self.send_shb_for(now, r, options),
            Limiting::Past => self.send_shb_unlimited(now, r, options),
        }
    }

    /// So past the limits.
    fn send_shb_unlimited(
        &mut self,
        now: u64,
        r: &ShbRequest<'_>,
        options: ShbOptions,
    ) -> Result<Vec<u8>, Unsent>
        ensures step { (u : UnitModel) → RepresentsUnit self.old u →
            IsSendOf result self.new
            (unlimited_step u now (SendShbFor options (shb_request r.now))) }
        ensures counts { self.new.counts
            ≡ counted_request kinds.Shb result self.old.counts }
        ensures limits { self.new.governor ≡ self.old.governor }
        ensures contention { self.new.contention ≡ self.old.contention }
        ensures unchanged { (e : Refused) → result ≡ Err (Unsent.Refused e) →
            IsSameUnit self.old self.new }
    {
        let said = self.station.send_shb_for(now, r, options);
        self.counts.note_send(Kind::Shb, &said);
        match said {
            Ok(frame) => Ok(frame),
            Err(refused) => Err(Unsent::Refused(refused)),
        }
    }

    /// Counts a frame that came, for which there was no memory.
    pub fn note_no_memory(&mut self)
        ensures { self.new ≡ record self.old {
          counts = counted_received (Err Refused.NoMemory) self.old.counts;
        } }
    {
        self.counts.note_received(&Err(Refused::NoMemory));
    }
}

/// Counts a call of the applications by its answer.
fn note_own(counts: &mut Counts, call: &OwnCall, answer: &Result<StationAnswer, NoMemory>)
    ensures { counts.new ≡ counted_answer (own_kind call.now) answer.now counts.old }
{
    match answer {
        Ok(Answer::Sent(_)) => {
            if let Some(kind) = own_kind(call) {
                counts.note_sent(kind);
            }
        }
        Ok(Answer::Ignored(why)) => counts.note_outcome(&Outcome::Ignored(*why)),
        Ok(Answer::Accepted { handed, sent }) => {
            counts.note_accepted(handed.is_some(), sent.is_some());
        }
        Ok(Answer::Refused(refused)) => counts.note_refused(*refused),
        Ok(Answer::Moved | Answer::Opened | Answer::Closed | Answer::Restarted | Answer::Quiet) =>
            {}
        Err(_) => counts.note_refused(Refused::NoMemory),
    }
}

/// The kind of packet that a call sends, if it sends one.
fn own_kind(call: &OwnCall) -> Option<Kind>
    ensures { result ≡ own_kind call.now }
{
    match call {
        OwnCall::Tick(_) => Some(Kind::Beacon),
        OwnCall::SendShb(_) => Some(Kind::Shb),
        OwnCall::SendGeobroadcast(_) => Some(Kind::Gbc),
        OwnCall::SendGeoanycast(_) => Some(Kind::Gac),
        OwnCall::MoveTo { .. } | OwnCall::Open(_) | OwnCall::Close(_) | OwnCall::Restart(_) => None,
    }
}
