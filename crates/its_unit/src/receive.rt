//! How a unit receives a frame.

ghost use Rattle.std.specs.Prelude.{◌≡◌, ◌≢◌, ◌≤◌, ◌^◌, ℕ, List, Some, Ok, Err, IfOk, OnErr, false};
ghost use Rattle.its_model.specs.Packet.{Transmission};
ghost use Rattle.its_model.specs.Calls.{Answer, Call};
ghost use Rattle.its_model.specs.Calls.Call.{Receive as IsReceived, Junk};
ghost use Rattle.its_model.specs.Station as stations;
ghost use Rattle.its_model.specs.Station.{StationModel, station_step, verdict};
ghost use Rattle.its_headers.specs.Encoding.{payload_of};
ghost use Rattle.its_linkframe.specs.Frames.{EncodesFrame, IsFrame};
ghost use Rattle.its_linkframe.specs.Secured.{Verified, EncodesVerified, IsVerified};
ghost use Rattle.its_station.specs.State.{RepresentsStation};
ghost use Rattle.its_station.specs.Receiving.{IsFrameCall, TakesMemory, Tells, DeliversEndOf};
ghost use Rattle.its_station.specs.Receiving.{IsPlaceOf, IsVerdictOf};
ghost use Rattle.its_station.specs.Receiving.{SendsAtMost, TellsBy, VerifiedCall};
ghost use Rattle.its_station.specs.Receiving.{IsVerifiedCall, sealed_by, verified_step};
ghost use Rattle.its_station.specs.Steps as station;
ghost use Rattle.its_station.specs.Receiving.VerifiedCall.{Faulty};
ghost use Rattle.its_governor.specs.Governing.{governed, after_call, is_repeated_in};
ghost use Rattle.its_unit.specs.Unit.{UnitModel, RepresentsUnit, unit_step};
ghost use Rattle.its_unit.specs.Unit.{unlimited_step, step_of_by};
ghost use Rattle.its_unit.specs.Waits.{AreSaid};
ghost use Rattle.its_unit.specs.Unit.UnitCall.{Receive, ReceiveVerified};
ghost use Rattle.its_unit.specs.Unit.{answer_by, asked, knows, looks_up, may_forward};
ghost use Rattle.its_unit.specs.Steps.{IsReactionOf, IsRefusedStep, TellsUnit, WherePassed, IsSameUnit};
ghost use Rattle.its_unit.specs.Steps.{AreKept, IsPassedBy, counted_received};

use crate::contending::{Left, contend};
use crate::limiting::Limiting;
use crate::outcome::{Reaction, UnitOutcome};
use crate::unit::Unit;
use its_gnvalue::GnAddress;
use its_governor::{Accepted, Governor, Receiver};
use its_linkframe::{FrameFault, SecuredFault, VerifiedFrame, read_frame};
use its_loctable::LocationStore;
use its_station::{LAST_MOMENT, LookedUp, Outcome, ReceivedFrame, Refused};

impl<S: LocationStore> Unit<S> {
    /// Receives a frame, as `Station::receive` does, within the limits. A frame that they withhold is
    /// not sent, and a packet that was delivered before is `Repeated`. If the unit contends, a frame
    /// that waits is not sent yet (`next_due`), and a duplicate may cancel one.
    ///
    /// Errors are those of `Station::receive`. After one only the counts have changed.
    pub fn receive<'a>(&mut self, now: u64, frame: &'a [u8]) -> Result<Reaction<'a>, Refused>
        ensures step { (call : Call) × IsFrameCall frame.now call
            × ((u : UnitModel) → RepresentsUnit self.old u →
            IsReactionOf Tells result self.new (unit_step u now (Receive call))) }
        ensures counts { self.new.counts ≡ counted_received result self.old.counts }
        ensures memory { (s : StationModel) (t : Transmission) →
            RepresentsStation self.old.station s → EncodesFrame t frame.now →
            result ≡ Err Refused.NoMemory →
            (verdict s now t ≡ stations.Verdict.Accept) × TakesMemory s now t }
        ensures junk { result ≡ Err Refused.NoMemory → IsFrame frame.now }
        ensures unchanged { OnErr result (IsSameUnit self.old self.new) }
        ensures payload { IfOk result (λ r. WherePassed (DeliversEndOf frame.now) r.outcome) }
        ensures short_frame { IfOk result (λ r. WherePassed (SendsAtMost 1468) r.outcome) }
    {
        match read_frame(frame) {
            Ok(view) => self.receive_frame(Limiting::Within, now, frame, &view),
            Err(fault) => Err(self.refuse_frame(now, fault)),
        }
    }

    /// Receives a secured frame, with the plain part that a security entity verified of its message,
    /// as `Station::receive_verified` does, within the limits.
    pub fn receive_verified<'a>(
        &mut self,
        now: u64,
        frame: &[u8],
        plain: &'a [u8],
    ) -> Result<Reaction<'a>, Refused>
        ensures step { (call : VerifiedCall) × IsVerifiedCall frame.now plain.now call
            × ((u : UnitModel) → RepresentsUnit self.old u →
            IsReactionOf (TellsBy (sealed_by call)) result self.new
            (unit_step u now (ReceiveVerified call))) }
        ensures counts { self.new.counts ≡ counted_received result self.old.counts }
        ensures memory { (s : StationModel) (v : Verified) →
            RepresentsStation self.old.station s → EncodesVerified v frame.now plain.now →
            result ≡ Err Refused.NoMemory →
            (verdict s now v.frame ≡ stations.Verdict.Accept) × TakesMemory s now v.frame }
        ensures junk { result ≡ Err Refused.NoMemory → IsVerified frame.now plain.now }
        ensures unchanged { OnErr result (IsSameUnit self.old self.new) }
        ensures payload { IfOk result (λ r. WherePassed (DeliversEndOf plain.now) r.outcome) }
        ensures short_frame { IfOk result (λ r. WherePassed (SendsAtMost 2310) r.outcome) }
    {
        match VerifiedFrame::read(frame, plain) {
            Ok(verified) => self.receive_frame(Limiting::Within, now, frame, &verified),
            Err(fault) => Err(self.refuse_secured(now, fault)),
        }
    }

    /// Receives a frame that was read from these octets: as `receive` does, or as `receive_verified`
    /// does if it is secured. Past the limits nothing is withheld, and nothing is noted in them. The
    /// frame may still wait, or cancel frames that wait.
    ///
    /// - `step`: `say` is how the octets of such frames are made of packets.
    #[inline(always)]
    pub fn receive_frame<'a, F: ReceivedFrame<'a>>(
        &mut self,
        limiting: Limiting,
        now: u64,
        octets: &[u8],
        frame: &F,
    ) -> Result<Reaction<'a>, Refused>
        ensures step { (say : Transmission → List ℕ) → AreSaid (F.Encodes frame.now) say →
            octets.now ≡ say (F.frame frame.now) → (u : UnitModel) → RepresentsUnit self.old u →
            IsReactionOf (TellsBy (F.Encodes frame.now)) result self.new
            (step_of_by limiting say u now (F.frame frame.now)) }
        ensures counts { self.new.counts ≡ counted_received result self.old.counts }
        ensures limits { AreKept limiting self.old.governor self.new.governor }
        ensures memory { (s : StationModel) → RepresentsStation self.old.station s →
            result ≡ Err Refused.NoMemory →
            (verdict s now (F.frame frame.now) ≡ stations.Verdict.Accept)
            × TakesMemory s now (F.frame frame.now) }
        ensures unchanged { OnErr result (IsSameUnit self.old self.new) }
        ensures payload { IfOk result (λ r.
            WherePassed (DeliversEndOf (payload_of (F.frame frame.now).pdu.body)) r.outcome) }
        ensures short_frame { IfOk result (λ r.
            WherePassed (SendsAtMost (F.most frame.now)) r.outcome) }
    {
        let said = match self.station.look_up(now, frame) {
            Ok(looked) => self.take(limiting, now, octets, frame, looked),
            Err(refused) => Err(refused),
        };
        self.note_received(&said);
        said
    }

    /// Receives a frame of which `Station::look_up` has found this, as `receive_frame` does, but
    /// counts nothing.
    #[inline(always)]
    fn take<'a, F: ReceivedFrame<'a>>(
        &mut self,
        limiting: Limiting,
        now: u64,
        octets: &[u8],
        frame: &F,
        looked: LookedUp,
    ) -> Result<Reaction<'a>, Refused>
        requires from { self.old.station.clock ≤ now }
        requires to { now ≤ 2 ^ 62 }
        requires found { (s : StationModel) → RepresentsStation self.old.station s →
            IsVerdictOf (Ok looked) (verdict s now (F.frame frame.now)) }
        requires place { IsPlaceOf looked self.old.station now (F.frame frame.now) }
        ensures step { (say : Transmission → List ℕ) → AreSaid (F.Encodes frame.now) say →
            octets.now ≡ say (F.frame frame.now) → (u : UnitModel) → RepresentsUnit self.old u →
            IsReactionOf (TellsBy (F.Encodes frame.now)) result self.new
            (step_of_by limiting say u now (F.frame frame.now)) }
        ensures counts { self.new.counts ≡ self.old.counts }
        ensures limits { AreKept limiting self.old.governor self.new.governor }
        ensures memory { (s : StationModel) → RepresentsStation self.old.station s →
            result ≡ Err Refused.NoMemory →
            (verdict s now (F.frame frame.now) ≡ stations.Verdict.Accept)
            × TakesMemory s now (F.frame frame.now) }
        ensures unchanged { OnErr result (IsSameUnit self.old self.new) }
        ensures payload { IfOk result (λ r.
            WherePassed (DeliversEndOf (payload_of (F.frame frame.now).pdu.body)) r.outcome) }
        ensures short_frame { IfOk result (λ r.
            WherePassed (SendsAtMost (F.most frame.now)) r.outcome) }
    {
        let receiver = self.receiver_of(limiting, now, frame, &looked);
        let outcome = self.station.take(now, frame, looked)?;
        let Left {
            outcome,
            due,
            cancelled,
        } = contend(
            &mut self.contention,
            limiting,
            &self.governor,
            &self.station,
            now,
            octets,
            receiver.knew_source,
            frame,
            outcome,
        );
        Ok(Reaction {
            outcome: pass(limiting, &mut self.governor, now, &receiver, frame, outcome),
            due,
            cancelled,
        })
    }

    /// Returns the station as the receiver of a frame that it has not received yet. Whether it knows
    /// the source is asked only for a packet that may be forwarded, if the unit contends, and within
    /// the limits under pressure.
    #[inline(always)]
    fn receiver_of<'a, F: ReceivedFrame<'a>>(
        &self,
        limiting: Limiting,
        now: u64,
        frame: &F,
        looked: &LookedUp,
    ) -> Receiver
        ensures { (u : UnitModel) → RepresentsUnit self.now u →
            result ≡ asked limiting u now (F.frame frame.now).pdu.vector.address
            (may_forward looked.now) }
    {
        let knew_source = may_forward(looked)
            && self.looks_up(limiting, now)
            && self.knows(now, frame.vector().address());
        Receiver {
            address: self.station.address(),
            knew_source,
        }
    }

    /// Returns whether it matters that a source is known: if the unit contends, and within the limits
    /// under pressure.
    #[inline(always)]
    fn looks_up(&self, limiting: Limiting, now: u64) -> bool
        ensures { (u : UnitModel) → RepresentsUnit self.now u →
            result ≡ looks_up limiting u now }
    {
        self.contention.is_some()
            || match limiting {
                Limiting::Within => self.governor.is_pressed(now),
                Limiting::Past => false,
            }
    }

    /// Returns whether the location table has a live entry of a source, at a time that the station
    /// accepts.
    pub(crate) fn knows(&self, now: u64, source: GnAddress) -> bool
        ensures { (s : StationModel) → RepresentsStation self.now.station s →
            result ≡ knows s now source }
    {
        self.station.clock() <= now
            && now <= LAST_MOMENT
            && self.station.table().lookup(now, source).is_some()
    }

    /// Counts octets with this fault, and returns why they are refused (`Station::refuse_frame`).
    pub fn refuse_frame(&mut self, now: u64, fault: FrameFault) -> Refused
        ensures step { (u : UnitModel) → RepresentsUnit self.old u →
            IsRefusedStep result self.new (unit_step u now (Receive (Junk fault))) }
        ensures unlimited { (u : UnitModel) → RepresentsUnit self.old u →
            IsRefusedStep result self.new (unlimited_step u now (Receive (Junk fault))) }
        ensures station { (s : StationModel) → RepresentsStation self.old.station s →
            station.IsRefusedStep result self.new.station (station_step s now (Junk fault)) }
        ensures counts { self.new.counts ≡ counted_received (Err result) self.old.counts }
        ensures unchanged { IsSameUnit self.old self.new }
        ensures memory { result ≢ Refused.NoMemory }
    {
        let refused = self.station.refuse_frame(now, fault);
        self.note_refused(refused);
        refused
    }

    /// Counts octets with this fault that came with a plain part, and returns why they are refused
    /// (`Station::refuse_secured`).
    pub fn refuse_secured(&mut self, now: u64, fault: SecuredFault) -> Refused
        ensures step { (u : UnitModel) → RepresentsUnit self.old u →
            IsRefusedStep result self.new (unit_step u now (ReceiveVerified (Faulty fault))) }
        ensures unlimited { (u : UnitModel) → RepresentsUnit self.old u →
            IsRefusedStep result self.new (unlimited_step u now (ReceiveVerified (Faulty fault))) }
        ensures station { (s : StationModel) → RepresentsStation self.old.station s →
            station.IsRefusedStep result self.new.station (verified_step s now (Faulty fault)) }
        ensures counts { self.new.counts ≡ counted_received (Err result) self.old.counts }
        ensures unchanged { IsSameUnit self.old self.new }
        ensures memory { result ≢ Refused.NoMemory }
    {
        let refused = self.station.refuse_secured(now, fault);
        self.note_refused(refused);
        refused
    }

    /// Counts a frame that is refused.
    fn note_refused(&mut self, refused: Refused)
        ensures { self.new ≡ record self.old {
          counts = counted_received (Err refused) self.old.counts;
        } }
    {
        self.counts.note_frame();
        self.counts.note_refused(refused);
    }

    /// Counts the outcome of a frame. A packet that was delivered before is counted as one that is
    /// accepted, and neither delivered nor forwarded.
    #[inline(always)]
    fn note_received(&mut self, said: &Result<Reaction<'_>, Refused>)
        ensures station { self.new.station ≡ self.old.station }
        ensures contention { self.new.contention ≡ self.old.contention }
        ensures governor { self.new.governor ≡ self.old.governor }
        ensures counts { self.new.counts ≡ counted_received said.now self.old.counts }
    {
        self.counts.note_frame();
        match said {
            Ok(reaction) => match &reaction.outcome {
                UnitOutcome::Passed(outcome) => self.counts.note_outcome(outcome),
                UnitOutcome::Repeated => self.counts.note_accepted(false, false),
            },
            Err(refused) => self.counts.note_refused(*refused),
        }
    }
}

/// Returns whether a packet may be forwarded: it is new, and has a sequence number.
fn may_forward(looked: &LookedUp) -> bool
    ensures { result ≡ may_forward looked.now }
{
    match looked {
        LookedUp::New { heard, .. } => heard.number().is_some(),
        LookedUp::Ignored(_) => false,
    }
}

/// Keeps what passes of the outcome of a frame: past the limits all of it.
#[inline(always)]
fn pass<'a, F: ReceivedFrame<'a>>(
    limiting: Limiting,
    governor: &mut Governor,
    now: u64,
    receiver: &Receiver,
    frame: &F,
    outcome: Outcome<'a>,
) -> UnitOutcome<'a>
    ensures passed { IsPassedBy limiting (F.Encodes frame.now) governor.old receiver.now now
        (F.frame frame.now) outcome.entry result governor.new }
    ensures limits { AreKept limiting governor.old governor.new }
    ensures payload { (w : List ℕ) → DeliversEndOf w outcome.entry →
        WherePassed (DeliversEndOf w) result }
    ensures short_frame { (most : ℕ) → SendsAtMost most outcome.entry →
        WherePassed (SendsAtMost most) result }
{
    match limiting {
        Limiting::Within => govern(governor, now, receiver, frame, outcome),
        Limiting::Past => UnitOutcome::Passed(outcome),
    }
}

/// Keeps what passes the limits of the outcome of a frame.
#[inline(always)]
fn govern<'a, F: ReceivedFrame<'a>>(
    governor: &mut Governor,
    now: u64,
    receiver: &Receiver,
    frame: &F,
    outcome: Outcome<'a>,
) -> UnitOutcome<'a>
    ensures told { (answer : Answer Transmission) →
        TellsBy (F.Encodes frame.now) outcome.entry answer →
        TellsUnit (TellsBy (F.Encodes frame.now)) result
        (answer_by (is_repeated_in governor.old now (Some (F.frame frame.now)) answer)
        (governed governor.old receiver.now now (Some (F.frame frame.now)) answer)) }
    ensures state { (answer : Answer Transmission) →
        TellsBy (F.Encodes frame.now) outcome.entry answer →
        governor.new
        ≡ after_call governor.old receiver.now now false (Some (F.frame frame.now)) answer }
    ensures payload { (w : List ℕ) → DeliversEndOf w outcome.entry →
        WherePassed (DeliversEndOf w) result }
    ensures short_frame { (most : ℕ) → SendsAtMost most outcome.entry →
        WherePassed (SendsAtMost most) result }
{
    match outcome {
        Outcome::Ignored(why) => UnitOutcome::Passed(Outcome::Ignored(why)),
        Outcome::Accepted { handed, sent } => {
            let accepted = Accepted {
                handed: handed.is_some(),
                sent: sent.is_some(),
            };
            let passed = governor.judge(now, receiver, frame, accepted);
            if passed.is_repeated {
                return UnitOutcome::Repeated;
            }
            UnitOutcome::Passed(Outcome::Accepted {
                handed: if passed.delivers { handed } else { None },
                sent: if passed.forwards { sent } else { None },
            })
        }
    }
}
