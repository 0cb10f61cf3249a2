//! How a station receives a frame (EN 302 636-4-1 clause 10, in this profile).

ghost use Rattle.std.specs.Prelude.{◌≡◌, ◌≢◌, ◌≤◌, ◌^◌, ◌∷◌, ℕ, List, None, [], ◌⊎◌, map};
ghost use Rattle.std.specs.Prelude.{Ok, Err, IfOk, IfSome, OnErr, OnOk, IsTrue, IsFalse, length};
ghost use Rattle.its_gnvalue.specs.Values.{Position};
ghost use Rattle.std.specs.Option.{option_map};
ghost use Rattle.its_model.specs.Packet.{Transmission};
ghost use Rattle.its_model.specs.Calls.{Call};
ghost use Rattle.its_model.specs.Calls.Call.{Receive, Junk};
ghost use Rattle.its_model.specs.History.{Reception, is_live};
ghost use Rattle.its_model.specs.Station as station;
ghost use Rattle.its_model.specs.Station.{StationModel, station_step, verdict};
ghost use Rattle.its_model.specs.Station.{moment_refusal};
ghost use Rattle.its_model.specs.Station.{handing, relayed};
ghost use Rattle.its_headers.specs.Encoding.{payload_of};
ghost use Rattle.its_linkframe.specs.Frames.{EncodesFrame, IsFrame};
ghost use Rattle.its_linkframe.specs.Secured.{Verified, EncodesVerified, IsVerified};
ghost use Rattle.its_loctable.specs.Content.{Represents};
ghost use Rattle.its_loctable.specs.Found.{Admits, IsIndexOf};
ghost use Rattle.its_loctable.specs.Heard.{reception};
ghost use Rattle.its_station.specs.State.{model_of, IsPast, RepresentsStation, SamePorts};
ghost use Rattle.its_station.specs.Steps.{IsStepOf, IsRefusedStep};
ghost use Rattle.its_station.specs.Receiving.{IsFrameCall, Tells, TellsBy, said_by};
ghost use Rattle.its_station.specs.Receiving.{IsRelayBy, TakesMemory, copy_of, goes_on, is_inside, report_of};
ghost use Rattle.its_station.specs.Receiving.{accept_step, DeliversEndOf, HandsOutEndOf};
ghost use Rattle.its_station.specs.Receiving.{IsPlaceOf, IsVerdictOf};
ghost use Rattle.its_station.specs.Receiving.{SendsAtMost, VerifiedCall, IsVerifiedCall};
ghost use Rattle.its_station.specs.Receiving.{EncodesSealed, verified_step, sealed_by, secured_step_by};
ghost use Rattle.its_station.specs.Answers.{Fits, HandingFits};

use crate::looked_up::LookedUp;
use crate::outcome::{Handed, Outcome};
use crate::received::ReceivedFrame;
use crate::refused::Refused;
use crate::station::Station;
use its_btp::split;
use its_forwarding::{Choice, choose_outside};
use its_geometry::contains;
use its_gnvalue::{GnAddress, NoMemory};
use its_headers::Kind;
use its_linkframe::{FrameFault, SecuredFault, VerifiedFrame, read_frame};
use its_loctable::{EntryIndex, Heard, LocationStore};

impl<S: LocationStore> Station<S> {
    /// Receives a frame. It is ignored for the first reason of `Why` that holds: then only the clock
    /// is set. Otherwise its packet is accepted. The payload is delivered if its port is open and, for
    /// an area, if the station is inside. A packet for an area may be forwarded.
    ///
    /// Errors: `MomentEarlier` (S1) and `MomentTooLate` (S2) for the time, `Frame` (S3) if the octets
    /// are not a valid frame, `TableFull` (S4) if the location table has no room for the packet's
    /// source, and `NoMemory` (S5).
    ///
    /// - `step`: the answer and the station afterwards are those of the model's step, if the octets
    ///   are a frame; otherwise the step refuses them by their first fault.
    /// - `unchanged`, `memory`, `junk`: a refusal changes nothing; one for memory comes only if the
    ///   frame is accepted, and its source isn't live or the packet is forwarded.
    /// - `payload`, `short`, `short_frame`: what is delivered is the end of the octets that came,
    ///   at most 1394 of them; a forwarded frame has at most 1468.
    pub fn receive<'a>(&mut self, now: u64, frame: &'a [u8]) -> Result<Outcome<'a>, Refused>
        ensures step { (call : Call) × IsFrameCall frame.now call
            × ((s : StationModel) → RepresentsStation self.old s →
            IsStepOf Tells result self.new (station_step s now call)) }
        ensures memory { (s : StationModel) (t : Transmission) → RepresentsStation self.old s →
            EncodesFrame t frame.now → result ≡ Err Refused.NoMemory →
            (verdict s now t ≡ station.Verdict.Accept) × TakesMemory s now t }
        ensures junk { result ≡ Err Refused.NoMemory → IsFrame frame.now }
        ensures unchanged { OnErr result (self.new ≡ self.old) }
        ensures payload { IfOk result (DeliversEndOf frame.now) }
        ensures short { IfOk result (Fits 1394) }
        ensures short_frame { IfOk result (SendsAtMost 1468) }
    {
        match read_frame(frame) {
            Ok(view) => self.receive_frame(now, &view),
            Err(fault) => Err(self.refuse_frame(now, fault)),
        }
    }

    /// Returns why octets with this fault are refused: for the time (S1, S2), otherwise for the fault
    /// (S3). Nothing changes.
    pub fn refuse_frame(&self, now: u64, fault: FrameFault) -> Refused
        ensures step { (s : StationModel) → RepresentsStation self.now s →
            IsRefusedStep result self.now (station_step s now (Junk fault)) }
        ensures memory { result ≢ Refused.NoMemory }
    {
        match self.check_moment(now) {
            Ok(()) => Refused::Frame(fault),
            Err(refused) => refused,
        }
    }

    /// Receives a frame that was read, as `receive` does with its octets: one whose fields are read
    /// when they are needed (`FrameView`), one that was read once for many receivers (`KnownFrame`),
    /// or a secured one with its plain part (`VerifiedFrame`). Errors are those of `receive` without
    /// `Frame`. A secured packet is forwarded in the frame that came, with other link addresses and
    /// one hop fewer left.
    #[inline(always)]
    pub fn receive_frame<'a, F: ReceivedFrame<'a>>(
        &mut self,
        now: u64,
        frame: &F,
    ) -> Result<Outcome<'a>, Refused>
        ensures step { (s : StationModel) → RepresentsStation self.old s →
            IsStepOf (TellsBy (F.Encodes frame.now)) result self.new
            (station_step s now (Receive (F.frame frame.now))) }
        ensures memory { (s : StationModel) → RepresentsStation self.old s →
            result ≡ Err Refused.NoMemory →
            (verdict s now (F.frame frame.now) ≡ station.Verdict.Accept)
            × TakesMemory s now (F.frame frame.now) }
        ensures unchanged { OnErr result (self.new ≡ self.old) }
        ensures payload { IfOk result (DeliversEndOf (payload_of (F.frame frame.now).pdu.body)) }
        ensures short { IfOk result (Fits 1394) }
        ensures short_frame { IfOk result (SendsAtMost (F.most frame.now)) }
    {
        let looked = self.look_up(now, frame)?;
        self.take(now, frame, looked)
    }

    /// Returns the addresses in the location table, in ascending order, if the table keeps them in one
    /// slice. The source of the next frame can be looked up there beforehand (`narrow`).
    pub fn column(&self) -> &[GnAddress]
        ensures { (result.now ≡ []) ⊎ (result.now
            ≡ map (λ entry. entry.address) self.now.content) }
    {
        self.store.column()
    }

    /// Says which entry of the location table the next reception will ask for, by its index in the
    /// `column`. The table may look there first. Nothing else changes, and every index is allowed.
    pub fn expect(&mut self, now: u64, index: usize)
        ensures { self.new ≡ self.old }
    {
        if self.clock <= now {
            self.store.expect(now, index);
        }
    }

    /// Receives a secured frame, with the plain part that a security entity verified of its message.
    /// It is received as `receive` does with the packet that its Basic Header and the plain part make.
    /// What is forwarded is the secured frame, with other link addresses and one hop fewer left. What
    /// is delivered is the end of the plain part.
    ///
    /// Errors are those of `receive`. In place of `Frame` it is `Secured` (S3), if the octets are not a
    /// secured frame or if they are not a packet with the plain part.
    ///
    /// Nothing here ties the plain part to the message. A caller that passes another plain part
    /// forwards a message that wasn't verified. Link addresses, lifetime and hops are not signed.
    pub fn receive_verified<'a>(
        &mut self,
        now: u64,
        frame: &[u8],
        plain: &'a [u8],
    ) -> Result<Outcome<'a>, Refused>
        ensures step { (call : VerifiedCall) × IsVerifiedCall frame.now plain.now call
            × ((s : StationModel) → RepresentsStation self.old s →
            IsStepOf (TellsBy (sealed_by call)) result self.new (verified_step s now call)) }
        ensures memory { (s : StationModel) (v : Verified) → RepresentsStation self.old s →
            EncodesVerified v frame.now plain.now → result ≡ Err Refused.NoMemory →
            (verdict s now v.frame ≡ station.Verdict.Accept) × TakesMemory s now v.frame }
        ensures junk { result ≡ Err Refused.NoMemory → IsVerified frame.now plain.now }
        ensures unchanged { OnErr result (self.new ≡ self.old) }
        ensures payload { IfOk result (DeliversEndOf plain.now) }
        ensures short { IfOk result (Fits 1394) }
        ensures short_frame { IfOk result (SendsAtMost 2310) }
    {
        match VerifiedFrame::read(frame, plain) {
            Ok(verified) => self.receive_frame(now, &verified),
            Err(fault) => Err(self.refuse_secured(now, fault)),
        }
    }

    /// Returns why octets with this fault are refused that came with a plain part: for the time (S1,
    /// S2), otherwise for the fault (S3). Nothing changes.
    pub fn refuse_secured(&self, now: u64, fault: SecuredFault) -> Refused
        ensures step { (s : StationModel) → RepresentsStation self.now s →
            IsRefusedStep result self.now (secured_step_by s fault (moment_refusal s now)) }
        ensures memory { result ≢ Refused.NoMemory }
    {
        match self.check_moment(now) {
            Ok(()) => Refused::Secured(fault),
            Err(refused) => refused,
        }
    }

    /// Receives a frame of which `look_up` has found this at the same time, as `receive_frame` does.
    /// The station must not have changed since. The source is not looked up again. `NoMemory` is the
    /// one failure.
    #[inline(always)]
    pub fn take<'a, F: ReceivedFrame<'a>>(
        &mut self,
        now: u64,
        frame: &F,
        looked: LookedUp,
    ) -> Result<Outcome<'a>, Refused>
        requires from { self.old.clock ≤ now }
        requires to { now ≤ 2 ^ 62 }
        requires found { (s : StationModel) → RepresentsStation self.old s →
            IsVerdictOf (Ok looked) (verdict s now (F.frame frame.now)) }
        requires place { IsPlaceOf looked self.old now (F.frame frame.now) }
        ensures step { (s : StationModel) → RepresentsStation self.old s →
            IsStepOf (TellsBy (F.Encodes frame.now)) result self.new
            (station_step s now (Receive (F.frame frame.now))) }
        ensures memory { (s : StationModel) → RepresentsStation self.old s →
            result ≡ Err Refused.NoMemory →
            (verdict s now (F.frame frame.now) ≡ station.Verdict.Accept)
            × TakesMemory s now (F.frame frame.now) }
        ensures unchanged { OnErr result (self.new ≡ self.old) }
        ensures payload { IfOk result (DeliversEndOf (payload_of (F.frame frame.now).pdu.body)) }
        ensures short { IfOk result (Fits 1394) }
        ensures short_frame { IfOk result (SendsAtMost (F.most frame.now)) }
    {
        match looked {
            LookedUp::Ignored(why) => {
                self.set_clock(now);
                Ok(Outcome::Ignored(why))
            }
            LookedUp::New { heard, index } => self.accept(now, frame, &heard, index),
        }
    }

    /// Accepts a packet that is not a duplicate. There has to be room for its source.
    #[inline(always)]
    fn accept<'a, F: ReceivedFrame<'a>>(
        &mut self,
        now: u64,
        frame: &F,
        heard: &Heard,
        index: EntryIndex,
    ) -> Result<Outcome<'a>, Refused>
        requires from { self.old.clock ≤ now }
        requires to { now ≤ 2 ^ 62 }
        requires heard { heard.now ≡ report_of (F.frame frame.now).pdu }
        requires new { Admits self.old.remember self.old.capacity self.old.content now heard.now }
        requires index { IsIndexOf self.old.content heard.now.vector.address index }
        ensures step { (ports : List ℕ) (history : List Reception) → IsPast self.old ports history →
            IsStepOf (TellsBy (F.Encodes frame.now)) result self.new
            (accept_step (model_of self.old ports history) now (F.frame frame.now)) }
        ensures memory { (ports : List ℕ) (history : List Reception) →
            Represents self.old.remember self.old.content history now →
            result ≡ Err Refused.NoMemory →
            TakesMemory (model_of self.old ports history) now (F.frame frame.now) }
        ensures unchanged { OnErr result (self.new ≡ self.old) }
        ensures payload { IfOk result (DeliversEndOf (payload_of (F.frame frame.now).pdu.body)) }
        ensures short { IfOk result (Fits 1394) }
        ensures short_frame { IfOk result (SendsAtMost (F.most frame.now)) }
    {
        let inside = self.is_inside(frame);
        let copy = self.copy_for_relay(frame, inside)?;
        let handed = self.handing(frame, inside);
        self.take_in(now, heard, index)?;
        let sent = self.direct(now, frame, copy, inside);
        Ok(Outcome::Accepted { handed, sent })
    }

    /// Puts a packet into the table, at the index that `find` returned.
    #[inline(always)]
    fn take_in(&mut self, now: u64, heard: &Heard, index: EntryIndex) -> Result<(), NoMemory>
        requires from { self.old.clock ≤ now }
        requires to { now ≤ 2 ^ 62 }
        requires new { Admits self.old.remember self.old.capacity self.old.content now heard.now }
        requires index { IsIndexOf self.old.content heard.now.vector.address index }
        ensures table { (history : List Reception) →
            Represents self.old.remember self.old.content history now →
            OnOk result (Represents self.new.remember self.new.content
            (reception now heard.now ∷ history) now) }
        ensures fields { OnOk result (self.new
            ≡ record self.old { clock = now; content = self.new.content }) }
        ensures unchanged { OnErr result (self.new ≡ self.old) }
        ensures memory { (history : List Reception) →
            Represents self.old.remember self.old.content history now →
            OnErr result (IsFalse (is_live heard.now.vector.address now history)) }
    {
        self.store.accept_at(now, heard, index)?;
        self.clock = now;
        Ok(())
    }

    /// Returns what is delivered of a packet, inside or outside of its area.
    #[inline(always)]
    fn handing<'a, F: ReceivedFrame<'a>>(&self, frame: &F, inside: bool) -> Option<Handed<'a>>
        requires { inside ≡ is_inside self.now.vector.place (F.frame frame.now).pdu.body }
        ensures payload { HandsOutEndOf (payload_of (F.frame frame.now).pdu.body) result }
        ensures short { HandingFits 1394 result }
        ensures message { (ports : List ℕ) (history : List Reception) →
            SamePorts self.now.ports ports → option_map said_by result
            ≡ handing (model_of self.now ports history) (F.frame frame.now).pdu.body }
    {
        let Ok((port, info, payload)) = split(frame.payload()) else {
            return None;
        };
        if inside && self.ports.is_open(port) {
            Some(Handed {
                port,
                info,
                payload,
            })
        } else {
            None
        }
    }

    /// Returns whether the station is inside of the packet's area, if that has one.
    #[inline(always)]
    fn is_inside<'a, F: ReceivedFrame<'a>>(&self, frame: &F) -> bool
        ensures { result ≡ is_inside self.now.vector.place (F.frame frame.now).pdu.body }
    {
        match frame.area() {
            Some(area) => contains(&area, self.vector.place()),
            None => true,
        }
    }

    /// Returns the frame that would forward a packet to all: the only allocation of a relay.
    #[inline(always)]
    fn copy_for_relay<'a, F: ReceivedFrame<'a>>(
        &self,
        frame: &F,
        inside: bool,
    ) -> Result<Option<Vec<u8>>, NoMemory>
        requires { inside ≡ is_inside self.now.vector.place (F.frame frame.now).pdu.body }
        ensures memory { OnErr result (IsTrue (goes_on self.now.vector.place (F.frame frame.now).hops_left
            (F.frame frame.now).pdu.body)) }
        ensures copy { IfOk result (λ copy. IsRelayBy (F.Encodes frame.now) copy
            (copy_of self.now.vector (F.frame frame.now) (F.frame frame.now).pdu.body)) }
        ensures short { IfOk result (λ copy. IfSome copy
            (λ w. length w.items ≤ F.most frame.now)) }
    {
        if !goes_on(frame, inside) {
            return Ok(None);
        }
        let relayed = frame.relay(self.alloc, self.mac())?;
        Ok(Some(relayed))
    }

    /// Sets the target of the frame to forward. Inside of the area it is sent to all (simple
    /// forwarding). Outside there may be no next hop.
    #[inline(always)]
    fn direct<'a, F: ReceivedFrame<'a>>(
        &mut self,
        now: u64,
        frame: &F,
        copy: Option<Vec<u8>>,
        inside: bool,
    ) -> Option<Vec<u8>>
        requires time { now ≤ 2 ^ 62 }
        requires inside { inside ≡ is_inside self.old.vector.place (F.frame frame.now).pdu.body }
        requires copy { IsRelayBy (F.Encodes frame.now) copy
            (copy_of self.old.vector (F.frame frame.now) (F.frame frame.now).pdu.body) }
        requires short { IfSome copy (λ w. length w.items ≤ F.most frame.now) }
        ensures short_frame { IfSome result (λ relayed. length relayed.items ≤ F.most frame.now) }
        ensures relay { (ports : List ℕ) (history : List Reception) →
            Represents self.old.remember self.old.content history now →
            IsRelayBy (F.Encodes frame.now) result (relayed (model_of self.old ports history) now
            (F.frame frame.now) (F.frame frame.now).pdu.body) }
        ensures unchanged { self.new ≡ self.old }
    {
        let Some(octets) = copy else {
            return None;
        };
        if inside {
            return Some(octets);
        }
        let Some(area) = frame.area() else {
            unreachable!()
        };
        match choose_outside(
            &mut self.store,
            now,
            self.vector.place(),
            &area,
            Some(frame.sender()),
        ) {
            Choice::Broadcast => Some(octets),
            Choice::To(mac) => Some(frame.redirect(octets, mac)),
            Choice::Drop => None,
        }
    }
}

/// Returns whether a packet is forwarded: a GBC that has another hop left, and outside of its area
/// a GAC.
#[inline(always)]
fn goes_on<'a, F: ReceivedFrame<'a>>(frame: &F, inside: bool) -> bool
    ensures { (place : Position) → inside ≡ is_inside place (F.frame frame.now).pdu.body →
        result ≡ goes_on place (F.frame frame.now).hops_left (F.frame frame.now).pdu.body }
{
    let has_hops = frame.hops_left() >= 2;
    match frame.kind() {
        Kind::Beacon | Kind::Shb => false,
        Kind::Gbc => has_hops,
        Kind::Gac => has_hops && !inside,
    }
}
