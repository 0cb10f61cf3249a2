//! Calls of a unit, within its limits or past them.

ghost use Rattle.std.specs.Prelude.{◌≡◌, [], Some, None, Ok, Err, IfOk, OnErr, IsOk, IsSome, MatchResult};
ghost use Rattle.std.specs.Prelude.{false};
ghost use Rattle.std.specs.Prelude.{vec_len, vec_capacity};
ghost use Rattle.its_headers.specs.declared.kind.Kind.{Kind};
ghost use Rattle.its_headers.specs.declared.kind.Kind.TheVariants as kinds;
ghost use Rattle.its_linkframe.specs.Frames.{EncodesFrame};
ghost use Rattle.its_model.specs.Packet.{Transmission};
ghost use Rattle.its_model.specs.Calls.{Answer as ModelAnswer, Call as ModelCall};
ghost use Rattle.its_station.specs.Answers.{Fits, TellsAnswer};
ghost use Rattle.its_station.specs.Counting.{counted_answer, counted_done, counted_tick, own_kind};
ghost use Rattle.its_station.specs.Receiving.{DeliversEndOf, IsFrameCall, IsVerifiedCall};
ghost use Rattle.its_station.specs.Receiving.{TellsBy, VerifiedCall, sealed_by};
ghost use Rattle.its_station.specs.Requests.{TellsTick, owned_shb};
ghost use Rattle.its_station.specs.Runs.{IsOwnInRange, own_of};
ghost use Rattle.its_station.specs.Steps.{Says, refusal_of};
ghost use Rattle.its_station.specs.declared.counts.Counts.{Counts};
ghost use Rattle.its_unit.specs.Steps.{AreKept, IsReactionOf, IsSameUnit, IsSendOf, IsStepOf};
ghost use Rattle.its_unit.specs.Steps.{SaysPassed};
ghost use Rattle.its_unit.specs.Steps.{WherePassed, counted_received, counted_request, counted_unit};
ghost use Rattle.its_unit.specs.Unit.{RepresentsUnit, UnitModel, UnitState, UnitStep, step_by};
ghost use Rattle.its_unit.specs.Unit.{unit_step};
ghost use Rattle.its_unit.specs.Unit.UnitCall.{Own, Receive, ReceiveVerified, SendShbFor};
ghost use Rattle.its_lines.specs.Within.{IsMadeBy, IsMadeOf, IsMadeOfFrame, IsMadeOfOutcome};
ghost use Rattle.its_lines.specs.Within.{accepted_packet, counted_frame, counted_made, options_of};
ghost use Rattle.its_lines.specs.Within.{response_of, response_of_release};

use crate::request::{Id, ShbWithMedia, VerifiedOctets};
use crate::response::{AcceptedPacket, Response};
use its_gnvalue::NoMemory;
use its_headers::{Head, PacketView};
use its_linkframe::{VerifiedFrame, read_frame};
use its_loctable::SortedTable;
use its_station::{Answer, AreaCast, OwnCall, Refused, ShbOptions, StationAnswer};
use its_unit::{Limiting, Reaction, Unit, UnitOutcome, Unsent};
use std::alloc::Global;

/// The answer of a unit to a call, with octets of its own.
#[derive(Debug, Drop)]
pub(crate) enum Made {
    /// What the limits let pass of the station's answer.
    Passed(StationAnswer),
    /// The packet was delivered before.
    Repeated,
    /// Own packets are over their rate.
    OverRate,
}

/// The answer to a frame that was received, and its reaction.
#[derive(Debug, Drop)]
pub(crate) struct MadeOfFrame {
    /// The answer.
    pub(crate) made: Made,
    /// What is said of the packet, if it was accepted.
    pub(crate) packet: Option<AcceptedPacket>,
    /// When the frame is due in which the packet goes on, if it waits.
    pub(crate) due: Option<u64>,
    /// Whether the frame cancelled one that waited.
    pub(crate) cancelled: bool,
}

impl AcceptedPacket {
    /// What the answer to a frame says of its packet.
    fn of<H: Head>(packet: &PacketView<'_, H>) -> AcceptedPacket
        ensures { result ≡ accepted_packet packet.now }
    {
        AcceptedPacket {
            source: packet.vector().address(),
            media: packet.media().unwrap_or([0; 4]),
        }
    }
}

impl Response {
    /// Returns the answer to a line that asked for a call of the applications.
    pub(crate) fn of_made(id: Option<Id>, at: u64, made: Made) -> Response
        ensures { result ≡ response_of id at None None false made }
    {
        let frame = MadeOfFrame {
            made,
            packet: None,
            due: None,
            cancelled: false,
        };
        Response::of_frame(id, at, frame)
    }

    /// Returns the answer to a line that asked for a frame to be received.
    pub(crate) fn of_frame(id: Option<Id>, at: u64, frame: MadeOfFrame) -> Response
        ensures { result
            ≡ response_of id at frame.packet frame.due frame.cancelled frame.made }
    {
        let MadeOfFrame {
            made,
            packet,
            due,
            cancelled,
        } = frame;
        match made {
            Made::Passed(reply) => Response::Reply {
                id,
                at,
                packet,
                due,
                cancelled,
                reply,
            },
            Made::Repeated => Response::Repeated { id, at },
            Made::OverRate => Response::OverRate { id, at },
        }
    }

    /// Returns the answer to a line that asked for a release.
    pub(crate) fn of_release(
        id: Option<Id>,
        at: u64,
        said: Result<Option<Vec<u8>>, Refused>,
    ) -> Response
        ensures { result ≡ response_of_release id at said }
    {
        let reply = match said {
            Ok(Some(frame)) => return Response::Released { id, at, frame },
            Ok(None) => Answer::Quiet,
            Err(refused) => Answer::Refused(refused),
        };
        Response::of_made(id, at, Made::Passed(reply))
    }
}

/// Makes a call of the applications at a time, within the limits or past them, and counts it.
/// `NoMemory` if an allocation failed: nothing changed then but the counts.
pub(crate) fn make_own(
    unit: &mut Unit<SortedTable>,
    limiting: Limiting,
    at: u64,
    call: &OwnCall,
) -> Result<Made, NoMemory>
    requires { IsOwnInRange call.now }
    ensures step { (u : UnitModel) → RepresentsUnit unit.old u → IfOk result (λ made.
        IsMadeBy TellsAnswer made unit.new (step_by limiting u at (Own (own_of call.now)))) }
    ensures counts { IfOk result (λ made.
        unit.new.counts ≡ counted_made (own_kind call.now) made unit.old.counts) }
    ensures limits { AreKept limiting unit.old.governor unit.new.governor }
    ensures unchanged { OnErr result (IsSameUnit unit.old unit.new) }
{
    match limiting {
        Limiting::Within => make_limited(unit, at, call),
        Limiting::Past => Ok(Made::Passed(unit.answer_unlimited(at, call)?)),
    }
}

/// Sends a single-hop broadcast with media-dependent data of its own, as `make_own` makes a call.
pub(crate) fn make_shb(
    unit: &mut Unit<SortedTable>,
    limiting: Limiting,
    at: u64,
    shb: &ShbWithMedia,
) -> Result<Made, NoMemory>
    ensures step { (u : UnitModel) → RepresentsUnit unit.old u → IfOk result (λ made.
        IsMadeBy TellsAnswer made unit.new (step_by limiting u at
        (SendShbFor (options_of shb.now.media) (owned_shb shb.now.request)))) }
    ensures counts { IfOk result (λ made.
        unit.new.counts ≡ counted_made (Some kinds.Shb) made unit.old.counts) }
    ensures limits { AreKept limiting unit.old.governor unit.new.governor }
    ensures unchanged { OnErr result (IsSameUnit unit.old unit.new) }
{
    let options = ShbOptions {
        media: shb.media,
        ..ShbOptions::default()
    };
    made_of_send(unit.send_shb_by(limiting, at, &shb.request.lend(), options))
}

/// Makes a call of the applications at a time, within the limits.
fn make_limited(unit: &mut Unit<SortedTable>, at: u64, call: &OwnCall) -> Result<Made, NoMemory>
    requires { IsOwnInRange call.now }
    ensures step { (u : UnitModel) → RepresentsUnit unit.old u → IfOk result (λ made.
        IsMadeBy TellsAnswer made unit.new (unit_step u at (Own (own_of call.now)))) }
    ensures counts { IfOk result (λ made.
        unit.new.counts ≡ counted_made (own_kind call.now) made unit.old.counts) }
    ensures unchanged { OnErr result (IsSameUnit unit.old unit.new) }
{
    match call {
        OwnCall::MoveTo {
            place,
            pai,
            speed,
            heading,
        } => made_of_done(
            unit.move_to(at, *place, *pai, *speed, *heading),
            Answer::Moved,
        ),
        OwnCall::Open(port) => made_of_done(unit.open(at, *port), Answer::Opened),
        OwnCall::Close(port) => made_of_done(unit.close(at, *port), Answer::Closed),
        OwnCall::Restart(number) => made_of_done(unit.restart(at, *number), Answer::Restarted),
        OwnCall::Tick(jitter) => made_of_tick(unit.tick(at, *jitter)),
        OwnCall::SendShb(r) => made_of_send(unit.send_shb(at, &r.lend())),
        OwnCall::SendGeobroadcast(r) => {
            made_of_send(unit.send_to_area(at, AreaCast::Geobroadcast, &r.lend()))
        }
        OwnCall::SendGeoanycast(r) => {
            made_of_send(unit.send_to_area(at, AreaCast::Geoanycast, &r.lend()))
        }
    }
}

/// Returns the answer to `move_to`, `open`, `close` or `restart`: `done` if the call succeeded.
fn made_of_done(outcome: Result<(), Refused>, done: StationAnswer) -> Result<Made, NoMemory>
    ensures step { (this : ModelAnswer Transmission) (new : UnitState) (step : UnitStep) →
        TellsAnswer done this → IsStepOf (SaysPassed (Says this)) outcome new step →
        IfOk result (λ made. IsMadeBy TellsAnswer made new step) }
    ensures counts { (c : Counts) → counted_answer None (Ok done) c ≡ c →
        IfOk result (λ made. counted_done outcome c ≡ counted_made None made c) }
    ensures memory { OnErr result (outcome ≡ Err Refused.NoMemory) }
{
    match outcome {
        Ok(()) => Ok(Made::Passed(done)),
        Err(refused) => refusal(refused),
    }
}

/// Returns the answer to `tick`.
fn made_of_tick(outcome: Result<Option<Vec<u8>>, Refused>) -> Result<Made, NoMemory>
    ensures step { (new : UnitState) (step : UnitStep) →
        IsStepOf (SaysPassed TellsTick) outcome new step →
        IfOk result (λ made. IsMadeBy TellsAnswer made new step) }
    ensures counts { (c : Counts) → IfOk result (λ made.
        counted_tick outcome c ≡ counted_made (Some kinds.Beacon) made c) }
    ensures memory { OnErr result (outcome ≡ Err Refused.NoMemory) }
{
    match outcome {
        Ok(Some(frame)) => Ok(Made::Passed(Answer::Sent(frame))),
        Ok(None) => Ok(Made::Passed(Answer::Quiet)),
        Err(refused) => refusal(refused),
    }
}

/// Returns the answer to a call that sends.
fn made_of_send(outcome: Result<Vec<u8>, Unsent>) -> Result<Made, NoMemory>
    ensures step { (new : UnitState) (step : UnitStep) → IsSendOf outcome new step →
        IfOk result (λ made. IsMadeBy TellsAnswer made new step) }
    ensures counts { (kind : Kind) (c : Counts) → IfOk result (λ made.
        counted_request kind outcome c ≡ counted_made (Some kind) made c) }
    ensures memory { OnErr result (outcome ≡ Err (Unsent.Refused Refused.NoMemory)) }
{
    match outcome {
        Ok(frame) => Ok(Made::Passed(Answer::Sent(frame))),
        Err(Unsent::Refused(refused)) => refusal(refused),
        Err(Unsent::OverRate) => Ok(Made::OverRate),
    }
}

/// Returns a refusal as an answer. `NoMemory` if an allocation failed.
fn refusal(refused: Refused) -> Result<Made, NoMemory>
    ensures { MatchResult result
        (λ made. (made ≡ Made.Passed (Answer.Refused refused)) × IsSome (refusal_of refused))
        (λ _. refused ≡ Refused.NoMemory) }
{
    Ok(Made::Passed(Answer::Refused(refused.except_memory()?)))
}

/// Receives a frame at a time, within the limits or past them, and counts it. `NoMemory` if an
/// allocation failed: nothing changed then but the counts.
pub(crate) fn make_receive(
    alloc: Global,
    unit: &mut Unit<SortedTable>,
    limiting: Limiting,
    at: u64,
    frame: &[u8],
) -> Result<MadeOfFrame, NoMemory>
    ensures step { IfOk result (λ made. (call : ModelCall) × IsFrameCall frame.now call
        × ((u : UnitModel) → RepresentsUnit unit.old u →
        IsMadeOfFrame EncodesFrame made unit.new (step_by limiting u at (Receive call)))) }
    ensures counts { IfOk result (λ made.
        unit.new.counts ≡ counted_frame made.made unit.old.counts) }
    ensures limits { AreKept limiting unit.old.governor unit.new.governor }
    ensures unchanged { OnErr result (IsSameUnit unit.old unit.new) }
{
    // What is delivered is a part of the frame, so its room is there before the call.
    let mut room = Vec::new(alloc);
    if room.reserve(frame.len()).is_err() {
        unit.note_no_memory();
        return Err(NoMemory);
    }
    let (said, packet) = receive_plain(unit, limiting, at, frame);
    made_of_received(alloc, said, packet, &mut room)
}

/// Receives a secured frame with its plain part at a time, as `make_receive` does with a frame.
pub(crate) fn make_receive_verified(
    alloc: Global,
    unit: &mut Unit<SortedTable>,
    limiting: Limiting,
    at: u64,
    octets: &VerifiedOctets,
) -> Result<MadeOfFrame, NoMemory>
    ensures step { IfOk result (λ made. (call : VerifiedCall)
        × IsVerifiedCall octets.now.frame.items octets.now.plain.items call
        × ((u : UnitModel) → RepresentsUnit unit.old u →
        IsMadeOfFrame (sealed_by call) made unit.new
        (step_by limiting u at (ReceiveVerified call)))) }
    ensures counts { IfOk result (λ made.
        unit.new.counts ≡ counted_frame made.made unit.old.counts) }
    ensures limits { AreKept limiting unit.old.governor unit.new.governor }
    ensures unchanged { OnErr result (IsSameUnit unit.old unit.new) }
{
    let (frame, plain) = (octets.frame.as_slice(), octets.plain.as_slice());
    // What is delivered is a part of the plain part, so its room is there before the call.
    let mut room = Vec::new(alloc);
    if room.reserve(plain.len()).is_err() {
        unit.note_no_memory();
        return Err(NoMemory);
    }
    let (said, packet) = receive_verified(unit, limiting, at, frame, plain);
    made_of_received(alloc, said, packet, &mut room)
}

/// Receives a frame as `Unit::receive` does, within the limits or past them. Also returns what an
/// answer says of the packet, if the octets are a frame.
fn receive_plain<'a>(
    unit: &mut Unit<SortedTable>,
    limiting: Limiting,
    at: u64,
    frame: &'a [u8],
) -> (Result<Reaction<'a>, Refused>, Option<AcceptedPacket>)
    ensures step { (call : ModelCall) × IsFrameCall frame.now call
        × ((u : UnitModel) → RepresentsUnit unit.old u →
        IsReactionOf (TellsBy EncodesFrame) result.0 unit.new
        (step_by limiting u at (Receive call))) }
    ensures counts { unit.new.counts ≡ counted_received result.0 unit.old.counts }
    ensures limits { AreKept limiting unit.old.governor unit.new.governor }
    ensures unchanged { OnErr result.0 (IsSameUnit unit.old unit.new) }
    ensures payload { IfOk result.0 (λ r. WherePassed (DeliversEndOf frame.now) r.outcome) }
{
    match read_frame(frame) {
        Ok(view) => {
            let packet = AcceptedPacket::of(&view.packet);
            let said = unit.receive_frame(limiting, at, frame, &view);
            (said, Some(packet))
        }
        Err(fault) => (Err(unit.refuse_frame(at, fault)), None),
    }
}

/// Receives a secured frame with its plain part as `Unit::receive_verified` does, within the limits or
/// past them. Also returns what an answer says of the packet, if the octets are one.
fn receive_verified<'a>(
    unit: &mut Unit<SortedTable>,
    limiting: Limiting,
    at: u64,
    frame: &[u8],
    plain: &'a [u8],
) -> (Result<Reaction<'a>, Refused>, Option<AcceptedPacket>)
    ensures step { (call : VerifiedCall) × IsVerifiedCall frame.now plain.now call
        × ((u : UnitModel) → RepresentsUnit unit.old u →
        IsReactionOf (TellsBy (sealed_by call)) result.0 unit.new
        (step_by limiting u at (ReceiveVerified call))) }
    ensures counts { unit.new.counts ≡ counted_received result.0 unit.old.counts }
    ensures limits { AreKept limiting unit.old.governor unit.new.governor }
    ensures unchanged { OnErr result.0 (IsSameUnit unit.old unit.new) }
    ensures payload { IfOk result.0 (λ r. WherePassed (DeliversEndOf plain.now) r.outcome) }
{
    match VerifiedFrame::read(frame, plain) {
        Ok(verified) => {
            let packet = AcceptedPacket::of(verified.packet());
            let said = unit.receive_frame(limiting, at, frame, &verified);
            (said, Some(packet))
        }
        Err(fault) => (Err(unit.refuse_secured(at, fault)), None),
    }
}

/// Returns the answer to a frame that was received, which says this of its packet. A payload that is
/// delivered takes `room`, an empty buffer in which it fits.
fn made_of_received(
    alloc: Global,
    said: Result<Reaction<'_>, Refused>,
    packet: Option<AcceptedPacket>,
    room: &mut Vec<u8>,
) -> Result<MadeOfFrame, NoMemory>
    requires empty { room.old.items ≡ [] }
    requires size { vec_len room.old ≡ 0 }
    requires room { IfOk said (λ r. WherePassed (Fits (vec_capacity room.old)) r.outcome) }
    ensures same { IfOk result (λ made. IsMadeOf made said.entry) }
    ensures counts { (c : Counts) → IfOk result (λ made.
        counted_received said.entry c ≡ counted_frame made.made c) }
    ensures memory { OnErr result (said.entry ≡ Err Refused.NoMemory) }
{
    match said {
        Ok(reaction) => made_of_reaction(alloc, reaction, packet, room),
        Err(refused) => refused_frame(refused),
    }
}

/// Returns the answer to a frame that is not refused, and its reaction.
fn made_of_reaction(
    alloc: Global,
    reaction: Reaction<'_>,
    packet: Option<AcceptedPacket>,
    room: &mut Vec<u8>,
) -> Result<MadeOfFrame, NoMemory>
    requires empty { room.old.items ≡ [] }
    requires size { vec_len room.old ≡ 0 }
    requires room { WherePassed (Fits (vec_capacity room.old)) reaction.outcome }
    ensures same { IfOk result (λ made. IsMadeOf made (Ok reaction.entry)) }
    ensures counts { (c : Counts) → IfOk result (λ made.
        counted_unit reaction.entry.outcome c ≡ counted_made None made.made c) }
    ensures memory { IsOk result }
{
    let Reaction {
        outcome,
        due,
        cancelled,
    } = reaction;
    let made = made_of_outcome(alloc, outcome, room)?;
    let packet = packet.filter(|_| is_accepted(&made));
    Ok(MadeOfFrame {
        made,
        packet,
        due,
        cancelled,
    })
}

/// Returns the answer to a frame that is not refused.
fn made_of_outcome(
    alloc: Global,
    outcome: UnitOutcome<'_>,
    room: &mut Vec<u8>,
) -> Result<Made, NoMemory>
    requires empty { room.old.items ≡ [] }
    requires size { vec_len room.old ≡ 0 }
    requires room { WherePassed (Fits (vec_capacity room.old)) outcome }
    ensures same { IfOk result (λ made. IsMadeOfOutcome made outcome.entry) }
    ensures counts { (c : Counts) → IfOk result (λ made.
        counted_unit outcome.entry c ≡ counted_made None made c) }
    ensures memory { IsOk result }
{
    match outcome {
        UnitOutcome::Repeated => Ok(Made::Repeated),
        UnitOutcome::Passed(outcome) => Ok(Made::Passed(StationAnswer::of_received(
            alloc,
            Ok(outcome),
            room,
        )?)),
    }
}

/// Returns the answer to a frame that was refused.
fn refused_frame(refused: Refused) -> Result<MadeOfFrame, NoMemory>
    ensures { MatchResult result
        (λ f. (f ≡ record {
          made = Made.Passed (Answer.Refused refused);
          packet = None;
          due = None;
          cancelled = false;
        }) × IsSome (refusal_of refused))
        (λ _. refused ≡ Refused.NoMemory) }
{
    Ok(MadeOfFrame {
        made: refusal(refused)?,
        packet: None,
        due: None,
        cancelled: false,
    })
}

fn is_accepted(made: &Made) -> bool {
    matches!(made, Made::Passed(Answer::Accepted { .. }))
}
