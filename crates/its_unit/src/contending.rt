//! What a unit that contends does with the outcome of a frame, and how it releases frames.

ghost use Rattle.std.specs.Prelude.{◌≡◌, ◌≢◌, ◌≤◌, ℕ, ◌^◌, List, Some, None, IfSome, Err, OnErr};
ghost use Rattle.std.specs.Prelude.{false, length, IfOk};
ghost use Rattle.its_contention.specs.Waiting.{longest};
ghost use Rattle.its_gnvalue.specs.Values.{mid_of};
ghost use Rattle.its_model.specs.Packet.{Transmission};
ghost use Rattle.its_model.specs.Calls.{Answer};
ghost use Rattle.its_model.specs.Station.{StationModel, moment_refusal};
ghost use Rattle.its_station.specs.State.{RepresentsStation};
ghost use Rattle.its_station.specs.Receiving.{DeliversEndOf, SendsAtMost, TellsBy};
ghost use Rattle.its_unit.specs.Contending.{after_accepting, after_frame, applied, at_once};
ghost use Rattle.its_unit.specs.Contending.{cancels, due_by, due_of_frame, fate_in, is_admitted};
ghost use Rattle.its_unit.specs.Contending.{governed_release, left_of, past_release, release_first};
ghost use Rattle.its_unit.specs.Releases.{counted_release, counts_in, due_in, octets_released};
ghost use Rattle.its_unit.specs.Releases.{longest_in, octets_sent, release_step, releases_by};
ghost use Rattle.its_unit.specs.Releases.{unlimited_release};
ghost use Rattle.its_unit.specs.Releases.{IsReleaseOf};
ghost use Rattle.its_unit.specs.Steps.{AreKept, IsSameUnit};
ghost use Rattle.its_unit.specs.Unit.{UnitModel, RepresentsUnit};
ghost use Rattle.its_unit.specs.Waits.{AreSaid, InTime, IsCheckOf, IsJudged};

use crate::limiting::Limiting;
use crate::unit::Unit;
use its_contention::{Contention, ContentionCounts, RelayFate, WaitingFrame};
use its_gnvalue::GnAddress;
use its_governor::{Governor, Receiver};
use its_loctable::LocationStore;
use its_station::{LAST_MOMENT, Outcome, ReceivedFrame, Refused, Station, Why};

impl<S: LocationStore> Unit<S> {
    /// The least time at which a frame that waits is due, in milliseconds. Call `release` then, and
    /// again until none is due.
    pub fn next_due(&self) -> Option<u64>
        ensures { result ≡ due_in self.now.contention }
    {
        match &self.contention {
            Some(contention) => contention.next_due(),
            None => None,
        }
    }

    /// How often each thing happened to frames that wait, if the unit contends. A restart keeps the
    /// counts.
    pub fn contention_counts(&self) -> Option<ContentionCounts>
        ensures { result ≡ counts_in self.now.contention }
    {
        match &self.contention {
            Some(contention) => Some(contention.counts()),
            None => None,
        }
    }

    /// Releases a frame that is due, if one is: the caller sends it. If several are due, it is the one
    /// with the least time. Frames that were due more than 1000 ms before are dropped, and so are those for
    /// which the limits have no room. The station isn't changed: neither its clock nor its place, ports
    /// or table decide anything. It is refused for its time (S1, S2), and takes no memory. Pass frames
    /// that came up to this time to the unit first: they may cancel those that are due.
    pub fn release(&mut self, now: u64) -> Result<Option<Vec<u8>>, Refused>
        ensures step { (u : UnitModel) → RepresentsUnit self.old u →
            IsReleaseOf result self.new (release_step u now) }
        ensures station { self.new.station ≡ self.old.station }
        ensures counts { self.new.counts ≡ counted_release result self.old.counts }
        ensures unchanged { OnErr result (IsSameUnit self.old self.new) }
        ensures short { IfOk result (λ sent. IfSome sent (λ w.
            length w.items ≤ longest_in self.old.contention)) }
        ensures memory { result ≢ Err Refused.NoMemory }
    {
        if let Err(refused) = self.check_moment(now) {
            self.counts.note_refused(refused);
            return Err(refused);
        }
        let address = self.station.address();
        let sent = match &mut self.contention {
            Some(contention) => release_due(contention, &mut self.governor, address, now),
            None => None,
        };
        if sent.is_some() {
            self.counts.relayed = self.counts.relayed.saturating_add(1);
        }
        Ok(sent)
    }

    /// Releases a frame that is due, if one is, past the limits: none is judged, and none notes it.
    /// Otherwise it does what `release` does.
    pub fn release_unlimited(&mut self, now: u64) -> Result<Option<Vec<u8>>, Refused>
        ensures step { (u : UnitModel) → RepresentsUnit self.old u →
            IsReleaseOf result self.new (unlimited_release u now) }
        ensures station { self.new.station ≡ self.old.station }
        ensures limits { self.new.governor ≡ self.old.governor }
        ensures counts { self.new.counts ≡ counted_release result self.old.counts }
        ensures unchanged { OnErr result (IsSameUnit self.old self.new) }
        ensures memory { result ≢ Err Refused.NoMemory }
    {
        if let Err(refused) = self.check_moment(now) {
            self.counts.note_refused(refused);
            return Err(refused);
        }
        let due = match &mut self.contention {
            Some(contention) => take_due(contention, now),
            None => None,
        };
        if due.is_some() {
            self.counts.relayed = self.counts.relayed.saturating_add(1);
        }
        Ok(due)
    }

    /// Releases a frame that is due, within the limits (`release`) or past them (`release_unlimited`).
    pub fn release_by(&mut self, limiting: Limiting, now: u64) -> Result<Option<Vec<u8>>, Refused>
        ensures step { (u : UnitModel) → RepresentsUnit self.old u →
            IsReleaseOf result self.new (releases_by limiting u now) }
        ensures limits { AreKept limiting self.old.governor self.new.governor }
        ensures counts { self.new.counts ≡ counted_release result self.old.counts }
        ensures unchanged { OnErr result (IsSameUnit self.old self.new) }
        ensures memory { result ≢ Err Refused.NoMemory }
    {
        match limiting {
            Limiting::Within => self.release(now),
            Limiting::Past => self.release_unlimited(now),
        }
    }

    /// The length in octets of the longest frame that waits, due or not: 0 if none waits.
    pub fn longest_waiting(&self) -> usize
        ensures { result ≡ longest_in self.now.contention }
    {
        match &self.contention {
            Some(contention) => contention.longest(),
            None => 0,
        }
    }

    /// Whether the station refuses this time: it is below the clock (S1), or over 2^62 (S2).
    fn check_moment(&self, now: u64) -> Result<(), Refused>
        ensures check { (s : StationModel) → RepresentsStation self.now.station s →
            IsCheckOf result (moment_refusal s now) }
        ensures memory { result ≢ Err Refused.NoMemory }
    {
        if now < self.station.clock() {
            return Err(Refused::MomentEarlier);
        }
        if now > LAST_MOMENT {
            return Err(Refused::MomentTooLate);
        }
        Ok(())
    }
}

/// Drops the late frames, and takes the frame out that is due first and for which the limits have room.
fn release_due(
    contention: &mut Contention,
    governor: &mut Governor,
    address: GnAddress,
    now: u64,
) -> Option<Vec<u8>>
    ensures sent { octets_sent result
        ≡ octets_released (governed_release address now contention.old governor.old).frame }
    ensures waiting { contention.new
        ≡ (governed_release address now contention.old governor.old).waiting }
    ensures limits { governor.new
        ≡ (governed_release address now contention.old governor.old).governor }
    ensures short { IfSome result (λ w. length w.items ≤ longest contention.old.held) }
{
    contention.drop_late(now);
    let most = contention.len();
    release_first(contention, governor, address, now, most)
}

/// Takes the frame out that is due first and for which the limits have room, and drops those before
/// it. It looks at so many frames at most.
fn release_first(
    contention: &mut Contention,
    governor: &mut Governor,
    address: GnAddress,
    now: u64,
    most: usize,
) -> Option<Vec<u8>>
    ensures sent { octets_sent result
        ≡ octets_released (release_first most address now contention.old governor.old).frame }
    ensures waiting { contention.new
        ≡ (release_first most address now contention.old governor.old).waiting }
    ensures limits { governor.new
        ≡ (release_first most address now contention.old governor.old).governor }
{
    let mut left = most;
    while left > 0 {
        left -= 1;
        match judge_due(contention, governor, address, now) {
            Judged::Passes(frame) => return Some(frame.into_octets()),
            Judged::Dropped => {}
            Judged::NoneDue => return None,
        }
    }
    None
}

/// Drops the late frames, and takes the frame out that is due first.
fn take_due(contention: &mut Contention, now: u64) -> Option<Vec<u8>>
    ensures sent { octets_sent result ≡ octets_released (past_release now contention.old).frame }
    ensures waiting { contention.new ≡ (past_release now contention.old).waiting }
{
    contention.drop_late(now);
    match contention.take_due(now) {
        Some(frame) => Some(frame.into_octets()),
        None => None,
    }
}

/// The outcome of the frame that is due first.
#[derive(Drop)]
enum Judged {
    /// The limits have room: it is sent.
    Passes(WaitingFrame),
    /// The limits have none.
    Dropped,
    /// No frame is due.
    NoneDue,
}

/// Judges the frame that is due first, and takes it out.
fn judge_due(
    contention: &mut Contention,
    governor: &mut Governor,
    address: GnAddress,
    now: u64,
) -> Judged
    ensures { IsJudged result contention.old governor.old address now contention.new governor.new }
{
    let passes = match contention.first_due(now) {
        Some(frame) => {
            let receiver = Receiver {
                address,
                knew_source: frame.knew_source(),
            };
            governor.forward(now, &receiver, frame.source(), frame.number())
        }
        None => return Judged::NoneDue,
    };
    if !passes {
        contention.drop_due(now);
        return Judged::Dropped;
    }
    match contention.take_due(now) {
        Some(frame) => Judged::Passes(frame),
        None => Judged::NoneDue,
    }
}

/// What contention leaves of the outcome of a frame.
#[derive(Drop)]
pub(crate) struct Left<'a> {
    pub(crate) outcome: Outcome<'a>,
    pub(crate) due: Option<u64>,
    pub(crate) cancelled: bool,
}

impl<'a> Left<'a> {
    /// An outcome by which no frame begins to wait and none is cancelled.
    fn of(outcome: Outcome<'a>) -> Left<'a>
        ensures { result ≡ record { outcome = outcome.entry; due = None; cancelled = false } }
    {
        Left {
            outcome,
            due: None,
            cancelled: false,
        }
    }
}

/// What contention leaves of the outcome of a frame with these octets, whose receiver knew its source
/// before or not: a frame that waits is not sent. A duplicate may cancel frames that wait. The station
/// is the one after the frame.
pub(crate) fn contend<'a, S: LocationStore, F: ReceivedFrame<'a>>(
    waiting: &mut Option<Contention>,
    limiting: Limiting,
    governor: &Governor,
    station: &Station<S>,
    now: u64,
    octets: &[u8],
    knew_source: bool,
    frame: &F,
    outcome: Outcome<'a>,
) -> Left<'a>
    ensures told { (s : StationModel) (answer : Answer Transmission) →
        RepresentsStation station.now s → InTime s now answer →
        TellsBy (F.Encodes frame.now) outcome.entry answer →
        TellsBy (F.Encodes frame.now) result.outcome
        (left_of waiting.old (applied limiting governor.now) s now (F.frame frame.now) answer) }
    ensures due { (s : StationModel) (answer : Answer Transmission) →
        RepresentsStation station.now s → InTime s now answer →
        TellsBy (F.Encodes frame.now) outcome.entry answer →
        result.due ≡ due_of_frame waiting.old (applied limiting governor.now) s now
        (F.frame frame.now) answer }
    ensures cancelled { (s : StationModel) (answer : Answer Transmission) →
        RepresentsStation station.now s → InTime s now answer →
        TellsBy (F.Encodes frame.now) outcome.entry answer →
        result.cancelled ≡ cancels waiting.old (mid_of s.address) octets.now
        (F.frame frame.now).link_source answer }
    ensures waiting { (s : StationModel) (answer : Answer Transmission)
        (say : Transmission → List ℕ) → RepresentsStation station.now s → InTime s now answer →
        TellsBy (F.Encodes frame.now) outcome.entry answer →
        AreSaid (F.Encodes frame.now) say → octets.now ≡ say (F.frame frame.now) →
        waiting.new ≡ after_frame waiting.old (applied limiting governor.now) s now say knew_source
        (F.frame frame.now) answer }
    ensures payload { (w : List ℕ) → DeliversEndOf w outcome.entry →
        DeliversEndOf w result.outcome }
    ensures short_frame { (most : ℕ) → SendsAtMost most outcome.entry →
        SendsAtMost most result.outcome }
{
    let Some(contention) = waiting else {
        return Left::of(outcome);
    };
    match outcome {
        Outcome::Ignored(Why::Duplicate) => {
            let left = contention.hear(octets, frame.sender(), station.address().mid());
            Left {
                outcome: Outcome::Ignored(Why::Duplicate),
                due: None,
                cancelled: 0 < left,
            }
        }
        Outcome::Accepted {
            handed,
            sent: Some(relay),
        } => {
            let (sent, due) = hold(
                contention,
                limiting,
                governor,
                station,
                now,
                knew_source,
                frame,
                relay,
            );
            Left {
                outcome: Outcome::Accepted { handed, sent },
                due,
                cancelled: false,
            }
        }
        outcome => Left::of(outcome),
    }
}

/// Holds the frame in which an accepted packet goes on, by its fate, and returns when it is due; or
/// returns the frame if it goes at once. What the limits don't admit is left to them. The station is
/// the one after the packet.
fn hold<'a, S: LocationStore, F: ReceivedFrame<'a>>(
    contention: &mut Contention,
    limiting: Limiting,
    governor: &Governor,
    station: &Station<S>,
    now: u64,
    knew_source: bool,
    packet: &F,
    relay: Vec<u8>,
) -> (Option<Vec<u8>>, Option<u64>)
    ensures sent { (s : StationModel) (t : Transmission) → RepresentsStation station.now s →
        s.clock ≤ now → now ≤ 2 ^ 62 →
        octets_sent result.0 ≡ at_once (Some relay.items)
        (fate_in contention.old (applied limiting governor.now) s now (F.frame packet.now)
        (Some t)) }
    ensures due { (s : StationModel) (t : Transmission) → RepresentsStation station.now s →
        s.clock ≤ now → now ≤ 2 ^ 62 →
        result.1 ≡ due_by (fate_in contention.old (applied limiting governor.now) s now
        (F.frame packet.now) (Some t)) }
    ensures same { IfSome result.0 (λ w. w.items ≡ relay.items) }
    ensures waiting { (s : StationModel) (t : Transmission) (say : Transmission → List ℕ) →
        RepresentsStation station.now s → s.clock ≤ now → now ≤ 2 ^ 62 → relay.items ≡ say t →
        contention.new ≡ after_accepting contention.old (applied limiting governor.now) s now say
        knew_source (F.frame packet.now) (Some t) }
{
    if !is_admitted(limiting, governor, now, packet) {
        return (Some(relay), None);
    }
    let source = packet.vector().address();
    let frame = WaitingFrame::new(relay, source, packet.number(), knew_source);
    match contention.contend(now, station, packet, frame) {
        RelayFate::Goes(frame) => (Some(frame.into_octets()), None),
        RelayFate::Waits(due) => (None, Some(due)),
    }
}

/// Whether the limits, if they apply, admit a packet that was accepted.
fn is_admitted<'a, F: ReceivedFrame<'a>>(
    limiting: Limiting,
    governor: &Governor,
    now: u64,
    packet: &F,
) -> bool
    ensures { result ≡ is_admitted (applied limiting governor.now) now (F.frame packet.now) }
{
    match limiting {
        Limiting::Within => governor.admits(now, packet),
        Limiting::Past => true,
    }
}
