//! The outcomes of calls of a station.

ghost use Rattle.std.specs.Prelude.{All};
ghost use Rattle.its_station.specs.Runs.{IsInRange};

use its_faults::FrameFault;
use its_loctable::LocationStore;
use its_station::{Call, Outcome, Ran, Refused, Reply, Station, Why};
use std::alloc::Global;
use test_support::PORT;

/// The outcome of a packet that was received before.
pub(crate) const DUPLICATE: Fate = Fate::Ignored(Why::Duplicate);

/// The outcome of too few octets for a frame.
pub(crate) const SHORT: Fate = Fate::Refused(Refused::Frame(FrameFault::Short));

/// The outcome of a call. A payload counts as delivered if it is "hi" for `PORT`, with info 0.
#[derive(Clone, Copy, PartialEq, Eq)]
pub(crate) enum Fate {
    /// Refused, and nothing changed.
    Refused(Refused),
    /// Ignored, for this reason.
    Ignored(Why),
    /// Accepted: nothing is delivered, and nothing is forwarded.
    Kept,
    /// Delivered, and not forwarded.
    Delivered,
    /// Forwarded, and not delivered.
    Relayed,
    /// Delivered and forwarded.
    DeliveredAndRelayed,
    /// Another payload was delivered, or to another port.
    Misdelivered,
    /// A call that sends nothing was done.
    Done,
    /// No beacon was due.
    Quiet,
    /// A call sent a frame.
    Sent,
}

fn accepted(is_hi: Option<bool>, is_relayed: bool) -> Fate {
    match (is_hi, is_relayed) {
        (None, false) => Fate::Kept,
        (None, true) => Fate::Relayed,
        (Some(false), _) => Fate::Misdelivered,
        (Some(true), false) => Fate::Delivered,
        (Some(true), true) => Fate::DeliveredAndRelayed,
    }
}

fn is_hi(port: u16, info: u16, payload: &[u8]) -> bool {
    port == PORT && info == 0 && payload == b"hi".as_slice()
}

/// Returns the outcome of a frame. It has no contract, since otherwise the proof of each test would
/// carry all that the contract of the call says.
pub(crate) fn fate_of<S: LocationStore>(station: &mut Station<S>, now: u64, frame: &[u8]) -> Fate {
    match station.receive(now, frame) {
        Err(refused) => Fate::Refused(refused),
        Ok(Outcome::Ignored(why)) => Fate::Ignored(why),
        Ok(
            Outcome::Accepted {
                handed: Some(it),
                sent,
            },
        ) => accepted(Some(is_hi(it.port, it.info, it.payload)), sent.is_some()),
        Ok(Outcome::Accepted { handed: None, sent }) => accepted(None, sent.is_some()),
    }
}

/// `Station::run`, without its contract.
pub(crate) fn run<S: LocationStore>(station: &mut Station<S>, calls: &[(u64, Call)]) -> Ran
    requires { All (λ call. IsInRange call.1) calls.now }
{
    station.run(calls)
}

/// Returns the outcome of a call of a run.
fn fate_of_reply(reply: &Reply) -> Fate {
    match reply {
        Reply::Done => Fate::Done,
        Reply::Quiet => Fate::Quiet,
        Reply::Sent(_) => Fate::Sent,
        Reply::Ignored(why) => Fate::Ignored(*why),
        Reply::Refused(refused) => Fate::Refused(*refused),
        Reply::Accepted {
            handed: Some(it),
            sent,
        } => accepted(
            Some(is_hi(it.port, it.info, it.payload.as_slice())),
            sent.is_some(),
        ),
        Reply::Accepted { handed: None, sent } => accepted(None, sent.is_some()),
    }
}

/// Whether a call has this outcome, in a run of its own.
pub(crate) fn gives<S: LocationStore>(
    station: &mut Station<S>,
    moment: u64,
    call: Call,
    want: Fate,
) -> bool
    requires { IsInRange call }
{
    match run(station, &[(moment, call)]).replies.first() {
        Some(reply) => fate_of_reply(reply) == want,
        None => false,
    }
}

/// Whether a frame has this outcome, in a run of its own.
pub(crate) fn gives_of_frame<S: LocationStore>(
    alloc: Global,
    station: &mut Station<S>,
    moment: u64,
    octets: &[u8],
    want: Fate,
) -> bool {
    match Vec::from_slice(alloc, octets) {
        Ok(octets) => gives(station, moment, Call::Receive(octets), want),
        Err(_) => false,
    }
}

/// Whether these are the outcomes of a run, which had enough memory.
pub(crate) fn are_fates(ran: &Ran, want: &[Fate]) -> bool {
    if ran.out_of_memory || ran.replies.len() != want.len() {
        return false;
    }
    for (reply, want) in ran.replies.iter().zip(want) {
        if fate_of_reply(reply) != *want {
            return false;
        }
    }
    true
}
