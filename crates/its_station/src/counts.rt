//! Counts of what a station heard, sent and refused, beside it: an embedding program keeps them.

ghost use Rattle.std.specs.Prelude.{◌≡◌, Ok};
ghost use Rattle.its_station.specs.Counting.{nothing, counted, counted_sent, counted_accepted};
ghost use Rattle.its_station.specs.Counting.{counted_ignored, counted_refused, counted_refusal};
ghost use Rattle.its_station.specs.Counting.{counted_done, counted_send, counted_tick};
ghost use Rattle.its_station.specs.Counting.{counted_answer, counted_call, kind_sent, own_kind};
ghost use Rattle.its_station.specs.Counting.{counted_outcome, one_more};

use crate::answer::{Answer, StationAnswer};
use crate::call::{Call, OwnCall};
use crate::outcome::{Outcome, Why};
use crate::refused::Refused;
use its_gnvalue::NoMemory;
use its_headers::Kind;

/// How often each thing happened. A count stays at 2^64 - 1 once it is there.
#[derive(Clone, Copy, Debug, PartialEq, Eq)]
pub struct Counts {
    /// Frames that came, whatever their outcome.
    pub received: u64,
    /// Frames whose packet was accepted.
    pub accepted: u64,
    /// Payloads that were delivered.
    pub delivered: u64,
    /// Frames that were passed on.
    pub relayed: u64,
    /// Frames that were ignored, by reason.
    pub ignored: IgnoredCounts,
    /// Calls that were refused, by code: for a frame that came, and any others that are noted.
    pub refused: RefusedCounts,
    /// Frames of the station's own that were sent, by kind.
    pub sent: SentCounts,
}

/// How many frames were ignored for each reason.
#[derive(Clone, Copy, Debug, PartialEq, Eq)]
pub struct IgnoredCounts {
    /// To another station's link address.
    pub not_for_me: u64,
    /// The station's own packet.
    pub own_source: u64,
    /// A BEACON or an SHB from another link address than its source's.
    pub sender_mismatch: u64,
    /// A GBC or a GAC whose sequence number is remembered.
    pub duplicate: u64,
}

/// How many calls were refused by each code that `receive` has, and by others.
#[derive(Clone, Copy, Debug, PartialEq, Eq)]
pub struct RefusedCounts {
    /// S1: the moment was below the clock.
    pub moment_earlier: u64,
    /// S2: the moment was over 2^62 ms.
    pub moment_too_late: u64,
    /// S3: the octets were no frame.
    pub frame: u64,
    /// S4: the location table had no room.
    pub table_full: u64,
    /// S5: an allocation failed.
    pub no_memory: u64,
    /// S6 to S9, of which `receive` gives none.
    pub other: u64,
}

/// How many frames of the station's own were sent of each kind.
#[derive(Clone, Copy, Debug, PartialEq, Eq)]
pub struct SentCounts {
    /// BEACON.
    pub beacons: u64,
    /// SHB.
    pub single_hop: u64,
    /// GBC.
    pub geobroadcasts: u64,
    /// GAC.
    pub geoanycasts: u64,
}

impl Counts {
    /// All counts are 0.
    pub fn new() -> Counts
        ensures { result ≡ nothing }
    {
        Counts {
            received: 0,
            accepted: 0,
            delivered: 0,
            relayed: 0,
            ignored: IgnoredCounts {
                not_for_me: 0,
                own_source: 0,
                sender_mismatch: 0,
                duplicate: 0,
            },
            refused: RefusedCounts {
                moment_earlier: 0,
                moment_too_late: 0,
                frame: 0,
                table_full: 0,
                no_memory: 0,
                other: 0,
            },
            sent: SentCounts {
                beacons: 0,
                single_hop: 0,
                geobroadcasts: 0,
                geoanycasts: 0,
            },
        }
    }

    /// Counts a frame, as `receive` answered: one frame more came, and one more was ignored for its
    /// reason, refused by its code, or accepted. For an accepted one it is also counted whether its
    /// payload was delivered and whether it was forwarded.
    pub fn note_received(&mut self, answer: &Result<Outcome<'_>, Refused>)
        ensures { self.new ≡ counted answer.now self.old }
    {
        self.note_frame();
        match answer {
            Ok(outcome) => self.note_outcome(outcome),
            Err(refused) => self.note_refused(*refused),
        }
    }

    /// Counts a frame that came.
    pub fn note_frame(&mut self)
        ensures { self.new ≡ record self.old { received = one_more self.old.received } }
    {
        self.received = self.received.saturating_add(1);
    }

    /// A frame was ignored for its reason, or accepted.
    pub fn note_outcome(&mut self, outcome: &Outcome<'_>)
        ensures { self.new ≡ counted_outcome (Ok outcome.now) self.old }
    {
        match outcome {
            Outcome::Accepted { handed, sent } => {
                self.note_accepted(handed.is_some(), sent.is_some());
            }
            Outcome::Ignored(why) => self.ignored.note(*why),
        }
    }

    /// A frame of the station's own was sent, of this kind.
    pub fn note_sent(&mut self, kind: Kind)
        ensures { self.new ≡ counted_sent kind self.old }
    {
        match kind {
            Kind::Beacon => self.sent.beacons = self.sent.beacons.saturating_add(1),
            Kind::Shb => self.sent.single_hop = self.sent.single_hop.saturating_add(1),
            Kind::Gbc => self.sent.geobroadcasts = self.sent.geobroadcasts.saturating_add(1),
            Kind::Gac => self.sent.geoanycasts = self.sent.geoanycasts.saturating_add(1),
        }
    }

    /// Counts a `tick`: a BEACON was sent, none was due, or the call was refused.
    pub fn note_tick(&mut self, answer: &Result<Option<Vec<u8>>, Refused>)
        ensures { self.new ≡ counted_tick answer.now self.old }
    {
        match answer {
            Ok(Some(_)) => self.note_sent(Kind::Beacon),
            Ok(None) => {}
            Err(refused) => self.note_refused(*refused),
        }
    }

    /// Counts a call of `send_shb`, `send_geobroadcast` or `send_geoanycast`: a packet of this kind
    /// was sent, or the call was refused.
    pub fn note_send(&mut self, kind: Kind, answer: &Result<Vec<u8>, Refused>)
        ensures { self.new ≡ counted_send kind answer.now self.old }
    {
        match answer {
            Ok(_) => self.note_sent(kind),
            Err(refused) => self.note_refused(*refused),
        }
    }

    /// Counts a call of `move_to`, `move_at`, `open`, `close` or `restart`: only a refusal counts.
    pub fn note_done(&mut self, answer: &Result<(), Refused>)
        ensures { self.new ≡ counted_done answer.now self.old }
    {
        if let Err(refused) = answer {
            self.note_refused(*refused);
        }
    }

    /// A call was refused, whichever it was.
    pub fn note_refused(&mut self, refused: Refused)
        ensures { self.new ≡ counted_refusal refused self.old }
    {
        self.refused.note(refused);
    }

    /// Counts any call by its answer, as the note of that call does. If memory ran out, it counts
    /// as refused by S5, and a frame also as received.
    pub fn note_answer(&mut self, call: &Call, answer: &Result<StationAnswer, NoMemory>)
        ensures { self.new
            ≡ counted_answer (kind_sent call.now) answer.now (counted_call call.now self.old) }
    {
        self.note_call(call);
        match answer {
            Ok(Answer::Sent(_)) => {
                if let Some(kind) = kind_sent(call) {
                    self.note_sent(kind);
                }
            }
            Ok(Answer::Ignored(why)) => self.ignored.note(*why),
            Ok(Answer::Accepted { handed, sent }) => {
                let delivered = handed.is_some();
                self.note_accepted(delivered, sent.is_some());
            }
            Ok(Answer::Refused(refused)) => self.note_refused(*refused),
            Ok(
                Answer::Moved | Answer::Opened | Answer::Closed | Answer::Restarted | Answer::Quiet,
            ) => {}
            Err(_) => self.note_refused(Refused::NoMemory),
        }
    }

    /// Counts a frame that comes, whatever its outcome.
    fn note_call(&mut self, call: &Call)
        ensures { self.new ≡ counted_call call.now self.old }
    {
        if let Call::Receive(_) = call {
            self.note_frame();
        }
    }

    /// A packet was accepted: whether its payload was delivered, and whether it was forwarded.
    pub fn note_accepted(&mut self, delivered: bool, relayed: bool)
        ensures { self.new ≡ counted_accepted delivered relayed self.old }
    {
        self.accepted = self.accepted.saturating_add(1);
        if delivered {
            self.delivered = self.delivered.saturating_add(1);
        }
        if relayed {
            self.relayed = self.relayed.saturating_add(1);
        }
    }
}

/// Returns the kind of packet that a call sends, if it sends one.
fn kind_sent(call: &Call) -> Option<Kind>
    ensures { result ≡ kind_sent call.now }
{
    match call {
        Call::Own(own) => own_kind(own),
        Call::Receive(_) => None,
    }
}

/// Returns the kind of packet that a call of the applications sends, if it sends one.
fn own_kind(call: &OwnCall) -> Option<Kind>
    ensures { result ≡ own_kind call.now }
{
    match call {
        OwnCall::Tick(_) => Some(Kind::Beacon),
        OwnCall::SendShb(_) => Some(Kind::Shb),
        OwnCall::SendGeobroadcast(_) => Some(Kind::Gbc),
        OwnCall::SendGeoanycast(_) => Some(Kind::Gac),
        OwnCall::MoveTo { .. } | OwnCall::Open(_) | OwnCall::Close(_) | OwnCall::Restart(_) => None,
    }
}

impl IgnoredCounts {
    fn note(&mut self, why: Why)
        ensures { self.new ≡ counted_ignored why self.old }
    {
        match why {
            Why::NotForMe => self.not_for_me = self.not_for_me.saturating_add(1),
            Why::OwnSource => self.own_source = self.own_source.saturating_add(1),
            Why::SenderMismatch => self.sender_mismatch = self.sender_mismatch.saturating_add(1),
            Why::Duplicate => self.duplicate = self.duplicate.saturating_add(1),
        }
    }
}

impl RefusedCounts {
    fn note(&mut self, refused: Refused)
        ensures { self.new ≡ counted_refused refused self.old }
    {
        match refused {
            Refused::MomentEarlier => self.moment_earlier = self.moment_earlier.saturating_add(1),
            Refused::MomentTooLate => self.moment_too_late = self.moment_too_late.saturating_add(1),
            Refused::Frame(_) | Refused::Secured(_) => self.frame = self.frame.saturating_add(1),
            Refused::TableFull => self.table_full = self.table_full.saturating_add(1),
            Refused::NoMemory => self.no_memory = self.no_memory.saturating_add(1),
            Refused::JitterRange
            | Refused::Port(_)
            | Refused::PayloadTooLong
            | Refused::HopLimitZero => self.other = self.other.saturating_add(1),
        }
    }
}
