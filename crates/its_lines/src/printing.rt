//! Answers as JSON lines.

ghost use Rattle.std.specs.Prelude.{◌≡◌, IfNone, IfOk};
ghost use Rattle.its_lines.specs.Within.{id_in};
ghost use Rattle.its_words.specs.JsonLines.{IsLine};

use crate::reason::{LineReason, SealReason};
use crate::request::{Id, LineFault};
use crate::response::{AcceptedPacket, Known, Response, SealFault};
use its_contention::ContentionCounts;
use its_gnvalue::{GnAddress, LongPv};
use its_linkframe::{FrameCode, FrameFault};
use its_station::{Answer, Counts, Refused, RefusedCode, StationAnswer};
use its_words::answers::{RefusedReason, delivery_keys, words};
use its_words::frames::{FrameKeys, MessageKeys};
use its_words::json_lines::{Digits, JsonFault, JsonLine, Octets, Printed};
use serde::{Described, Serialize, Serializer};

/// Returns the line of an answer: one JSON object in compact form, and a line feed.
///
/// `OutOfMemory` if an allocation failed.
pub fn print_response<'l>(
    line: &'l mut JsonLine,
    response: &Response,
) -> Result<&'l [u8], JsonFault>
    ensures { IfOk result (λ told. IsLine told.now) }
{
    match response {
        Response::Reply {
            id,
            at,
            packet,
            due,
            cancelled,
            reply,
        } => {
            let head = LineHead::new(id, Some(*at), answer_word(reply));
            let keys = ReplyLine::new(head, packet, reply);
            line.of(&keys.with_reaction(*due, *cancelled))
        }
        Response::Released { id, at, frame } => line.of(&FrameOctetsLine {
            head: LineHead::new(id, Some(*at), "released"),
            frame: octets_of(frame),
        }),
        Response::Repeated { id, at } => line.of(&RepeatedLine {
            head: LineHead::new(id, Some(*at), words::IGNORED),
            why: "delivered before",
        }),
        Response::OverRate { id, at } => line.of(&UnsentLine {
            head: LineHead::new(id, Some(*at), words::REFUSED),
            code: "over rate",
            reason: "own packets are over their rate",
        }),
        Response::NotAllowed { id, at } => line.of(&UnsentLine {
            head: LineHead::new(id, Some(*at), words::REFUSED),
            code: "not allowed",
            reason: "the caller doesn't allow it now",
        }),
        Response::Known { id, at, known } => print_known(line, id, *at, known),
        Response::Fault {
            id,
            line: number,
            fault,
        } => line.of(&FaultLine {
            id: id.as_ref().map(IdText),
            line: *number,
            error: Printed(*fault),
            reason: LineReason::of(*fault).map(Printed),
        }),
    }
}

/// Returns the length of the value of the `id` in the line of an answer: 0 if the answer has no `id`,
/// or if an allocation failed. The value comes after the six octets `{"id":`.
pub fn id_length(line: &mut JsonLine, response: &Response) -> usize
    ensures { IfNone (id_in response.now) (result ≡ 0) }
{
    let id = match response {
        Response::Reply { id, .. }
        | Response::Released { id, .. }
        | Response::Repeated { id, .. }
        | Response::OverRate { id, .. }
        | Response::NotAllowed { id, .. }
        | Response::Known { id, .. }
        | Response::Fault { id, .. } => id,
    };
    let Some(id) = id else {
        return 0;
    };
    match line.of(&IdText(id)) {
        Ok(text) => text.len() - 1,
        Err(_) => 0,
    }
}

/// The first keys of each answer that has a `result`.
#[derive(Clone, Copy, Serialize)]
struct LineHead<'a> {
    #[serde(skip_serializing_if = "Option::is_none")]
    id: Option<IdText<'a>>,
    #[serde(skip_serializing_if = "Option::is_none")]
    at: Option<u64>,
    result: &'static str,
}

impl<'a> LineHead<'a> {
    fn new(id: &'a Option<Id>, at: Option<u64>, word: &'static str) -> LineHead<'a> {
        LineHead {
            id: id.as_ref().map(IdText),
            at,
            result: word,
        }
    }
}

/// The `id` of a line.
#[derive(Clone, Copy)]
struct IdText<'a>(&'a Id);

impl Described for IdText<'_> {}

impl Serialize for IdText<'_> {
    fn serialize<S: Serializer>(&self, out: &mut S) -> Result<(), S::Error> {
        match self.0 {
            Id::Text(text) => out.str(text.as_str()),
            Id::Number(number) => out.i64(*number),
        }
    }
}

/// The answer to a call that was made, with its keys in this order.
#[derive(Clone, Copy, Serialize)]
struct ReplyLine<'a> {
    #[serde(flatten)]
    head: LineHead<'a>,
    #[serde(skip_serializing_if = "Option::is_none")]
    source: Option<Digits<8>>,
    #[serde(skip_serializing_if = "Option::is_none")]
    media: Option<Digits<4>>,
    #[serde(skip_serializing_if = "Option::is_none")]
    why: Option<&'static str>,
    #[serde(skip_serializing_if = "Option::is_none")]
    code: Option<Printed<RefusedCode>>,
    #[serde(flatten)]
    delivered: Option<MessageKeys<'a>>,
    #[serde(skip_serializing_if = "Option::is_none")]
    frame: Option<Octets<'a>>,
    #[serde(skip_serializing_if = "Option::is_none")]
    reason: Option<Printed<RefusedReason>>,
    #[serde(skip_serializing_if = "Option::is_none")]
    due: Option<u64>,
    #[serde(skip_serializing_if = "Option::is_none")]
    cancelled: Option<bool>,
}

impl<'a> ReplyLine<'a> {
    /// Returns the line with the due time of a frame that waits, and whether one is cancelled.
    fn with_reaction(self, due: Option<u64>, cancelled: bool) -> ReplyLine<'a> {
        ReplyLine {
            due,
            cancelled: if cancelled { Some(true) } else { None },
            ..self
        }
    }

    fn new(
        head: LineHead<'a>,
        packet: &Option<AcceptedPacket>,
        reply: &'a StationAnswer,
    ) -> ReplyLine<'a> {
        let line = ReplyLine {
            head,
            source: packet.as_ref().map(source_digits),
            media: packet.as_ref().and_then(media_digits),
            why: None,
            code: None,
            delivered: None,
            frame: None,
            reason: None,
            due: None,
            cancelled: None,
        };
        match reply {
            Answer::Moved | Answer::Opened | Answer::Closed | Answer::Restarted | Answer::Quiet =>
                line,
            Answer::Sent(frame) => ReplyLine {
                frame: Some(Octets(frame.as_slice())),
                ..line
            },
            Answer::Ignored(why) => ReplyLine {
                why: Some(words::why_word(*why)),
                ..line
            },
            Answer::Accepted { handed, sent } => ReplyLine {
                delivered: handed.as_ref().map(delivery_keys),
                frame: sent.as_ref().map(octets_of),
                ..line
            },
            Answer::Refused(refused) => ReplyLine {
                code: Some(Printed(refused.code())),
                reason: Some(Printed(RefusedReason(*refused))),
                ..line
            },
        }
    }
}

fn octets_of(frame: &Vec<u8>) -> Octets<'_> {
    Octets(frame.as_slice())
}

fn source_digits(packet: &AcceptedPacket) -> Digits<8> {
    digits_of(&packet.source)
}

/// The media-dependent data of a packet, unless it is zeros.
fn media_digits(packet: &AcceptedPacket) -> Option<Digits<4>> {
    if packet.media == [0; 4] {
        None
    } else {
        Some(Digits(packet.media))
    }
}

fn digits_of(address: &GnAddress) -> Digits<8> {
    Digits(address.as_u64().to_be_bytes())
}

/// Returns the line of the answer to a query.
fn print_known<'l>(
    line: &'l mut JsonLine,
    id: &Option<Id>,
    at: Option<u64>,
    known: &Known,
) -> Result<&'l [u8], JsonFault>
    ensures { IfOk result (λ told. IsLine told.now) }
{
    match known {
        Known::NextBeacon(moment) => line.of(&BeaconLine {
            head: LineHead::new(id, at, "next_beacon"),
            moment: *moment,
        }),
        Known::Neighbours { vectors, more } => line.of(&NeighboursLine {
            head: LineHead::new(id, at, "neighbours"),
            vectors: VectorList(vectors.as_slice()),
            more: *more,
        }),
        Known::Found(vector) => line.of(&FoundLine {
            head: LineHead::new(id, at, "found"),
            vector: VectorKeys::of(vector),
        }),
        Known::Unknown => line.of(&LineHead::new(id, at, "unknown")),
        Known::Frame(octets) => line.of(&FrameLine {
            head: LineHead::new(id, at, "read"),
            frame: FrameKeys::of(&octets.view()),
        }),
        Known::NoFrame(fault) => line.of(&NoFrameLine::new(
            LineHead::new(id, at, words::REFUSED),
            *fault,
        )),
        Known::Sealed(frame) => line.of(&FrameOctetsLine {
            head: LineHead::new(id, at, "sealed"),
            frame: octets_of(frame),
        }),
        Known::NotSealed(fault) => line.of(&NotFrameOctetsLine {
            head: LineHead::new(id, at, words::REFUSED),
            code: Printed(*fault),
            reason: Printed(SealReason(*fault)),
        }),
        Known::Counts(counts, contention) => line.of(&CountsLine {
            head: LineHead::new(id, at, "counts"),
            counts: CountKeys::of(counts),
            contention: contention.map(ContentionKeys::of),
        }),
        Known::NextDue(moment) => line.of(&DueLine {
            head: LineHead::new(id, at, "next_due"),
            moment: *moment,
        }),
        Known::Refused(refused) => line.of(&RefusedLine {
            head: LineHead::new(id, at, words::REFUSED),
            code: Printed(refused.code()),
            reason: Printed(RefusedReason(*refused)),
        }),
    }
}

/// The answer to a frame whose packet was delivered before.
#[derive(Clone, Copy, Serialize)]
struct RepeatedLine<'a> {
    #[serde(flatten)]
    head: LineHead<'a>,
    why: &'static str,
}

/// The answer to a request that the station was not asked.
#[derive(Clone, Copy, Serialize)]
struct UnsentLine<'a> {
    #[serde(flatten)]
    head: LineHead<'a>,
    code: &'static str,
    reason: &'static str,
}

#[derive(Clone, Copy, Serialize)]
struct BeaconLine<'a> {
    #[serde(flatten)]
    head: LineHead<'a>,
    moment: u64,
}

#[derive(Clone, Copy, Serialize)]
struct NeighboursLine<'a> {
    #[serde(flatten)]
    head: LineHead<'a>,
    vectors: VectorList<'a>,
    more: bool,
}

#[derive(Clone, Copy, Serialize)]
struct FoundLine<'a> {
    #[serde(flatten)]
    head: LineHead<'a>,
    #[serde(flatten)]
    vector: VectorKeys,
}

#[derive(Clone, Copy, Serialize)]
struct FrameLine<'a> {
    #[serde(flatten)]
    head: LineHead<'a>,
    #[serde(flatten)]
    frame: FrameKeys<'a>,
}

#[derive(Clone, Copy, Serialize)]
struct NoFrameLine<'a> {
    #[serde(flatten)]
    head: LineHead<'a>,
    code: Printed<FrameCode>,
    reason: Printed<RefusedReason>,
}

impl<'a> NoFrameLine<'a> {
    fn new(head: LineHead<'a>, fault: FrameFault) -> NoFrameLine<'a> {
        NoFrameLine {
            head,
            code: Printed(fault.code()),
            reason: Printed(RefusedReason(Refused::Frame(fault))),
        }
    }
}

/// The answer to `seal` and to `release`.
#[derive(Clone, Copy, Serialize)]
struct FrameOctetsLine<'a> {
    #[serde(flatten)]
    head: LineHead<'a>,
    frame: Octets<'a>,
}

#[derive(Clone, Copy, Serialize)]
struct NotFrameOctetsLine<'a> {
    #[serde(flatten)]
    head: LineHead<'a>,
    code: Printed<SealFault>,
    reason: Printed<SealReason>,
}

#[derive(Clone, Copy, Serialize)]
struct CountsLine<'a> {
    #[serde(flatten)]
    head: LineHead<'a>,
    #[serde(flatten)]
    counts: CountKeys,
    #[serde(skip_serializing_if = "Option::is_none")]
    contention: Option<ContentionKeys>,
}

#[derive(Clone, Copy, Serialize)]
struct DueLine<'a> {
    #[serde(flatten)]
    head: LineHead<'a>,
    #[serde(skip_serializing_if = "Option::is_none")]
    moment: Option<u64>,
}

#[derive(Clone, Copy, Serialize)]
struct RefusedLine<'a> {
    #[serde(flatten)]
    head: LineHead<'a>,
    code: Printed<RefusedCode>,
    reason: Printed<RefusedReason>,
}

/// Position vectors, as an array.
#[derive(Clone, Copy)]
struct VectorList<'a>(&'a [LongPv]);

impl Described for VectorList<'_> {}

impl Serialize for VectorList<'_> {
    fn serialize<S: Serializer>(&self, out: &mut S) -> Result<(), S::Error> {
        out.begin_seq(Some(self.0.len()))?;
        for vector in self.0 {
            VectorKeys::of(vector).serialize(out)?;
        }
        out.end_seq()
    }
}

/// A position vector, with its keys in this order.
#[derive(Clone, Copy, Serialize)]
struct VectorKeys {
    address: Digits<8>,
    tst: u32,
    lat: i32,
    lon: i32,
    pai: bool,
    speed: i16,
    heading: u16,
}

impl VectorKeys {
    fn of(vector: &LongPv) -> VectorKeys {
        let place = vector.place();
        VectorKeys {
            address: Digits(vector.address().as_u64().to_be_bytes()),
            tst: vector.tst(),
            lat: place.lat(),
            lon: place.lon(),
            pai: vector.pai(),
            speed: vector.speed(),
            heading: vector.heading(),
        }
    }
}

/// Counts, with their keys in this order.
#[derive(Clone, Copy, Serialize)]
struct CountKeys {
    received: u64,
    accepted: u64,
    delivered: u64,
    relayed: u64,
    ignored: IgnoredKeys,
    refused: RefusedKeys,
    sent: SentKeys,
}

#[derive(Clone, Copy, Serialize)]
struct IgnoredKeys {
    not_for_me: u64,
    own_source: u64,
    sender_mismatch: u64,
    duplicate: u64,
}

#[derive(Clone, Copy, Serialize)]
struct RefusedKeys {
    moment_earlier: u64,
    moment_too_late: u64,
    frame: u64,
    table_full: u64,
    no_memory: u64,
    other: u64,
}

#[derive(Clone, Copy, Serialize)]
struct SentKeys {
    beacons: u64,
    single_hop: u64,
    geobroadcasts: u64,
    geoanycasts: u64,
}

impl CountKeys {
    fn of(counts: &Counts) -> CountKeys {
        let (ignored, refused, sent) = (counts.ignored, counts.refused, counts.sent);
        CountKeys {
            received: counts.received,
            accepted: counts.accepted,
            delivered: counts.delivered,
            relayed: counts.relayed,
            ignored: IgnoredKeys {
                not_for_me: ignored.not_for_me,
                own_source: ignored.own_source,
                sender_mismatch: ignored.sender_mismatch,
                duplicate: ignored.duplicate,
            },
            refused: RefusedKeys {
                moment_earlier: refused.moment_earlier,
                moment_too_late: refused.moment_too_late,
                frame: refused.frame,
                table_full: refused.table_full,
                no_memory: refused.no_memory,
                other: refused.other,
            },
            sent: SentKeys {
                beacons: sent.beacons,
                single_hop: sent.single_hop,
                geobroadcasts: sent.geobroadcasts,
                geoanycasts: sent.geoanycasts,
            },
        }
    }
}

/// Counts of frames that wait, with their keys in this order.
#[derive(Clone, Copy, Serialize)]
struct ContentionKeys {
    held: u64,
    released: u64,
    cancelled: u64,
    dropped: u64,
    full: u64,
}

impl ContentionKeys {
    fn of(counts: ContentionCounts) -> ContentionKeys {
        ContentionKeys {
            held: counts.held,
            released: counts.released,
            cancelled: counts.cancelled,
            dropped: counts.dropped,
            full: counts.full,
        }
    }
}

/// The answer to a line that can't be read, with its keys in this order.
#[derive(Clone, Copy, Serialize)]
struct FaultLine<'a> {
    #[serde(skip_serializing_if = "Option::is_none")]
    id: Option<IdText<'a>>,
    line: u64,
    error: Printed<LineFault>,
    #[serde(skip_serializing_if = "Option::is_none")]
    reason: Option<Printed<LineReason>>,
}

/// Returns the word of an answer.
fn answer_word(answer: &StationAnswer) -> &'static str {
    match answer {
        Answer::Moved => words::MOVED,
        Answer::Opened => words::OPENED,
        Answer::Closed => words::CLOSED,
        Answer::Restarted => words::RESTARTED,
        Answer::Quiet => words::QUIET,
        Answer::Sent(_) => words::SENT,
        Answer::Ignored(_) => words::IGNORED,
        Answer::Accepted { .. } => words::ACCEPTED,
        Answer::Refused(_) => words::REFUSED,
    }
}
