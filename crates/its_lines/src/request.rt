//! What a line asks for.

ghost use Rattle.std.specs.Prelude.{◌≡◌};
ghost use Rattle.its_lines.specs.Words.{query_key};

use crate::word::LineWord;
use its_gnvalue::GnAddress;
use its_station::{Call, OwnedShbRequest};
use its_words::keys::{Key, Wrong};
use std::fmt;

/// The `id` of a line. Its answer has the same `id`.
#[derive(Debug, Drop, PartialEq, Eq)]
pub enum Id {
    /// A text of at most 128 octets.
    Text(String),
    /// A whole number above -2^53 and below 2^53.
    Number(i64),
}

/// A query of what a station knows. It changes nothing.
#[derive(Debug, Drop, PartialEq, Eq)]
pub enum Query {
    /// `next_beacon`: when a `tick` with this jitter, in milliseconds, sends a beacon.
    NextBeacon(u16),
    /// `neighbours`: the live neighbours above this address, or all live neighbours.
    Neighbours(Option<GnAddress>),
    /// `look_up`: the live source of an address.
    LookUp(GnAddress),
    /// `read_frame`: the fields of the frame of these octets.
    ReadFrame(Vec<u8>),
    /// `counts`: what the station received, sent and refused so far.
    Counts,
    /// `next_due`: when the first of the frames is due that wait to be forwarded.
    NextDue,
    /// `seal`: the secured frame of a frame, with a message in place of its plain part.
    Seal {
        /// The octets of the frame.
        frame: Vec<u8>,
        /// The message that a security entity made of the plain part.
        message: Vec<u8>,
    },
}

/// A key that no event of a scenario has: of a query, of a signed frame that was received, or of a
/// single-hop broadcast with media-dependent data. It prints as its word.
#[derive(Clone, Copy, Debug, PartialEq, Eq)]
pub enum QueryKey {
    /// A jitter in milliseconds: 0 to 65535.
    Jitter,
    /// The address above which neighbours are returned: as `Address`.
    After,
    /// The address of a source: 16 hexadecimal digits, whose MID is not a group address.
    Address,
    /// The octets of a frame: an even number of hexadecimal digits.
    Frame,
    /// The plain part that a security entity verified: as `Frame`.
    Plain,
    /// The message of a security entity: as `Frame`.
    Message,
    /// The media-dependent data of a single-hop broadcast: 8 hexadecimal digits.
    Media,
}

impl QueryKey {
    /// Returns the word.
    pub(crate) fn word(self) -> &'static str
        ensures { result.now ≡ query_key self }
    {
        match self {
            QueryKey::Jitter => "jitter",
            QueryKey::After => "after",
            QueryKey::Address => "address",
            QueryKey::Frame => "frame",
            QueryKey::Plain => "plain",
            QueryKey::Message => "message",
            QueryKey::Media => "media",
        }
    }
}

impl fmt::Display for QueryKey {
    fn fmt<W: fmt::Write>(&self, f: &mut fmt::Formatter<W>) -> fmt::Result {
        f.write_str(self.word())
    }
}

/// Why a line can't be read. It prints as the word of the answer's `error`.
#[derive(Clone, Copy, Debug, PartialEq, Eq)]
pub enum LineFault {
    /// It has more than 65536 octets, or is not a JSON object (RFC 8259) in UTF-8.
    NotJson,
    /// Its `id` is neither a text of at most 128 octets nor a whole number in its range.
    Id,
    /// This key of a call is missing, of another kind or out of range.
    Key(Key, Wrong),
    /// The word under `do` is unknown. This word may be meant.
    Word(LineWord),
    /// This key of a query is missing, of another kind or out of range.
    Query(QueryKey, Wrong),
}

impl fmt::Display for LineFault {
    fn fmt<W: fmt::Write>(&self, f: &mut fmt::Formatter<W>) -> fmt::Result {
        match self {
            LineFault::NotJson => f.write_str("not JSON"),
            LineFault::Id => f.write_str("id"),
            LineFault::Key(key, _) => write!(f, "{key}"),
            LineFault::Word(_) => write!(f, "{}", Key::Do),
            LineFault::Query(key, _) => write!(f, "{key}"),
        }
    }
}

/// What a line asks for.
#[derive(Drop)]
pub(crate) enum Request {
    /// Nothing: it is blank.
    Nothing,
    /// This call, at this time.
    Call(u64, Call),
    /// Receiving this secured frame, at this time.
    Verified(u64, VerifiedOctets),
    /// Sending this single-hop broadcast, at this time.
    Shb(u64, ShbWithMedia),
    /// Releasing a frame that is due, at this time.
    Release(u64),
    /// This query, for this time if one is given.
    Query(Option<u64>, Query),
    /// It can't be read.
    Bad(LineFault),
}

/// A secured frame that was received, and the plain part of its message, which a security entity
/// verified.
#[derive(Drop)]
pub(crate) struct VerifiedOctets {
    pub(crate) frame: Vec<u8>,
    pub(crate) plain: Vec<u8>,
}

/// A single-hop broadcast with media-dependent data of its own.
#[derive(Drop)]
pub(crate) struct ShbWithMedia {
    pub(crate) request: OwnedShbRequest,
    pub(crate) media: [u8; 4],
}

/// What a line asks for, and its `id`, if it has a valid one.
#[derive(Drop)]
pub(crate) struct LineRequest {
    pub(crate) id: Option<Id>,
    pub(crate) request: Request,
    /// Whether its answer may have a secured frame: its word is `seal` or `release`, or `receive` and
    /// it has a key `plain`.
    pub(crate) secured: bool,
}
