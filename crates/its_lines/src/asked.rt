//! What a line asks for, in short, and the right that it needs.

ghost use Rattle.std.specs.Prelude.{◌≡◌, ◌<◌, ◌↔◌, IsTrue};
ghost use Rattle.std.specs.Int.Bits.{bit_and};
ghost use Rattle.its_lines.specs.Asked.{IsAllowed, asked_of, own_port, own_right, own_verb};
ghost use Rattle.its_lines.specs.Asked.{payload_length, query_word, right_bit, right_of};

use crate::request::{Query, Request};
use crate::word::LineWord;
use its_station::{Call, OwnCall};
use its_words::keys::Verb;

/// What a line needs a right for. Queries need none.
#[derive(Clone, Copy, Debug, PartialEq, Eq)]
pub enum Right {
    /// To send a packet of the station's own: `shb`, `gbc`, `gac`, and `tick`.
    Send,
    /// To receive a frame: `receive`.
    Receive,
    /// To move the station: `move`.
    Move,
    /// To open and close ports: `open`, `close`.
    Ports,
    /// To restart the station: `restart`.
    Restart,
}

impl Right {
    /// Returns the bit of this right in `Rights`.
    fn bit(self) -> u32
        ensures { result ≡ right_bit self }
    {
        match self {
            Right::Send => 1,
            Right::Receive => 2,
            Right::Move => 4,
            Right::Ports => 8,
            Right::Restart => 16,
        }
    }
}

/// The rights that a line has, a bit each: 1 for `Right::Send`, 2 for `Right::Receive`, 4 for
/// `Right::Move`, 8 for `Right::Ports`, 16 for `Right::Restart`. Other bits mean nothing.
#[derive(Clone, Copy, Debug, PartialEq, Eq)]
pub struct Rights {
    /// The sum of the bits.
    pub bits: u32,
}

impl Rights {
    /// Returns whether what a line asks for is allowed.
    pub(crate) fn allow(self, request: &Request) -> bool
        ensures { IsTrue result ↔ IsAllowed self request.now }
    {
        match right_of(request) {
            Some(right) => self.has(right),
            None => true,
        }
    }

    /// Returns whether a right is among these.
    fn has(self, right: Right) -> bool
        ensures { IsTrue result ↔ 0 < bit_and self.bits (right_bit right) }
    {
        0 < self.bits & right.bit()
    }
}

/// What a line asks for, in short.
#[derive(Clone, Copy, Debug, PartialEq, Eq)]
pub struct Asked {
    /// The word under `do`. `None` if the line is blank or can't be read.
    pub word: Option<LineWord>,
    /// The port that it opens or closes, or to which it sends.
    pub port: Option<u16>,
    /// The length of the payload that it sends, in octets; otherwise 0.
    pub payload_length: usize,
}

impl Asked {
    /// Returns what a request asks for, in short.
    pub(crate) fn of(request: &Request) -> Asked
        ensures { result ≡ asked_of request.now }
    {
        match request {
            Request::Nothing | Request::Bad(_) => Asked {
                word: None,
                port: None,
                payload_length: 0,
            },
            Request::Call(_, Call::Own(call)) => Asked {
                word: Some(LineWord::Own(own_verb(call))),
                port: own_port(call),
                payload_length: own_payload_length(call),
            },
            Request::Call(_, Call::Receive(_)) | Request::Verified(_, _) => Asked {
                word: Some(LineWord::Receive),
                port: None,
                payload_length: 0,
            },
            Request::Shb(_, shb) => Asked {
                word: Some(LineWord::Own(Verb::Shb)),
                port: Some(shb.request.port),
                payload_length: shb.request.payload.len(),
            },
            Request::Release(_) => Asked {
                word: Some(LineWord::Release),
                port: None,
                payload_length: 0,
            },
            Request::Query(_, query) => Asked {
                word: Some(query_word(query)),
                port: None,
                payload_length: 0,
            },
        }
    }
}

/// Returns the right that a request needs. `None` if it needs none.
fn right_of(request: &Request) -> Option<Right>
    ensures { result ≡ right_of request.now }
{
    match request {
        Request::Call(_, Call::Own(call)) => Some(own_right(call)),
        Request::Call(_, Call::Receive(_)) | Request::Verified(_, _) => Some(Right::Receive),
        Request::Shb(_, _) => Some(Right::Send),
        Request::Nothing | Request::Release(_) | Request::Query(_, _) | Request::Bad(_) => None,
    }
}

fn own_right(call: &OwnCall) -> Right
    ensures { result ≡ own_right call.now }
{
    match call {
        OwnCall::MoveTo { .. } => Right::Move,
        OwnCall::Open(_) | OwnCall::Close(_) => Right::Ports,
        OwnCall::Restart(_) => Right::Restart,
        OwnCall::Tick(_)
        | OwnCall::SendShb(_)
        | OwnCall::SendGeobroadcast(_)
        | OwnCall::SendGeoanycast(_) => Right::Send,
    }
}

fn own_verb(call: &OwnCall) -> Verb
    ensures { result ≡ own_verb call.now }
{
    match call {
        OwnCall::MoveTo { .. } => Verb::Move,
        OwnCall::Open(_) => Verb::Open,
        OwnCall::Close(_) => Verb::Close,
        OwnCall::Tick(_) => Verb::Tick,
        OwnCall::SendShb(_) => Verb::Shb,
        OwnCall::SendGeobroadcast(_) => Verb::Gbc,
        OwnCall::SendGeoanycast(_) => Verb::Gac,
        OwnCall::Restart(_) => Verb::Restart,
    }
}

fn own_port(call: &OwnCall) -> Option<u16>
    ensures { result ≡ own_port call.now }
{
    match call {
        OwnCall::Open(port) | OwnCall::Close(port) => Some(*port),
        OwnCall::SendShb(r) => Some(r.port),
        OwnCall::SendGeobroadcast(r) | OwnCall::SendGeoanycast(r) => Some(r.port),
        OwnCall::MoveTo { .. } | OwnCall::Tick(_) | OwnCall::Restart(_) => None,
    }
}

fn own_payload_length(call: &OwnCall) -> usize
    ensures { result ≡ payload_length call.now }
{
    match call {
        OwnCall::SendShb(r) => r.payload.len(),
        OwnCall::SendGeobroadcast(r) | OwnCall::SendGeoanycast(r) => r.payload.len(),
        OwnCall::MoveTo { .. }
        | OwnCall::Open(_)
        | OwnCall::Close(_)
        | OwnCall::Tick(_)
        | OwnCall::Restart(_) => 0,
    }
}

fn query_word(query: &Query) -> LineWord
    ensures { result ≡ query_word query.now }
{
    match query {
        Query::NextBeacon(_) => LineWord::NextBeacon,
        Query::Neighbours(_) => LineWord::Neighbours,
        Query::LookUp(_) => LineWord::LookUp,
        Query::ReadFrame(_) => LineWord::ReadFrame,
        Query::Counts => LineWord::Counts,
        Query::NextDue => LineWord::NextDue,
        Query::Seal { .. } => LineWord::Seal,
    }
}
