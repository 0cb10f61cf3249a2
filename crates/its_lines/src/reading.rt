//! Reading what a line asks for.

ghost use Rattle.std.specs.Prelude.{◌≡◌, ◌≢◌, ◌↔◌, ◌⊎◌, ℕ, List, IfOk, IfErr, IfSome, IsSome};
ghost use Rattle.std.specs.Prelude.{IfNone, OnErr, None, Some, IsTrue, IsFalse};
ghost use Rattle.std.specs.Prelude.{codes};
ghost use Rattle.std.specs.Bool.{OnTrue};
ghost use Rattle.serde_json.specs.View.{view};
ghost use Rattle.its_station.specs.Runs.{IsInRange};
ghost use Rattle.its_lines.specs.Requests.{Asks, AsksCall, AsksIn, AsksOf, AsksQuery, IsAskedIn};
ghost use Rattle.its_lines.specs.Requests.{IsAskedAt, IsBadOf, IsBadCallKeyOf, IsFrameKey, IsFrameText, IsId};
ghost use Rattle.its_lines.specs.Requests.{IsIdFault, IsJitter, IsJsonObject, IsMomentFault, IsMomentOf, IsObject};
ghost use Rattle.its_lines.specs.Requests.{IsOfQuery, IsQueryFault, IsQueryWord, IsToldAs, IsWord, IsWordUnder};
ghost use Rattle.its_lines.specs.Requests.{line_of};
ghost use Rattle.its_lines.specs.Requests.{AsksSeal, AsksSecured, AsksSecuredIn, AsksVerified};
ghost use Rattle.its_lines.specs.Requests.{ComesVerified, IsNoOctets, IsOctetsText, IsOfKey};
ghost use Rattle.its_lines.specs.Requests.{IsVerifiedBad, values_in};
ghost use Rattle.its_lines.specs.Requests.{AsksShb, BringsMedia, IsMediaFault, IsMediaText, IsOfQueries};
ghost use Rattle.its_lines.specs.Requests.{IsShbBad};
ghost use Rattle.its_lines.specs.Words.{query_key};

use crate::lines::is_blank;
use crate::members::Members;
use crate::request::{
    Id, LineFault, LineRequest, Query, QueryKey, Request, ShbWithMedia, VerifiedOctets,
};
use crate::word::LineWord;
use its_gnvalue::GnAddress;
use its_station::Call;
use its_words::calls;
use its_words::keys::{Fields, Key, KeyFault, Verb, Wrong};
use serde_json::Value;
use std::alloc::{AllocError, Global};

/// The longest text of an `id`, in octets.
const LONGEST_ID: usize = 128;

/// A number of an `id` is nearer to 0 than this. Others are not exact in every reader of JSON.
const ID_BOUND: u64 = 1 << 53;

/// Why a line can't be read.
#[derive(Clone, Copy)]
pub(crate) enum ReadFault {
    Bad(LineFault),
    OutOfMemory,
}

/// Why the octets of hexadecimal digits can't be read.
#[derive(Clone, Copy)]
pub(crate) enum OctetsFault {
    Bad(Wrong),
    OutOfMemory,
}

impl From<KeyFault> for ReadFault {
    ghost use Rattle.its_lines.specs.Requests.{read_fault_of};

    ghost from_gives = { λ fault read. read ≡ read_fault_of fault };

    fn from(fault: KeyFault) -> ReadFault {
        match fault {
            KeyFault::Refused(key, wrong) => ReadFault::Bad(LineFault::Key(key, wrong)),
            KeyFault::OutOfMemory => ReadFault::OutOfMemory,
        }
    }
}

/// Reads what a line asks for from its octets, which are the first ones of a `longer` line. If
/// `now` is given, it is the time of the line, whatever is under `at`. A blank line asks for
/// nothing. A `longer` line is never blank. Fails if an allocation failed.
pub(crate) fn read_request(
    alloc: Global,
    octets: &[u8],
    longer: bool,
    now: Option<u64>,
) -> Result<LineRequest, AllocError>
    ensures asks { IfOk result (λ r. Asks now (line_of octets.now longer) r.id r.request) }
    ensures range { IfOk result (λ r. IsAskedIn IsInRange r.request) }
    ensures secured { IfOk result (λ r.
        IsTrue r.secured ↔ AsksSecured (line_of octets.now longer)) }
{
    if longer {
        return Ok(LineRequest::of_none(Request::Bad(LineFault::NotJson)));
    }
    if is_blank(octets) {
        return Ok(LineRequest::of_none(Request::Nothing));
    }
    match read_object(alloc, octets)? {
        Some(object) => read_members(alloc, &Members(&object), now),
        None => Ok(LineRequest::of_none(Request::Bad(LineFault::NotJson))),
    }
}

impl LineRequest {
    /// Returns the request of a line that is not an object.
    fn of_none(request: Request) -> LineRequest
        ensures id { result.id ≡ None }
        ensures request { result.request ≡ request }
        ensures secured { IsFalse result.secured }
    {
        LineRequest {
            id: None,
            request,
            secured: false,
        }
    }
}

/// Reads one JSON object. `None` if the octets are not a JSON object.
fn read_object(alloc: Global, octets: &[u8]) -> Result<Option<Value>, AllocError>
    ensures found { IfOk result (λ found. IsSome found ↔ IsJsonObject octets.now) }
    ensures value { IfOk result (λ found.
        IfSome found (λ value. IsObject octets.now (view value))) }
{
    match Value::from_slice(alloc, octets) {
        Ok(value) => Ok(if value.is_object() { Some(value) } else { None }),
        Err(error) if error.is_memory() => Err(AllocError),
        Err(_) => Ok(None),
    }
}

/// Reads the members of a line: `id`, `at`, `do`, and then the keys of the word, checked in this
/// order.
fn read_members(
    alloc: Global,
    members: &Members<'_>,
    now: Option<u64>,
) -> Result<LineRequest, AllocError>
    ensures asks { IfOk result (λ r. AsksOf now (view members.now.0.now) r.id r.request) }
    ensures range { IfOk result (λ r. IsAskedIn IsInRange r.request) }
    ensures secured { IfOk result (λ r.
        IsTrue r.secured ↔ AsksSecuredIn (view members.now.0.now)) }
{
    let word = word_under(members);
    let secured = asks_secured(members, word);
    match read_id(alloc, members) {
        Ok(id) => match read_call_or_query(alloc, members, word, now) {
            Ok(request) => Ok(LineRequest {
                id,
                request,
                secured,
            }),
            Err(ReadFault::Bad(fault)) => Ok(LineRequest {
                id,
                request: Request::Bad(fault),
                secured,
            }),
            Err(ReadFault::OutOfMemory) => Err(AllocError),
        },
        Err(ReadFault::Bad(fault)) => Ok(LineRequest {
            id: None,
            request: Request::Bad(fault),
            secured,
        }),
        Err(ReadFault::OutOfMemory) => Err(AllocError),
    }
}

/// Returns whether the answer to a line of this word may have a secured frame.
fn asks_secured(members: &Members<'_>, word: Option<LineWord>) -> bool
    requires { IsWordUnder (view members.now.0.now) word }
    ensures { IsTrue result ↔ AsksSecuredIn (view members.now.0.now) }
{
    match word {
        Some(LineWord::Seal | LineWord::Release) => true,
        Some(LineWord::Receive) => members.has("plain"),
        _ => false,
    }
}

/// Returns whether the line is a frame with the plain part that a security entity verified.
fn comes_verified(members: &Members<'_>, word: Option<LineWord>) -> bool
    requires { IsWordUnder (view members.now.0.now) word }
    ensures { IsTrue result ↔ ComesVerified (view members.now.0.now) }
{
    match word {
        Some(LineWord::Receive) => members.has("plain"),
        _ => false,
    }
}

/// Reads the `id` of a line, if there is one.
fn read_id(alloc: Global, members: &Members<'_>) -> Result<Option<Id>, ReadFault>
    ensures id { IfOk result (IsId (view members.now.0.now)) }
    ensures fault { IfErr result (IsIdFault (view members.now.0.now)) }
{
    if !members.has("id") {
        return Ok(None);
    }
    if let Some(text) = members.text("id") {
        if text.len() <= LONGEST_ID {
            return match String::from_str(alloc, text) {
                Ok(text) => Ok(Some(Id::Text(text))),
                Err(_) => Err(ReadFault::OutOfMemory),
            };
        }
    }
    match members.integer("id") {
        Some(number) if number.unsigned_abs() < ID_BOUND => Ok(Some(Id::Number(number))),
        _ => Err(ReadFault::Bad(LineFault::Id)),
    }
}

/// Reads the time and the keys of the word under `do`. A query needs no time.
#[tactic(auto, using(crate::proofs::Read::bad_told, crate::proofs::Secured::bad_verified, crate::proofs::Media::bad_shb))]
fn read_call_or_query(
    alloc: Global,
    members: &Members<'_>,
    word: Option<LineWord>,
    now: Option<u64>,
) -> Result<Request, ReadFault>
    requires { IsWordUnder (view members.now.0.now) word }
    ensures asks { IfOk result (AsksIn now (view members.now.0.now)) }
    ensures range { IfOk result (IsAskedIn IsInRange) }
    ensures fault { IfErr result (IsBadOf now (view members.now.0.now)) }
{
    let at = read_moment(members, now)?;
    if let Some(query) = read_query(alloc, members, word)? {
        return Ok(Request::Query(at, query));
    }
    match at {
        Some(moment) if comes_verified(members, word) => {
            Ok(Request::Verified(moment, read_verified(alloc, members)?))
        }
        Some(moment) if is_release(word) => Ok(Request::Release(moment)),
        Some(moment) if brings_media(members, word) => {
            Ok(Request::Shb(moment, read_shb(alloc, members)?))
        }
        Some(moment) => match read_call(alloc, members, word) {
            Ok(call) => Ok(Request::Call(moment, call)),
            Err(fault) => Err(with_word_meant(alloc, members, fault)),
        },
        None => Err(ReadFault::Bad(LineFault::Key(Key::At, Wrong::Missing))),
    }
}

/// Returns whether a word is the one of a release.
fn is_release(word: Option<LineWord>) -> bool
    ensures { OnTrue result (word ≡ Some LineWord.Release) }
{
    match word {
        Some(LineWord::Release) => true,
        _ => false,
    }
}

/// Reads a secured frame that was received, and its plain part.
fn read_verified(alloc: Global, members: &Members<'_>) -> Result<VerifiedOctets, ReadFault>
    requires { ComesVerified (view members.now.0.now) }
    ensures octets { IfOk result (AsksVerified (view members.now.0.now)) }
    ensures fault { IfErr result (IsVerifiedBad (view members.now.0.now)) }
{
    let frame = read_frame(alloc, members)?;
    match read_octets(alloc, members, QueryKey::Plain) {
        Ok(plain) => Ok(VerifiedOctets { frame, plain }),
        Err(fault) => Err(fault),
    }
}

/// Returns whether the line is a single-hop broadcast with media-dependent data.
fn brings_media(members: &Members<'_>, word: Option<LineWord>) -> bool
    requires { IsWordUnder (view members.now.0.now) word }
    ensures { IsTrue result ↔ BringsMedia (view members.now.0.now) }
{
    match word {
        Some(LineWord::Own(Verb::Shb)) => members.has("media"),
        _ => false,
    }
}

/// Reads a single-hop broadcast with media-dependent data: its keys, and then `media`.
#[tactic(auto, using(crate::proofs::Media::keys_bad, crate::proofs::Media::media_bad))]
fn read_shb(alloc: Global, members: &Members<'_>) -> Result<ShbWithMedia, ReadFault>
    requires { BringsMedia (view members.now.0.now) }
    ensures shb { IfOk result (AsksShb (view members.now.0.now)) }
    ensures fault { IfErr result (IsShbBad (view members.now.0.now)) }
{
    let request = calls::read_single_hop(alloc, members)?;
    match read_media(members) {
        Ok(media) => Ok(ShbWithMedia { request, media }),
        Err(fault) => Err(fault),
    }
}

/// Reads the media-dependent data of a single-hop broadcast, in either letter case.
fn read_media(members: &Members<'_>) -> Result<[u8; 4], ReadFault>
    ensures media { IfOk result (IsMediaText (view members.now.0.now)) }
    ensures fault { IfErr result (IsMediaFault (view members.now.0.now)) }
{
    let Some(digits) = members.text("media") else {
        return Err(bad(QueryKey::Media, unlike(members, "media")));
    };
    let mut media = [0u8; 4];
    match hex::decode_to_slice(digits, &mut media) {
        Ok(()) => Ok(media),
        Err(_) => Err(bad(QueryKey::Media, Wrong::Value)),
    }
}

/// Returns the fault of a call. If the word under `do` is unknown, the fault has the word that may
/// be meant.
fn with_word_meant(alloc: Global, members: &Members<'_>, fault: KeyFault) -> ReadFault
    ensures { IsToldAs fault result }
{
    if !matches!(fault, KeyFault::Refused(Key::Do, Wrong::Value)) {
        return ReadFault::from(fault);
    }
    match LineWord::meant_by(alloc, members.text("do").unwrap_or("")) {
        Ok(Some(meant)) => ReadFault::Bad(LineFault::Word(meant)),
        Ok(None) => ReadFault::from(fault),
        Err(AllocError) => ReadFault::OutOfMemory,
    }
}

/// Reads the time under `at`, if there is one. `now` replaces it.
fn read_moment(members: &Members<'_>, now: Option<u64>) -> Result<Option<u64>, KeyFault>
    ensures at { IfOk result (IsAskedAt now (view members.now.0.now)) }
    ensures moment { IfOk result (λ at. IfSome at (IsMomentOf now (view members.now.0.now))) }
    ensures none { IfOk result (λ at. IfNone at
        ((moment : ℕ) → ¬ IsMomentOf now (view members.now.0.now) moment)) }
    ensures bad { OnErr result ((moment : ℕ) → ¬ IsMomentOf now (view members.now.0.now) moment) }
    ensures key { IfErr result IsMomentFault }
{
    if now.is_some() {
        return Ok(now);
    }
    if !members.has("at") {
        return Ok(None);
    }
    match members.integer("at") {
        Some(moment) if moment >= 0 => Ok(Some(moment as u64)),
        Some(moment) => Err(KeyFault::Refused(Key::At, Wrong::Range(moment))),
        None => Err(KeyFault::Refused(Key::At, Wrong::Kind)),
    }
}

/// Reads a query. `None` if the word is not that of a query.
fn read_query(
    alloc: Global,
    members: &Members<'_>,
    word: Option<LineWord>,
) -> Result<Option<Query>, ReadFault>
    requires { IsWordUnder (view members.now.0.now) word }
    ensures query { IfOk result (λ query. IfSome query (AsksQuery (view members.now.0.now))) }
    ensures none { IfOk result (λ query. IfNone query
        (¬ IsQueryWord (view members.now.0.now))) }
    ensures fault { IfErr result (IsQueryFault (view members.now.0.now)) }
{
    match word {
        Some(LineWord::NextBeacon) => Ok(Some(Query::NextBeacon(read_jitter(members)?))),
        Some(LineWord::Neighbours) => Ok(Some(Query::Neighbours(read_after(members)?))),
        Some(LineWord::LookUp) => {
            Ok(Some(Query::LookUp(read_address(members, QueryKey::Address)?)))
        }
        Some(LineWord::ReadFrame) => {
            let frame = read_octets(alloc, members, QueryKey::Frame)?;
            Ok(Some(Query::ReadFrame(frame)))
        }
        Some(LineWord::Counts) => Ok(Some(Query::Counts)),
        Some(LineWord::NextDue) => Ok(Some(Query::NextDue)),
        Some(LineWord::Seal) => Ok(Some(read_seal(alloc, members)?)),
        _ => Ok(None),
    }
}

/// Reads the frame and the message of `seal`.
fn read_seal(alloc: Global, members: &Members<'_>) -> Result<Query, ReadFault>
    ensures query { IfOk result (AsksSeal (view members.now.0.now)) }
    ensures fault { IfErr result IsOfQuery }
{
    let frame = read_octets(alloc, members, QueryKey::Frame)?;
    let message = read_octets(alloc, members, QueryKey::Message)?;
    Ok(Query::Seal { frame, message })
}

/// Returns the word under `do`, if it is a word that a line takes.
fn word_under(members: &Members<'_>) -> Option<LineWord>
    ensures { IsWordUnder (view members.now.0.now) result }
{
    LineWord::named(members.text("do")?)
}

/// Reads the jitter of a query.
fn read_jitter(members: &Members<'_>) -> Result<u16, ReadFault>
    ensures value { IfOk result (IsJitter (view members.now.0.now)) }
    ensures fault { IfErr result IsOfQuery }
{
    match members.integer("jitter") {
        Some(jitter) if 0 <= jitter && jitter <= 65535 => Ok(jitter as u16),
        Some(jitter) => Err(bad(QueryKey::Jitter, Wrong::Range(jitter))),
        None => Err(bad(QueryKey::Jitter, unlike(members, "jitter"))),
    }
}

/// Reads the address above which neighbours are asked for, if there is one.
fn read_after(members: &Members<'_>) -> Result<Option<GnAddress>, ReadFault>
    ensures fault { IfErr result IsOfQuery }
{
    if !members.has("after") {
        return Ok(None);
    }
    Ok(Some(read_address(members, QueryKey::After)?))
}

/// Reads an address of 16 hexadecimal digits, whose MID is not a group address.
fn read_address(members: &Members<'_>, key: QueryKey) -> Result<GnAddress, ReadFault>
    requires { IsOfQueries key }
    ensures fault { IfErr result IsOfQuery }
{
    let Some(digits) = members.text(key.word()) else {
        return Err(bad(key, unlike(members, key.word())));
    };
    let mut octets = [0u8; 8];
    if hex::decode_to_slice(digits, &mut octets).is_err() {
        return Err(bad(key, Wrong::Value));
    }
    match GnAddress::from_u64(u64::from_be_bytes(octets)) {
        Ok(address) => Ok(address),
        Err(_) => Err(bad(key, Wrong::Value)),
    }
}

/// Reads the octets under a key of a query.
fn read_octets(alloc: Global, members: &Members<'_>, key: QueryKey) -> Result<Vec<u8>, ReadFault>
    ensures octets { IfOk result (λ octets.
        IsOctetsText (query_key key) (view members.now.0.now) octets.items) }
    ensures fault { IfErr result (IsOfKey key (view members.now.0.now)) }
{
    match read_digits(alloc, members, key.word()) {
        Ok(octets) => Ok(octets),
        Err(OctetsFault::Bad(wrong)) => Err(bad(key, wrong)),
        Err(OctetsFault::OutOfMemory) => Err(ReadFault::OutOfMemory),
    }
}

/// Returns the fault of a key of a query.
fn bad(key: QueryKey, wrong: Wrong) -> ReadFault
    ensures { result ≡ ReadFault.Bad (LineFault.Query key wrong) }
{
    ReadFault::Bad(LineFault::Query(key, wrong))
}

/// Returns what is wrong under a word that has no value of the kind that it takes.
fn unlike(members: &Members<'_>, word: &str) -> Wrong {
    if members.has(word) {
        Wrong::Kind
    } else {
        Wrong::Missing
    }
}

/// Reads the call of a line: a frame that was received without a plain part, or a call of the
/// applications, which has only keys of an event of a scenario.
#[tactic(auto, using(crate::proofs::Own::asks_own, crate::proofs::Own::bad_call))]
fn read_call(alloc: Global, members: &Members<'_>, word: Option<LineWord>) -> Result<Call, KeyFault>
    requires word { IsWordUnder (view members.now.0.now) word }
    requires plain { ¬ ComesVerified (view members.now.0.now) }
    requires media { ¬ BringsMedia (view members.now.0.now) }
    ensures call { IfOk result (AsksCall (view members.now.0.now)) }
    ensures range { IfOk result IsInRange }
    ensures fault { IfErr result (IsBadCallKeyOf (view members.now.0.now)) }
{
    match word {
        Some(LineWord::Receive) => Ok(Call::Receive(read_frame(alloc, members)?)),
        _ => Ok(Call::Own(calls::read_call(alloc, members)?)),
    }
}

/// Reads the octets of the hexadecimal digits under `frame`, in either letter case.
fn read_frame(alloc: Global, members: &Members<'_>) -> Result<Vec<u8>, KeyFault>
    ensures frame { IfOk result (λ frame. IsFrameText (view members.now.0.now) frame.items) }
    ensures fault { IfErr result (λ fault. (fault ≡ KeyFault.OutOfMemory)
        ⊎ (IsFrameKey fault × ((frame : List ℕ)
        → ¬ IsFrameText (view members.now.0.now) frame))) }
{
    match read_digits(alloc, members, "frame") {
        Ok(octets) => Ok(octets),
        Err(OctetsFault::Bad(wrong)) => Err(KeyFault::Refused(Key::Frame, wrong)),
        Err(OctetsFault::OutOfMemory) => Err(KeyFault::OutOfMemory),
    }
}

/// Reads the octets of the hexadecimal digits under a word, in either letter case.
fn read_digits(alloc: Global, members: &Members<'_>, word: &str) -> Result<Vec<u8>, OctetsFault>
    ensures octets { IfOk result (λ octets.
        IsOctetsText word.now (view members.now.0.now) octets.items) }
    ensures fault { IfErr result (IsNoOctets word.now (view members.now.0.now)) }
{
    let Some(digits) = members.text(word) else {
        return Err(OctetsFault::Bad(unlike(members, word)));
    };
    match hex::decode(alloc, digits) {
        Ok(octets) => Ok(octets),
        Err(hex::FromHexError::OutOfMemory) => Err(OctetsFault::OutOfMemory),
        Err(_) => Err(OctetsFault::Bad(Wrong::Value)),
    }
}
