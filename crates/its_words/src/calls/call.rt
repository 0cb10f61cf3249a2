//! What a station's own applications ask of it, by its word and the keys of that word.

ghost use Rattle.std.specs.Prelude.{◌≡◌, ◌≢◌, IfOk, IfErr, codes};
ghost use Rattle.its_gnvalue.specs.Values.{IsSpeed};
ghost use Rattle.its_model.specs.World.What.{Calls};
ghost use Rattle.its_station.specs.Requests.{owned_shb};
ghost use Rattle.its_station.specs.Runs.{IsOwnInRange, own_of};
ghost use Rattle.its_words.specs.Calls.{own_speed};
ghost use Rattle.its_words.specs.Faults.{IsWhatFault};
ghost use Rattle.its_words.specs.Fields.{IsText};
ghost use Rattle.its_words.specs.Reading.{IsBadOf, IsBadWord, SaysOwn, SaysShb, SaysWhat};
ghost use Rattle.its_words.specs.Verbs.{own_verb, verb_word};
ghost use Rattle.its_words.specs.declared.keys.key.Key.TheVariants as keys;
ghost use Rattle.its_words.specs.declared.keys.verb.Verb.TheVariants as verbs;

use crate::calls::geocast::read_geocast;
use crate::keys::{
    Fields, Key, KeyFault, Verb, Wrong, number, octet, octets, place, text, truth, whole,
};
use its_gnvalue::TrafficClass;
use its_station::{OwnCall, OwnedShbRequest};
use std::alloc::Global;

/// Reads a call of the applications of a station: the word under `do`, and then the keys of that
/// word, checked in this order.
///
/// The first key that is missing, of another kind or out of range is refused. The words for a
/// delivery and for a leave are refused.
///
/// - `says` (`SaysWhat`): from fields of any notation: the call is what the word under `do` and the
///   keys of that word say.
/// - `range`: the call is in the range of a station's calls.
/// - `fault`, `bad` (`IsBadOf`): the key that is refused has no value that it takes. It is never
///   that of the time.
/// - `deliver` (`IsBadWord`): if the word is that for a delivery, it is refused.
#[tactic(auto, using(crate::proofs::Bad::bad_of, crate::proofs::Bad::bad_word, crate::proofs::Bad::bad_word_of, crate::proofs::Bad::is_deliver, crate::proofs::Bad::no_deliver))]
pub fn read_call<F: Fields>(alloc: Global, fields: &F) -> Result<OwnCall, KeyFault>
    ensures says { IfOk result (λ call. SaysWhat (F.values fields.now) (Calls (own_of call))) }
    ensures range { IfOk result IsOwnInRange }
    ensures fault { IfErr result IsWhatFault }
    ensures bad { (¬ IsText (F.values fields.now) keys.Do (codes "deliver"))
        → IfErr result (IsBadOf (F.values fields.now)) }
    ensures deliver { IsText (F.values fields.now) keys.Do (codes "deliver")
        → IsBadWord result }
{
    match Verb::named(text(fields, Key::Do)?) {
        Some(verb) => read_keys(alloc, fields, verb),
        None => Err(KeyFault::Refused(Key::Do, Wrong::Value)),
    }
}

/// Reads the keys of a call of the applications, by the word for it that was found under `do`.
/// Refuses the words for a delivery and for a leave.
///
/// The word has to be that under `do` (`word`).
///
/// - `verb`, `says` (`SaysOwn`): the call is that of the word, and what its keys say.
/// - `range`, `speed`: the call is in the range of a station's calls, and its speed in that of a
///   speed.
/// - `fault`, `bad` (`IsBadOf`): the key that is refused has no value that it takes. It is never
///   that of the time.
/// - `deliver` (`IsBadWord`): if the word is that for a delivery, it is refused.
#[tactic(auto, using(crate::proofs::Bad::bad_of, crate::proofs::Bad::bad_leave))]
pub fn read_keys<F: Fields>(alloc: Global, fields: &F, verb: Verb) -> Result<OwnCall, KeyFault>
    requires word { IsText (F.values fields.now) keys.Do (verb_word verb) }
    ensures verb { IfOk result (λ call. own_verb (own_of call) ≡ verb) }
    ensures says { IfOk result (λ call. SaysOwn (F.values fields.now) (own_of call)) }
    ensures range { IfOk result IsOwnInRange }
    ensures speed { IfOk result (λ call. IsSpeed (own_speed call)) }
    ensures fault { IfErr result IsWhatFault }
    ensures bad { verb ≢ verbs.Deliver → IfErr result (IsBadOf (F.values fields.now)) }
    ensures deliver { verb ≡ verbs.Deliver → IsBadWord result }
{
    match verb {
        Verb::Move => read_move(fields),
        Verb::Open => Ok(OwnCall::Open(number(fields, Key::Port)?)),
        Verb::Close => Ok(OwnCall::Close(number(fields, Key::Port)?)),
        Verb::Tick => Ok(OwnCall::Tick(number(fields, Key::Jitter)?)),
        Verb::Shb => Ok(OwnCall::SendShb(read_single_hop(alloc, fields)?)),
        Verb::Gbc => Ok(OwnCall::SendGeobroadcast(read_geocast(alloc, fields)?)),
        Verb::Gac => Ok(OwnCall::SendGeoanycast(read_geocast(alloc, fields)?)),
        Verb::Restart => Ok(OwnCall::Restart(number(fields, Key::Number)?)),
        Verb::Deliver | Verb::Leave => Err(KeyFault::Refused(Key::Do, Wrong::Value)),
    }
}

/// Reads a move: `lat`, `lon`, `pai`, `speed`, `heading`, checked in this order.
#[tactic(auto, using(crate::proofs::Bad::bad_of))]
fn read_move<F: Fields>(fields: &F) -> Result<OwnCall, KeyFault>
    ensures verb { IfOk result (λ call. own_verb (own_of call) ≡ verbs.Move) }
    ensures says { IfOk result (λ call. SaysOwn (F.values fields.now) (own_of call)) }
    ensures range { IfOk result IsOwnInRange }
    ensures speed { IfOk result (λ call. IsSpeed (own_speed call)) }
    ensures fault { IfErr result IsWhatFault }
    ensures bad { IfErr result (IsBadOf (F.values fields.now)) }
{
    Ok(OwnCall::MoveTo {
        place: place(fields, Key::Lat, Key::Lon)?,
        pai: truth(fields, Key::Pai)?,
        speed: whole(fields, Key::Speed)? as i16,
        heading: number(fields, Key::Heading)?,
    })
}

/// Reads a single-hop broadcast: `port`, `info`, `tc`, `payload`, checked in this order.
///
/// The first key that is missing, of another kind or out of range is refused.
///
/// - `says` (`SaysShb`): the request is what the keys say.
/// - `fault`, `bad` (`IsBadOf`): the key that is refused has no value that it takes. It is never
///   that of the time.
#[tactic(auto, using(crate::proofs::Bad::bad_of))]
pub fn read_single_hop<F: Fields>(alloc: Global, fields: &F) -> Result<OwnedShbRequest, KeyFault>
    ensures says { IfOk result (λ r. SaysShb (F.values fields.now) (owned_shb r)) }
    ensures fault { IfErr result IsWhatFault }
    ensures bad { IfErr result (IsBadOf (F.values fields.now)) }
{
    Ok(OwnedShbRequest {
        port: number(fields, Key::Port)?,
        info: number(fields, Key::Info)?,
        class: TrafficClass::from_octet(octet(fields, Key::Tc)?),
        payload: octets(alloc, fields, Key::Payload)?,
    })
}
