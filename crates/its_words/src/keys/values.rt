//! The values under keys, in the ranges of the keys.

ghost use Rattle.std.specs.Prelude.{◌≡◌, ◌≤ℤ◌, ◌⊎◌, pos, negsuc, Bool, ℕ, List, IfOk, IfErr};
ghost use Rattle.std.specs.Prelude.{OnErr, length};
ghost use Rattle.its_words.specs.Faults.{IsFaultOf};
ghost use Rattle.its_words.specs.Fields.{AreOctets, IsNumber, IsPlace, IsText, IsTruth, IsUntaken};
ghost use Rattle.its_words.specs.Fields.{IsWhole, IsWholeOr};
ghost use Rattle.its_words.specs.Keys.{IsTakenBy, least_of, most_of};

use crate::keys::fault::KeyFault;
use crate::keys::fields::Fields;
use crate::keys::key::Key;
use crate::keys::wrong::Wrong;
use its_gnvalue::Place;
use std::alloc::Global;

/// Returns the fault of a key that has no value of the kind that it takes: `Wrong::Kind` if it has
/// a value of another kind, otherwise `Wrong::Missing`.
pub fn unlike<F: Fields>(fields: &F, key: Key) -> KeyFault
    ensures { IsFaultOf key result }
{
    let wrong = if fields.has(key.word()) {
        Wrong::Kind
    } else {
        Wrong::Missing
    };
    KeyFault::Refused(key, wrong)
}

/// Returns the whole number under a key, in the range of that key (`Key::least` to `Key::most`).
///
/// Refuses a key that is missing, and one whose value is of another kind or out of that range.
pub fn whole<F: Fields>(fields: &F, key: Key) -> Result<i64, KeyFault>
    ensures taken { IfOk result (IsTakenBy key) }
    ensures stands { IfOk result (IsWhole (F.values fields.now) key) }
    ensures fault { IfErr result (IsFaultOf key) }
    ensures bad { OnErr result (IsUntaken (F.values fields.now) key) }
{
    match fields.integer(key.word()) {
        Some(number) if key.least() <= number && number <= key.most() => Ok(number),
        Some(number) => Err(KeyFault::Refused(key, Wrong::Range(number))),
        None => Err(unlike(fields, key)),
    }
}

/// Returns the whole number under a key. The range of the key has to lie in 0 to 65535.
///
/// Refuses what `whole` refuses.
pub fn number<F: Fields>(fields: &F, key: Key) -> Result<u16, KeyFault>
    requires { (pos 0 ≤ℤ least_of key) × (most_of key ≤ℤ pos 65535) }
    ensures taken { IfOk result (λ n. IsTakenBy key (pos n)) }
    ensures stands { IfOk result (IsNumber (F.values fields.now) key) }
    ensures fault { IfErr result (IsFaultOf key) }
    ensures bad { OnErr result (IsUntaken (F.values fields.now) key) }
{
    Ok(whole(fields, key)? as u16)
}

/// Returns the whole number under a key. The range of the key has to lie in 0 to 255.
///
/// Refuses what `whole` refuses.
pub fn octet<F: Fields>(fields: &F, key: Key) -> Result<u8, KeyFault>
    requires { (pos 0 ≤ℤ least_of key) × (most_of key ≤ℤ pos 255) }
    ensures taken { IfOk result (λ n. IsTakenBy key (pos n)) }
    ensures stands { IfOk result (IsNumber (F.values fields.now) key) }
    ensures fault { IfErr result (IsFaultOf key) }
    ensures bad { OnErr result (IsUntaken (F.values fields.now) key) }
{
    Ok(whole(fields, key)? as u8)
}

/// Returns the whole number under a key, or `other` if the key is missing. `other` has to be in the
/// range of the key.
///
/// Refuses what `whole` refuses, except a missing key.
pub fn whole_or<F: Fields>(fields: &F, key: Key, other: i64) -> Result<i64, KeyFault>
    requires { IsTakenBy key other }
    ensures taken { IfOk result (IsTakenBy key) }
    ensures says { IfOk result (IsWholeOr (F.values fields.now) key other) }
    ensures fault { IfErr result (IsFaultOf key) }
{
    if fields.has(key.word()) {
        whole(fields, key)
    } else {
        Ok(other)
    }
}

/// Returns true or false under a key.
///
/// Refuses a key that is missing, and one whose value is of another kind.
pub fn truth<F: Fields>(fields: &F, key: Key) -> Result<bool, KeyFault>
    ensures stands { IfOk result (IsTruth (F.values fields.now) key) }
    ensures bad { OnErr result ((truth : Bool) → ¬ IsTruth (F.values fields.now) key truth) }
    ensures fault { IfErr result (IsFaultOf key) }
{
    fields.truth(key.word()).ok_or_else(|| unlike(fields, key))
}

/// Returns the text under a key.
///
/// Refuses a key that is missing, and one whose value is of another kind.
pub fn text<'a, F: Fields>(fields: &'a F, key: Key) -> Result<&'a str, KeyFault>
    ensures stands { IfOk result (λ text. IsText (F.values fields.now) key text.now) }
    ensures bad { OnErr result ((text : List ℕ) → ¬ IsText (F.values fields.now) key text) }
    ensures fault { IfErr result (IsFaultOf key) }
{
    match fields.text(key.word()) {
        Some(text) => Ok(text),
        None => Err(unlike(fields, key)),
    }
}

/// Returns the octets of the hexadecimal digits under a key, in either letter case.
///
/// Refuses what `text` refuses, and a text that is not an even number of such digits. `OutOfMemory`
/// if an allocation failed.
pub fn octets<F: Fields>(alloc: Global, fields: &F, key: Key) -> Result<Vec<u8>, KeyFault>
    ensures stand { IfOk result (λ octets. AreOctets (F.values fields.now) key octets.items) }
    ensures bad { IfErr result (λ fault. (fault ≡ KeyFault.OutOfMemory)
        ⊎ ((octets : List ℕ) → ¬ AreOctets (F.values fields.now) key octets)) }
    ensures fault { IfErr result (IsFaultOf key) }
{
    match hex::decode(alloc, text(fields, key)?) {
        Ok(octets) => Ok(octets),
        Err(hex::FromHexError::OutOfMemory) => Err(KeyFault::OutOfMemory),
        Err(_) => Err(KeyFault::Refused(key, Wrong::Value)),
    }
}

/// Writes the octets of the hexadecimal digits under a key, in either letter case, into a buffer,
/// which they have to fill. If the key is refused, the buffer has any content.
///
/// Refuses what `text` refuses, and a text that is not two such digits for each octet of the
/// buffer.
#[tactic(auto, using(crate::proofs::Digits::octets_of))]
pub fn octets_into<F: Fields>(fields: &F, key: Key, room: &mut [u8]) -> Result<(), KeyFault>
    ensures stand { IfOk result (λ _. AreOctets (F.values fields.now) key room.new) }
    ensures count { length room.new ≡ length room.old }
    ensures fault { IfErr result (IsFaultOf key) }
{
    match hex::decode_to_slice(text(fields, key)?, room) {
        Ok(()) => Ok(()),
        Err(_) => Err(KeyFault::Refused(key, Wrong::Value)),
    }
}

/// Returns the position of the latitude and the longitude under two keys, in tenths of a
/// microdegree. The ranges of the keys have to lie in 90 and 180 degrees either way. The latitude
/// is checked first.
///
/// Refuses what `whole` refuses of each key.
pub fn place<F: Fields>(fields: &F, lat_key: Key, lon_key: Key) -> Result<Place, KeyFault>
    requires latitude { (negsuc 899999999 ≤ℤ least_of lat_key)
        × (most_of lat_key ≤ℤ pos 900000000) }
    requires longitude { (negsuc 1799999999 ≤ℤ least_of lon_key)
        × (most_of lon_key ≤ℤ pos 1800000000) }
    ensures stands { IfOk result (IsPlace (F.values fields.now) lat_key lon_key) }
    ensures fault { IfErr result (λ fault. IsFaultOf lat_key fault ⊎ IsFaultOf lon_key fault) }
    ensures bad { IfErr result (λ fault.
        (IsFaultOf lat_key fault × IsUntaken (F.values fields.now) lat_key)
        ⊎ (IsFaultOf lon_key fault × IsUntaken (F.values fields.now) lon_key)) }
{
    let lat = coordinate(fields, lat_key)?;
    let lon = coordinate(fields, lon_key)?;
    Ok(Place::within(lat, lon))
}

/// Returns the latitude or the longitude under a key, in tenths of a microdegree.
fn coordinate<F: Fields>(fields: &F, key: Key) -> Result<i32, KeyFault>
    requires { (negsuc 1799999999 ≤ℤ least_of key) × (most_of key ≤ℤ pos 1800000000) }
    ensures taken { IfOk result (IsTakenBy key) }
    ensures stands { IfOk result (IsWhole (F.values fields.now) key) }
    ensures fault { IfErr result (IsFaultOf key) }
    ensures bad { OnErr result (IsUntaken (F.values fields.now) key) }
{
    Ok(whole(fields, key)? as i32)
}
