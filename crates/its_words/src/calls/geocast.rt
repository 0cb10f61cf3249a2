//! Geobroadcasts and geoanycasts, and their areas, by their keys.

ghost use Rattle.std.specs.Prelude.{◌≡◌, ◌<◌, ◌⊎◌, ℕ, List, IfErr, IfOk, OnErr};
ghost use Rattle.its_geometry.specs.Area.{HasMeasures};
ghost use Rattle.its_station.specs.Requests.{owned_gbc};
ghost use Rattle.its_words.specs.Faults.{IsFaultOf, IsWhatFault};
ghost use Rattle.its_words.specs.Fields.{IsNumber, IsText};
ghost use Rattle.its_words.specs.Reading.{IsBadOf, SaysArea, SaysGbc, shape_word};
ghost use Rattle.its_words.specs.declared.keys.key.Key.TheVariants as keys;

use crate::keys::{Fields, Key, KeyFault, Wrong, number, octet, octets, place, text, unlike};
use its_geometry::{Area, Shape};
use its_gnvalue::{Lifetime, TrafficClass};
use its_station::OwnedGbcRequest;
use std::alloc::Global;

/// Reads a geocast: `port`, `info`, `tc`, `lt`, `hops`, `shape`, `alat`, `alon`, `a`, `b`, `angle`,
/// `payload`, checked in this order.
#[tactic(auto, using(crate::proofs::Bad::bad_of))]
pub(crate) fn read_geocast<F: Fields>(
    alloc: Global,
    fields: &F,
) -> Result<OwnedGbcRequest, KeyFault>
    ensures says { IfOk result (λ r. SaysGbc (F.values fields.now) (owned_gbc r)) }
    ensures fault { IfErr result IsWhatFault }
    ensures bad { IfErr result (IsBadOf (F.values fields.now)) }
{
    Ok(OwnedGbcRequest {
        port: number(fields, Key::Port)?,
        info: number(fields, Key::Info)?,
        class: TrafficClass::from_octet(octet(fields, Key::Tc)?),
        lifetime: Lifetime::from_octet(octet(fields, Key::Lt)?),
        max_hops: octet(fields, Key::Hops)?,
        area: read_area(fields)?,
        payload: octets(alloc, fields, Key::Payload)?,
    })
}

/// Reads the area: a circle has `b` and `angle` 0.
#[tactic(auto, using(crate::proofs::Bad::bad_of))]
fn read_area<F: Fields>(fields: &F) -> Result<Area, KeyFault>
    ensures says { IfOk result (SaysArea (F.values fields.now)) }
    ensures fault { IfErr result IsWhatFault }
    ensures bad { IfErr result (IsBadOf (F.values fields.now)) }
{
    let shape = read_shape(fields)?;
    let centre = place(fields, Key::Alat, Key::Alon)?;
    let a = number(fields, Key::A)?;
    let (b, angle) = read_measures(fields, shape)?;
    Ok(Area::within(shape, centre, a, b, angle))
}

/// Reads `b` and `angle` of an area of this shape, checked in this order. A circle has to have 0
/// for both.
///
/// The first key that is missing, of another kind or out of range is refused.
///
/// - `b`, `angle`: what is read is under these keys.
/// - `fits`: these are measures of the shape, with any length along the angle that is not 0.
/// - `fault`, `bad` (`IsBadOf`): the key that is refused has no value that it takes.
#[tactic(auto, using(crate::proofs::Bad::bad_of, crate::proofs::Bad::bad_of_circle, crate::proofs::Bad::bad_of_rectangle, crate::proofs::Bad::bad_of_ellipse))]
pub fn read_measures<F: Fields>(fields: &F, shape: Shape) -> Result<(u16, u16), KeyFault>
    ensures b { IfOk result (λ read. IsNumber (F.values fields.now) keys.B read.0) }
    ensures angle { IfOk result (λ read. IsNumber (F.values fields.now) keys.Angle read.1) }
    ensures fits { IfOk result (λ read. (a : ℕ) → 0 < a → HasMeasures shape a read.0 read.1) }
    ensures fault { IfErr result (λ fault. IsFaultOf keys.B fault ⊎ IsFaultOf keys.Angle fault) }
    ensures bad { IsText (F.values fields.now) keys.Shape (shape_word shape)
        → IfErr result (IsBadOf (F.values fields.now)) }
{
    match shape {
        Shape::Circle => {
            refuse_length(fields, Key::B)?;
            refuse_length(fields, Key::Angle)?;
            Ok((0, 0))
        }
        Shape::Rectangle | Shape::Ellipse => {
            Ok((number(fields, Key::B)?, number(fields, Key::Angle)?))
        }
    }
}

/// Reads the shape of an area: `circle`, `rectangle` or `ellipse` under `shape`.
///
/// Any other text is refused, and so is a key that is missing or of another kind.
///
/// - `says`: the word of the shape is under `shape`.
/// - `fault`, `bad`: the fault is that of `shape`, which has none of these words.
pub fn read_shape<F: Fields>(fields: &F) -> Result<Shape, KeyFault>
    ensures says { IfOk result (λ shape.
        IsText (F.values fields.now) keys.Shape (shape_word shape)) }
    ensures fault { IfErr result (IsFaultOf keys.Shape) }
    ensures bad { OnErr result ((shape : Shape)
        → ¬ IsText (F.values fields.now) keys.Shape (shape_word shape)) }
{
    match text(fields, Key::Shape)? {
        "circle" => Ok(Shape::Circle),
        "rectangle" => Ok(Shape::Rectangle),
        "ellipse" => Ok(Shape::Ellipse),
        _ => Err(KeyFault::Refused(Key::Shape, Wrong::Value)),
    }
}

/// Refuses a key that is not 0. A circle has no use for it.
fn refuse_length<F: Fields>(fields: &F, key: Key) -> Result<(), KeyFault>
    ensures stands { IfOk result (λ _. IsNumber (F.values fields.now) key 0) }
    ensures fault { IfErr result (IsFaultOf key) }
    ensures bad { OnErr result (¬ IsNumber (F.values fields.now) key 0) }
{
    match fields.integer(key.word()) {
        Some(0) => Ok(()),
        Some(_) => Err(KeyFault::Refused(key, Wrong::OfCircle)),
        None => Err(unlike(fields, key)),
    }
}
