//! The keys of a request for an area around the station that sends it.

ghost use Rattle.std.specs.Prelude.{IfOk, IsTrue};
ghost use Rattle.its_words.specs.Fields.{IsMissing};
ghost use Rattle.its_words.specs.declared.keys.key.Key.TheVariants as keys;
ghost use Rattle.sim_scenario.specs.Saying.{SaysAround};

use crate::events::around::AroundRequest;
use its_gnvalue::{Lifetime, TrafficClass};
use its_words::calls::{read_measures, read_shape};
use its_words::keys::{Fields, Key, KeyFault, number, octet, octets};
use std::alloc::Global;

/// Whether both keys of the centre of an area are left out.
pub(crate) fn lacks_centre<F: Fields>(fields: &F) -> bool
    ensures { IsTrue result → IsMissing (F.values fields.now) keys.Alat
        × IsMissing (F.values fields.now) keys.Alon }
{
    !fields.has(Key::Alat.word()) && !fields.has(Key::Alon.word())
}

/// Reads a geocast for an area around the station that sends it: the keys that `read_geocast`
/// reads, in the same order, without `alat` and `alon`, which are missing.
pub(crate) fn read_around<F: Fields>(alloc: Global, fields: &F) -> Result<AroundRequest, KeyFault>
    requires alat { IsMissing (F.values fields.now) keys.Alat }
    requires alon { IsMissing (F.values fields.now) keys.Alon }
    ensures says { IfOk result (SaysAround (F.values fields.now)) }
{
    let port = number(fields, Key::Port)?;
    let info = number(fields, Key::Info)?;
    let class = TrafficClass::from_octet(octet(fields, Key::Tc)?);
    let lifetime = Lifetime::from_octet(octet(fields, Key::Lt)?);
    let max_hops = octet(fields, Key::Hops)?;
    let shape = read_shape(fields)?;
    let a = number(fields, Key::A)?;
    let (b, angle) = read_measures(fields, shape)?;
    Ok(AroundRequest {
        port,
        info,
        class,
        lifetime,
        max_hops,
        shape,
        a,
        b,
        angle,
        payload: octets(alloc, fields, Key::Payload)?,
    })
}
