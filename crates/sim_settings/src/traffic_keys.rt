//! Reads the periodic traffic of a scenario's stations.

ghost use Rattle.std.specs.Prelude.{◌≤◌, IfOk};
ghost use Rattle.its_words.specs.Fields.{IsNumber};
ghost use Rattle.its_words.specs.declared.keys.key.Key.TheVariants as keys;
ghost use Rattle.sim_settings.specs.Saying.{SaysTraffic};

use crate::traffic::Traffic;
use its_gnvalue::TrafficClass;
use its_words::keys::{Fields, Key, KeyFault, number, octet, whole};

/// Reads a traffic: `period`, `port`, `info`, `tc`, `octets`, checked in this order.
pub fn read_traffic<F: Fields>(fields: &F) -> Result<Traffic, KeyFault>
    ensures { IfOk result (SaysTraffic (F.values fields.now)) }
{
    let period = read_period(fields)?;
    let port = number(fields, Key::Port)?;
    let info = number(fields, Key::Info)?;
    let class = TrafficClass::from_octet(octet(fields, Key::Tc)?);
    let octets = read_length(fields)?;
    Ok(Traffic {
        period,
        port,
        info,
        class,
        octets,
    })
}

/// Reads the milliseconds from one send to the next.
fn read_period<F: Fields>(fields: &F) -> Result<u32, KeyFault>
    ensures says { IfOk result (IsNumber (F.values fields.now) keys.Period) }
    ensures least { IfOk result (λ period. 1 ≤ period) }
{
    Ok(whole(fields, Key::Period)? as u32)
}

/// Reads how many octets are sent.
fn read_length<F: Fields>(fields: &F) -> Result<u16, KeyFault>
    ensures says { IfOk result (IsNumber (F.values fields.now) keys.Octets) }
    ensures most { IfOk result (λ octets. octets ≤ 1394) }
{
    number(fields, Key::Octets)
}
