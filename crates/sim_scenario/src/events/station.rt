//! The stations of a scenario.

ghost use Rattle.std.specs.Prelude.{◌≡◌, IfOk, length};
ghost use Rattle.its_words.specs.Fields.{AreOctets};
ghost use Rattle.its_words.specs.declared.keys.key.Key.TheVariants as keys;
ghost use Rattle.sim_scenario.specs.Saying.{IsAddress, SaysContends, SaysPresent, SaysStation};
ghost use Rattle.its_world.specs.Events.{IsConfig};

use its_gnvalue::GnAddress;
use its_words::keys::{Fields, Key, KeyFault, Wrong, octets_into, place, truth, whole_or};
use its_world::Config;

/// The default size of the location table.
const USUAL_ENTRIES: i64 = 64;

/// The default length of the duplicate packet list.
const USUAL_NUMBERS: i64 = 8;

/// Reads a station: `address`, `lat`, `lon`, `capacity` (default 64), `remember` (default 8),
/// checked in this order.
///
/// Returns the first key that is missing, of another kind or out of range.
pub fn read_station<F: Fields>(fields: &F) -> Result<Config, KeyFault>
    ensures says { IfOk result (SaysStation (F.values fields.now)) }
    ensures ranges { IfOk result IsConfig }
{
    let address = read_address(fields)?;
    let place = place(fields, Key::Lat, Key::Lon)?;
    let capacity = whole_or(fields, Key::Capacity, USUAL_ENTRIES)? as u16;
    let remember = whole_or(fields, Key::Remember, USUAL_NUMBERS)? as u8;
    Ok(Config {
        address,
        place,
        capacity,
        remember,
    })
}

/// Reads whether a station is present at the start: the opposite of `absent`, which is checked.
/// Without `absent` it is present.
pub fn read_present<F: Fields>(fields: &F) -> Result<bool, KeyFault>
    ensures { IfOk result (SaysPresent (F.values fields.now)) }
{
    Ok(!fields.has(Key::Absent.word()) || !truth(fields, Key::Absent)?)
}

/// Reads whether a station contends, by `contention`, which is checked. `None` without this key.
pub fn read_own_contention<F: Fields>(fields: &F) -> Result<Option<bool>, KeyFault>
    ensures { IfOk result (SaysContends (F.values fields.now)) }
{
    if fields.has(Key::Contention.word()) {
        Ok(Some(truth(fields, Key::Contention)?))
    } else {
        Ok(None)
    }
}

/// Reads an address of 16 hexadecimal digits, whose MID is not that of a group.
fn read_address<F: Fields>(fields: &F) -> Result<GnAddress, KeyFault>
    ensures { IfOk result (IsAddress (F.values fields.now)) }
{
    let octets = address_octets(fields)?;
    match GnAddress::from_u64(u64::from_be_bytes(octets)) {
        Ok(address) => Ok(address),
        Err(_) => Err(KeyFault::Refused(Key::Address, Wrong::Value)),
    }
}

/// Reads 16 hexadecimal digits as octets.
fn address_octets<F: Fields>(fields: &F) -> Result<[u8; 8], KeyFault>
    ensures stand { IfOk result (AreOctets (F.values fields.now) keys.Address) }
    ensures count { IfOk result (λ octets. length octets ≡ 8) }
{
    let mut octets = [0u8; 8];
    octets_into(fields, Key::Address, &mut octets)?;
    Ok(octets)
}
