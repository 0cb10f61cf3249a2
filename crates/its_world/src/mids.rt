//! The first station that has the MID of an earlier one.

ghost use Rattle.std.specs.Prelude.{◌≡◌, ◌≢◌, ◌<◌, ℕ, None, Ok, length, slice_index};
ghost use Rattle.std.specs.Prelude.{IfSome, IfNone, IfOk, IfErr, OnOk};
ghost use Rattle.its_world.specs.Mids.{AreApart, ShareMid, IsMidFault, mids};

use crate::config::{Config, WorldFault};
use its_gnvalue::{Mac, NoMemory};
use std::alloc::Global;
use std::collections::HashMap;

/// Fails with `SameMid` (M1) if and only if two of these stations share a MID. Otherwise fails with
/// `NoMemory` (M2) if an allocation failed.
///
/// - `apart`, `refused`: no two of these configs share a MID; otherwise M1, with the first such
///   pair.
pub fn refuse_shared(alloc: Global, configs: &[Config]) -> Result<(), WorldFault>
    ensures apart { OnOk result (AreApart configs.now) }
    ensures refused { IfErr result (λ fault. IsMidFault fault configs.now) }
{
    match first_shared(alloc, configs) {
        Ok(None) => Ok(()),
        Ok(Some((first, second))) => Err(WorldFault::SameMid(first, second)),
        Err(_) => match first_shared_by_pairs(configs) {
            Some((first, second)) => Err(WorldFault::SameMid(first, second)),
            None => Err(WorldFault::NoMemory),
        },
    }
}

/// Returns the first station that has the MID of an earlier one, after that earlier one. `None` if
/// no two stations share a MID. `NoMemory` if an allocation for the map of MIDs failed.
fn first_shared(alloc: Global, configs: &[Config]) -> Result<Option<(usize, usize)>, NoMemory>
    ensures apart { result ≡ Ok None → AreApart configs.now }
    ensures shared { IfOk result (λ found.
        IfSome found (λ pair. ShareMid configs.now pair.0 pair.1)) }
{
    let mut known: HashMap<Mac, usize> = HashMap::new(alloc);
    for (number, config) in configs.iter().enumerate() {
        let earlier = known.insert(config.address.mid(), number)?;
        if let Some(earlier) = earlier {
            return Ok(Some((earlier, number)));
        }
    }
    Ok(None)
}

/// Returns what `first_shared` does without allocating: compares each station with those before it.
fn first_shared_by_pairs(configs: &[Config]) -> Option<(usize, usize)>
    ensures apart { IfNone result (AreApart configs.now) }
    ensures shared { IfSome result (λ pair. ShareMid configs.now pair.0 pair.1) }
{
    for (number, config) in configs.iter().enumerate() {
        if let Some(earlier) = place_of(&configs[..number], config.address.mid()) {
            return Some((earlier, number));
        }
    }
    None
}

/// Returns the first station that has this MID, if one has.
fn place_of(configs: &[Config], mid: Mac) -> Option<usize>
    ensures found { IfSome result (λ place. (place < length configs.now)
        × (slice_index (mids configs.now) place ≡ mid)) }
    ensures absent { IfNone result ((place : ℕ) → place < length configs.now →
        slice_index (mids configs.now) place ≢ mid) }
{
    for (place, config) in configs.iter().enumerate() {
        if config.address.mid() == mid {
            return Some(place);
        }
    }
    None
}
