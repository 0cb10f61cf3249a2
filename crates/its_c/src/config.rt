//! What a new station is made of.

ghost use Rattle.std.specs.Prelude.{◌≡◌, ◌↔◌, ◌≤◌, IfSome, IsTrue};
ghost use Rattle.its_station.specs.State.{RepresentsStation};
ghost use Rattle.its_c.specs.Configs.{HasContention, HasSizes, HasLimits, usual_config, station_at};
ghost use Rattle.its_c.specs.Configs.{limits_of, rate_of, cap_of, rule_of};

use crate::layout::{CONFIG_SIZE, Config};
use its_contention::ContentionRule;
use its_gnvalue::{GnAddress, Place};
use its_governor::{Limits, Rate};
use its_loctable::SortedTable;
use its_station::Station;
use std::alloc::Global;

/// Writes what a station is usually made of: room for 64 sources, of each of which 8 sequence
/// numbers are remembered, mobile, with the first number 0, and the limits that a channel of
/// 6 Mbit/s bears (`Limits::CHANNEL`). The address and the place are 0: the caller writes them.
#[unsafe(no_mangle)]
pub extern "C" fn geostation_config_init(config: &mut Config)
    ensures { config.new ≡ usual_config }
{
    *config = Config::USUAL;
}

/// The greatest rate and the greatest burst of a limit.
const GREATEST: u32 = 1_000_000;

/// Whether the limits are in their ranges.
pub(crate) fn has_limits(config: &Config) -> bool
    ensures { IsTrue result ↔ HasLimits config.now }
{
    config.forward_rate <= GREATEST
        && config.forward_burst <= GREATEST
        && config.source_rate <= GREATEST
        && config.source_burst <= GREATEST
        && config.own_rate <= GREATEST
        && config.own_burst <= GREATEST
        && config.hop_cap <= 255
}

/// Whether the numbers for contention are in their ranges, which they are also without it.
pub(crate) fn has_contention(config: &Config) -> bool
    ensures { IsTrue result ↔ HasContention config.now }
{
    config.area_forwarding <= 1
        && config.contention_max >= 1
        && config.contention_max <= 1000
        && config.contention_min <= config.contention_max
        && config.contention_range >= 1
        && config.contention_range <= 65535
        && config.contention_copies >= 1
        && config.contention_copies <= 3
}

/// The rule by which the station contends, or none.
pub(crate) fn rule_of(config: &Config) -> Option<ContentionRule>
    requires { HasContention config.now }
    ensures { result ≡ rule_of config.now }
{
    if config.area_forwarding == 0 {
        return None;
    }
    ContentionRule::new(
        config.contention_min as u16,
        config.contention_max as u16,
        config.contention_range as u16,
        config.contention_copies as u8,
    )
}

/// The limits of a config.
pub(crate) fn limits_of(config: &Config) -> Limits
    requires { HasLimits config.now }
    ensures { result ≡ limits_of config.now }
{
    Limits {
        forward: rate_of(config.forward_rate, config.forward_burst),
        source: rate_of(config.source_rate, config.source_burst),
        own: rate_of(config.own_rate, config.own_burst),
        hop_cap: cap_of(config.hop_cap),
        delivers_once: config.deliver_once != 0,
    }
}

/// A rate, or none if a number of it is 0.
fn rate_of(per_second: u32, burst: u32) -> Option<Rate>
    ensures { result ≡ rate_of per_second burst }
{
    if per_second == 0 || burst == 0 {
        return None;
    }
    Some(Rate { burst, per_second })
}

/// The greatest number of hops left with which a packet is forwarded.
fn cap_of(hops: u32) -> u8
    requires { hops ≤ 255 }
    ensures { result ≡ cap_of hops }
{
    if hops == 0 {
        return 255;
    }
    hops as u8
}

/// Whether the struct has the size of this one, and the table's sizes are in their ranges.
pub(crate) fn has_sizes(config: &Config) -> bool
    ensures { IsTrue result ↔ HasSizes config.now }
{
    config.size == CONFIG_SIZE
        && config.capacity >= 1
        && config.capacity <= 4096
        && config.remember >= 1
        && config.remember <= 64
}

/// A new station, or none where an allocation failed.
pub(crate) fn station_at(
    alloc: Global,
    address: GnAddress,
    place: Place,
    config: &Config,
) -> Option<Station<SortedTable>>
    requires { HasSizes config.now }
    ensures { IfSome result (λ st. RepresentsStation st (station_at address place config.now)) }
{
    let remember = config.remember as u8;
    let mut station = Station::new(alloc, address, place, config.capacity, remember).ok()?;
    station.set_mobile(config.mobile != 0);
    // It isn't refused: no moment is before 0.
    let _done = station.restart(0, config.number);
    Some(station)
}
