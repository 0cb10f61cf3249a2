//! Interfaces of a pcapng file, and the times that their ticks count.

ghost use Rattle.std.specs.Prelude.{◌≡◌, ◌^◌, ◌<◌, ◌≤◌, MatchOption, IfSome};
ghost use Rattle.cap_pcap.specs.Moments.{ticks_of, IsTooFine, IsMoment, IsNoMoment, added_of};
ghost use Rattle.cap_pcap.specs.Moments.{taken_of, fine_in};

use crate::info::InterfaceInfo;
use crate::record::FineTime;

/// What is known about an interface of a pcapng file.
#[derive(Clone, Copy)]
pub(crate) struct Interface {
    /// How many interfaces the file has before it.
    pub(crate) number: u32,
    /// What its block says.
    pub(crate) info: InterfaceInfo,
    /// The most octets that are captured of a frame. 0 means no limit.
    pub(crate) snap: u32,
    /// How many ticks a second has, by `if_tsresol`.
    pub(crate) ticks: u64,
    ghost positive: { 0 < ticks },
}

/// `if_tsresol` if there is no such option: a tick is a millionth of a second.
pub(crate) const MICROS: u8 = 6;

/// The ticks of a second if there is no such option.
pub(crate) const MICRO_TICKS: u64 = 1_000_000;

/// Returns the ticks of a second by the octet of `if_tsresol`: a power of 10, or of 2 if its
/// highest bit is set. `None` if a tick is shorter than 10^-19 or 2^-63 seconds.
pub(crate) fn ticks_in(resolution: u8) -> Option<u64>
    ensures ticks { MatchOption result (IsTooFine resolution) (λ n. n ≡ ticks_of resolution) }
    ensures fine { IfSome result (λ _. ¬ IsTooFine resolution) }
    ensures some { IfSome result (λ n. 0 < n) }
{
    if resolution < 128 {
        return power_of_ten(resolution);
    }
    let bits = resolution - 128;
    if bits > 63 {
        return None;
    }
    Some(1 << bits)
}

fn power_of_ten(exponent: u8) -> Option<u64>
    ensures power { MatchOption result (19 < exponent) (λ n. n ≡ 10 ^ exponent) }
    ensures within { IfSome result (λ _. exponent ≤ 19) }
    ensures some { IfSome result (λ n. 0 < n) }
{
    let power = match exponent {
        0 => 1,
        1 => 10,
        2 => 100,
        3 => 1_000,
        4 => 10_000,
        5 => 100_000,
        6 => 1_000_000,
        7 => 10_000_000,
        8 => 100_000_000,
        9 => 1_000_000_000,
        10 => 10_000_000_000,
        11 => 100_000_000_000,
        12 => 1_000_000_000_000,
        13 => 10_000_000_000_000,
        14 => 100_000_000_000_000,
        15 => 1_000_000_000_000_000,
        16 => 10_000_000_000_000_000,
        17 => 100_000_000_000_000_000,
        18 => 1_000_000_000_000_000_000,
        19 => 10_000_000_000_000_000_000,
        _ => return None,
    };
    Some(power)
}

/// Splits the signed seconds of `if_tsoffset` into those to add and those to subtract.
pub(crate) fn seconds_of(offset: u64) -> (u64, u64)
    ensures added { result.0 ≡ added_of offset }
    ensures taken { result.1 ≡ taken_of offset }
{
    if offset < 1 << 63 {
        (offset, 0)
    } else {
        (0, u64::MAX - offset + 1)
    }
}

/// Returns the time of a timestamp, in milliseconds. `None` if it is below 0, or 2^64 or more.
pub(crate) fn moment_of(interface: &Interface, timestamp: u64) -> Option<u64>
    ensures { MatchOption result
        (IsNoMoment interface.now.ticks (added_of interface.now.info.head.offset)
        (taken_of interface.now.info.head.offset) timestamp)
        (IsMoment interface.now.ticks (added_of interface.now.info.head.offset)
        (taken_of interface.now.info.head.offset) timestamp) }
{
    let (added, taken) = seconds_of(interface.info.head.offset);
    let whole = u128::from(timestamp) * 1000 / u128::from(interface.ticks);
    let sum = whole + 1000 * u128::from(added);
    let less = 1000 * u128::from(taken);
    if sum < less {
        return None;
    }
    let moment = sum - less;
    if moment > u128::from(u64::MAX) {
        return None;
    }
    Some(moment as u64)
}

/// Returns the part of a timestamp's time below a millisecond. Seconds of `if_tsoffset` don't
/// change it.
pub(crate) fn fine_time_of(interface: &Interface, timestamp: u64) -> FineTime
    ensures { result ≡ fine_in interface.now.ticks timestamp }
{
    let ticks = u128::from(interface.ticks);
    let scaled = u128::from(timestamp) * 1_000_000_000;
    FineTime {
        nanos: (scaled / ticks % 1_000_000) as u32,
        finer: scaled % ticks > 0,
        ticks: Some(timestamp),
    }
}
