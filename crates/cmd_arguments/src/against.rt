//! Whether limits apply to a replay, and with what a station sent it is compared, by its options.

ghost use Rattle.std.specs.Prelude.{◌≡◌, IfOk, IfSome, codes};
ghost use Rattle.std.specs.Option.{option_map};
ghost use Rattle.cmd_arguments.specs.Options.{IsFlagged, IsGiven, IsGivenOr, IsMac, IsWhole};
ghost use Rattle.cmd_arguments.specs.Options.{value_in};

use crate::bad_argument::BadArgument;
use crate::choosing::{MAC, MacDigits, value_of};
use clap::ArgMatches;
use cmd_stats::replay::{Against, Limiting};
use its_gnvalue::Mac;

/// What an option has to be.
const WITHIN: &str = "a whole number of milliseconds in 0..=65535";

/// How long a station may take to forward a frame if nothing says it, in milliseconds.
const USUAL: u64 = 50;

/// With what a replay is compared, if `--against` names the link address of the station under test.
/// `--within` is 50 by default. The fault is that of the first option that has a bad value.
///
/// - `mac`: the link address is the one that `--against` spells; there is no comparison if it isn't
///   given.
/// - `within`: the time is the number that `--within` spells, of 16 bits.
pub fn against_of<'a>(matches: &ArgMatches<'a>) -> Result<Option<Against>, BadArgument<'a>>
    ensures mac { IfOk result (λ against. IsGiven IsMac (value_in matches.now (codes "against"))
        (option_map (λ a. a.mac) against)) }
    ensures within { IfOk result (λ against. IfSome against (λ a.
        IsGivenOr (IsWhole 16) 50 (value_in matches.now (codes "within")) a.within)) }
{
    let mac = mac_of(matches)?;
    let within = within_of(matches)?;
    match mac {
        Some(mac) => Ok(Some(Against {
            mac,
            within,
            strict: matches.get_flag("strict"),
        })),
        None => Ok(None),
    }
}

/// Whether the default limits of a unit apply to a replay: by `--limits`.
pub fn limiting_of(matches: &ArgMatches<'_>) -> Limiting
    ensures { IsFlagged matches.now (codes "limits") → result ≡ Limiting.Within }
{
    if matches.get_flag("limits") {
        return Limiting::Within;
    }
    Limiting::Past
}

/// The link address that `--against` spells, if it is given.
fn mac_of<'a>(matches: &ArgMatches<'a>) -> Result<Option<Mac>, BadArgument<'a>>
    ensures { IfOk result (IsGiven IsMac (value_in matches.now (codes "against"))) }
{
    let mac = value_of::<MacDigits>(matches, "against", MAC)?;
    Ok(mac.map(|digits| digits.0))
}

/// The time that `--within` spells, in milliseconds, or the usual one.
fn within_of<'a>(matches: &ArgMatches<'a>) -> Result<u64, BadArgument<'a>>
    ensures { IfOk result (IsGivenOr (IsWhole 16) 50 (value_in matches.now (codes "within"))) }
{
    match value_of::<u16>(matches, "within", WITHIN)? {
        Some(within) => Ok(u64::from(within)),
        None => Ok(USUAL),
    }
}
