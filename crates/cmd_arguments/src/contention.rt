//! How a station forwards inside an area, by its options.

use crate::bad_argument::BadArgument;
use clap::ArgMatches;
use its_contention::ContentionRule;

/// What an option has to be.
const MAX: &str = "a whole number of milliseconds in 1..=1000";

const MIN: &str = "a whole number of milliseconds in 0..=1000";

const NOT_OVER: &str = "at most the value of --contention-max";

const RANGE: &str = "a whole number of metres in 1..=65535";

const COPIES: &str = "a whole number in 1..=3";

/// The rule by which a station contends, if `--area-forwarding` is `contention`. The numbers are those
/// of `--contention-max`, `--contention-min`, `--contention-range` and `--contention-copies`, by default
/// 100, 1, 1000 and 2. They are judged in this order, also if the station doesn't contend, and in the
/// end the least wait against the greatest. The fault is that of the first bad one.
pub fn rule_of<'a>(matches: &ArgMatches<'a>) -> Result<Option<ContentionRule>, BadArgument<'a>> {
    let max = number_of(matches, "contention-max", 1, 1000, MAX)?.unwrap_or(100);
    let min = number_of(matches, "contention-min", 0, 1000, MIN)?.unwrap_or(1);
    let range = number_of(matches, "contention-range", 1, 65535, RANGE)?.unwrap_or(1000);
    let copies = number_of(matches, "contention-copies", 1, 3, COPIES)?.unwrap_or(2);
    if min > max {
        let word = matches.get_str("contention-min").unwrap_or("1");
        return Err(BadArgument::Value("contention-min", word, NOT_OVER));
    }
    if matches.get_str("area-forwarding") != Some("contention") {
        return Ok(None);
    }
    Ok(ContentionRule::new(min, max, range, copies.min(3) as u8))
}

/// The number that an option spells in decimal digits, if it is given.
pub(crate) fn number_of<'a>(
    matches: &ArgMatches<'a>,
    option: &'a str,
    least: u16,
    most: u16,
    wanted: &'a str,
) -> Result<Option<u16>, BadArgument<'a>> {
    let Some(word) = matches.get_str(option) else {
        return Ok(None);
    };
    match word.parse::<u16>() {
        Ok(number) if is_digits(word) && least <= number && number <= most => Ok(Some(number)),
        _ => Err(BadArgument::Value(option, word, wanted)),
    }
}

/// Whether a text has nothing but decimal digits.
fn is_digits(word: &str) -> bool {
    word.bytes().all(|octet| octet.is_ascii_digit())
}
