//! Reads conditions on records: one per option, or listed by `--any` and `--not`.

use crate::bad_argument::BadArgument;
use crate::choosing::{AddressDigits, MAC, MacDigits, PORT, kinds_in};
use clap::ArgMatches;
use cmd_captures::{Condition, Conditions};
use its_gnvalue::Place;

/// The options of one condition each, with what their values have to be.
const OPTIONS: [(&str, &str); 5] = [
    ("to-mac", MAC),
    ("hops", "a number in 0..=255, or a range such as 1-3"),
    ("class", "2 hexadecimal digits"),
    ("number", "a number in 0..=65535, or a range such as 7-9"),
    (
        "area",
        "LAT:LON in tenths of a microdegree, such as 481000000:115000000",
    ),
];

const LIST: &str =
    "at most 16 filters such as kind=gbc,hops=1-3,refused: names of options, with their values";

/// The conditions that the options ask for.
#[derive(Clone, Copy)]
pub(crate) struct AskedConditions {
    /// All of these have to hold.
    pub(crate) all: Conditions,
    /// One of these has to, if there are any.
    pub(crate) any: Conditions,
    /// None of these may hold.
    pub(crate) leaves_out: Conditions,
}

impl AskedConditions {
    /// Reads the conditions of these options. Kinds outside the profile can be named only with
    /// `all_kinds`. Returns the fault of the first option with an invalid value.
    pub(crate) fn of<'a>(
        matches: &ArgMatches<'a>,
        all_kinds: bool,
    ) -> Result<AskedConditions, BadArgument<'a>> {
        let mut all = Conditions::none();
        for (name, wanted) in OPTIONS {
            let Some(value) = matches.get_str(name) else {
                continue;
            };
            if add(&mut all, condition_named(name, value, all_kinds)).is_none() {
                return Err(BadArgument::Value(name, value, wanted));
            }
        }
        Ok(AskedConditions {
            all,
            any: list_of(matches, "any", all_kinds)?,
            leaves_out: list_of(matches, "not", all_kinds)?,
        })
    }
}

/// Reads the conditions that an option lists, separated by commas.
fn list_of<'a>(
    matches: &ArgMatches<'a>,
    option: &'static str,
    all_kinds: bool,
) -> Result<Conditions, BadArgument<'a>> {
    let mut list = Conditions::none();
    let Some(words) = matches.get_str(option) else {
        return Ok(list);
    };
    for word in words.split(',') {
        if add(&mut list, condition_in(word, all_kinds)).is_none() {
            return Err(BadArgument::Value(option, words, LIST));
        }
    }
    Ok(list)
}

/// Adds a condition, if it was read and the list has free space.
fn add(list: &mut Conditions, read: Option<Condition>) -> Option<()> {
    list.add(read?)
}

/// Reads a word of a list as a condition: `refused`, or the name of an option, an equals sign and
/// its value.
fn condition_in(word: &str, all_kinds: bool) -> Option<Condition> {
    if word == "refused" {
        return Some(Condition::Refused);
    }
    let (name, value) = word.split_once('=')?;
    condition_named(name, value, all_kinds)
}

/// Reads the condition of the option with this name and this value.
fn condition_named(name: &str, value: &str, all_kinds: bool) -> Option<Condition> {
    match name {
        "kind" => Some(Condition::Kind(kinds_in(value, all_kinds)?)),
        "source" => {
            let digits = value.parse::<AddressDigits>().ok()?;
            Some(Condition::Source(digits.0.as_u64()))
        }
        "from-mac" => Some(Condition::From(value.parse::<MacDigits>().ok()?.0)),
        "to-mac" => Some(Condition::To(value.parse::<MacDigits>().ok()?.0)),
        "port" => Some(Condition::Port(value.parse().ok()?)),
        "hops" => {
            let (least, most) = range_in(value)?;
            Some(Condition::Hops(u8::try_from(least).ok()?, u8::try_from(most).ok()?))
        }
        "class" => Some(Condition::Class(octet_in(value)?)),
        "number" => {
            let (least, most) = range_in(value)?;
            Some(Condition::Number(least, most))
        }
        "area" => Some(Condition::Area(place_in(value)?)),
        _ => None,
    }
}

/// Reads a number, or two with a hyphen between them. The second may not be lower.
fn range_in(text: &str) -> Option<(u16, u16)> {
    let (first, last) = text.split_once('-').unwrap_or((text, text));
    let (least, most) = (first.parse::<u16>().ok()?, last.parse::<u16>().ok()?);
    if least <= most {
        Some((least, most))
    } else {
        None
    }
}

/// Reads two hexadecimal digits as an octet.
fn octet_in(text: &str) -> Option<u8> {
    let mut octet = [0; 1];
    hex::decode_to_slice(text, &mut octet).ok()?;
    Some(octet[0])
}

/// Reads a latitude and a longitude with a colon between them, in tenths of a microdegree.
fn place_in(text: &str) -> Option<Place> {
    let (lat, lon) = text.split_once(':')?;
    Place::new(lat.parse().ok()?, lon.parse().ok()?).ok()
}
