//! The station that the arguments describe.

ghost use Rattle.std.specs.Prelude.{◌≡◌, IfSome};
ghost use Rattle.cmd_arguments.specs.Arguments.{AreMatched, argument_of};

use clap::ArgMatches;
use its_words::keys::Fields;

/// An argument, and the whole number that it spells, if that fits 64 bits with a sign.
#[derive(Clone, Copy, Debug, PartialEq, Eq)]
struct SpelledNumber<'a> {
    text: &'a str,
    number: Option<i64>,
}

impl<'a> SpelledNumber<'a> {
    fn of(text: &'a str) -> SpelledNumber<'a>
        ensures { result.text ≡ text.entry }
    {
        SpelledNumber {
            text,
            number: text.parse().ok(),
        }
    }
}

/// The arguments of a station. Those after the position may be missing.
#[derive(Clone, Copy, Debug, PartialEq, Eq)]
pub struct StationArguments<'a> {
    address: SpelledNumber<'a>,
    lat: SpelledNumber<'a>,
    lon: SpelledNumber<'a>,
    capacity: Option<SpelledNumber<'a>>,
    remember: Option<SpelledNumber<'a>>,
}

impl<'a> StationArguments<'a> {
    /// Returns the arguments that were matched. The first three are required, so there is a result.
    pub fn of(matches: &ArgMatches<'a>) -> Option<StationArguments<'a>>
        ensures { IfSome result (AreMatched matches.now) }
    {
        Some(StationArguments {
            address: SpelledNumber::of(matches.get_str("ADDRESS")?),
            lat: SpelledNumber::of(matches.get_str("LAT")?),
            lon: SpelledNumber::of(matches.get_str("LON")?),
            capacity: matches.get_str("capacity").map(SpelledNumber::of),
            remember: matches.get_str("remember").map(SpelledNumber::of),
        })
    }

    /// Returns the argument with the name that a scenario has for it.
    fn value(&self, name: &str) -> Option<SpelledNumber<'a>>
        ensures { result ≡ argument_of self.now name.now }
    {
        match name {
            "address" => Some(self.address),
            "lat" => Some(self.lat),
            "lon" => Some(self.lon),
            "capacity" => self.capacity,
            "remember" => self.remember,
            _ => None,
        }
    }
}

impl Fields for StationArguments<'_> {
    ghost use Rattle.cmd_arguments.specs.Arguments.{argument_values};

    ghost values = { argument_values };

    fn has(&self, name: &str) -> bool {
        self.value(name).is_some()
    }

    fn integer(&self, name: &str) -> Option<i64> {
        self.value(name)?.number
    }

    fn truth(&self, _name: &str) -> Option<bool> {
        None
    }

    fn text(&self, name: &str) -> Option<&str> {
        Some(self.value(name)?.text)
    }
}
