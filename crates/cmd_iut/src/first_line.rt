//! The first line of a report: the claims, the assumptions and their values.

use crate::claim::{CLAIMS, ClaimSet};
use crate::station_file::{StampClock, StationFile, USUAL_CLOCK_ERROR, usual_claims};
use its_duties::{AreaForwarding, BeaconReset, Claims, NonAreaForwarding, SequenceModulus};
use std::fmt;

/// The claims about a station, and what is assumed in addition.
#[derive(Clone, Copy)]
pub struct Premises<'a> {
    /// What the station file says.
    pub file: &'a StationFile,
    /// What is assumed besides.
    pub assumed: ClaimSet,
    /// The version of the program.
    pub version: &'a str,
}

impl Premises<'_> {
    /// The claims that are in force.
    pub fn claims(&self) -> Claims {
        self.assumed.assumed_in(&self.file.claims)
    }

    /// Writes the claims of the file, or those that are assumed in addition.
    fn write_claims<W: fmt::Write>(
        &self,
        is_assumed: bool,
        f: &mut fmt::Formatter<W>,
    ) -> fmt::Result {
        let assumed = self.assumed.beyond(&self.file.claims);
        let mut part = " ";
        let mut any = false;
        for claim in CLAIMS {
            let is_listed = if is_assumed {
                assumed.has(claim)
            } else {
                claim.is_made(&self.file.claims)
            };
            if is_listed {
                write!(f, "{part}{}", claim.word())?;
                part = " ";
                any = true;
            }
        }
        if any { Ok(()) } else { f.write_str(" nothing") }
    }

    /// Writes the keys of claims and capture whose value isn't the default.
    fn write_values<W: fmt::Write>(&self, f: &mut fmt::Formatter<W>) -> fmt::Result {
        let mut part = "; ";
        for value in values_of(self.file, &self.file.claims) {
            if value.is_set() {
                write!(f, "{part}{} {}", value.key, value.shown)?;
                part = ", ";
            }
        }
        Ok(())
    }

    /// Writes the values that the model does not have. Nothing is proved for them.
    fn write_not_proved<W: fmt::Write>(&self, f: &mut fmt::Formatter<W>) -> fmt::Result {
        let claims = &self.file.claims;
        let mut part = "; not proved: ";
        if claims.mac != claims.address.mid() {
            write!(f, "{part}mac {}", claims.mac)?;
            part = ", ";
        }
        for value in values_of(self.file, claims) {
            if value.is_outside_model() {
                write!(f, "{part}{} {}", value.key, value.shown)?;
                part = ", ";
            }
        }
        Ok(())
    }
}

impl fmt::Display for Premises<'_> {
    fn fmt<W: fmt::Write>(&self, f: &mut fmt::Formatter<W>) -> fmt::Result {
        write!(f, "station {}; claimed:", self.file.claims.address)?;
        self.write_claims(false, f)?;
        f.write_str("; assumed:")?;
        self.write_claims(true, f)?;
        self.write_values(f)?;
        self.write_not_proved(f)
    }
}

/// The value of a key, as the first line prints it.
#[derive(Clone, Copy)]
enum Shown {
    Word(&'static str),
    Number(u64),
    Truth(bool),
    Absent,
}

impl fmt::Display for Shown {
    fn fmt<W: fmt::Write>(&self, f: &mut fmt::Formatter<W>) -> fmt::Result {
        match self {
            Shown::Word(word) => f.write_str(word),
            Shown::Number(number) => write!(f, "{number}"),
            Shown::Truth(holds) => write!(f, "{holds}"),
            Shown::Absent => Ok(()),
        }
    }
}

/// The default of a key.
#[derive(Clone, Copy)]
enum Usual {
    Word(&'static str),
    Number(u64),
    /// A claim: it is printed elsewhere.
    Claim,
    Absent,
}

/// The value of a key of claims or of the capture.
#[derive(Clone, Copy)]
struct KeyValue {
    key: &'static str,
    shown: Shown,
    default: Usual,
    /// The model has only this value.
    model: Option<Shown>,
}

impl KeyValue {
    /// A number that has a default.
    fn number(key: &'static str, number: u32, default: u32) -> KeyValue {
        KeyValue {
            key,
            shown: Shown::Number(u64::from(number)),
            default: Usual::Number(u64::from(default)),
            model: None,
        }
    }

    /// A number for which the model has only the default.
    fn constant(key: &'static str, number: u32, default: u32) -> KeyValue {
        KeyValue {
            model: Some(Shown::Number(u64::from(default))),
            ..KeyValue::number(key, number, default)
        }
    }

    /// A number that may be absent.
    fn optional(key: &'static str, number: Option<u64>) -> KeyValue {
        KeyValue {
            key,
            shown: number.map_or(Shown::Absent, Shown::Number),
            default: Usual::Absent,
            model: None,
        }
    }

    /// A claim.
    fn claim(key: &'static str, is_made: bool) -> KeyValue {
        KeyValue {
            key,
            shown: Shown::Truth(is_made),
            default: Usual::Claim,
            model: None,
        }
    }

    /// A keyword that has a default.
    fn word(key: &'static str, word: &'static str, default: &'static str) -> KeyValue {
        KeyValue {
            key,
            shown: Shown::Word(word),
            default: Usual::Word(default),
            model: None,
        }
    }

    /// Whether the first line shows it: it isn't the default.
    fn is_set(&self) -> bool {
        match (self.shown, self.default) {
            (Shown::Word(word), Usual::Word(default)) => word != default,
            (Shown::Number(number), Usual::Number(default)) => number != default,
            (_, Usual::Claim) | (Shown::Absent, _) => false,
            _ => true,
        }
    }

    /// Whether the model has another value.
    fn is_outside_model(&self) -> bool {
        match (self.shown, self.model) {
            (Shown::Word(word), Some(Shown::Word(model))) => word != model,
            (Shown::Number(number), Some(Shown::Number(model))) => number != model,
            _ => false,
        }
    }
}

/// Returns the values of all keys of claims and of the capture, with these claims.
fn values_of(file: &StationFile, claims: &Claims) -> [KeyValue; 28] {
    let usual = usual_claims(claims.address);
    let [area, elsewhere, remember, life, capacity, profile, interval] = forwarding_values(
        claims, &usual,
    );
    let [jitter, reset, lifetime, modulus, gapless, rate] = sending_values(claims, &usual);
    let [steady, fresh, unlimited, unbuffered] = claim_values(claims);
    let [sent, received, delivered, within, queue, skew] = capture_values(claims, &usual);
    let [clock, clock_error, until, tap, interface] = clock_values(file, claims);
    [
        area,
        elsewhere,
        remember,
        life,
        capacity,
        profile,
        interval,
        jitter,
        reset,
        lifetime,
        modulus,
        gapless,
        rate,
        steady,
        fresh,
        unlimited,
        unbuffered,
        sent,
        received,
        delivered,
        within,
        queue,
        skew,
        clock,
        clock_error,
        until,
        tap,
        interface,
    ]
}

/// Returns the values of the keys of forwarding, with their defaults.
fn forwarding_values(claims: &Claims, usual: &Claims) -> [KeyValue; 7] {
    let area = match claims.area {
        AreaForwarding::Simple => "simple",
        AreaForwarding::Other => "other",
    };
    let elsewhere = match claims.elsewhere {
        NonAreaForwarding::Greedy => "greedy",
        NonAreaForwarding::Other => "other",
    };
    [
        KeyValue {
            model: Some(Shown::Word("simple")),
            ..KeyValue::word("area", area, "other")
        },
        KeyValue {
            model: Some(Shown::Word("greedy")),
            ..KeyValue::word("elsewhere", elsewhere, "other")
        },
        KeyValue::number("remember", claims.remember, usual.remember),
        KeyValue::constant("life", claims.life, usual.life),
        KeyValue::optional("capacity", claims.capacity.map(u64::from)),
        KeyValue::claim("profile", claims.profile),
        KeyValue::constant("interval", claims.interval, usual.interval),
    ]
}

/// Returns the values of the keys of what a station sends by itself, with their defaults.
fn sending_values(claims: &Claims, usual: &Claims) -> [KeyValue; 6] {
    let reset = match claims.reset {
        Some(BeaconReset::Any) => Shown::Word("any"),
        Some(BeaconReset::Shb) => Shown::Word("shb"),
        None => Shown::Absent,
    };
    let modulus = match claims.modulus {
        Some(SequenceModulus::Short) => Some(65535),
        Some(SequenceModulus::Full) => Some(65536),
        None => None,
    };
    [
        KeyValue::constant("jitter", claims.jitter, usual.jitter),
        KeyValue {
            key: "reset",
            shown: reset,
            default: Usual::Absent,
            model: None,
        },
        KeyValue::constant("lifetime", claims.lifetime, usual.lifetime),
        KeyValue {
            model: Some(Shown::Number(65536)),
            ..KeyValue::optional("modulus", modulus)
        },
        KeyValue::claim("gapless", claims.gapless),
        KeyValue::number("rate", claims.rate, usual.rate),
    ]
}

/// Returns the claims of a station.
fn claim_values(claims: &Claims) -> [KeyValue; 4] {
    [
        KeyValue::claim("steady", claims.steady),
        KeyValue::claim("fresh", claims.fresh),
        KeyValue::claim("unlimited", claims.unlimited),
        KeyValue::claim("unbuffered", claims.unbuffered),
    ]
}

/// Returns the values of the keys of a capture, with their defaults.
fn capture_values(claims: &Claims, usual: &Claims) -> [KeyValue; 6] {
    [
        KeyValue::claim("sent", claims.sent),
        KeyValue::claim("received", claims.received),
        KeyValue::claim("delivered", claims.delivered),
        KeyValue::number("within", claims.within, usual.within),
        KeyValue::number("queue", claims.queue, usual.queue),
        KeyValue::number("skew", claims.skew, usual.skew),
    ]
}

/// Returns the values of the keys of its stamps, and of which records are the station's.
fn clock_values(file: &StationFile, claims: &Claims) -> [KeyValue; 5] {
    let clock = match file.clock {
        StampClock::None => "none",
        StampClock::Utc => "utc",
    };
    [
        KeyValue::word("clock", clock, "none"),
        KeyValue::number("clock_error", file.clock_error, USUAL_CLOCK_ERROR),
        KeyValue::optional("until", claims.until),
        KeyValue::number("tap", 0, 0),
        KeyValue::optional("interface", claims.interface.map(u64::from)),
    ]
}

/// The first line as an object in JSON.
#[derive(Clone, Copy)]
pub struct PremisesObject<'a>(pub Premises<'a>);

impl fmt::Display for PremisesObject<'_> {
    fn fmt<W: fmt::Write>(&self, f: &mut fmt::Formatter<W>) -> fmt::Result {
        let premises = &self.0;
        let address = premises.file.claims.address;
        let claims = premises.claims();
        write!(f, "{{\"station\":\"{address}\",\"claims\":{{")?;
        let mut part = "";
        for value in values_of(premises.file, &claims) {
            if !matches!(value.shown, Shown::Absent) {
                write!(f, "{part}\"{}\":", value.key)?;
                write_value(value.shown, f)?;
                part = ",";
            }
        }
        f.write_str("},\"assumed\":[")?;
        let assumed = premises.assumed.beyond(&premises.file.claims);
        part = "";
        for claim in CLAIMS {
            if assumed.has(claim) {
                write!(f, "{part}\"{}\"", claim.word())?;
                part = ",";
            }
        }
        write!(f, "],\"version\":\"{}\"}}", premises.version)
    }
}

/// Writes a value in JSON.
fn write_value<W: fmt::Write>(shown: Shown, f: &mut fmt::Formatter<W>) -> fmt::Result {
    match shown {
        Shown::Word(word) => write!(f, "\"{word}\""),
        _ => write!(f, "{shown}"),
    }
}
