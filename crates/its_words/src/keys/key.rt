//! The keys of calls, and of a scenario and its tables: the one table of their words and ranges.

ghost use Rattle.std.specs.Prelude.{◌≡◌};
ghost use Rattle.its_words.specs.Keys.{least_of, most_of, word_of};

use crate::keys::meant::Spelled;
use std::fmt;

/// A key of a call, of a scenario or of one of its tables. It prints as its word.
#[derive(Clone, Copy, Debug, PartialEq, Eq)]
pub enum Key {
    /// The address of a station: 16 hexadecimal digits, whose MID is not a group address.
    Address,
    /// The latitude of a station, in tenths of a microdegree.
    Lat,
    /// The longitude of a station, in tenths of a microdegree.
    Lon,
    /// The size of a location table in entries: 1 to 4096 (default 64).
    Capacity,
    /// The length of the duplicate packet list of a source: 1 to 64 (default 8).
    Remember,
    /// Whether a station is absent at the start: true or false (default false).
    Absent,
    /// The station of an event, counted from 0: 0 to 65535.
    Station,
    /// The station of an event by the id of its rows in a file of moves.
    Id,
    /// The time of an event in milliseconds: 0 to 2^63 - 1.
    At,
    /// What the station does.
    Do,
    /// Whether a position is accurate: true or false.
    Pai,
    /// A speed in 0.01 m/s: -16384 to 16383.
    Speed,
    /// A heading in 0.1 degree: 0 to 65535.
    Heading,
    /// A port: 0 to 65535.
    Port,
    /// A jitter in milliseconds: 0 to 65535.
    Jitter,
    /// A destination port info: 0 to 65535.
    Info,
    /// A traffic class: 0 to 255.
    Tc,
    /// A payload: an even number of hexadecimal digits.
    Payload,
    /// A lifetime's octet: 0 to 255.
    Lt,
    /// The maximum hop limit: 0 to 255.
    Hops,
    /// The shape of an area: `circle`, `rectangle` or `ellipse`.
    Shape,
    /// The latitude of an area's centre, in tenths of a microdegree.
    Alat,
    /// The longitude of an area's centre, in tenths of a microdegree.
    Alon,
    /// The radius of a circle, or the half length along the angle: 1 to 65535 m.
    A,
    /// The half length across the angle: 1 to 65535 m, or 0 for a circle.
    B,
    /// The angle of an area: 0 to 359 degrees, or 0 for a circle.
    Angle,
    /// The next sequence number of a station that restarts: 0 to 65535.
    Number,
    /// The frame that is delivered, counted from 0: 0 to 4294967295.
    Frame,
    /// The range within which a frame is received: 1 to 65535 m.
    Range,
    /// The milliseconds from sending a frame to its deliveries: 0 to 65535 (default 1).
    Delay,
    /// The percentage of deliveries that are lost: 0 to 100 (default 0).
    Loss,
    /// The seed of the random numbers: 0 to 2^63 - 1 (default 0).
    Seed,
    /// Whether each station sends beacons by itself: true or false (default false).
    Beacons,
    /// The last time that is run, in milliseconds: 0 to 2^62.
    Until,
    /// Whether stations contend before they forward a packet inside its area: true or false
    /// (default false).
    Contention,
    /// The greatest wait of a station that contends, in milliseconds: 1 to 1000 (default 100).
    ContentionMax,
    /// The least wait of a station that contends, in milliseconds: 0 to 1000, and at most the
    /// greatest (default 1).
    ContentionMin,
    /// The distance of the sender from which on the wait is the least: 1 to 65535 m (default 1000).
    ContentionRange,
    /// How many other stations have to have sent a frame that waits to cancel it: 1 to 3
    /// (default 2).
    ContentionCopies,
    /// The milliseconds from one send to the next: 1 to 4294967295.
    Period,
    /// The length of the payload in octets: 0 to 1394.
    Octets,
    /// The send of which an outcome is expected, counted from 0: 0 to 4294967295.
    Send,
    /// The number of stations at which it has to be delivered: 0 to 65535, or `all`.
    Reached,
    /// The milliseconds within which it has to be delivered: 0 to 2^62.
    Within,
    /// The time in a file of moves at which the run begins: 0 to 2^62 (default 0).
    Begin,
    /// The milliseconds without a row after which a station leaves: 1 to 4294967295 (default 1000).
    Gone,
    /// The MID of the first station that a row makes: 12 hexadecimal digits, not a group address
    /// (default 020100000001).
    Mid,
    /// The ports that are opened by a station that a row makes: at most 64, all different (default:
    /// no ports).
    Ports,
    /// The events of a scenario.
    Event,
    /// The radio model, which carries frames from station to station.
    Air,
    /// What stations send periodically.
    Every,
    /// How moves from a file are read.
    Moves,
    /// What is expected of a run.
    Expect,
}

impl Key {
    /// Returns the word of the key.
    pub fn word(self) -> &'static str
        ensures { result.now ≡ word_of self }
    {
        match self {
            Key::Address => "address",
            Key::Lat => "lat",
            Key::Lon => "lon",
            Key::Capacity => "capacity",
            Key::Remember => "remember",
            Key::Absent => "absent",
            Key::Station => "station",
            Key::Id => "id",
            Key::At => "at",
            Key::Do => "do",
            Key::Pai => "pai",
            Key::Speed => "speed",
            Key::Heading => "heading",
            Key::Port => "port",
            Key::Jitter => "jitter",
            Key::Info => "info",
            Key::Tc => "tc",
            Key::Payload => "payload",
            Key::Lt => "lt",
            Key::Hops => "hops",
            Key::Shape => "shape",
            Key::Alat => "alat",
            Key::Alon => "alon",
            Key::A => "a",
            Key::B => "b",
            Key::Angle => "angle",
            Key::Number => "number",
            Key::Frame => "frame",
            Key::Range => "range",
            Key::Delay => "delay",
            Key::Loss => "loss",
            Key::Seed => "seed",
            Key::Beacons => "beacons",
            Key::Until => "until",
            Key::Contention => "contention",
            Key::ContentionMax => "contention_max",
            Key::ContentionMin => "contention_min",
            Key::ContentionRange => "contention_range",
            Key::ContentionCopies => "contention_copies",
            Key::Period => "period",
            Key::Octets => "octets",
            Key::Send => "send",
            Key::Reached => "reached",
            Key::Within => "within",
            Key::Begin => "begin",
            Key::Gone => "gone",
            Key::Mid => "mid",
            Key::Ports => "ports",
            Key::Event => "event",
            Key::Air => "air",
            Key::Every => "every",
            Key::Moves => "moves",
            Key::Expect => "expect",
        }
    }

    /// Returns the least number that the key takes. 0 if its value is not a number.
    pub fn least(self) -> i64
        ensures { result ≡ least_of self }
    {
        match self {
            Key::Lat | Key::Alat => -900_000_000,
            Key::Lon | Key::Alon => -1_800_000_000,
            Key::Speed => -16384,
            Key::Capacity | Key::Remember | Key::A | Key::B | Key::Range => 1,
            Key::Period | Key::Gone => 1,
            Key::ContentionMax | Key::ContentionRange | Key::ContentionCopies => 1,
            _ => 0,
        }
    }

    /// Returns the greatest number that the key takes. 0 if its value is not a number.
    pub fn most(self) -> i64
        ensures { result ≡ most_of self }
    {
        match self {
            Key::Address | Key::Do | Key::Pai | Key::Payload | Key::Shape | Key::Beacons => 0,
            Key::Absent | Key::Id | Key::Mid | Key::Ports | Key::Contention => 0,
            Key::Event | Key::Air | Key::Every | Key::Moves | Key::Expect => 0,
            Key::Lat | Key::Alat => 900_000_000,
            Key::Lon | Key::Alon => 1_800_000_000,
            Key::Speed => 16383,
            Key::Capacity => 4096,
            Key::Remember => 64,
            Key::Loss => 100,
            Key::ContentionMax | Key::ContentionMin => 1000,
            Key::ContentionCopies => 3,
            Key::Tc | Key::Lt | Key::Hops => 255,
            Key::Angle => 359,
            Key::Frame | Key::Send | Key::Period | Key::Gone => 4_294_967_295,
            Key::Octets => 1394,
            Key::Until | Key::Within | Key::Begin => 1 << 62,
            Key::At | Key::Seed => i64::MAX,
            _ => 65535,
        }
    }

    /// Returns the kind of value that the key takes, for the sentence that a value is not of it.
    pub(crate) fn kind(self) -> &'static str {
        match self {
            Key::Address | Key::Do | Key::Payload | Key::Shape | Key::Id | Key::Mid => "a text",
            Key::Pai | Key::Beacons | Key::Absent | Key::Contention => "true or false",
            Key::Reached => "a whole number or all",
            Key::Lat | Key::Lon | Key::Alat | Key::Alon => {
                "a whole number of tenths of a microdegree: 481000000 is 48.1 degrees"
            }
            Key::Range | Key::ContentionRange | Key::A | Key::B => "a whole number of metres",
            Key::At | Key::Until | Key::Delay | Key::Jitter => "a whole number of milliseconds",
            Key::Period | Key::Gone | Key::Begin | Key::Within => "a whole number of milliseconds",
            Key::ContentionMax | Key::ContentionMin => "a whole number of milliseconds",
            Key::Loss => "a whole number of percent, from 0 to 100",
            Key::Speed => "a whole number of 0.01 m/s: 1390 is 13.9 m/s",
            Key::Heading => "a whole number of 0.1 degree: 900 is east",
            Key::Angle => "a whole number of degrees",
            Key::Octets => "a whole number of octets",
            Key::Air | Key::Moves => "a table",
            Key::Ports => "an array",
            Key::Event | Key::Every | Key::Expect => "an array of tables",
            _ => "a whole number",
        }
    }

    /// Returns the form of the texts that the key takes, for the sentence that a text is not of it.
    /// `None` if its value is not a text.
    pub(crate) fn form(self) -> Option<&'static str> {
        match self {
            Key::Address => {
                Some("the address of one station: 16 hexadecimal digits without colons")
            }
            Key::Do => Some("a word for what a station does"),
            Key::Payload => Some("an even number of hexadecimal digits: 6869 is 'hi'"),
            Key::Shape => Some("circle, rectangle or ellipse"),
            Key::Mid => Some("12 hexadecimal digits of a MID that is no group's"),
            Key::Id => Some("1 to 64 octets without control characters"),
            Key::Ports => Some("at most 64 different ports"),
            _ => None,
        }
    }
}

impl Spelled for Key {
    ghost spelling_of = { word_of };

    fn spelling(self) -> &'static str {
        self.word()
    }
}

impl fmt::Display for Key {
    fn fmt<W: fmt::Write>(&self, f: &mut fmt::Formatter<W>) -> fmt::Result {
        f.write_str(self.word())
    }
}
