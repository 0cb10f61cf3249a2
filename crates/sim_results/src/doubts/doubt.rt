//! What is doubtful about a run.

use cmd_quoting::OneLine;
use std::fmt;

/// A sign that a run isn't what its author meant: a mistake that changes numbers and is not
/// reported otherwise. It prints as a sentence: where it is, what is wrong, what to do.
#[derive(Debug, Drop, PartialEq, Eq)]
pub enum Doubt {
    /// A key of the scenario is unknown and ignored. With its sentence.
    UnknownKey(String),
    /// The run and the rows of the file of moves don't have the same times.
    Begin(BeginDoubt),
    /// Rows of a vehicle are farther apart than the time after which it departs.
    RowsApart(RowsApart),
    /// Rows of one vehicle have the same time. With how many, and the first of them.
    SameTime { rows: usize, id: String, at: u64 },
    /// Each position of the file is written with two decimals of a degree, or fewer.
    CoarsePositions { rows: usize },
    /// All stations are always at one point.
    OnePoint { stations: usize },
    /// All stations are always in range of one point.
    InRangeOfOnePoint { stations: usize, range: u16 },
    /// The traffic of one sender takes much of the channel.
    BusyChannel(BusyChannel),
    /// What is doubtful about the warning of an event, by its number in the scenario.
    Warning { event: usize, why: WarningDoubt },
}

/// What is doubtful about the time at which a run begins in its file of moves. Times are those of
/// the file, in milliseconds.
#[derive(Clone, Copy, Debug, PartialEq, Eq)]
pub enum BeginDoubt {
    /// The file has no row.
    NoRows,
    /// Each row comes before the begin of the run.
    AfterRows { begin: u64, last: u64 },
    /// Each row comes after the end of the run.
    EndsBeforeRows { first: u64, end: u64 },
    /// The run begins long before the first row, and sends a warning before it.
    BeforeRows { begin: u64, first: u64 },
    /// The begin is less than a second, and isn't the time of a row.
    BetweenRows { begin: u64, first: u64 },
}

/// How far apart the rows of vehicles are that depart between them.
#[derive(Clone, Copy, Debug, Default, PartialEq, Eq)]
pub struct RowsApart {
    /// How many rows come after such a departure.
    pub rows: usize,
    /// How many rows follow another one of their vehicle.
    pub of: usize,
    /// The least of these times in milliseconds.
    pub least: u64,
    /// The greatest of them.
    pub most: u64,
    /// The time after which a vehicle departs.
    pub gone: u64,
}

/// How much of the channel the traffic of one sender takes.
#[derive(Clone, Copy, Debug, PartialEq, Eq)]
pub struct BusyChannel {
    /// The traffic, by its number in the scenario.
    pub every: usize,
    /// The milliseconds between two of its frames.
    pub period: u32,
    /// The percentage of the time that they take.
    pub percent: u64,
}

/// What is doubtful about a warning.
#[derive(Clone, Copy, Debug, PartialEq, Eq)]
pub enum WarningDoubt {
    /// Its lifetime is shorter than a second. With the octet, and its meaning.
    ShortLifetime { octet: u8, millis: u64 },
    /// No station was ever in its area. With the least distance of all stations from its centre in
    /// kilometres, if that is far.
    EmptyArea { away: Option<u64> },
    /// None of this many stations in its area had its port open, and not all are the sender.
    ClosedPort { port: u16, stations: usize },
    /// The run ended before this many of its deliveries.
    CutOff { deliveries: usize, end: u64 },
}

impl Doubt {
    /// Returns its keyword in JSON, which doesn't change with the sentence.
    pub fn word(&self) -> &'static str {
        match self {
            Doubt::UnknownKey(_) => "unknown-key",
            Doubt::Begin(_) => "begin",
            Doubt::RowsApart(_) => "rows-apart",
            Doubt::SameTime { .. } => "same-time",
            Doubt::CoarsePositions { .. } => "coarse-positions",
            Doubt::OnePoint { .. } => "one-point",
            Doubt::InRangeOfOnePoint { .. } => "one-range",
            Doubt::BusyChannel(_) => "busy-channel",
            Doubt::Warning { why, .. } => why.word(),
        }
    }

    /// Returns the number in the scenario of the event that it is about, if it is about one.
    pub fn event(&self) -> Option<usize> {
        match self {
            Doubt::Warning { event, .. } => Some(*event),
            _ => None,
        }
    }
}

impl fmt::Display for Doubt {
    fn fmt<W: fmt::Write>(&self, f: &mut fmt::Formatter<W>) -> fmt::Result {
        match self {
            Doubt::UnknownKey(sentence) => f.write_str(sentence.as_str()),
            Doubt::Begin(begin) => write!(f, "moves: {begin}"),
            Doubt::RowsApart(apart) => write!(f, "moves: gone: {apart}"),
            Doubt::SameTime { rows, id, at } => write!(
                f,
                "moves: {rows} rows have the id and the time of another one, \
                the first is '{}' at {at} ms: keep one of them",
                OneLine(id.as_str())
            ),
            Doubt::CoarsePositions { rows } => write!(
                f,
                "moves: the positions of all {rows} rows are multiples of 0.01 degree, \
                about 1 km: write more decimals"
            ),
            Doubt::OnePoint { stations } => write!(
                f,
                "all {stations} stations are always within 1 m of one point: \
                give lat and lon in tenths of a microdegree"
            ),
            Doubt::InRangeOfOnePoint { stations, range } => write!(
                f,
                "all {stations} stations are always within range ({range} m) of one point: \
                check the units of range, lat and lon"
            ),
            Doubt::BusyChannel(busy) => write!(f, "{busy}"),
            Doubt::Warning { event, why } => write!(f, "event {event}: {why}"),
        }
    }
}

impl fmt::Display for BeginDoubt {
    fn fmt<W: fmt::Write>(&self, f: &mut fmt::Formatter<W>) -> fmt::Result {
        match self {
            BeginDoubt::NoRows => f.write_str("the file has no rows"),
            BeginDoubt::AfterRows { begin, last } => write!(
                f,
                "begin: no row is at {begin} ms or later, the last one is at {last} ms"
            ),
            BeginDoubt::EndsBeforeRows { first, end } => write!(
                f,
                "begin: the run ends at {end} ms of the file, the first row is at {first} ms"
            ),
            BeginDoubt::BeforeRows { begin, first } => write!(
                f,
                "begin: the run begins at {begin} ms of the file and sends a warning \
                before the first row, which is at {first} ms"
            ),
            BeginDoubt::BetweenRows { begin, first } => write!(
                f,
                "begin: no row is at {begin} ms, the next one is at {first} ms: \
                give begin in milliseconds"
            ),
        }
    }
}

impl fmt::Display for BusyChannel {
    fn fmt<W: fmt::Write>(&self, f: &mut fmt::Formatter<W>) -> fmt::Result {
        let (every, period, percent) = (self.every, self.period, self.percent);
        write!(
            f,
            "every {every}: each sender with period {period} ms takes {percent} % of the channel: \
            give period in milliseconds"
        )
    }
}

impl fmt::Display for RowsApart {
    fn fmt<W: fmt::Write>(&self, f: &mut fmt::Formatter<W>) -> fmt::Result {
        let (rows, of, least, most, gone) = (self.rows, self.of, self.least, self.most, self.gone);
        write!(f, "{rows} of {of} rows come {least}")?;
        if least < most {
            write!(f, " to {most}")?;
        }
        write!(
            f,
            " ms after the row before of their vehicle, which leaves after {gone} ms: \
            set gone to at least {most}"
        )
    }
}

impl WarningDoubt {
    /// The word for it in JSON.
    fn word(self) -> &'static str {
        match self {
            WarningDoubt::ShortLifetime { .. } => "short-lifetime",
            WarningDoubt::EmptyArea { .. } => "empty-area",
            WarningDoubt::ClosedPort { .. } => "closed-port",
            WarningDoubt::CutOff { .. } => "cut-off",
        }
    }
}

impl fmt::Display for WarningDoubt {
    fn fmt<W: fmt::Write>(&self, f: &mut fmt::Formatter<W>) -> fmt::Result {
        match self {
            WarningDoubt::ShortLifetime { octet, millis } => write!(
                f,
                "lt {octet} is a lifetime of {millis} ms: lt is the octet of the packet, \
                26 is 60 s"
            ),
            WarningDoubt::EmptyArea { away: None } => {
                f.write_str("no station was ever in its area: check alat, alon, a and b")
            }
            WarningDoubt::EmptyArea { away: Some(away) } => write!(
                f,
                "no station was ever in its area, all were at least {away} km from its centre: \
                give alat and alon in tenths of a microdegree"
            ),
            WarningDoubt::ClosedPort { port, stations } => write!(
                f,
                "no station in its area had port {port} open, of {stations} there: \
                open the port by an event or by ports of [moves]"
            ),
            WarningDoubt::CutOff { deliveries, end } => write!(
                f,
                "{deliveries} deliveries of it were not run: the run ends at {end} ms (until)"
            ),
        }
    }
}
