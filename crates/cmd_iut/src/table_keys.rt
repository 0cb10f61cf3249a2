//! The tables and keys of a station file.

use std::fmt;

/// A table of a station file.
#[derive(Clone, Copy)]
pub enum TableName {
    /// What the station is.
    Station,
    /// What its maker claims.
    Claims,
    /// What is known of the capture.
    Capture,
}

/// The tables, in the order in which they are checked.
pub(crate) const TABLES: [TableName; 3] = [
    TableName::Station,
    TableName::Claims,
    TableName::Capture,
];

/// The keys of a station, in the order in which they are checked.
const STATION_KEYS: [&str; 8] = [
    "address",
    "mac",
    "lat",
    "lon",
    "accuracy",
    "tolerance",
    "age",
    "mobile",
];

/// The keys of claims, in the order in which they are checked.
const CLAIM_KEYS: [&str; 17] = [
    "area",
    "elsewhere",
    "remember",
    "life",
    "capacity",
    "profile",
    "interval",
    "jitter",
    "reset",
    "lifetime",
    "modulus",
    "gapless",
    "rate",
    "steady",
    "fresh",
    "unlimited",
    "unbuffered",
];

/// The keys of a capture, in the order in which they are checked.
const CAPTURE_KEYS: [&str; 11] = [
    "sent",
    "received",
    "delivered",
    "within",
    "queue",
    "skew",
    "clock",
    "clock_error",
    "until",
    "tap",
    "interface",
];

impl TableName {
    /// Returns its name.
    pub(crate) fn word(self) -> &'static str {
        match self {
            TableName::Station => "station",
            TableName::Claims => "claims",
            TableName::Capture => "capture",
        }
    }

    /// Returns the table with this name.
    pub(crate) fn named(word: &str) -> Option<TableName> {
        TABLES.iter().copied().find(|table| table.word() == word)
    }

    /// Whether it has a key.
    pub(crate) fn has_key(self, name: &str) -> bool {
        let keys = match self {
            TableName::Station => STATION_KEYS.as_slice(),
            TableName::Claims => CLAIM_KEYS.as_slice(),
            TableName::Capture => CAPTURE_KEYS.as_slice(),
        };
        keys.iter().any(|key| *key == name)
    }
}

impl fmt::Display for TableName {
    fn fmt<W: fmt::Write>(&self, f: &mut fmt::Formatter<W>) -> fmt::Result {
        f.write_str(self.word())
    }
}
