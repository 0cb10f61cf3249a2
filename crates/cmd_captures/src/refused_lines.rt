//! The lines of rejected records, and of their count. Each prints as a line of text, and is an
//! object in JSON with the same values.

use cap_records::{RecordCode, RecordFault};
use cmd_times::Moment;
use its_words::frames::Explanation;
use its_words::json_lines::Printed;
use serde::Serialize;
use std::fmt;

/// The line of `show` for a record that is rejected.
#[derive(Clone, Copy, Serialize)]
pub(crate) struct RefusedAt {
    #[serde(skip_serializing_if = "Moment::is_fraction")]
    moment: Moment,
    refused: Printed<RecordCode>,
    reason: Printed<RecordFault>,
    #[serde(skip)]
    explain: bool,
}

impl RefusedAt {
    pub(crate) fn new(moment: Moment, fault: RecordFault, explain: bool) -> RefusedAt {
        RefusedAt {
            moment,
            refused: Printed(fault.code()),
            reason: Printed(fault),
            explain,
        }
    }
}

impl RefusedAt {
    /// Returns the record's time.
    pub(crate) fn moment(&self) -> Moment {
        self.moment
    }
}

impl fmt::Display for RefusedAt {
    fn fmt<W: fmt::Write>(&self, f: &mut fmt::Formatter<W>) -> fmt::Result {
        let (code, reason) = (self.refused.0, self.explain.then_some(self.reason.0));
        write!(f, "{} refused {code}{}", self.moment, Explanation(reason))
    }
}

/// The line of `check` for a record that is rejected.
#[derive(Clone, Copy, Serialize)]
pub(crate) struct RefusedRecord {
    record: u64,
    refused: Printed<RecordCode>,
    reason: Printed<RecordFault>,
    #[serde(skip)]
    explain: bool,
}

impl RefusedRecord {
    pub(crate) fn new(record: u64, fault: RecordFault, explain: bool) -> RefusedRecord {
        RefusedRecord {
            record,
            refused: Printed(fault.code()),
            reason: Printed(fault),
            explain,
        }
    }
}

impl fmt::Display for RefusedRecord {
    fn fmt<W: fmt::Write>(&self, f: &mut fmt::Formatter<W>) -> fmt::Result {
        let (code, reason) = (self.refused.0, self.explain.then_some(self.reason.0));
        write!(f, "record {}: {code}{}", self.record, Explanation(reason))
    }
}

/// The line of `convert` for a record that is left out because its secured frame can't be read.
#[derive(Clone, Copy)]
pub(crate) struct UnreadRecord {
    record: u64,
    fault: RecordFault,
    explain: bool,
}

impl UnreadRecord {
    pub(crate) fn new(record: u64, fault: RecordFault, explain: bool) -> UnreadRecord {
        UnreadRecord {
            record,
            fault,
            explain,
        }
    }
}

impl fmt::Display for UnreadRecord {
    fn fmt<W: fmt::Write>(&self, f: &mut fmt::Formatter<W>) -> fmt::Result {
        let (code, reason) = (self.fault.code(), self.explain.then_some(self.fault));
        write!(
            f,
            "geostation: record {}: {code}{}",
            self.record,
            Explanation(reason)
        )
    }
}

/// The counts of `check`.
#[derive(Clone, Copy, Serialize)]
pub(crate) struct Count {
    records: u64,
    refused: u64,
    #[serde(skip_serializing_if = "Option::is_none")]
    outside: Option<u64>,
}

impl Count {
    /// Returns the line with how many records were selected, how many of them were rejected and, if
    /// all kinds are selected, how many are outside the profile.
    pub(crate) fn new(records: u64, refused: u64, outside: Option<u64>) -> Count {
        Count {
            records,
            refused,
            outside,
        }
    }
}

impl fmt::Display for Count {
    fn fmt<W: fmt::Write>(&self, f: &mut fmt::Formatter<W>) -> fmt::Result {
        write!(f, "{} records, {} refused", self.records, self.refused)?;
        match self.outside {
            Some(outside) => write!(f, ", {outside} outside"),
            None => Ok(()),
        }
    }
}
