//! How many records of a file were read.

ghost use Rattle.std.specs.Prelude.{◌≡◌, ◌≤◌, ◌<◌, ◌+◌, ◌-◌, ◌^◌, if◌then◌else◌};

/// How many records of a file were read, and how many of them are selected.
#[derive(Clone, Copy, Debug, PartialEq, Eq)]
pub struct RecordCounts {
    /// How many records were read.
    pub read: u64,
    /// How many of them are selected.
    pub chosen: u64,
    /// How many steps are left. The count makes a loop end for any source. No file uses it up: a
    /// step has at least 11 octets, so 2^64 steps need over 2^67 octets.
    pub left: u64,
    ghost bounded: { read + left ≤ 2 ^ 64 - 1 },
    ghost fewer: { chosen ≤ read },
}

impl RecordCounts {
    /// Returns the counts before the first step.
    pub fn begin() -> RecordCounts
        ensures { (result.read ≡ 0) × (result.chosen ≡ 0) × (result.left ≡ 2 ^ 64 - 1) }
    {
        RecordCounts {
            read: 0,
            chosen: 0,
            left: u64::MAX,
        }
    }

    /// Returns the number of the last record: how many come before it.
    pub fn last(self) -> u64 {
        self.read.saturating_sub(1)
    }

    /// Returns the counts with one step fewer left.
    pub(crate) fn after_step(self) -> RecordCounts
        requires { 0 < self.left }
        ensures { (result.read ≡ self.read) × (result.chosen ≡ self.chosen)
            × (result.left + 1 ≡ self.left) }
    {
        RecordCounts {
            read: self.read,
            chosen: self.chosen,
            left: self.left - 1,
        }
    }

    /// Returns the counts with one more record.
    pub(crate) fn after_record(self, is_chosen: bool) -> RecordCounts
        requires { self.read + self.left < 2 ^ 64 - 1 }
        ensures { (result.read ≡ self.read + 1)
            × (result.chosen ≡ self.chosen + (if is_chosen then 1 else 0))
            × (result.left ≡ self.left) }
    {
        RecordCounts {
            read: self.read + 1,
            chosen: self.chosen + u64::from(is_chosen),
            left: self.left,
        }
    }
}
