//! The line for a file that is rejected.

ghost use Rattle.std.specs.Prelude.{◌≡◌, Some, None, if◌then◌else◌};
ghost use Rattle.cap_pcap.specs.Codes.{code_of};

use crate::refusal::FileFault;
use its_words::frames::Explanation;
use serde::Serialize;
use std::fmt;

/// The line for a file that is rejected after this number of records.
#[derive(Clone, Copy, Serialize)]
pub struct RefusedCapture {
    capture: &'static str,
    record: u64,
    #[serde(skip)]
    reason: Option<FileFault>,
}

impl RefusedCapture {
    /// Returns the line for a file that is rejected by this fault after this number of records.
    /// With `explain` it ends with the reason.
    pub fn new(records: u64, fault: FileFault, explain: bool) -> RefusedCapture
        ensures code { result.capture.now ≡ code_of fault.fault }
        ensures record { result.record ≡ records }
        ensures reason { result.reason ≡ if explain then Some fault else None }
    {
        RefusedCapture {
            capture: fault.code(),
            record: records,
            reason: explain.then_some(fault),
        }
    }
}

impl fmt::Display for RefusedCapture {
    fn fmt<W: fmt::Write>(&self, f: &mut fmt::Formatter<W>) -> fmt::Result {
        let (code, reason) = (self.capture, Explanation(self.reason));
        write!(f, "capture: {code} at record {}{reason}", self.record)
    }
}
