//! What has no place in a file that is written.

ghost use Rattle.std.specs.Prelude.{◌≡◌};

use crate::options::OutputFormat;
use cap_pcap::SinkFault;
use its_words::frames::Explanation;
use std::fmt;

/// A record or a frame that has no place in a file. It prints as its line on standard error.
#[derive(Clone, Copy)]
pub struct LeftOut {
    noun: &'static str,
    number: u64,
    fault: SinkFault,
    explain: bool,
}

impl LeftOut {
    /// A `record` or a `frame` (the noun) by its number, with the reason. Only `explain` of `lines`
    /// matters.
    pub fn new(noun: &'static str, number: u64, fault: SinkFault, lines: OutputFormat) -> LeftOut
        ensures { result ≡ record {
          noun = noun.entry;
          number = number;
          fault = fault;
          explain = lines.explain;
        } }
    {
        LeftOut {
            noun,
            number,
            fault,
            explain: lines.explain,
        }
    }
}

impl fmt::Display for LeftOut {
    fn fmt<W: fmt::Write>(&self, f: &mut fmt::Formatter<W>) -> fmt::Result {
        let (noun, number) = (self.noun, self.number);
        let word = self.fault.word().unwrap_or("");
        let reason = Explanation(self.explain.then_some(self.fault));
        write!(f, "geostation: {noun} {number}: {word}{reason}")
    }
}
