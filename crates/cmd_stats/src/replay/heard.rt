//! The outcomes of a capture's records, and the sink that takes them.

use crate::replay::reply::UnitReply;
use cap_records::RecordFault;
use cmd_reporting::Fault;

/// The outcome of a selected record.
#[derive(Debug, Drop, PartialEq, Eq)]
pub enum Heard {
    /// The unit received its frame.
    Received {
        /// The record's time, in milliseconds.
        moment: u64,
        /// The octets that the unit received.
        frame: Vec<u8>,
        /// What the unit returned.
        reply: UnitReply,
    },
    /// Its link layer has no frame, so nothing reached the unit.
    Nothing {
        /// The record's time, in milliseconds.
        moment: u64,
        /// Why the record has no frame.
        fault: RecordFault,
    },
    /// The station under test sent it, so the unit receives nothing.
    Sent {
        /// The record's time, in milliseconds.
        moment: u64,
        /// The octets that it sent.
        frame: Vec<u8>,
        /// The source of the packet. `None` if the octets are not a frame that is read.
        source: Option<u64>,
    },
}

impl Heard {
    /// The record's time, in milliseconds.
    pub(crate) fn moment(&self) -> u64 {
        match self {
            Heard::Received { moment, .. }
            | Heard::Nothing { moment, .. }
            | Heard::Sent { moment, .. } => *moment,
        }
    }

    /// Whether the station under test sent it.
    pub(crate) fn is_sent(&self) -> bool {
        matches!(self, Heard::Sent { .. })
    }
}

/// Takes the outcomes of records, one by one, in their order.
pub trait HeardSink {
    ghost use Rattle.std.specs.Prelude.{◌++◌, ◌∷◌, [], List, OnOk};
    ghost use Rattle.cmd_stats.specs.declared.replay.heard.Heard.{Heard};

    /// What holds for a sink that took these outcomes, in order. A sink that keeps none may say
    /// nothing.
    ghost Took: { Self → List Heard → Type 0 };

    /// Takes the outcome of the next record. `NoOutput` if a write failed, `OutOfMemory` if an
    /// allocation did.
    fn put<'f>(&mut self, heard: Heard) -> Result<(), Fault<'f>>
        ensures { (log : List Heard) → Took self.old log
            → OnOk result (Took self.new (log ++ heard ∷ [])) };
}
