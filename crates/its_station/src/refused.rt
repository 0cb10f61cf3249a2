//! Why a call is refused.

ghost use Rattle.std.specs.Prelude.{◌≡◌, IsSome, MatchResult};
ghost use Rattle.its_station.specs.Steps.{refusal_of};

use its_btp::PortFault;
use its_faults::{FrameFault, SecuredFault};
use its_gnvalue::NoMemory;
use std::error::Error;
use std::fmt;

/// Why a call is refused. It changed nothing then: clock, sequence number, table and ports too.
#[derive(Clone, Copy, Debug, PartialEq, Eq)]
pub enum Refused {
    /// S1: the moment is below the clock.
    MomentEarlier,
    /// S2: the moment is over 2^62 ms.
    MomentTooLate,
    /// S9: the jitter is over 750 ms.
    JitterRange,
    /// S3: the octets are no frame.
    Frame(FrameFault),
    /// S3: the octets are no secured frame, or with their plain part no packet.
    Secured(SecuredFault),
    /// S8: the port can't be opened or closed.
    Port(PortFault),
    /// S6: the payload is over 1394 octets.
    PayloadTooLong,
    /// S7: the packet would have no hop.
    HopLimitZero,
    /// S4: the location table has no room for the packet's source.
    TableFull,
    /// S5: an allocation failed.
    NoMemory,
}

impl Refused {
    /// What logs and the program's lines show, as `S4`, `S8 B2` or `S3 L5 G9 at 10`.
    pub fn code(&self) -> RefusedCode
        ensures { result ≡ record { 0 = self.now } }
    {
        RefusedCode(*self)
    }

    /// Returns the reason, if it is not memory. Then it is an answer of the station. Fails with
    /// `NoMemory` if an allocation failed.
    pub fn except_memory(self) -> Result<Refused, NoMemory>
        ensures { MatchResult result
            (λ refused. (refused ≡ self) × IsSome (refusal_of refused))
            (λ _. self ≡ Refused.NoMemory) }
    {
        match self {
            Refused::NoMemory => Err(NoMemory),
            Refused::MomentEarlier
            | Refused::MomentTooLate
            | Refused::JitterRange
            | Refused::Frame(_)
            | Refused::Secured(_)
            | Refused::Port(_)
            | Refused::PayloadTooLong
            | Refused::HopLimitZero
            | Refused::TableFull => Ok(self),
        }
    }
}

impl fmt::Display for Refused {
    fn fmt<W: fmt::Write>(&self, f: &mut fmt::Formatter<W>) -> fmt::Result {
        match self {
            Refused::MomentEarlier => write!(f, "the time is earlier than that of the last call"),
            Refused::MomentTooLate => write!(f, "the time is over 2^62 ms"),
            Refused::JitterRange => write!(f, "the jitter is over 750 ms"),
            Refused::Frame(fault) => write!(f, "{fault}"),
            Refused::Secured(fault) => write!(f, "{fault}"),
            Refused::Port(fault) => write!(f, "{fault}"),
            Refused::PayloadTooLong => write!(f, "the payload is over 1394 octets"),
            Refused::HopLimitZero => write!(f, "the hop limit is 0"),
            Refused::TableFull => write!(f, "the location table is full"),
            Refused::NoMemory => write!(f, "out of memory"),
        }
    }
}

impl Error for Refused {}

impl From<FrameFault> for Refused {
    ghost use Rattle.std.specs.Prelude.{◌≡◌};
    ghost use Rattle.its_station.specs.declared.refused.Refused.TheVariants as refusals;

    ghost from_gives = { λ fault e. e ≡ refusals.Frame fault };

    fn from(fault: FrameFault) -> Refused {
        Refused::Frame(fault)
    }
}

impl From<PortFault> for Refused {
    ghost use Rattle.std.specs.Prelude.{◌≡◌};
    ghost use Rattle.its_station.specs.declared.refused.Refused.TheVariants as refusals;

    ghost from_gives = { λ fault e. e ≡ refusals.Port fault };

    fn from(fault: PortFault) -> Refused {
        Refused::Port(fault)
    }
}

impl From<NoMemory> for Refused {
    ghost use Rattle.std.specs.Prelude.{◌≡◌};
    ghost use Rattle.its_station.specs.declared.refused.Refused.TheVariants as refusals;

    ghost from_gives = { λ _ e. e ≡ refusals.NoMemory };

    fn from(_fault: NoMemory) -> Refused {
        Refused::NoMemory
    }
}

/// A refusal that prints as its code, as `S4`, `S8 B2` or `S3 L5 G9 at 10`.
#[derive(Clone, Copy, Debug, PartialEq, Eq)]
pub struct RefusedCode(pub Refused);

impl fmt::Display for RefusedCode {
    fn fmt<W: fmt::Write>(&self, f: &mut fmt::Formatter<W>) -> fmt::Result {
        match self.0 {
            Refused::MomentEarlier => write!(f, "S1"),
            Refused::MomentTooLate => write!(f, "S2"),
            Refused::Frame(fault) => write!(f, "S3 {}", fault.code()),
            Refused::Secured(fault) => write!(f, "S3 {}", fault.code()),
            Refused::TableFull => write!(f, "S4"),
            Refused::NoMemory => write!(f, "S5"),
            Refused::PayloadTooLong => write!(f, "S6"),
            Refused::HopLimitZero => write!(f, "S7"),
            Refused::Port(fault) => write!(f, "S8 {}", fault.code()),
            Refused::JitterRange => write!(f, "S9"),
        }
    }
}
