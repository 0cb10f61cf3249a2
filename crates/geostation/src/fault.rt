//! Arguments that are refused after they were read.

use cmd_quoting::Quoted;
use cmd_reporting::{CommandFault, ExitStatus, Fault, OutputFormat};
use its_words::frames::Explanation;
use its_words::keys::{Key, WrongValue};
use sim_settings::{SettingFault, SettingReason};
use std::io::Write;
use thiserror::Error;

/// Why the arguments are refused. It prints as its line on standard error.
#[derive(Debug, Drop, Error)]
pub(crate) enum ArgumentFault<'a> {
    /// One is not UTF-8.
    #[error("error: an argument is not UTF-8")]
    NotUtf8,
    /// The argument of a station with this key is missing or has an invalid value.
    #[error("error: {0}: {1}")]
    Key(Key, WrongValue<Quoted<'a>>),
    /// A value of the radio model is invalid, and why, if codes are explained.
    #[error("geostation: {0}")]
    Setting(SettingFault<'a>, Option<SettingReason<'a>>),
    /// A fault that can end any command.
    #[error("{0}")]
    Stopped(Fault<'a>),
}

impl CommandFault for ArgumentFault<'_> {
    type Ending = ExitStatus;

    ghost use Rattle.geostation.specs.Faults.{argument_fault_status};

    ghost status_of = { argument_fault_status };

    /// Returns `BadArguments`, unless memory ran out.
    fn status(&self) -> ExitStatus {
        match self {
            ArgumentFault::NotUtf8 | ArgumentFault::Key(..) | ArgumentFault::Setting(..) => {
                ExitStatus::BadArguments
            }
            ArgumentFault::Stopped(fault) => ExitStatus::Ended(fault.status()),
        }
    }

    fn report<E: Write>(&self, format: OutputFormat, err: &mut E) {
        let reason = match self {
            ArgumentFault::Stopped(fault) => return fault.report(format, err),
            ArgumentFault::Setting(_, reason) => *reason,
            _ => None,
        };
        let _ = writeln!(err, "{self}{}", Explanation(reason));
    }
}

impl<'a> From<Fault<'a>> for ArgumentFault<'a> {
    fn from(fault: Fault<'a>) -> ArgumentFault<'a> {
        ArgumentFault::Stopped(fault)
    }
}
