//! Why the page is not written.

ghost use Rattle.std.specs.Prelude.{◌≡◌};

use crate::limit::TooLarge;
use cmd_quoting::OneLine;
use cmd_reporting::{Cause, CommandFault, Fault, OutputFormat, Status, WriterFault};
use its_words::frames::Explanation;
use sim_runs::RunFault;
use std::alloc::AllocError;
use std::io;
use std::io::Write;
use thiserror::Error;

/// Why the page is not written. It prints as its line on standard error.
#[derive(Debug, Drop, Error)]
pub(crate) enum PageFault<'a> {
    /// No folder beside the program has the page.
    #[error("geostation: no page beside the program: --viewer names its folder")]
    NoPage,
    /// A style or a script of the page could not be read, and why, if the system said so.
    #[error("geostation: cannot read {}", OneLine(.0.as_str()))]
    PartNotRead(String, Option<Cause>),
    /// A run or a street net is larger than a page holds.
    #[error("geostation: {0}")]
    TooLarge(TooLarge<'a>),
    /// The scenario is not run, or a fault that can end any command.
    #[error("{0}")]
    Run(RunFault<'a>),
}

impl PageFault<'_> {
    /// Returns the fault of a failed read of a style or a script. Out of memory has its own.
    pub(crate) fn of_part<'a>(error: &io::Error, path: String) -> PageFault<'a> {
        if error.kind() == io::ErrorKind::OutOfMemory {
            return PageFault::from(AllocError);
        }
        PageFault::PartNotRead(path, Cause::of(error))
    }
}

impl CommandFault for PageFault<'_> {
    type Ending = Status;

    ghost use Rattle.cmd_page.specs.Faults.{page_fault_status};

    ghost status_of = { page_fault_status };

    /// `Refused` for a file that is too large, the status of a run's fault for that, otherwise
    /// `Failed`.
    fn status(&self) -> Status {
        match self {
            PageFault::TooLarge(_) => Status::Refused,
            PageFault::NoPage | PageFault::PartNotRead(..) => Status::Failed,
            PageFault::Run(fault) => fault.status(),
        }
    }

    /// Adds the system's reason to the line of a style or a script.
    fn report<E: Write>(&self, format: OutputFormat, err: &mut E) {
        let cause = match self {
            PageFault::Run(fault) => return fault.report(format, err),
            PageFault::PartNotRead(_, cause) if format.explain => *cause,
            _ => None,
        };
        let _ = writeln!(err, "{self}{}", Explanation(cause));
    }
}

impl From<AllocError> for PageFault<'_> {
    fn from(error: AllocError) -> Self {
        PageFault::Run(RunFault::Stopped(Fault::OutOfMemory(error)))
    }
}

impl<'a> From<Fault<'a>> for PageFault<'a> {
    fn from(fault: Fault<'a>) -> PageFault<'a> {
        PageFault::Run(RunFault::Stopped(fault))
    }
}

impl<'a> From<TooLarge<'a>> for PageFault<'a> {
    fn from(fault: TooLarge<'a>) -> PageFault<'a> {
        PageFault::TooLarge(fault)
    }
}

impl<'a> From<RunFault<'a>> for PageFault<'a> {
    fn from(fault: RunFault<'a>) -> PageFault<'a> {
        PageFault::Run(fault)
    }
}

impl<'a> From<PageFault<'a>> for WriterFault<'a, PageFault<'a>> {
    ghost use Rattle.cmd_reporting.specs.declared.fault.WriterFault.TheVariants as writer_faults;

    ghost from_gives = { λ fault e. e ≡ writer_faults.Stopped fault };

    fn from(fault: PageFault<'a>) -> WriterFault<'a, PageFault<'a>> {
        WriterFault::Stopped(fault)
    }
}
