//! The streams of a command, and how it ends.

ghost use Rattle.std.specs.Prelude.{◌≡◌, MatchResult};

use crate::fault::CommandFault;
use crate::options::OutputFormat;
use crate::status::Status;
use std::io::Write;

/// The streams to which a command prints, and the format.
#[derive(Drop)]
pub struct Io<W, E> {
    /// Standard output.
    pub out: W,
    /// Standard error. A failed write to it changes nothing.
    pub err: E,
    /// How lines are printed. For a command that prints none to standard output, only `explain`
    /// matters.
    pub format: OutputFormat,
}

impl<W, E: Write> Io<W, E> {
    /// Returns the exit status of a command that ended as `ended` says: an `ExitStatus` if its
    /// arguments may be refused, otherwise a `Status`. A fault is printed as its line on standard
    /// error, with the reason if `explain` is set.
    pub fn status_of<F: CommandFault + Drop>(&mut self, ended: Result<Status, F>) -> F::Ending
        ensures { MatchResult ended
            (λ status. F.Ending.from_gives status result)
            (λ fault. result ≡ F.status_of fault) }
    {
        match ended {
            Ok(status) => F::Ending::from(status),
            Err(fault) => {
                fault.report(self.format, &mut self.err);
                fault.status()
            }
        }
    }
}
