//! The exit statuses of the program and of its commands.

ghost use Rattle.std.specs.Prelude.{◌≡◌};
ghost use Rattle.cmd_reporting.specs.Statuses.{exit_code};

/// How a command ended, if its arguments were accepted.
#[derive(Clone, Copy, Debug, PartialEq, Eq)]
pub enum Status {
    /// The command is done, and nothing was refused.
    Done,
    /// A record, a line, the capture or the scenario was refused.
    Refused,
    /// A file or a socket failed, or memory ran out.
    Failed,
}

/// How the program ended.
#[derive(Clone, Copy, Debug, PartialEq, Eq)]
pub enum ExitStatus {
    /// The arguments were accepted, and the command ended with this status.
    Ended(Status),
    /// The arguments were refused.
    BadArguments,
}

impl ExitStatus {
    /// Returns the number with which the process ends: 0 (`Done`), 1 (`Refused`), 2
    /// (`BadArguments`) or 3 (`Failed`).
    pub fn code(self) -> u8
        ensures { result ≡ exit_code self }
    {
        match self {
            ExitStatus::Ended(Status::Done) => 0,
            ExitStatus::Ended(Status::Refused) => 1,
            ExitStatus::BadArguments => 2,
            ExitStatus::Ended(Status::Failed) => 3,
        }
    }
}

impl From<Status> for ExitStatus {
    ghost use Rattle.cmd_reporting.specs.declared.status.ExitStatus.TheVariants.{Ended};

    ghost from_gives = { λ status exit. exit ≡ Ended status };

    fn from(status: Status) -> ExitStatus {
        ExitStatus::Ended(status)
    }
}
