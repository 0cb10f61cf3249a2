//! Which of the program's streams are terminals.

ghost use Rattle.std.specs.Prelude.{◌≡◌, ◌&&◌, ◌||◌, not};
ghost use Rattle.cmd_arguments.specs.Console.{is_colored};

/// Which of the program's streams are terminals. By default none is.
#[derive(Clone, Copy, Debug, Default, PartialEq, Eq)]
pub struct Console {
    /// Whether standard output is a terminal.
    pub out: bool,
    /// Whether standard error is a terminal.
    pub err: bool,
    /// Whether the environment allows colours.
    pub colors: bool,
}

/// Where the program colours what it prints.
#[derive(Clone, Copy, Debug, PartialEq, Eq)]
pub enum Coloring {
    /// On a terminal, if the environment allows it.
    Auto,
    /// On any standard output.
    Always,
    /// Nowhere.
    Never,
}

impl Console {
    /// Whether standard output is coloured.
    pub fn is_colored(self, coloring: Coloring) -> bool
        ensures { result ≡ is_colored self coloring }
    {
        match coloring {
            Coloring::Auto => self.out && self.colors,
            Coloring::Always => true,
            Coloring::Never => false,
        }
    }

    /// Whether codes are explained by default: both streams are terminals.
    pub fn explains_lines(self) -> bool
        ensures { result ≡ (self.out && self.err) }
    {
        self.out && self.err
    }

    /// Whether a command that prints on standard output shows its progress: standard error is a
    /// terminal, and no lines are shown on one.
    pub fn shows_progress(self, prints: bool) -> bool
        ensures { result ≡ (self.err && not (self.out && prints)) }
    {
        self.err && !(self.out && prints)
    }
}
