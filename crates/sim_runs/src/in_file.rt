//! A sentence about a file.

use cmd_quoting::OneLine;
use cmd_reporting::is_standard;
use std::fmt;

/// A sentence about the file of this name. It prints as `town.csv: column at is missing`, and
/// without the name if the file is standard input.
#[derive(Clone, Copy)]
pub(crate) struct InFile<'a, T>(pub(crate) &'a str, pub(crate) T);

impl<T: fmt::Display> fmt::Display for InFile<'_, T> {
    fn fmt<W: fmt::Write>(&self, f: &mut fmt::Formatter<W>) -> fmt::Result {
        if !is_standard(self.0) {
            write!(f, "{}: ", OneLine(self.0))?;
        }
        write!(f, "{}", self.1)
    }
}
