//! A name in a line.

use crate::letter::write_letter;
use std::fmt;

/// A name, a path or a key from outside, as a line shows it. It prints as it is, except that a
/// backslash is doubled, and that control characters, separators of lines and marks of direction
/// are written by their number: `a\u000ab`.
#[derive(Clone, Copy, Debug, PartialEq, Eq)]
pub struct OneLine<'a>(pub &'a str);

impl fmt::Display for OneLine<'_> {
    fn fmt<W: fmt::Write>(&self, f: &mut fmt::Formatter<W>) -> fmt::Result {
        for letter in self.0.chars() {
            write_letter(f, letter)?;
        }
        Ok(())
    }
}
