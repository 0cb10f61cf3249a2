//! A value in quotation marks.

use crate::letter::write_letter;
use std::fmt;

/// The most characters of a text that a message shows.
const MOST_SHOWN: usize = 40;

/// A value from outside as a message shows it: in quotation marks, on one line, and cut after 40
/// characters. It prints as `"wide"`.
#[derive(Clone, Copy, Debug, PartialEq, Eq)]
pub struct Quoted<'a>(pub &'a str);

impl fmt::Display for Quoted<'_> {
    fn fmt<W: fmt::Write>(&self, f: &mut fmt::Formatter<W>) -> fmt::Result {
        f.write_str("\"")?;
        for (place, letter) in self.0.chars().enumerate() {
            if place >= MOST_SHOWN {
                return f.write_str("..\"");
            }
            match letter {
                '"' => f.write_str("\\\"")?,
                _ => write_letter(f, letter)?,
            }
        }
        f.write_str("\"")
    }
}
