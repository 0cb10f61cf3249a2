//! Texts in CSV.

use std::fmt;

/// A text as a cell of CSV (RFC 4180): in quotation marks if it has a comma, a quotation mark or
/// the end of a line.
#[derive(Clone, Copy)]
pub(crate) struct Cell<'a>(pub(crate) &'a str);

impl fmt::Display for Cell<'_> {
    fn fmt<W: fmt::Write>(&self, f: &mut fmt::Formatter<W>) -> fmt::Result {
        if !self.0.chars().any(|letter| is_special(letter)) {
            return f.write_str(self.0);
        }
        f.write_str("\"")?;
        for letter in self.0.chars() {
            if letter == '"' {
                f.write_str("\"")?;
            }
            f.write_char(letter)?;
        }
        f.write_str("\"")
    }
}

/// Whether a cell with this letter has quotation marks.
fn is_special(letter: char) -> bool {
    matches!(letter, ',' | '"' | '\n' | '\r')
}
