//! The words that a message names.

use std::fmt;

/// The words of which a value has to be one. It prints as `not one of open, close`.
#[derive(Clone, Copy)]
pub struct NotOneOf<'a, T>(pub &'a [T]);

impl<T: fmt::Display> fmt::Display for NotOneOf<'_, T> {
    fn fmt<W: fmt::Write>(&self, f: &mut fmt::Formatter<W>) -> fmt::Result {
        f.write_str("not one of")?;
        for (place, word) in self.0.iter().enumerate() {
            let before = if place == 0 { "" } else { "," };
            write!(f, "{before} {word}")?;
        }
        Ok(())
    }
}
