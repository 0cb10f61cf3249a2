//! Values of a table that may be missing.

use std::fmt;

/// A value. A missing one prints as a hyphen.
#[derive(Clone, Copy)]
pub struct Hyphened<T>(pub Option<T>);

impl<T: fmt::Display> fmt::Display for Hyphened<T> {
    fn fmt<W: fmt::Write>(&self, f: &mut fmt::Formatter<W>) -> fmt::Result {
        match &self.0 {
            Some(value) => value.fmt(f),
            None => f.write_str("-"),
        }
    }
}
