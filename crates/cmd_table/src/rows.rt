//! The rows of a table as JSON.

use serde::{Described, Serialize, Serializer};

/// Rows, as an array.
#[derive(Clone, Copy)]
pub struct RowArray<'a, T>(pub &'a [T]);

impl<T> Described for RowArray<'_, T> {}

impl<T: Serialize> Serialize for RowArray<'_, T> {
    fn serialize<S: Serializer>(&self, out: &mut S) -> Result<(), S::Error> {
        out.begin_seq(Some(self.0.len()))?;
        for row in self.0 {
            row.serialize(out)?;
        }
        out.end_seq()
    }
}
