//! The heads of columns.

use std::io;
use std::io::Write;

/// Writes a line of heads, with this separator between them.
pub(crate) fn write_heads<W: Write>(
    heads: &[&str],
    separator: &str,
    out: &mut W,
) -> io::Result<()> {
    for (column, head) in heads.iter().enumerate() {
        if column > 0 {
            out.write_all(separator.as_bytes())?;
        }
        out.write_all(head.as_bytes())?;
    }
    writeln!(out)
}
