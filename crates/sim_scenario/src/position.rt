//! Where a text stops being TOML, and why.

use cmd_text::lines::{GZIP, GzipFile};
use std::fmt;
use toml::de::Error;

/// Why a text is not a TOML document, and where.
#[derive(Clone, Copy, Debug, PartialEq, Eq)]
pub struct TomlFault {
    /// The line, from 1.
    pub line: usize,
    /// The column, in characters from 1.
    pub column: usize,
    /// Whether the text is a gzip file.
    is_gzip: bool,
    error: Error,
}

impl TomlFault {
    /// Returns the fault of a text which the parser refused with this error.
    pub(crate) fn new(text: &[u8], error: Error) -> TomlFault {
        let start = error.span().map_or(0, |span| span.start);
        let before = text.get(..start).unwrap_or(text);
        let breaks = before.iter().filter(|octet| **octet == b'\n').count();
        let line = before.rsplit(|octet| *octet == b'\n').next();
        let characters = line.map_or(0, |line| {
            line.iter().filter(|octet| **octet & 0xc0 != 0x80).count()
        });
        TomlFault {
            line: breaks.saturating_add(1),
            column: characters.saturating_add(1),
            is_gzip: text.starts_with(&GZIP),
            error,
        }
    }
}

impl fmt::Display for TomlFault {
    fn fmt<W: fmt::Write>(&self, f: &mut fmt::Formatter<W>) -> fmt::Result {
        if self.is_gzip {
            return GzipFile("sim -").fmt(f);
        }
        let (line, column) = (self.line, self.column);
        write!(
            f,
            "{}, at line {line}, column {column}",
            self.error.message()
        )
    }
}
