//! Files that gzip compressed, which no command reads.

use std::fmt;

/// The octets with which each gzip file begins.
pub const GZIP: [u8; 2] = [0x1f, 0x8b];

/// How a command reads a gzip file, with the arguments after `geostation`. It prints as `a gzip
/// file: use zcat FILE | geostation show -`.
#[derive(Clone, Copy, Debug, PartialEq, Eq)]
pub struct GzipFile(pub &'static str);

impl fmt::Display for GzipFile {
    fn fmt<W: fmt::Write>(&self, f: &mut fmt::Formatter<W>) -> fmt::Result {
        write!(f, "a gzip file: use zcat FILE | geostation {}", self.0)
    }
}
