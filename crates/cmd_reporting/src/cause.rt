//! Why a call of the system failed, in its own words.

use std::{fmt, io};

/// Why a call of the system failed: the number of the error. It prints as the system's words in
/// lower case, for example `no such file or directory`.
#[derive(Clone, Copy, Debug, PartialEq, Eq)]
pub struct Cause(i32);

impl Cause {
    /// Returns the cause of an error, if it is one of the system's.
    pub fn of(error: &io::Error) -> Option<Cause> {
        match error.raw_os_error() {
            Some(number) => Some(Cause(number)),
            None => None,
        }
    }

    /// Returns the words of Linux for an error of a call on a file. `None` for another number.
    fn words(self) -> Option<&'static str> {
        match self.0 {
            1 => Some("operation not permitted"),
            2 => Some("no such file or directory"),
            4 => Some("interrupted system call"),
            5 => Some("input/output error"),
            6 => Some("no such device or address"),
            9 => Some("bad file descriptor"),
            11 => Some("resource temporarily unavailable"),
            12 => Some("cannot allocate memory"),
            13 => Some("permission denied"),
            16 => Some("device or resource busy"),
            17 => Some("file exists"),
            19 => Some("no such device"),
            20 => Some("not a directory"),
            21 => Some("is a directory"),
            22 => Some("invalid argument"),
            23 => Some("too many open files in system"),
            24 => Some("too many open files"),
            26 => Some("text file busy"),
            27 => Some("file too large"),
            28 => Some("no space left on device"),
            29 => Some("illegal seek"),
            30 => Some("read-only file system"),
            32 => Some("broken pipe"),
            36 => Some("file name too long"),
            40 => Some("too many levels of symbolic links"),
            75 => Some("value too large for defined data type"),
            116 => Some("stale file handle"),
            122 => Some("disk quota exceeded"),
            _ => None,
        }
    }
}

impl fmt::Display for Cause {
    fn fmt<W: fmt::Write>(&self, f: &mut fmt::Formatter<W>) -> fmt::Result {
        match self.words() {
            Some(words) => f.write_str(words),
            None => write!(f, "error {}", self.0),
        }
    }
}
