//! The lines of a text, one at a time: of each no more is kept than the caller has a use for. And
//! the files that have no lines before they are unpacked.

mod gzip;
mod line;
mod passed;
mod reading;

pub use gzip::{GZIP, GzipFile};
pub use line::Line;
pub use passed::{Passed, are_digits};
