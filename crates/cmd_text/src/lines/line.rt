//! A line of a text, of which only the beginning is kept.

ghost use Rattle.std.specs.Prelude.{◌≤◌, vec_len, vec_capacity};

use crate::lines::passed::Passed;

/// A line, up to what was read.
#[derive(Drop)]
pub struct Line {
    /// The octets of its beginning that are kept.
    pub(crate) start: Vec<u8>,
    /// The most octets that are kept.
    pub(crate) most: usize,
    /// What is known about the further octets.
    pub(crate) passed: Passed,
    ghost bounded: { vec_len start ≤ most },
    ghost room: { most ≤ vec_capacity start },
}
