//! How the moves of a file are read, and what stations they make.

ghost use Rattle.std.specs.Prelude.{◌≤◌, ◌^◌};

use its_gnvalue::Mac;

/// How the moves of a file are read, and what stations they make.
#[derive(Debug, Drop, PartialEq, Eq)]
pub struct Moves {
    /// The time of the file at which the run begins, in milliseconds: 0 to 2^62.
    pub begin: u64,
    /// After this many milliseconds without a row a station departs: 1 to 4294967295.
    pub gone: u32,
    /// The MID of the first station that a row makes, which is not that of a group. Each further
    /// one is greater by one.
    pub mid: Mac,
    /// The size of the location table of such a station: 1 to 4096.
    pub capacity: u16,
    /// The length of its duplicate packet lists: 1 to 64.
    pub remember: u8,
    /// The ports that it opens: at most 64, each once.
    pub ports: Vec<u16>,
    /// Whether such a station contends.
    pub contends: bool,
    ghost begins: { begin ≤ 2 ^ 62 },
    ghost lasts: { 1 ≤ gone },
    ghost room: { 1 ≤ capacity },
    ghost most_room: { capacity ≤ 4096 },
    ghost remembers: { 1 ≤ remember },
    ghost most_remembered: { remember ≤ 64 },
}
