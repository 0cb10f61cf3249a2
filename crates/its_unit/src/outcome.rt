//! The outcome of a frame that a unit received.

use its_station::Outcome;

/// The outcome of a frame that isn't refused.
#[derive(Debug, Drop)]
pub enum UnitOutcome<'a> {
    /// The outcome of the station. A frame that waits, or that the limits withhold, is left out of it.
    Passed(Outcome<'a>),
    /// The station accepted the packet, which was delivered before and is remembered. So it is
    /// neither delivered nor forwarded.
    Repeated,
}

/// The reaction to a frame that isn't refused.
#[derive(Debug, Drop)]
pub struct Reaction<'a> {
    /// The outcome.
    pub outcome: UnitOutcome<'a>,
    /// The time in milliseconds at which the frame is due in which the packet goes on, if it waits.
    pub due: Option<u64>,
    /// Whether the frame cancelled one that waited.
    pub cancelled: bool,
}
