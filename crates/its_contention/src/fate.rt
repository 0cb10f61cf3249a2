//! What is done with the frame in which an accepted packet goes on.

use crate::waiting::WaitingFrame;

/// What a station that contends does with the frame in which an accepted packet goes on.
#[derive(Drop)]
pub enum RelayFate {
    /// The frame goes at once.
    Goes(WaitingFrame),
    /// It waits, and is due at this time, in milliseconds.
    Waits(u64),
}
