//! The outcome of a run: its packets for an area, each with its deliveries, and the counts of all
//! events.

mod held_tally;
mod presence;
mod summary;
mod tally;

pub use held_tally::HeldTally;
pub use presence::Presence;
pub use summary::{SendSummary, Totals};
pub use tally::{CarriedPacket, Tally};
