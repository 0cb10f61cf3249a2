//! Contention inside an area (EN 302 636-4-1 annex F.3, in this profile): the rule by which a
//! station waits before it forwards a packet, and the frames that wait.
//!
//! A station that contends doesn't send the frame of a GBC inside its area at once. It holds it for
//! `ContentionRule::wait`, and drops it if enough other stations send the same frame in that time.
//! `Contention` does this beside a `Station`; `its_unit` calls it. `HeldFrames` holds frames of any
//! type, for other callers.
//!
//! ```
//! let rule = ContentionRule::new(1, 100, 1000, 2).ok_or("not in range")?;
//! let mut contention = Contention::new(alloc, rule)?;
//!
//! match station.receive_frame(now, &view)? {
//!     Outcome::Accepted { sent: Some(octets), .. } => {
//!         let frame = WaitingFrame::new(octets, view.packet.vector().address(), number, known);
//!         if let RelayFate::Goes(frame) = contention.contend(now, &station, &view, frame) {
//!             send(frame.octets());
//!         }
//!     }
//!     Outcome::Ignored(Why::Duplicate) => {
//!         contention.hear(octets, view.from, station.address().mid());
//!     }
//!     _ => {}
//! }
//!
//! // At `contention.next_due()`:
//! contention.drop_late(now);
//! while let Some(frame) = contention.take_due(now) {
//!     send(frame.octets());
//! }
//! ```
//!
//! - **A copy** is the very frame that waits, sent to all by another station:
//!   `its_linkframe::is_copy`. Annex F.3 has any copy of the packet cancel.
//! - **Memory** is taken by `new` alone: places for 64 frames.
//!
//! # What is proved
//!
//! The clauses hold for every rule, every buffer, every time and all positions. The conditions:
//! there is room for a frame that is held (`HeldFrames::hold`), and a time for `sender_place` is at
//! most 2^62 ms.
//!
//! - **The rule** has its values in range by its type (`IsRule`), and `new` refuses exactly the
//!   others.
//! - **A wait** is the one of the written rule (`wait`), between `min_wait` and `max_wait`. It goes
//!   by the position of the station that sent the frame, if that is known and accurate
//!   (`sender_place`).
//! - **Each call** of `HeldFrames` makes of the frames that wait, and of the counts, what is
//!   written (`specs/Buffer.antt`). For `hear` that holds with any test that `is_copy` computes of
//!   the frames that wait (`AreTested`).
//!
//! - **The fate** of an accepted packet's frame (`contend`) is the one of the written rule (`fate`):
//!   a GBC's waits inside its area if fewer than 64 frames do, and others go at once. Only a copy
//!   of a frame cancels it (`hear`, `is_copy`).
//!
//! # Only tested
//!
//! - `test_units::contention`: a station with a `Contention` beside it, and units that contend,
//!   row by row; that calls succeed if memory is there.
//!
//! # By review
//!
//! As no proof speaks of cost: `Contention::hear` compares the octets of a duplicate only with a
//! held frame that has its key (`key_of`), a number of 64 bits. A wait takes at most 10 halvings.
#![tactic(auto)]

mod buffer;
mod contention;
mod counts;
mod due;
mod fate;
mod held;
mod key;
pub mod laws;
mod longest;
mod place;
mod rule;
mod senders;
mod waiting;

pub use buffer::HeldFrames;
pub use contention::{Contention, contends_for, due_of};
pub use counts::ContentionCounts;
pub use fate::RelayFate;
pub use place::sender_place;
pub use rule::ContentionRule;
pub use waiting::WaitingFrame;
