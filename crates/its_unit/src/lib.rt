//! A station as it ships (EN 302 636-4-1, in this profile): with the limits on what it sends, and
//! with counts of the outcomes of its calls.
//!
//! A `Unit` is what the handle of the library for C holds. Each call is the call of its station; the
//! limits then let a part of its answer pass (`its_governor`), and its outcome is counted. So a
//! run of units is a run of stations whose frames are late or lost: each call's contract says which
//! step of the station it is, and what passes of its answer.
//!
//! A unit may contend (`Unit::contending`, `its_contention`): between the station and the limits, the
//! frame of a GBC inside its area waits. The caller asks for it by `release`, at `next_due`.
//!
//! ```
//! let station: Station<SortedTable> = Station::new(alloc, address, here, 64, 8)?;
//! let mut unit = Unit::new(alloc, station, &Limits::CHANNEL)?;
//! unit.open(0, 2002)?;
//!
//! match unit.receive(now, octets) {
//!     Ok(reaction) => match reaction.outcome {
//!         UnitOutcome::Passed(Outcome::Accepted { handed, sent }) => {}
//!         UnitOutcome::Passed(Outcome::Ignored(_)) | UnitOutcome::Repeated => {}
//!     },
//!     Err(refused) => log.push(refused.code())?,
//! }
//! ```
//!
//! - **Beacons** pass no limit: a station sends one per 3000 ms at most.
//! - **Memory** for the limits and for contention is taken when a unit is made.
//! - **A frame that waits** is judged twice by the limits: its hops and deliveries when its packet is
//!   accepted, and the buckets when it is released.
//!
//! # What is proved
//!
//! The clauses hold for every store of the table, every unit, every time and all octets. The condition:
//! each speed in its range (`move_to`, `move_at`).
//!
//! - **Each call** is the step of the station, and what passes of its answer (`step`, `unit_step`). A
//!   refused call changes nothing but the counts (`unchanged`), and one for the rate counts that.
//! - **Contention** (`specs/Contending.antt`): a unit made by `new` does what it did without it. In one
//!   that contends a frame waits by its fate (`fate_in`), which is the one of the written rule if the
//!   limits admit the packet. A duplicate cancels only copies of itself, and a restart drops all.
//!   The reaction to a frame says when one is due that begins to wait, and whether one is cancelled
//!   (`IsReactionOf`).
//! - **Past the limits** (`unlimited_step`, `unlimited_release`), as a line of JSON asks for it, a call and
//!   a release do the same, but no limit is judged, drawn or noted.
//! - **A release** (`release_step`) is refused for its time alone, and changes nothing of the station. It
//!   drops late frames, and takes out the one that is due first and for which the buckets have room.
//! - **All calls** (`laws`: `units_are_lawful`): in every list of calls, with secured frames and without,
//!   the station within has made those very calls, but the requests that were over their rate; of each
//!   answer a part passes: a message or a frame is withheld or it is the one of the answer. So a run of a
//!   unit is a run of its station whose frames are late or lost. It is a run of the station of the model
//!   (`IsModelRun`) if no move has a time stamp of its own, no single-hop broadcast options of its own,
//!   and no secured frame is faulty.
//! - **Calls and releases** (`Contends`, in `units_are_lawful`): in every list of both, the station within
//!   is the one that its calls alone make, and a part of each answer passes. A frame that is released is
//!   octet for octet the one that the station answered when it accepted the packet, and it is released
//!   from its due time to 1000 ms after it. Each frame that begins to wait is released, cancelled or
//!   dropped, or waits in the end, and is counted so. One is cancelled only if copies of it came from as
//!   many other stations as the rule asks for, since it was put. The rate of all forwarded frames bounds
//!   those that go at once and those that are released together, and so do the rates of each source
//!   (`RatesAreKept`). Own packets keep their rate. Messages are delivered as without releases
//!   (`DeliveriesAreKept`): to the limits, a frame that is due is a packet that came.
//! - **Fleets** (`laws`: `fleets_are_worlds`): units that exchange the frames that they send, in every
//!   order and with losses, are a world. Its events are named (`world_events`): a request over its
//!   rate is no event, and a frame that no unit sends is delivered to nobody. So all laws of
//!   `World::run` hold of the stations within (`HoldsOfSchedules`). What a unit delivers was sent by a
//!   unit of the fleet (`DeliversAsSent`). Each frame is an own packet or a faithful forwarding
//!   (`FramesAreFaithful`), and none is sent twice (`SendsOnce`). A frame may arrive as a verified
//!   secured frame. Moves with a time stamp of their own and broadcasts with options of their own
//!   are left out. The definitions are about each kind of unit that sends its station's frames late or
//!   never (`IsLateOrLost`).
//! - **Fleets that contend** (`laws`: `contending_fleets_are_worlds`): units of which any number contend,
//!   and which exchange the frames that they send at once and by releases, are a world too. A frame that
//!   waits is one that comes late; one that is cancelled or dropped comes to nobody. What a release
//!   returns is, octet for octet, the frame of the world with its number (`HoldsItsFrames`). None is sent
//!   twice, and no more are sent than the stations made (`SendsEachOnce`). Each unit is a unit after its
//!   calls and releases (`UnitsAct`). The other laws of fleets hold as they stand.
//! - **Forgers** (`laws`: `signed_units_are_lawful`): any octets arrive at units whose frames all pass a
//!   sound security entity. What a unit delivers was sent so by the unit that its packet names
//!   (`DeliversAsSealed`), what it forwards, at once or by a release, was sealed so (`ForwardsAsSealed`,
//!   `ReleasesAsSealed`), it accepts no packet twice if the entity refuses old messages (`AcceptsOnce`),
//!   it forwards within its rate (`FloodsAreBounded`), and what the entity refuses changes nothing
//!   (`ForgersChangeNothing`).
//! - **Limits** (`AreWithin`): in each stretch of `t` milliseconds at most `burst + per_second * t / 1000`
//!   frames are forwarded, and own packets sent; and of the frames of each source by its rate, if the
//!   limits remember sources (`Limits::remembers_sources`).
//! - **Deliveries** (`AreDelivered`): a message that the station hands out is delivered if no copy of its
//!   packet was delivered whose lifetime isn't over; two deliveries of one packet are a lifetime apart, or
//!   1024 others came between.
//!
//! # Only tested
//!
//! - `test_units::governor`: a storm among three units; that calls succeed if memory is there.
//! - `test_units::contention`: units that contend, with limits and with secured frames.
#![tactic(auto)]

mod calls;
mod contending;
pub mod laws;
mod limiting;
mod outcome;
mod receive;
mod sending;
mod unit;
mod unlimited;
mod unsent;

pub use limiting::Limiting;
pub use outcome::{Reaction, UnitOutcome};
pub use unit::Unit;
pub use unsent::Unsent;
