//! An ITS station (EN 302 636-4-1 clauses 8 and 10, in this profile): what it sends, and what it
//! does with the frames that come. It does no input or output and reads no clock: octets, positions
//! and moments come in, payloads at ports and frames to send go out.
//!
//! A device embeds it so, over the frames that its link gives it, each with its moment:
//!
//! ```
//! let address = GnAddress::from_u64(0x1400_0200_0000_0002)?;
//! let here = Place::new(449, 0)?;
//! let mut station: Station<SortedTable> = Station::new(alloc, address, here, 64, 8)?;
//! station.open(0, 2002)?;
//!
//! for (now, octets) in &link {
//!     match station.receive(*now, octets) {
//!         Ok(Outcome::Accepted { handed, sent }) => {
//!             if let Some(message) = handed {
//!                 inbox.extend_from_slice(message.payload)?;
//!             }
//!             if let Some(frame) = sent {
//!                 outbox.push(frame)?;
//!             }
//!         }
//!         Ok(Outcome::Ignored(_)) => {}
//!         Err(refused) => log.push(refused.code())?,
//!     }
//!     match station.tick(*now, 0) {
//!         Ok(Some(beacon)) => outbox.push(beacon)?,
//!         Ok(None) => {}
//!         Err(refused) => log.push(refused.code())?,
//!     }
//! }
//! ```
//!
//! A frame from the air that is refused ends nothing: the station stands as before.
//!
//! Each call is a step of the station that `its_model` defines: its contract says the answer and
//! the station afterwards. A call that is refused changes nothing. Stations that step so keep the
//! law that a geobroadcast reaches where deliveries come (`what_is_delivered_reaches` there).
//!
//! # What a maker has to know
//!
//! - **Clock.** A moment is milliseconds of any clock that doesn't fall, at most 2^62; for the
//!   standard's time stamps, those of TAI since 2004-01-01. After a step back each call is refused
//!   (S1) until the clock has caught up.
//! - **Beacons.** A jitter of 0 to 750 ms is drawn once for a beacon and handed to each `tick` until
//!   that gave it: drawn again for each `tick`, beacons come early. `beacon_at` of that jitter is
//!   when to wake. It is asked again after a packet of the station's own and after a restart, and
//!   not after a frame that came: no answer is before the clock, which each call sets, so that a
//!   sleep which begins again with each frame may never end.
//! - **Places.** `move_to` sets the time stamp that packets carry, and `move_at` one of the fix's
//!   own; before either is called, that is 0.
//! - **Memory.** The table has room for `capacity` live sources, 1 to 4096, and up to 64 sequence
//!   numbers of each. `SortedTable` takes it all in `new`; `OrderedTable` takes it as sources come.
//!   Of the calls, `tick` with a beacon that is due, `send_*`, a frame that goes on and, over
//!   `OrderedTable`, a new source allocate: the frame, and for `send_*` its payload before. What is
//!   delivered is a slice of the frame that came.
//! - **Frames** have at most 1468 octets, payloads of requests at most 1394.
//! - **Refusals.** S1, S2: the caller's clock is wrong. S3: junk came. S4: the table is full of
//!   live sources; frames of those it has go on. S5: an allocation failed, and the call may be made
//!   again. S6, S7: the request can't be sent as it is. S8: the port is open or closed already, or
//!   64 are open. S9: the jitter is too long. Each leaves the station as it was.
//! - **Sources are isolated**: what one source and the applications see doesn't depend on frames of
//!   other sources, as long as moments don't fall and the table was never full (no S4); proved of
//!   `run`, for the calls done before memory ran out.
//! - **Threads.** A station is for one thread at a time. It does no locking.
//!
//! # What is proved
//!
//! The clauses hold for every store of the table (`Station<S>`), every history that the station
//! represents, every time and all octets. The condition: each speed in its range (`move_to`, `run`).
//!
//! The calls of `run` have unsecured frames only: a secured one is proved as one step
//! (`receive_verified`). A station with limits is not isolated in this sense (`its_governor`).
//!
//! # Only tested
//!
//! - `checks/calls`, `test_stations`: that calls succeed if memory is there, each send also with
//!   the longest payload; printed codes and sentences.
#![tactic(auto)]

mod answer;
mod call;
mod counts;
mod known;
pub mod laws;
mod looked_up;
mod neighbours;
mod outcome;
mod ports;
mod queries;
mod receive;
mod received;
mod refused;
mod requests;
mod restart;
mod run;
mod sending;
mod station;

pub use answer::{Answer, Delivery, StationAnswer, make_room};
pub use call::{Call, OwnCall};
pub use counts::{Counts, IgnoredCounts, RefusedCounts, SentCounts};
pub use known::{FrameContents, KnownFrame};
pub use looked_up::LookedUp;
pub use neighbours::Neighbours;
pub use outcome::{Handed, Outcome, Why};
pub use received::ReceivedFrame;
pub use refused::{Refused, RefusedCode};
pub use requests::{GbcRequest, OwnedGbcRequest, OwnedShbRequest, ShbOptions, ShbRequest};
pub use run::{Ran, Reply};
pub use sending::{AreaCast, MAX_PAYLOAD};
pub use station::{LAST_MOMENT, Station};
