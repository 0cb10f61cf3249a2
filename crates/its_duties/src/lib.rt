//! Verdicts on another maker's station: does what it sent obey the rules? The command `verdict`
//! calls this.
//!
//! The definitions are in `specs/`. `Claims` has what is claimed of a station and of a capture, and
//! `Seen` is a record of it. A `Scenario` is one way in which the capture may have come about: what
//! the station was asked and what it received, each at a time that fits the stamps. It `Explains`
//! the capture if the frames of the station in it are those that were recorded.
//!
//! # What is proved
//!
//! Each `judge_` function returns the one verdict that the definitions name (`verdict`), and a fail
//! is a proof (`fail_is_proof`): no scenario explains a capture with that record. So no station of
//! the model, whatever it was asked and received, can have made the capture, if these hold: the
//! claims are true, a frame with the station's link source is the station's, time stamps are as near
//! to the true times as claimed, and no transmission is recorded twice but for repeats of the link.
//! What the caller found in the capture has to be so: the gap before a beacon (`IsBeaconAfter`),
//! what a forwarded packet was made from (`IsSearch`), whether it was forwarded before
//! (`IsRelayAgain`), the step from one sequence number to the next (`IsNumberStep`), whether a
//! packet that was heard was forwarded (`IsFound`). `laws::a_fail_is_proof` says the same of the
//! definitions. `judge_lifetime`, `judge_beacon`, `judge_numbers`, `judge_faithful`,
//! `judge_in_time`, `judge_once`, `judge_forward` and this law are of claims that the model has
//! (`IsModelled`).
//!
//! `role_of` returns what a record is to the station, and `Duty::is_asked` which duties are asked
//! of it. `laws::nothing_is_left_out`: a record that fails a duty fails one that is asked.
//! `laws::a_wire_is_decided`: on a wire (`IsWire`) a frame that is missing, or that isn't what a
//! station of the model gives, fails a duty.
//!
//! A station that stands still is inside of an area for sure if each place that the claims allow is.
//! `judge_stops_inside`, `judge_area_target` and `judge_next_hop` fail only then.
//!
//! Evaluated in `proofs/Rows*.antt`: why a beacon fails only if the station did not restart, and
//! only if its call was later for sure; why a forwarded packet fails only if all that was received
//! is recorded, and one that was heard only if it came after the begin; places near a border, and
//! boxes that reach round the earth.
//!
//! No call has a condition, and none takes memory, by their types.
//!
//! # Not promised
//!
//! That a station that breaks a rule fails, or that a pass proves something.
#![tactic(auto)]

mod beacons;
mod claims;
mod duty;
mod form;
mod inside;
mod interval;
pub mod laws;
mod numbers;
mod octets;
mod once;
mod owed;
mod own;
mod places;
mod relays;
mod role;
mod spans;
mod verdict;

pub use beacons::{BeaconGap, judge_beacon};
pub use claims::{AreaForwarding, BeaconReset, Claims, NonAreaForwarding, SequenceModulus};
pub use duty::Duty;
pub use form::judge_form;
pub use inside::{judge_area_target, judge_next_hop, judge_stops_inside};
pub use numbers::{NumberStep, judge_numbers};
pub use octets::named_source;
pub use once::{EarlierRelay, RelayAgain, judge_once};
pub use owed::{OwedSearch, RelaySeen, judge_forward};
pub use own::{judge_hops, judge_kind, judge_lifetime, judge_link_target, judge_mobile};
pub use relays::{PacketOrigin, RelaySearch, judge_faithful, judge_in_time};
pub use role::{FrameSource, RecordFacts, Role, may_be_own, may_be_relay, role_of};
pub use spans::{doubt_between, lag, longest, slack, wait};
pub use verdict::{Breach, Doubt, NotOwed, Verdict};
