//! The link layers of captured records: Ethernet, IEEE 802.11, radiotap and Linux cooked captures.
//! Finds the frame in a record, and reads what the headers say besides the frame.
//!
//! # What is proved
//!
//! A radiotap header's present words are read to the last (`IsLastWord`). `air_time` is 40
//! microseconds and 8 for each symbol of 48 bits. `LinkFacts::of` is what the headers say besides
//! the frame (`AreFacts`).
//!
//! # Only tested
//!
//! - `cases/links.md`, `cases/converting.md`: that no memory is taken, and the longest of each
//!   header.
#![tactic(auto)]

pub mod airtime;
mod cooked;
mod ethernet;
mod facts;
mod ieee80211;
mod link;
mod radiotap;

pub use facts::LinkFacts;
pub use link::{LONGEST_RECORD, LinkFault, LinkLayer, frame_start, link_layer};
