//! What is kept of a capture to judge a station by it, in bounded memory, and what is found there.
//!
//! # What is proved
//!
//! Once something gave way, all is doubtful that was sent at its time or before (`Lost::lose`,
//! `Lost::may_lack`). A frame takes its octets and eight for each repeat (`kept_size`).
//!
//! # Only tested
//!
//! `checks/verdict`: that what is found in a capture is there: the packet before (`IsBeaconAfter`,
//! `IsNumberStep`), what a forwarded packet was made from (`IsSearch`), whether it was forwarded
//! before (`IsRelayAgain`), what was found of a packet that may be owed (`IsFound`). That memory is
//! bounded.
#![tactic(auto)]

mod arrivals;
mod forwarded;
mod heard;
mod heard_numbers;
mod heard_sources;
mod kept_size;
mod kept_times;
mod link_header;
mod lost;
mod near_relays;
mod owed;
mod own_packets;
mod packet_queue;
mod relays;
mod repeats;
mod seen_record;
mod source_runs;
mod stretch;
mod tap;
mod unread;
mod waiting;

pub use arrivals::Arrivals;
pub use forwarded::{ForwardedPacket, FoundAgain, FoundEarlier, FoundNone};
pub use heard_numbers::PacketId;
pub use heard_sources::LARGEST_TABLE;
pub use link_header::{LinkFrame, LinkHeader};
pub use owed::{CaptureTimes, Caused, FoundOwed, Gaps, HeardFrame};
pub use own_packets::{OwnPackets, Reset, StepFrom};
pub use relays::{FoundOrigin, Nearest, Relay};
pub use repeats::Repeats;
pub use seen_record::{NANOS, SeenRecord};
pub use tap::{MetPacket, MetRecord, Tap};
pub use unread::UnreadIn;
pub use waiting::{Waiting, WaitingFrames};
