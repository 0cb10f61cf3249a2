//! The command `replay`: what one unit would have done with the frames of a capture.

mod against;
mod air_octets;
mod awaited;
mod command;
mod compared_line;
mod comparison;
mod differences;
mod heard;
mod inputs;
mod lines;
mod listener;
mod moves;
mod moves_fault;
mod on_air;
mod printing;
mod replaying;
mod reply;
mod secured;
mod secured_octets;
mod unit;

pub use against::Against;
pub use awaited::Awaited;
pub use command::{ReplayOptions, replay_file};
pub use comparison::{Compared, Comparison};
pub use heard::{Heard, HeardSink};
pub use its_unit::Limiting;
pub use listener::{Listener, Rules};
pub use moves::Move;
pub use replaying::replay_records;
pub use reply::UnitReply;
pub use unit::{PortList, ReplayUnit};
