//! The waiting events of a radio model: ticks, sends and deliveries, in the order of time and then
//! of putting. It also has the random numbers that set their times.
//!
//! # What is proved
//!
//! - What waits is one list, whether it is in line or on the heap (`AreInOrder`), in the order of
//!   time and then of putting.
//! - The counts of what waits of each kind at each station (`Counts`) are those of that list.
//! - The index of positions is in the order of rows of latitudes, and in a row of longitudes, by an
//!   invariant of its type. All that is in range lies in few rows, and in each on one stretch
//!   (`covers` of `find_stretch`).
//!
//! # Only tested
//!
//! That `OutOfMemory` is returned only if an allocation failed.
//!
//! # By review
//!
//! That deliveries always go into the line.
#![tactic(auto)]

mod draws;
mod fault;
mod kinds;
mod own_events;
pub mod places;
mod queue;
mod receivers;
mod scheduled;
mod scheduling;

pub use draws::Draws;
pub use fault::QueueFault;
pub use own_events::OwnEvents;
pub use queue::Queue;
pub use receivers::Receivers;
pub use scheduled::{AirAction, Delivery, Scheduled};
pub use scheduling::{
    is_present, schedule_coming_sends, schedule_coming_tick, schedule_first_ticks, schedule_tick,
    schedule_traffic,
};
