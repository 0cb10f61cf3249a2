//! The radio model between stations: frames are received in range, with a delay and with losses. It
//! does the run of a world with it.
//!
//! # What is proved
//!
//! Each run that ends well is a run of the world, also if stations contend: there is a list of
//! events by which the world is at its end, with the laws over every schedule, and the sink took
//! exactly these (`file` of `run_air`, `run` of `run_moves`). Those of the file of `run_air` are
//! among them, in their order.
//!
//! The rest is proved of runs in which no station contends.
//!
//! What the clause `timed` of `run_air` says in detail:
//!
//! - Range, delay, loss, seed, beacons, traffic, the last time and who is present at the start are
//!   those of the scenario. Who comes and leaves is as its file says.
//! - The run ends when nothing waits up to the last time.
//! - All that `simulate_into` promises holds: the world is at the end of the model's run of these
//!   events, with the laws over every schedule, and the sink took exactly these events and their
//!   entries.
//!
//! What the clause of `run_moves` says in detail:
//!
//! - The stations that rows make are absent at the start. The file of the run is what came from
//!   outside. So the laws hold of it, and no delivery of it is dropped with a released frame.
//! - At one time rows come first, then departures, then events of the scenario.
//! - Each row is a move of its station, with an accurate position. One that made its station also
//!   opens each of the scenario's ports. As many rows made stations as stations were made.
//! - Each event and departure of the scenario came in order, except those after the last time and
//!   possibly those of an id.
//! - Not said: which rows these are, that a row or an event of an id is of the station of that id,
//!   when a station leaves, and without `until`, the last time.
//!
//! Both runs take what the radio model has waiting by `take_own` (`taken`, `left`), and so release
//! frames whose deliveries are done (`release_delivered`: `kept`, `frames`). A frame that an event
//! of the file delivers is not released, nor is a later one (`lowest_delivery`).
//!
//! What is taken next comes first of all that waits, and the random numbers are those of the seed
//! (`sim_queue`). Each station is in the index once and at its position, after each event too
//! (`Run::do_event`, `standings`). `sim_air_model` has the laws of such runs.
//!
//! # Only tested
//!
//! - `cases/contention.md`, `checks/air`: with contention, which frames a station holds, cancels and
//!   drops, when each is released, and which stations receive it.
//! - `cases/moving.md`, `cases/around.md`, `checks/air`: that the rows are all of the file up to
//!   the last time, of the stations of their ids; which events of ids are left out; when stations
//!   leave, and in which order; that a run without `until` ends 10 s after its last row or event;
//!   where an area around its station is.
#![tactic(auto)]

mod contentions;
mod departures;
mod due_frames;
mod fault;
mod filed;
mod filed_run;
mod frames;
mod kept_frames;
mod moving;
mod moving_run;
mod run;
mod scenario;
mod step;
mod vehicles;

pub use fault::AirFault;
pub use filed::run_air;
pub use moving::run_moves;
pub use scenario::run_scenario;
pub use sim_queue::places::{find_hearers, is_within};
