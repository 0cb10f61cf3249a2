//! The command `mesh`: the stations of a scenario in one process, each with a UDP socket on the
//! loopback interface. A datagram that arrives is one call of a run, whoever sent it. So the laws
//! of `its_model` about geobroadcasts hold for these stations.
//!
//! # What is proved
//!
//! - The stations begin as those of the model. A run makes each call of its events once, in the
//!   order of the file. Its only other calls are those of datagrams, each at the greatest time of
//!   the calls before it (`Mesh::run`, clause `made`: `HasRun`). If it ends early, the calls that
//!   were made are the first ones (`stopped`: `HasBegun`).
//! - Each call is a run of only that call, as `Station::run` makes it, and sources are isolated
//!   over it (`IsIsolatedRunOf`). It changes no other station. The stations are those of the model
//!   after these calls (`mesh_run`).
//! - A refusal is noted if and only if one of these calls is refused (`IsNoted`, `any_refused`).
//! - A turn of a socket receives at most 64 times (`asked`), and makes as many calls as it returns,
//!   each of its own station (`received`: `HasReceivedAt`). What is received fits the buffer
//!   (`FitsBuffer`).
//! - Without a fault the status is `Failed` if a socket failed, otherwise `Refused` if the run is
//!   strict and a call was refused, otherwise `Done` (`status`; of the command `run_mesh`:
//!   `IsMeshRun`).
//!
//! # Only tested
//!
//! - `test_worlds::mesh`: that each datagram, and no other octets, is passed to its station, and
//!   that each line and frame is that of its call; datagrams of 0 to 65507 octets; a flood of 10000
//!   sources, with the ends of the rounds; each socket call that fails or would block.
//! - `cases/mesh.md`: the lines, 64 and 65 stations.
//! - `checks/failures`: failed outputs and allocations.
//!
//! # Neither proved nor tested
//!
//! How many datagrams arrive, and when rounds end.
#![tactic(auto)]

mod answers;
mod command;
mod fault;
mod lines;
mod mesh;
mod rounds;
mod sockets;
mod udp;

pub use command::{MeshOptions, mesh_file, mesh_over};
pub use sockets::{Received, Sent, Sockets};
pub use udp::UdpSockets;
