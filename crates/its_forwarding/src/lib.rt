//! To whom a packet for an area is sent next (EN 302 636-4-1 clauses 8 and 10, in this profile).
//! Nothing here takes memory, and no code knows which location table it has.
//!
//! # What is proved
//!
//! `choose` is the model's `decision` over the stations of every history that the store represents,
//! for every `LocationStore`. The first that applies: to all, if the area holds the own position;
//! to nobody, if the sender is known to be inside by an accurate position; to the neighbour nearest
//! to the area's centre, of equally near ones the one of least address, if it is nearer than the
//! station; otherwise to all. The condition is a time of at most 2^62. It takes no memory, by its
//! type. `choose_outside` returns the same if the area doesn't hold the own position, and the store
//! represents the same histories afterwards.
//!
//! # Only tested
//!
//! - `test_values::table`: worked choices over both tables, with an expired neighbour, equally near
//!   ones, up to 66 neighbours, a sender inside the area, and pieces of 32; that a choice over
//!   `SortedTable` asks for no piece.
//! - `checks/air`: choices in random runs.
#![tactic(auto)]

mod choice;
mod nearest;

pub use choice::{Choice, choose, choose_outside};
