//! The command `view`: the page that shows a run, and the run in it, as one file.
//!
//! # What is proved
//!
//! A writer `Inside` passes on what `first_piece` returns for what is written to it, piece by piece
//! (`flat_map`).
//!
//! # Only tested
//!
//! - `cases/view.md`: how the kind of a file is found, the name in the page, messages and statuses,
//!   the largest run and street net.
//! - `checks/viewer`: the whole page, against one that is put together by node; that a browser
//!   opens it.
//!
//! # Neither proved nor tested
//!
//! That a browser reads the element as the HTML standard says.
#![tactic(auto)]

mod fault;
mod folder;
mod inside;
mod limit;
mod name;
mod net;
mod page;
mod part;
mod run;
mod viewing;
mod way;

pub use inside::{Inside, Replacement, first_piece};
pub use viewing::{Viewing, view_file};
