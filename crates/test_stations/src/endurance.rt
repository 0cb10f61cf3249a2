//! Each call, floods, other sources, the longest payloads and want of memory, over both tables.

mod calls;
mod flood;
mod isolation;
mod largest;
mod memory;
