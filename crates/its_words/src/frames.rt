//! A frame as text: its fields by their keys in JSON, its octets, and why octets are not a frame.

mod explanation;
mod frame_keys;
mod hexadecimal;

pub use explanation::{Explanation, FrameReason, SecuredReason};
pub use frame_keys::{FrameKeys, MessageKeys, TargetKeys};
pub use hexadecimal::Hex;
