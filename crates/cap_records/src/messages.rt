//! Messages of secured packets (IEEE 1609.2), read up to the header info: the plain part, and what
//! is said about it. No signature is verified.

mod cursor;
mod fault;
mod message;

pub use fault::{MessageCode, MessageFault, SHORT_MESSAGE, UNREAD_MESSAGE};
pub use message::{HeaderInfo, Message, read_message};
