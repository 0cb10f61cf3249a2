//! A station's answer as text: its words, and the keys for them in JSON.

mod answer_keys;
mod reason;
pub mod words;

pub use answer_keys::{AnswerKeys, PrintedAnswer, delivery_keys};
pub use reason::RefusedReason;
