//! What a station's own applications ask of it, by its word and its keys, in fields of any
//! notation. Each number is in the range of its key.

mod call;
mod geocast;
mod verb;

pub use call::{read_call, read_keys, read_single_hop};
pub use geocast::{read_measures, read_shape};
pub use verb::own_verb;
