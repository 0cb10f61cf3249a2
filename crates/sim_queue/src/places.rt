//! The positions of the stations of a world, and which of them receive what one of them sends.

mod place_index;
mod reach;

pub use place_index::{PlaceIndex, Standing};
pub use reach::{find_hearers, is_within};
