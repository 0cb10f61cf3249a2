//! The keys of calls and of scenarios, their words and ranges, and the values under them, in fields
//! of any notation.

mod fault;
mod fields;
mod key;
mod meant;
mod not_one_of;
mod values;
mod verb;
mod wrong;

pub use fault::KeyFault;
pub use fields::Fields;
pub use key::Key;
pub use meant::{Spelled, nearest};
pub use not_one_of::NotOneOf;
pub use values::{number, octet, octets, octets_into, place, text, truth, unlike, whole, whole_or};
pub use verb::{Verb, Verbs};
pub use wrong::{Wrong, WrongOf, WrongValue};
