//! Values as lines of JSON (RFC 8259) in compact form, one value per line, in a buffer that is used
//! again for the next line.
//!
//! A struct that derives `Serialize` of `serde` becomes an object whose keys are its fields, in
//! their order. Octets become hexadecimal text, as in the other lines of the program.

mod compact;
mod fault;
mod line;
mod values;

pub use fault::JsonFault;
pub use line::JsonLine;
pub use values::{Digits, Octets, Printed};
