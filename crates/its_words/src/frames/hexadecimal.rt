//! Octets as text, in the lines of the program.

use std::{fmt, str};

/// Octets as hexadecimal digits in lower case, or `-` if there are no octets.
#[derive(Drop)]
pub struct Hex<'a>(pub &'a [u8]);

/// How many octets become digits at a time.
const PIECE: usize = 64;

impl fmt::Display for Hex<'_> {
    fn fmt<W: fmt::Write>(&self, f: &mut fmt::Formatter<W>) -> fmt::Result {
        if self.0.is_empty() {
            return f.write_str("-");
        }
        let mut digits = [0u8; 2 * PIECE];
        for piece in self.0.chunks(PIECE) {
            let Some(written) = digits.get_mut(..2 * piece.len()) else {
                return Err(fmt::Error);
            };
            if hex::encode_to_slice(piece, written).is_err() {
                return Err(fmt::Error);
            }
            match str::from_utf8(written) {
                Ok(text) => f.write_str(text)?,
                Err(_) => return Err(fmt::Error),
            }
        }
        Ok(())
    }
}
