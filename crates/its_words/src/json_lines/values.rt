//! Values that print as text.

use serde::{Described, Serialize, Serializer};
use std::fmt::Display;

/// Octets that print as hexadecimal digits in lower case. No octets print as an empty text.
#[derive(Clone, Copy, Debug, PartialEq, Eq)]
pub struct Octets<'a>(pub &'a [u8]);

impl Described for Octets<'_> {}

impl Serialize for Octets<'_> {
    fn serialize<S: Serializer>(&self, out: &mut S) -> Result<(), S::Error> {
        out.bytes(self.0)
    }
}

/// An array of octets that prints as hexadecimal digits in lower case.
#[derive(Clone, Copy, Debug, PartialEq, Eq)]
pub struct Digits<const N: usize>(pub [u8; N]);

impl<const N: usize> Described for Digits<N> {}

impl<const N: usize> Serialize for Digits<N> {
    fn serialize<S: Serializer>(&self, out: &mut S) -> Result<(), S::Error> {
        out.bytes(&self.0)
    }
}

/// A value that becomes the text that it prints by `{}`.
#[derive(Clone, Copy, Debug, PartialEq, Eq)]
pub struct Printed<T>(pub T);

impl<T> Described for Printed<T> {}

impl<T: Display> Serialize for Printed<T> {
    fn serialize<S: Serializer>(&self, out: &mut S) -> Result<(), S::Error> {
        out.collect_str(&self.0)
    }
}
