//! Why a station refuses, as a sentence.

use crate::frames::{FrameReason, SecuredReason};
use its_station::Refused;
use std::fmt;

/// The sentence for a call that is refused. If the octets are not a frame, it says why.
#[derive(Clone, Copy, Debug, PartialEq, Eq)]
pub struct RefusedReason(pub Refused);

impl fmt::Display for RefusedReason {
    fn fmt<W: fmt::Write>(&self, f: &mut fmt::Formatter<W>) -> fmt::Result {
        match self.0 {
            Refused::Frame(fault) => write!(f, "{}", FrameReason(fault)),
            Refused::Secured(fault) => write!(f, "{}", SecuredReason(fault)),
            refused => write!(f, "{refused}"),
        }
    }
}
