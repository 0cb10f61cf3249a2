//! What an expectation of a scenario asks for, as a sentence.

use sim_settings::{Expectation, Reached};
use std::fmt;

/// What an expectation asks for. It prints as `send 0 should reach at least 20 within 100 ms`.
#[derive(Clone, Copy)]
pub(crate) struct Asked(pub(crate) Expectation);

impl fmt::Display for Asked {
    fn fmt<W: fmt::Write>(&self, f: &mut fmt::Formatter<W>) -> fmt::Result {
        let send = self.0.send;
        match self.0.reached {
            Reached::AtLeast(stations) => write!(
                f,
                "send {send} should reach at least {stations}"
            )?,
            Reached::All => write!(f, "send {send} should reach all")?,
        }
        match self.0.within {
            Some(within) => write!(f, " within {within} ms"),
            None => Ok(()),
        }
    }
}
