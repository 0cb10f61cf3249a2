//! The keyword of what an event does.

use its_world::What;
use sim_scenario::events::verb_of;
use std::fmt;

/// What an event does. It prints as its keyword in a scenario. `deliver` is followed by the number
/// of the frame.
#[derive(Clone, Copy, Debug)]
pub(crate) struct ActionWord<'a>(pub(crate) &'a What);

impl fmt::Display for ActionWord<'_> {
    fn fmt<W: fmt::Write>(&self, f: &mut fmt::Formatter<W>) -> fmt::Result {
        let verb = verb_of(self.0);
        match self.0 {
            What::Deliver(frame) => write!(f, "{verb} {frame}"),
            What::Call(_) => write!(f, "{verb}"),
        }
    }
}
