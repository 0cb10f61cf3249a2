//! The unit that receives the records of a capture, and its further moves.

ghost use Rattle.std.specs.Prelude.{◌≡◌};
ghost use Rattle.cmd_stats.specs.Listening.{Listening, Represents, first_due, moved};

use crate::replay::moves::Move;
use its_gnvalue::Mac;
use its_loctable::SortedTable;
use its_unit::{Limiting, Unit};

/// How the records of a capture are received.
#[derive(Clone, Copy, Debug, PartialEq, Eq)]
pub struct Rules {
    /// Whether the limits of the unit apply.
    pub limiting: Limiting,
    /// The link address of the station under test, if there is one. The unit doesn't receive its
    /// frames.
    pub against: Option<Mac>,
}

/// A unit and its further moves, in the order of their times.
#[derive(Drop)]
pub struct Listener<'m> {
    /// The unit.
    pub unit: Unit<SortedTable>,
    /// The moves.
    pub moves: &'m [Move],
}

impl Listener<'_> {
    /// Makes the moves up to this time, each at its own time.
    pub(crate) fn make_moves(&mut self, moment: u64)
        ensures { (m : Listening) → Represents self.old m →
            Represents self.new (moved moment m) }
    {
        loop {
            let Some(next) = first_due(self.moves, moment) else {
                return;
            };
            self.moves = &self.moves[1..];
            let (place, speed, heading) = (next.place, next.speed, next.heading);
            let _ = self.unit.move_to(next.moment, place, true, speed, heading);
        }
    }
}

/// Returns the first of these moves, if it is not later than this time.
fn first_due(moves: &[Move], moment: u64) -> Option<Move>
    ensures { result ≡ first_due moment moves.now }
{
    match moves.first() {
        Some(first) if first.moment <= moment => Some(*first),
        _ => None,
    }
}
