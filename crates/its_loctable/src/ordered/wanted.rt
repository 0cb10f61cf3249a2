//! Which stations are looked for in a table of any order, and the one of least address among them.

ghost use Rattle.std.specs.Prelude.{◌≡◌, Option};
ghost use Rattle.std.specs.Option.{option_map};
ghost use Rattle.its_model.specs.History.{Known as Kept};
ghost use Rattle.its_loctable.specs.Heard.{shown};
ghost use Rattle.its_loctable.specs.Wanted.{lesser_shown};

use crate::heard::Known;
use crate::slot::Slot;
use its_gnvalue::{GnAddress, LongPv, Mac};

/// Which stations are looked for.
#[derive(Clone, Copy)]
pub enum Wanted {
    /// Those with this MID.
    HasMid(Mac),
    /// The neighbours above an address, or all neighbours.
    NeighbourAbove(Option<GnAddress>),
}

impl Wanted {
    ghost use Rattle.its_loctable.specs.Ordered.{slot_entry};
    ghost use Rattle.its_loctable.specs.Wanted.{accepts, is_wanted, better};

    /// Whether a station is one of them.
    pub fn accepts(&self, vector: &LongPv, neighbour: bool) -> bool
        ensures { result ≡ accepts self.now vector.now neighbour }
    {
        match *self {
            Wanted::HasMid(mid) => vector.address().mid() == mid,
            Wanted::NeighbourAbove(None) => neighbour,
            Wanted::NeighbourAbove(Some(after)) => neighbour && after < vector.address(),
        }
    }

    /// One step of a walk over slots, for the live one of least address that is wanted.
    pub fn improve(&self, best: Option<Known>, now: u64, slot: &Slot) -> Option<Known>
        ensures { (found : Option Kept) → best ≡ option_map shown found →
            result
            ≡ option_map shown (better (is_wanted self.now) now found (slot_entry (0, slot.now))) }
    {
        if now < slot.until && self.accepts(&slot.vector, slot.neighbour) {
            lesser(best, slot.known())
        } else {
            best
        }
    }
}

/// The one of least address.
pub fn lesser(best: Option<Known>, other: Known) -> Option<Known>
    ensures { result ≡ lesser_shown best other }
{
    match best {
        Some(known) if !(other.vector.address() < known.vector.address()) => Some(known),
        _ => Some(other),
    }
}
