//! The handle of a station: `struct geostation` of C, which sees nothing of it.

ghost use Rattle.std.specs.Prelude.{◌≡◌};
ghost use Rattle.its_c.specs.Open.{IsOpen};

use crate::unit_ptr::UnitPtr;

/// A handle: the unit that it holds, a station with its limits and counts, represents one of the
/// model, from `geostation_new` on.
#[repr(C)]
#[derive(Drop)]
pub struct Geostation {
    pub(crate) held: UnitPtr,
    ghost represents: { IsOpen held.unit },
}

impl Geostation {
    /// The handle of this unit.
    pub(crate) fn new(held: UnitPtr) -> Geostation
        requires represents { IsOpen held.unit }
        ensures { result.held ≡ held }
    {
        Geostation { held }
    }
}
