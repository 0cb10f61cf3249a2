//! C's pointer to a handle, as `geostation_new` writes it.

ghost use Rattle.std.specs.Prelude.{◌≡◌, Option, Some, None};
ghost use Rattle.std.specs.Coded.{coded_option};
ghost use Rattle.its_c.specs.Handles.{handle_out_owns};
ghost use Rattle.its_c.specs.contracts.handle.Geostation as geostation;
ghost use Rattle.its_c.specs.declared.handle.Geostation.{Geostation as Handle};

use crate::handle::Geostation;
use crate::raw_box::RawBox;
use std::alloc::Global;
use std::marker::Model;

/// A pointer to a handle on the heap, or to none: `struct geostation *` of C.
#[repr(C)]
#[derive(Drop)]
pub struct HandleOut {
    at: *mut Geostation,
    alloc: Global,
    ghost handle: { Option Handle } by { coded_option geostation.the_row.coded },
}

impl Model for HandleOut {
    ghost also_owns = { λ s. handle_out_owns s.alloc s.at s.handle };
}

impl HandleOut {
    pub(crate) fn none(at: *mut Geostation, alloc: Global) -> HandleOut
        ensures { result.handle ≡ None }
    {
        HandleOut { at, alloc }
    }

    pub(crate) fn of(raw_box: RawBox<Geostation, Global>) -> HandleOut
        ensures { result.handle ≡ Some raw_box.value }
    {
        let RawBox { at, alloc } = raw_box;
        HandleOut { at, alloc }
    }
}
