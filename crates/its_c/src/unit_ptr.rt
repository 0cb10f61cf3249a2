//! A unit behind a pointer, as a handle holds it.

ghost use Rattle.std.specs.Prelude.{◌≡◌, Option, Some, None, IsSome};
ghost use Rattle.its_unit.specs.Unit.{UnitState};
ghost use Rattle.its_c.specs.Ownership.{unit_ptr_owns};
ghost use Rattle.its_c.specs.Open.{IsOpen};

use crate::raw_box::RawBox;
use its_loctable::SortedTable;
use its_unit::Unit;
use std::alloc::Global;
use std::marker::Model;
use std::mem;
use std::ptr::null_mut;

/// A pointer to a unit on the heap, or to none. Its type hides the unit's: C may not be given a
/// pointer to a type that has a `Cell`, as the location table has.
#[repr(C)]
#[derive(Drop)]
pub struct UnitPtr {
    at: *mut u8,
    alloc: Global,
    ghost unit: { Option UnitState },
}

impl Model for UnitPtr {
    ghost also_owns = { λ h. unit_ptr_owns h.alloc h.at h.unit };
}

impl UnitPtr {
    fn none(at: *mut u8, alloc: Global) -> UnitPtr
        ensures { result.unit ≡ None }
    {
        UnitPtr { at, alloc }
    }

    fn of(raw_box: RawBox<Unit<SortedTable>, Global>) -> UnitPtr
        ensures { result.unit ≡ Some raw_box.value }
    {
        let RawBox { at, alloc } = raw_box;
        let at = at as *mut u8;
        UnitPtr { at, alloc }
    }

    fn into_raw_box(self) -> RawBox<Unit<SortedTable>, Global>
        requires { IsSome self.unit }
        ensures { self.unit ≡ Some result.value }
    {
        let UnitPtr { at, alloc } = self;
        let at = at as *mut Unit<SortedTable>;
        RawBox { at, alloc }
    }

    /// What holds this unit.
    pub(crate) fn new(unit: Box<Unit<SortedTable>>) -> UnitPtr
        ensures { result.unit ≡ Some unit.value }
    {
        UnitPtr::of(RawBox::of(unit))
    }

    /// Takes the unit out, until `put` puts it back.
    pub(crate) fn take(&mut self, alloc: Global) -> Box<Unit<SortedTable>>
        requires { IsOpen self.old.unit }
        ensures taken { self.old.unit ≡ Some result.value }
        ensures none { self.new.unit ≡ None }
    {
        let at: *mut u8 = null_mut();
        let none = UnitPtr::none(at, alloc);
        mem::replace(self, none).into_raw_box().into_box()
    }

    /// Puts a unit in after `take` took one out.
    pub(crate) fn put(&mut self, unit: Box<Unit<SortedTable>>)
        requires { self.old.unit ≡ None }
        ensures { self.new.unit ≡ Some unit.value }
    {
        *self = UnitPtr::of(RawBox::of(unit));
    }
}
