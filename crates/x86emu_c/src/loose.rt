//! A box as its pointer.

ghost use Rattle.std.specs.Prelude.{◌≡◌};
ghost use Rattle.std.specs.Box.Ownership.{box_owns};
ghost use Rattle.x86emu_c.specs.Owned.{chunk};

use std::alloc::Global;
use std::marker::Model;

/// The pointer of a box, which owns what the box owned.
pub(crate) struct Loose<T> {
    pub(crate) at: *mut T,
    pub(crate) ghost value: { T },
}

impl<T> Model for Loose<T> {
    ghost also_owns = { λ l. box_owns chunk T.row l.at l.value };
}

impl<T: Drop> Loose<T> {
    /// Takes a box apart.
    #[inline(always)]
    pub(crate) fn of(value: Box<T>) -> Loose<T>
        ensures { result.value ≡ value.value }
    {
        let (at, _alloc) = Box::into_raw_with_allocator(value);
        Loose { at }
    }

    /// Makes the box again.
    #[inline(always)]
    pub(crate) fn into_box(self, alloc: Global) -> Box<T>
        ensures { result.value ≡ self.value }
    {
        let Loose { at } = self;
        unsafe { Box::from_raw(alloc, at) }
    }
}
