//! A box as its pointer, in a struct that can lie in C's memory.

ghost use Rattle.std.specs.Prelude.{◌≡◌, List, [], ◌∷◌};
ghost use Rattle.std.specs.Coded.{coded_list};
ghost use Rattle.x86emu_c.specs.Owned.{held, chunk, IsOne};
ghost use Rattle.x86emu_c.specs.declared.emulator.Emulator.{Emulator};
ghost use Rattle.x86emu_c.specs.contracts.emulator.Emulator as emulator;

use crate::emulator::Emulator;
use crate::loose::Loose;
use std::marker::{Model, Send};
use std::ptr;

/// What the pointer has as its type. It is never read: C may know of no type that holds a list.
#[repr(C)]
#[derive(Drop)]
pub struct Opaque {
    unused: u8,
}

/// The pointer of a box, or null.
#[repr(C)]
#[derive(Drop)]
pub struct Held {
    at: *mut Opaque,
    /// What is in the box; none where there is no box.
    pub ghost values: { List Emulator } by { coded_list emulator.the_row.coded },
}

impl Model for Held {
    ghost also_owns = { λ h. held chunk emulator.the_row h.at h.values };
}

impl Held {
    /// No box.
    #[inline(always)]
    pub fn none() -> Held
        ensures { result.values ≡ [] }
    {
        Held {
            at: ptr::null_mut(),
        }
    }

    /// A box.
    #[inline(always)]
    pub(crate) fn of(loose: Loose<Emulator>) -> Held
        ensures { result.values ≡ loose.value ∷ [] }
    {
        let Loose { at } = loose;
        Held {
            at: at as *mut Opaque,
        }
    }

    /// The box again.
    #[inline(always)]
    pub(crate) fn into_loose(self) -> Loose<Emulator>
        requires { IsOne self.values }
        ensures { self.values ≡ result.value ∷ [] }
    {
        let Held { at } = self;
        Loose {
            at: at as *mut Emulator,
        }
    }
}

/// A machine may go to another thread.
unsafe impl Send for Held {}
