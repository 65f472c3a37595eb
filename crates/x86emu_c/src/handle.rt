//! The struct that lies in C's memory.

ghost use Rattle.std.specs.Prelude.{IsTrue};
ghost use Rattle.x86emu_c.specs.Owned.{IsOne};

use crate::emulator::Emulator;
use crate::held::Held;
use crate::loose::Loose;
use std::alloc::Global;
use std::marker::Send;
use std::mem;

/// A machine, or none. All bytes 0 are none.
#[repr(C)]
#[derive(Drop)]
pub struct Handle {
    pub live: bool,
    pub held: Held,
    ghost agree: { IsTrue live → IsOne held.values },
}

impl Handle {
    ghost use Rattle.std.specs.Prelude.{◌≡◌, MatchOption, Some, None};
    ghost use Rattle.x86emu_c.specs.Emulated.{machine_in, seen};

    /// No machine.
    #[inline(always)]
    pub fn none() -> Handle
        ensures { machine_in result ≡ None }
    {
        Handle {
            live: false,
            held: Held::none(),
        }
    }

    /// The machine of a box.
    #[inline(always)]
    pub fn of(b: Box<Emulator>) -> Handle
        ensures { machine_in result ≡ Some (seen b.value) }
    {
        Handle {
            live: true,
            held: Held::of(Loose::of(b)),
        }
    }

    /// Whether there is a machine.
    #[inline(always)]
    pub fn is_live(&self) -> bool
        ensures { result ≡ self.now.live }
    {
        self.live
    }

    /// Takes the machine out, and leaves none.
    #[inline(always)]
    pub fn take(&mut self, alloc: Global) -> Option<Box<Emulator>>
        ensures taken { MatchOption result (machine_in self.old ≡ None) (λ b. machine_in self.old ≡ Some (seen b.value)) }
        ensures left { machine_in self.new ≡ None }
    {
        let Handle { live, held } = mem::replace(self, Handle::none());
        if live {
            Some(held.into_loose().into_box(alloc))
        } else {
            None
        }
    }
}

fn sends<T: Send + Drop>(_machine: T) {}

/// That a machine may go to another thread is proved because this asks for it.
fn may_cross(machine: Handle, inside: Emulator) {
    sends(machine);
    sends(inside)
}
