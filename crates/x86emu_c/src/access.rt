//! Device accesses and regions of RAM as C sees them.

ghost use Rattle.std.specs.Prelude.{◌≡◌};
ghost use Rattle.x86emu_c.specs.Told.{space_number, ToldAccess, ToldMade};

use xe_base::{Access, Answer, Made, Space};

/// `x86emu_region`.
#[repr(C)]
#[derive(Clone, Copy)]
pub struct X86emuRegion {
    pub start: u64,
    pub length: u64,
}

/// `x86emu_access`.
#[repr(C)]
#[derive(Clone, Copy)]
pub struct X86emuAccess {
    pub address: u64,
    pub value: u64,
    pub space: u32,
    pub size: u8,
    pub write: bool,
}

/// `x86emu_made`.
#[repr(C)]
#[derive(Clone, Copy)]
pub struct X86emuMade {
    pub access: X86emuAccess,
    pub answer: u64,
    pub answered: bool,
}

/// The number of a space.
fn space_number(space: Space) -> u32
    ensures { result ≡ space_number space }
{
    match space {
        Space::Mem => 0,
        Space::Port => 1,
        Space::Msr => 2,
        Space::Cpuid => 3,
    }
}

impl X86emuAccess {
    /// No access.
    pub(crate) fn none() -> X86emuAccess {
        X86emuAccess {
            address: 0,
            value: 0,
            space: 0,
            size: 0,
            write: false,
        }
    }

    /// An access for C.
    pub(crate) fn of(a: Access) -> X86emuAccess
        ensures { ToldAccess a result }
    {
        X86emuAccess {
            address: a.address,
            value: a.value,
            space: space_number(a.space),
            size: a.size,
            write: a.write,
        }
    }
}

impl X86emuMade {
    /// An access with its answer for C.
    pub(crate) fn of(made: Made) -> X86emuMade
        ensures { ToldMade made result }
    {
        let access = X86emuAccess::of(made.access);
        match made.answer {
            Answer::Val(answer) => X86emuMade {
                access,
                answer,
                answered: true,
            },
            Answer::No => X86emuMade {
                access,
                answer: 0,
                answered: false,
            },
        }
    }
}
