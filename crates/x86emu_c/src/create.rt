//! The call that makes a machine.

ghost use Rattle.std.specs.Prelude.{◌≡◌, ◌<◌, ◌≤◌, ◌++◌, [], ◌∷◌, length, map, Some, None, true, false, IfOk, IfErr, OnErr};
ghost use Rattle.xe_mem.specs.Layout.{IsLayout, zeroed};
ghost use Rattle.x86emu_c.specs.Emulated.{machine_in, fresh, seen};
ghost use Rattle.x86emu_c.specs.Regions.{region_of, regions_of};

use crate::access::X86emuRegion;
use crate::emulator::Emulator;
use crate::handle::Handle;
use crate::status::{BAD_REGION, HAS_MACHINE, NO_MEMORY, OK, TOO_LARGE};
use arrayvec::ArrayVec;
use std::alloc::Global;
use xe_mem::{GuestMem, MAX_REGIONS, MemFault, Region};

/// The regions in the library's own type.
fn copied(regions: &[X86emuRegion]) -> ArrayVec<Region, 16>
    requires { length regions.now ≤ 16 }
    ensures { result.items ≡ regions_of regions.now }
{
    let mut list = ArrayVec::new();
    for region in regions {
        list.push(Region {
            start: region.start,
            len: region.length,
        });
    }
    list
}

/// A machine in its box; or the status by which it is refused.
fn made(alloc: Global, regions: &[X86emuRegion]) -> Result<Box<Emulator>, u32>
    ensures made { IfOk result (λ b. seen b.value ≡ fresh (zeroed (regions_of regions.now))) }
    ensures refused { IfErr result (λ status. 0 < status) }
    ensures layout { IfOk result (λ b. IsLayout (regions_of regions.now)) }
    ensures memory { IsLayout (regions_of regions.now) → IfErr result (λ status. status ≡ 3) }
{
    if regions.len() > MAX_REGIONS {
        return Err(TOO_LARGE);
    }
    let list = copied(regions);
    let ram = match GuestMem::create(alloc, list.as_slice()) {
        Ok(ram) => ram,
        Err(MemFault::NoMemory) => return Err(NO_MEMORY),
        Err(MemFault::BadRegion(_)) => return Err(BAD_REGION),
        Err(MemFault::TooLarge) => return Err(TOO_LARGE),
    };
    match Box::new(alloc, Emulator::new(ram)) {
        Ok(b) => Ok(b),
        Err(_) => Err(NO_MEMORY),
    }
}

#[unsafe(no_mangle)]
pub extern "C" fn x86emu_create(alloc: Global, m: &mut Handle, regions: &[X86emuRegion]) -> u32
    ensures twice { m.old.live ≡ true → result ≡ 2 }
    ensures made { result ≡ 0 → machine_in m.new ≡ Some (fresh (zeroed (regions_of regions.now))) }
    ensures layout { result ≡ 0 → IsLayout (regions_of regions.now) }
    ensures memory { m.old.live ≡ false → IsLayout (regions_of regions.now) → 0 < result → result ≡ 3 }
    ensures stays { 0 < result → machine_in m.new ≡ machine_in m.old }
{
    if m.is_live() {
        return HAS_MACHINE;
    }
    match made(alloc, regions) {
        Ok(b) => {
            *m = Handle::of(b);
            OK
        }
        Err(status) => status,
    }
}
