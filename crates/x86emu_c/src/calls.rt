//! The calls that make a machine, end it, and set and read its state.

ghost use Rattle.std.specs.Prelude.{◌≡◌, ◌<◌, length, Some, None, Option, true};
ghost use Rattle.xe_base.specs.Ram.{bytes_of};
ghost use Rattle.xe_base.specs.State.{broken};
ghost use Rattle.xe_ctx.specs.Machine.{first_hole};
ghost use Rattle.x86emu_c.specs.Emulated.{Emulated, machine_in, cpu_status, if_idle, with_cpu, hole_status, with_bytes, rule_of};
ghost use Rattle.x86emu_c.specs.Registers.{cpu_of};

use crate::handle::Handle;
use crate::registers::X86emuCpu;
use crate::status::{NO_MACHINE, OK};
use std::alloc::Global;

/// The number of this face; another one has other structs, numbers or calls.
const ABI: u32 = 1;

#[unsafe(no_mangle)]
pub extern "C" fn x86emu_abi() -> u32
    ensures { result ≡ 1 }
{
    ABI
}

#[unsafe(no_mangle)]
pub extern "C" fn x86emu_destroy(alloc: Global, m: &mut Handle) -> u32
    ensures none { machine_in m.old ≡ None → result ≡ 1 }
    ensures ended { (e : Emulated) → machine_in m.old ≡ Some e → result ≡ 0 }
    ensures left { machine_in m.new ≡ None }
{
    match m.take(alloc) {
        Some(_) => OK,
        None => NO_MACHINE,
    }
}

#[unsafe(no_mangle)]
pub extern "C" fn x86emu_check_cpu(cpu: &X86emuCpu) -> u32
    ensures { result ≡ rule_of (broken (cpu_of cpu.now)) }
{
    match cpu.cpu().check() {
        Ok(()) => 0,
        Err(bad) => u32::from(bad.rule),
    }
}

#[unsafe(no_mangle)]
pub extern "C" fn x86emu_set_cpu(alloc: Global, m: &mut Handle, cpu: &X86emuCpu) -> u32
    ensures none { machine_in m.old ≡ None → result ≡ 1 }
    ensures status { (e : Emulated) → machine_in m.old ≡ Some e → result ≡ if_idle e.kept.asked (cpu_status (broken (cpu_of cpu.now))) }
    ensures set { (e : Emulated) → machine_in m.old ≡ Some e → result ≡ 0 → machine_in m.new ≡ Some (with_cpu e (cpu_of cpu.now)) }
    ensures stays { 0 < result → machine_in m.new ≡ machine_in m.old }
{
    let Some(mut b) = m.take(alloc) else {
        return NO_MACHINE;
    };
    let status = b.set_cpu(cpu.cpu());
    *m = Handle::of(b);
    status
}

#[unsafe(no_mangle)]
pub extern "C" fn x86emu_get_cpu(alloc: Global, m: &mut Handle, cpu: &mut X86emuCpu) -> u32
    ensures none { machine_in m.old ≡ None → result ≡ 1 }
    ensures got { (e : Emulated) → machine_in m.old ≡ Some e → (result ≡ 0) × (cpu_of cpu.new ≡ e.state.cpu) }
    ensures stays { machine_in m.new ≡ machine_in m.old }
{
    let Some(b) = m.take(alloc) else {
        return NO_MACHINE;
    };
    *cpu = X86emuCpu::of(b.machine.cpu());
    *m = Handle::of(b);
    OK
}

#[unsafe(no_mangle)]
pub extern "C" fn x86emu_read(alloc: Global, m: &mut Handle, pa: u64, out: &mut [u8]) -> u32
    ensures none { machine_in m.old ≡ None → result ≡ 1 }
    ensures status { (e : Emulated) → machine_in m.old ≡ Some e → result ≡ hole_status (first_hole e.state.ram pa (length out.old)) }
    ensures read { (e : Emulated) → machine_in m.old ≡ Some e → result ≡ 0 → out.new ≡ bytes_of e.state.ram pa (length out.old) }
    ensures kept { 0 < result → out.new ≡ out.old }
    ensures stays { machine_in m.new ≡ machine_in m.old }
{
    let Some(b) = m.take(alloc) else {
        return NO_MACHINE;
    };
    let status = b.read(pa, out);
    *m = Handle::of(b);
    status
}

#[unsafe(no_mangle)]
pub extern "C" fn x86emu_write(alloc: Global, m: &mut Handle, pa: u64, bytes: &[u8]) -> u32
    ensures none { machine_in m.old ≡ None → result ≡ 1 }
    ensures status { (e : Emulated) → machine_in m.old ≡ Some e → result ≡ hole_status (first_hole e.state.ram pa (length bytes.now)) }
    ensures written { (e : Emulated) → machine_in m.old ≡ Some e → result ≡ 0 → machine_in m.new ≡ Some (with_bytes e pa bytes.now) }
    ensures stays { 0 < result → machine_in m.new ≡ machine_in m.old }
{
    let Some(mut b) = m.take(alloc) else {
        return NO_MACHINE;
    };
    let status = b.write(pa, bytes);
    *m = Handle::of(b);
    status
}
