//! The calls that say what is intercepted.

ghost use Rattle.std.specs.Prelude.{◌≡◌, ◌<◌, ◌≤◌, ◌^◌, ◌↔◌, nat_lt, nat_le, length, true, false, if◌then◌else◌, Some, None};
ghost use Rattle.std.specs.Int.RustNames.{bit_or};
ghost use Rattle.std.specs.FinSet.{union};
ghost use Rattle.bitflags.specs.Sets.{without};
ghost use Rattle.xe_icpt.specs.Ports.{ports_between};
ghost use Rattle.xe_icpt.specs.SvmSet.{bits_of, has_msr};
ghost use Rattle.x86emu_c.specs.Emulated.{Emulated, machine_in, with_intercepts, with_msr};

use crate::handle::Handle;
use crate::status::{BAD_NAME, BAD_RANGE, FULL, NO_MACHINE, OK};
use bitflags::Flags;
use std::alloc::Global;
use xe_icpt::SvmName;

/// How many names there are.
const NAMES: u32 = 32;

/// The name with this number.
fn name_of(name: u32) -> SvmName
    requires { name < 32 }
    ensures { bits_of result ≡ 2 ^ name }
{
    SvmName::from_bits_retain(1 << name)
}

#[unsafe(no_mangle)]
pub extern "C" fn x86emu_intercept(alloc: Global, m: &mut Handle, name: u32) -> u32
    ensures none { machine_in m.old ≡ None → result ≡ 1 }
    ensures status { (e : Emulated) → machine_in m.old ≡ Some e → result ≡ (if nat_lt name 32 then 0 else 12) }
    ensures set { (e : Emulated) → machine_in m.old ≡ Some e → result ≡ 0 → machine_in m.new ≡ Some (with_intercepts e (record e.intercepts { names = bit_or e.intercepts.names (2 ^ name) })) }
    ensures stays { 0 < result → machine_in m.new ≡ machine_in m.old }
{
    let Some(mut b) = m.take(alloc) else {
        return NO_MACHINE;
    };
    let status = if name < NAMES {
        b.intercepts.set(name_of(name));
        OK
    } else {
        BAD_NAME
    };
    *m = Handle::of(b);
    status
}

#[unsafe(no_mangle)]
pub extern "C" fn x86emu_intercept_no_more(alloc: Global, m: &mut Handle, name: u32) -> u32
    ensures none { machine_in m.old ≡ None → result ≡ 1 }
    ensures status { (e : Emulated) → machine_in m.old ≡ Some e → result ≡ (if nat_lt name 32 then 0 else 12) }
    ensures cleared { (e : Emulated) → machine_in m.old ≡ Some e → result ≡ 0 → machine_in m.new ≡ Some (with_intercepts e (record e.intercepts { names = without 64 e.intercepts.names (2 ^ name) })) }
    ensures stays { 0 < result → machine_in m.new ≡ machine_in m.old }
{
    let Some(mut b) = m.take(alloc) else {
        return NO_MACHINE;
    };
    let status = if name < NAMES {
        b.intercepts.clear(name_of(name));
        OK
    } else {
        BAD_NAME
    };
    *m = Handle::of(b);
    status
}

#[unsafe(no_mangle)]
pub extern "C" fn x86emu_intercept_ports(alloc: Global, m: &mut Handle, low: u16, high: u16) -> u32
    ensures none { machine_in m.old ≡ None → result ≡ 1 }
    ensures status { (e : Emulated) → machine_in m.old ≡ Some e → result ≡ (if nat_le low high then 0 else 13) }
    ensures set { (e : Emulated) → machine_in m.old ≡ Some e → result ≡ 0 → machine_in m.new ≡ Some (with_intercepts e (record e.intercepts { ports = union e.intercepts.ports (ports_between low high) })) }
    ensures stays { 0 < result → machine_in m.new ≡ machine_in m.old }
{
    let Some(mut b) = m.take(alloc) else {
        return NO_MACHINE;
    };
    let status = if low <= high {
        b.intercepts.ports(low, high);
        OK
    } else {
        BAD_RANGE
    };
    *m = Handle::of(b);
    status
}

#[unsafe(no_mangle)]
pub extern "C" fn x86emu_intercept_msr(
    alloc: Global,
    m: &mut Handle,
    number: u32,
    write: bool,
) -> u32
    ensures none { machine_in m.old ≡ None → result ≡ 1 }
    ensures status { (e : Emulated) → machine_in m.old ≡ Some e → (result ≡ 14) ↔ ((has_msr e.intercepts.msrs number write ≡ false) × (length e.intercepts.msrs ≡ 64)) }
    ensures set { (e : Emulated) → machine_in m.old ≡ Some e → result ≡ 0 → machine_in m.new ≡ Some (with_intercepts e (with_msr e.intercepts number write)) }
    ensures stays { 0 < result → machine_in m.new ≡ machine_in m.old }
{
    let Some(mut b) = m.take(alloc) else {
        return NO_MACHINE;
    };
    let status = if b.intercepts.msr(number, write) {
        OK
    } else {
        FULL
    };
    *m = Handle::of(b);
    status
}
