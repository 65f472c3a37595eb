//! Model-specific registers and the time-stamp counter.
#![tactic(auto, using(xe_ctx::proofs::Trees::row_rules))]

ghost use Rattle.std.specs.Prelude.{◌≡◌, ◌<◌, ◌^◌};
ghost use Rattle.xe_base.specs.Access.{IsWellFormed};
ghost use Rattle.xe_base.specs.Bits.{bit};
ghost use Rattle.xe_ctx.specs.Contract.{ℕ, HasLeft, IsReady, RunsWithin, Finishes, DraftsWithin, cpu_of};
ghost use Rattle.xe_sys.specs.Msr.{known_msr, msr_read, msr_write, pair_of, with_pair, is_there, device_msr, msr_value, msr_number, rdmsr_row, is_efer_allowed, with_efer, msr_written, wrmsr_row, may_read_time, rdtsc_row};

use xe_base::{Access, Answer, Cpu, Space};
use xe_ctx::operand::{AX, CX, DX, done, write_register};
use xe_ctx::privilege::{at_level_0, or_protection};
use xe_ctx::{Bus, Ctx, End, Stop};
use xe_icpt::{Intercepts, Point};
use xe_opmap::Insn;

/// A model-specific register that the processor has itself; all others are a device's.
#[derive(Clone, Copy)]
pub enum KnownMsr {
    Efer,
    FsBase,
    GsBase,
    KernelGsBase,
    OfDevice,
}

/// The number of the time-stamp counter (SDM volume 4, "IA32_TIME_STAMP_COUNTER").
const TIME_STAMP: u32 = 0x10;
/// SCE, LME, LMA and NXE: the bits of EFER.
const EFER_BITS: u64 = 0xD01;
/// LMA of EFER, which the processor alone sets.
const EFER_LMA: u64 = 0x400;

/// Where the register of a number is.
fn known_msr(number: u32) -> KnownMsr
    ensures { result ≡ known_msr number }
{
    match number {
        0xC000_0080 => KnownMsr::Efer,
        0xC000_0100 => KnownMsr::FsBase,
        0xC000_0101 => KnownMsr::GsBase,
        0xC000_0102 => KnownMsr::KernelGsBase,
        _ => KnownMsr::OfDevice,
    }
}

/// The access that reads a register of a device.
fn msr_read(number: u32) -> Access
    ensures value { result ≡ msr_read number }
    ensures well_formed { IsWellFormed result }
{
    Access {
        space: Space::Msr,
        write: false,
        address: number as u64,
        size: 8,
        value: 0,
    }
}

/// The access that writes a register of a device.
fn msr_write(number: u32, value: u64) -> Access
    ensures value { result ≡ msr_write number value }
    ensures well_formed { IsWellFormed result }
{
    Access {
        space: Space::Msr,
        write: true,
        address: number as u64,
        size: 8,
        value,
    }
}

/// ECX.
fn msr_number(cpu: &Cpu) -> u32
    ensures { result ≡ msr_number cpu.now }
{
    (cpu.gpr[CX as usize] % (1 << 32)) as u32
}

/// EDX:EAX.
fn pair_of(cpu: &Cpu) -> u64
    ensures { result ≡ pair_of cpu.now }
{
    cpu.gpr[DX as usize] % (1 << 32) * (1 << 32) + cpu.gpr[AX as usize] % (1 << 32)
}

/// Writes EDX:EAX.
fn set_pair(insn: &Insn, cpu: &mut Cpu, value: u64)
    ensures { cpu.new ≡ with_pair insn.now cpu.old value }
{
    write_register(insn, cpu, 4, AX, value);
    write_register(insn, cpu, 4, DX, value / (1 << 32));
}

/// Whether there is such a register.
fn is_there(answer: Answer) -> bool
    ensures { result ≡ is_there answer }
{
    match answer {
        Answer::Val(_) => true,
        Answer::No => false,
    }
}

/// Accesses a register of a device; one that isn't there is #GP(0).
#[tactic(auto, using(xe_ctx::proofs::Trees::row_rules), unfolding(crate::specs::Msr::device_msr))]
fn device_msr<B: Bus, I: Intercepts>(ctx: &mut Ctx<B, I>, access: Access) -> Result<u64, Stop>
    requires ready { HasLeft B.sight ctx.old 1 0 }
    requires well_formed { IsWellFormed access }
    ensures { RunsWithin B.sight I.hits (device_msr (cpu_of ctx.old) access) ctx.old result ctx.new 1 0 }
{
    let answer = ctx.device(access)?;
    or_protection(ctx, is_there(answer))?;
    Ok(answer.number())
}

/// The number in a register.
#[tactic(auto, using(xe_ctx::proofs::Trees::row_rules), unfolding(crate::specs::Msr::msr_value))]
fn msr_value<B: Bus, I: Intercepts>(
    ctx: &mut Ctx<B, I>,
    number: u32,
    known: KnownMsr,
) -> Result<u64, Stop>
    requires { HasLeft B.sight ctx.old 1 0 }
    ensures { RunsWithin B.sight I.hits (msr_value (cpu_of ctx.old) number known) ctx.old result ctx.new 1 0 }
{
    match known {
        KnownMsr::Efer => Ok(ctx.cpu().efer),
        KnownMsr::FsBase => Ok(ctx.cpu().fs.base),
        KnownMsr::GsBase => Ok(ctx.cpu().gs.base),
        KnownMsr::KernelGsBase => Ok(ctx.cpu().kgs),
        KnownMsr::OfDevice => device_msr(ctx, msr_read(number)),
    }
}

/// RDMSR (SDM volume 2, "RDMSR—Read From Model Specific Register").
pub fn rdmsr<B: Bus, I: Intercepts>(
    insn: &Insn,
    ctx: &mut Ctx<B, I>,
    cpu: &mut Cpu,
) -> Result<End, Stop>
    requires { IsReady B.sight insn.now ctx.old cpu.old 1 0 }
    ensures { Finishes B.sight I.hits (rdmsr_row insn.now (cpu_of ctx.old)) ctx.old result cpu.new ctx.new }
{
    let number = msr_number(cpu);
    at_level_0(ctx)?;
    ctx.point(&Point::Msr {
        number,
        write: false,
    })?;
    let value = msr_value(ctx, number, known_msr(number))?;
    set_pair(insn, cpu, value);
    Ok(done(insn, cpu))
}

/// LME of a number for EFER.
fn lme_of(value: u64) -> bool
    ensures { result ≡ bit value 8 }
{
    value >> 8 & 1 == 1
}

/// Whether EFER takes a number: known bits alone, and LME as it is while paging is on.
fn is_efer_allowed(cpu: &Cpu, value: u64) -> bool
    ensures { result ≡ is_efer_allowed cpu.now value }
{
    value & !EFER_BITS == 0 && (!cpu.pg() || lme_of(value) == lme_of(cpu.efer))
}

/// Writes EFER, but for LMA.
fn set_efer(cpu: &mut Cpu, value: u64)
    ensures { cpu.new ≡ with_efer cpu.old value }
{
    cpu.efer = value & (EFER_BITS - EFER_LMA) | cpu.efer & EFER_LMA;
}

/// Writes a register. `cpu` is still the state at the start of the step.
#[tactic(auto, using(xe_ctx::proofs::Trees::row_rules), unfolding(crate::specs::Msr::msr_written))]
fn write_msr<B: Bus, I: Intercepts>(
    ctx: &mut Ctx<B, I>,
    cpu: &mut Cpu,
    number: u32,
    value: u64,
    known: KnownMsr,
) -> Result<(), Stop>
    requires ready { HasLeft B.sight ctx.old 1 0 }
    requires draft { cpu.old ≡ cpu_of ctx.old }
    ensures { DraftsWithin B.sight I.hits (msr_written cpu.old number value known) ctx.old result cpu.new ctx.new 1 0 }
{
    match known {
        KnownMsr::Efer => {
            or_protection(ctx, is_efer_allowed(cpu, value))?;
            set_efer(cpu, value);
            Ok(())
        }
        KnownMsr::FsBase => {
            or_protection(ctx, cpu.is_base(value))?;
            cpu.fs.base = value;
            Ok(())
        }
        KnownMsr::GsBase => {
            or_protection(ctx, cpu.is_base(value))?;
            cpu.gs.base = value;
            Ok(())
        }
        KnownMsr::KernelGsBase => {
            or_protection(ctx, cpu.is_base(value))?;
            cpu.kgs = value;
            Ok(())
        }
        KnownMsr::OfDevice => {
            device_msr(ctx, msr_write(number, value))?;
            Ok(())
        }
    }
}

/// WRMSR (SDM volume 2, "WRMSR—Write to Model Specific Register").
pub fn wrmsr<B: Bus, I: Intercepts>(
    insn: &Insn,
    ctx: &mut Ctx<B, I>,
    cpu: &mut Cpu,
) -> Result<End, Stop>
    requires { IsReady B.sight insn.now ctx.old cpu.old 1 0 }
    ensures { Finishes B.sight I.hits (wrmsr_row insn.now (cpu_of ctx.old)) ctx.old result cpu.new ctx.new }
{
    let number = msr_number(cpu);
    let value = pair_of(cpu);
    at_level_0(ctx)?;
    ctx.point(&Point::Msr {
        number,
        write: true,
    })?;
    write_msr(ctx, cpu, number, value, known_msr(number))?;
    Ok(done(insn, cpu))
}

/// Whether the time-stamp counter may be read: CR4.TSD keeps it to level 0.
fn may_read_time(cpu: &Cpu) -> bool
    ensures { result ≡ may_read_time cpu.now }
{
    !(cpu.cr4 >> 2 & 1 == 1 && 0 < cpu.cpl)
}

/// RDTSC (SDM volume 2, "RDTSC—Read Time-Stamp Counter").
pub fn rdtsc<B: Bus, I: Intercepts>(
    insn: &Insn,
    ctx: &mut Ctx<B, I>,
    cpu: &mut Cpu,
) -> Result<End, Stop>
    requires { IsReady B.sight insn.now ctx.old cpu.old 1 0 }
    ensures { Finishes B.sight I.hits (rdtsc_row insn.now (cpu_of ctx.old)) ctx.old result cpu.new ctx.new }
{
    or_protection(ctx, may_read_time(cpu))?;
    ctx.point(&Point::Rdtsc)?;
    let value = device_msr(ctx, msr_read(TIME_STAMP))?;
    set_pair(insn, cpu, value);
    Ok(done(insn, cpu))
}
