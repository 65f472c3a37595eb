//! Flags and the stack, and IF.
#![tactic(auto, using(xe_ctx::proofs::Trees::row_rules))]

ghost use Rattle.std.specs.Prelude.{◌≡◌, ◌≤◌};
ghost use Rattle.xe_ctx.specs.Contract.{ℕ, IsReady, Finishes, cpu_of};
ghost use Rattle.xe_flow.specs.Flags.{pushf_row, is_io_level, mask_where, popf_mask, flags_by_popf, popf_row, with_interrupts, cli_row, sti_retire, sti_row};

use xe_base::Cpu;
use xe_ctx::operand::done;
use xe_ctx::privilege::{at_io_level, iopl};
use xe_ctx::stack::{push as push_number, release, stack_load};
use xe_ctx::{Bus, Ctx, End, Stop};
use xe_icpt::{Intercepts, Point};
use xe_opmap::Insn;

/// CF, PF, AF, ZF, SF, TF, DF, OF and NT (SDM volume 1, "EFLAGS Register").
const COMMON_FLAGS: u64 = 0x4DD5;
/// IF: external interrupts are taken.
const INTERRUPT_FLAG: u64 = 1 << 9;
/// IOPL, two bits.
const IO_PRIVILEGE: u64 = 0x3000;
/// AC and ID.
const HIGH_FLAGS: u64 = 0x24_0000;

/// PUSHF (SDM volume 2, "PUSHF/PUSHFD/PUSHFQ—Push EFLAGS Register Onto the Stack").
pub fn pushf<B: Bus, I: Intercepts>(
    insn: &Insn,
    ctx: &mut Ctx<B, I>,
    cpu: &mut Cpu,
) -> Result<End, Stop>
    requires { IsReady B.sight insn.now ctx.old cpu.old 8 28 }
    ensures { Finishes B.sight I.hits (pushf_row insn.now (cpu_of ctx.old)) ctx.old result cpu.new ctx.new }
{
    ctx.point(&Point::Pushf)?;
    let flags = cpu.rflags;
    push_number(ctx, cpu, insn.opsize, flags)?;
    Ok(done(insn, cpu))
}

/// Whether the level is at most IOPL.
fn is_io_level(cpu: &Cpu) -> bool
    ensures { result ≡ is_io_level cpu.now }
{
    cpu.cpl <= iopl(cpu)
}

/// A mask where it holds, else none.
fn mask_where(holds: bool, mask: u64) -> u64
    ensures value { result ≡ mask_where holds mask }
    ensures bound { result ≤ mask }
{
    if holds { mask } else { 0 }
}

/// The flags that POPF of `size` bytes writes.
fn popf_mask(cpu: &Cpu, size: u8) -> u64
    ensures { result ≡ popf_mask cpu.now size }
{
    COMMON_FLAGS
        + mask_where(is_io_level(cpu), INTERRUPT_FLAG)
        + mask_where(cpu.cpl == 0, IO_PRIVILEGE)
        + mask_where(2 < size, HIGH_FLAGS)
}

/// The flags after `size` bytes of them were loaded, by the level and the IOPL of the registers: CF, PF,
/// AF, ZF, SF, TF, DF, OF and NT are taken in any case, IF up to IOPL, IOPL at level 0, and AC and ID
/// from more than two bytes; the others stay.
pub fn flags_by_popf(cpu: &Cpu, size: u8, value: u64) -> u64
    ensures { result ≡ flags_by_popf cpu.now size value }
{
    let mask = popf_mask(cpu, size);
    (cpu.rflags & !mask) | (value & mask)
}

/// POPF (SDM volume 2, "POPF/POPFD/POPFQ—Pop Stack Into EFLAGS Register").
pub fn popf<B: Bus, I: Intercepts>(
    insn: &Insn,
    ctx: &mut Ctx<B, I>,
    cpu: &mut Cpu,
) -> Result<End, Stop>
    requires { IsReady B.sight insn.now ctx.old cpu.old 8 28 }
    ensures { Finishes B.sight I.hits (popf_row insn.now (cpu_of ctx.old)) ctx.old result cpu.new ctx.new }
{
    let size = insn.opsize;
    ctx.point(&Point::Popf)?;
    let value = stack_load(ctx, cpu, 0, size)?;
    let flags = flags_by_popf(cpu, size, value);
    release(cpu, size as u64);
    cpu.rflags = flags;
    Ok(done(insn, cpu))
}

/// The flags with this IF.
fn with_interrupts(flags: u64, on: bool) -> u64
    ensures { result ≡ with_interrupts flags on }
{
    (flags & !INTERRUPT_FLAG) | if on { INTERRUPT_FLAG } else { 0 }
}

/// CLI (SDM volume 2, "CLI—Clear Interrupt Flag").
pub fn cli<B: Bus, I: Intercepts>(
    insn: &Insn,
    ctx: &mut Ctx<B, I>,
    cpu: &mut Cpu,
) -> Result<End, Stop>
    requires { IsReady B.sight insn.now ctx.old cpu.old 0 0 }
    ensures { Finishes B.sight I.hits (cli_row insn.now (cpu_of ctx.old)) ctx.old result cpu.new ctx.new }
{
    at_io_level(ctx)?;
    cpu.rflags = with_interrupts(cpu.rflags, false);
    Ok(done(insn, cpu))
}

/// What the retirement of STI brings with it: 1 where IF was 0.
fn sti_retire(flags: u64) -> u8
    ensures { result ≡ sti_retire flags }
{
    if flags >> 9 & 1 == 1 { 0 } else { 1 }
}

/// STI (SDM volume 2, "STI—Set Interrupt Flag").
pub fn sti<B: Bus, I: Intercepts>(
    insn: &Insn,
    ctx: &mut Ctx<B, I>,
    cpu: &mut Cpu,
) -> Result<End, Stop>
    requires { IsReady B.sight insn.now ctx.old cpu.old 0 0 }
    ensures { Finishes B.sight I.hits (sti_row insn.now (cpu_of ctx.old)) ctx.old result cpu.new ctx.new }
{
    at_io_level(ctx)?;
    let retire = sti_retire(cpu.rflags);
    cpu.rflags = with_interrupts(cpu.rflags, true);
    let end = done(insn, cpu);
    Ok(End { retire, ..end })
}
