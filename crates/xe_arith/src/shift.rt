//! Shifts and rotates.
#![tactic(auto, using(xe_ctx::proofs::Trees::row_rules))]

ghost use Rattle.std.specs.Prelude.{◌≡◌};
ghost use Rattle.xe_ctx.specs.Contract.{ℕ, IsReady, Finishes, AtOnce, cpu_of};
ghost use Rattle.xe_ctx.specs.Operand.{reads, cx};
ghost use Rattle.xe_arith.specs.Shift.{is_by_immediate, is_by_one, shift_count, shift_row, double_is_by_immediate, double_count, double_row};

use crate::sized::{double_at, shift_at};
use xe_base::Cpu;
use xe_ctx::operand::{
    CX, done, operand_of, read_for_write, read_for_write_at_once, read_register, reg_of,
    size_by_opcode, write_at_once, write_operand,
};
use xe_ctx::{Bus, Ctx, End, Stop};
use xe_flags::ShiftOp;
use xe_icpt::Intercepts;
use xe_opmap::Insn;

/// Whether a shift is by an immediate byte: opcodes C0 and C1.
#[inline(always)]
fn is_by_immediate(opcode: u16) -> bool
    ensures { result ≡ is_by_immediate opcode }
{
    opcode < 0xD0
}

/// Whether a shift is by one: opcodes D0 and D1.
#[inline(always)]
fn is_by_one(opcode: u16) -> bool
    ensures { result ≡ is_by_one opcode }
{
    opcode == 0xD0 || opcode == 0xD1
}

/// The count of a shift: an immediate byte, one, or CL.
#[inline(always)]
fn shift_count(insn: &Insn, cpu: &Cpu) -> u8
    ensures { result ≡ shift_count insn.now cpu.now }
{
    if is_by_immediate(insn.opcode) {
        (insn.imm % (1 << 8)) as u8
    } else if is_by_one(insn.opcode) {
        1
    } else {
        read_count(insn, cpu)
    }
}

/// CL.
#[tactic(auto, unfolding(xe_base::specs::Registers::register_value))]
#[inline(always)]
fn read_count(insn: &Insn, cpu: &Cpu) -> u8
    ensures { result ≡ reads insn.now cpu.now 1 cx }
{
    (read_register(insn, cpu, 1, CX) % (1 << 8)) as u8
}

/// ROL, ROR, RCL, RCR, SHL, SHR and SAR (SDM volume 2).
pub fn shift<B: Bus, I: Intercepts>(
    op: ShiftOp,
    insn: &Insn,
    ctx: &mut Ctx<B, I>,
    cpu: &mut Cpu,
) -> Result<End, Stop>
    requires { IsReady B.sight insn.now ctx.old cpu.old 10 36 }
    ensures { Finishes B.sight I.hits (shift_row op insn.now (cpu_of ctx.old)) ctx.old result cpu.new ctx.new }
{
    let size = size_by_opcode(insn, cpu);
    let target = operand_of(insn, cpu);
    let count = shift_count(insn, cpu);
    let a = read_for_write(insn, ctx, target, size)?;
    let (value, flags) = shift_at(op, size, a, count, cpu.rflags);
    cpu.rflags = flags;
    write_operand(insn, ctx, cpu, target, size, value)?;
    Ok(done(insn, cpu))
}

/// ROL, ROR, RCL, RCR, SHL, SHR and SAR, where they are done at once.
#[inline(always)]
pub(crate) fn shift_at_once<B: Bus, I: Intercepts>(
    op: ShiftOp,
    insn: &Insn,
    ctx: &mut Ctx<B, I>,
    cpu: &mut Cpu,
) -> bool
    requires { IsReady B.sight insn.now ctx.old cpu.old 10 36 }
    ensures { AtOnce B.sight I.hits (shift_row op insn.now (cpu_of ctx.old)) ctx.old cpu.old result ctx.new cpu.new }
{
    let size = size_by_opcode(insn, cpu);
    let target = operand_of(insn, cpu);
    let count = shift_count(insn, cpu);
    let Some(a) = read_for_write_at_once(insn, ctx, target, size) else {
        return false;
    };
    let before = cpu.rflags;
    let (value, flags) = shift_at(op, size, a, count, before);
    cpu.rflags = flags;
    if !write_at_once(insn, ctx, cpu, target, size, value) {
        cpu.rflags = before;
        return false;
    }
    cpu.advance(insn.len);
    true
}

/// Whether a double shift is by an immediate byte: opcodes 0F A4 and 0F AC.
fn double_is_by_immediate(opcode: u16) -> bool
    ensures { result ≡ double_is_by_immediate opcode }
{
    opcode % 2 == 0
}

/// The count of a double shift: an immediate byte, or CL.
fn double_count(insn: &Insn, cpu: &Cpu) -> u8
    ensures { result ≡ double_count insn.now cpu.now }
{
    if double_is_by_immediate(insn.opcode) {
        (insn.imm % (1 << 8)) as u8
    } else {
        read_count(insn, cpu)
    }
}

/// SHLD and SHRD (SDM volume 2).
pub fn double_shift<B: Bus, I: Intercepts>(
    left: bool,
    insn: &Insn,
    ctx: &mut Ctx<B, I>,
    cpu: &mut Cpu,
) -> Result<End, Stop>
    requires { IsReady B.sight insn.now ctx.old cpu.old 10 36 }
    ensures { Finishes B.sight I.hits (double_row left insn.now (cpu_of ctx.old)) ctx.old result cpu.new ctx.new }
{
    let size = insn.opsize;
    let target = operand_of(insn, cpu);
    let count = double_count(insn, cpu);
    let b = read_register(insn, cpu, size, reg_of(insn, cpu));
    let a = read_for_write(insn, ctx, target, size)?;
    let (value, flags) = double_at(left, size, a, b, count, cpu.rflags);
    cpu.rflags = flags;
    write_operand(insn, ctx, cpu, target, size, value)?;
    Ok(done(insn, cpu))
}
