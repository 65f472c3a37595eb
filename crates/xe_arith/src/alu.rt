//! Operations on two operands.
#![tactic(auto, using(xe_ctx::proofs::Trees::row_rules))]

ghost use Rattle.std.specs.Prelude.{◌≡◌};
ghost use Rattle.xe_ctx.specs.Contract.{ℕ, IsOf, IsOperand, IsReady, Finishes, AtOnce, cpu_of};
ghost use Rattle.xe_arith.specs.Alu.{is_from_e, is_immediate, alu_target, alu_source, alu_row, cmp_row, test_is_immediate, test_source, test_row};
ghost use Rattle.xe_move.specs.Source.{IsSource};

use crate::sized::alu_at;
use xe_base::Cpu;
use xe_ctx::operand::{
    Operand, done, operand_of, read_at_once, read_for_write, read_for_write_at_once, read_operand,
    reg_of, size_by_opcode, write_at_once, write_operand,
};
use xe_ctx::{Bus, Ctx, End, Stop};
use xe_flags::AluOp;
use xe_icpt::Intercepts;
use xe_move::source::{Source, read_source, read_source_at_once};
use xe_opmap::Insn;

/// Whether G is computed from E: the opcodes 02, 03, 0A, 0B and so on.
#[inline(always)]
fn is_from_e(opcode: u16) -> bool
    ensures { result ≡ is_from_e opcode }
{
    opcode < 0x40 && opcode / 2 % 4 == 1
}

/// Whether the second operand is an immediate: the opcodes 04, 05, 0C, 0D and so on, and 80 to 83.
#[inline(always)]
fn is_immediate(opcode: u16) -> bool
    ensures { result ≡ is_immediate opcode }
{
    opcode >= 0x40 || opcode / 2 % 4 >= 2
}

/// The operand that is changed or compared: G, E, or the accumulator.
#[inline(always)]
fn alu_target(insn: &Insn, cpu: &Cpu) -> Operand
    requires { IsOf cpu.now insn.now }
    ensures value { result ≡ alu_target insn.now cpu.now }
    ensures register { IsOperand result }
{
    if is_from_e(insn.opcode) {
        Operand::Register(reg_of(insn, cpu))
    } else {
        operand_of(insn, cpu)
    }
}

/// The other operand.
#[inline(always)]
fn alu_source(insn: &Insn, cpu: &Cpu) -> Source
    requires { IsOf cpu.now insn.now }
    ensures value { result ≡ alu_source insn.now cpu.now }
    ensures register { IsSource result }
{
    if is_immediate(insn.opcode) {
        Source::Number(insn.imm)
    } else if is_from_e(insn.opcode) {
        Source::Place(operand_of(insn, cpu))
    } else {
        Source::Place(Operand::Register(reg_of(insn, cpu)))
    }
}

/// ADD, OR, ADC, SBB, AND, SUB and XOR (SDM volume 2).
pub fn alu<B: Bus, I: Intercepts>(
    op: AluOp,
    insn: &Insn,
    ctx: &mut Ctx<B, I>,
    cpu: &mut Cpu,
) -> Result<End, Stop>
    requires { IsReady B.sight insn.now ctx.old cpu.old 12 38 }
    ensures { Finishes B.sight I.hits (alu_row op insn.now (cpu_of ctx.old)) ctx.old result cpu.new ctx.new }
{
    let size = size_by_opcode(insn, cpu);
    let target = alu_target(insn, cpu);
    let source = alu_source(insn, cpu);
    let a = read_for_write(insn, ctx, target, size)?;
    let b = read_source(insn, ctx, source, size)?;
    let (value, flags) = alu_at(op, size, a, b, cpu.rflags);
    cpu.rflags = flags;
    write_operand(insn, ctx, cpu, target, size, value)?;
    Ok(done(insn, cpu))
}

/// CMP (SDM volume 2, "CMP—Compare Two Operands").
pub fn cmp<B: Bus, I: Intercepts>(
    insn: &Insn,
    ctx: &mut Ctx<B, I>,
    cpu: &mut Cpu,
) -> Result<End, Stop>
    requires { IsReady B.sight insn.now ctx.old cpu.old 10 36 }
    ensures { Finishes B.sight I.hits (cmp_row insn.now (cpu_of ctx.old)) ctx.old result cpu.new ctx.new }
{
    let size = size_by_opcode(insn, cpu);
    let target = alu_target(insn, cpu);
    let source = alu_source(insn, cpu);
    let a = read_operand(insn, ctx, target, size)?;
    let b = read_source(insn, ctx, source, size)?;
    let (_, flags) = alu_at(AluOp::Cmp, size, a, b, cpu.rflags);
    cpu.rflags = flags;
    Ok(done(insn, cpu))
}

/// Whether TEST compares with an immediate: A8, A9, F6 and F7.
#[inline(always)]
fn test_is_immediate(opcode: u16) -> bool
    ensures { result ≡ test_is_immediate opcode }
{
    opcode >= 0xA8
}

/// What TEST compares E or the accumulator with.
#[inline(always)]
fn test_source(insn: &Insn, cpu: &Cpu) -> Source
    requires { IsOf cpu.now insn.now }
    ensures value { result ≡ test_source insn.now }
    ensures register { IsSource result }
{
    if test_is_immediate(insn.opcode) {
        Source::Number(insn.imm)
    } else {
        Source::Place(Operand::Register(reg_of(insn, cpu)))
    }
}

/// TEST (SDM volume 2, "TEST—Logical Compare").
pub fn test<B: Bus, I: Intercepts>(
    insn: &Insn,
    ctx: &mut Ctx<B, I>,
    cpu: &mut Cpu,
) -> Result<End, Stop>
    requires { IsReady B.sight insn.now ctx.old cpu.old 10 36 }
    ensures { Finishes B.sight I.hits (test_row insn.now (cpu_of ctx.old)) ctx.old result cpu.new ctx.new }
{
    let size = size_by_opcode(insn, cpu);
    let source = test_source(insn, cpu);
    let a = read_operand(insn, ctx, operand_of(insn, cpu), size)?;
    let b = read_source(insn, ctx, source, size)?;
    let (_, flags) = alu_at(AluOp::And, size, a, b, cpu.rflags);
    cpu.rflags = flags;
    Ok(done(insn, cpu))
}

/// ADD, OR, ADC, SBB, AND, SUB and XOR, where they are done at once.
#[inline(always)]
pub(crate) fn alu_at_once<B: Bus, I: Intercepts>(
    op: AluOp,
    insn: &Insn,
    ctx: &mut Ctx<B, I>,
    cpu: &mut Cpu,
) -> bool
    requires { IsReady B.sight insn.now ctx.old cpu.old 12 38 }
    ensures { AtOnce B.sight I.hits (alu_row op insn.now (cpu_of ctx.old)) ctx.old cpu.old result ctx.new cpu.new }
{
    let size = size_by_opcode(insn, cpu);
    let target = alu_target(insn, cpu);
    let source = alu_source(insn, cpu);
    let Some(a) = read_for_write_at_once(insn, ctx, target, size) else {
        return false;
    };
    let Some(b) = read_source_at_once(insn, ctx, source, size) else {
        return false;
    };
    let before = cpu.rflags;
    let (value, flags) = alu_at(op, size, a, b, before);
    cpu.rflags = flags;
    if !write_at_once(insn, ctx, cpu, target, size, value) {
        cpu.rflags = before;
        return false;
    }
    cpu.advance(insn.len);
    true
}

/// CMP, where it is done at once.
#[inline(always)]
pub(crate) fn cmp_at_once<B: Bus, I: Intercepts>(
    insn: &Insn,
    ctx: &mut Ctx<B, I>,
    cpu: &mut Cpu,
) -> bool
    requires { IsReady B.sight insn.now ctx.old cpu.old 10 36 }
    ensures { AtOnce B.sight I.hits (cmp_row insn.now (cpu_of ctx.old)) ctx.old cpu.old result ctx.new cpu.new }
{
    let size = size_by_opcode(insn, cpu);
    let target = alu_target(insn, cpu);
    let source = alu_source(insn, cpu);
    let Some(a) = read_at_once(insn, ctx, target, size) else {
        return false;
    };
    let Some(b) = read_source_at_once(insn, ctx, source, size) else {
        return false;
    };
    let (_, flags) = alu_at(AluOp::Cmp, size, a, b, cpu.rflags);
    cpu.rflags = flags;
    cpu.advance(insn.len);
    true
}

/// TEST, where it is done at once.
#[inline(always)]
pub(crate) fn test_at_once<B: Bus, I: Intercepts>(
    insn: &Insn,
    ctx: &mut Ctx<B, I>,
    cpu: &mut Cpu,
) -> bool
    requires { IsReady B.sight insn.now ctx.old cpu.old 10 36 }
    ensures { AtOnce B.sight I.hits (test_row insn.now (cpu_of ctx.old)) ctx.old cpu.old result ctx.new cpu.new }
{
    let size = size_by_opcode(insn, cpu);
    let target = operand_of(insn, cpu);
    let source = test_source(insn, cpu);
    let Some(a) = read_at_once(insn, ctx, target, size) else {
        return false;
    };
    let Some(b) = read_source_at_once(insn, ctx, source, size) else {
        return false;
    };
    let (_, flags) = alu_at(AluOp::And, size, a, b, cpu.rflags);
    cpu.rflags = flags;
    cpu.advance(insn.len);
    true
}
