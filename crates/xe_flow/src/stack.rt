//! Numbers on the stack.
#![tactic(auto, using(xe_ctx::proofs::Trees::row_rules))]

ghost use Rattle.std.specs.Prelude.{◌≡◌, ◌<◌, IfSome, Ok};
ghost use Rattle.xe_ctx.specs.Contract.{ℕ, IsTrue, is_size, IsOf, IsOperand, HasLeft, IsReady, RunsWithin, Finishes, DraftsWithin, AtOnce, cpu_of};
ghost use Rattle.xe_ctx.specs.Is.{Is};
ghost use Rattle.xe_ctx.specs.View.{view};
ghost use Rattle.xe_flow.specs.Stack.{is_by_opcode, stack_operand, is_immediate, pushed_value, push_row, pop_row, segment_named, pushed_segment, pushseg_row, push_pair, pusha_row, pop_to, pop_pair, popa_row};

use xe_base::{Cpu, SegName};
use xe_ctx::operand::{
    AX, BX, CX, DX, Operand, done, opcode_register, operand_of, read_at_once, read_operand,
    read_register, write_operand, write_register,
};
use xe_ctx::stack::{BP, SP, push as push_number, push_at_once, release, stack_load};
use xe_ctx::{Bus, Ctx, End, Stop};
use xe_icpt::Intercepts;
use xe_opmap::Insn;

/// RSI, or its part of the operand's size, as a register's number.
const SI: u8 = 6;
/// RDI, or its part of the operand's size.
const DI: u8 = 7;

/// Whether the opcode names the register: 50 to 5F.
#[inline(always)]
fn is_by_opcode(opcode: u16) -> bool
    ensures { result ≡ is_by_opcode opcode }
{
    opcode >> 4 == 5
}

/// The operand of PUSH and POP: the register that the opcode names, or E.
#[inline(always)]
fn stack_operand(insn: &Insn, cpu: &Cpu) -> Operand
    requires { IsOf cpu.now insn.now }
    ensures value { result ≡ stack_operand insn.now cpu.now }
    ensures register { IsOperand result }
{
    if is_by_opcode(insn.opcode) {
        Operand::Register(opcode_register(insn))
    } else {
        operand_of(insn, cpu)
    }
}

/// Whether PUSH has an immediate: 68 and 6A.
#[inline(always)]
fn is_immediate(opcode: u16) -> bool
    ensures { result ≡ is_immediate opcode }
{
    opcode == 0x68 || opcode == 0x6A
}

/// The number that PUSH pushes.
#[tactic(auto, using(xe_ctx::proofs::Trees::row_rules), unfolding(crate::specs::Stack::pushed_value))]
fn pushed_value<B: Bus, I: Intercepts>(insn: &Insn, ctx: &mut Ctx<B, I>) -> Result<u64, Stop>
    requires ready { HasLeft B.sight ctx.old 4 10 }
    requires insn { IsOf (cpu_of ctx.old) insn.now }
    ensures { RunsWithin B.sight I.hits (pushed_value insn.now (cpu_of ctx.old)) ctx.old result ctx.new 4 10 }
{
    if is_immediate(insn.opcode) {
        Ok(insn.imm)
    } else {
        let operand = stack_operand(insn, ctx.cpu());
        read_operand(insn, ctx, operand, insn.opsize)
    }
}

/// PUSH (SDM volume 2, "PUSH—Push Word, Doubleword, or Quadword Onto the Stack").
pub fn push<B: Bus, I: Intercepts>(
    insn: &Insn,
    ctx: &mut Ctx<B, I>,
    cpu: &mut Cpu,
) -> Result<End, Stop>
    requires { IsReady B.sight insn.now ctx.old cpu.old 8 28 }
    ensures { Finishes B.sight I.hits (push_row insn.now (cpu_of ctx.old)) ctx.old result cpu.new ctx.new }
{
    let value = pushed_value(insn, ctx)?;
    push_number(ctx, cpu, insn.opsize, value)?;
    Ok(done(insn, cpu))
}

/// POP (SDM volume 2, "POP—Pop a Value From the Stack").
pub fn pop<B: Bus, I: Intercepts>(
    insn: &Insn,
    ctx: &mut Ctx<B, I>,
    cpu: &mut Cpu,
) -> Result<End, Stop>
    requires { IsReady B.sight insn.now ctx.old cpu.old 8 28 }
    ensures { Finishes B.sight I.hits (pop_row insn.now (cpu_of ctx.old)) ctx.old result cpu.new ctx.new }
{
    let size = insn.opsize;
    let value = stack_load(ctx, cpu, 0, size)?;
    release(cpu, size as u64);
    let target = stack_operand(insn, cpu);
    write_operand(insn, ctx, cpu, target, size, value)?;
    Ok(done(insn, cpu))
}

/// The segment register of a number in the encoding.
fn segment_named(number: u16) -> SegName
    ensures { result ≡ segment_named number }
{
    match number {
        0 => SegName::Es,
        1 => SegName::Cs,
        2 => SegName::Ss,
        3 => SegName::Ds,
        4 => SegName::Fs,
        _ => SegName::Gs,
    }
}

/// The segment register that the opcode names by its bits 5:3.
fn pushed_segment(insn: &Insn) -> SegName
    ensures { result ≡ pushed_segment insn.now }
{
    segment_named(insn.opcode / 8 % 8)
}

/// PUSH of a segment register (SDM volume 2, "PUSH").
pub fn pushseg<B: Bus, I: Intercepts>(
    insn: &Insn,
    ctx: &mut Ctx<B, I>,
    cpu: &mut Cpu,
) -> Result<End, Stop>
    requires { IsReady B.sight insn.now ctx.old cpu.old 8 28 }
    ensures { Finishes B.sight I.hits (pushseg_row insn.now (cpu_of ctx.old)) ctx.old result cpu.new ctx.new }
{
    let selector = cpu.segment(pushed_segment(insn)).sel;
    push_number(ctx, cpu, insn.opsize, selector as u64)?;
    Ok(done(insn, cpu))
}

/// Pushes two numbers.
#[tactic(auto, using(xe_ctx::proofs::Trees::row_rules), unfolding(crate::specs::Stack::push_pair))]
fn push_pair<B: Bus, I: Intercepts>(
    ctx: &mut Ctx<B, I>,
    cpu: &mut Cpu,
    size: u8,
    first: u64,
    second: u64,
) -> Result<(), Stop>
    requires ready { HasLeft B.sight ctx.old 8 36 }
    requires size { IsTrue (is_size size) }
    ensures { DraftsWithin B.sight I.hits (push_pair cpu.old size first second) ctx.old result cpu.new ctx.new 8 36 }
{
    push_number(ctx, cpu, size, first)?;
    push_number(ctx, cpu, size, second)
}

/// PUSHA (SDM volume 2, "PUSHA/PUSHAD—Push All General-Purpose Registers").
pub fn pusha<B: Bus, I: Intercepts>(
    insn: &Insn,
    ctx: &mut Ctx<B, I>,
    cpu: &mut Cpu,
) -> Result<End, Stop>
    requires { IsReady B.sight insn.now ctx.old cpu.old 32 144 }
    ensures { Finishes B.sight I.hits (pusha_row insn.now (cpu_of ctx.old)) ctx.old result cpu.new ctx.new }
{
    let size = insn.opsize;
    let all = *cpu;
    let register = |index: u8| read_register(insn, &all, size, index);
    push_pair(ctx, cpu, size, register(AX), register(CX))?;
    push_pair(ctx, cpu, size, register(DX), register(BX))?;
    push_pair(ctx, cpu, size, register(SP), register(BP))?;
    push_pair(ctx, cpu, size, register(SI), register(DI))?;
    Ok(done(insn, cpu))
}

/// Pops a number to a register.
#[tactic(auto, using(xe_ctx::proofs::Trees::row_rules), unfolding(crate::specs::Stack::pop_to))]
fn pop_to<B: Bus, I: Intercepts>(
    insn: &Insn,
    ctx: &mut Ctx<B, I>,
    cpu: &mut Cpu,
    register: u8,
) -> Result<(), Stop>
    requires ready { HasLeft B.sight ctx.old 4 10 }
    requires size { IsTrue (is_size insn.now.opsize) }
    requires register { register < 16 }
    ensures { DraftsWithin B.sight I.hits (pop_to insn.now cpu.old register) ctx.old result cpu.new ctx.new 4 10 }
{
    let size = insn.opsize;
    let value = stack_load(ctx, cpu, 0, size)?;
    release(cpu, size as u64);
    write_register(insn, cpu, size, register, value);
    Ok(())
}

/// Pops two numbers to registers.
#[tactic(auto, using(xe_ctx::proofs::Trees::row_rules), unfolding(crate::specs::Stack::pop_pair))]
fn pop_pair<B: Bus, I: Intercepts>(
    insn: &Insn,
    ctx: &mut Ctx<B, I>,
    cpu: &mut Cpu,
    first: u8,
    second: u8,
) -> Result<(), Stop>
    requires ready { HasLeft B.sight ctx.old 8 20 }
    requires size { IsTrue (is_size insn.now.opsize) }
    requires first { first < 16 }
    requires second { second < 16 }
    ensures { DraftsWithin B.sight I.hits (pop_pair insn.now cpu.old first second) ctx.old result cpu.new ctx.new 8 20 }
{
    pop_to(insn, ctx, cpu, first)?;
    pop_to(insn, ctx, cpu, second)
}

/// POPA (SDM volume 2, "POPA/POPAD—Pop All General-Purpose Registers").
pub fn popa<B: Bus, I: Intercepts>(
    insn: &Insn,
    ctx: &mut Ctx<B, I>,
    cpu: &mut Cpu,
) -> Result<End, Stop>
    requires { IsReady B.sight insn.now ctx.old cpu.old 28 70 }
    ensures { Finishes B.sight I.hits (popa_row insn.now (cpu_of ctx.old)) ctx.old result cpu.new ctx.new }
{
    pop_pair(insn, ctx, cpu, DI, SI)?;
    pop_to(insn, ctx, cpu, BP)?;
    release(cpu, insn.opsize as u64);
    pop_pair(insn, ctx, cpu, BX, DX)?;
    pop_pair(insn, ctx, cpu, CX, AX)?;
    Ok(done(insn, cpu))
}

/// The number that PUSH pushes, where it is read at once.
#[inline(always)]
#[tactic(auto, using(xe_ctx::proofs::Trees::row_rules), unfolding(crate::specs::Stack::pushed_value))]
fn pushed_at_once<B: Bus, I: Intercepts>(insn: &Insn, ctx: &Ctx<B, I>) -> Option<u64>
    requires { IsOf (cpu_of ctx.now) insn.now }
    ensures { IfSome result (λ v. Is (pushed_value insn.now (cpu_of ctx.now)) (view B.sight I.hits ctx.now) (Ok v) (view B.sight I.hits ctx.now)) }
{
    if is_immediate(insn.opcode) {
        Some(insn.imm)
    } else {
        let operand = stack_operand(insn, ctx.cpu());
        read_at_once(insn, ctx, operand, insn.opsize)
    }
}

/// PUSH, where it is done at once.
#[inline(always)]
pub(crate) fn push_row_at_once<B: Bus, I: Intercepts>(
    insn: &Insn,
    ctx: &mut Ctx<B, I>,
    cpu: &mut Cpu,
) -> bool
    requires { IsReady B.sight insn.now ctx.old cpu.old 8 28 }
    ensures { AtOnce B.sight I.hits (push_row insn.now (cpu_of ctx.old)) ctx.old cpu.old result ctx.new cpu.new }
{
    let Some(value) = pushed_at_once(insn, ctx) else {
        return false;
    };
    if !push_at_once(ctx, cpu, insn.opsize, value) {
        return false;
    }
    cpu.advance(insn.len);
    true
}
