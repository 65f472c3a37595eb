//! Operations on one operand.
#![tactic(auto, using(xe_ctx::proofs::Trees::row_rules))]

ghost use Rattle.std.specs.Prelude.{◌≡◌};
ghost use Rattle.xe_ctx.specs.Contract.{ℕ, IsTrue, is_size, IsOf, IsOperand, IsReady, Finishes, AtOnce, cpu_of};
ghost use Rattle.xe_arith.specs.Unary.{is_by_opcode, unary_size, unary_target, unary_row};

use crate::sized::unary_at;
use xe_base::Cpu;
use xe_ctx::operand::{
    Operand, done, opcode_register, operand_of, read_for_write, read_for_write_at_once,
    size_by_opcode, write_at_once, write_operand,
};
use xe_ctx::{Bus, Ctx, End, Stop};
use xe_flags::UnOp;
use xe_icpt::Intercepts;
use xe_opmap::Insn;

/// Whether the opcode names the register: 40 to 4F.
#[inline(always)]
fn is_by_opcode(opcode: u16) -> bool
    ensures { result ≡ is_by_opcode opcode }
{
    opcode < 0x50
}

/// The size of the operand in bytes: that of the instruction where the opcode names the register, else
/// the last bit of the opcode says it.
#[inline(always)]
fn unary_size(insn: &Insn, cpu: &Cpu) -> u8
    requires { IsOf cpu.now insn.now }
    ensures value { result ≡ unary_size insn.now }
    ensures size { IsTrue (is_size result) }
{
    if is_by_opcode(insn.opcode) {
        insn.opsize
    } else {
        size_by_opcode(insn, cpu)
    }
}

/// The operand: the register that the opcode names, or E.
#[inline(always)]
fn unary_target(insn: &Insn, cpu: &Cpu) -> Operand
    requires { IsOf cpu.now insn.now }
    ensures value { result ≡ unary_target insn.now cpu.now }
    ensures register { IsOperand result }
{
    if is_by_opcode(insn.opcode) {
        Operand::Register(opcode_register(insn))
    } else {
        operand_of(insn, cpu)
    }
}

/// INC, DEC, NOT and NEG (SDM volume 2).
pub fn unary<B: Bus, I: Intercepts>(
    op: UnOp,
    insn: &Insn,
    ctx: &mut Ctx<B, I>,
    cpu: &mut Cpu,
) -> Result<End, Stop>
    requires { IsReady B.sight insn.now ctx.old cpu.old 10 36 }
    ensures { Finishes B.sight I.hits (unary_row op insn.now (cpu_of ctx.old)) ctx.old result cpu.new ctx.new }
{
    let size = unary_size(insn, cpu);
    let target = unary_target(insn, cpu);
    let a = read_for_write(insn, ctx, target, size)?;
    let (value, flags) = unary_at(op, size, a, cpu.rflags);
    cpu.rflags = flags;
    write_operand(insn, ctx, cpu, target, size, value)?;
    Ok(done(insn, cpu))
}

/// INC, DEC, NOT and NEG, where they are done at once.
#[inline(always)]
pub(crate) fn unary_at_once<B: Bus, I: Intercepts>(
    op: UnOp,
    insn: &Insn,
    ctx: &mut Ctx<B, I>,
    cpu: &mut Cpu,
) -> bool
    requires { IsReady B.sight insn.now ctx.old cpu.old 10 36 }
    ensures { AtOnce B.sight I.hits (unary_row op insn.now (cpu_of ctx.old)) ctx.old cpu.old result ctx.new cpu.new }
{
    let size = unary_size(insn, cpu);
    let target = unary_target(insn, cpu);
    let Some(a) = read_for_write_at_once(insn, ctx, target, size) else {
        return false;
    };
    let before = cpu.rflags;
    let (value, flags) = unary_at(op, size, a, before);
    cpu.rflags = flags;
    if !write_at_once(insn, ctx, cpu, target, size, value) {
        cpu.rflags = before;
        return false;
    }
    cpu.advance(insn.len);
    true
}
