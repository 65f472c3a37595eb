//! Far pointers: in an instruction, in memory, and on the stack.
#![tactic(auto, using(xe_ctx::proofs::Trees::row_rules))]

ghost use Rattle.std.specs.Prelude.{◌≡◌, ◌<◌, ◌+◌, ◌*◌, ◌%◌, ◌^◌};
ghost use Rattle.xe_ctx.specs.Contract.{IsTrue, is_size, HasLeft, RunsWithin, IsOf, IsOperand, cpu_of};
ghost use Rattle.xe_far.specs.Pointer.{pointer_of, load_pointer, pointer_at, far_pointer, pop_pointer};

use xe_base::access::INVALID_OPCODE;
use xe_base::{Fault, SegName};
use xe_ctx::operand::{Operand, cut, operand_of};
use xe_ctx::stack::stack_load;
use xe_ctx::{Bus, Ctx, Stop};
use xe_icpt::Intercepts;
use xe_opmap::Insn;

/// A far pointer: an offset in the segment of a selector (SDM volume 1, "Pointer Data Types").
#[derive(Clone, Copy, PartialEq, Eq, Debug)]
pub struct FarPointer {
    pub sel: u16,
    pub offset: u64,
}

/// An offset of `n` bytes and a selector of 2, from numbers that may have more.
fn pointer_of(n: u8, offset: u64, sel: u64) -> FarPointer
    requires { IsTrue (is_size n) }
    ensures { result ≡ pointer_of n offset sel }
{
    FarPointer {
        sel: (sel % (1 << 16)) as u16,
        offset: cut(offset, n) as u64,
    }
}

/// The place of the selector behind an offset in memory, which wraps in the address size.
fn behind(insn: &Insn, offset: u64) -> u64
    requires { IsTrue (is_size insn.now.adsize) }
    ensures { result ≡ (offset + insn.now.opsize) % 2 ^ (8 * insn.now.adsize) }
{
    let next = offset.wrapping_add(insn.opsize as u64);
    match insn.adsize {
        1 => next % (1 << 8),
        2 => next % (1 << 16),
        4 => next % (1 << 32),
        _ => next,
    }
}

/// A far pointer in memory.
#[tactic(auto, using(xe_ctx::proofs::Trees::row_rules), unfolding(crate::specs::Pointer::load_pointer))]
fn load_pointer<B: Bus, I: Intercepts>(
    insn: &Insn,
    ctx: &mut Ctx<B, I>,
    segment: SegName,
    offset: u64,
) -> Result<FarPointer, Stop>
    requires ready { HasLeft B.sight ctx.old 6 20 }
    requires insn { IsOf (cpu_of ctx.old) insn.now }
    ensures { RunsWithin B.sight I.hits (load_pointer insn.now segment offset) ctx.old result ctx.new 6 20 }
{
    let target = ctx.load(segment, offset, insn.opsize as u32)?;
    let sel = ctx.load(segment, behind(insn, offset), 2)?;
    Ok(pointer_of(insn.opsize, target as u64, sel as u64))
}

/// A far pointer in memory; a register holds none.
fn pointer_at<B: Bus, I: Intercepts>(
    insn: &Insn,
    ctx: &mut Ctx<B, I>,
    operand: Operand,
) -> Result<FarPointer, Stop>
    requires ready { HasLeft B.sight ctx.old 6 20 }
    requires insn { IsOf (cpu_of ctx.old) insn.now }
    ensures { RunsWithin B.sight I.hits (pointer_at insn.now operand) ctx.old result ctx.new 6 20 }
{
    match operand {
        Operand::Register(_) => Err(Stop::Fault(Fault::plain(INVALID_OPCODE))),
        Operand::Memory(segment, offset) => load_pointer(insn, ctx, segment, offset),
    }
}

/// Where a far call or jump goes: by its two immediates, or by its operand in memory.
#[tactic(auto, using(xe_ctx::proofs::Trees::row_rules), unfolding(crate::specs::Pointer::far_pointer))]
pub fn far_pointer<B: Bus, I: Intercepts>(
    insn: &Insn,
    ctx: &mut Ctx<B, I>,
) -> Result<FarPointer, Stop>
    requires ready { HasLeft B.sight ctx.old 6 20 }
    requires insn { IsOf (cpu_of ctx.old) insn.now }
    ensures { RunsWithin B.sight I.hits (far_pointer insn.now (cpu_of ctx.old)) ctx.old result ctx.new 6 20 }
{
    match insn.modrm {
        None => Ok(pointer_of(insn.opsize, insn.imm, insn.imm2 as u64)),
        Some(_) => {
            let operand = operand_of(insn, ctx.cpu());
            pointer_at(insn, ctx, operand)
        }
    }
}

/// A far pointer on the stack, so many bytes above its top: the offset, and above it the selector in the
/// low bytes of a number of the same size.
#[tactic(auto, using(xe_ctx::proofs::Trees::row_rules), unfolding(crate::specs::Pointer::pop_pointer))]
pub fn pop_pointer<B: Bus, I: Intercepts>(
    insn: &Insn,
    ctx: &mut Ctx<B, I>,
    above: u64,
) -> Result<FarPointer, Stop>
    requires ready { HasLeft B.sight ctx.old 8 20 }
    requires insn { IsOf (cpu_of ctx.old) insn.now }
    requires small { above < 2 ^ 32 }
    ensures { RunsWithin B.sight I.hits (pop_pointer insn.now (cpu_of ctx.old) above) ctx.old result ctx.new 8 20 }
{
    let cpu = *ctx.cpu();
    let offset = stack_load(ctx, &cpu, above, insn.opsize)?;
    let sel = stack_load(ctx, &cpu, above + insn.opsize as u64, insn.opsize)?;
    Ok(pointer_of(insn.opsize, offset, sel))
}
