//! Elements that are moved.
#![tactic(auto, using(xe_ctx::proofs::Trees::row_rules))]

ghost use Rattle.std.specs.Prelude.{◌≡◌};
ghost use Rattle.xe_ctx.specs.Contract.{ℕ, IsReady, DraftsWithin, cpu_of};
ghost use Rattle.xe_string.specs.Transfer.{movs_element, stos_element, lods_element};

use crate::index::{DI, SI, index, move_both, move_index, source_segment};
use xe_base::{Cpu, SegName};
use xe_ctx::operand::{AX, cut, read_register, size_by_opcode, write_register};
use xe_ctx::{Bus, Ctx, Stop};
use xe_icpt::Intercepts;
use xe_opmap::Insn;

/// An element of MOVS (SDM volume 2, "MOVS/MOVSB/MOVSW/MOVSD/MOVSQ").
#[tactic(auto, using(xe_ctx::proofs::Trees::row_rules), unfolding(crate::specs::Transfer::movs_element))]
pub fn movs<B: Bus, I: Intercepts>(
    insn: &Insn,
    ctx: &mut Ctx<B, I>,
    cpu: &mut Cpu,
) -> Result<(), Stop>
    requires { IsReady B.sight insn.now ctx.old cpu.old 9 48 }
    ensures { DraftsWithin B.sight I.hits (movs_element insn.now (cpu_of ctx.old)) ctx.old result cpu.new ctx.new 9 48 }
{
    let size = size_by_opcode(insn, cpu);
    let (from, to) = (index(insn, cpu, SI), index(insn, cpu, DI));
    let value = ctx.load(source_segment(insn), from, size as u32)?;
    ctx.store(SegName::Es, to, size as u32, value)?;
    move_both(insn, cpu, size);
    Ok(())
}

/// An element of STOS (SDM volume 2, "STOS/STOSB/STOSW/STOSD/STOSQ").
#[tactic(auto, using(xe_ctx::proofs::Trees::row_rules), unfolding(crate::specs::Transfer::stos_element))]
pub fn stos<B: Bus, I: Intercepts>(
    insn: &Insn,
    ctx: &mut Ctx<B, I>,
    cpu: &mut Cpu,
) -> Result<(), Stop>
    requires { IsReady B.sight insn.now ctx.old cpu.old 9 48 }
    ensures { DraftsWithin B.sight I.hits (stos_element insn.now (cpu_of ctx.old)) ctx.old result cpu.new ctx.new 9 48 }
{
    let size = size_by_opcode(insn, cpu);
    let value = cut(read_register(insn, cpu, size, AX), size);
    ctx.store(SegName::Es, index(insn, cpu, DI), size as u32, value)?;
    move_index(insn, cpu, DI, size);
    Ok(())
}

/// An element of LODS (SDM volume 2, "LODS/LODSB/LODSW/LODSD/LODSQ").
#[tactic(auto, using(xe_ctx::proofs::Trees::row_rules), unfolding(crate::specs::Transfer::lods_element))]
pub fn lods<B: Bus, I: Intercepts>(
    insn: &Insn,
    ctx: &mut Ctx<B, I>,
    cpu: &mut Cpu,
) -> Result<(), Stop>
    requires { IsReady B.sight insn.now ctx.old cpu.old 9 48 }
    ensures { DraftsWithin B.sight I.hits (lods_element insn.now (cpu_of ctx.old)) ctx.old result cpu.new ctx.new 9 48 }
{
    let size = size_by_opcode(insn, cpu);
    let value = ctx.load(source_segment(insn), index(insn, cpu, SI), size as u32)?;
    write_register(insn, cpu, size, AX, value as u64);
    move_index(insn, cpu, SI, size);
    Ok(())
}
