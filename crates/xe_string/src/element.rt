//! What a string instruction does with one element.
#![tactic(auto, using(xe_ctx::proofs::Trees::row_rules))]

ghost use Rattle.xe_ctx.specs.Contract.{ℕ, IsReady, DraftsWithin, cpu_of};
ghost use Rattle.xe_string.specs.Element.{element};

use crate::compare::{cmps, scas};
use crate::port::{ins, outs};
use crate::transfer::{lods, movs, stos};
use xe_base::Cpu;
use xe_ctx::{Bus, Ctx, Stop};
use xe_icpt::Intercepts;
use xe_opmap::Insn;

/// The string instructions (SDM volume 1, "String Instructions").
#[derive(Clone, Copy, PartialEq, Eq, Debug)]
pub enum StringOp {
    Movs,
    Cmps,
    Stos,
    Lods,
    Scas,
    Ins,
    Outs,
}

/// Does one element. The draft of the registers has the instruction pointer and the count as they were.
pub fn element<B: Bus, I: Intercepts>(
    op: StringOp,
    insn: &Insn,
    ctx: &mut Ctx<B, I>,
    cpu: &mut Cpu,
) -> Result<(), Stop>
    requires { IsReady B.sight insn.now ctx.old cpu.old 9 48 }
    ensures { DraftsWithin B.sight I.hits (element op insn.now (cpu_of ctx.old)) ctx.old result cpu.new ctx.new 9 48 }
{
    match op {
        StringOp::Movs => movs(insn, ctx, cpu),
        StringOp::Cmps => cmps(insn, ctx, cpu),
        StringOp::Stos => stos(insn, ctx, cpu),
        StringOp::Lods => lods(insn, ctx, cpu),
        StringOp::Scas => scas(insn, ctx, cpu),
        StringOp::Ins => ins(insn, ctx, cpu),
        StringOp::Outs => outs(insn, ctx, cpu),
    }
}
