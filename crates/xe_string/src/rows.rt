//! The rows of this crate by their names.
#![tactic(auto, using(xe_ctx::proofs::Trees::row_rules))]

ghost use Rattle.xe_base.specs.State.{Valid};
ghost use Rattle.std.specs.Prelude.{◌≡◌};
ghost use Rattle.xe_ctx.specs.Contract.{ℕ, true, IfOk, IsOf, HasLeft, IsReady, Runs, Finishes, cpu_of};
ghost use Rattle.xe_ctx.specs.Finishes.{IsSound};
ghost use Rattle.xe_ctx.specs.Flow.{outcome};
ghost use Rattle.xe_ctx.specs.Runs.{finished};
ghost use Rattle.xe_string.specs.Rows.{is_row, row_of};

use crate::element::StringOp;
use crate::repeat::repeated;
use xe_base::Cpu;
use xe_ctx::{Bus, Ctx, End, Flow, Stop};
use xe_icpt::Intercepts;
use xe_opmap::{Insn, Row};

/// Whether this crate has the row.
#[inline(always)]
pub fn is_row(row: Row) -> bool
    ensures { result ≡ is_row row }
{
    match row {
        Row::Movs => true,
        Row::Cmps => true,
        Row::Stos => true,
        Row::Lods => true,
        Row::Scas => true,
        Row::Ins => true,
        Row::Outs => true,
        _ => false,
    }
}

/// The work of an instruction of one of this crate's rows.
#[inline(always)]
fn run_row<B: Bus, I: Intercepts>(
    insn: &Insn,
    ctx: &mut Ctx<B, I>,
    cpu: &mut Cpu,
) -> Result<End, Stop>
    requires row { is_row insn.now.row ≡ true }
    requires ready { IsReady B.sight insn.now ctx.old cpu.old 9 48 }
    ensures { Finishes B.sight I.hits (row_of insn.now (cpu_of ctx.old)) ctx.old result cpu.new ctx.new }
{
    match insn.row {
        Row::Movs => repeated(StringOp::Movs, insn, ctx, cpu),
        Row::Cmps => repeated(StringOp::Cmps, insn, ctx, cpu),
        Row::Stos => repeated(StringOp::Stos, insn, ctx, cpu),
        Row::Lods => repeated(StringOp::Lods, insn, ctx, cpu),
        Row::Scas => repeated(StringOp::Scas, insn, ctx, cpu),
        Row::Ins => repeated(StringOp::Ins, insn, ctx, cpu),
        Row::Outs => repeated(StringOp::Outs, insn, ctx, cpu),
        _ => unreachable!(),
    }
}

/// Does an instruction of one of this crate's rows, as its definition says, with at most 9 accesses,
/// and at most 48 bytes of RAM touched. It works on a draft of the registers, which holds those of the
/// step when it begins, and is worth nothing where the instruction doesn't finish. Where it finishes,
/// it leaves a valid state.
#[tactic(auto, using(xe_ctx::proofs::Trees::row_rules, crate::proofs::CalmRows::finish_sound))]
#[inline]
pub fn exec_into<B: Bus, I: Intercepts>(
    insn: &Insn,
    ctx: &mut Ctx<B, I>,
    cpu: &mut Cpu,
) -> Result<End, Stop>
    requires row { is_row insn.now.row ≡ true }
    requires ready { IsReady B.sight insn.now ctx.old cpu.old 9 48 }
    ensures runs { Finishes B.sight I.hits (row_of insn.now (cpu_of ctx.old)) ctx.old result cpu.new ctx.new }
    ensures sound { Valid (cpu_of ctx.old) → IfOk (finished result cpu.new) IsSound }
{
    run_row(insn, ctx, cpu)
}

/// The same, with the registers in the answer.
pub fn exec<B: Bus, I: Intercepts>(insn: &Insn, ctx: &mut Ctx<B, I>) -> Flow
    requires row { is_row insn.now.row ≡ true }
    requires insn { IsOf (cpu_of ctx.old) insn.now }
    requires ready { HasLeft B.sight ctx.old 9 48 }
    ensures runs { Runs B.sight I.hits (row_of insn.now (cpu_of ctx.old)) ctx.old (outcome result) ctx.new }
    ensures sound { IfOk (outcome result) IsSound }
{
    let mut cpu = *ctx.cpu();
    match exec_into(insn, ctx, &mut cpu) {
        Ok(End { more, retire }) => Flow::Finish { cpu, more, retire },
        Err(stop) => Flow::Stopped(stop),
    }
}
