//! The rows of this crate by their names.
#![tactic(auto, using(xe_ctx::proofs::Trees::row_rules))]

ghost use Rattle.xe_base.specs.State.{Valid};
ghost use Rattle.std.specs.Prelude.{◌≡◌};
ghost use Rattle.xe_ctx.specs.Contract.{ℕ, true, IfOk, IsOf, HasLeft, IsReady, Runs, Finishes, cpu_of};
ghost use Rattle.xe_ctx.specs.Finishes.{IsSound};
ghost use Rattle.xe_ctx.specs.Flow.{outcome};
ghost use Rattle.xe_ctx.specs.Runs.{finished};
ghost use Rattle.xe_desc.specs.Rows.{is_row, row_of};

use crate::load::{far_pointer, movseg, popseg};
use crate::query::{arpl, lar, lsl, verify};
use crate::task::{lldt, ltr, sldt, str};
use xe_base::{Cpu, SegName};
use xe_ctx::{Bus, Ctx, End, Flow, Stop};
use xe_icpt::Intercepts;
use xe_opmap::{Insn, Row};

/// Whether this crate has the row.
#[inline(always)]
pub fn is_row(row: Row) -> bool
    ensures { result ≡ is_row row }
{
    match row {
        Row::Movseg => true,
        Row::Popseg => true,
        Row::Les => true,
        Row::Lds => true,
        Row::Lss => true,
        Row::Lfs => true,
        Row::Lgs => true,
        Row::Sldt => true,
        Row::Str => true,
        Row::Lldt => true,
        Row::Ltr => true,
        Row::Lar => true,
        Row::Lsl => true,
        Row::Verr => true,
        Row::Verw => true,
        Row::Arpl => true,
        _ => false,
    }
}

/// The work of an instruction of one of this crate's rows.
#[inline(always)]
fn run_row<B: Bus, I: Intercepts>(
    insn: &Insn,
    ctx: &mut Ctx<B, I>,
    cpu: &mut Cpu,
) -> Result<End, Stop>
    requires row { is_row insn.now.row ≡ true }
    requires ready { IsReady B.sight insn.now ctx.old cpu.old 12 42 }
    ensures { Finishes B.sight I.hits (row_of insn.now (cpu_of ctx.old)) ctx.old result cpu.new ctx.new }
{
    match insn.row {
        Row::Movseg => movseg(insn, ctx, cpu),
        Row::Popseg => popseg(insn, ctx, cpu),
        Row::Les => far_pointer(SegName::Es, insn, ctx, cpu),
        Row::Lds => far_pointer(SegName::Ds, insn, ctx, cpu),
        Row::Lss => far_pointer(SegName::Ss, insn, ctx, cpu),
        Row::Lfs => far_pointer(SegName::Fs, insn, ctx, cpu),
        Row::Lgs => far_pointer(SegName::Gs, insn, ctx, cpu),
        Row::Sldt => sldt(insn, ctx, cpu),
        Row::Str => str(insn, ctx, cpu),
        Row::Lldt => lldt(insn, ctx, cpu),
        Row::Ltr => ltr(insn, ctx, cpu),
        Row::Lar => lar(insn, ctx, cpu),
        Row::Lsl => lsl(insn, ctx, cpu),
        Row::Verr => verify(false, insn, ctx, cpu),
        Row::Verw => verify(true, insn, ctx, cpu),
        Row::Arpl => arpl(insn, ctx, cpu),
        _ => unreachable!(),
    }
}

/// Does an instruction of one of this crate's rows, as its definition says, with at most 12 accesses,
/// and at most 42 bytes of RAM touched. It works on a draft of the registers, which holds those of the
/// step when it begins, and is worth nothing where the instruction doesn't finish. Where it finishes,
/// it leaves a valid state.
#[tactic(auto, using(xe_ctx::proofs::Trees::row_rules, crate::proofs::CalmRows::finish_sound))]
#[inline]
pub fn exec_into<B: Bus, I: Intercepts>(
    insn: &Insn,
    ctx: &mut Ctx<B, I>,
    cpu: &mut Cpu,
) -> Result<End, Stop>
    requires row { is_row insn.now.row ≡ true }
    requires ready { IsReady B.sight insn.now ctx.old cpu.old 12 42 }
    ensures runs { Finishes B.sight I.hits (row_of insn.now (cpu_of ctx.old)) ctx.old result cpu.new ctx.new }
    ensures sound { Valid (cpu_of ctx.old) → IfOk (finished result cpu.new) IsSound }
{
    run_row(insn, ctx, cpu)
}

/// The same, with the registers in the answer.
pub fn exec<B: Bus, I: Intercepts>(insn: &Insn, ctx: &mut Ctx<B, I>) -> Flow
    requires row { is_row insn.now.row ≡ true }
    requires insn { IsOf (cpu_of ctx.old) insn.now }
    requires ready { HasLeft B.sight ctx.old 12 42 }
    ensures runs { Runs B.sight I.hits (row_of insn.now (cpu_of ctx.old)) ctx.old (outcome result) ctx.new }
    ensures sound { IfOk (outcome result) IsSound }
{
    let mut cpu = *ctx.cpu();
    match exec_into(insn, ctx, &mut cpu) {
        Ok(End { more, retire }) => Flow::Finish { cpu, more, retire },
        Err(stop) => Flow::Stopped(stop),
    }
}
