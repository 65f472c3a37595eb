//! The rows of this crate by their names.
#![tactic(auto, using(xe_ctx::proofs::Trees::row_rules))]

ghost use Rattle.xe_base.specs.State.{Valid};
ghost use Rattle.std.specs.Prelude.{◌≡◌};
ghost use Rattle.xe_ctx.specs.Contract.{ℕ, true, IfOk, IsOf, HasLeft, IsReady, Runs, Finishes, AtOnce, cpu_of};
ghost use Rattle.xe_ctx.specs.Finishes.{IsSound};
ghost use Rattle.xe_ctx.specs.Flow.{outcome};
ghost use Rattle.xe_ctx.specs.Runs.{finished};
ghost use Rattle.xe_move.specs.Rows.{is_row, row_of};

use crate::condition::{cmov, set};
use crate::extend::{cbw, cwd, movsx, movsx_at_once, movzx, movzx_at_once};
use crate::flag::{clc, cmc, direction, lahf, sahf, stc};
use crate::moves::{bswap, lea, lea_at_once, mov, mov_at_once, nop, xchg, xlat};
use xe_base::Cpu;
use xe_ctx::{Bus, Ctx, End, Flow, Stop};
use xe_icpt::Intercepts;
use xe_opmap::{Insn, Row};

/// Whether this crate has the row.
#[inline(always)]
pub fn is_row(row: Row) -> bool
    ensures { result ≡ is_row row }
{
    match row {
        Row::Mov => true,
        Row::Lea => true,
        Row::Xchg => true,
        Row::Nop => true,
        Row::Cmc => true,
        Row::Clc => true,
        Row::Stc => true,
        Row::Cld => true,
        Row::Std => true,
        Row::Sahf => true,
        Row::Lahf => true,
        Row::Cmov => true,
        Row::Set => true,
        Row::Cbw => true,
        Row::Cwd => true,
        Row::Movzx => true,
        Row::Movsx => true,
        Row::Movsxd => true,
        Row::Xlat => true,
        Row::Bswap => true,
        _ => false,
    }
}

/// The work of an instruction of one of this crate's rows.
#[inline(always)]
fn run_row<B: Bus, I: Intercepts>(
    insn: &Insn,
    ctx: &mut Ctx<B, I>,
    cpu: &mut Cpu,
) -> Result<End, Stop>
    requires row { is_row insn.now.row ≡ true }
    requires ready { IsReady B.sight insn.now ctx.old cpu.old 10 36 }
    ensures { Finishes B.sight I.hits (row_of insn.now (cpu_of ctx.old)) ctx.old result cpu.new ctx.new }
{
    match insn.row {
        Row::Mov => mov(insn, ctx, cpu),
        Row::Lea => lea(insn, ctx, cpu),
        Row::Xchg => xchg(insn, ctx, cpu),
        Row::Nop => nop(insn, ctx, cpu),
        Row::Cmc => cmc(insn, ctx, cpu),
        Row::Clc => clc(insn, ctx, cpu),
        Row::Stc => stc(insn, ctx, cpu),
        Row::Cld => direction(false, insn, ctx, cpu),
        Row::Std => direction(true, insn, ctx, cpu),
        Row::Sahf => sahf(insn, ctx, cpu),
        Row::Lahf => lahf(insn, ctx, cpu),
        Row::Cmov => cmov(insn, ctx, cpu),
        Row::Set => set(insn, ctx, cpu),
        Row::Cbw => cbw(insn, ctx, cpu),
        Row::Cwd => cwd(insn, ctx, cpu),
        Row::Movzx => movzx(insn, ctx, cpu),
        Row::Movsx => movsx(insn, ctx, cpu),
        Row::Movsxd => movsx(insn, ctx, cpu),
        Row::Xlat => xlat(insn, ctx, cpu),
        Row::Bswap => bswap(insn, ctx, cpu),
        _ => unreachable!(),
    }
}

/// Does an instruction of one of this crate's rows, where that is done at once, and says whether it did;
/// else nothing changes, and [`exec_into`] does it.
#[inline(always)]
pub fn exec_at_once<B: Bus, I: Intercepts>(insn: &Insn, ctx: &mut Ctx<B, I>, cpu: &mut Cpu) -> bool
    requires row { is_row insn.now.row ≡ true }
    requires ready { IsReady B.sight insn.now ctx.old cpu.old 10 36 }
    ensures { AtOnce B.sight I.hits (row_of insn.now (cpu_of ctx.old)) ctx.old cpu.old result ctx.new cpu.new }
{
    match insn.row {
        Row::Mov => mov_at_once(insn, ctx, cpu),
        Row::Lea => lea_at_once(insn, ctx, cpu),
        Row::Movzx => movzx_at_once(insn, ctx, cpu),
        Row::Movsx => movsx_at_once(insn, ctx, cpu),
        _ => false,
    }
}

/// Does an instruction of one of this crate's rows, as its definition says, with at most 10 accesses,
/// and at most 36 bytes of RAM touched. It works on a draft of the registers, which holds those of the
/// step when it begins, and is worth nothing where the instruction doesn't finish. Where it finishes,
/// it leaves a valid state.
#[tactic(auto, using(xe_ctx::proofs::Trees::row_rules, crate::proofs::CalmRows::finish_sound))]
#[inline]
pub fn exec_into<B: Bus, I: Intercepts>(
    insn: &Insn,
    ctx: &mut Ctx<B, I>,
    cpu: &mut Cpu,
) -> Result<End, Stop>
    requires row { is_row insn.now.row ≡ true }
    requires ready { IsReady B.sight insn.now ctx.old cpu.old 10 36 }
    ensures runs { Finishes B.sight I.hits (row_of insn.now (cpu_of ctx.old)) ctx.old result cpu.new ctx.new }
    ensures sound { Valid (cpu_of ctx.old) → IfOk (finished result cpu.new) IsSound }
{
    run_row(insn, ctx, cpu)
}

/// The same, with the registers in the answer.
pub fn exec<B: Bus, I: Intercepts>(insn: &Insn, ctx: &mut Ctx<B, I>) -> Flow
    requires row { is_row insn.now.row ≡ true }
    requires insn { IsOf (cpu_of ctx.old) insn.now }
    requires ready { HasLeft B.sight ctx.old 10 36 }
    ensures runs { Runs B.sight I.hits (row_of insn.now (cpu_of ctx.old)) ctx.old (outcome result) ctx.new }
    ensures sound { IfOk (outcome result) IsSound }
{
    let mut cpu = *ctx.cpu();
    match exec_into(insn, ctx, &mut cpu) {
        Ok(End { more, retire }) => Flow::Finish { cpu, more, retire },
        Err(stop) => Flow::Stopped(stop),
    }
}
