//! The rows of this crate by their names.
#![tactic(auto, using(xe_ctx::proofs::Trees::row_rules))]

ghost use Rattle.std.specs.Prelude.{◌≡◌};
ghost use Rattle.xe_base.specs.State.{Valid};
ghost use Rattle.xe_ctx.specs.Contract.{ℕ, true, IfOk, IsOf, HasLeft, IsReady, Runs, Finishes, AtOnce, cpu_of};
ghost use Rattle.xe_ctx.specs.Finishes.{IsSound};
ghost use Rattle.xe_ctx.specs.Flow.{outcome};
ghost use Rattle.xe_ctx.specs.Runs.{finished};
ghost use Rattle.xe_flow.specs.Rows.{is_row, row_of};

use crate::branch::{call, call_at_once, jcc, jcc_at_once, jmp, jmp_at_once, ret, ret_at_once};
use crate::flags::{cli, popf, pushf, sti};
use crate::frame::{enter, leave};
use crate::interrupt::{int, int3, into};
use crate::repeat::{jcxz, repeat};
use crate::stack::{pop, popa, push, push_row_at_once, pusha, pushseg};
use xe_base::Cpu;
use xe_ctx::{Bus, Ctx, End, Flow, Stop};
use xe_icpt::Intercepts;
use xe_opmap::{Insn, Row};

/// Whether this crate has the row.
#[inline(always)]
pub fn is_row(row: Row) -> bool
    ensures { result ≡ is_row row }
{
    match row {
        Row::Push => true,
        Row::Pop => true,
        Row::Pushseg => true,
        Row::Pusha => true,
        Row::Popa => true,
        Row::Pushf => true,
        Row::Popf => true,
        Row::Enter => true,
        Row::Leave => true,
        Row::Call => true,
        Row::Jmp => true,
        Row::Ret => true,
        Row::Jcc => true,
        Row::Loopne => true,
        Row::Loope => true,
        Row::Loop => true,
        Row::Jcxz => true,
        Row::Cli => true,
        Row::Sti => true,
        Row::Int3 => true,
        Row::Int => true,
        Row::Into => true,
        _ => false,
    }
}

/// The work of an instruction of one of this crate's rows.
#[inline(always)]
fn run_row<B: Bus, I: Intercepts>(
    insn: &Insn,
    ctx: &mut Ctx<B, I>,
    cpu: &mut Cpu,
) -> Result<End, Stop>
    requires row { is_row insn.now.row ≡ true }
    requires ready { IsReady B.sight insn.now ctx.old cpu.old 248 886 }
    ensures { Finishes B.sight I.hits (row_of insn.now (cpu_of ctx.old)) ctx.old result cpu.new ctx.new }
{
    match insn.row {
        Row::Push => push(insn, ctx, cpu),
        Row::Pop => pop(insn, ctx, cpu),
        Row::Pushseg => pushseg(insn, ctx, cpu),
        Row::Pusha => pusha(insn, ctx, cpu),
        Row::Popa => popa(insn, ctx, cpu),
        Row::Pushf => pushf(insn, ctx, cpu),
        Row::Popf => popf(insn, ctx, cpu),
        Row::Enter => enter(insn, ctx, cpu),
        Row::Leave => leave(insn, ctx, cpu),
        Row::Call => call(insn, ctx, cpu),
        Row::Jmp => jmp(insn, ctx, cpu),
        Row::Ret => ret(insn, ctx, cpu),
        Row::Jcc => jcc(insn, ctx, cpu),
        Row::Loopne => repeat(Some(false), insn, ctx, cpu),
        Row::Loope => repeat(Some(true), insn, ctx, cpu),
        Row::Loop => repeat(None, insn, ctx, cpu),
        Row::Jcxz => jcxz(insn, ctx, cpu),
        Row::Cli => cli(insn, ctx, cpu),
        Row::Sti => sti(insn, ctx, cpu),
        Row::Int3 => int3(insn, ctx, cpu),
        Row::Int => int(insn, ctx, cpu),
        Row::Into => into(insn, ctx, cpu),
        _ => unreachable!(),
    }
}

/// Does an instruction of one of this crate's rows, where that is done at once, and says whether it did;
/// else nothing changes, and [`exec_into`] does it.
#[inline(always)]
pub fn exec_at_once<B: Bus, I: Intercepts>(insn: &Insn, ctx: &mut Ctx<B, I>, cpu: &mut Cpu) -> bool
    requires row { is_row insn.now.row ≡ true }
    requires ready { IsReady B.sight insn.now ctx.old cpu.old 248 886 }
    ensures { AtOnce B.sight I.hits (row_of insn.now (cpu_of ctx.old)) ctx.old cpu.old result ctx.new cpu.new }
{
    match insn.row {
        Row::Push => push_row_at_once(insn, ctx, cpu),
        Row::Call => call_at_once(insn, ctx, cpu),
        Row::Jmp => jmp_at_once(insn, ctx, cpu),
        Row::Ret => ret_at_once(insn, ctx, cpu),
        Row::Jcc => jcc_at_once(insn, ctx, cpu),
        _ => false,
    }
}

/// Does an instruction of one of this crate's rows, as its definition says, with at most 248 accesses,
/// and at most 886 bytes of RAM touched. It works on a draft of the registers, which holds those of the
/// step when it begins, and is worth nothing where the instruction doesn't finish. Where it finishes,
/// it leaves a valid state.
#[tactic(auto, using(xe_ctx::proofs::Trees::row_rules, crate::proofs::CalmRows::finish_sound))]
#[inline]
pub fn exec_into<B: Bus, I: Intercepts>(
    insn: &Insn,
    ctx: &mut Ctx<B, I>,
    cpu: &mut Cpu,
) -> Result<End, Stop>
    requires row { is_row insn.now.row ≡ true }
    requires ready { IsReady B.sight insn.now ctx.old cpu.old 248 886 }
    ensures runs { Finishes B.sight I.hits (row_of insn.now (cpu_of ctx.old)) ctx.old result cpu.new ctx.new }
    ensures sound { Valid (cpu_of ctx.old) → IfOk (finished result cpu.new) IsSound }
{
    run_row(insn, ctx, cpu)
}

/// The same, with the registers in the answer.
pub fn exec<B: Bus, I: Intercepts>(insn: &Insn, ctx: &mut Ctx<B, I>) -> Flow
    requires row { is_row insn.now.row ≡ true }
    requires insn { IsOf (cpu_of ctx.old) insn.now }
    requires ready { HasLeft B.sight ctx.old 248 886 }
    ensures runs { Runs B.sight I.hits (row_of insn.now (cpu_of ctx.old)) ctx.old (outcome result) ctx.new }
    ensures sound { IfOk (outcome result) IsSound }
{
    let mut cpu = *ctx.cpu();
    match exec_into(insn, ctx, &mut cpu) {
        Ok(End { more, retire }) => Flow::Finish { cpu, more, retire },
        Err(stop) => Flow::Stopped(stop),
    }
}
