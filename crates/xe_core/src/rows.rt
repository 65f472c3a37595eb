//! The dispatch over the crates of rows.
#![tactic(auto, using(xe_ctx::proofs::Trees::row_rules))]

ghost use Rattle.std.specs.Prelude.{◌≡◌};
ghost use Rattle.xe_ctx.specs.Contract.{IsReady, Finishes, AtOnce, true, cpu_of};
ghost use Rattle.xe_core.specs.Rows.{table, is_calm};

use xe_base::Cpu;
use xe_ctx::{Bus, Ctx, End, Stop};
use xe_icpt::Intercepts;
use xe_opmap::{Insn, Row};

/// Whether the row is of a crate whose rows all change the registers calmly: the general ones, RIP, and
/// of RFLAGS what an instruction may change.
#[inline(always)]
pub(crate) fn is_calm(row: Row) -> bool
    ensures { result ≡ is_calm row }
{
    xe_move::is_row(row) || xe_arith::is_row(row) || xe_flow::is_row(row) || xe_string::is_row(row)
}

/// Does an instruction on a draft of the registers, where that is done at once, and says whether it did;
/// else nothing changes, and [`exec`] does it.
#[inline(always)]
pub(crate) fn exec_at_once<B: Bus, I: Intercepts>(
    insn: &Insn,
    ctx: &mut Ctx<B, I>,
    cpu: &mut Cpu,
) -> bool
    requires { IsReady B.sight insn.now ctx.old cpu.old 256 1014 }
    ensures row { AtOnce B.sight I.hits (table insn.now (cpu_of ctx.old)) ctx.old cpu.old result ctx.new cpu.new }
    ensures calm { result ≡ true → is_calm insn.now.row ≡ true }
{
    if xe_move::is_row(insn.row) {
        return xe_move::exec_at_once(insn, ctx, cpu);
    }
    if xe_arith::is_row(insn.row) {
        return xe_arith::exec_at_once(insn, ctx, cpu);
    }
    if xe_flow::is_row(insn.row) {
        return xe_flow::exec_at_once(insn, ctx, cpu);
    }
    false
}

/// Does an instruction on a draft of the registers, which is worth nothing where it doesn't finish.
#[tactic(auto, using(xe_ctx::proofs::Trees::row_rules, crate::proofs::RowLaws::some_owner))]
pub(crate) fn exec<B: Bus, I: Intercepts>(
    insn: &Insn,
    ctx: &mut Ctx<B, I>,
    cpu: &mut Cpu,
) -> Result<End, Stop>
    requires { IsReady B.sight insn.now ctx.old cpu.old 256 1014 }
    ensures { Finishes B.sight I.hits (table insn.now (cpu_of ctx.old)) ctx.old result cpu.new ctx.new }
{
    if xe_move::is_row(insn.row) {
        return xe_move::exec_into(insn, ctx, cpu);
    }
    if xe_arith::is_row(insn.row) {
        return xe_arith::exec_into(insn, ctx, cpu);
    }
    if xe_flow::is_row(insn.row) {
        return xe_flow::exec_into(insn, ctx, cpu);
    }
    if xe_string::is_row(insn.row) {
        return xe_string::exec_into(insn, ctx, cpu);
    }
    if xe_desc::is_row(insn.row) {
        return xe_desc::exec_into(insn, ctx, cpu);
    }
    if xe_far::is_row(insn.row) {
        return xe_far::exec_into(insn, ctx, cpu);
    }
    if xe_sys::is_row(insn.row) {
        return xe_sys::exec_into(insn, ctx, cpu);
    }
    unreachable!()
}
