//! The rows of this crate by their names.
#![tactic(auto, using(xe_ctx::proofs::Trees::row_rules))]

ghost use Rattle.xe_base.specs.State.{Valid};
ghost use Rattle.std.specs.Prelude.{◌≡◌};
ghost use Rattle.xe_ctx.specs.Contract.{ℕ, true, IfOk, IsOf, HasLeft, IsReady, Runs, Finishes, AtOnce, cpu_of};
ghost use Rattle.xe_ctx.specs.Finishes.{IsSound};
ghost use Rattle.xe_ctx.specs.Flow.{outcome};
ghost use Rattle.xe_ctx.specs.Runs.{finished};
ghost use Rattle.xe_arith.specs.Rows.{is_row, row_of};

use crate::alu::{alu, alu_at_once, cmp, cmp_at_once, test, test_at_once};
use crate::bit::{bt, change_bit, scan};
use crate::decimal::decimal;
use crate::exchange::{cmpxchg, cmpxchg8b, xadd};
use crate::multiply::{div, imul, mul};
use crate::shift::{double_shift, shift, shift_at_once};
use crate::unary::{unary, unary_at_once};
use xe_base::Cpu;
use xe_ctx::{Bus, Ctx, End, Flow, Stop};
use xe_flags::{AluOp, BcdOp, BitOp, ScanOp, ShiftOp, UnOp};
use xe_icpt::Intercepts;
use xe_opmap::{Insn, Row};

/// Whether this crate has the row.
#[inline(always)]
pub fn is_row(row: Row) -> bool
    ensures { result ≡ is_row row }
{
    match row {
        Row::Add => true,
        Row::Or => true,
        Row::Adc => true,
        Row::Sbb => true,
        Row::And => true,
        Row::Sub => true,
        Row::Xor => true,
        Row::Cmp => true,
        Row::Test => true,
        Row::Inc => true,
        Row::Dec => true,
        Row::Not => true,
        Row::Neg => true,
        Row::Rol => true,
        Row::Ror => true,
        Row::Rcl => true,
        Row::Rcr => true,
        Row::Shl => true,
        Row::Shr => true,
        Row::Sar => true,
        Row::Shld => true,
        Row::Shrd => true,
        Row::Mul => true,
        Row::Imul => true,
        Row::Div => true,
        Row::Idiv => true,
        Row::Daa => true,
        Row::Das => true,
        Row::Aaa => true,
        Row::Aas => true,
        Row::Aam => true,
        Row::Aad => true,
        Row::Bt => true,
        Row::Bts => true,
        Row::Btr => true,
        Row::Btc => true,
        Row::Bsf => true,
        Row::Bsr => true,
        Row::Popcnt => true,
        Row::Xadd => true,
        Row::Cmpxchg => true,
        Row::Cmpxchg8b => true,
        _ => false,
    }
}

/// The work of an instruction of one of this crate's rows.
#[inline(always)]
fn run_row<B: Bus, I: Intercepts>(
    insn: &Insn,
    ctx: &mut Ctx<B, I>,
    cpu: &mut Cpu,
) -> Result<End, Stop>
    requires row { is_row insn.now.row ≡ true }
    requires ready { IsReady B.sight insn.now ctx.old cpu.old 12 38 }
    ensures { Finishes B.sight I.hits (row_of insn.now (cpu_of ctx.old)) ctx.old result cpu.new ctx.new }
{
    match insn.row {
        Row::Add => alu(AluOp::Add, insn, ctx, cpu),
        Row::Or => alu(AluOp::Or, insn, ctx, cpu),
        Row::Adc => alu(AluOp::Adc, insn, ctx, cpu),
        Row::Sbb => alu(AluOp::Sbb, insn, ctx, cpu),
        Row::And => alu(AluOp::And, insn, ctx, cpu),
        Row::Sub => alu(AluOp::Sub, insn, ctx, cpu),
        Row::Xor => alu(AluOp::Xor, insn, ctx, cpu),
        Row::Cmp => cmp(insn, ctx, cpu),
        Row::Test => test(insn, ctx, cpu),
        Row::Inc => unary(UnOp::Inc, insn, ctx, cpu),
        Row::Dec => unary(UnOp::Dec, insn, ctx, cpu),
        Row::Not => unary(UnOp::Not, insn, ctx, cpu),
        Row::Neg => unary(UnOp::Neg, insn, ctx, cpu),
        Row::Rol => shift(ShiftOp::Rol, insn, ctx, cpu),
        Row::Ror => shift(ShiftOp::Ror, insn, ctx, cpu),
        Row::Rcl => shift(ShiftOp::Rcl, insn, ctx, cpu),
        Row::Rcr => shift(ShiftOp::Rcr, insn, ctx, cpu),
        Row::Shl => shift(ShiftOp::Shl, insn, ctx, cpu),
        Row::Shr => shift(ShiftOp::Shr, insn, ctx, cpu),
        Row::Sar => shift(ShiftOp::Sar, insn, ctx, cpu),
        Row::Shld => double_shift(true, insn, ctx, cpu),
        Row::Shrd => double_shift(false, insn, ctx, cpu),
        Row::Mul => mul(false, insn, ctx, cpu),
        Row::Imul => imul(insn, ctx, cpu),
        Row::Div => div(false, insn, ctx, cpu),
        Row::Idiv => div(true, insn, ctx, cpu),
        Row::Daa => decimal(BcdOp::Daa, insn, ctx, cpu),
        Row::Das => decimal(BcdOp::Das, insn, ctx, cpu),
        Row::Aaa => decimal(BcdOp::Aaa, insn, ctx, cpu),
        Row::Aas => decimal(BcdOp::Aas, insn, ctx, cpu),
        Row::Aam => decimal(BcdOp::Aam, insn, ctx, cpu),
        Row::Aad => decimal(BcdOp::Aad, insn, ctx, cpu),
        Row::Bt => bt(insn, ctx, cpu),
        Row::Bts => change_bit(BitOp::Set, insn, ctx, cpu),
        Row::Btr => change_bit(BitOp::Reset, insn, ctx, cpu),
        Row::Btc => change_bit(BitOp::Flip, insn, ctx, cpu),
        Row::Bsf => scan(ScanOp::Forward, insn, ctx, cpu),
        Row::Bsr => scan(ScanOp::Backward, insn, ctx, cpu),
        Row::Popcnt => scan(ScanOp::Count, insn, ctx, cpu),
        Row::Xadd => xadd(insn, ctx, cpu),
        Row::Cmpxchg => cmpxchg(insn, ctx, cpu),
        Row::Cmpxchg8b => cmpxchg8b(insn, ctx, cpu),
        _ => unreachable!(),
    }
}

/// Does an instruction of one of this crate's rows, where that is done at once, and says whether it did;
/// else nothing changes, and [`exec_into`] does it.
#[inline(always)]
pub fn exec_at_once<B: Bus, I: Intercepts>(insn: &Insn, ctx: &mut Ctx<B, I>, cpu: &mut Cpu) -> bool
    requires row { is_row insn.now.row ≡ true }
    requires ready { IsReady B.sight insn.now ctx.old cpu.old 12 38 }
    ensures { AtOnce B.sight I.hits (row_of insn.now (cpu_of ctx.old)) ctx.old cpu.old result ctx.new cpu.new }
{
    match insn.row {
        Row::Add => alu_at_once(AluOp::Add, insn, ctx, cpu),
        Row::Or => alu_at_once(AluOp::Or, insn, ctx, cpu),
        Row::Adc => alu_at_once(AluOp::Adc, insn, ctx, cpu),
        Row::Sbb => alu_at_once(AluOp::Sbb, insn, ctx, cpu),
        Row::And => alu_at_once(AluOp::And, insn, ctx, cpu),
        Row::Sub => alu_at_once(AluOp::Sub, insn, ctx, cpu),
        Row::Xor => alu_at_once(AluOp::Xor, insn, ctx, cpu),
        Row::Cmp => cmp_at_once(insn, ctx, cpu),
        Row::Test => test_at_once(insn, ctx, cpu),
        Row::Inc => unary_at_once(UnOp::Inc, insn, ctx, cpu),
        Row::Dec => unary_at_once(UnOp::Dec, insn, ctx, cpu),
        Row::Not => unary_at_once(UnOp::Not, insn, ctx, cpu),
        Row::Neg => unary_at_once(UnOp::Neg, insn, ctx, cpu),
        Row::Rol => shift_at_once(ShiftOp::Rol, insn, ctx, cpu),
        Row::Ror => shift_at_once(ShiftOp::Ror, insn, ctx, cpu),
        Row::Rcl => shift_at_once(ShiftOp::Rcl, insn, ctx, cpu),
        Row::Rcr => shift_at_once(ShiftOp::Rcr, insn, ctx, cpu),
        Row::Shl => shift_at_once(ShiftOp::Shl, insn, ctx, cpu),
        Row::Shr => shift_at_once(ShiftOp::Shr, insn, ctx, cpu),
        Row::Sar => shift_at_once(ShiftOp::Sar, insn, ctx, cpu),
        _ => false,
    }
}

/// Does an instruction of one of this crate's rows, as its definition says, with at most 12 accesses,
/// and at most 38 bytes of RAM touched. It works on a draft of the registers, which holds those of the
/// step when it begins, and is worth nothing where the instruction doesn't finish. Where it finishes,
/// it leaves a valid state.
#[tactic(auto, using(xe_ctx::proofs::Trees::row_rules, crate::proofs::CalmRows::finish_sound))]
#[inline]
pub fn exec_into<B: Bus, I: Intercepts>(
    insn: &Insn,
    ctx: &mut Ctx<B, I>,
    cpu: &mut Cpu,
) -> Result<End, Stop>
    requires row { is_row insn.now.row ≡ true }
    requires ready { IsReady B.sight insn.now ctx.old cpu.old 12 38 }
    ensures runs { Finishes B.sight I.hits (row_of insn.now (cpu_of ctx.old)) ctx.old result cpu.new ctx.new }
    ensures sound { Valid (cpu_of ctx.old) → IfOk (finished result cpu.new) IsSound }
{
    run_row(insn, ctx, cpu)
}

/// The same, with the registers in the answer.
pub fn exec<B: Bus, I: Intercepts>(insn: &Insn, ctx: &mut Ctx<B, I>) -> Flow
    requires row { is_row insn.now.row ≡ true }
    requires insn { IsOf (cpu_of ctx.old) insn.now }
    requires ready { HasLeft B.sight ctx.old 12 38 }
    ensures runs { Runs B.sight I.hits (row_of insn.now (cpu_of ctx.old)) ctx.old (outcome result) ctx.new }
    ensures sound { IfOk (outcome result) IsSound }
{
    let mut cpu = *ctx.cpu();
    match exec_into(insn, ctx, &mut cpu) {
        Ok(End { more, retire }) => Flow::Finish { cpu, more, retire },
        Err(stop) => Flow::Stopped(stop),
    }
}
