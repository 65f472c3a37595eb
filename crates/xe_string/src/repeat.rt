//! String instructions as a whole: one step does one element.
#![tactic(auto, using(xe_ctx::proofs::Trees::row_rules))]

ghost use Rattle.std.specs.Prelude.{◌≡◌, ◌-◌, ◌≤◌};
ghost use Rattle.xe_ctx.specs.Contract.{ℕ, IsReady, Finishes, cpu_of};
ghost use Rattle.xe_opmap.specs.Encoding.{IsSize};
ghost use Rattle.xe_string.specs.Repeat.{count, with_count, compares, zero_allows, goes_on, counted, after_element, repeated};

use crate::element::{StringOp, element};
use crate::prefix::{REPE, is_repeated};
use xe_base::Cpu;
use xe_ctx::operand::{CX, done, read_register, write_register};
use xe_ctx::{Bus, Ctx, End, Stop};
use xe_flags::status_of;
use xe_icpt::Intercepts;
use xe_opmap::Insn;

/// How many elements are left.
fn count(insn: &Insn, cpu: &Cpu) -> u64
    requires { IsSize insn.now.adsize }
    ensures { result ≡ count insn.now cpu.now }
{
    read_register(insn, cpu, insn.adsize, CX)
}

/// Whether elements are compared, so that ZF too ends the instruction.
fn compares(op: StringOp) -> bool
    ensures { result ≡ compares op }
{
    match op {
        StringOp::Cmps | StringOp::Scas => true,
        StringOp::Movs | StringOp::Stos | StringOp::Lods | StringOp::Ins | StringOp::Outs => false,
    }
}

/// Whether ZF lets it go on: REPE goes on while it is 1, REPNE while it is 0.
fn zero_allows(insn: &Insn, flags: u64) -> bool
    ensures { result ≡ zero_allows insn.now flags }
{
    let zero = status_of(flags).zero;
    if insn.pre.rep == REPE { zero } else { !zero }
}

/// Whether a repeated instruction goes on after an element, with so many left.
fn goes_on(op: StringOp, insn: &Insn, left: u64, flags: u64) -> bool
    ensures { result ≡ goes_on op insn.now left flags }
{
    left != 0 && (!compares(op) || zero_allows(insn, flags))
}

/// Ends the step after an element of a repeated instruction, with so many left: RIP stays on it while
/// it goes on.
fn counted(op: StringOp, insn: &Insn, cpu: &mut Cpu, left: u64) -> End
    requires { IsSize insn.now.adsize }
    ensures { record { cpu = cpu.new; more = result.more; retire = result.retire } ≡ counted op insn.now cpu.old left }
{
    let more = goes_on(op, insn, left, cpu.rflags);
    write_register(insn, cpu, insn.adsize, CX, left);
    if more {
        End {
            more: true,
            retire: 0,
        }
    } else {
        done(insn, cpu)
    }
}

/// Does one element of a string instruction, or only moves RIP behind it where a prefix repeats it and
/// the count is 0 (SDM volume 2, "REP/REPE/REPZ/REPNE/REPNZ").
pub fn repeated<B: Bus, I: Intercepts>(
    op: StringOp,
    insn: &Insn,
    ctx: &mut Ctx<B, I>,
    cpu: &mut Cpu,
) -> Result<End, Stop>
    requires { IsReady B.sight insn.now ctx.old cpu.old 9 48 }
    ensures { Finishes B.sight I.hits (repeated op insn.now (cpu_of ctx.old)) ctx.old result cpu.new ctx.new }
{
    let count = count(insn, cpu);
    if is_repeated(insn) && count == 0 {
        return Ok(done(insn, cpu));
    }
    element(op, insn, ctx, cpu)?;
    if is_repeated(insn) {
        Ok(counted(op, insn, cpu, count - 1))
    } else {
        Ok(done(insn, cpu))
    }
}
