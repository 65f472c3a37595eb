//! Jumps that count.
#![tactic(auto, using(xe_ctx::proofs::Trees::row_rules))]

ghost use Rattle.std.specs.Prelude.{◌≡◌, ◌==◌, ◌&&◌};
ghost use Rattle.xe_ctx.specs.Contract.{ℕ, IsOf, IsReady, Finishes, true, cpu_of};
ghost use Rattle.xe_flow.specs.Repeat.{count, count_down, with_count, holds, loop_row, jcxz_row};

use crate::branch::jump_if;
use xe_base::Cpu;
use xe_ctx::operand::{CX, low_bytes};
use xe_ctx::{Bus, Ctx, End, Stop};
use xe_flags::status_of;
use xe_icpt::Intercepts;
use xe_opmap::Insn;

/// The count: CX, ECX or RCX by the address size.
fn count(insn: &Insn, cpu: &Cpu) -> u64
    requires { IsOf cpu.now insn.now }
    ensures { result ≡ count insn.now cpu.now }
{
    cpu.register(insn.adsize, true, CX)
}

/// The count less 1; it wraps in the address size.
fn count_down(insn: &Insn, cpu: &Cpu) -> u64
    requires { IsOf cpu.now insn.now }
    ensures { result ≡ count_down insn.now cpu.now }
{
    low_bytes(count(insn, cpu).wrapping_sub(1), insn.adsize)
}

/// Writes the count.
fn set_count(insn: &Insn, cpu: &mut Cpu, value: u64)
    requires { IsOf cpu.old insn.now }
    ensures { cpu.new ≡ with_count insn.now cpu.old value }
{
    cpu.set_register(insn.adsize, true, CX, value);
}

/// Whether ZF is as the instruction wants it, where it does.
fn holds(zero: Option<bool>, cpu: &Cpu) -> bool
    ensures { result ≡ holds zero cpu.now }
{
    match zero {
        None => true,
        Some(zero) => status_of(cpu.rflags).zero == zero,
    }
}

/// LOOP, LOOPE and LOOPNE (SDM volume 2, "LOOP/LOOPcc—Loop According to ECX Counter"): `zero` is the ZF
/// that they jump at, where it matters.
pub fn repeat<B: Bus, I: Intercepts>(
    zero: Option<bool>,
    insn: &Insn,
    ctx: &mut Ctx<B, I>,
    cpu: &mut Cpu,
) -> Result<End, Stop>
    requires { IsReady B.sight insn.now ctx.old cpu.old 0 0 }
    ensures { Finishes B.sight I.hits (loop_row zero insn.now (cpu_of ctx.old)) ctx.old result cpu.new ctx.new }
{
    let count = count_down(insn, cpu);
    let taken = count != 0 && holds(zero, cpu);
    set_count(insn, cpu, count);
    jump_if(taken, insn, ctx, cpu)
}

/// JCXZ (SDM volume 2, "Jcc—Jump if Condition Is Met").
pub fn jcxz<B: Bus, I: Intercepts>(
    insn: &Insn,
    ctx: &mut Ctx<B, I>,
    cpu: &mut Cpu,
) -> Result<End, Stop>
    requires { IsReady B.sight insn.now ctx.old cpu.old 0 0 }
    ensures { Finishes B.sight I.hits (jcxz_row insn.now (cpu_of ctx.old)) ctx.old result cpu.new ctx.new }
{
    let taken = count(insn, cpu) == 0;
    jump_if(taken, insn, ctx, cpu)
}
