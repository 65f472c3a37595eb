//! Flags by themselves.
#![tactic(auto, using(xe_ctx::proofs::Trees::row_rules))]

ghost use Rattle.std.specs.Prelude.{◌≡◌};
ghost use Rattle.xe_ctx.specs.Contract.{ℕ, IsReady, Finishes, cpu_of};
ghost use Rattle.xe_move.specs.Flag.{with_carry, cmc_row, clc_row, stc_row, with_direction, direction_row, high_byte_of_ax, sahf_row, lahf_row};

use xe_base::Cpu;
use xe_ctx::operand::{AH, done};
use xe_ctx::{Bus, Ctx, End, Stop};
use xe_flags::{Status, status_of, with_status};
use xe_icpt::Intercepts;
use xe_opmap::Insn;

/// DF, the direction of string instructions.
const DIRECTION: u64 = 1 << 10;

/// The flags with this CF.
fn with_carry(flags: u64, carry: bool) -> u64
    ensures { result ≡ with_carry flags carry }
{
    let status = Status {
        carry,
        ..status_of(flags)
    };
    with_status(flags, status)
}

/// CMC (SDM volume 2, "CMC—Complement Carry Flag").
pub fn cmc<B: Bus, I: Intercepts>(
    insn: &Insn,
    ctx: &mut Ctx<B, I>,
    cpu: &mut Cpu,
) -> Result<End, Stop>
    requires { IsReady B.sight insn.now ctx.old cpu.old 0 0 }
    ensures { Finishes B.sight I.hits (cmc_row insn.now (cpu_of ctx.old)) ctx.old result cpu.new ctx.new }
{
    let carry = status_of(cpu.rflags).carry;
    cpu.rflags = with_carry(cpu.rflags, !carry);
    Ok(done(insn, cpu))
}

/// CLC (SDM volume 2, "CLC—Clear Carry Flag").
pub fn clc<B: Bus, I: Intercepts>(
    insn: &Insn,
    ctx: &mut Ctx<B, I>,
    cpu: &mut Cpu,
) -> Result<End, Stop>
    requires { IsReady B.sight insn.now ctx.old cpu.old 0 0 }
    ensures { Finishes B.sight I.hits (clc_row insn.now (cpu_of ctx.old)) ctx.old result cpu.new ctx.new }
{
    cpu.rflags = with_carry(cpu.rflags, false);
    Ok(done(insn, cpu))
}

/// STC (SDM volume 2, "STC—Set Carry Flag").
pub fn stc<B: Bus, I: Intercepts>(
    insn: &Insn,
    ctx: &mut Ctx<B, I>,
    cpu: &mut Cpu,
) -> Result<End, Stop>
    requires { IsReady B.sight insn.now ctx.old cpu.old 0 0 }
    ensures { Finishes B.sight I.hits (stc_row insn.now (cpu_of ctx.old)) ctx.old result cpu.new ctx.new }
{
    cpu.rflags = with_carry(cpu.rflags, true);
    Ok(done(insn, cpu))
}

/// The flags with this DF.
fn with_direction(flags: u64, down: bool) -> u64
    ensures { result ≡ with_direction flags down }
{
    (flags & !DIRECTION) | if down { DIRECTION } else { 0 }
}

/// CLD and STD (SDM volume 2).
pub fn direction<B: Bus, I: Intercepts>(
    down: bool,
    insn: &Insn,
    ctx: &mut Ctx<B, I>,
    cpu: &mut Cpu,
) -> Result<End, Stop>
    requires { IsReady B.sight insn.now ctx.old cpu.old 0 0 }
    ensures { Finishes B.sight I.hits (direction_row down insn.now (cpu_of ctx.old)) ctx.old result cpu.new ctx.new }
{
    cpu.rflags = with_direction(cpu.rflags, down);
    Ok(done(insn, cpu))
}

/// AH, whatever prefixes stand.
fn high_byte_of_ax(cpu: &Cpu) -> u64
    ensures { result ≡ high_byte_of_ax cpu.now }
{
    cpu.register(1, false, AH)
}

/// SAHF (SDM volume 2, "SAHF—Store AH Into Flags").
pub fn sahf<B: Bus, I: Intercepts>(
    insn: &Insn,
    ctx: &mut Ctx<B, I>,
    cpu: &mut Cpu,
) -> Result<End, Stop>
    requires { IsReady B.sight insn.now ctx.old cpu.old 0 0 }
    ensures { Finishes B.sight I.hits (sahf_row insn.now (cpu_of ctx.old)) ctx.old result cpu.new ctx.new }
{
    let status = Status {
        overflow: status_of(cpu.rflags).overflow,
        ..status_of(high_byte_of_ax(cpu))
    };
    cpu.rflags = with_status(cpu.rflags, status);
    Ok(done(insn, cpu))
}

/// LAHF (SDM volume 2, "LAHF—Load Status Flags Into AH Register").
pub fn lahf<B: Bus, I: Intercepts>(
    insn: &Insn,
    ctx: &mut Ctx<B, I>,
    cpu: &mut Cpu,
) -> Result<End, Stop>
    requires { IsReady B.sight insn.now ctx.old cpu.old 0 0 }
    ensures { Finishes B.sight I.hits (lahf_row insn.now (cpu_of ctx.old)) ctx.old result cpu.new ctx.new }
{
    let flags = cpu.rflags % (1 << 8);
    cpu.set_register(1, false, AH, flags);
    Ok(done(insn, cpu))
}
