//! Instructions under a condition.
#![tactic(auto, using(xe_ctx::proofs::Trees::row_rules))]

ghost use Rattle.std.specs.Prelude.{◌≡◌, if◌then◌else◌};
ghost use Rattle.xe_ctx.specs.Contract.{ℕ, IsOf, IsReady, Finishes, cpu_of};
ghost use Rattle.xe_ctx.specs.Operand.{reads, reg_of};
ghost use Rattle.xe_move.specs.Condition.{holds, cmov_row, set_row};

use xe_base::Cpu;
use xe_ctx::operand::{
    done, operand_of, read_operand, read_register, reg_of, write_operand, write_register,
};
use xe_ctx::{Bus, Ctx, End, Stop};
use xe_flags::condition;
use xe_icpt::Intercepts;
use xe_opmap::Insn;

/// Whether the condition of the opcode's last four bits holds.
fn holds(insn: &Insn, cpu: &Cpu) -> bool
    ensures { result ≡ holds insn.now cpu.now }
{
    condition((insn.opcode % 16) as u8, cpu.rflags)
}

/// What CMOVcc writes: the number that it has read, or what the register holds.
fn chosen(insn: &Insn, cpu: &Cpu, value: u64) -> u64
    requires { IsOf cpu.now insn.now }
    ensures { result ≡ (if holds insn.now cpu.now then value else reads insn.now cpu.now insn.now.opsize (reg_of insn.now)) }
{
    if holds(insn, cpu) {
        value
    } else {
        read_register(insn, cpu, insn.opsize, reg_of(insn, cpu))
    }
}

/// CMOVcc (SDM volume 2, "CMOVcc—Conditional Move").
pub fn cmov<B: Bus, I: Intercepts>(
    insn: &Insn,
    ctx: &mut Ctx<B, I>,
    cpu: &mut Cpu,
) -> Result<End, Stop>
    requires { IsReady B.sight insn.now ctx.old cpu.old 10 36 }
    ensures { Finishes B.sight I.hits (cmov_row insn.now (cpu_of ctx.old)) ctx.old result cpu.new ctx.new }
{
    let size = insn.opsize;
    let register = reg_of(insn, cpu);
    let value = read_operand(insn, ctx, operand_of(insn, cpu), size)?;
    let chosen = chosen(insn, cpu, value);
    write_register(insn, cpu, size, register, chosen);
    Ok(done(insn, cpu))
}

/// SETcc (SDM volume 2, "SETcc—Set Byte on Condition").
pub fn set<B: Bus, I: Intercepts>(
    insn: &Insn,
    ctx: &mut Ctx<B, I>,
    cpu: &mut Cpu,
) -> Result<End, Stop>
    requires { IsReady B.sight insn.now ctx.old cpu.old 10 36 }
    ensures { Finishes B.sight I.hits (set_row insn.now (cpu_of ctx.old)) ctx.old result cpu.new ctx.new }
{
    let target = operand_of(insn, cpu);
    let value = holds(insn, cpu) as u64;
    write_operand(insn, ctx, cpu, target, 1, value)?;
    Ok(done(insn, cpu))
}
