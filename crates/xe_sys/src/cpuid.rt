//! CPUID.
#![tactic(auto, using(xe_ctx::proofs::Trees::row_rules))]

ghost use Rattle.std.specs.Prelude.{◌≡◌};
ghost use Rattle.xe_base.specs.Access.{IsWellFormed};
ghost use Rattle.xe_ctx.specs.Contract.{ℕ, IsReady, Finishes, cpu_of};
ghost use Rattle.xe_sys.specs.Cpuid.{leaf_address, leaf_read, with_leaf, cpuid_row};

use xe_base::{Access, Cpu, Space};
use xe_ctx::operand::{AX, BX, CX, DX, done, write_register};
use xe_ctx::{Bus, Ctx, End, Stop};
use xe_icpt::{Intercepts, Point};
use xe_opmap::Insn;

/// EAX * 2^32 + ECX.
fn leaf_address(cpu: &Cpu) -> u64
    ensures { result ≡ leaf_address cpu.now }
{
    cpu.gpr[AX as usize] % (1 << 32) * (1 << 32) + cpu.gpr[CX as usize] % (1 << 32)
}

/// The access that reads half a leaf.
fn leaf_read(cpu: &Cpu) -> Access
    ensures value { result ≡ leaf_read cpu.now }
    ensures well_formed { IsWellFormed result }
{
    Access {
        space: Space::Cpuid,
        write: false,
        address: leaf_address(cpu),
        size: 8,
        value: 0,
    }
}

/// Writes EBX:EAX and EDX:ECX.
fn set_leaf(insn: &Insn, cpu: &mut Cpu, first: u64, second: u64)
    ensures { cpu.new ≡ with_leaf insn.now cpu.old first second }
{
    write_register(insn, cpu, 4, AX, first);
    write_register(insn, cpu, 4, BX, first / (1 << 32));
    write_register(insn, cpu, 4, CX, second);
    write_register(insn, cpu, 4, DX, second / (1 << 32));
}

/// CPUID (SDM volume 2, "CPUID—CPU Identification").
pub fn cpuid<B: Bus, I: Intercepts>(
    insn: &Insn,
    ctx: &mut Ctx<B, I>,
    cpu: &mut Cpu,
) -> Result<End, Stop>
    requires { IsReady B.sight insn.now ctx.old cpu.old 2 0 }
    ensures { Finishes B.sight I.hits (cpuid_row insn.now (cpu_of ctx.old)) ctx.old result cpu.new ctx.new }
{
    ctx.point(&Point::Cpuid)?;
    let first = ctx.device(leaf_read(cpu))?;
    let second = ctx.device(leaf_read(cpu))?;
    set_leaf(insn, cpu, first.number(), second.number());
    Ok(done(insn, cpu))
}
