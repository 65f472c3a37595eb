//! Elements that are compared.
#![tactic(auto, using(xe_ctx::proofs::Trees::row_rules))]

ghost use Rattle.std.specs.Prelude.{◌≡◌, ◌%◌, ◌^◌, IsTrue};
ghost use Rattle.xe_base.specs.Registers.{is_size};
ghost use Rattle.xe_base.specs.Words.{IsWidth};
ghost use Rattle.xe_ctx.specs.Contract.{ℕ, IsReady, DraftsWithin, cpu_of};
ghost use Rattle.xe_flags.specs.Arithmetic.{alu_flags};
ghost use Rattle.xe_flags.specs.declared.arithmetic.AluOp.TheVariants.{Cmp};
ghost use Rattle.xe_string.specs.Compare.{compared, cmps_element, scas_element};

use crate::index::{DI, SI, index, move_both, move_index, source_segment};
use xe_base::{Cpu, SegName, Word};
use xe_ctx::operand::{AX, read_register, size_by_opcode};
use xe_ctx::{Bus, Ctx, Stop};
use xe_flags::{AluOp, alu};
use xe_icpt::Intercepts;
use xe_opmap::Insn;

fn compared_in<const W: u32>(a: u64, b: u64, flags: u64) -> u64
    requires { IsWidth W }
    ensures { result ≡ alu_flags W Cmp (a % 2 ^ W) (b % 2 ^ W) flags }
{
    let (_, flags) = alu::<W>(AluOp::Cmp, Word::new(a), Word::new(b), flags);
    flags
}

/// The flags of CMP of the low bytes of two numbers: those of the first less the second.
fn compared(size: u8, a: u64, b: u64, flags: u64) -> u64
    requires { IsTrue (is_size size) }
    ensures { result ≡ compared size a b flags }
{
    match size {
        1 => compared_in::<8>(a, b, flags),
        2 => compared_in::<16>(a, b, flags),
        4 => compared_in::<32>(a, b, flags),
        _ => compared_in::<64>(a, b, flags),
    }
}

/// An element of CMPS (SDM volume 2, "CMPS/CMPSB/CMPSW/CMPSD/CMPSQ").
#[tactic(auto, using(xe_ctx::proofs::Trees::row_rules), unfolding(crate::specs::Compare::cmps_element))]
pub fn cmps<B: Bus, I: Intercepts>(
    insn: &Insn,
    ctx: &mut Ctx<B, I>,
    cpu: &mut Cpu,
) -> Result<(), Stop>
    requires { IsReady B.sight insn.now ctx.old cpu.old 9 48 }
    ensures { DraftsWithin B.sight I.hits (cmps_element insn.now (cpu_of ctx.old)) ctx.old result cpu.new ctx.new 9 48 }
{
    let size = size_by_opcode(insn, cpu);
    let a = ctx.load(source_segment(insn), index(insn, cpu, SI), size as u32)?;
    let b = ctx.load(SegName::Es, index(insn, cpu, DI), size as u32)?;
    let flags = compared(size, a as u64, b as u64, cpu.rflags);
    move_both(insn, cpu, size);
    cpu.rflags = flags;
    Ok(())
}

/// An element of SCAS (SDM volume 2, "SCAS/SCASB/SCASW/SCASD").
#[tactic(auto, using(xe_ctx::proofs::Trees::row_rules), unfolding(crate::specs::Compare::scas_element))]
pub fn scas<B: Bus, I: Intercepts>(
    insn: &Insn,
    ctx: &mut Ctx<B, I>,
    cpu: &mut Cpu,
) -> Result<(), Stop>
    requires { IsReady B.sight insn.now ctx.old cpu.old 9 48 }
    ensures { DraftsWithin B.sight I.hits (scas_element insn.now (cpu_of ctx.old)) ctx.old result cpu.new ctx.new 9 48 }
{
    let size = size_by_opcode(insn, cpu);
    let a = read_register(insn, cpu, size, AX);
    let b = ctx.load(SegName::Es, index(insn, cpu, DI), size as u32)?;
    let flags = compared(size, a, b as u64, cpu.rflags);
    move_index(insn, cpu, DI, size);
    cpu.rflags = flags;
    Ok(())
}
