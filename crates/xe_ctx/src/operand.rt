//! The operands of an instruction: where they lie, and how they are read and written.
#![tactic(auto, using(crate::proofs::Trees::row_rules))]

ghost use Rattle.std.specs.Prelude.{◌≡◌, ◌*◌, ◌%◌, ◌^◌, ◌<◌, IfSome, Ok, true};
ghost use Rattle.xe_ctx.specs.Contract.{ℕ, false, IsTrue, is_size, IsOf, IsOperand, cpu_of, HasLeft, RunsWithin, DraftsWithin};
ghost use Rattle.xe_base.specs.Registers.{next_rip};
ghost use Rattle.xe_ctx.specs.Operand.{has_rex, size_by_opcode, operand_at, operand_of, reg_of, opcode_register, reads, writes, read_operand, read_for_write, write_operand};
ghost use Rattle.xe_ctx.specs.Is.{Is};
ghost use Rattle.xe_ctx.specs.View.{view};
ghost use Rattle.xe_modrm.specs.Valid.{IsModRm};

use crate::bus::Bus;
use crate::ctx::Ctx;
use crate::stop::{End, Stop};
use xe_base::{Cpu, SegName};
use xe_icpt::Intercepts;
use xe_modrm::{ModRm, effective_offset, effective_segment};
use xe_opmap::Insn;

/// RAX, or its part of the operand's size, as a register's number in the encoding (SDM volume 2,
/// "Register Operand (r) and Register Names").
pub const AX: u8 = 0;
/// RCX, or its part of the operand's size.
pub const CX: u8 = 1;
/// RDX, or its part of the operand's size.
pub const DX: u8 = 2;
/// RBX, or its part of the operand's size.
pub const BX: u8 = 3;
/// AH: the number of a byte register where no REX stands.
pub const AH: u8 = 4;

/// Where an operand lies: in a general register, or at an offset of a segment.
#[derive(Clone, Copy, PartialEq, Eq, Debug)]
pub enum Operand {
    Register(u8),
    Memory(SegName, u64),
}

/// Whether a REX byte stands before the opcode.
#[inline(always)]
pub fn has_rex(insn: &Insn) -> bool
    ensures { result ≡ has_rex insn.now }
{
    insn.pre.rex.is_some()
}

/// One byte where the opcode's last bit is clear, else the operand size.
#[inline(always)]
pub fn size_by_opcode(insn: &Insn, cpu: &Cpu) -> u8
    requires { IsOf cpu.now insn.now }
    ensures value { result ≡ size_by_opcode insn.now }
    ensures size { IsTrue (is_size result) }
{
    if insn.opcode % 2 == 0 { 1 } else { insn.opsize }
}

/// Where the operand of a ModRM byte lies.
#[inline(always)]
fn operand_at(insn: &Insn, cpu: &Cpu, modrm: &ModRm) -> Operand
    requires insn { IsOf cpu.now insn.now }
    requires modrm { IsModRm modrm.now }
    ensures value { result ≡ operand_at insn.now cpu.now modrm.now }
    ensures register { IsOperand result }
{
    if modrm.md == 3 {
        return Operand::Register(modrm.rm);
    }
    let next = cpu.next_rip(insn.len);
    let offset = effective_offset(modrm, insn.adsize, cpu, next);
    Operand::Memory(effective_segment(&insn.pre, modrm), offset)
}

/// The operand E of the ModRM byte (SDM volume 2, appendix A); without one the accumulator.
#[inline(always)]
#[tactic(auto, unfolding(crate::specs::Operand::operand_of))]
pub fn operand_of(insn: &Insn, cpu: &Cpu) -> Operand
    requires { IsOf cpu.now insn.now }
    ensures value { result ≡ operand_of insn.now cpu.now }
    ensures register { IsOperand result }
{
    match &insn.modrm {
        None => Operand::Register(AX),
        Some(modrm) => operand_at(insn, cpu, modrm),
    }
}

/// The register G of the ModRM byte; without one the accumulator.
#[inline(always)]
pub fn reg_of(insn: &Insn, cpu: &Cpu) -> u8
    requires { IsOf cpu.now insn.now }
    ensures value { result ≡ reg_of insn.now }
    ensures register { result < 16 }
{
    match insn.modrm {
        None => AX,
        Some(modrm) => modrm.reg,
    }
}

/// The register of the opcode's last three bits, with REX.B.
#[inline(always)]
pub fn opcode_register(insn: &Insn) -> u8
    ensures value { result ≡ opcode_register insn.now }
    ensures register { result < 16 }
{
    let low = (insn.opcode % 8) as u8;
    match insn.pre.rex {
        None => low,
        Some(rex) => low + 8 * (rex % 2),
    }
}

/// The number in a general register, at a width in bytes.
#[inline(always)]
pub fn read_register(insn: &Insn, cpu: &Cpu, size: u8, register: u8) -> u64
    requires size { IsTrue (is_size size) }
    requires register { register < 16 }
    ensures value { result ≡ reads insn.now cpu.now size register }
{
    cpu.register(size, has_rex(insn), register)
}

/// Writes a general register at a width in bytes.
#[inline(always)]
pub fn write_register(insn: &Insn, cpu: &mut Cpu, size: u8, register: u8, value: u64)
    requires size { IsTrue (is_size size) }
    requires register { register < 16 }
    ensures { cpu.new ≡ writes insn.now cpu.old size register value }
{
    cpu.set_register(size, has_rex(insn), register, value);
}

/// Reads an operand.
#[inline(always)]
#[tactic(auto, using(crate::proofs::Trees::row_rules), unfolding(crate::specs::Operand::read_operand))]
pub fn read_operand<B: Bus, I: Intercepts>(
    insn: &Insn,
    ctx: &mut Ctx<B, I>,
    operand: Operand,
    size: u8,
) -> Result<u64, Stop>
    requires ready { HasLeft B.sight ctx.old 4 10 }
    requires size { IsTrue (is_size size) }
    requires register { IsOperand operand }
    ensures { RunsWithin B.sight I.hits (read_operand insn.now (cpu_of ctx.old) operand size) ctx.old result ctx.new 4 10 }
{
    match operand {
        Operand::Register(register) => Ok(read_register(insn, ctx.cpu(), size, register)),
        Operand::Memory(segment, offset) => {
            let value = ctx.load(segment, offset, size as u32)?;
            Ok(value as u64)
        }
    }
}

/// Reads an operand that is written afterwards: memory has to be writable.
#[inline(always)]
#[tactic(auto, using(crate::proofs::Trees::row_rules), unfolding(crate::specs::Operand::read_for_write))]
pub fn read_for_write<B: Bus, I: Intercepts>(
    insn: &Insn,
    ctx: &mut Ctx<B, I>,
    operand: Operand,
    size: u8,
) -> Result<u64, Stop>
    requires ready { HasLeft B.sight ctx.old 4 10 }
    requires size { IsTrue (is_size size) }
    requires register { IsOperand operand }
    ensures { RunsWithin B.sight I.hits (read_for_write insn.now (cpu_of ctx.old) operand size) ctx.old result ctx.new 4 10 }
{
    match operand {
        Operand::Register(register) => Ok(read_register(insn, ctx.cpu(), size, register)),
        Operand::Memory(segment, offset) => {
            let value = ctx.load_for_write(segment, offset, size as u32)?;
            Ok(value as u64)
        }
    }
}

/// The low bytes of a number.
#[inline(always)]
pub fn low_bytes(value: u64, size: u8) -> u64
    requires { IsTrue (is_size size) }
    ensures { result ≡ value % 2 ^ (8 * size) }
{
    match size {
        1 => value % (1 << 8),
        2 => value % (1 << 16),
        4 => value % (1 << 32),
        _ => value,
    }
}

/// The same, as a number to be stored.
#[inline(always)]
pub fn cut(value: u64, size: u8) -> u128
    requires { IsTrue (is_size size) }
    ensures { result ≡ value % 2 ^ (8 * size) }
{
    low_bytes(value, size) as u128
}

/// Writes the low bytes of a number to an operand: a register in the draft, or memory.
#[inline(always)]
#[tactic(auto, using(crate::proofs::Trees::row_rules), unfolding(crate::specs::Operand::write_operand))]
pub fn write_operand<B: Bus, I: Intercepts>(
    insn: &Insn,
    ctx: &mut Ctx<B, I>,
    cpu: &mut Cpu,
    operand: Operand,
    size: u8,
    value: u64,
) -> Result<(), Stop>
    requires ready { HasLeft B.sight ctx.old 4 18 }
    requires size { IsTrue (is_size size) }
    requires register { IsOperand operand }
    ensures { DraftsWithin B.sight I.hits (write_operand insn.now cpu.old operand size value) ctx.old result cpu.new ctx.new 4 18 }
{
    match operand {
        Operand::Register(register) => {
            write_register(insn, cpu, size, register, value);
            Ok(())
        }
        Operand::Memory(segment, offset) => {
            ctx.store(segment, offset, size as u32, cut(value, size))?;
            Ok(())
        }
    }
}

/// Reads an operand, where that is done at once.
#[inline(always)]
#[tactic(auto, using(crate::proofs::Trees::row_rules), unfolding(crate::specs::Operand::read_operand))]
pub fn read_at_once<B: Bus, I: Intercepts>(
    insn: &Insn,
    ctx: &Ctx<B, I>,
    operand: Operand,
    size: u8,
) -> Option<u64>
    requires size { IsTrue (is_size size) }
    requires register { IsOperand operand }
    ensures { IfSome result (λ v. Is (read_operand insn.now (cpu_of ctx.now) operand size) (view B.sight I.hits ctx.now) (Ok v) (view B.sight I.hits ctx.now)) }
{
    match operand {
        Operand::Register(register) => Some(read_register(insn, ctx.cpu(), size, register)),
        Operand::Memory(segment, offset) => ctx.load_at_once(segment, offset, size),
    }
}

/// Reads an operand that is written afterwards, where that is done at once.
#[inline(always)]
#[tactic(auto, using(crate::proofs::Trees::row_rules), unfolding(crate::specs::Operand::read_for_write))]
pub fn read_for_write_at_once<B: Bus, I: Intercepts>(
    insn: &Insn,
    ctx: &Ctx<B, I>,
    operand: Operand,
    size: u8,
) -> Option<u64>
    requires size { IsTrue (is_size size) }
    requires register { IsOperand operand }
    ensures { IfSome result (λ v. Is (read_for_write insn.now (cpu_of ctx.now) operand size) (view B.sight I.hits ctx.now) (Ok v) (view B.sight I.hits ctx.now)) }
{
    match operand {
        Operand::Register(register) => Some(read_register(insn, ctx.cpu(), size, register)),
        Operand::Memory(segment, offset) => ctx.load_for_write_at_once(segment, offset, size),
    }
}

/// Writes the low bytes of a number to an operand, where that is done at once, and says whether it
/// was; else nothing changes.
#[inline(always)]
#[tactic(auto, using(crate::proofs::Trees::row_rules), unfolding(crate::specs::Operand::write_operand))]
pub fn write_at_once<B: Bus, I: Intercepts>(
    insn: &Insn,
    ctx: &mut Ctx<B, I>,
    cpu: &mut Cpu,
    operand: Operand,
    size: u8,
    value: u64,
) -> bool
    requires ready { HasLeft B.sight ctx.old 0 8 }
    requires size { IsTrue (is_size size) }
    requires register { IsOperand operand }
    ensures stays { result ≡ false → ctx.new ≡ ctx.old }
    ensures draft_stays { result ≡ false → cpu.new ≡ cpu.old }
    ensures done { result ≡ true → DraftsWithin B.sight I.hits (write_operand insn.now cpu.old operand size value) ctx.old (Ok tt) cpu.new ctx.new 0 8 }
{
    match operand {
        Operand::Register(register) => {
            write_register(insn, cpu, size, register, value);
            true
        }
        Operand::Memory(segment, offset) => {
            ctx.store_at_once(segment, offset, size, low_bytes(value, size))
        }
    }
}

/// The instruction is done: RIP goes behind it.
#[inline(always)]
pub fn done(insn: &Insn, cpu: &mut Cpu) -> End
    ensures registers { cpu.new ≡ record cpu.old { rip = next_rip cpu.old insn.now.len } }
    ensures plain { result ≡ record { more = false; retire = 0 } }
{
    cpu.advance(insn.len);
    End {
        more: false,
        retire: 0,
    }
}
