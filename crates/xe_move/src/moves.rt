//! Moves between registers, memory and immediates.
#![tactic(auto, using(xe_ctx::proofs::Trees::row_rules))]

ghost use Rattle.std.specs.Prelude.{◌≡◌, ◌<◌};
ghost use Rattle.xe_ctx.specs.Contract.{ℕ, IsTrue, is_size, IsOf, IsOperand, IsReady, Finishes, AtOnce, cpu_of};
ghost use Rattle.xe_opmap.specs.Encoding.{IsSize};
ghost use Rattle.xe_move.specs.Moves.{is_to_e, is_to_g, is_from_address, is_to_address, is_to_named_register, names_byte_register, move_size, at_address, move_target, move_source, mov_row, offset_of, lea_row, is_with_g, exchange_size, exchange_partner, xchg_row, nop_row, table_byte, xlat_row, reversed, bswap_row};
ghost use Rattle.xe_move.specs.Source.{IsSource};

use crate::source::{Source, read_source, read_source_at_once};
use xe_base::{Cpu, SegName};
use xe_ctx::operand::{
    AX, BX, Operand, done, opcode_register, operand_of, read_for_write, read_operand,
    read_register, reg_of, size_by_opcode, write_at_once, write_operand, write_register,
};
use xe_ctx::{Bus, Ctx, End, Stop};
use xe_icpt::Intercepts;
use xe_opmap::Insn;

/// Whether a MOV writes E from G: 88 and 89.
#[inline(always)]
fn is_to_e(opcode: u16) -> bool
    ensures { result ≡ is_to_e opcode }
{
    opcode == 0x88 || opcode == 0x89
}

/// Whether a MOV writes G from E: 8A and 8B.
#[inline(always)]
fn is_to_g(opcode: u16) -> bool
    ensures { result ≡ is_to_g opcode }
{
    opcode == 0x8A || opcode == 0x8B
}

/// Whether a MOV writes the accumulator from the address that the instruction carries: A0 and A1.
#[inline(always)]
fn is_from_address(opcode: u16) -> bool
    ensures { result ≡ is_from_address opcode }
{
    opcode == 0xA0 || opcode == 0xA1
}

/// Whether a MOV writes to the address that the instruction carries, from the accumulator: A2 and A3.
#[inline(always)]
fn is_to_address(opcode: u16) -> bool
    ensures { result ≡ is_to_address opcode }
{
    opcode == 0xA2 || opcode == 0xA3
}

/// Whether a MOV writes an immediate to a register that its opcode names: B0 to BF.
#[inline(always)]
fn is_to_named_register(opcode: u16) -> bool
    ensures { result ≡ is_to_named_register opcode }
{
    opcode / 16 == 0xB
}

/// Whether the opcode of such a MOV names a byte register: B0 to B7.
#[inline(always)]
fn names_byte_register(opcode: u16) -> bool
    ensures { result ≡ names_byte_register opcode }
{
    opcode % 16 < 8
}

/// The size of a MOV in bytes: where the opcode names a register, its fourth bit chooses between bytes
/// and the operand size, else its last.
#[inline(always)]
fn move_size(insn: &Insn, cpu: &Cpu) -> u8
    requires { IsOf cpu.now insn.now }
    ensures value { result ≡ move_size insn.now }
    ensures size { IsTrue (is_size result) }
{
    if !is_to_named_register(insn.opcode) {
        size_by_opcode(insn, cpu)
    } else if names_byte_register(insn.opcode) {
        1
    } else {
        insn.opsize
    }
}

/// The operand at the address that the instruction carries: in DS, or in the segment of a prefix.
#[inline(always)]
fn at_address(insn: &Insn) -> Operand
    ensures value { result ≡ at_address insn.now }
    ensures register { IsOperand result }
{
    match insn.pre.seg {
        Some(segment) => Operand::Memory(segment, insn.imm),
        None => Operand::Memory(SegName::Ds, insn.imm),
    }
}

/// What a MOV writes.
#[inline(always)]
fn move_target(insn: &Insn, cpu: &Cpu) -> Operand
    requires { IsOf cpu.now insn.now }
    ensures value { result ≡ move_target insn.now cpu.now }
    ensures register { IsOperand result }
{
    if is_to_g(insn.opcode) {
        Operand::Register(reg_of(insn, cpu))
    } else if is_from_address(insn.opcode) {
        Operand::Register(AX)
    } else if is_to_address(insn.opcode) {
        at_address(insn)
    } else if is_to_named_register(insn.opcode) {
        Operand::Register(opcode_register(insn))
    } else {
        operand_of(insn, cpu)
    }
}

/// What a MOV reads.
#[inline(always)]
fn move_source(insn: &Insn, cpu: &Cpu) -> Source
    requires { IsOf cpu.now insn.now }
    ensures value { result ≡ move_source insn.now cpu.now }
    ensures register { IsSource result }
{
    if is_to_e(insn.opcode) {
        Source::Place(Operand::Register(reg_of(insn, cpu)))
    } else if is_to_g(insn.opcode) {
        Source::Place(operand_of(insn, cpu))
    } else if is_from_address(insn.opcode) {
        Source::Place(at_address(insn))
    } else if is_to_address(insn.opcode) {
        Source::Place(Operand::Register(AX))
    } else {
        Source::Number(insn.imm)
    }
}

/// MOV (SDM volume 2, "MOV—Move").
pub fn mov<B: Bus, I: Intercepts>(
    insn: &Insn,
    ctx: &mut Ctx<B, I>,
    cpu: &mut Cpu,
) -> Result<End, Stop>
    requires { IsReady B.sight insn.now ctx.old cpu.old 10 36 }
    ensures { Finishes B.sight I.hits (mov_row insn.now (cpu_of ctx.old)) ctx.old result cpu.new ctx.new }
{
    let size = move_size(insn, cpu);
    let source = move_source(insn, cpu);
    let target = move_target(insn, cpu);
    let value = read_source(insn, ctx, source, size)?;
    write_operand(insn, ctx, cpu, target, size, value)?;
    Ok(done(insn, cpu))
}

/// MOV, where it is done at once.
#[inline(always)]
pub(crate) fn mov_at_once<B: Bus, I: Intercepts>(
    insn: &Insn,
    ctx: &mut Ctx<B, I>,
    cpu: &mut Cpu,
) -> bool
    requires { IsReady B.sight insn.now ctx.old cpu.old 10 36 }
    ensures { AtOnce B.sight I.hits (mov_row insn.now (cpu_of ctx.old)) ctx.old cpu.old result ctx.new cpu.new }
{
    let size = move_size(insn, cpu);
    let source = move_source(insn, cpu);
    let target = move_target(insn, cpu);
    let Some(value) = read_source_at_once(insn, ctx, source, size) else {
        return false;
    };
    if !write_at_once(insn, ctx, cpu, target, size, value) {
        return false;
    }
    cpu.advance(insn.len);
    true
}

/// Where an operand in memory lies in its segment.
#[inline(always)]
fn offset_of(operand: Operand) -> u64
    ensures { result ≡ offset_of operand }
{
    match operand {
        Operand::Register(_) => 0,
        Operand::Memory(_, offset) => offset,
    }
}

/// LEA (SDM volume 2, "LEA—Load Effective Address").
pub fn lea<B: Bus, I: Intercepts>(
    insn: &Insn,
    ctx: &mut Ctx<B, I>,
    cpu: &mut Cpu,
) -> Result<End, Stop>
    requires { IsReady B.sight insn.now ctx.old cpu.old 0 0 }
    ensures { Finishes B.sight I.hits (lea_row insn.now (cpu_of ctx.old)) ctx.old result cpu.new ctx.new }
{
    let offset = offset_of(operand_of(insn, cpu));
    let register = reg_of(insn, cpu);
    write_register(insn, cpu, insn.opsize, register, offset);
    Ok(done(insn, cpu))
}

/// LEA, which is always done at once.
#[inline(always)]
pub(crate) fn lea_at_once<B: Bus, I: Intercepts>(
    insn: &Insn,
    ctx: &mut Ctx<B, I>,
    cpu: &mut Cpu,
) -> bool
    requires { IsReady B.sight insn.now ctx.old cpu.old 0 0 }
    ensures { AtOnce B.sight I.hits (lea_row insn.now (cpu_of ctx.old)) ctx.old cpu.old result ctx.new cpu.new }
{
    let offset = offset_of(operand_of(insn, cpu));
    let register = reg_of(insn, cpu);
    write_register(insn, cpu, insn.opsize, register, offset);
    cpu.advance(insn.len);
    true
}

/// Whether an XCHG is with G: 86 and 87. The others exchange the accumulator with the register that
/// the opcode names.
fn is_with_g(opcode: u16) -> bool
    ensures { result ≡ is_with_g opcode }
{
    opcode < 0x90
}

/// The size of an XCHG in bytes.
fn exchange_size(insn: &Insn, cpu: &Cpu) -> u8
    requires { IsOf cpu.now insn.now }
    ensures value { result ≡ exchange_size insn.now }
    ensures size { IsTrue (is_size result) }
{
    if is_with_g(insn.opcode) {
        size_by_opcode(insn, cpu)
    } else {
        insn.opsize
    }
}

/// The register that an XCHG exchanges with its operand.
fn exchange_partner(insn: &Insn, cpu: &Cpu) -> u8
    requires { IsOf cpu.now insn.now }
    ensures value { result ≡ exchange_partner insn.now }
    ensures register { result < 16 }
{
    if is_with_g(insn.opcode) {
        reg_of(insn, cpu)
    } else {
        opcode_register(insn)
    }
}

/// XCHG (SDM volume 2, "XCHG—Exchange Register/Memory With Register").
pub fn xchg<B: Bus, I: Intercepts>(
    insn: &Insn,
    ctx: &mut Ctx<B, I>,
    cpu: &mut Cpu,
) -> Result<End, Stop>
    requires { IsReady B.sight insn.now ctx.old cpu.old 10 36 }
    ensures { Finishes B.sight I.hits (xchg_row insn.now (cpu_of ctx.old)) ctx.old result cpu.new ctx.new }
{
    let size = exchange_size(insn, cpu);
    let partner = exchange_partner(insn, cpu);
    let operand = operand_of(insn, cpu);
    let value = read_for_write(insn, ctx, operand, size)?;
    let given = read_register(insn, cpu, size, partner);
    write_register(insn, cpu, size, partner, value);
    write_operand(insn, ctx, cpu, operand, size, given)?;
    Ok(done(insn, cpu))
}

/// NOP (SDM volume 2, "NOP—No Operation"), and the hints, which access nothing.
pub fn nop<B: Bus, I: Intercepts>(
    insn: &Insn,
    ctx: &mut Ctx<B, I>,
    cpu: &mut Cpu,
) -> Result<End, Stop>
    requires { IsReady B.sight insn.now ctx.old cpu.old 0 0 }
    ensures { Finishes B.sight I.hits (nop_row insn.now (cpu_of ctx.old)) ctx.old result cpu.new ctx.new }
{
    Ok(done(insn, cpu))
}

/// The byte of the table at rBX that AL numbers: in DS, or in the segment of a prefix.
fn table_byte(insn: &Insn, cpu: &Cpu) -> Operand
    requires { IsOf cpu.now insn.now }
    ensures value { result ≡ table_byte insn.now cpu.now }
    ensures register { IsOperand result }
{
    let sum = read_register(insn, cpu, insn.adsize, BX) as u128
        + read_register(insn, cpu, 1, AX) as u128;
    let offset = match insn.adsize {
        2 => sum % (1 << 16),
        4 => sum % (1 << 32),
        _ => sum % (1 << 64),
    };
    match insn.pre.seg {
        Some(segment) => Operand::Memory(segment, offset as u64),
        None => Operand::Memory(SegName::Ds, offset as u64),
    }
}

/// XLAT (SDM volume 2, "XLAT/XLATB—Table Look-up Translation").
pub fn xlat<B: Bus, I: Intercepts>(
    insn: &Insn,
    ctx: &mut Ctx<B, I>,
    cpu: &mut Cpu,
) -> Result<End, Stop>
    requires { IsReady B.sight insn.now ctx.old cpu.old 10 36 }
    ensures { Finishes B.sight I.hits (xlat_row insn.now (cpu_of ctx.old)) ctx.old result cpu.new ctx.new }
{
    let value = read_operand(insn, ctx, table_byte(insn, cpu), 1)?;
    write_register(insn, cpu, 1, AX, value);
    Ok(done(insn, cpu))
}

/// The bytes of a number in the other order; of two bytes, which the manual leaves undefined, the
/// result is 0.
fn reversed(size: u8, value: u64) -> u64
    requires { IsSize size }
    ensures { result ≡ reversed size value }
{
    match size {
        2 => 0,
        4 => ((value % (1 << 32)) as u32).swap_bytes() as u64,
        _ => value.swap_bytes(),
    }
}

/// BSWAP (SDM volume 2, "BSWAP—Byte Swap").
pub fn bswap<B: Bus, I: Intercepts>(
    insn: &Insn,
    ctx: &mut Ctx<B, I>,
    cpu: &mut Cpu,
) -> Result<End, Stop>
    requires { IsReady B.sight insn.now ctx.old cpu.old 0 0 }
    ensures { Finishes B.sight I.hits (bswap_row insn.now (cpu_of ctx.old)) ctx.old result cpu.new ctx.new }
{
    let size = insn.opsize;
    let register = opcode_register(insn);
    let value = reversed(size, read_register(insn, cpu, size, register));
    write_register(insn, cpu, size, register, value);
    Ok(done(insn, cpu))
}
