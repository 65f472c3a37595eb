//! Single bits.
#![tactic(auto, using(xe_ctx::proofs::Trees::row_rules))]

ghost use Rattle.std.specs.Prelude.{unsigned_abs, ◌≡◌, ◌≤◌, ◌^◌, ◌<◌};
ghost use Rattle.xe_opmap.specs.Encoding.{IsSize};
ghost use Rattle.xe_ctx.specs.Contract.{ℕ, Option, IsOf, IsOperand, IsReady, Finishes, cpu_of};
ghost use Rattle.xe_ctx.specs.Operand.{reg_of};
ghost use Rattle.xe_arith.specs.Bit.{is_by_immediate, bit_offset, bytes_to_bit, moved, bit_operand, bit_place, bt_row, bit_row, found_written, scan_row};

use crate::sized::{bit_at, scan_at};
use xe_base::{Cpu, Word};
use xe_ctx::operand::{
    Operand, done, operand_of, read_for_write, read_operand, read_register, reg_of, write_operand,
    write_register,
};
use xe_ctx::{Bus, Ctx, End, Stop};
use xe_flags::{BitOp, ScanOp};
use xe_icpt::Intercepts;
use xe_opmap::Insn;

/// Whether an immediate names the bit: 0F BA.
fn is_by_immediate(opcode: u16) -> bool
    ensures { result ≡ is_by_immediate opcode }
{
    opcode == 0x0FBA
}

/// Where the bit is named: in G, or in an immediate byte.
fn bit_offset(insn: &Insn, cpu: &Cpu) -> u64
    requires { IsOf cpu.now insn.now }
    ensures { result ≡ bit_offset insn.now cpu.now }
{
    if is_by_immediate(insn.opcode) {
        insn.imm % (1 << 8)
    } else {
        read_register(insn, cpu, insn.opsize, reg_of(insn, cpu))
    }
}

/// How many bytes on the operand lies that has the bit of a signed offset.
fn bytes_to_bit(size: u8, offset: u64) -> i128
    requires { IsSize size }
    ensures value { result ≡ bytes_to_bit size offset }
    ensures small { unsigned_abs result ≤ 2 ^ 64 }
{
    match size {
        2 => (Word::<16>::new(offset).signed() >> 4) * 2,
        4 => (Word::<32>::new(offset).signed() >> 5) * 4,
        _ => (Word::<64>::new(offset).signed() >> 6) * 8,
    }
}

/// An operand in memory so many bytes on, in the address size; a register stays.
fn moved(adsize: u8, bytes: i128, operand: Operand) -> Operand
    requires adsize { IsSize adsize }
    requires small { unsigned_abs bytes ≤ 2 ^ 64 }
    requires operand { IsOperand operand }
    ensures value { result ≡ moved adsize bytes operand }
    ensures register { IsOperand result }
{
    match operand {
        Operand::Register(register) => Operand::Register(register),
        Operand::Memory(segment, offset) => {
            let sum = offset as i128 + bytes;
            let offset = match adsize {
                2 => Word::<16>::wrapped(sum).get(),
                4 => Word::<32>::wrapped(sum).get(),
                _ => Word::<64>::wrapped(sum).get(),
            };
            Operand::Memory(segment, offset)
        }
    }
}

/// The operand that has the bit: an offset in a register reaches past E.
fn bit_operand(insn: &Insn, cpu: &Cpu) -> Operand
    requires { IsOf cpu.now insn.now }
    ensures value { result ≡ bit_operand insn.now cpu.now }
    ensures register { IsOperand result }
{
    let operand = operand_of(insn, cpu);
    if is_by_immediate(insn.opcode) {
        operand
    } else {
        let bytes = bytes_to_bit(insn.opsize, bit_offset(insn, cpu));
        moved(insn.adsize, bytes, operand)
    }
}

/// The place of the bit in its operand.
fn bit_place(insn: &Insn, cpu: &Cpu) -> u32
    requires { IsOf cpu.now insn.now }
    ensures { result ≡ bit_place insn.now cpu.now }
{
    (bit_offset(insn, cpu) % (8 * insn.opsize as u64)) as u32
}

/// BT (SDM volume 2, "BT—Bit Test").
pub fn bt<B: Bus, I: Intercepts>(
    insn: &Insn,
    ctx: &mut Ctx<B, I>,
    cpu: &mut Cpu,
) -> Result<End, Stop>
    requires { IsReady B.sight insn.now ctx.old cpu.old 10 36 }
    ensures { Finishes B.sight I.hits (bt_row insn.now (cpu_of ctx.old)) ctx.old result cpu.new ctx.new }
{
    let size = insn.opsize;
    let place = bit_place(insn, cpu);
    let a = read_operand(insn, ctx, bit_operand(insn, cpu), size)?;
    let (_, flags) = bit_at(BitOp::Test, size, a, place, cpu.rflags);
    cpu.rflags = flags;
    Ok(done(insn, cpu))
}

/// BTS, BTR and BTC (SDM volume 2).
pub fn change_bit<B: Bus, I: Intercepts>(
    op: BitOp,
    insn: &Insn,
    ctx: &mut Ctx<B, I>,
    cpu: &mut Cpu,
) -> Result<End, Stop>
    requires { IsReady B.sight insn.now ctx.old cpu.old 10 36 }
    ensures { Finishes B.sight I.hits (bit_row op insn.now (cpu_of ctx.old)) ctx.old result cpu.new ctx.new }
{
    let size = insn.opsize;
    let place = bit_place(insn, cpu);
    let target = bit_operand(insn, cpu);
    let a = read_for_write(insn, ctx, target, size)?;
    let (value, flags) = bit_at(op, size, a, place, cpu.rflags);
    cpu.rflags = flags;
    write_operand(insn, ctx, cpu, target, size, value)?;
    Ok(done(insn, cpu))
}

/// What is found goes to G; where nothing is found, G stays.
fn write_found(insn: &Insn, cpu: &mut Cpu, register: u8, found: Option<u64>)
    requires size { IsSize insn.now.opsize }
    requires register { register < 16 }
    requires g { register ≡ reg_of insn.now }
    ensures { cpu.new ≡ found_written insn.now cpu.old found }
{
    match found {
        None => {}
        Some(value) => write_register(insn, cpu, insn.opsize, register, value),
    }
}

/// BSF, BSR and POPCNT (SDM volume 2).
pub fn scan<B: Bus, I: Intercepts>(
    op: ScanOp,
    insn: &Insn,
    ctx: &mut Ctx<B, I>,
    cpu: &mut Cpu,
) -> Result<End, Stop>
    requires { IsReady B.sight insn.now ctx.old cpu.old 10 36 }
    ensures { Finishes B.sight I.hits (scan_row op insn.now (cpu_of ctx.old)) ctx.old result cpu.new ctx.new }
{
    let size = insn.opsize;
    let register = reg_of(insn, cpu);
    let a = read_operand(insn, ctx, operand_of(insn, cpu), size)?;
    let (found, flags) = scan_at(op, size, a, cpu.rflags);
    cpu.rflags = flags;
    write_found(insn, cpu, register, found);
    Ok(done(insn, cpu))
}
