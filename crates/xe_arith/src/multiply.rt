//! Products and quotients.
#![tactic(auto, using(xe_ctx::proofs::Trees::row_rules))]

ghost use Rattle.std.specs.Prelude.{◌≡◌};
ghost use Rattle.xe_ctx.specs.Contract.{ℕ, Option, IsTrue, is_size, IsOf, IsReady, Finishes, cpu_of};
ghost use Rattle.xe_base.specs.Exceptions.{plain_exception, divide_error};
ghost use Rattle.xe_arith.specs.Multiply.{pair_written, high_word, mul_row, is_by_g, other_factor, imul_to_register, is_of_accumulator, imul_row, quotient_row, div_row};

use crate::sized::{div_at, mul_at};
use xe_base::access::DIVIDE_ERROR;
use xe_base::{Cpu, Fault};
use xe_ctx::operand::{
    AH, AX, DX, done, operand_of, read_operand, read_register, reg_of, size_by_opcode,
    write_register,
};
use xe_ctx::{Bus, Ctx, End, Stop};
use xe_icpt::Intercepts;
use xe_opmap::Insn;

/// Writes two words to their places: AH and AL for bytes, else rDX and rAX.
fn write_pair(insn: &Insn, cpu: &mut Cpu, size: u8, high: u64, word: u64)
    requires { IsTrue (is_size size) }
    ensures { cpu.new ≡ pair_written insn.now cpu.old size high word }
{
    if size == 1 {
        let both = high % (1 << 8) * (1 << 8) + word % (1 << 8);
        write_register(insn, cpu, 2, AX, both);
    } else {
        write_register(insn, cpu, size, AX, word);
        write_register(insn, cpu, size, DX, high);
    }
}

/// The higher of the two words: AH, whatever prefixes stand, or rDX.
fn high_word(insn: &Insn, cpu: &Cpu, size: u8) -> u64
    requires { IsTrue (is_size size) }
    ensures { result ≡ high_word insn.now cpu.now size }
{
    if size == 1 {
        cpu.register(1, false, AH)
    } else {
        read_register(insn, cpu, size, DX)
    }
}

/// MUL, and IMUL of the accumulator (SDM volume 2).
pub fn mul<B: Bus, I: Intercepts>(
    is_signed: bool,
    insn: &Insn,
    ctx: &mut Ctx<B, I>,
    cpu: &mut Cpu,
) -> Result<End, Stop>
    requires { IsReady B.sight insn.now ctx.old cpu.old 10 36 }
    ensures { Finishes B.sight I.hits (mul_row is_signed insn.now (cpu_of ctx.old)) ctx.old result cpu.new ctx.new }
{
    let size = size_by_opcode(insn, cpu);
    let a = read_register(insn, cpu, size, AX);
    let b = read_operand(insn, ctx, operand_of(insn, cpu), size)?;
    let product = mul_at(is_signed, size, a, b, cpu.rflags);
    cpu.rflags = product.flags;
    write_pair(insn, cpu, size, product.high, product.low);
    Ok(done(insn, cpu))
}

/// Whether the other factor of IMUL to a register is that register: 0F AF.
fn is_by_g(opcode: u16) -> bool
    ensures { result ≡ is_by_g opcode }
{
    opcode == 0x0FAF
}

/// The other factor of IMUL to a register: that register, or an immediate.
fn other_factor(insn: &Insn, cpu: &Cpu) -> u64
    requires { IsOf cpu.now insn.now }
    ensures { result ≡ other_factor insn.now cpu.now }
{
    if is_by_g(insn.opcode) {
        read_register(insn, cpu, insn.opsize, reg_of(insn, cpu))
    } else {
        insn.imm
    }
}

/// IMUL to a register, which gets the low half.
fn imul_to_register<B: Bus, I: Intercepts>(
    insn: &Insn,
    ctx: &mut Ctx<B, I>,
    cpu: &mut Cpu,
) -> Result<End, Stop>
    requires { IsReady B.sight insn.now ctx.old cpu.old 10 36 }
    ensures { Finishes B.sight I.hits (imul_to_register insn.now (cpu_of ctx.old)) ctx.old result cpu.new ctx.new }
{
    let size = insn.opsize;
    let register = reg_of(insn, cpu);
    let b = other_factor(insn, cpu);
    let a = read_operand(insn, ctx, operand_of(insn, cpu), size)?;
    let product = mul_at(true, size, a, b, cpu.rflags);
    cpu.rflags = product.flags;
    write_register(insn, cpu, size, register, product.low);
    Ok(done(insn, cpu))
}

/// Whether an IMUL is of the accumulator: F6 and F7.
fn is_of_accumulator(opcode: u16) -> bool
    ensures { result ≡ is_of_accumulator opcode }
{
    opcode == 0xF6 || opcode == 0xF7
}

/// IMUL (SDM volume 2, "IMUL—Signed Multiply").
pub fn imul<B: Bus, I: Intercepts>(
    insn: &Insn,
    ctx: &mut Ctx<B, I>,
    cpu: &mut Cpu,
) -> Result<End, Stop>
    requires { IsReady B.sight insn.now ctx.old cpu.old 10 36 }
    ensures { Finishes B.sight I.hits (imul_row insn.now (cpu_of ctx.old)) ctx.old result cpu.new ctx.new }
{
    if is_of_accumulator(insn.opcode) {
        mul(true, insn, ctx, cpu)
    } else {
        imul_to_register(insn, ctx, cpu)
    }
}

/// DIV and IDIV (SDM volume 2).
pub fn div<B: Bus, I: Intercepts>(
    is_signed: bool,
    insn: &Insn,
    ctx: &mut Ctx<B, I>,
    cpu: &mut Cpu,
) -> Result<End, Stop>
    requires { IsReady B.sight insn.now ctx.old cpu.old 10 36 }
    ensures { Finishes B.sight I.hits (div_row is_signed insn.now (cpu_of ctx.old)) ctx.old result cpu.new ctx.new }
{
    let size = size_by_opcode(insn, cpu);
    let high = high_word(insn, cpu, size);
    let word = read_register(insn, cpu, size, AX);
    let by = read_operand(insn, ctx, operand_of(insn, cpu), size)?;
    match div_at(is_signed, size, high, word, by) {
        None => Err(Stop::Fault(Fault::plain(DIVIDE_ERROR))),
        Some((quotient, remainder)) => {
            write_pair(insn, cpu, size, remainder, quotient);
            Ok(done(insn, cpu))
        }
    }
}
