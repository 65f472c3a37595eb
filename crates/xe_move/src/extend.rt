//! Numbers made wider.
#![tactic(auto, using(xe_ctx::proofs::Trees::row_rules))]

ghost use Rattle.std.specs.Prelude.{◌≡◌, ◌/◌, ◌%◌, ◌^◌};
ghost use Rattle.xe_ctx.specs.Contract.{ℕ, IsTrue, is_size, IsOf, IsReady, Finishes, AtOnce, cpu_of};
ghost use Rattle.xe_base.specs.Words.{IsWidth, signed, wrapped};
ghost use Rattle.xe_move.specs.Extend.{sign_extended, cbw_row, sign_fill, cwd_row, is_movsxd, is_from_byte, narrow_size, movzx_row, movsx_row};

use xe_base::{Cpu, Word};
use xe_ctx::operand::{
    AX, DX, done, operand_of, read_at_once, read_operand, read_register, reg_of, write_register,
};
use xe_ctx::{Bus, Ctx, End, Stop};
use xe_icpt::Intercepts;
use xe_opmap::Insn;

fn sign_extended_in<const W: u32>(value: u64) -> u64
    requires { IsWidth W }
    ensures { result ≡ wrapped 64 (signed W (value % 2 ^ W)) }
{
    let word: Word<W> = Word::new(value);
    Word::<64>::wrapped(word.signed()).get()
}

/// The signed number in the low bytes, in 64 bits.
fn sign_extended(size: u8, value: u64) -> u64
    requires { IsTrue (is_size size) }
    ensures { result ≡ sign_extended size value }
{
    match size {
        1 => sign_extended_in::<8>(value),
        2 => sign_extended_in::<16>(value),
        4 => sign_extended_in::<32>(value),
        _ => sign_extended_in::<64>(value),
    }
}

/// Half the operand size.
fn half_size(insn: &Insn, cpu: &Cpu) -> u8
    requires { IsOf cpu.now insn.now }
    ensures value { result ≡ insn.now.opsize / 2 }
    ensures size { IsTrue (is_size result) }
{
    match insn.opsize {
        2 => 1,
        4 => 2,
        _ => 4,
    }
}

/// CBW, CWDE and CDQE (SDM volume 2, "CBW/CWDE/CDQE").
pub fn cbw<B: Bus, I: Intercepts>(
    insn: &Insn,
    ctx: &mut Ctx<B, I>,
    cpu: &mut Cpu,
) -> Result<End, Stop>
    requires { IsReady B.sight insn.now ctx.old cpu.old 0 0 }
    ensures { Finishes B.sight I.hits (cbw_row insn.now (cpu_of ctx.old)) ctx.old result cpu.new ctx.new }
{
    let half = half_size(insn, cpu);
    let value = sign_extended(half, read_register(insn, cpu, half, AX));
    write_register(insn, cpu, insn.opsize, AX, value);
    Ok(done(insn, cpu))
}

/// All ones where the number in the low bytes is negative, else 0.
fn sign_fill(size: u8, value: u64) -> u64
    requires { IsTrue (is_size size) }
    ensures { result ≡ sign_fill size value }
{
    let is_negative = match size {
        1 => Word::<8>::new(value).is_negative(),
        2 => Word::<16>::new(value).is_negative(),
        4 => Word::<32>::new(value).is_negative(),
        _ => Word::<64>::new(value).is_negative(),
    };
    if is_negative { u64::MAX } else { 0 }
}

/// CWD, CDQ and CQO (SDM volume 2, "CWD/CDQ/CQO").
pub fn cwd<B: Bus, I: Intercepts>(
    insn: &Insn,
    ctx: &mut Ctx<B, I>,
    cpu: &mut Cpu,
) -> Result<End, Stop>
    requires { IsReady B.sight insn.now ctx.old cpu.old 0 0 }
    ensures { Finishes B.sight I.hits (cwd_row insn.now (cpu_of ctx.old)) ctx.old result cpu.new ctx.new }
{
    let size = insn.opsize;
    let value = sign_fill(size, read_register(insn, cpu, size, AX));
    write_register(insn, cpu, size, DX, value);
    Ok(done(insn, cpu))
}

/// Whether this is MOVSXD: 63.
#[inline(always)]
fn is_movsxd(opcode: u16) -> bool
    ensures { result ≡ is_movsxd opcode }
{
    opcode == 0x63
}

/// Whether a byte is made wider, and not a word: 0F B6 and 0F BE.
#[inline(always)]
fn is_from_byte(opcode: u16) -> bool
    ensures { result ≡ is_from_byte opcode }
{
    opcode % 2 == 0
}

/// The size of the operand that is made wider.
#[inline(always)]
fn narrow_size(insn: &Insn) -> u8
    ensures value { result ≡ narrow_size insn.now }
    ensures size { IsTrue (is_size result) }
{
    if is_movsxd(insn.opcode) {
        if insn.opsize == 2 { 2 } else { 4 }
    } else if is_from_byte(insn.opcode) {
        1
    } else {
        2
    }
}

/// MOVZX (SDM volume 2, "MOVZX—Move With Zero-Extend").
pub fn movzx<B: Bus, I: Intercepts>(
    insn: &Insn,
    ctx: &mut Ctx<B, I>,
    cpu: &mut Cpu,
) -> Result<End, Stop>
    requires { IsReady B.sight insn.now ctx.old cpu.old 10 36 }
    ensures { Finishes B.sight I.hits (movzx_row insn.now (cpu_of ctx.old)) ctx.old result cpu.new ctx.new }
{
    let register = reg_of(insn, cpu);
    let value = read_operand(insn, ctx, operand_of(insn, cpu), narrow_size(insn))?;
    write_register(insn, cpu, insn.opsize, register, value);
    Ok(done(insn, cpu))
}

/// MOVSX and MOVSXD (SDM volume 2, "MOVSX/MOVSXD—Move With Sign-Extension").
pub fn movsx<B: Bus, I: Intercepts>(
    insn: &Insn,
    ctx: &mut Ctx<B, I>,
    cpu: &mut Cpu,
) -> Result<End, Stop>
    requires { IsReady B.sight insn.now ctx.old cpu.old 10 36 }
    ensures { Finishes B.sight I.hits (movsx_row insn.now (cpu_of ctx.old)) ctx.old result cpu.new ctx.new }
{
    let size = narrow_size(insn);
    let register = reg_of(insn, cpu);
    let value = read_operand(insn, ctx, operand_of(insn, cpu), size)?;
    let wide = sign_extended(size, value);
    write_register(insn, cpu, insn.opsize, register, wide);
    Ok(done(insn, cpu))
}

/// MOVZX, where it is done at once.
#[inline(always)]
pub(crate) fn movzx_at_once<B: Bus, I: Intercepts>(
    insn: &Insn,
    ctx: &mut Ctx<B, I>,
    cpu: &mut Cpu,
) -> bool
    requires { IsReady B.sight insn.now ctx.old cpu.old 10 36 }
    ensures { AtOnce B.sight I.hits (movzx_row insn.now (cpu_of ctx.old)) ctx.old cpu.old result ctx.new cpu.new }
{
    let register = reg_of(insn, cpu);
    let operand = operand_of(insn, cpu);
    let Some(value) = read_at_once(insn, ctx, operand, narrow_size(insn)) else {
        return false;
    };
    write_register(insn, cpu, insn.opsize, register, value);
    cpu.advance(insn.len);
    true
}

/// MOVSX and MOVSXD, where they are done at once.
#[inline(always)]
pub(crate) fn movsx_at_once<B: Bus, I: Intercepts>(
    insn: &Insn,
    ctx: &mut Ctx<B, I>,
    cpu: &mut Cpu,
) -> bool
    requires { IsReady B.sight insn.now ctx.old cpu.old 10 36 }
    ensures { AtOnce B.sight I.hits (movsx_row insn.now (cpu_of ctx.old)) ctx.old cpu.old result ctx.new cpu.new }
{
    let size = narrow_size(insn);
    let register = reg_of(insn, cpu);
    let operand = operand_of(insn, cpu);
    let Some(value) = read_at_once(insn, ctx, operand, size) else {
        return false;
    };
    let wide = sign_extended(size, value);
    write_register(insn, cpu, insn.opsize, register, wide);
    cpu.advance(insn.len);
    true
}
