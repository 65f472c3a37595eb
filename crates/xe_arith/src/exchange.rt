//! Exchanges that compute or compare.
#![tactic(auto, using(xe_ctx::proofs::Trees::row_rules))]

ghost use Rattle.xe_base.specs.Exceptions.{plain_exception, exception, invalid_opcode, general_protection};
ghost use Rattle.std.specs.Prelude.{◌≡◌, ◌<◌, ◌*◌, ◌^◌, ◌%◌, ◌/◌, ◌==◌, ◌||◌};
ghost use Rattle.xe_ctx.specs.Contract.{ℕ, IsTrue, is_size, HasLeft, IsReady, Finishes, DraftsWithin, IsOperand, cpu_of};
ghost use Rattle.xe_ctx.specs.Operand.{reg_of};
ghost use Rattle.xe_arith.specs.Exchange.{xadd_row, put_back, compared, cmpxchg_row, half_size, joined, expected, replacement, pair_stored, pair_loaded, pair_row, long_base, is_misaligned, pair_at, cmpxchg8b_row};

use crate::sized::alu_at;
use xe_base::access::{GENERAL_PROTECTION, INVALID_OPCODE};
use xe_base::{Cpu, Fault, SegName};
use xe_ctx::operand::{
    AX, BX, CX, DX, Operand, done, operand_of, read_for_write, read_register, reg_of,
    size_by_opcode, write_operand, write_register,
};
use xe_ctx::{Bus, Ctx, End, Stop};
use xe_flags::{AluOp, with_zero};
use xe_icpt::Intercepts;
use xe_opmap::Insn;

/// XADD (SDM volume 2, "XADD—Exchange and Add").
pub fn xadd<B: Bus, I: Intercepts>(
    insn: &Insn,
    ctx: &mut Ctx<B, I>,
    cpu: &mut Cpu,
) -> Result<End, Stop>
    requires { IsReady B.sight insn.now ctx.old cpu.old 10 36 }
    ensures { Finishes B.sight I.hits (xadd_row insn.now (cpu_of ctx.old)) ctx.old result cpu.new ctx.new }
{
    let size = size_by_opcode(insn, cpu);
    let target = operand_of(insn, cpu);
    let register = reg_of(insn, cpu);
    let b = read_register(insn, cpu, size, register);
    let a = read_for_write(insn, ctx, target, size)?;
    let (sum, flags) = alu_at(AluOp::Add, size, a, b, cpu.rflags);
    cpu.rflags = flags;
    write_register(insn, cpu, size, register, a);
    write_operand(insn, ctx, cpu, target, size, sum)?;
    Ok(done(insn, cpu))
}

/// A number goes back to where it was read: memory is written, a register stays.
#[tactic(auto, using(xe_ctx::proofs::Trees::row_rules), unfolding(crate::specs::Exchange::put_back))]
fn put_back<B: Bus, I: Intercepts>(
    insn: &Insn,
    ctx: &mut Ctx<B, I>,
    cpu: &mut Cpu,
    operand: Operand,
    size: u8,
    value: u64,
) -> Result<(), Stop>
    requires ready { HasLeft B.sight ctx.old 4 18 }
    requires size { IsTrue (is_size size) }
    requires register { IsOperand operand }
    ensures { DraftsWithin B.sight I.hits (put_back insn.now cpu.old operand size value) ctx.old result cpu.new ctx.new 4 18 }
{
    match operand {
        Operand::Register(_) => Ok(()),
        Operand::Memory(..) => write_operand(insn, ctx, cpu, operand, size, value),
    }
}

/// CMPXCHG after the comparison: equal, E gets G; else the accumulator gets E, and E keeps its number.
#[tactic(auto, using(xe_ctx::proofs::Trees::row_rules), unfolding(crate::specs::Exchange::compared))]
fn compared<B: Bus, I: Intercepts>(
    insn: &Insn,
    ctx: &mut Ctx<B, I>,
    cpu: &mut Cpu,
    operand: Operand,
    size: u8,
    register: u8,
    value: u64,
) -> Result<(), Stop>
    requires ready { HasLeft B.sight ctx.old 4 18 }
    requires size { IsTrue (is_size size) }
    requires operand { IsOperand operand }
    requires g { register ≡ reg_of insn.now }
    requires index { register < 16 }
    ensures { DraftsWithin B.sight I.hits (compared insn.now cpu.old operand size value) ctx.old result cpu.new ctx.new 4 18 }
{
    if read_register(insn, cpu, size, AX) == value {
        let given = read_register(insn, cpu, size, register);
        write_operand(insn, ctx, cpu, operand, size, given)
    } else {
        write_register(insn, cpu, size, AX, value);
        put_back(insn, ctx, cpu, operand, size, value)
    }
}

/// CMPXCHG (SDM volume 2, "CMPXCHG—Compare and Exchange").
pub fn cmpxchg<B: Bus, I: Intercepts>(
    insn: &Insn,
    ctx: &mut Ctx<B, I>,
    cpu: &mut Cpu,
) -> Result<End, Stop>
    requires { IsReady B.sight insn.now ctx.old cpu.old 10 36 }
    ensures { Finishes B.sight I.hits (cmpxchg_row insn.now (cpu_of ctx.old)) ctx.old result cpu.new ctx.new }
{
    let size = size_by_opcode(insn, cpu);
    let target = operand_of(insn, cpu);
    let register = reg_of(insn, cpu);
    let a = read_register(insn, cpu, size, AX);
    let b = read_for_write(insn, ctx, target, size)?;
    let (_, flags) = alu_at(AluOp::Cmp, size, a, b, cpu.rflags);
    cpu.rflags = flags;
    compared(insn, ctx, cpu, target, size, register, b)?;
    Ok(done(insn, cpu))
}

/// The bytes of each half of CMPXCHG8B and CMPXCHG16B.
fn half_size(insn: &Insn) -> u8
    ensures value { result ≡ half_size insn.now }
    ensures size { IsTrue (result == 4 || result == 8) }
{
    if insn.opsize == 8 { 8 } else { 4 }
}

/// Two halves as one number.
fn joined(size: u8, high: u64, word: u64) -> u128
    requires { IsTrue (size == 4 || size == 8) }
    ensures value { result ≡ joined size high word }
    ensures fits { result < 2 ^ (8 * (2 * size)) }
{
    match size {
        4 => {
            let (high, word) = (high % (1 << 32), word % (1 << 32));
            high as u128 * (1 << 32) + word as u128
        }
        _ => high as u128 * (1 << 64) + word as u128,
    }
}

/// rDX:rAX.
fn expected(insn: &Insn, cpu: &Cpu) -> u128
    ensures value { result ≡ expected insn.now cpu.now }
{
    let half = half_size(insn);
    let high = read_register(insn, cpu, half, DX);
    joined(half, high, read_register(insn, cpu, half, AX))
}

/// rCX:rBX.
fn replacement(insn: &Insn, cpu: &Cpu) -> u128
    ensures value { result ≡ replacement insn.now cpu.now }
    ensures fits { result < 2 ^ (8 * (2 * half_size insn.now)) }
{
    let half = half_size(insn);
    let high = read_register(insn, cpu, half, CX);
    joined(half, high, read_register(insn, cpu, half, BX))
}

/// What is stored, where memory held this number.
fn pair_stored(insn: &Insn, cpu: &Cpu, old: u128) -> u128
    requires { old < 2 ^ (8 * (2 * half_size insn.now)) }
    ensures value { result ≡ pair_stored insn.now cpu.now old }
    ensures fits { result < 2 ^ (8 * (2 * half_size insn.now)) }
{
    if old == expected(insn, cpu) {
        replacement(insn, cpu)
    } else {
        old
    }
}

/// The lower and the higher half of a number.
fn halves(size: u8, value: u128) -> (u64, u64)
    requires size { IsTrue (size == 4 || size == 8) }
    requires fits { value < 2 ^ (8 * (2 * size)) }
    ensures low { result.0 ≡ value % 2 ^ (8 * size) }
    ensures high { result.1 ≡ value / 2 ^ (8 * size) }
{
    match size {
        4 => ((value % (1 << 32)) as u64, (value / (1 << 32)) as u64),
        _ => ((value % (1 << 64)) as u64, (value / (1 << 64)) as u64),
    }
}

/// Writes the registers: ZF says whether the numbers were equal; where they weren't, rDX:rAX gets
/// what memory holds.
fn load_pair(insn: &Insn, cpu: &mut Cpu, old: u128)
    requires { old < 2 ^ (8 * (2 * half_size insn.now)) }
    ensures { cpu.new ≡ pair_loaded insn.now cpu.old old }
{
    if old == expected(insn, cpu) {
        cpu.rflags = with_zero(cpu.rflags, true);
    } else {
        let half = half_size(insn);
        let (word, high) = halves(half, old);
        cpu.rflags = with_zero(cpu.rflags, false);
        write_register(insn, cpu, half, AX, word);
        write_register(insn, cpu, half, DX, high);
    }
}

/// The exchange of a pair with memory.
fn exchange_pair<B: Bus, I: Intercepts>(
    insn: &Insn,
    ctx: &mut Ctx<B, I>,
    cpu: &mut Cpu,
    segment: SegName,
    offset: u64,
) -> Result<End, Stop>
    requires { IsReady B.sight insn.now ctx.old cpu.old 10 36 }
    ensures { Finishes B.sight I.hits (pair_row insn.now (cpu_of ctx.old) segment offset) ctx.old result cpu.new ctx.new }
{
    let size = 2 * half_size(insn) as u32;
    let old = ctx.load_for_write(segment, offset, size)?;
    ctx.store(segment, offset, size, pair_stored(insn, cpu, old))?;
    load_pair(insn, cpu, old);
    Ok(done(insn, cpu))
}

/// The base of a segment in 64-bit code, where alone there are 16 bytes: FS and GS have one.
fn long_base(cpu: &Cpu, segment: SegName) -> u64
    ensures { result ≡ long_base cpu.now segment }
{
    match segment {
        SegName::Fs => cpu.fs.base,
        SegName::Gs => cpu.gs.base,
        SegName::Es | SegName::Cs | SegName::Ss | SegName::Ds => 0,
    }
}

/// Whether 16 bytes lie at no multiple of 16.
fn is_misaligned(insn: &Insn, cpu: &Cpu, segment: SegName, offset: u64) -> bool
    ensures { result ≡ is_misaligned insn.now cpu.now segment offset }
{
    insn.opsize == 8 && long_base(cpu, segment).wrapping_add(offset) % 16 != 0
}

/// CMPXCHG8B and CMPXCHG16B (SDM volume 2, "CMPXCHG8B/CMPXCHG16B—Compare and Exchange Bytes").
pub fn cmpxchg8b<B: Bus, I: Intercepts>(
    insn: &Insn,
    ctx: &mut Ctx<B, I>,
    cpu: &mut Cpu,
) -> Result<End, Stop>
    requires { IsReady B.sight insn.now ctx.old cpu.old 10 36 }
    ensures { Finishes B.sight I.hits (cmpxchg8b_row insn.now (cpu_of ctx.old)) ctx.old result cpu.new ctx.new }
{
    match operand_of(insn, cpu) {
        Operand::Register(_) => Err(Stop::Fault(Fault::plain(INVALID_OPCODE))),
        Operand::Memory(segment, offset) => {
            if is_misaligned(insn, cpu, segment, offset) {
                let fault = Fault::with_code(cpu.mode(), GENERAL_PROTECTION, 0);
                return Err(Stop::Fault(fault));
            }
            exchange_pair(insn, ctx, cpu, segment, offset)
        }
    }
}
