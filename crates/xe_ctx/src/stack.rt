//! The stack (SDM volume 1, "Stacks").
#![tactic(auto, using(crate::proofs::Trees::row_rules))]

ghost use Rattle.std.specs.Prelude.{◌≡◌, ◌<◌, ◌≤◌, ◌*◌, ◌%◌, ◌^◌, IfSome, Ok, true, false};
ghost use Rattle.xe_ctx.specs.Contract.{IsTrue, is_size, HasLeft, RunsWithin, DraftsWithin};
ghost use Rattle.xe_ctx.specs.Is.{Is};
ghost use Rattle.xe_ctx.specs.View.{view};
ghost use Rattle.xe_ctx.specs.Stack.{stack_size, stack_offset, stack_pointer, stack_above, stack_below, with_stack_pointer, released, stack_load, push};

use crate::bus::Bus;
use crate::ctx::Ctx;
use crate::operand::{cut, low_bytes};
use crate::stop::Stop;
use xe_base::{Cpu, SegName};
use xe_icpt::Intercepts;

/// RSP, or its part of the stack size, as a register's number.
pub const SP: u8 = 4;
/// RBP, or its part of the stack size.
pub const BP: u8 = 5;

/// The stack size in bytes: 8 in 64-bit mode, elsewhere 4 where DB of SS is 1, else 2.
pub fn stack_size(cpu: &Cpu) -> u8
    ensures value { result ≡ stack_size cpu.now }
    ensures size { IsTrue (is_size result) }
{
    if cpu.is_long() {
        8
    } else if cpu.ss.db() {
        4
    } else {
        2
    }
}

/// An offset in SS, cut to the stack size.
fn wrap(cpu: &Cpu, offset: u64) -> u64
    ensures { result ≡ offset % 2 ^ (8 * stack_size cpu.now) }
{
    match stack_size(cpu) {
        2 => offset % (1 << 16),
        4 => offset % (1 << 32),
        _ => offset,
    }
}

/// A register of the stack size, as an offset in SS.
pub fn stack_offset(cpu: &Cpu, register: u8) -> u64
    requires { register < 16 }
    ensures { result ≡ stack_offset cpu.now register }
{
    cpu.register(stack_size(cpu), true, register)
}

/// SP, ESP or RSP by the stack size.
pub fn stack_pointer(cpu: &Cpu) -> u64
    ensures { result ≡ stack_pointer cpu.now }
{
    stack_offset(cpu, SP)
}

/// So many bytes above an offset in SS.
pub fn stack_above(cpu: &Cpu, offset: u64, n: u64) -> u64
    ensures { result ≡ stack_above cpu.now offset n }
{
    wrap(cpu, offset.wrapping_add(n))
}

/// So many bytes below an offset in SS.
pub fn stack_below(cpu: &Cpu, offset: u64, n: u64) -> u64
    requires { n < 2 ^ 16 }
    ensures { result ≡ stack_below cpu.now offset n }
{
    wrap(cpu, offset.wrapping_sub(n))
}

/// Writes the stack pointer, of which as many bytes change as the stack size has.
#[tactic(auto, unfolding(crate::specs::Stack::with_stack_pointer))]
pub fn set_stack_pointer(cpu: &mut Cpu, offset: u64)
    ensures { cpu.new ≡ with_stack_pointer cpu.old offset }
{
    cpu.set_register(stack_size(cpu), true, SP, offset);
}

/// Releases `n` bytes of the stack.
pub fn release(cpu: &mut Cpu, n: u64)
    ensures { cpu.new ≡ released cpu.old n }
{
    let offset = stack_above(cpu, stack_pointer(cpu), n);
    set_stack_pointer(cpu, offset);
}

/// The number in `n` bytes of the stack, so many bytes above its top.
#[tactic(auto, using(crate::proofs::Trees::row_rules), unfolding(crate::specs::Stack::stack_load))]
pub fn stack_load<B: Bus, I: Intercepts>(
    ctx: &mut Ctx<B, I>,
    cpu: &Cpu,
    above: u64,
    n: u8,
) -> Result<u64, Stop>
    requires ready { HasLeft B.sight ctx.old 4 10 }
    requires size { IsTrue (is_size n) }
    ensures { RunsWithin B.sight I.hits (stack_load cpu.now above n) ctx.old result ctx.new 4 10 }
{
    let offset = stack_above(cpu, stack_pointer(cpu), above);
    let value = ctx.load(SegName::Ss, offset, n as u32)?;
    Ok(value as u64)
}

/// Pushes the low `n` bytes of a number.
#[tactic(auto, using(crate::proofs::Trees::row_rules), unfolding(crate::specs::Stack::push))]
pub fn push<B: Bus, I: Intercepts>(
    ctx: &mut Ctx<B, I>,
    cpu: &mut Cpu,
    n: u8,
    value: u64,
) -> Result<(), Stop>
    requires ready { HasLeft B.sight ctx.old 4 18 }
    requires size { IsTrue (is_size n) }
    ensures { DraftsWithin B.sight I.hits (push cpu.old n value) ctx.old result cpu.new ctx.new 4 18 }
{
    let offset = stack_below(cpu, stack_pointer(cpu), n as u64);
    ctx.store(SegName::Ss, offset, n as u32, cut(value, n))?;
    set_stack_pointer(cpu, offset);
    Ok(())
}

/// What [`stack_load`] reads, where that is done at once.
#[inline(always)]
#[tactic(auto, using(crate::proofs::Trees::row_rules), unfolding(crate::specs::Stack::stack_load))]
pub fn stack_load_at_once<B: Bus, I: Intercepts>(
    ctx: &Ctx<B, I>,
    cpu: &Cpu,
    above: u64,
    n: u8,
) -> Option<u64>
    requires { IsTrue (is_size n) }
    ensures { IfSome result (λ v. Is (stack_load cpu.now above n) (view B.sight I.hits ctx.now) (Ok v) (view B.sight I.hits ctx.now)) }
{
    let offset = stack_above(cpu, stack_pointer(cpu), above);
    ctx.load_at_once(SegName::Ss, offset, n)
}

/// Does what [`push`] does, where that is done at once, and says whether it did; else nothing changes.
#[inline(always)]
#[tactic(auto, using(crate::proofs::Trees::row_rules), unfolding(crate::specs::Stack::push))]
pub fn push_at_once<B: Bus, I: Intercepts>(
    ctx: &mut Ctx<B, I>,
    cpu: &mut Cpu,
    n: u8,
    value: u64,
) -> bool
    requires ready { HasLeft B.sight ctx.old 0 8 }
    requires size { IsTrue (is_size n) }
    ensures stays { result ≡ false → ctx.new ≡ ctx.old }
    ensures draft_stays { result ≡ false → cpu.new ≡ cpu.old }
    ensures done { result ≡ true → DraftsWithin B.sight I.hits (push cpu.old n value) ctx.old (Ok tt) cpu.new ctx.new 0 8 }
{
    let offset = stack_below(cpu, stack_pointer(cpu), n as u64);
    if !ctx.store_at_once(SegName::Ss, offset, n, low_bytes(value, n)) {
        return false;
    }
    set_stack_pointer(cpu, offset);
    true
}
