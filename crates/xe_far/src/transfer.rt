//! Far calls and jumps.
#![tactic(auto, using(xe_ctx::proofs::Trees::row_rules))]

ghost use Rattle.std.specs.Prelude.{◌≡◌, false};
ghost use Rattle.xe_base.specs.Registers.{next_rip};
ghost use Rattle.xe_ctx.specs.Contract.{HasLeft, IsReady, DraftsWithin, Finishes, IsOf, cpu_of};
ghost use Rattle.xe_seg.specs.Loads.{real_segment};
ghost use Rattle.xe_far.specs.Transfer.{goes_to, ends_at, push_return, real_jump, protected_jump, jump, jmpf_row, real_call, protected_call, call, callf_row};

use crate::code_segment::{called_segment, code_to_call, or_raise};
use crate::pointer::{FarPointer, far_pointer};
use xe_base::{Cpu, Seg};
use xe_ctx::privilege::is_real;
use xe_ctx::stack::push;
use xe_ctx::{Bus, Ctx, End, Stop};
use xe_desc::descriptor_table::mark_accessed;
use xe_icpt::Intercepts;
use xe_opmap::Insn;
use xe_seg::check_target;

/// A segment register after a load in real mode: limit and attributes stay.
pub fn real_segment(old: &Seg, sel: u16) -> Seg
    ensures { result ≡ real_segment old.now sel }
{
    Seg {
        sel,
        base: sel as u64 * 16,
        ..*old
    }
}

/// Code goes on in this segment, at this offset.
pub fn go_to(cpu: &mut Cpu, cs: Seg, offset: u64)
    ensures { cpu.new ≡ goes_to cpu.old cs offset }
{
    cpu.cs = cs;
    cpu.rip = offset;
}

/// The instruction is done.
pub fn done() -> End
    ensures { result ≡ record { more = false; retire = 0 } }
{
    End {
        more: false,
        retire: 0,
    }
}

/// Pushes CS and then the next RIP.
#[tactic(auto, using(xe_ctx::proofs::Trees::row_rules), unfolding(crate::specs::Transfer::push_return))]
fn push_return<B: Bus, I: Intercepts>(
    insn: &Insn,
    ctx: &mut Ctx<B, I>,
    cpu: &mut Cpu,
) -> Result<(), Stop>
    requires ready { HasLeft B.sight ctx.old 8 36 }
    requires insn { IsOf (cpu_of ctx.old) insn.now }
    ensures { DraftsWithin B.sight I.hits (push_return insn.now cpu.old) ctx.old result cpu.new ctx.new 8 36 }
{
    let next = cpu.next_rip(insn.len);
    push(ctx, cpu, insn.opsize, cpu.cs.sel as u64)?;
    push(ctx, cpu, insn.opsize, next)
}

/// A far jump in real mode.
#[tactic(auto, using(xe_ctx::proofs::Trees::row_rules), unfolding(crate::specs::Transfer::real_jump))]
fn real_jump<B: Bus, I: Intercepts>(
    ctx: &mut Ctx<B, I>,
    cpu: &mut Cpu,
    to: FarPointer,
) -> Result<(), Stop>
    requires ready { HasLeft B.sight ctx.old 0 0 }
    ensures { DraftsWithin B.sight I.hits (real_jump cpu.old to) ctx.old result cpu.new ctx.new 0 0 }
{
    let cs = real_segment(&cpu.cs, to.sel);
    or_raise(ctx, check_target(cpu, &cpu.cs, to.offset))?;
    go_to(cpu, cs, to.offset);
    Ok(())
}

/// A far jump outside real mode.
#[tactic(auto, using(xe_ctx::proofs::Trees::row_rules), unfolding(crate::specs::Transfer::protected_jump))]
fn protected_jump<B: Bus, I: Intercepts>(
    ctx: &mut Ctx<B, I>,
    cpu: &mut Cpu,
    to: FarPointer,
) -> Result<(), Stop>
    requires ready { HasLeft B.sight ctx.old 5 21 }
    requires draft { cpu.old ≡ cpu_of ctx.old }
    ensures { DraftsWithin B.sight I.hits (protected_jump cpu.old to) ctx.old result cpu.new ctx.new 5 21 }
{
    let desc = code_to_call(ctx, to)?;
    let cs = called_segment(cpu, to.sel, &desc);
    mark_accessed(ctx, to.sel, &desc)?;
    go_to(cpu, cs, to.offset);
    Ok(())
}

/// A far jump.
#[tactic(auto, using(xe_ctx::proofs::Trees::row_rules), unfolding(crate::specs::Transfer::jump))]
fn jump<B: Bus, I: Intercepts>(
    ctx: &mut Ctx<B, I>,
    cpu: &mut Cpu,
    to: FarPointer,
) -> Result<(), Stop>
    requires ready { HasLeft B.sight ctx.old 5 21 }
    requires draft { cpu.old ≡ cpu_of ctx.old }
    ensures { DraftsWithin B.sight I.hits (jump cpu.old to) ctx.old result cpu.new ctx.new 5 21 }
{
    if is_real(cpu) {
        real_jump(ctx, cpu, to)
    } else {
        protected_jump(ctx, cpu, to)
    }
}

/// JMP to a far pointer (SDM volume 2, "JMP—Jump").
pub fn jmpf<B: Bus, I: Intercepts>(
    insn: &Insn,
    ctx: &mut Ctx<B, I>,
    cpu: &mut Cpu,
) -> Result<End, Stop>
    requires { IsReady B.sight insn.now ctx.old cpu.old 30 92 }
    ensures { Finishes B.sight I.hits (jmpf_row insn.now (cpu_of ctx.old)) ctx.old result cpu.new ctx.new }
{
    let to = far_pointer(insn, ctx)?;
    jump(ctx, cpu, to)?;
    Ok(done())
}

/// A far call in real mode.
#[tactic(auto, using(xe_ctx::proofs::Trees::row_rules), unfolding(crate::specs::Transfer::real_call))]
fn real_call<B: Bus, I: Intercepts>(
    insn: &Insn,
    ctx: &mut Ctx<B, I>,
    cpu: &mut Cpu,
    to: FarPointer,
) -> Result<(), Stop>
    requires ready { HasLeft B.sight ctx.old 8 36 }
    requires insn { IsOf (cpu_of ctx.old) insn.now }
    ensures { DraftsWithin B.sight I.hits (real_call insn.now cpu.old to) ctx.old result cpu.new ctx.new 8 36 }
{
    let cs = real_segment(&cpu.cs, to.sel);
    or_raise(ctx, check_target(cpu, &cpu.cs, to.offset))?;
    push_return(insn, ctx, cpu)?;
    go_to(cpu, cs, to.offset);
    Ok(())
}

/// A far call outside real mode: all checks, then the pushes on the stack as it is.
#[tactic(auto, using(xe_ctx::proofs::Trees::row_rules), unfolding(crate::specs::Transfer::protected_call))]
fn protected_call<B: Bus, I: Intercepts>(
    insn: &Insn,
    ctx: &mut Ctx<B, I>,
    cpu: &mut Cpu,
    to: FarPointer,
) -> Result<(), Stop>
    requires ready { HasLeft B.sight ctx.old 13 57 }
    requires insn { IsOf (cpu_of ctx.old) insn.now }
    requires draft { cpu.old ≡ cpu_of ctx.old }
    ensures { DraftsWithin B.sight I.hits (protected_call insn.now cpu.old to) ctx.old result cpu.new ctx.new 13 57 }
{
    let desc = code_to_call(ctx, to)?;
    let cs = called_segment(cpu, to.sel, &desc);
    push_return(insn, ctx, cpu)?;
    mark_accessed(ctx, to.sel, &desc)?;
    go_to(cpu, cs, to.offset);
    Ok(())
}

/// A far call.
#[tactic(auto, using(xe_ctx::proofs::Trees::row_rules), unfolding(crate::specs::Transfer::call))]
fn call<B: Bus, I: Intercepts>(
    insn: &Insn,
    ctx: &mut Ctx<B, I>,
    cpu: &mut Cpu,
    to: FarPointer,
) -> Result<(), Stop>
    requires ready { HasLeft B.sight ctx.old 13 57 }
    requires insn { IsOf (cpu_of ctx.old) insn.now }
    requires draft { cpu.old ≡ cpu_of ctx.old }
    ensures { DraftsWithin B.sight I.hits (call insn.now cpu.old to) ctx.old result cpu.new ctx.new 13 57 }
{
    if is_real(cpu) {
        real_call(insn, ctx, cpu, to)
    } else {
        protected_call(insn, ctx, cpu, to)
    }
}

/// CALL of a far pointer (SDM volume 2, "CALL—Call Procedure").
pub fn callf<B: Bus, I: Intercepts>(
    insn: &Insn,
    ctx: &mut Ctx<B, I>,
    cpu: &mut Cpu,
) -> Result<End, Stop>
    requires { IsReady B.sight insn.now ctx.old cpu.old 30 92 }
    ensures { Finishes B.sight I.hits (callf_row insn.now (cpu_of ctx.old)) ctx.old result cpu.new ctx.new }
{
    let to = far_pointer(insn, ctx)?;
    call(insn, ctx, cpu, to)?;
    Ok(done())
}
