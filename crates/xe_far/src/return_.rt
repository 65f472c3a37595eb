//! Far returns.
#![tactic(auto, using(xe_ctx::proofs::Trees::row_rules))]

ghost use Rattle.std.specs.Prelude.{◌≡◌, ◌<◌, ◌^◌};
ghost use Rattle.xe_ctx.specs.Contract.{HasLeft, IsReady, RunsWithin, DraftsWithin, Finishes, IsOf, cpu_of};
ghost use Rattle.xe_far.specs.Return.{real_return, return_on_stack, protected_return, extra_bytes, far_return, retf_row, is_nested_task, or_task_return, is_to_vm86, interrupt_return, iret_row};

use crate::code_segment::{code_to_return_to, or_raise};
use crate::outer::return_with_stack;
use crate::pointer::{FarPointer, pop_pointer};
use crate::transfer::{done, go_to, real_segment};
use xe_base::Cpu;
use xe_ctx::privilege::is_real;
use xe_ctx::stack::{release, stack_load};
use xe_ctx::{Bus, Ctx, End, Handoff, Stop};
use xe_desc::descriptor_table::mark_accessed;
use xe_flow::flags::flags_by_popf;
use xe_icpt::{Intercepts, Point};
use xe_opmap::Insn;
use xe_seg::accesses::protection_fault;
use xe_seg::loads::{loaded, rpl};
use xe_seg::{Descriptor, check_target};

/// A far return in real mode, which releases so many bytes of the stack.
#[tactic(auto, using(xe_ctx::proofs::Trees::row_rules), unfolding(crate::specs::Return::real_return))]
fn real_return<B: Bus, I: Intercepts>(
    ctx: &mut Ctx<B, I>,
    cpu: &mut Cpu,
    to: FarPointer,
    taken: u64,
) -> Result<(), Stop>
    requires { HasLeft B.sight ctx.old 0 0 }
    ensures { DraftsWithin B.sight I.hits (real_return cpu.old to taken) ctx.old result cpu.new ctx.new 0 0 }
{
    let cs = real_segment(&cpu.cs, to.sel);
    or_raise(ctx, check_target(cpu, &cpu.cs, to.offset))?;
    release(cpu, taken);
    go_to(cpu, cs, to.offset);
    Ok(())
}

/// A far return on the stack as it is, at the level of the code's RPL.
#[tactic(auto, using(xe_ctx::proofs::Trees::row_rules), unfolding(crate::specs::Return::return_on_stack))]
fn return_on_stack<B: Bus, I: Intercepts>(
    ctx: &mut Ctx<B, I>,
    cpu: &mut Cpu,
    to: FarPointer,
    desc: &Descriptor,
    taken: u64,
) -> Result<(), Stop>
    requires ready { HasLeft B.sight ctx.old 1 11 }
    requires draft { cpu.old ≡ cpu_of ctx.old }
    ensures { DraftsWithin B.sight I.hits (return_on_stack cpu.old to desc.now taken) ctx.old result cpu.new ctx.new 1 11 }
{
    let cs = loaded(to.sel, desc);
    or_raise(ctx, check_target(cpu, &cs, to.offset))?;
    mark_accessed(ctx, to.sel, desc)?;
    release(cpu, taken);
    go_to(cpu, cs, to.offset);
    cpu.cpl = rpl(to.sel);
    Ok(())
}

/// A far return outside real mode, with the bytes that were taken from the stack so far, and how many
/// further ones are released. The stack is loaded on the way to less privilege, or `always`.
#[tactic(auto, using(xe_ctx::proofs::Trees::row_rules), unfolding(crate::specs::Return::protected_return))]
fn protected_return<B: Bus, I: Intercepts>(
    insn: &Insn,
    ctx: &mut Ctx<B, I>,
    cpu: &mut Cpu,
    always: bool,
    to: FarPointer,
    taken: u64,
    extra: u64,
) -> Result<(), Stop>
    requires ready { HasLeft B.sight ctx.old 18 62 }
    requires insn { IsOf (cpu_of ctx.old) insn.now }
    requires draft { cpu.old ≡ cpu_of ctx.old }
    requires taken { taken < 2 ^ 16 }
    requires extra { extra < 2 ^ 16 }
    ensures { DraftsWithin B.sight I.hits (protected_return insn.now cpu.old always to taken extra) ctx.old result cpu.new ctx.new 18 62 }
{
    let desc = code_to_return_to(ctx, to.sel)?;
    if always || cpu.cpl < rpl(to.sel) {
        return_with_stack(insn, ctx, cpu, to, &desc, taken, extra)
    } else {
        return_on_stack(ctx, cpu, to, &desc, taken + extra)
    }
}

/// The bytes of the stack that RET releases besides, by its immediate word.
fn extra_bytes(insn: &Insn) -> u64
    ensures value { result ≡ extra_bytes insn.now }
    ensures small { result < 2 ^ 16 }
{
    insn.imm % (1 << 16)
}

/// RET after its loads.
#[tactic(auto, using(xe_ctx::proofs::Trees::row_rules), unfolding(crate::specs::Return::far_return))]
fn far_return<B: Bus, I: Intercepts>(
    insn: &Insn,
    ctx: &mut Ctx<B, I>,
    cpu: &mut Cpu,
    to: FarPointer,
) -> Result<(), Stop>
    requires ready { HasLeft B.sight ctx.old 18 62 }
    requires insn { IsOf (cpu_of ctx.old) insn.now }
    requires draft { cpu.old ≡ cpu_of ctx.old }
    ensures { DraftsWithin B.sight I.hits (far_return insn.now cpu.old to) ctx.old result cpu.new ctx.new 18 62 }
{
    let taken = 2 * insn.opsize as u64;
    let extra = extra_bytes(insn);
    if is_real(cpu) {
        real_return(ctx, cpu, to, taken + extra)
    } else {
        protected_return(insn, ctx, cpu, false, to, taken, extra)
    }
}

/// RET to a far pointer (SDM volume 2, "RET—Return From Procedure").
pub fn retf<B: Bus, I: Intercepts>(
    insn: &Insn,
    ctx: &mut Ctx<B, I>,
    cpu: &mut Cpu,
) -> Result<End, Stop>
    requires { IsReady B.sight insn.now ctx.old cpu.old 30 92 }
    ensures { Finishes B.sight I.hits (retf_row insn.now (cpu_of ctx.old)) ctx.old result cpu.new ctx.new }
{
    let to = pop_pointer(insn, ctx, 0)?;
    far_return(insn, ctx, cpu, to)?;
    Ok(done())
}

/// Whether the task was called from another, as NT says; never in real mode.
fn is_nested_task(cpu: &Cpu) -> bool
    ensures { result ≡ is_nested_task cpu.now }
{
    !is_real(cpu) && cpu.rflags >> 14 & 1 == 1
}

/// Goes on where the task wasn't called from another; else the return is #GP(0) where long mode is
/// active, and is handed to the caller where it isn't.
#[tactic(auto, using(xe_ctx::proofs::Trees::row_rules), unfolding(crate::specs::Return::or_task_return))]
fn or_task_return<B: Bus, I: Intercepts>(ctx: &mut Ctx<B, I>) -> Result<(), Stop>
    requires { HasLeft B.sight ctx.old 0 0 }
    ensures { RunsWithin B.sight I.hits (or_task_return (cpu_of ctx.old)) ctx.old result ctx.new 0 0 }
{
    let cpu = ctx.cpu();
    if !is_nested_task(cpu) {
        Ok(())
    } else if cpu.lma() {
        Err(Stop::Fault(protection_fault(cpu)))
    } else {
        Err(Stop::Handoff(Handoff::TaskReturn))
    }
}

/// Whether IRET goes to virtual-8086 mode: VM is set in four bytes of flags, at level 0, where long mode
/// isn't active.
fn is_to_vm86(insn: &Insn, cpu: &Cpu, flags: u64) -> bool
    ensures { result ≡ is_to_vm86 insn.now cpu.now flags }
{
    insn.opsize == 4 && !cpu.lma() && cpu.cpl == 0 && flags >> 17 & 1 == 1
}

/// IRET after its loads, but for the flags.
#[tactic(auto, using(xe_ctx::proofs::Trees::row_rules), unfolding(crate::specs::Return::interrupt_return))]
fn interrupt_return<B: Bus, I: Intercepts>(
    insn: &Insn,
    ctx: &mut Ctx<B, I>,
    cpu: &mut Cpu,
    to: FarPointer,
    flags: u64,
) -> Result<(), Stop>
    requires ready { HasLeft B.sight ctx.old 18 62 }
    requires insn { IsOf (cpu_of ctx.old) insn.now }
    requires draft { cpu.old ≡ cpu_of ctx.old }
    ensures { DraftsWithin B.sight I.hits (interrupt_return insn.now cpu.old to flags) ctx.old result cpu.new ctx.new 18 62 }
{
    let taken = 3 * insn.opsize as u64;
    if is_real(cpu) {
        real_return(ctx, cpu, to, taken)
    } else if is_to_vm86(insn, cpu, flags) {
        Err(Stop::Handoff(Handoff::Vm86(to.sel)))
    } else {
        let always = cpu.is_long();
        protected_return(insn, ctx, cpu, always, to, taken, 0)
    }
}

/// IRET, IRETD and IRETQ (SDM volume 2, "IRET/IRETD/IRETQ—Interrupt Return").
pub fn iret<B: Bus, I: Intercepts>(
    insn: &Insn,
    ctx: &mut Ctx<B, I>,
    cpu: &mut Cpu,
) -> Result<End, Stop>
    requires { IsReady B.sight insn.now ctx.old cpu.old 30 92 }
    ensures { Finishes B.sight I.hits (iret_row insn.now (cpu_of ctx.old)) ctx.old result cpu.new ctx.new }
{
    ctx.point(&Point::Iret)?;
    or_task_return(ctx)?;
    let to = pop_pointer(insn, ctx, 0)?;
    let flags = stack_load(ctx, cpu, 2 * insn.opsize as u64, insn.opsize)?;
    let new_flags = flags_by_popf(cpu, insn.opsize, flags);
    interrupt_return(insn, ctx, cpu, to, flags)?;
    cpu.rflags = new_flags;
    Ok(done())
}
