//! The code segment that a far transfer leads to: its descriptor, and what is asked of it.
#![tactic(auto, using(xe_ctx::proofs::Trees::row_rules))]

ghost use Rattle.std.specs.Prelude.{◌≡◌, ◌<◌};
ghost use Rattle.xe_ctx.specs.Contract.{HasLeft, RunsWithin, cpu_of};
ghost use Rattle.xe_far.specs.CodeSegment.{or_raise, refused, code_descriptor, is_call_gate, is_task_gate, is_free_tss, or_hand_over, may_call, mixes_sizes, check_called, called_segment, code_to_call, may_run_at, check_returned, code_to_return_to};

use crate::pointer::FarPointer;
use xe_base::access::{GENERAL_PROTECTION, SEGMENT_NOT_PRESENT};
use xe_base::{Cpu, Fault, Seg};
use xe_ctx::{Bus, Ctx, Handoff, Stop};
use xe_desc::descriptor_table::read_descriptor;
use xe_icpt::Intercepts;
use xe_seg::accesses::protection_fault;
use xe_seg::attributes::{is_code, is_conforming};
use xe_seg::loads::{is_null, loaded, rpl, selector_fault};
use xe_seg::{Descriptor, check_target};

/// Goes on where a check passed; else raises its exception.
#[tactic(auto, using(xe_ctx::proofs::Trees::row_rules, crate::proofs::Raises::raise_passes), unfolding(crate::specs::CodeSegment::or_raise))]
pub fn or_raise<B: Bus, I: Intercepts>(
    ctx: &mut Ctx<B, I>,
    check: Result<(), Fault>,
) -> Result<(), Stop>
    requires { HasLeft B.sight ctx.old 0 0 }
    ensures { RunsWithin B.sight I.hits (or_raise check) ctx.old result ctx.new 0 0 }
{
    match check {
        Ok(()) => Ok(()),
        Err(fault) => Err(Stop::Fault(fault)),
    }
}

/// #GP with the selector as its code.
fn refused(cpu: &Cpu, sel: u16) -> Fault
    ensures { result ≡ refused cpu.now sel }
{
    selector_fault(cpu, GENERAL_PROTECTION, sel)
}

/// The descriptor of a code segment. A null selector is #GP(0), and one past its table #GP(selector).
#[tactic(auto, using(xe_ctx::proofs::Trees::row_rules), unfolding(crate::specs::CodeSegment::code_descriptor))]
fn code_descriptor<B: Bus, I: Intercepts>(ctx: &mut Ctx<B, I>, sel: u16) -> Result<Descriptor, Stop>
    requires { HasLeft B.sight ctx.old 4 10 }
    ensures { RunsWithin B.sight I.hits (code_descriptor (cpu_of ctx.old) sel) ctx.old result ctx.new 4 10 }
{
    if is_null(sel) {
        Err(Stop::Fault(protection_fault(ctx.cpu())))
    } else {
        read_descriptor(ctx, sel)
    }
}

/// Whether it is a call gate: type 12, and where long mode isn't active 4 too.
fn is_call_gate(cpu: &Cpu, desc: &Descriptor) -> bool
    ensures { result ≡ is_call_gate cpu.now desc.now }
{
    desc.kind() == 12 || (!cpu.lma() && desc.kind() == 4)
}

/// Whether it is a task gate: type 5, where long mode isn't active.
fn is_task_gate(cpu: &Cpu, desc: &Descriptor) -> bool
    ensures { result ≡ is_task_gate cpu.now desc.now }
{
    !cpu.lma() && desc.kind() == 5
}

/// Whether it is a TSS that isn't busy: type 1 or 9, where long mode isn't active.
fn is_free_tss(cpu: &Cpu, desc: &Descriptor) -> bool
    ensures { result ≡ is_free_tss cpu.now desc.now }
{
    !cpu.lma() && (desc.kind() == 1 || desc.kind() == 9)
}

/// Goes on with code and data. Gates and task states are handed to the caller with the whole selector,
/// and every other system descriptor is #GP(selector).
#[tactic(auto, using(xe_ctx::proofs::Trees::row_rules), unfolding(crate::specs::CodeSegment::or_hand_over))]
fn or_hand_over<B: Bus, I: Intercepts>(
    ctx: &mut Ctx<B, I>,
    sel: u16,
    desc: &Descriptor,
) -> Result<(), Stop>
    requires { HasLeft B.sight ctx.old 0 0 }
    ensures { RunsWithin B.sight I.hits (or_hand_over (cpu_of ctx.old) sel desc.now) ctx.old result ctx.new 0 0 }
{
    let cpu = ctx.cpu();
    if desc.s() {
        Ok(())
    } else if is_call_gate(cpu, desc) {
        Err(Stop::Handoff(Handoff::CallGate(sel)))
    } else if is_task_gate(cpu, desc) {
        Err(Stop::Handoff(Handoff::TaskGate(sel)))
    } else if is_free_tss(cpu, desc) {
        Err(Stop::Handoff(Handoff::Tss(sel)))
    } else {
        Err(Stop::Fault(refused(cpu, sel)))
    }
}

/// Whether the level, and the one that the selector asks for, may call the code: conforming code from
/// its own level and from those of less privilege, other code from its own.
fn may_call(cpu: &Cpu, sel: u16, desc: &Descriptor) -> bool
    ensures { result ≡ may_call cpu.now sel desc.now }
{
    if is_conforming(desc.attr()) {
        desc.dpl() <= cpu.cpl
    } else {
        rpl(sel) <= cpu.cpl && desc.dpl() == cpu.cpl
    }
}

/// Whether the code would be of 64 and of 32 bits at once, which long mode doesn't have.
fn mixes_sizes(cpu: &Cpu, desc: &Descriptor) -> bool
    ensures { result ≡ mixes_sizes cpu.now desc.now }
{
    cpu.lma() && desc.l() && desc.db()
}

/// Whether a far call or jump may go to a segment. The first check that fails decides.
fn check_called(cpu: &Cpu, sel: u16, desc: &Descriptor) -> Result<(), Fault>
    ensures { result ≡ check_called cpu.now sel desc.now }
{
    if !is_code(desc.attr()) {
        return Err(refused(cpu, sel));
    }
    if !may_call(cpu, sel, desc) {
        return Err(refused(cpu, sel));
    }
    if !desc.present() {
        return Err(selector_fault(cpu, SEGMENT_NOT_PRESENT, sel));
    }
    if mixes_sizes(cpu, desc) {
        return Err(refused(cpu, sel));
    }
    Ok(())
}

/// CS after a far call or jump: the RPL of its selector is CPL.
pub fn called_segment(cpu: &Cpu, sel: u16, desc: &Descriptor) -> Seg
    ensures { result ≡ called_segment cpu.now sel desc.now }
{
    loaded(sel - sel % 4 + (cpu.cpl % 4) as u16, desc)
}

/// The descriptor of the code that a far pointer leads to, after all checks of a far call or jump
/// outside real mode.
#[tactic(auto, using(xe_ctx::proofs::Trees::row_rules), unfolding(crate::specs::CodeSegment::code_to_call))]
pub fn code_to_call<B: Bus, I: Intercepts>(
    ctx: &mut Ctx<B, I>,
    to: FarPointer,
) -> Result<Descriptor, Stop>
    requires { HasLeft B.sight ctx.old 4 10 }
    ensures { RunsWithin B.sight I.hits (code_to_call (cpu_of ctx.old) to) ctx.old result ctx.new 4 10 }
{
    let desc = code_descriptor(ctx, to.sel)?;
    or_hand_over(ctx, to.sel, &desc)?;
    let check = check_called(ctx.cpu(), to.sel, &desc);
    or_raise(ctx, check)?;
    let cs = called_segment(ctx.cpu(), to.sel, &desc);
    let check = check_target(ctx.cpu(), &cs, to.offset);
    or_raise(ctx, check)?;
    Ok(desc)
}

/// Whether code may run at a level: conforming code at its own and at those of less privilege, other
/// code at its own.
fn may_run_at(level: u8, desc: &Descriptor) -> bool
    ensures { result ≡ may_run_at level desc.now }
{
    if is_conforming(desc.attr()) {
        desc.dpl() <= level
    } else {
        desc.dpl() == level
    }
}

/// Whether a far return may go to a segment, at the level of its RPL. The first check that fails decides.
fn check_returned(cpu: &Cpu, sel: u16, desc: &Descriptor) -> Result<(), Fault>
    ensures { result ≡ check_returned cpu.now sel desc.now }
{
    if !desc.s() || !is_code(desc.attr()) {
        return Err(refused(cpu, sel));
    }
    if rpl(sel) < cpu.cpl {
        return Err(refused(cpu, sel));
    }
    if !may_run_at(rpl(sel), desc) {
        return Err(refused(cpu, sel));
    }
    if !desc.present() {
        return Err(selector_fault(cpu, SEGMENT_NOT_PRESENT, sel));
    }
    if mixes_sizes(cpu, desc) {
        return Err(refused(cpu, sel));
    }
    Ok(())
}

/// The descriptor of the code that a far return goes to, after all checks but that of the target.
#[tactic(auto, using(xe_ctx::proofs::Trees::row_rules), unfolding(crate::specs::CodeSegment::code_to_return_to))]
pub fn code_to_return_to<B: Bus, I: Intercepts>(
    ctx: &mut Ctx<B, I>,
    sel: u16,
) -> Result<Descriptor, Stop>
    requires { HasLeft B.sight ctx.old 4 10 }
    ensures { RunsWithin B.sight I.hits (code_to_return_to (cpu_of ctx.old) sel) ctx.old result ctx.new 4 10 }
{
    let desc = code_descriptor(ctx, sel)?;
    let check = check_returned(ctx.cpu(), sel, &desc);
    or_raise(ctx, check)?;
    Ok(desc)
}
