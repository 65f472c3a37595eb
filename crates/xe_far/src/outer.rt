//! Far returns that load the stack, and what they leave of the data segments.
#![tactic(auto, using(xe_ctx::proofs::Trees::row_rules))]

ghost use Rattle.std.specs.Prelude.{◌≡◌, ◌<◌, ◌^◌};
ghost use Rattle.xe_ctx.specs.Contract.{HasLeft, RunsWithin, DraftsWithin, IsOf, cpu_of};
ghost use Rattle.xe_seg.specs.Loads.{load};
ghost use Rattle.xe_seg.specs.Targets.{target};
ghost use Rattle.xe_base.specs.declared.segment.SegName.TheVariants.{Ss};
ghost use Rattle.xe_far.specs.CodeSegment.{or_raise};
ghost use Rattle.xe_far.specs.Outer.{lands, stack_descriptor, is_lost, left_of, without_lost, with_data_left, with_stack, return_with_stack};

use crate::code_segment::or_raise;
use crate::pointer::{FarPointer, pop_pointer};
use xe_base::{Cpu, Seg, SegName};
use xe_ctx::stack::{set_stack_pointer, stack_above};
use xe_ctx::{Bus, Ctx, Stop};
use xe_desc::descriptor_table::{mark_accessed, read_descriptor};
use xe_icpt::Intercepts;
use xe_opmap::Insn;
use xe_seg::attributes::{is_conforming, is_present};
use xe_seg::loads::{is_null, loaded, null_segment, rpl};
use xe_seg::{Descriptor, check_load, check_target};

/// The registers with the code segment and the level that a return leads to.
fn lands(cpu: &Cpu, to: FarPointer, desc: &Descriptor) -> Cpu
    ensures { result ≡ lands cpu.now to desc.now }
{
    Cpu {
        cs: loaded(to.sel, desc),
        rip: to.offset,
        cpl: rpl(to.sel),
        ..*cpu
    }
}

/// The descriptor of SS; of a null selector, which has none, one of zeros.
#[tactic(auto, using(xe_ctx::proofs::Trees::row_rules), unfolding(crate::specs::Outer::stack_descriptor))]
fn stack_descriptor<B: Bus, I: Intercepts>(
    ctx: &mut Ctx<B, I>,
    sel: u16,
) -> Result<Descriptor, Stop>
    requires { HasLeft B.sight ctx.old 4 10 }
    ensures { RunsWithin B.sight I.hits (stack_descriptor (cpu_of ctx.old) sel) ctx.old result ctx.new 4 10 }
{
    if is_null(sel) {
        Ok(Descriptor { raw: 0 })
    } else {
        read_descriptor(ctx, sel)
    }
}

/// Whether a data segment is lost at a level: it is present, of more privilege, and data or
/// nonconforming code by its type alone.
fn is_lost(level: u8, seg: &Seg) -> bool
    ensures { result ≡ is_lost level seg.now }
{
    let dpl = (seg.attr >> 5 & 3) as u8;
    is_present(seg.attr) && dpl < level && !is_conforming(seg.attr)
}

/// What is left of a data segment at a level.
fn left_of(level: u8, seg: Seg) -> Seg
    ensures { result ≡ left_of level seg }
{
    if is_lost(level, &seg) {
        null_segment(0)
    } else {
        seg
    }
}

/// Takes the data segments away that are lost at the level.
fn drop_lost(cpu: &mut Cpu)
    ensures { cpu.new ≡ without_lost cpu.old }
{
    let level = cpu.cpl;
    cpu.es = left_of(level, cpu.es);
    cpu.ds = left_of(level, cpu.ds);
    cpu.fs = left_of(level, cpu.fs);
    cpu.gs = left_of(level, cpu.gs);
}

/// Takes them away after a return from a level of more privilege.
#[tactic(auto, unfolding(crate::specs::Outer::with_data_left))]
fn leave_data(old_level: u8, cpu: &mut Cpu)
    ensures { cpu.new ≡ with_data_left old_level cpu.old }
{
    if old_level < cpu.cpl {
        drop_lost(cpu);
    }
}

/// Sets the stack that was loaded: its pointer is written in the stack size of the new mode and SS, so
/// many bytes further up.
fn set_stack(cpu: &mut Cpu, ss: Seg, offset: u64, extra: u64)
    ensures { cpu.new ≡ with_stack cpu.old ss offset extra }
{
    cpu.ss = ss;
    let above = stack_above(cpu, offset, extra);
    set_stack_pointer(cpu, above);
}

/// SS at the level that a return leads to.
#[tactic(auto, using(xe_ctx::proofs::Trees::row_rules), unfolding(crate::specs::CodeSegment::or_raise))]
fn stack_segment<B: Bus, I: Intercepts>(
    ctx: &mut Ctx<B, I>,
    landed: &Cpu,
    sel: u16,
    desc: Descriptor,
) -> Result<Seg, Stop>
    requires { HasLeft B.sight ctx.old 0 0 }
    ensures { RunsWithin B.sight I.hits (or_raise (load landed.now Ss sel desc)) ctx.old result ctx.new 0 0 }
{
    match check_load(landed, SegName::Ss, sel, desc) {
        Ok(seg) => Ok(seg),
        Err(fault) => Err(Stop::Fault(fault)),
    }
}

/// Goes on where code can go on at the target, once its segment is loaded.
fn at_target<B: Bus, I: Intercepts>(ctx: &mut Ctx<B, I>, cs: &Seg, offset: u64) -> Result<(), Stop>
    requires { HasLeft B.sight ctx.old 0 0 }
    ensures { RunsWithin B.sight I.hits (or_raise (target (cpu_of ctx.old) cs.now offset)) ctx.old result ctx.new 0 0 }
{
    let check = check_target(ctx.cpu(), cs, offset);
    or_raise(ctx, check)
}

/// A far return that loads the stack, above the bytes that were taken so far and the further ones that
/// are released.
#[tactic(auto, using(xe_ctx::proofs::Trees::row_rules), unfolding(crate::specs::Outer::return_with_stack))]
pub fn return_with_stack<B: Bus, I: Intercepts>(
    insn: &Insn,
    ctx: &mut Ctx<B, I>,
    cpu: &mut Cpu,
    to: FarPointer,
    desc: &Descriptor,
    taken: u64,
    extra: u64,
) -> Result<(), Stop>
    requires ready { HasLeft B.sight ctx.old 14 52 }
    requires insn { IsOf (cpu_of ctx.old) insn.now }
    requires draft { cpu.old ≡ cpu_of ctx.old }
    requires taken { taken < 2 ^ 16 }
    requires extra { extra < 2 ^ 16 }
    ensures { DraftsWithin B.sight I.hits (return_with_stack insn.now cpu.old to desc.now taken extra) ctx.old result cpu.new ctx.new 14 52 }
{
    let stack = pop_pointer(insn, ctx, taken + extra)?;
    let stack_desc = stack_descriptor(ctx, stack.sel)?;
    let mut landed = lands(cpu, to, desc);
    let ss = stack_segment(ctx, &landed, stack.sel, stack_desc)?;
    at_target(ctx, &landed.cs, to.offset)?;
    mark_accessed(ctx, to.sel, desc)?;
    mark_accessed(ctx, stack.sel, &stack_desc)?;
    leave_data(cpu.cpl, &mut landed);
    set_stack(&mut landed, ss, stack.offset, extra);
    *cpu = landed;
    Ok(())
}
