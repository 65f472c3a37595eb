//! Stack frames.
#![tactic(auto, using(xe_ctx::proofs::Trees::row_rules))]

ghost use Rattle.std.specs.Prelude.{◌≡◌, ◌<◌, ◌≤◌};
ghost use Rattle.xe_ctx.specs.Contract.{ℕ, IsTrue, is_size, HasLeft, IsReady, Finishes, DraftsWithin, cpu_of};
ghost use Rattle.xe_flow.specs.Frame.{nesting, frame_below, with_frame_pointer, copy_pointer, copy_pointers, nest, frame_end, enter_row, unwound, leave_row};

use xe_base::{Cpu, SegName};
use xe_ctx::operand::{done, read_register, write_register};
use xe_ctx::stack::{
    BP, SP, push as push_number, release, set_stack_pointer, stack_below, stack_load, stack_offset,
    stack_pointer, stack_size,
};
use xe_ctx::{Bus, Ctx, End, Stop};
use xe_icpt::Intercepts;
use xe_opmap::Insn;

/// The level of nesting of ENTER, at most 31.
fn nesting(insn: &Insn) -> u8
    ensures value { result ≡ nesting insn.now }
    ensures bound { result < 32 }
{
    (insn.imm2 % 32) as u8
}

/// So many bytes below the frame pointer.
fn frame_below(cpu: &Cpu, size: u8) -> u64
    ensures { result ≡ frame_below cpu.now size }
{
    stack_below(cpu, stack_offset(cpu, BP), size as u64)
}

/// Writes the frame pointer, of which as many bytes change as the stack size has.
fn set_frame_pointer(cpu: &mut Cpu, offset: u64)
    ensures { cpu.new ≡ with_frame_pointer cpu.old offset }
{
    cpu.set_register(stack_size(cpu), true, BP, offset);
}

/// The frame pointer goes down, and the number there is pushed.
#[tactic(auto, using(xe_ctx::proofs::Trees::row_rules), unfolding(crate::specs::Frame::copy_pointer))]
fn copy_pointer<B: Bus, I: Intercepts>(
    ctx: &mut Ctx<B, I>,
    cpu: &mut Cpu,
    size: u8,
) -> Result<(), Stop>
    requires ready { HasLeft B.sight ctx.old 8 28 }
    requires size { IsTrue (is_size size) }
    ensures { DraftsWithin B.sight I.hits (copy_pointer cpu.old size) ctx.old result cpu.new ctx.new 8 28 }
{
    let offset = frame_below(cpu, size);
    let value = ctx.load(SegName::Ss, offset, size as u32)?;
    set_frame_pointer(cpu, offset);
    push_number(ctx, cpu, size, value as u64)
}

/// The same, so many times.
#[tactic(auto, using(xe_ctx::proofs::Trees::row_rules, crate::proofs::Frames::copy_rules))]
fn copy_pointers<B: Bus, I: Intercepts>(
    ctx: &mut Ctx<B, I>,
    cpu: &mut Cpu,
    size: u8,
    count: u8,
) -> Result<(), Stop>
    requires ready { HasLeft B.sight ctx.old 240 840 }
    requires size { IsTrue (is_size size) }
    requires count { count ≤ 30 }
    ensures { DraftsWithin B.sight I.hits (copy_pointers size count cpu.old) ctx.old result cpu.new ctx.new 240 840 }
{
    'more: for _copied in 0..count {
        copy_pointer(ctx, cpu, size)?;
    }
    Ok(())
}

/// Pushes the pointers of the frames that enclose the new one, and then its own.
#[tactic(auto, using(xe_ctx::proofs::Trees::row_rules), unfolding(crate::specs::Frame::nest))]
fn nest<B: Bus, I: Intercepts>(
    ctx: &mut Ctx<B, I>,
    cpu: &mut Cpu,
    size: u8,
    level: u8,
    frame: u64,
) -> Result<(), Stop>
    requires ready { HasLeft B.sight ctx.old 244 858 }
    requires size { IsTrue (is_size size) }
    requires level { level < 32 }
    ensures { DraftsWithin B.sight I.hits (nest cpu.old size level frame) ctx.old result cpu.new ctx.new 244 858 }
{
    if level == 0 {
        return Ok(());
    }
    copy_pointers(ctx, cpu, size, level - 1)?;
    push_number(ctx, cpu, size, frame)
}

/// The stack pointer of the new frame.
fn frame_end(insn: &Insn, cpu: &Cpu) -> u64
    ensures { result ≡ frame_end insn.now cpu.now }
{
    stack_below(cpu, stack_pointer(cpu), insn.imm % (1 << 16))
}

/// ENTER (SDM volume 2, "ENTER—Make Stack Frame for Procedure Parameters").
pub fn enter<B: Bus, I: Intercepts>(
    insn: &Insn,
    ctx: &mut Ctx<B, I>,
    cpu: &mut Cpu,
) -> Result<End, Stop>
    requires { IsReady B.sight insn.now ctx.old cpu.old 248 886 }
    ensures { Finishes B.sight I.hits (enter_row insn.now (cpu_of ctx.old)) ctx.old result cpu.new ctx.new }
{
    let size = insn.opsize;
    let pointer = read_register(insn, cpu, size, BP);
    push_number(ctx, cpu, size, pointer)?;
    let frame = read_register(insn, cpu, size, SP);
    nest(ctx, cpu, size, nesting(insn), frame)?;
    write_register(insn, cpu, size, BP, frame);
    let end = frame_end(insn, cpu);
    ctx.probe(SegName::Ss, end, 1)?;
    set_stack_pointer(cpu, end);
    Ok(done(insn, cpu))
}

/// LEAVE (SDM volume 2, "LEAVE—High Level Procedure Exit").
pub fn leave<B: Bus, I: Intercepts>(
    insn: &Insn,
    ctx: &mut Ctx<B, I>,
    cpu: &mut Cpu,
) -> Result<End, Stop>
    requires { IsReady B.sight insn.now ctx.old cpu.old 8 28 }
    ensures { Finishes B.sight I.hits (leave_row insn.now (cpu_of ctx.old)) ctx.old result cpu.new ctx.new }
{
    let size = insn.opsize;
    let offset = stack_offset(cpu, BP);
    set_stack_pointer(cpu, offset);
    let value = stack_load(ctx, cpu, 0, size)?;
    release(cpu, size as u64);
    write_register(insn, cpu, size, BP, value);
    Ok(done(insn, cpu))
}
