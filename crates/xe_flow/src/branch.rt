//! Near jumps, calls and returns.
#![tactic(auto, using(xe_ctx::proofs::Trees::row_rules))]

ghost use Rattle.std.specs.Prelude.{◌≡◌, IfSome, Ok, true};
ghost use Rattle.xe_ctx.specs.Contract.{ℕ, false, IsOf, HasLeft, IsReady, RunsWithin, Finishes, AtOnce, cpu_of};
ghost use Rattle.xe_ctx.specs.Is.{Is};
ghost use Rattle.xe_ctx.specs.View.{view};
ghost use Rattle.xe_flow.specs.Branch.{can_go_to, near, near_target, jump_if, jcc_row, destination, jmp_row, call_row, ret_row};

use xe_base::Cpu;
use xe_ctx::operand::{done, low_bytes, operand_of, read_at_once, read_operand};
use xe_ctx::stack::{push as push_number, push_at_once, release, stack_load, stack_load_at_once};
use xe_ctx::{Bus, Ctx, End, Stop};
use xe_flags::condition;
use xe_icpt::Intercepts;
use xe_opmap::Insn;
use xe_seg::check_target;

/// Goes on where code can at this offset of the code segment; else it is #GP(0).
#[tactic(auto, using(xe_ctx::proofs::Trees::row_rules), unfolding(crate::specs::Branch::can_go_to))]
fn can_go_to<B: Bus, I: Intercepts>(ctx: &mut Ctx<B, I>, offset: u64) -> Result<(), Stop>
    requires { HasLeft B.sight ctx.old 0 0 }
    ensures { RunsWithin B.sight I.hits (can_go_to (cpu_of ctx.old) offset) ctx.old result ctx.new 0 0 }
{
    let cpu = ctx.cpu();
    match check_target(cpu, &cpu.cs, offset) {
        Ok(()) => Ok(()),
        Err(fault) => Err(Stop::Fault(fault)),
    }
}

/// The low bytes of an offset, as many as the operand has.
#[inline(always)]
fn near(insn: &Insn, cpu: &Cpu, offset: u64) -> u64
    requires { IsOf cpu.now insn.now }
    ensures { result ≡ near insn.now offset }
{
    low_bytes(offset, insn.opsize)
}

/// Where a jump by an immediate goes.
#[tactic(auto, using(xe_ctx::proofs::Trees::row_rules, crate::proofs::Cuts::sum_cut))]
#[inline(always)]
fn near_target(insn: &Insn, cpu: &Cpu) -> u64
    requires { IsOf cpu.now insn.now }
    ensures { result ≡ near_target insn.now cpu.now }
{
    let next = cpu.next_rip(insn.len);
    near(insn, cpu, next.wrapping_add(insn.imm))
}

/// The instruction is done, and code goes on elsewhere.
fn jump(cpu: &mut Cpu, offset: u64) -> End
    ensures registers { cpu.new ≡ record cpu.old { rip = offset } }
    ensures plain { result ≡ record { more = false; retire = 0 } }
{
    cpu.rip = offset;
    End {
        more: false,
        retire: 0,
    }
}

/// The end of a jump by an immediate: where it is taken, code goes on at its target, once that is known
/// to be one; else the next instruction comes.
pub fn jump_if<B: Bus, I: Intercepts>(
    taken: bool,
    insn: &Insn,
    ctx: &mut Ctx<B, I>,
    cpu: &mut Cpu,
) -> Result<End, Stop>
    requires ready { HasLeft B.sight ctx.old 0 0 }
    requires insn { IsOf (cpu_of ctx.old) insn.now }
    ensures { Finishes B.sight I.hits (jump_if taken insn.now (cpu_of ctx.old) cpu.old) ctx.old result cpu.new ctx.new }
{
    if !taken {
        return Ok(done(insn, cpu));
    }
    let target = near_target(insn, ctx.cpu());
    can_go_to(ctx, target)?;
    Ok(jump(cpu, target))
}

/// Jcc (SDM volume 2, "Jcc—Jump if Condition Is Met").
pub fn jcc<B: Bus, I: Intercepts>(
    insn: &Insn,
    ctx: &mut Ctx<B, I>,
    cpu: &mut Cpu,
) -> Result<End, Stop>
    requires { IsReady B.sight insn.now ctx.old cpu.old 0 0 }
    ensures { Finishes B.sight I.hits (jcc_row insn.now (cpu_of ctx.old)) ctx.old result cpu.new ctx.new }
{
    let taken = condition((insn.opcode % 16) as u8, cpu.rflags);
    jump_if(taken, insn, ctx, cpu)
}

/// Where CALL and JMP go.
#[tactic(auto, using(xe_ctx::proofs::Trees::row_rules), unfolding(crate::specs::Branch::destination))]
fn destination<B: Bus, I: Intercepts>(insn: &Insn, ctx: &mut Ctx<B, I>) -> Result<u64, Stop>
    requires ready { HasLeft B.sight ctx.old 4 10 }
    requires insn { IsOf (cpu_of ctx.old) insn.now }
    ensures { RunsWithin B.sight I.hits (destination insn.now (cpu_of ctx.old)) ctx.old result ctx.new 4 10 }
{
    if insn.modrm.is_some() {
        let operand = operand_of(insn, ctx.cpu());
        read_operand(insn, ctx, operand, insn.opsize)
    } else {
        Ok(near_target(insn, ctx.cpu()))
    }
}

/// JMP (SDM volume 2, "JMP—Jump").
pub fn jmp<B: Bus, I: Intercepts>(
    insn: &Insn,
    ctx: &mut Ctx<B, I>,
    cpu: &mut Cpu,
) -> Result<End, Stop>
    requires { IsReady B.sight insn.now ctx.old cpu.old 8 28 }
    ensures { Finishes B.sight I.hits (jmp_row insn.now (cpu_of ctx.old)) ctx.old result cpu.new ctx.new }
{
    let offset = destination(insn, ctx)?;
    let target = near(insn, cpu, offset);
    can_go_to(ctx, target)?;
    Ok(jump(cpu, target))
}

/// CALL (SDM volume 2, "CALL—Call Procedure").
pub fn call<B: Bus, I: Intercepts>(
    insn: &Insn,
    ctx: &mut Ctx<B, I>,
    cpu: &mut Cpu,
) -> Result<End, Stop>
    requires { IsReady B.sight insn.now ctx.old cpu.old 8 28 }
    ensures { Finishes B.sight I.hits (call_row insn.now (cpu_of ctx.old)) ctx.old result cpu.new ctx.new }
{
    let offset = destination(insn, ctx)?;
    let target = near(insn, cpu, offset);
    let back = cpu.next_rip(insn.len);
    can_go_to(ctx, target)?;
    push_number(ctx, cpu, insn.opsize, back)?;
    Ok(jump(cpu, target))
}

/// RET (SDM volume 2, "RET—Return From Procedure").
pub fn ret<B: Bus, I: Intercepts>(
    insn: &Insn,
    ctx: &mut Ctx<B, I>,
    cpu: &mut Cpu,
) -> Result<End, Stop>
    requires { IsReady B.sight insn.now ctx.old cpu.old 8 28 }
    ensures { Finishes B.sight I.hits (ret_row insn.now (cpu_of ctx.old)) ctx.old result cpu.new ctx.new }
{
    let offset = stack_load(ctx, cpu, 0, insn.opsize)?;
    let target = near(insn, cpu, offset);
    can_go_to(ctx, target)?;
    release(cpu, insn.opsize as u64 + insn.imm % (1 << 16));
    Ok(jump(cpu, target))
}

/// Whether code can go on at this offset of the code segment, where it needs no exception to say so.
#[inline(always)]
#[tactic(auto, using(xe_ctx::proofs::Trees::row_rules), unfolding(crate::specs::Branch::can_go_to))]
fn can_go_at_once<B: Bus, I: Intercepts>(ctx: &Ctx<B, I>, offset: u64) -> bool
    ensures { result ≡ true → Is (can_go_to (cpu_of ctx.now) offset) (view B.sight I.hits ctx.now) (Ok tt) (view B.sight I.hits ctx.now) }
{
    let cpu = ctx.cpu();
    check_target(cpu, &cpu.cs, offset).is_ok()
}

/// Jcc, where it is done at once.
#[inline(always)]
pub(crate) fn jcc_at_once<B: Bus, I: Intercepts>(
    insn: &Insn,
    ctx: &mut Ctx<B, I>,
    cpu: &mut Cpu,
) -> bool
    requires { IsReady B.sight insn.now ctx.old cpu.old 0 0 }
    ensures { AtOnce B.sight I.hits (jcc_row insn.now (cpu_of ctx.old)) ctx.old cpu.old result ctx.new cpu.new }
{
    if !condition((insn.opcode % 16) as u8, cpu.rflags) {
        cpu.advance(insn.len);
        return true;
    }
    let target = near_target(insn, ctx.cpu());
    if !can_go_at_once(ctx, target) {
        return false;
    }
    cpu.rip = target;
    true
}

/// Where CALL and JMP go, where that is found at once.
#[inline(always)]
#[tactic(auto, using(xe_ctx::proofs::Trees::row_rules), unfolding(crate::specs::Branch::destination))]
fn destination_at_once<B: Bus, I: Intercepts>(insn: &Insn, ctx: &Ctx<B, I>) -> Option<u64>
    requires { IsOf (cpu_of ctx.now) insn.now }
    ensures { IfSome result (λ v. Is (destination insn.now (cpu_of ctx.now)) (view B.sight I.hits ctx.now) (Ok v) (view B.sight I.hits ctx.now)) }
{
    if insn.modrm.is_some() {
        let operand = operand_of(insn, ctx.cpu());
        read_at_once(insn, ctx, operand, insn.opsize)
    } else {
        Some(near_target(insn, ctx.cpu()))
    }
}

/// JMP, where it is done at once.
#[inline(always)]
pub(crate) fn jmp_at_once<B: Bus, I: Intercepts>(
    insn: &Insn,
    ctx: &mut Ctx<B, I>,
    cpu: &mut Cpu,
) -> bool
    requires { IsReady B.sight insn.now ctx.old cpu.old 8 28 }
    ensures { AtOnce B.sight I.hits (jmp_row insn.now (cpu_of ctx.old)) ctx.old cpu.old result ctx.new cpu.new }
{
    let Some(offset) = destination_at_once(insn, ctx) else {
        return false;
    };
    let target = near(insn, cpu, offset);
    if !can_go_at_once(ctx, target) {
        return false;
    }
    cpu.rip = target;
    true
}

/// CALL, where it is done at once.
#[inline(always)]
pub(crate) fn call_at_once<B: Bus, I: Intercepts>(
    insn: &Insn,
    ctx: &mut Ctx<B, I>,
    cpu: &mut Cpu,
) -> bool
    requires { IsReady B.sight insn.now ctx.old cpu.old 8 28 }
    ensures { AtOnce B.sight I.hits (call_row insn.now (cpu_of ctx.old)) ctx.old cpu.old result ctx.new cpu.new }
{
    let Some(offset) = destination_at_once(insn, ctx) else {
        return false;
    };
    let target = near(insn, cpu, offset);
    let next = cpu.next_rip(insn.len);
    if !can_go_at_once(ctx, target) {
        return false;
    }
    if !push_at_once(ctx, cpu, insn.opsize, next) {
        return false;
    }
    cpu.rip = target;
    true
}

/// RET, where it is done at once.
#[inline(always)]
pub(crate) fn ret_at_once<B: Bus, I: Intercepts>(
    insn: &Insn,
    ctx: &mut Ctx<B, I>,
    cpu: &mut Cpu,
) -> bool
    requires { IsReady B.sight insn.now ctx.old cpu.old 8 28 }
    ensures { AtOnce B.sight I.hits (ret_row insn.now (cpu_of ctx.old)) ctx.old cpu.old result ctx.new cpu.new }
{
    let Some(offset) = stack_load_at_once(ctx, cpu, 0, insn.opsize) else {
        return false;
    };
    let target = near(insn, cpu, offset);
    if !can_go_at_once(ctx, target) {
        return false;
    }
    release(cpu, insn.opsize as u64 + insn.imm % (1 << 16));
    cpu.rip = target;
    true
}
