//! Privileged instructions (SDM volume 3, "Privileged Instructions"; volume 1, "I/O Privilege Level").
#![tactic(auto, using(crate::proofs::Trees::row_rules))]

ghost use Rattle.std.specs.Prelude.{◌≡◌, ◌<◌, ◌==◌, not, nat_lt};
ghost use Rattle.xe_base.specs.State.{mode_of};
ghost use Rattle.xe_ctx.specs.Contract.{HasLeft, RunsWithin, cpu_of};
ghost use Rattle.xe_ctx.specs.Privilege.{is_real_mode, iopl, or_protection, at_level_0, at_io_level};

use crate::bus::Bus;
use crate::ctx::Ctx;
use crate::stop::Stop;
use xe_base::{Cpu, Mode};
use xe_icpt::Intercepts;
use xe_seg::accesses::protection_fault;

/// Whether the processor is in real mode.
pub fn is_real(cpu: &Cpu) -> bool
    ensures { result ≡ is_real_mode (mode_of cpu.now) }
{
    match cpu.mode() {
        Mode::Real => true,
        Mode::Protected | Mode::Compat | Mode::Long => false,
    }
}

/// IOPL of the flags.
pub fn iopl(cpu: &Cpu) -> u8
    ensures value { result ≡ iopl cpu.now }
    ensures below { result < 4 }
{
    (cpu.rflags >> 12 & 3) as u8
}

/// Goes on where `holds`; else it is #GP(0).
#[tactic(auto, using(crate::proofs::Trees::row_rules), unfolding(crate::specs::Privilege::or_protection))]
pub fn or_protection<B: Bus, I: Intercepts>(ctx: &mut Ctx<B, I>, holds: bool) -> Result<(), Stop>
    requires { HasLeft B.sight ctx.old 0 0 }
    ensures { RunsWithin B.sight I.hits (or_protection (cpu_of ctx.old) holds) ctx.old result ctx.new 0 0 }
{
    if holds {
        Ok(())
    } else {
        Err(Stop::Fault(protection_fault(ctx.cpu())))
    }
}

/// Goes on at level 0; else it is #GP(0).
pub fn at_level_0<B: Bus, I: Intercepts>(ctx: &mut Ctx<B, I>) -> Result<(), Stop>
    requires { HasLeft B.sight ctx.old 0 0 }
    ensures { RunsWithin B.sight I.hits (at_level_0 (cpu_of ctx.old)) ctx.old result ctx.new 0 0 }
{
    let holds = ctx.cpu().cpl == 0;
    or_protection(ctx, holds)
}

/// Goes on at a level up to IOPL; else it is #GP(0).
pub fn at_io_level<B: Bus, I: Intercepts>(ctx: &mut Ctx<B, I>) -> Result<(), Stop>
    requires { HasLeft B.sight ctx.old 0 0 }
    ensures { RunsWithin B.sight I.hits (at_io_level (cpu_of ctx.old)) ctx.old result ctx.new 0 0 }
{
    let holds = !(iopl(ctx.cpu()) < ctx.cpu().cpl);
    or_protection(ctx, holds)
}
