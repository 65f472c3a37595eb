//! Software interrupts.
#![tactic(auto, using(xe_ctx::proofs::Trees::row_rules))]

ghost use Rattle.std.specs.Prelude.{◌≡◌};
ghost use Rattle.xe_base.specs.Registers.{next_rip};
ghost use Rattle.xe_ctx.specs.Contract.{ℕ, IsReady, Finishes, cpu_of};
ghost use Rattle.xe_flow.specs.Interrupt.{int3_row, int_row, into_row};

use xe_base::Cpu;
use xe_ctx::operand::done;
use xe_ctx::{Bus, Ctx, End, Event, EventKind, Stop};
use xe_flags::status_of;
use xe_icpt::{Intercepts, Point};
use xe_opmap::Insn;

/// #BP, of INT3.
const BREAKPOINT: u8 = 3;
/// #OF, of INTO.
const OVERFLOW: u8 = 4;

/// INT3 (SDM volume 2, "INT n/INTO/INT3/INT1—Call to Interrupt Procedure").
pub fn int3<B: Bus, I: Intercepts>(
    insn: &Insn,
    ctx: &mut Ctx<B, I>,
    cpu: &mut Cpu,
) -> Result<End, Stop>
    requires { IsReady B.sight insn.now ctx.old cpu.old 0 0 }
    ensures { Finishes B.sight I.hits (int3_row insn.now (cpu_of ctx.old)) ctx.old result cpu.new ctx.new }
{
    let _ = ctx;
    Err(Stop::Event(Event {
        kind: EventKind::Int3,
        vector: BREAKPOINT,
        next: cpu.next_rip(insn.len),
    }))
}

/// INT n.
pub fn int<B: Bus, I: Intercepts>(
    insn: &Insn,
    ctx: &mut Ctx<B, I>,
    cpu: &mut Cpu,
) -> Result<End, Stop>
    requires { IsReady B.sight insn.now ctx.old cpu.old 0 0 }
    ensures { Finishes B.sight I.hits (int_row insn.now (cpu_of ctx.old)) ctx.old result cpu.new ctx.new }
{
    let vector = (insn.imm % (1 << 8)) as u8;
    ctx.point(&Point::Swint { vector })?;
    Err(Stop::Event(Event {
        kind: EventKind::Int,
        vector,
        next: cpu.next_rip(insn.len),
    }))
}

/// INTO: an interrupt where OF is set.
pub fn into<B: Bus, I: Intercepts>(
    insn: &Insn,
    ctx: &mut Ctx<B, I>,
    cpu: &mut Cpu,
) -> Result<End, Stop>
    requires { IsReady B.sight insn.now ctx.old cpu.old 0 0 }
    ensures { Finishes B.sight I.hits (into_row insn.now (cpu_of ctx.old)) ctx.old result cpu.new ctx.new }
{
    let _ = ctx;
    if status_of(cpu.rflags).overflow {
        return Err(Stop::Event(Event {
            kind: EventKind::Into,
            vector: OVERFLOW,
            next: cpu.next_rip(insn.len),
        }));
    }
    Ok(done(insn, cpu))
}
