//! Rows that ask for little more than their intercept.
#![tactic(auto, using(xe_ctx::proofs::Trees::row_rules))]

ghost use Rattle.xe_base.specs.Exceptions.{plain_exception, invalid_opcode};
ghost use Rattle.std.specs.Prelude.{◌≡◌};
ghost use Rattle.xe_ctx.specs.Contract.{ℕ, IsReady, Finishes, cpu_of};
ghost use Rattle.xe_seg.specs.Accesses.{linear_address};
ghost use Rattle.xe_sys.specs.Plain.{hlt_row, pause_row, invd_row, wbinvd_row, invlpg_at, invlpg_row, with_gs_swapped, swapgs_row};

use xe_base::access::INVALID_OPCODE;
use xe_base::{Cpu, Fault, SegName};
use xe_ctx::operand::{Operand, done, operand_of};
use xe_ctx::privilege::{at_level_0, or_protection};
use xe_ctx::{Bus, Ctx, End, Stop};
use xe_icpt::{Intercepts, Point};
use xe_opmap::Insn;
use xe_seg::linear_address;

/// HLT (SDM volume 2, "HLT—Halt"): its retirement halts the processor.
pub fn hlt<B: Bus, I: Intercepts>(
    insn: &Insn,
    ctx: &mut Ctx<B, I>,
    cpu: &mut Cpu,
) -> Result<End, Stop>
    requires { IsReady B.sight insn.now ctx.old cpu.old 0 0 }
    ensures { Finishes B.sight I.hits (hlt_row insn.now (cpu_of ctx.old)) ctx.old result cpu.new ctx.new }
{
    at_level_0(ctx)?;
    ctx.point(&Point::Hlt)?;
    cpu.advance(insn.len);
    Ok(End {
        more: false,
        retire: 4,
    })
}

/// PAUSE (SDM volume 2, "PAUSE—Spin Loop Hint").
pub fn pause<B: Bus, I: Intercepts>(
    insn: &Insn,
    ctx: &mut Ctx<B, I>,
    cpu: &mut Cpu,
) -> Result<End, Stop>
    requires { IsReady B.sight insn.now ctx.old cpu.old 0 0 }
    ensures { Finishes B.sight I.hits (pause_row insn.now (cpu_of ctx.old)) ctx.old result cpu.new ctx.new }
{
    ctx.point(&Point::Pause)?;
    Ok(done(insn, cpu))
}

/// INVD (SDM volume 2, "INVD—Invalidate Internal Caches").
pub fn invd<B: Bus, I: Intercepts>(
    insn: &Insn,
    ctx: &mut Ctx<B, I>,
    cpu: &mut Cpu,
) -> Result<End, Stop>
    requires { IsReady B.sight insn.now ctx.old cpu.old 0 0 }
    ensures { Finishes B.sight I.hits (invd_row insn.now (cpu_of ctx.old)) ctx.old result cpu.new ctx.new }
{
    at_level_0(ctx)?;
    ctx.point(&Point::Invd)?;
    Ok(done(insn, cpu))
}

/// WBINVD (SDM volume 2, "WBINVD—Write Back and Invalidate Cache").
pub fn wbinvd<B: Bus, I: Intercepts>(
    insn: &Insn,
    ctx: &mut Ctx<B, I>,
    cpu: &mut Cpu,
) -> Result<End, Stop>
    requires { IsReady B.sight insn.now ctx.old cpu.old 0 0 }
    ensures { Finishes B.sight I.hits (wbinvd_row insn.now (cpu_of ctx.old)) ctx.old result cpu.new ctx.new }
{
    at_level_0(ctx)?;
    ctx.point(&Point::Wbinvd)?;
    Ok(done(insn, cpu))
}

/// INVLPG of an offset in memory. Nothing is accessed.
fn invalidate<B: Bus, I: Intercepts>(
    insn: &Insn,
    ctx: &mut Ctx<B, I>,
    cpu: &mut Cpu,
    segment: SegName,
    offset: u64,
) -> Result<End, Stop>
    requires { IsReady B.sight insn.now ctx.old cpu.old 0 0 }
    ensures { Finishes B.sight I.hits (invlpg_at insn.now (cpu_of ctx.old) (Operand.Memory segment offset)) ctx.old result cpu.new ctx.new }
{
    at_level_0(ctx)?;
    let la = linear_address(cpu, segment, offset);
    ctx.point(&Point::Invlpg { la })?;
    Ok(done(insn, cpu))
}

/// INVLPG (SDM volume 2, "INVLPG—Invalidate TLB Entries").
pub fn invlpg<B: Bus, I: Intercepts>(
    insn: &Insn,
    ctx: &mut Ctx<B, I>,
    cpu: &mut Cpu,
) -> Result<End, Stop>
    requires { IsReady B.sight insn.now ctx.old cpu.old 0 0 }
    ensures { Finishes B.sight I.hits (invlpg_row insn.now (cpu_of ctx.old)) ctx.old result cpu.new ctx.new }
{
    match operand_of(insn, cpu) {
        Operand::Register(_) => Err(Stop::Fault(Fault::plain(INVALID_OPCODE))),
        Operand::Memory(segment, offset) => invalidate(insn, ctx, cpu, segment, offset),
    }
}

/// SWAPGS (SDM volume 2, "SWAPGS—Swap GS Base Register").
pub fn swapgs<B: Bus, I: Intercepts>(
    insn: &Insn,
    ctx: &mut Ctx<B, I>,
    cpu: &mut Cpu,
) -> Result<End, Stop>
    requires { IsReady B.sight insn.now ctx.old cpu.old 0 0 }
    ensures { Finishes B.sight I.hits (swapgs_row insn.now (cpu_of ctx.old)) ctx.old result cpu.new ctx.new }
{
    or_protection(ctx, cpu.cpl == 0)?;
    let base = cpu.gs.base;
    cpu.gs.base = cpu.kgs;
    cpu.kgs = base;
    Ok(done(insn, cpu))
}
