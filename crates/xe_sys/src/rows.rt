//! The rows of this crate by their names.
#![tactic(auto, using(xe_ctx::proofs::Trees::row_rules))]

ghost use Rattle.xe_base.specs.State.{Valid};
ghost use Rattle.std.specs.Prelude.{◌≡◌};
ghost use Rattle.xe_ctx.specs.Contract.{ℕ, true, IfOk, IsOf, HasLeft, IsReady, Runs, Finishes, cpu_of};
ghost use Rattle.xe_ctx.specs.Finishes.{IsSound};
ghost use Rattle.xe_ctx.specs.Flow.{outcome};
ghost use Rattle.xe_ctx.specs.Runs.{finished};
ghost use Rattle.xe_sys.specs.Rows.{is_row, row_of};

use crate::control::{clts, lmsw, movcr, smsw};
use crate::cpuid::cpuid;
use crate::msr::{rdmsr, rdtsc, wrmsr};
use crate::plain::{hlt, invd, invlpg, pause, swapgs, wbinvd};
use crate::port::{input, output};
use crate::table::{DescriptorTable, load, store};
use xe_base::Cpu;
use xe_ctx::{Bus, Ctx, End, Flow, Stop};
use xe_icpt::Intercepts;
use xe_opmap::{Insn, Row};

/// Whether this crate has the row.
#[inline(always)]
pub fn is_row(row: Row) -> bool
    ensures { result ≡ is_row row }
{
    match row {
        Row::In => true,
        Row::Out => true,
        Row::Hlt => true,
        Row::Pause => true,
        Row::Sgdt => true,
        Row::Sidt => true,
        Row::Lgdt => true,
        Row::Lidt => true,
        Row::Smsw => true,
        Row::Lmsw => true,
        Row::Invlpg => true,
        Row::Swapgs => true,
        Row::Clts => true,
        Row::Invd => true,
        Row::Wbinvd => true,
        Row::Movcr => true,
        Row::Wrmsr => true,
        Row::Rdtsc => true,
        Row::Rdmsr => true,
        Row::Cpuid => true,
        _ => false,
    }
}

/// The work of an instruction of one of this crate's rows.
#[inline(always)]
fn run_row<B: Bus, I: Intercepts>(
    insn: &Insn,
    ctx: &mut Ctx<B, I>,
    cpu: &mut Cpu,
) -> Result<End, Stop>
    requires row { is_row insn.now.row ≡ true }
    requires ready { IsReady B.sight insn.now ctx.old cpu.old 6 30 }
    ensures { Finishes B.sight I.hits (row_of insn.now (cpu_of ctx.old)) ctx.old result cpu.new ctx.new }
{
    match insn.row {
        Row::In => input(insn, ctx, cpu),
        Row::Out => output(insn, ctx, cpu),
        Row::Hlt => hlt(insn, ctx, cpu),
        Row::Pause => pause(insn, ctx, cpu),
        Row::Sgdt => store(DescriptorTable::Global, insn, ctx, cpu),
        Row::Sidt => store(DescriptorTable::Interrupt, insn, ctx, cpu),
        Row::Lgdt => load(DescriptorTable::Global, insn, ctx, cpu),
        Row::Lidt => load(DescriptorTable::Interrupt, insn, ctx, cpu),
        Row::Smsw => smsw(insn, ctx, cpu),
        Row::Lmsw => lmsw(insn, ctx, cpu),
        Row::Invlpg => invlpg(insn, ctx, cpu),
        Row::Swapgs => swapgs(insn, ctx, cpu),
        Row::Clts => clts(insn, ctx, cpu),
        Row::Invd => invd(insn, ctx, cpu),
        Row::Wbinvd => wbinvd(insn, ctx, cpu),
        Row::Movcr => movcr(insn, ctx, cpu),
        Row::Wrmsr => wrmsr(insn, ctx, cpu),
        Row::Rdtsc => rdtsc(insn, ctx, cpu),
        Row::Rdmsr => rdmsr(insn, ctx, cpu),
        Row::Cpuid => cpuid(insn, ctx, cpu),
        _ => unreachable!(),
    }
}

/// Does an instruction of one of this crate's rows, as its definition says, with at most 6 accesses,
/// and at most 30 bytes of RAM touched. It works on a draft of the registers, which holds those of the
/// step when it begins, and is worth nothing where the instruction doesn't finish. Where it finishes,
/// it leaves a valid state.
#[tactic(auto, using(xe_ctx::proofs::Trees::row_rules, crate::proofs::SoundRows::finish_sound))]
#[inline]
pub fn exec_into<B: Bus, I: Intercepts>(
    insn: &Insn,
    ctx: &mut Ctx<B, I>,
    cpu: &mut Cpu,
) -> Result<End, Stop>
    requires row { is_row insn.now.row ≡ true }
    requires ready { IsReady B.sight insn.now ctx.old cpu.old 6 30 }
    ensures runs { Finishes B.sight I.hits (row_of insn.now (cpu_of ctx.old)) ctx.old result cpu.new ctx.new }
    ensures sound { Valid (cpu_of ctx.old) → IfOk (finished result cpu.new) IsSound }
{
    run_row(insn, ctx, cpu)
}

/// The same, with the registers in the answer.
pub fn exec<B: Bus, I: Intercepts>(insn: &Insn, ctx: &mut Ctx<B, I>) -> Flow
    requires row { is_row insn.now.row ≡ true }
    requires insn { IsOf (cpu_of ctx.old) insn.now }
    requires ready { HasLeft B.sight ctx.old 6 30 }
    ensures runs { Runs B.sight I.hits (row_of insn.now (cpu_of ctx.old)) ctx.old (outcome result) ctx.new }
    ensures sound { IfOk (outcome result) IsSound }
{
    let mut cpu = *ctx.cpu();
    match exec_into(insn, ctx, &mut cpu) {
        Ok(End { more, retire }) => Flow::Finish { cpu, more, retire },
        Err(stop) => Flow::Stopped(stop),
    }
}
