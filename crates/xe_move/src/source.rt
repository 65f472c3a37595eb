//! Where an instruction takes a number from.
#![tactic(auto, using(xe_ctx::proofs::Trees::row_rules))]

ghost use Rattle.std.specs.Prelude.{IfSome, Ok};
ghost use Rattle.xe_ctx.specs.Contract.{ℕ, IsTrue, is_size, HasLeft, RunsWithin, cpu_of};
ghost use Rattle.xe_ctx.specs.Is.{Is};
ghost use Rattle.xe_ctx.specs.View.{view};
ghost use Rattle.xe_move.specs.Source.{read_source, IsSource};

use xe_ctx::operand::{Operand, read_at_once, read_operand};
use xe_ctx::{Bus, Ctx, Stop};
use xe_icpt::Intercepts;
use xe_opmap::Insn;

/// An immediate, or an operand.
#[derive(Clone, Copy, PartialEq, Eq, Debug)]
pub enum Source {
    Number(u64),
    Place(Operand),
}

/// Reads a source.
#[tactic(auto, using(xe_ctx::proofs::Trees::row_rules), unfolding(crate::specs::Source::read_source))]
#[inline(always)]
pub fn read_source<B: Bus, I: Intercepts>(
    insn: &Insn,
    ctx: &mut Ctx<B, I>,
    source: Source,
    size: u8,
) -> Result<u64, Stop>
    requires ready { HasLeft B.sight ctx.old 4 10 }
    requires size { IsTrue (is_size size) }
    requires register { IsSource source }
    ensures { RunsWithin B.sight I.hits (read_source insn.now (cpu_of ctx.old) source size) ctx.old result ctx.new 4 10 }
{
    match source {
        Source::Number(value) => Ok(value),
        Source::Place(operand) => read_operand(insn, ctx, operand, size),
    }
}

/// Reads a source, where that is done at once.
#[tactic(auto, using(xe_ctx::proofs::Trees::row_rules), unfolding(crate::specs::Source::read_source))]
#[inline(always)]
pub fn read_source_at_once<B: Bus, I: Intercepts>(
    insn: &Insn,
    ctx: &Ctx<B, I>,
    source: Source,
    size: u8,
) -> Option<u64>
    requires size { IsTrue (is_size size) }
    requires register { IsSource source }
    ensures { IfSome result (λ v. Is (read_source insn.now (cpu_of ctx.now) source size) (view B.sight I.hits ctx.now) (Ok v) (view B.sight I.hits ctx.now)) }
{
    match source {
        Source::Number(value) => Some(value),
        Source::Place(operand) => read_at_once(insn, ctx, operand, size),
    }
}
