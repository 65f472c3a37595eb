//! The instruction at CS:RIP.

ghost use Rattle.std.specs.Prelude.{◌≡◌, ◌≤◌, [], length, Ok, IfOk, IfSome};
ghost use Rattle.xe_ctx.specs.Fetch.{avail};
ghost use Rattle.xe_ctx.specs.Operand.{IsOf};
ghost use Rattle.xe_core.specs.Step.{outcome_of};
ghost use Rattle.xe_ctx.specs.View.{view, cpu_of, state_in, SameHandles, IsOpen, accesses_left, bytes_left, code_of};
ghost use Rattle.xe_core.specs.Emulate.{fetched};

use xe_base::{Fault, INVALID_OPCODE};
use xe_ctx::{Bus, Ctx, Diverged, Event, Outcome, Stop};
use xe_icpt::Intercepts;
use xe_opmap::{Decoded, Insn};

/// How a step that stopped ended, as a report tells it.
pub(crate) fn outcome_of(stop: Stop) -> Outcome
    ensures { result ≡ outcome_of stop }
{
    match stop {
        Stop::Pending(access) => Outcome::Pending(access),
        Stop::BusFault(access) => Outcome::BusFault(access),
        Stop::Diverged(Diverged { at, kept, wanted }) => Outcome::Diverged { at, kept, wanted },
        Stop::Fault(fault) => Outcome::Fault(fault),
        Stop::Intercept(exit) => Outcome::Intercept(exit),
        Stop::Event(Event { kind, vector, next }) => Outcome::Event { kind, vector, next },
        Stop::Handoff(handoff) => Outcome::Handoff(handoff),
    }
}

/// The instruction at CS:RIP, where it was decoded before: the same as [`instruction`] finds.
#[inline(always)]
#[tactic(auto, unfolding(crate::specs::Emulate::fetched))]
pub(crate) fn known_instruction<'c, B: Bus, I: Intercepts>(ctx: &'c Ctx<B, I>) -> Option<&'c Insn>
    ensures value { IfSome result (λ insn. Ok insn.now ≡ fetched (state_in ctx.now)) }
    ensures had { IfSome result (λ insn. insn.now.len ≤ length (avail (state_in ctx.now)).bytes) }
    ensures insn { IfSome result (λ insn. IsOf (cpu_of ctx.now) insn.now) }
{
    ctx.known()
}

/// The instruction at CS:RIP; or how the step ends without one: #UD for an invalid encoding,
/// Unhandled for one that the table doesn't have, and where bytes are missing that it needs, why the
/// first of them can't be had. Reading has no effect, so that bytes which the instruction turns out not
/// to need don't matter, nor why they can't be had.
#[tactic(auto, unfolding(crate::specs::Emulate::fetched))]
pub(crate) fn instruction<B: Bus, I: Intercepts>(ctx: &mut Ctx<B, I>) -> Result<Insn, Outcome>
    requires open { IsOpen B.sight ctx.old }
    requires none { code_of ctx.old ≡ [] }
    ensures value { result ≡ fetched (state_in ctx.old) }
    ensures had { IfOk result (λ insn. insn.len ≤ length (avail (state_in ctx.old)).bytes) }
    ensures insn { IfOk result (λ insn. IsOf (cpu_of ctx.old) insn) }
    ensures same { SameHandles ctx.old ctx.new }
    ensures open { IsOpen B.sight ctx.new }
    ensures step { view B.sight I.hits ctx.new ≡ view B.sight I.hits ctx.old }
    ensures accesses { accesses_left ctx.new ≡ accesses_left ctx.old }
    ensures bytes { bytes_left ctx.new ≡ bytes_left ctx.old }
{
    match ctx.decode() {
        Decoded::Insn(insn) => Ok(insn),
        Decoded::Invalid(_) => Err(Outcome::Fault(Fault::plain(INVALID_OPCODE))),
        Decoded::Outside => Err(Outcome::Unhandled),
        Decoded::More => Err(outcome_of(ctx.missing())),
    }
}
