//! What the tests of several crates share: devices of which each answers 0, and a small machine.
#![tactic(auto)]

ghost use Rattle.std.specs.Prelude.{◌≡◌, IfSome, IsSome};
ghost use Rattle.xe_base.specs.State.{Valid};
ghost use Rattle.xe_ctx.specs.Machine.{state_of};
ghost use Rattle.xe_testing.specs.Small.{small_state};

use std::alloc::Global;
use xe_base::{Access, Answer, Cpu};
use xe_ctx::{Bus, Machine, Reply};
use xe_mem::{GuestMem, Region};

/// Each device answers 0.
#[derive(Drop)]
pub struct Quiet;

impl Bus for Quiet {
    ghost use Rattle.std.specs.Prelude.{None};
    ghost use Rattle.xe_base.specs.declared.access.Answer.TheVariants.{Val};
    ghost use Rattle.xe_ctx.specs.declared.bus.Reply.TheVariants.{Ready};

    ghost sight = { λ _. record { tape = None; room = 0; spare = λ _. 0; unready = 0; faults = 0 } };

    #[tactic(auto, using(crate::proofs::ZeroLaws::zero_fits))]
    fn access(&mut self, _: Access) -> Reply
        ensures zero { result ≡ Ready (Val 0) }
    {
        Reply::Ready(Answer::Val(0))
    }
}

/// A machine with 64 KiB at address 0, where each byte of RAM is 0, and these registers. There is none
/// where they break a rule of a valid state, or where memory lacks.
pub fn machine(alloc: Global, cpu: Cpu) -> Option<Machine>
    ensures state { IfSome result (λ m. state_of m ≡ small_state cpu) }
    ensures valid { IsSome result → Valid cpu }
{
    let region = Region {
        start: 0,
        len: 1 << 16,
    };
    let mem = GuestMem::create(alloc, &[region]).ok()?;
    Machine::new(mem, cpu).ok()
}

#[cfg(test)]
mod tests;
