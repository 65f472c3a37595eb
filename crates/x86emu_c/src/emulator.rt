//! What a machine of C's is.

ghost use Rattle.std.specs.Prelude.{◌≡◌};
ghost use Rattle.xe_ctx.specs.Machine.{state_of};

use crate::mailbox::Mailbox;
use xe_base::Cpu;
use xe_ctx::{Machine, Record, Report};
use xe_icpt::SvmSet;

/// What the pointer in C's struct stands for.
#[derive(Drop)]
pub struct Emulator {
    pub machine: Machine,
    /// The machine's registers, on which a run works: they aren't copied at each.
    pub draft: Cpu,
    /// What a suspended step keeps, with the access that awaits its answer.
    pub suspended: Record,
    pub intercepts: SvmSet,
    pub mailbox: Mailbox,
    /// Of the last run. It stays from run to run, since to make it anew would cost more than a step.
    pub report: Report,
    ghost drawn: { draft ≡ (state_of machine).cpu },
}
