//! The check of the place that a jump, a call or a return goes to.

ghost use Rattle.std.specs.Prelude.{◌≡◌};
ghost use Rattle.xe_seg.specs.Targets.{is_target, target};

use crate::accesses::protection_fault;
use xe_base::{Cpu, Fault, Seg};

/// Checks that code can go on at an offset once this code segment is loaded (the one that CS holds,
/// for a near jump): where the mode is then 64-bit mode the offset is canonical, elsewhere it is at
/// most the segment's limit; else #GP(0), and in real mode #GP without a code (SDM volume 2, "JMP").
#[tactic(auto, unfolding(crate::specs::Targets::target))]
pub fn check_target(cpu: &Cpu, cs: &Seg, offset: u64) -> Result<(), Fault>
    ensures { result ≡ target cpu.now cs.now offset }
{
    let holds = if cpu.lma() && cs.l() {
        cpu.is_canonical(offset)
    } else {
        offset <= cs.limit as u64
    };
    if holds {
        Ok(())
    } else {
        Err(protection_fault(cpu))
    }
}
