//! The prefixes that repeat a string instruction.
#![tactic(auto, using(xe_ctx::proofs::Trees::row_rules))]

ghost use Rattle.std.specs.Prelude.{◌≡◌};
ghost use Rattle.xe_string.specs.Prefix.{is_repeated};

use xe_opmap::Insn;

/// REPNE.
const REPNE: u8 = 0xF2;
/// REP, which is REPE where elements are compared.
pub const REPE: u8 = 0xF3;

/// Whether a prefix repeats the instruction (SDM volume 2, "REP/REPE/REPZ/REPNE/REPNZ").
pub fn is_repeated(insn: &Insn) -> bool
    ensures { result ≡ is_repeated insn.now }
{
    insn.pre.rep == REPNE || insn.pre.rep == REPE
}
