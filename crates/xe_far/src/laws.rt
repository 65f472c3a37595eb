//! Laws of the definitions, for the crates above.

ghost use Rattle.std.specs.Prelude.{◌≡◌, true};
ghost use Rattle.xe_base.specs.State.{Valid};
ghost use Rattle.xe_base.specs.declared.cpu.Cpu.{Cpu};
ghost use Rattle.xe_opmap.specs.declared.insn.Insn.{Insn};
ghost use Rattle.xe_ctx.specs.Bounds.{TakesAtMost};
ghost use Rattle.xe_ctx.specs.Finishes.{EachGives, IsSound};
ghost use Rattle.xe_ctx.specs.Operand.{IsOf};
ghost use Rattle.xe_far.specs.Change.{Transfers};
ghost use Rattle.xe_far.specs.Rows.{is_row, row_of};

/// A far transfer changes general registers, the instruction pointer, flags, segment registers and the
/// level alone, of the flags only those that an instruction may change, and never gains privilege,
/// whatever memory and devices answer. It is done at once, and its retirement brings nothing with it.
#[tactic(auto, using(crate::proofs::SoundRows::rows_transfer))]
pub fn rows_never_gain_privilege()
    ensures { (insn : Insn) → (cpu : Cpu) → is_row insn.row ≡ true → IsOf cpu insn → Valid cpu → EachGives (Transfers cpu) (row_of insn cpu) }
{}

/// From a valid state each far transfer finishes in a valid state, whatever memory and devices answer,
/// and its retirement brings with it less than the bit of a single step.
#[tactic(auto, using(crate::proofs::SoundRows::rows_sound))]
pub fn rows_keep_states_valid()
    ensures { (insn : Insn) → (cpu : Cpu) → is_row insn.row ≡ true → IsOf cpu insn → Valid cpu → EachGives IsSound (row_of insn cpu) }
{}

/// Whatever memory and devices answer, a far transfer asks for at most 64 things, makes at most 30
/// accesses, and touches at most 92 bytes of RAM.
#[tactic(auto, using(crate::proofs::BoundRows::rows_take_little))]
pub fn rows_take_little()
    ensures { (insn : Insn) → (cpu : Cpu) → IsOf cpu insn → TakesAtMost 64 30 92 (row_of insn cpu) }
{}
