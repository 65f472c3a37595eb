//! Laws of the definitions, for the crates above.

ghost use Rattle.std.specs.Prelude.{◌≡◌, true};
ghost use Rattle.xe_base.specs.State.{Valid};
ghost use Rattle.xe_base.specs.declared.cpu.Cpu.{Cpu};
ghost use Rattle.xe_opmap.specs.declared.insn.Insn.{Insn};
ghost use Rattle.xe_ctx.specs.Bounds.{TakesAtMost};
ghost use Rattle.xe_ctx.specs.Finishes.{EachGives, IsSound};
ghost use Rattle.xe_ctx.specs.Operand.{IsOf};
ghost use Rattle.xe_ctx.specs.Plain.{EndsPlainly};
ghost use Rattle.xe_move.specs.Rows.{is_row, row_of};

/// Each instruction of this crate's rows that finishes has changed general registers, the instruction
/// pointer and flags alone, and of the flags only those that an instruction may change, whatever memory
/// and devices answer. The next instruction is the one behind it, none of it is left to be done, and
/// its retirement brings nothing with it.
#[tactic(auto, using(crate::proofs::CalmRows::rows_plain))]
pub fn rows_change_states_calmly()
    ensures { (insn : Insn) → (cpu : Cpu) → is_row insn.row ≡ true → EachGives (EndsPlainly insn cpu) (row_of insn cpu) }
{}

/// From a valid state each instruction of this crate's rows finishes in a valid state, whatever memory
/// and devices answer, and its retirement brings with it less than the bit of a single step.
#[tactic(auto, using(crate::proofs::CalmRows::rows_sound))]
pub fn rows_keep_states_valid()
    ensures { (insn : Insn) → (cpu : Cpu) → is_row insn.row ≡ true → IsOf cpu insn → Valid cpu → EachGives IsSound (row_of insn cpu) }
{}

/// Whatever memory and devices answer, an instruction of this crate's rows asks for at most 64 things,
/// makes at most 10 accesses, and touches at most 36 bytes of RAM.
#[tactic(auto, using(crate::proofs::BoundRows::rows_take_little))]
pub fn rows_take_little()
    ensures { (insn : Insn) → (cpu : Cpu) → IsOf cpu insn → TakesAtMost 64 10 36 (row_of insn cpu) }
{}
