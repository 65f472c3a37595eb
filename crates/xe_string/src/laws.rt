//! Laws of the definitions, for the crates above.

ghost use Rattle.std.specs.Prelude.{◌≡◌, true, length};
ghost use Rattle.xe_base.specs.State.{Valid};
ghost use Rattle.xe_base.specs.declared.cpu.Cpu.{Cpu};
ghost use Rattle.xe_opmap.specs.declared.insn.Insn.{Insn};
ghost use Rattle.xe_ctx.specs.Bounds.{TakesAtMost};
ghost use Rattle.xe_ctx.specs.Finishes.{EachGives, IsSound};
ghost use Rattle.xe_ctx.specs.Operand.{IsOf};
ghost use Rattle.xe_string.specs.Repeat.{EndsElement, CountsDown};
ghost use Rattle.xe_string.specs.Rows.{is_row, row_of};

/// From a valid state each instruction of this crate's rows that finishes its step has changed general
/// registers, the instruction pointer and flags alone, and of the flags only those that an instruction
/// may change, whatever memory and devices answer. The next instruction is the one behind it, or itself
/// where a prefix repeats it and elements are left. Its retirement brings nothing with it.
#[tactic(auto, using(crate::proofs::CalmRows::rows_calm))]
pub fn rows_change_states_calmly()
    ensures { (insn : Insn) → (cpu : Cpu) → is_row insn.row ≡ true → Valid cpu → EachGives (EndsElement insn cpu) (row_of insn cpu) }
{}

/// From a valid state each instruction of this crate's rows finishes in a valid state, whatever memory
/// and devices answer, and its retirement brings with it less than the bit of a single step.
#[tactic(auto, using(crate::proofs::CalmRows::rows_sound))]
pub fn rows_keep_states_valid()
    ensures { (insn : Insn) → (cpu : Cpu) → is_row insn.row ≡ true → IsOf cpu insn → Valid cpu → EachGives IsSound (row_of insn cpu) }
{}

/// While a repeated instruction goes on, its count isn't 0, and is one less after each element, whatever
/// memory and devices answer.
#[tactic(auto, using(crate::proofs::CountRows::rows_count_down))]
pub fn rows_count_down()
    ensures { (insn : Insn) → (cpu : Cpu) → is_row insn.row ≡ true → IsOf cpu insn → length cpu.gpr ≡ 16 → EachGives (CountsDown insn cpu) (row_of insn cpu) }
{}

/// Whatever memory and devices answer, an instruction of this crate's rows asks for at most 64 things,
/// makes at most 9 accesses, and touches at most 48 bytes of RAM.
#[tactic(auto, using(crate::proofs::BoundRows::rows_take_little))]
pub fn rows_take_little()
    ensures { (insn : Insn) → (cpu : Cpu) → IsOf cpu insn → TakesAtMost 64 9 48 (row_of insn cpu) }
{}
