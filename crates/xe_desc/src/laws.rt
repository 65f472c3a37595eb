//! Laws of the definitions, for the crates above.

ghost use Rattle.std.specs.Prelude.{◌≡◌, ℕ, true};
ghost use Rattle.xe_base.specs.State.{Valid};
ghost use Rattle.xe_base.specs.declared.cpu.Cpu.{Cpu};
ghost use Rattle.xe_opmap.specs.declared.insn.Insn.{Insn};
ghost use Rattle.xe_seg.specs.declared.descriptor.Descriptor.{Descriptor};
ghost use Rattle.xe_ctx.specs.Bounds.{TakesAtMost};
ghost use Rattle.xe_ctx.specs.Finishes.{EachGives, IsSound};
ghost use Rattle.xe_ctx.specs.Operand.{IsOf};
ghost use Rattle.xe_ctx.specs.Plain.{EndsPlainly};
ghost use Rattle.xe_desc.specs.DescriptorTable.{read_descriptor, mark_accessed};
ghost use Rattle.xe_desc.specs.Loaded.{EndsByLoad};
ghost use Rattle.xe_desc.specs.Rows.{is_row, is_calm_row, row_of};

/// The reading of a descriptor asks once for 8 bytes, and the accessed bit is at most one byte more.
#[tactic(auto, using(crate::proofs::TableBounds::takes_read, crate::proofs::TableBounds::takes_mark))]
pub fn descriptors_take_little()
    ensures read { (cpu : Cpu) → (sel : ℕ) → TakesAtMost 1 4 10 (read_descriptor cpu sel) }
    ensures mark { (cpu : Cpu) → (sel : ℕ) → (d : Descriptor) → TakesAtMost 1 1 11 (mark_accessed cpu sel d) }
{}

/// Each instruction of the rows that load nothing (SLDT, STR, LAR, LSL, VERR, VERW and ARPL) that finishes has
/// changed general registers, the instruction pointer and flags alone, and of the flags only those that an
/// instruction may change, whatever memory answers. The next instruction is the one behind it, none of
/// it is left to be done, and its retirement brings nothing with it.
#[tactic(auto, using(crate::proofs::CalmRows::rows_plain))]
pub fn queries_change_states_calmly()
    ensures { (insn : Insn) → (cpu : Cpu) → is_calm_row insn.row ≡ true → EachGives (EndsPlainly insn cpu) (row_of insn cpu) }
{}

/// Each instruction of this crate's rows that finishes has changed, beside these, at most ES, SS, DS, FS,
/// GS, LDTR and TR: CS, the privilege level, the control registers and the table registers stay.
#[tactic(auto, using(crate::proofs::CalmRows::rows_load))]
pub fn rows_change_segments_at_most()
    ensures { (insn : Insn) → (cpu : Cpu) → Valid cpu → EachGives (EndsByLoad insn cpu) (row_of insn cpu) }
{}

/// From a valid state each instruction of this crate's rows finishes in a valid state, whatever memory
/// answers, and its retirement brings with it less than the bit of a single step.
#[tactic(auto, using(crate::proofs::CalmRows::rows_sound))]
pub fn rows_keep_states_valid()
    ensures { (insn : Insn) → (cpu : Cpu) → is_row insn.row ≡ true → IsOf cpu insn → Valid cpu → EachGives IsSound (row_of insn cpu) }
{}

/// Whatever memory answers, an instruction of this crate's rows asks for at most 64 things, makes at most
/// 12 accesses, and touches at most 42 bytes of RAM.
#[tactic(auto, using(crate::proofs::BoundRows::rows_take_little))]
pub fn rows_take_little()
    ensures { (insn : Insn) → (cpu : Cpu) → IsOf cpu insn → TakesAtMost 64 12 42 (row_of insn cpu) }
{}
