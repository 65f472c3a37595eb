//! Laws of the definitions, for the crates above.

ghost use Rattle.std.specs.Prelude.{◌≡◌, ◌==◌, true, false};
ghost use Rattle.xe_base.specs.State.{Valid};
ghost use Rattle.xe_base.specs.declared.cpu.Cpu.{Cpu};
ghost use Rattle.xe_opmap.specs.declared.insn.Insn.{Insn};
ghost use Rattle.xe_ctx.specs.Bounds.{TakesAtMost};
ghost use Rattle.xe_ctx.specs.Finishes.{EachGives, IsSound};
ghost use Rattle.xe_ctx.specs.Operand.{IsOf};
ghost use Rattle.xe_sys.specs.Rows.{is_row, row_of, is_calm, EndsCalmly, is_privileged, IsRefused};

/// Each instruction that finishes of IN, OUT, HLT, PAUSE, SGDT, SIDT, SMSW, INVLPG, INVD, WBINVD, RDTSC, RDMSR and
/// CPUID has changed general registers, flags and the instruction pointer at most, whatever memory
/// and devices answer. The next instruction is the one behind it, none of it is left to be done, and the retirement
/// of HLT alone brings something with it, that the processor halts.
#[tactic(auto, using(crate::proofs::CalmRows::rows_calm))]
pub fn rows_change_states_calmly()
    ensures { (insn : Insn) → (cpu : Cpu) → is_calm insn.row ≡ true → EachGives (EndsCalmly insn.row insn cpu) (row_of insn cpu) }
{}

/// From a valid state each instruction of this crate's rows finishes in a valid state, whatever memory
/// and devices answer, and its retirement brings with it less than the bit of a single step.
#[tactic(auto, using(crate::proofs::SoundRows::rows_sound))]
pub fn rows_keep_states_valid()
    ensures { (insn : Insn) → (cpu : Cpu) → is_row insn.row ≡ true → IsOf cpu insn → Valid cpu → EachGives IsSound (row_of insn cpu) }
{}

/// Whatever memory and devices answer, an instruction of this crate's rows asks for at most 64 things,
/// makes at most 6 accesses, and touches at most 30 bytes of RAM.
#[tactic(auto, using(crate::proofs::BoundRows::rows_take_little))]
pub fn rows_take_little()
    ensures { (insn : Insn) → (cpu : Cpu) → IsOf cpu insn → TakesAtMost 64 6 30 (row_of insn cpu) }
{}

/// At a level other than 0 HLT, LGDT, LIDT, LMSW, INVLPG, SWAPGS, CLTS, INVD, WBINVD, MOV of control registers,
/// WRMSR and RDMSR never finish, and ask for nothing before they end: no intercept, no memory, no device.
#[tactic(auto, using(crate::proofs::LevelRows::rows_refused))]
pub fn privileged_rows_need_level_0()
    ensures { (insn : Insn) → (cpu : Cpu) → is_privileged insn.row ≡ true → (cpu.cpl == 0) ≡ false → IsRefused (row_of insn cpu) }
{}
