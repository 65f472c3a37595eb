//! Laws of the definitions. Each is the contract of a function that has nothing to do.

ghost use Rattle.std.specs.Prelude.{◌≡◌};
ghost use Rattle.xe_base.specs.State.{Valid};
ghost use Rattle.xe_base.specs.declared.cpu.Cpu.{Cpu};
ghost use Rattle.xe_ctx.specs.Bounds.{TakesAtMost};
ghost use Rattle.xe_ctx.specs.Finishes.{EachGives, IsSound};
ghost use Rattle.xe_ctx.specs.Operand.{IsOf};
ghost use Rattle.xe_core.specs.Rows.{table, owners, how_many};
ghost use Rattle.xe_core.specs.Turn.{Steps, TurnsJoin};
ghost use Rattle.xe_core.specs.Worked.{WorkedSteps};
ghost use Rattle.xe_opmap.specs.declared.insn.Insn.{Insn};
ghost use Rattle.xe_opmap.specs.declared.row.Row.{Row};

/// Each row of the instruction table is defined by exactly one crate.
#[tactic(auto, using(crate::proofs::RowLaws::one_owner))]
pub fn each_row_is_defined()
    ensures { (row : Row) → how_many (owners row) ≡ 1 }
{}

/// Whatever memory and devices answer, an instruction finishes with registers in a valid state, where
/// it began with such.
#[tactic(auto, using(crate::proofs::RowLaws::sound_table))]
pub fn rows_keep_the_state_valid()
    ensures { (insn : Insn) (cpu : Cpu) → IsOf cpu insn → Valid cpu → EachGives IsSound (table insn cpu) }
{}

/// Whatever memory and devices answer, an instruction asks for at most 64 things, makes at most 256
/// accesses, and touches at most 1,014 bytes of RAM: with the at most 10 of its own bytes' pages 1,024.
#[tactic(auto, using(crate::proofs::RowLaws::few_table))]
pub fn steps_are_bounded()
    ensures { (insn : Insn) (cpu : Cpu) → IsOf cpu insn → TakesAtMost 64 256 1014 (table insn cpu) }
{}

/// Where a turn ends before its last step with elements left to be done and nothing made, a longer
/// turn is that turn followed by one of the steps that are left: batches may be cut anywhere.
#[tactic(auto, using(crate::proofs::TurnLaws::turns_join))]
pub fn turns_join()
    ensures { (steps : Steps) → TurnsJoin steps }
{}

/// The definitions compute: MOV, IN and HLT, as a scripted keyboard answers.
#[tactic(auto, using(crate::proofs::Worked::worked_steps))]
pub fn definitions_compute()
    ensures { WorkedSteps }
{}
